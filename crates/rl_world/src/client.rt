ghost use Rattle.std.specs.Prelude.{◌≡◌, ◌++◌, drop, OnOk, IfOk};
ghost use Rattle.std.specs.Option.{option_copied};
ghost use Rattle.rl_model.specs.Client.{new_client, opened, dropped, connected, attach_in, publish, numbered, channel_of};
ghost use Rattle.rl_world.specs.Ends.{EndBy};
ghost use Rattle.rl_world.specs.Ready.{IsReady};

use crate::records::held;
use crate::travel::connected_arrives;
use rl_ids::{Copied, List, NoMemory, Text};
use rl_model::{Client, Sent};
use rl_runs::Command;
use rl_types::{Body, ChanState, ConnState, Given};
use std::alloc::Global;

// A client that is declared.
pub fn new_client(alloc: Global, name: &Text) -> Result<Client, NoMemory>
    ensures { IfOk result (λ client. client ≡ new_client name.now) }
{
    Ok(Client {
        name: name.copy(alloc)?,
        conn: ConnState::Initialized,
        chan: ChanState::Initialized,
        known: false,
        asked: None,
        published: List::new(alloc),
        answers: List::new(alloc),
        segments: List::new(alloc),
        sent: List::new(alloc),
    })
}

pub fn opened(state: ConnState) -> ConnState
    ensures { result ≡ opened state }
{
    match state {
        ConnState::Initialized | ConnState::Disconnected => ConnState::Connecting,
        other => other,
    }
}

pub fn dropped(state: ConnState) -> ConnState
    ensures { result ≡ dropped state }
{
    match state {
        ConnState::Connected => ConnState::Disconnected,
        other => other,
    }
}

// The client is told to attach.
pub fn attach(alloc: Global, client: &mut Client, asked: Option<Given>) -> Result<(), NoMemory>
    ensures { OnOk result (client.new ≡ attach_in client.old.chan asked client.old) }
{
    if client.chan != ChanState::Initialized {
        return Ok(());
    }
    if client.conn == ConnState::Connected {
        client.sent.push(Sent::Asks(asked.copy(alloc)?))?;
    }
    client.chan = ChanState::Attaching;
    client.asked = asked;
    Ok(())
}

// The client publishes.
pub fn publish(alloc: Global, client: &mut Client, body: Body) -> Result<(), NoMemory>
    ensures { OnOk result (client.new ≡ publish body client.old) }
{
    if client.conn == ConnState::Connected {
        let serial = client.published.len() as u64;
        client.sent.push(Sent::Sends(serial, body.copy(alloc)?))?;
    }
    client.published.push(body)
}

// The messages that were not answered yet follow what is to be sent.
fn push_pending(
    alloc: Global,
    sent: &mut List<Sent>,
    published: &[Body],
    answered: usize,
) -> Result<(), NoMemory>
    ensures { OnOk result (sent.new ≡ sent.old ++ drop answered (numbered 0 published.now)) }
{
    let mut serial = answered;
    while serial < published.len() {
        let body = published[serial].copy(alloc)?;
        sent.push(Sent::Sends(serial as u64, body))?;
        serial += 1;
    }
    Ok(())
}

// The client is told that it is connected: it attaches again, and sends again what was not answered. No segment
// ends past the head.
pub fn connect(alloc: Global, client: &mut Client, head: u64) -> Result<(), NoMemory>
    ensures { OnOk result (EndBy head client.old.segments → client.new ≡ connected client.old) }
{
    if !connected_arrives(alloc)? {
        return Ok(());
    }
    let mut sent = List::new(alloc);
    if matches!(client.chan, ChanState::Attaching | ChanState::Attached) {
        let serial = held(alloc, &client.asked, &client.segments, head)?;
        sent.push(Sent::Asks(serial))?;
        client.chan = ChanState::Attaching;
    }
    push_pending(
        alloc,
        &mut sent,
        client.published.as_slice(),
        client.answers.len(),
    )?;
    client.sent = sent;
    client.conn = ConnState::Connected;
    client.known = true;
    Ok(())
}

// Connects a connecting client. Whether the client is then connected, so that it is to be served.
pub fn make_ready(alloc: Global, client: &mut Client, head: u64) -> Result<bool, NoMemory>
    ensures { IfOk result (λ is. EndBy head client.old.segments → IsReady client.old.conn client.old client.new is) }
{
    match client.conn {
        ConnState::Connecting => {
            connect(alloc, client, head)?;
            Ok(true)
        }
        ConnState::Connected => Ok(true),
        _ => Ok(false),
    }
}

/// The channel that a command names, of those that scripts have yet.
pub fn channel_of(command: &Command) -> Option<&Text>
    ensures { option_copied result ≡ channel_of command.now }
{
    match command {
        Command::Attach(channel) => Some(channel),
        Command::AttachAt(channel, _) => Some(channel),
        Command::Publish(channel, _) => Some(channel),
        _ => None,
    }
}
