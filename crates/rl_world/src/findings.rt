ghost use Rattle.std.specs.Prelude.{◌≡◌, ◌-◌, Bool, List, Option, IfOk, drop, length, option_map, [], ◌∷◌};
ghost use Rattle.std.specs.Option.{option_to_list};
ghost use Rattle.rl_model.specs.Findings.{client_shown, clients_shown, conn_shown, held_serial, is_attached, objects_known, view_of, views_in};
ghost use Rattle.rl_model.specs.Client.{pending};
ghost use Rattle.rl_model.specs.Parts.{Parts, retained};
ghost use Rattle.rl_chanlog.specs.Keeps.{Keeps};
ghost use Rattle.rl_world.specs.Ends.{EndBy, EndsBy};
ghost use Rattle.rl_world.specs.Kept.{channel_kept, channels_kept};

use crate::records::held;
use crate::serving::CLIENT;
use rl_chanlog::ChanLog;
use rl_events::ReadReply;
use rl_ids::{ChannelSerial, Copied, List, NoMemory, ObjectId, Place, Text, write_conn};
use rl_model::Client;
use rl_runs::{ChannelFindings, ChannelView, ClientFindings, Record};
use rl_types::{ChanState, Entry, Given, ObjectBody, ObjectState};
use std::alloc::Global;

// All entries that are retained.
fn retained(alloc: Global, log: &ChanLog) -> Result<List<Entry>, NoMemory>
    ensures { IfOk result (λ entries. (parts : Parts) → Keeps log.now parts → entries ≡ retained parts) }
{
    let before = Place(log.first().0 - 1);
    match log.read(alloc, before, log.len()) {
        Ok(ReadReply::Run(entries)) => Ok(entries),
        Ok(ReadReply::NotRetained(_)) => Ok(List::new(alloc)),
        Err(fault) => Err(fault),
    }
}

// What the channel shows.
fn channel_findings(alloc: Global, name: &Text, log: &ChanLog) -> Result<ChannelFindings, NoMemory>
    ensures { IfOk result (λ shown. (parts : Parts) → Keeps log.now parts → shown ≡ channel_kept name.now parts) }
{
    Ok(ChannelFindings {
        name: name.copy(alloc)?,
        first: log.first(),
        head: log.head(),
        entries: retained(alloc, log)?,
    })
}

fn held_serial(serial: &Option<Given>) -> Option<ChannelSerial>
    ensures { result ≡ held_serial serial.now }
{
    match serial {
        Some(Given::Ours(serial)) => Some(*serial),
        _ => None,
    }
}

fn is_attached(state: ChanState) -> bool
    ensures { result ≡ is_attached state }
{
    state == ChanState::Attached
}

// The objects that the client knows: the root, since no script makes one yet.
fn objects_of(alloc: Global) -> Result<List<ObjectState>, NoMemory>
    ensures { IfOk result (λ objects. objects ≡ objects_known) }
{
    let mut objects = List::new(alloc);
    objects.push(ObjectState {
        id: ObjectId::Root,
        sites: List::new(alloc),
        tombstone: false,
        created: true,
        body: ObjectBody::Map(List::new(alloc)),
    })?;
    Ok(objects)
}

// What the client shows of the channel, where no segment ends past the head.
fn view_of(alloc: Global, name: &Text, client: &Client, head: u64) -> Result<ChannelView, NoMemory>
    ensures { IfOk result (λ view. EndBy head client.now.segments → view ≡ view_of name.now client.now) }
{
    let serial = held(alloc, &client.asked, &client.segments, head)?;
    let whole = is_attached(client.chan);
    Ok(ChannelView {
        name: name.copy(alloc)?,
        state: client.chan,
        held: held_serial(&serial),
        runs: Record {
            segments: client.segments.copy(alloc)?,
        },
        members_whole: whole,
        members: List::new(alloc),
        objects_whole: whole,
        objects: objects_of(alloc)?,
    })
}

fn views_of(
    alloc: Global,
    channel: &Option<Text>,
    client: &Client,
    head: u64,
) -> Result<List<ChannelView>, NoMemory>
    ensures { IfOk result (λ views. EndBy head client.now.segments → views ≡ views_in client.now.chan channel.now client.now) }
{
    let mut views = List::new(alloc);
    if client.chan == ChanState::Initialized {
        return Ok(views);
    }
    if let Some(name) = channel {
        views.push(view_of(alloc, name, client, head)?)?;
    }
    Ok(views)
}

fn conn_shown(alloc: Global, known: bool) -> Result<Option<Text>, NoMemory>
    ensures { IfOk result (λ conn. conn ≡ conn_shown known) }
{
    if known {
        Ok(Some(write_conn(alloc, CLIENT)?))
    } else {
        Ok(None)
    }
}

// How many messages wait for their acknowledgement.
#[tactic(auto, using(crate::proofs::Shown::pending_count))]
fn pending_count(client: &Client) -> usize
    ensures { result ≡ length (pending client.now) }
{
    client.published.len().saturating_sub(client.answers.len())
}

// What the client shows, where no segment ends past the head.
fn client_findings(
    alloc: Global,
    channel: &Option<Text>,
    client: &Client,
    head: u64,
) -> Result<ClientFindings, NoMemory>
    ensures { IfOk result (λ shown. EndBy head client.now.segments → shown ≡ client_shown channel.now client.now) }
{
    let conn = conn_shown(alloc, client.known)?;
    let views = views_of(alloc, channel, client, head)?;
    Ok(ClientFindings {
        name: client.name.copy(alloc)?,
        state: client.conn,
        conn,
        pending: pending_count(client),
        dropped: 0,
        answers: client.answers.copy(alloc)?,
        views,
    })
}

// What the channel shows, once it took an event.
pub fn channels_of(
    alloc: Global,
    name: &Option<Text>,
    begun: bool,
    log: &ChanLog,
) -> Result<List<ChannelFindings>, NoMemory>
    ensures { IfOk result (λ shown. (parts : Parts) → Keeps log.now parts → shown ≡ channels_kept name.now begun parts) }
{
    let mut channels = List::new(alloc);
    match name {
        Some(name) if begun => channels.push(channel_findings(alloc, name, log)?)?,
        _ => {}
    }
    Ok(channels)
}

// What the client shows, where there is one and no segment ends past the head.
pub fn clients_of(
    alloc: Global,
    channel: &Option<Text>,
    client: &Option<Client>,
    head: u64,
) -> Result<List<ClientFindings>, NoMemory>
    ensures { IfOk result (λ shown. EndsBy head client.now → shown ≡ clients_shown channel.now client.now) }
{
    let mut clients = List::new(alloc);
    if let Some(client) = client {
        clients.push(client_findings(alloc, channel, client, head)?)?;
    }
    Ok(clients)
}
