ghost use Rattle.std.specs.Prelude.{◌≡◌, ◌<◌, ◌^◌, ◌++◌, ◌∷◌, List, Some, length, OnOk, IfOk};
ghost use Rattle.std.specs.Option.{option_to_list};
ghost use Rattle.rl_events.specs.declared.channel.ChannelEvent.{ChannelEvent};
ghost use Rattle.rl_model.specs.Parts.{Parts, read_in};
ghost use Rattle.rl_model.specs.World.{answer_of, one_message, the_conn, feed_conn};
ghost use Rattle.rl_chanlog.specs.Keeps.{Keeps};
ghost use Rattle.rl_world.specs.Serving.{AfterEach, StandsWith};
ghost use Rattle.rl_world.specs.Steps.{put_verdict};
ghost use Rattle.rl_world.specs.Kept.{followed};
ghost use Rattle.rl_world.specs.Ready.{acknowledgement};

use crate::travel::answer_arrives;
use rl_chanlog::ChanLog;
use rl_channel::Channel;
use rl_events::{Outcome, ReadReply, Verdict};
use rl_ids::{ConnNo, Copied, List, Moment, NoMemory, Place, Text, write_conn};
use rl_model::Client;
use rl_runs::Answer;
use rl_types::{Body, Entry, Item};
use std::alloc::Global;

/// The connection of a script's client.
pub const CLIENT: ConnNo = ConnNo(1);

/// The connection by which entries are fed.
const FEED: ConnNo = ConnNo(0);

// What the client gets of the acknowledgement of its message with this serial, or of its refusal with this
// code.
fn acknowledged(alloc: Global, serial: u64, code: Option<u32>) -> Result<Option<Answer>, NoMemory>
    ensures { IfOk result (λ answer. serial < 2 ^ 53 → answer ≡ Some (acknowledgement serial code)) }
{
    let Some((serial, code)) = answer_arrives(alloc, serial, code)? else {
        return Ok(None);
    };
    let conn = write_conn(alloc, CLIENT)?;
    Ok(Some(match code {
        None => Answer::Ack { conn, serial },
        Some(code) => Answer::Nack { conn, serial, code },
    }))
}

// The entry behind these follows them, where the log has one and it is retained.
fn follow(alloc: Global, log: &ChanLog, entries: &mut List<Entry>) -> Result<(), NoMemory>
    ensures { OnOk result ((parts : Parts) → Keeps log.now parts → entries.new ≡ followed (read_in parts (length entries.old) 1) entries.old) }
{
    let last = Place(entries.len() as u64);
    match log.read(alloc, last, 1) {
        Ok(ReadReply::Run(more)) => entries.append(more),
        Ok(ReadReply::NotRetained(_)) => Ok(()),
        Err(fault) => Err(fault),
    }
}

// A message is put, and the entry that it adds follows these. What it added is always retained: a body that is
// not too long is far below what the window may weigh.
fn put(
    alloc: Global,
    machine: &mut Channel,
    entries: &mut List<Entry>,
    conn: ConnNo,
    serial: u64,
    body: Body,
) -> Result<Verdict, NoMemory>
    ensures decided { IfOk result (λ answer. AfterEach machine.old entries.old (λ past. answer ≡ put_verdict past conn serial body)) }
    ensures stands { OnOk result (AfterEach machine.old entries.old (λ past. StandsWith machine.new entries.new (ChannelEvent.Put conn serial body 0 ∷ past))) }
    ensures setup { machine.new.setup ≡ machine.old.setup }
{
    let answer = machine.put(alloc, conn, serial, body, Moment(0))?;
    follow(alloc, machine.log(), entries)?;
    Ok(answer)
}

// A message of the client is put, and acknowledged.
pub fn put_message(
    alloc: Global,
    machine: &mut Channel,
    entries: &mut List<Entry>,
    serial: u64,
    body: Body,
) -> Result<Option<Answer>, NoMemory>
    ensures decided { IfOk result (λ answer. serial < 2 ^ 53 →
        AfterEach machine.old entries.old (λ past. option_to_list answer ≡ answer_of serial (put_verdict past the_conn serial body))) }
    ensures stands { OnOk result (AfterEach machine.old entries.old (λ past. StandsWith machine.new entries.new (ChannelEvent.Put the_conn serial body 0 ∷ past))) }
    ensures setup { machine.new.setup ≡ machine.old.setup }
{
    match put(alloc, machine, entries, CLIENT, serial, body) {
        Ok(Verdict::Done(Outcome::Taken(_))) => acknowledged(alloc, serial, None),
        Ok(Verdict::Done(Outcome::Refused(code))) => acknowledged(alloc, serial, Some(code)),
        Ok(Verdict::Old) => Ok(None),
        Err(fault) => Err(fault),
    }
}

// A message that no client sent is put.
pub fn put_fed(
    alloc: Global,
    machine: &mut Channel,
    entries: &mut List<Entry>,
    serial: u64,
    body: Body,
) -> Result<(), NoMemory>
    ensures stands { OnOk result (AfterEach machine.old entries.old (λ past. StandsWith machine.new entries.new (ChannelEvent.Put feed_conn serial body 0 ∷ past))) }
    ensures setup { machine.new.setup ≡ machine.old.setup }
{
    match put(alloc, machine, entries, FEED, serial, body) {
        Ok(_) => Ok(()),
        Err(fault) => Err(fault),
    }
}

// The client gets an acknowledgement, where there is one.
pub fn push_answer(client: &mut Client, answer: Option<Answer>) -> Result<(), NoMemory>
    ensures { OnOk result (client.new ≡ record client.old { answers = client.old.answers ++ option_to_list answer }) }
{
    match answer {
        Some(answer) => client.answers.push(answer),
        None => Ok(()),
    }
}

// A body of one message with this text.
pub fn one_message(alloc: Global, text: &Text) -> Result<Body, NoMemory>
    ensures { IfOk result (λ body. body ≡ one_message text.now) }
{
    let item = Item {
        id: None,
        name: None,
        payload: Some(text.copy(alloc)?),
        encoding: None,
        client: None,
    };
    let mut items = List::new(alloc);
    items.push(item)?;
    Ok(Body::Messages(items))
}
