//! An actor with many sessions, of which each gets an entry or a message in turn.
use crate::calls::{absorb, next_out, reading, receive, wanted};
use crate::texts::{NOW, items, name_of};
use anyhow::{Result, anyhow};
use rl_actor::Actor;
use rl_events::{
    BookReply, Call, ChannelNo, ChannelReply, DirReply, Outcome, ReadReply, Reply, Verdict,
};
use rl_ids::{ChannelSerial, ConnNo, Epoch, List, Place, Text};
use rl_types::{Body, Entry, Frame, Head};
use std::alloc::Global;

fn entry_at(alloc: Global, place: Place) -> Result<Entry> {
    Ok(Entry {
        place,
        stamp: NOW,
        conn: ConnNo(1),
        serial: None,
        body: Body::Messages(items(alloc)?),
    })
}

fn run_at(alloc: Global, place: Place) -> Result<Reply> {
    let mut entries = List::new(alloc);
    entries.push(entry_at(alloc, place)?)?;
    Ok(Reply::Chan(ChannelReply::Read(ReadReply::Run(entries))))
}

fn message(alloc: Global, channel: u64, serial: u64) -> Result<Frame> {
    Ok(Frame::Message {
        head: Head {
            channel: name_of(alloc, channel)?,
            msg: Some(serial),
            serial: None,
            conn: None,
            id: None,
            stamp: None,
        },
        items: items(alloc)?,
    })
}

// The call is replied so.
fn reply_to(alloc: Global, actor: &mut Actor, call: Option<Call>, reply: Reply) -> Result<()> {
    match call {
        Some(call) => absorb(alloc, actor, &call, reply),
        None => Err(anyhow!("no call is wanted")),
    }
}

// The call that is wanted is replied so.
fn reply(alloc: Global, actor: &mut Actor, reply: Reply) -> Result<()> {
    let call = wanted(alloc, actor)?;
    reply_to(alloc, actor, call, reply)
}

// The frame that waits is let go.
fn skip(actor: &mut Actor) {
    next_out(actor);
}

fn is_message(frame: &Option<Frame>) -> bool {
    matches!(frame, Some(Frame::Message { .. }))
}

fn is_ack(frame: &Option<Frame>) -> bool {
    matches!(frame, Some(Frame::Ack { .. }))
}

fn puts_out_message(actor: &mut Actor) -> bool {
    is_message(&next_out(actor))
}

fn puts_out_ack(actor: &mut Actor) -> bool {
    is_ack(&next_out(actor))
}

fn opened(alloc: Global) -> Result<Reply> {
    Ok(Reply::Book(BookReply::Opened {
        conn: ConnNo(1),
        generation: 1,
        key: Text::from_str(alloc, "c1!1-1")?,
    }))
}

fn attaching(alloc: Global, channel: u64) -> Result<Frame> {
    Ok(Frame::Attach {
        channel: name_of(alloc, channel)?,
        serial: None,
    })
}

// The number of a channel, by its name's.
fn at(channel: u64) -> Reply {
    Reply::Dir(DirReply::At(ChannelNo(channel.to_le_bytes()[0])))
}

fn joined() -> Reply {
    let serial = ChannelSerial {
        epoch: Epoch(1),
        place: Place(0),
    };
    Reply::Chan(ChannelReply::Joined {
        serial,
        resumed: false,
        presence: false,
        objects: false,
    })
}

fn taken(place: u64) -> Reply {
    let verdict = Verdict::Done(Outcome::Taken(Place(place)));
    Reply::Chan(ChannelReply::Put(verdict))
}

// The channel gets its session, whose number is the channel's.
fn attach(alloc: Global, actor: &mut Actor, channel: u64) -> Result<()> {
    receive(alloc, actor, attaching(alloc, channel)?)?;
    reply(alloc, actor, at(channel))?;
    reply(alloc, actor, joined())?;
    skip(actor);
    Ok(())
}

// The connection stands.
fn open(alloc: Global, actor: &mut Actor) -> Result<()> {
    reply(alloc, actor, opened(alloc)?)?;
    skip(actor);
    Ok(())
}

/// A new actor gets this many sessions.
pub fn attach_all(alloc: Global, actor: &mut Actor, sessions: u64) -> Result<()> {
    open(alloc, actor)?;
    for channel in 0..sessions {
        attach(alloc, actor, channel)?;
    }
    Ok(())
}

/// What `put_out` is given, made and nothing done with it: whether it is of its form.
pub fn make_entry(alloc: Global, channel: u64, place: Place) -> Result<bool> {
    let name = name_of(alloc, channel)?;
    Ok(!name.is_empty() && matches!(run_at(alloc, place)?, Reply::Chan(_)))
}

/// The channel's session reads the entry at this place, and puts it out.
pub fn put_out(alloc: Global, actor: &mut Actor, channel: u64, place: Place) -> Result<bool> {
    let name = name_of(alloc, channel)?;
    let call = reading(actor, &name);
    reply_to(alloc, actor, call, run_at(alloc, place)?)?;
    Ok(puts_out_message(actor))
}

/// What `put` is given, made and nothing done with it: whether it is of its form.
pub fn make_message(alloc: Global, channel: u64, serial: u64) -> Result<bool> {
    Ok(matches!(message(alloc, channel, serial)?, Frame::Message { .. }))
}

/// A message is taken up, put on its channel and acknowledged.
pub fn put(alloc: Global, actor: &mut Actor, channel: u64, serial: u64) -> Result<bool> {
    receive(alloc, actor, message(alloc, channel, serial)?)?;
    reply(alloc, actor, Reply::Book(BookReply::Go))?;
    reply(alloc, actor, taken(serial))?;
    reply(alloc, actor, Reply::Book(BookReply::Done))?;
    Ok(puts_out_ack(actor))
}
