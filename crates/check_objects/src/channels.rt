// Events of a channel that is given operations on objects.
use crate::ops::{object_id_or_none, plain_ops};
use crate::shown::states_text;
use crate::words::{number, push_gap, split_two};
use anyhow::{Context, Result, anyhow};
use rl_channel::Channel;
use rl_events::{ChannelEvent, ChannelReply, Outcome, Verdict};
use rl_ids::{ChannelSerial, ConnNo, Epoch, List, Moment, Place, read_site};
use rl_turnlock::Machine;
use rl_types::{Body, Given, ObjectState};
use std::alloc::Global;

/// A channel of the epoch 1 and the site `s1`.
pub fn new_channel(alloc: Global) -> Result<Channel> {
    let site = read_site("s1").context("the site")?;
    Ok(Channel::new(alloc, Epoch(1), site)?)
}

fn verdict_text(alloc: Global, verdict: &Verdict) -> Result<String> {
    match verdict {
        Verdict::Done(Outcome::Taken(place)) => Ok(format!(in alloc; "taken {}", place.0)?),
        Verdict::Done(Outcome::Refused(code)) => Ok(format!(in alloc; "refused {code}")?),
        Verdict::Old => Ok(String::from_str(alloc, "old")?),
    }
}

fn page_text(alloc: Global, states: &List<ObjectState>, last: bool, head: Place) -> Result<String> {
    let mut text = states_text(alloc, states)?;
    push_gap(&mut text)?;
    text.push_str(if last { "last" } else { "more" })?;
    text.push_str(format!(in alloc; " head {}", head.0)?.as_str())?;
    Ok(text)
}

fn joined_text(alloc: Global, place: Place, resumed: bool, objects: bool) -> Result<String> {
    Ok(format!(in alloc;
        "joined {}{}{}",
        place.0,
        if resumed { " resumed" } else { "" },
        if objects { " objects" } else { "" }
    )?)
}

fn reply_text(alloc: Global, reply: &ChannelReply) -> Result<String> {
    match reply {
        ChannelReply::Put(verdict) => verdict_text(alloc, verdict),
        ChannelReply::Objects { states, last, head } => page_text(alloc, states, *last, *head),
        ChannelReply::Joined {
            serial,
            resumed,
            objects,
            ..
        } => joined_text(alloc, serial.place, *resumed, *objects),
        ChannelReply::Ticked => Ok(String::from_str(alloc, "passed")?),
        ChannelReply::Census { objects, .. } => Ok(format!(in alloc; "{objects}")?),
        _ => Err(anyhow!("another reply")),
    }
}

// `SERIAL MOMENT OP..`, by connection 1.
fn put(alloc: Global, rest: &str) -> Result<ChannelEvent> {
    let (serial, rest) = split_two(rest)?;
    let (now, words) = rest.split_once(' ').unwrap_or((rest, ""));
    Ok(ChannelEvent::Put {
        conn: ConnNo(1),
        serial: number(serial)?,
        body: Body::Objects(plain_ops(alloc, words)?),
        now: Moment(number(now)?),
    })
}

// `ID MAX`; `-` is no id.
fn page(rest: &str) -> Result<ChannelEvent> {
    let (word, max) = split_two(rest)?;
    Ok(ChannelEvent::ObjectPage {
        after: object_id_or_none(word)?,
        max: max.parse::<usize>()?,
    })
}

// `PLACE`; `-` is no serial.
fn join(word: &str) -> Result<ChannelEvent> {
    if word == "-" {
        return Ok(ChannelEvent::Join { asked: None });
    }
    Ok(ChannelEvent::Join {
        asked: Some(Given::Ours(ChannelSerial {
            epoch: Epoch(1),
            place: Place(number(word)?),
        })),
    })
}

fn event_of(alloc: Global, word: &str, rest: &str) -> Result<ChannelEvent> {
    match word {
        "put" => put(alloc, rest),
        "objectpage" => page(rest),
        "join" => join(rest),
        "pass" => Ok(ChannelEvent::Tick {
            now: Moment(number(rest)?),
        }),
        "census" => Ok(ChannelEvent::Census),
        _ => Err(anyhow!("no event: {word}")),
    }
}

/// What a channel answers to an event.
pub fn channel_event(
    alloc: Global,
    channel: &mut Channel,
    word: &str,
    rest: &str,
) -> Result<String> {
    let reply = channel.take(alloc, event_of(alloc, word, rest)?)?;
    reply_text(alloc, &reply)
}
