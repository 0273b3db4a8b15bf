// Events of page sequences.
use crate::items::{items_of, items_text};
use crate::shown::states_text;
use crate::states::states_of;
use crate::words::{is_first, number, push_gap, split_two, truth};
use anyhow::{Result, anyhow};
use rl_events::{ChannelEvent, ChannelReply};
use rl_ids::{List, MemberKey, ObjectId, Place, Text, object_id_code};
use rl_pages::Pages;
use rl_types::{Cursor, Frame, ObjectState, PresenceItem};
use std::alloc::Global;

// `CHANNEL SEQUENCE KINDS`, with the kinds `both`, `members`, `objects` or `neither`.
fn begin(alloc: Global, pages: &mut Pages, rest: &str) -> Result<String> {
    let (channel, rest) = split_two(rest)?;
    let (sequence, kinds) = split_two(rest)?;
    let (members, objects) = match kinds {
        "both" => (true, true),
        "members" => (true, false),
        "objects" => (false, true),
        "neither" => (false, false),
        _ => return Err(anyhow!("no kinds of pages: {kinds}")),
    };
    let channel = Text::from_str(alloc, channel)?;
    *pages = Pages::new(channel, number(sequence)?, members, objects);
    Ok(String::from_str(alloc, "begun")?)
}

fn key_text(alloc: Global, key: &Option<MemberKey>) -> Result<String> {
    match key {
        Some(key) => Ok(format!(in alloc; "{}/{}", key.conn.as_str(), key.client.as_str())?),
        None => Ok(String::from_str(alloc, "-")?),
    }
}

fn id_text(alloc: Global, id: &Option<ObjectId>) -> Result<String> {
    match id {
        Some(id) => Ok(String::from_str(alloc, object_id_code(id).as_str())?),
        None => Ok(String::from_str(alloc, "-")?),
    }
}

// The event of the page that is wanted next: its kind, the cursor and the most that it has.
fn event_text(alloc: Global, event: &Option<ChannelEvent>) -> Result<String> {
    match event {
        Some(ChannelEvent::MemberPage { after, max }) => {
            let after = key_text(alloc, after)?;
            Ok(format!(in alloc; "members {} {max}", after.as_str())?)
        }
        Some(ChannelEvent::ObjectPage { after, max }) => {
            let after = id_text(alloc, after)?;
            Ok(format!(in alloc; "objects {} {max}", after.as_str())?)
        }
        Some(_) => Ok(String::from_str(alloc, "another event")?),
        None => Ok(String::from_str(alloc, "none")?),
    }
}

fn cursor_text(alloc: Global, at: &Option<Cursor>) -> Result<String> {
    match at {
        Some(at) => Ok(format!(in alloc; "{}:{}", at.sequence.as_str(), at.cursor.as_str())?),
        None => Ok(String::from_str(alloc, "-")?),
    }
}

fn head_text(alloc: Global, name: &str, channel: &Text, at: &Option<Cursor>) -> Result<String> {
    let at = cursor_text(alloc, at)?;
    Ok(format!(in alloc; "{name} {} {}", channel.as_str(), at.as_str())?)
}

// The head of a frame, and what it brings.
fn with_content(mut head: String, content: &String) -> Result<String> {
    if !content.is_empty() {
        head.push(' ')?;
        head.push_str(content.as_str())?;
    }
    Ok(head)
}

fn frame_text(alloc: Global, frame: &Frame) -> Result<String> {
    match frame {
        Frame::Sync { channel, at, items } => with_content(
            head_text(alloc, "sync", channel, at)?,
            &items_text(alloc, items)?,
        ),
        Frame::ObjectSync {
            channel,
            at,
            states,
        } => with_content(
            head_text(alloc, "objectsync", channel, at)?,
            &states_text(alloc, states)?,
        ),
        _ => Ok(String::from_str(alloc, "another frame")?),
    }
}

fn frames_text(alloc: Global, frames: &List<Frame>) -> Result<String> {
    let mut text = String::new(alloc);
    for frame in frames.as_slice() {
        push_gap(&mut text)?;
        text.push_str(frame_text(alloc, frame)?.as_str())?;
    }
    if text.is_empty() {
        text.push_str("nothing")?;
    }
    Ok(text)
}

// Gives the members of the page that is wanted next.
fn absorb_members(
    alloc: Global,
    pages: &mut Pages,
    items: List<PresenceItem>,
    last: bool,
    head: Place,
) -> Result<String> {
    match pages.next(alloc)? {
        Some(ChannelEvent::MemberPage { .. }) => {
            let reply = ChannelReply::Members { items, last, head };
            let frame = pages.absorb(alloc, &reply)?;
            frame_text(alloc, &frame)
        }
        _ => Err(anyhow!("no members are wanted")),
    }
}

// Gives the objects of the page that is wanted next.
fn absorb_objects(
    alloc: Global,
    pages: &mut Pages,
    states: List<ObjectState>,
    last: bool,
    head: Place,
) -> Result<String> {
    match pages.next(alloc)? {
        Some(ChannelEvent::ObjectPage { .. }) => {
            let reply = ChannelReply::Objects { states, last, head };
            let frame = pages.absorb(alloc, &reply)?;
            frame_text(alloc, &frame)
        }
        _ => Err(anyhow!("no objects are wanted")),
    }
}

// `last HEAD ITEM..`, or with `more`.
fn members(alloc: Global, pages: &mut Pages, rest: &str) -> Result<String> {
    let (last, rest) = split_two(rest)?;
    let last = is_first(last, "last", "more")?;
    let (head, words) = rest.split_once(' ').unwrap_or((rest, ""));
    let head = Place(number(head)?);
    absorb_members(alloc, pages, items_of(alloc, words)?, last, head)
}

// `last HEAD STATE..`, or with `more`.
fn objects(alloc: Global, pages: &mut Pages, rest: &str) -> Result<String> {
    let (last, rest) = split_two(rest)?;
    let last = is_first(last, "last", "more")?;
    let (head, words) = rest.split_once(' ').unwrap_or((rest, ""));
    let head = Place(number(head)?);
    absorb_objects(alloc, pages, states_of(alloc, words)?, last, head)
}

/// What page sequences answer to an event.
pub fn page_event(alloc: Global, pages: &mut Pages, word: &str, rest: &str) -> Result<String> {
    match word {
        "begin" => begin(alloc, pages, rest),
        "next" => event_text(alloc, &pages.next(alloc)?),
        "members" => members(alloc, pages, rest),
        "objects" => objects(alloc, pages, rest),
        "mayend" => truth(alloc, pages.may_end(Place(number(rest)?))),
        "ends" => frames_text(alloc, &pages.end_frames(alloc)?),
        _ => Err(anyhow!("no event: {word}")),
    }
}
