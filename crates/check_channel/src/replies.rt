// The replies as texts.
use anyhow::Result;
use rl_events::{ChannelReply, Outcome, ReadReply, Verdict};
use rl_ids::{List, Text};
use rl_types::{Body, Entry, Item, PresenceAction, PresenceItem};
use std::alloc::Global;

fn verdict_text(alloc: Global, verdict: &Verdict) -> Result<String> {
    match verdict {
        Verdict::Done(Outcome::Taken(place)) => Ok(format!(in alloc; "taken {}", place.0)?),
        Verdict::Done(Outcome::Refused(code)) => Ok(format!(in alloc; "refused {code}")?),
        Verdict::Old => Ok(String::from_str(alloc, "old")?),
    }
}

fn or_none(text: &Option<Text>) -> &str {
    match text {
        Some(text) => text.as_str(),
        None => "-",
    }
}

fn push_message(text: &mut String, item: &Item) -> Result<()> {
    text.push(' ')?;
    text.push_str(or_none(&item.id))?;
    text.push(':')?;
    text.push_str(or_none(&item.payload))?;
    Ok(())
}

fn action_text(action: PresenceAction) -> &'static str {
    match action {
        PresenceAction::Absent => "absent",
        PresenceAction::Present => "present",
        PresenceAction::Enter => "enter",
        PresenceAction::Leave => "leave",
        PresenceAction::Update => "update",
    }
}

// Action, connection, client, id, stamp and data.
fn push_item(alloc: Global, text: &mut String, item: &PresenceItem) -> Result<()> {
    let told = format!(in alloc;
        " {}:{}:{}@{}@{}:{}",
        action_text(item.action),
        item.conn.as_str(),
        item.client.as_str(),
        item.id.as_str(),
        item.stamp.0,
        or_none(&item.payload)
    )?;
    text.push_str(told.as_str())?;
    Ok(())
}

fn push_items(alloc: Global, text: &mut String, items: &List<PresenceItem>) -> Result<()> {
    for item in items.as_slice() {
        push_item(alloc, text, item)?;
    }
    Ok(())
}

fn push_messages(text: &mut String, items: &List<Item>) -> Result<()> {
    for item in items.as_slice() {
        push_message(text, item)?;
    }
    Ok(())
}

// Place, stamp, connection and serial, and the body.
fn push_entry(alloc: Global, text: &mut String, entry: &Entry) -> Result<()> {
    let head = format!(in alloc; " | {} {} {}", entry.place.0, entry.stamp.0, entry.conn.0)?;
    text.push_str(head.as_str())?;
    match entry.serial {
        Some(serial) => text.push_str(format!(in alloc; " {serial}")?.as_str())?,
        None => text.push_str(" -")?,
    }
    match &entry.body {
        Body::Messages(items) => push_messages(text, items),
        Body::Presence(items) => push_items(alloc, text, items),
        Body::Objects(ops) => {
            text.push_str(format!(in alloc; " objects {}", ops.len())?.as_str())?;
            Ok(())
        }
    }
}

// The entries of a short run; of a longer one the first and the last place.
fn run_text(alloc: Global, entries: &List<Entry>) -> Result<String> {
    if let (Some(first), Some(last)) = (entries.as_slice().first(), entries.last()) {
        if entries.len() > 3 {
            return Ok(format!(in alloc; "run {} to {}", first.place.0, last.place.0)?);
        }
    }
    let mut text = String::from_str(alloc, "run")?;
    for entry in entries.as_slice() {
        push_entry(alloc, &mut text, entry)?;
    }
    Ok(text)
}

fn flag(name: &'static str, is: bool) -> &'static str {
    if is { name } else { "" }
}

fn members_text(
    alloc: Global,
    items: &List<PresenceItem>,
    last: bool,
    head: u64,
) -> Result<String> {
    let mut text = String::from_str(alloc, "members")?;
    if items.len() > 3 {
        text.push_str(format!(in alloc; " {}", items.len())?.as_str())?;
    } else {
        push_items(alloc, &mut text, items)?;
    }
    text.push_str(flag(" last", last))?;
    text.push_str(format!(in alloc; " head {head}")?.as_str())?;
    Ok(text)
}

/// The text of a reply.
pub fn reply_text(alloc: Global, reply: &ChannelReply) -> Result<String> {
    match reply {
        ChannelReply::Put(verdict) => verdict_text(alloc, verdict),
        ChannelReply::Joined {
            serial,
            resumed,
            presence,
            objects,
        } => Ok(format!(in alloc;
            "joined {}{}{}{}",
            serial.place.0,
            flag(" resumed", *resumed),
            flag(" presence", *presence),
            flag(" objects", *objects)
        )?),
        ChannelReply::Read(ReadReply::Run(entries)) => run_text(alloc, entries),
        ChannelReply::Read(ReadReply::NotRetained(first)) => {
            Ok(format!(in alloc; "notretained {}", first.0)?)
        }
        ChannelReply::Members { items, last, head } => members_text(alloc, items, *last, head.0),
        ChannelReply::Objects { states, last, head } => Ok(format!(in alloc;
            "objects {}{} head {}",
            states.len(),
            flag(" last", *last),
            head.0
        )?),
        ChannelReply::Gone(Some(place)) => Ok(format!(in alloc; "gone {}", place.0)?),
        ChannelReply::Gone(None) => Ok(String::from_str(alloc, "gone none")?),
        ChannelReply::Ticked => Ok(String::from_str(alloc, "ticked")?),
        ChannelReply::Census {
            first,
            head,
            members,
            objects,
        } => Ok(format!(in alloc; "census {} {} {members} {objects}", first.0, head.0)?),
    }
}
