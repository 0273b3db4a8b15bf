// Presence items and what is told of members, read and as texts.
use crate::words::{number, optional, push_gap, push_text, split_part, text_of};
use anyhow::{Result, anyhow};
use rl_ids::{List, Moment, Text};
use rl_presmap::PresenceEvent;
use rl_types::{PresenceAction, PresenceItem};
use std::alloc::Global;

// So many members or events are shown whole.
const SHOWN_ITEMS: usize = 8;

fn action_of(word: &str) -> Result<PresenceAction> {
    match word {
        "absent" => Ok(PresenceAction::Absent),
        "present" => Ok(PresenceAction::Present),
        "enter" => Ok(PresenceAction::Enter),
        "leave" => Ok(PresenceAction::Leave),
        "update" => Ok(PresenceAction::Update),
        _ => Err(anyhow!("no action: {word}")),
    }
}

fn action_text(action: PresenceAction) -> &'static str {
    match action {
        PresenceAction::Absent => "absent",
        PresenceAction::Present => "present",
        PresenceAction::Enter => "enter",
        PresenceAction::Leave => "leave",
        PresenceAction::Update => "update",
    }
}

/// `ACTION;CONNECTION;CLIENT;ID;STAMP;DATA;ENCODING`; `-` is no data and no encoding.
pub fn item_of(alloc: Global, word: &str) -> Result<PresenceItem> {
    let (action, rest) = split_part(word)?;
    let (conn, rest) = split_part(rest)?;
    let (client, rest) = split_part(rest)?;
    let (id, rest) = split_part(rest)?;
    let (stamp, rest) = split_part(rest)?;
    let (payload, encoding) = split_part(rest)?;
    Ok(PresenceItem {
        action: action_of(action)?,
        client: text_of(alloc, client)?,
        conn: text_of(alloc, conn)?,
        id: text_of(alloc, id)?,
        stamp: Moment(number(stamp)?),
        payload: optional(alloc, payload)?,
        encoding: optional(alloc, encoding)?,
    })
}

pub fn items_of(alloc: Global, words: &str) -> Result<List<PresenceItem>> {
    let mut items = List::new(alloc);
    if words.is_empty() {
        return Ok(items);
    }
    for word in words.split(' ') {
        items.push(item_of(alloc, word)?)?;
    }
    Ok(items)
}

fn push_optional(alloc: Global, text: &mut String, one: &Option<Text>) -> Result<()> {
    match one {
        Some(one) => push_text(alloc, text, one.as_str()),
        None => {
            text.push('-')?;
            Ok(())
        }
    }
}

// As lines tell it.
fn push_item(alloc: Global, text: &mut String, item: &PresenceItem) -> Result<()> {
    let told = format!(in alloc;
        "{};{};{};{};{};",
        action_text(item.action),
        item.conn.as_str(),
        item.client.as_str(),
        item.id.as_str(),
        item.stamp.0
    )?;
    text.push_str(told.as_str())?;
    push_optional(alloc, text, &item.payload)?;
    text.push(';')?;
    push_optional(alloc, text, &item.encoding)
}

/// Items with blanks between them.
pub fn items_text(alloc: Global, items: &List<PresenceItem>) -> Result<String> {
    let mut text = String::new(alloc);
    for item in items.as_slice() {
        push_gap(&mut text)?;
        push_item(alloc, &mut text, item)?;
    }
    Ok(text)
}

/// A few members whole; of more how many they are.
pub fn members_text(alloc: Global, members: &List<PresenceItem>) -> Result<String> {
    if members.len() > SHOWN_ITEMS {
        return Ok(format!(in alloc; "{} members", members.len())?);
    }
    items_text(alloc, members)
}

fn push_event(alloc: Global, text: &mut String, event: &PresenceEvent) -> Result<()> {
    let (name, item) = match event {
        PresenceEvent::Entered(item) => ("entered ", item),
        PresenceEvent::Updated(item) => ("updated ", item),
        PresenceEvent::Left(item) => ("left ", item),
    };
    push_gap(text)?;
    text.push_str(name)?;
    push_item(alloc, text, item)
}

/// What one item tells, or that it tells nothing.
pub fn event_text(alloc: Global, event: &Option<PresenceEvent>) -> Result<String> {
    let mut text = String::new(alloc);
    match event {
        Some(event) => push_event(alloc, &mut text, event)?,
        None => text.push_str("nothing")?,
    }
    Ok(text)
}

/// A few events whole; of more how many they are.
pub fn events_text(alloc: Global, events: &List<PresenceEvent>) -> Result<String> {
    if events.len() > SHOWN_ITEMS {
        return Ok(format!(in alloc; "{} events", events.len())?);
    }
    if events.is_empty() {
        return Ok(String::from_str(alloc, "nothing")?);
    }
    let mut text = String::new(alloc);
    for event in events.as_slice() {
        push_event(alloc, &mut text, event)?;
    }
    Ok(text)
}
