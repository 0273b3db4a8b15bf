// What was got on a channel.
use crate::ops::push_ops;
use crate::words::{push_mark, push_optional};
use anyhow::Result;
use rl_ids::{List, Place};
use rl_runs::Record;
use rl_types::{Body, Item, PresenceAction, PresenceItem};
use std::alloc::Global;

fn action_word(action: PresenceAction) -> &'static str {
    match action {
        PresenceAction::Absent => "absent",
        PresenceAction::Present => "present",
        PresenceAction::Enter => "enter",
        PresenceAction::Leave => "leave",
        PresenceAction::Update => "update",
    }
}

// Messages, each behind a blank: its data, and before a colon its id where it has one.
fn push_messages(text: &mut String, items: &List<Item>) -> Result<()> {
    for item in items.as_slice() {
        text.push(' ')?;
        if let Some(id) = &item.id {
            text.push_str(id.as_str())?;
            text.push(':')?;
        }
        push_optional(text, &item.payload)?;
    }
    Ok(())
}

/// Adds a member, as `CONNECTION/CLIENT=DATA`.
pub fn push_member(text: &mut String, item: &PresenceItem) -> Result<()> {
    text.push_str(item.conn.as_str())?;
    text.push('/')?;
    text.push_str(item.client.as_str())?;
    text.push('=')?;
    push_optional(text, &item.payload)
}

fn push_presence(text: &mut String, items: &List<PresenceItem>) -> Result<()> {
    for item in items.as_slice() {
        text.push(' ')?;
        text.push_str(action_word(item.action))?;
        text.push(' ')?;
        push_member(text, item)?;
    }
    Ok(())
}

fn push_body(alloc: Global, text: &mut String, body: &Body) -> Result<()> {
    match body {
        Body::Messages(items) => push_messages(text, items),
        Body::Presence(items) => push_presence(text, items),
        Body::Objects(ops) => push_ops(alloc, text, ops),
    }
}

fn push_entries(alloc: Global, text: &mut String, got: &List<(Place, Body)>) -> Result<()> {
    for entry in got.as_slice() {
        push_mark(text, "; ")?;
        text.push_str(format!(in alloc; "{}", entry.0.0)?.as_str())?;
        push_body(alloc, text, &entry.1)?;
    }
    Ok(())
}

/// All entries of a record, each with its place.
pub fn got_text(alloc: Global, record: &Record) -> Result<String> {
    let mut text = String::new(alloc);
    for segment in record.segments.as_slice() {
        push_entries(alloc, &mut text, &segment.got)?;
    }
    Ok(text)
}
