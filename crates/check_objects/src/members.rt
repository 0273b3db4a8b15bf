// Events of presence maps.
use crate::items::{event_text, events_text, item_of, items_of, members_text};
use crate::states::cursor_of;
use crate::words::{push_gap, split_two, truth};
use anyhow::{Result, anyhow};
use rl_presmap::{PresMap, newer};
use std::alloc::Global;

/// The members of a map, and whether a sync is open.
pub fn map_text(alloc: Global, map: &PresMap) -> Result<String> {
    let mut text = members_text(alloc, &map.members(alloc)?)?;
    push_gap(&mut text)?;
    text.push_str(if map.syncing() { "syncing" } else { "whole" })?;
    Ok(text)
}

// `ITEM ITEM`.
fn newness(alloc: Global, rest: &str) -> Result<String> {
    let (incoming, held) = split_two(rest)?;
    let incoming = item_of(alloc, incoming)?;
    let held = item_of(alloc, held)?;
    truth(alloc, newer(&incoming, &held))
}

fn item(alloc: Global, map: &mut PresMap, word: &str) -> Result<String> {
    let item = item_of(alloc, word)?;
    let event = map.apply(alloc, &item)?;
    event_text(alloc, &event)
}

// `CURSOR ITEM..`.
fn sync(alloc: Global, map: &mut PresMap, rest: &str) -> Result<String> {
    let (at, words) = rest.split_once(' ').unwrap_or((rest, ""));
    let at = cursor_of(alloc, at)?;
    let items = items_of(alloc, words)?;
    let events = map.sync_page(alloc, at.as_ref(), &items)?;
    events_text(alloc, &events)
}

fn start(alloc: Global, map: &mut PresMap) -> Result<String> {
    map.sync_start()?;
    Ok(String::from_str(alloc, "nothing")?)
}

/// What a presence map answers to an event.
pub fn member_event(alloc: Global, map: &mut PresMap, word: &str, rest: &str) -> Result<String> {
    match word {
        "newer" => newness(alloc, rest),
        "item" => item(alloc, map, rest),
        "start" => start(alloc, map),
        "sync" => sync(alloc, map, rest),
        "end" => events_text(alloc, &map.sync_end(alloc)?),
        "clear" => events_text(alloc, &map.clear(alloc)?),
        _ => Err(anyhow!("no event: {word}")),
    }
}
