// The events that lines ask for.
use anyhow::{Context, Result, anyhow};
use rl_events::ChannelEvent;
use rl_ids::{ChannelSerial, ConnNo, Epoch, List, MemberKey, Moment, Place, Text};
use rl_types::{Body, Given, Item, PresenceAction, PresenceItem};
use std::alloc::Global;

fn split_two(text: &str) -> Result<(&str, &str)> {
    text.split_once(' ').context("a word is missing")
}

fn number(word: &str) -> Result<u64> {
    Ok(word.parse::<u64>()?)
}

fn conn(word: &str) -> Result<ConnNo> {
    Ok(ConnNo(word.parse::<u32>()?))
}

// A text as it stands; `*` and a number is so many letters; `+` and a text is that text with the number of the
// turn after it.
fn text_of(alloc: Global, word: &str, turn: u64) -> Result<Text> {
    if let Some(count) = word.strip_prefix('*') {
        return Ok(Text::from_string("x".repeat(alloc, count.parse::<usize>()?)?));
    }
    match word.strip_prefix('+') {
        Some(stem) => {
            let mut text = Text::from_str(alloc, stem)?;
            text.push_decimal(turn)?;
            Ok(text)
        }
        None => Ok(Text::from_str(alloc, word)?),
    }
}

// `-` is no text.
fn optional(alloc: Global, word: &str, turn: u64) -> Result<Option<Text>> {
    if word == "-" {
        return Ok(None);
    }
    Ok(Some(text_of(alloc, word, turn)?))
}

// `ID:DATA`.
fn message(alloc: Global, words: &str, turn: u64) -> Result<Item> {
    let (id, payload) = words.split_once(':').context("a message without colon")?;
    Ok(Item {
        id: optional(alloc, id, turn)?,
        name: None,
        payload: optional(alloc, payload, turn)?,
        encoding: None,
        client: None,
    })
}

fn messages(alloc: Global, words: &str, turn: u64) -> Result<Body> {
    let mut items = List::new(alloc);
    for words in words.split(',') {
        items.push(message(alloc, words, turn)?)?;
    }
    Ok(Body::Messages(items))
}

fn action(word: &str) -> Result<PresenceAction> {
    match word {
        "absent" => Ok(PresenceAction::Absent),
        "present" => Ok(PresenceAction::Present),
        "enter" => Ok(PresenceAction::Enter),
        "leave" => Ok(PresenceAction::Leave),
        "update" => Ok(PresenceAction::Update),
        _ => Err(anyhow!("no action: {word}")),
    }
}

// `ACTION:CLIENT:DATA`.
fn presence_item(alloc: Global, words: &str, turn: u64) -> Result<PresenceItem> {
    let (word, rest) = words.split_once(':').context("an item without colon")?;
    let (client, payload) = rest.split_once(':').context("an item with one colon")?;
    Ok(PresenceItem {
        action: action(word)?,
        client: text_of(alloc, client, turn)?,
        conn: Text::from_str(alloc, "elsewhere")?,
        id: Text::from_str(alloc, "given")?,
        stamp: Moment(99),
        payload: optional(alloc, payload, turn)?,
        encoding: None,
    })
}

fn presence(alloc: Global, words: &str, turn: u64) -> Result<Body> {
    let mut items = List::new(alloc);
    for words in words.split(',') {
        items.push(presence_item(alloc, words, turn)?)?;
    }
    Ok(Body::Presence(items))
}

// `CONN SERIAL MOMENT message BODY`, or with `presence`.
fn put(alloc: Global, rest: &str, turn: u64) -> Result<ChannelEvent> {
    let (from, rest) = split_two(rest)?;
    let (serial, rest) = split_two(rest)?;
    let (now, rest) = split_two(rest)?;
    let (kind, words) = split_two(rest)?;
    let body = match kind {
        "messages" => messages(alloc, words, turn)?,
        "presence" => presence(alloc, words, turn)?,
        _ => return Err(anyhow!("no kind of body: {kind}")),
    };
    Ok(ChannelEvent::Put {
        conn: conn(from)?,
        serial: number(serial)?.saturating_add(turn),
        body,
        now: Moment(number(now)?),
    })
}

// `none`, `EPOCH PLACE` or `other TEXT`.
fn join(alloc: Global, rest: &str) -> Result<ChannelEvent> {
    if rest == "none" {
        return Ok(ChannelEvent::Join { asked: None });
    }
    let (first, second) = split_two(rest)?;
    let given = if first == "other" {
        Given::Other(Text::from_str(alloc, second)?)
    } else {
        Given::Ours(ChannelSerial {
            epoch: Epoch(u128::from(number(first)?)),
            place: Place(number(second)?),
        })
    };
    Ok(ChannelEvent::Join { asked: Some(given) })
}

// `none MAX`, or `CONN CLIENT MAX`.
fn page(alloc: Global, rest: &str) -> Result<ChannelEvent> {
    let (first, rest) = split_two(rest)?;
    if first == "none" {
        let max = rest.parse::<usize>()?;
        return Ok(ChannelEvent::MemberPage { after: None, max });
    }
    let (client, max) = split_two(rest)?;
    let key = MemberKey {
        conn: Text::from_str(alloc, first)?,
        client: Text::from_str(alloc, client)?,
    };
    Ok(ChannelEvent::MemberPage {
        after: Some(key),
        max: max.parse::<usize>()?,
    })
}

/// The event that a line asks for, in the turn with this number.
pub fn event_of(alloc: Global, asked: &str, turn: u64) -> Result<ChannelEvent> {
    let (word, rest) = asked.split_once(' ').unwrap_or((asked, ""));
    match word {
        "put" => put(alloc, rest, turn),
        "join" => join(alloc, rest),
        "read" => {
            let (from, max) = split_two(rest)?;
            Ok(ChannelEvent::Read {
                from: Place(number(from)?),
                max: max.parse::<usize>()?,
            })
        }
        "page" => page(alloc, rest),
        "gone" => {
            let (from, now) = split_two(rest)?;
            Ok(ChannelEvent::Gone {
                conn: conn(from)?,
                now: Moment(number(now)?),
            })
        }
        "tick" => Ok(ChannelEvent::Tick {
            now: Moment(number(rest)?),
        }),
        "census" => Ok(ChannelEvent::Census),
        _ => Err(anyhow!("no event: {word}")),
    }
}
