// Words of the table.
use anyhow::{Context, Result, anyhow};
use rl_ids::{ChannelSerial, ConnNo, Epoch, List, Moment, Place, Text};
use rl_types::{Given, Item, PresenceAction, PresenceItem};
use std::alloc::Global;

/// What stands before the first blank, and what after it.
pub fn split_two(text: &str) -> Result<(&str, &str)> {
    text.split_once(' ').context("a word is missing")
}

/// What stands before the first colon, and what after it.
pub fn split_part(text: &str) -> Result<(&str, &str)> {
    text.split_once(':').context("a colon is missing")
}

pub fn number(word: &str) -> Result<u64> {
    Ok(word.parse::<u64>()?)
}

pub fn code(word: &str) -> Result<u32> {
    Ok(word.parse::<u32>()?)
}

pub fn moment(word: &str) -> Result<Moment> {
    Ok(Moment(number(word)?))
}

pub fn place(word: &str) -> Result<Place> {
    Ok(Place(number(word)?))
}

pub fn conn(word: &str) -> Result<ConnNo> {
    Ok(ConnNo(code(word)?))
}

/// `-` is no text.
pub fn optional(alloc: Global, word: &str) -> Result<Option<Text>> {
    if word == "-" {
        return Ok(None);
    }
    Ok(Some(Text::from_str(alloc, word)?))
}

/// `EPOCH@PLACE`.
pub fn serial(word: &str) -> Result<ChannelSerial> {
    let (epoch, at) = word.split_once('@').context("no serial")?;
    Ok(ChannelSerial {
        epoch: Epoch(u128::from(number(epoch)?)),
        place: place(at)?,
    })
}

/// `-`, `EPOCH@PLACE`, or another text.
pub fn given(alloc: Global, word: &str) -> Result<Option<Given>> {
    if word == "-" {
        return Ok(None);
    }
    match serial(word) {
        Ok(serial) => Ok(Some(Given::Ours(serial))),
        Err(_) => Ok(Some(Given::Other(Text::from_str(alloc, word)?))),
    }
}

// `CLIENT:DATA`.
fn message(alloc: Global, words: &str) -> Result<Item> {
    let (client, payload) = split_part(words)?;
    Ok(Item {
        id: None,
        name: None,
        payload: optional(alloc, payload)?,
        encoding: None,
        client: optional(alloc, client)?,
    })
}

/// Messages, parted by commas; `-` is none.
pub fn messages(alloc: Global, words: &str) -> Result<List<Item>> {
    let mut items = List::new(alloc);
    if words == "-" {
        return Ok(items);
    }
    for words in words.split(',') {
        items.push(message(alloc, words)?)?;
    }
    Ok(items)
}

fn action(word: &str) -> Result<PresenceAction> {
    match word {
        "absent" => Ok(PresenceAction::Absent),
        "present" => Ok(PresenceAction::Present),
        "enter" => Ok(PresenceAction::Enter),
        "leave" => Ok(PresenceAction::Leave),
        "update" => Ok(PresenceAction::Update),
        _ => Err(anyhow!("no action: {word}")),
    }
}

// `ACTION:CONN:CLIENT:DATA`, where the connection and the client may be empty.
fn member(alloc: Global, words: &str) -> Result<PresenceItem> {
    let (word, rest) = split_part(words)?;
    let (conn, rest) = split_part(rest)?;
    let (client, payload) = split_part(rest)?;
    Ok(PresenceItem {
        action: action(word)?,
        client: Text::from_str(alloc, client)?,
        conn: Text::from_str(alloc, conn)?,
        id: Text::new(alloc),
        stamp: Moment(0),
        payload: optional(alloc, payload)?,
        encoding: None,
    })
}

/// Presence items, parted by commas; `-` is none.
pub fn members(alloc: Global, words: &str) -> Result<List<PresenceItem>> {
    let mut items = List::new(alloc);
    if words == "-" {
        return Ok(items);
    }
    for words in words.split(',') {
        items.push(member(alloc, words)?)?;
    }
    Ok(items)
}
