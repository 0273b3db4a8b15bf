// The commands that lines tell.
use crate::ops::ops_of;
use crate::words::{serial_of, split_two};
use anyhow::{Result, anyhow};
use rl_ids::{List, Text};
use rl_runs::Command;
use rl_types::Item;
use std::alloc::Global;

// `DATA`, or `ID:DATA`.
fn message_of(alloc: Global, word: &str) -> Result<Item> {
    let (id, payload) = match word.split_once(':') {
        Some((id, payload)) => (Some(Text::from_str(alloc, id)?), payload),
        None => (None, word),
    };
    Ok(Item {
        id,
        name: None,
        payload: Some(Text::from_str(alloc, payload)?),
        encoding: None,
        client: None,
    })
}

// Messages with blanks between them.
fn messages_of(alloc: Global, words: &str) -> Result<List<Item>> {
    let mut items = List::new(alloc);
    for word in words.split(' ') {
        items.push(message_of(alloc, word)?)?;
    }
    Ok(items)
}

// Which command it is that names a member and its data.
#[derive(Clone, Copy)]
enum Presence {
    Enter,
    Update,
}

// `CHANNEL CLIENT DATA`.
fn presence_of(alloc: Global, kind: Presence, rest: &str) -> Result<Command> {
    let (channel, rest) = split_two(rest)?;
    let (client, payload) = split_two(rest)?;
    let channel = Text::from_str(alloc, channel)?;
    let client = Text::from_str(alloc, client)?;
    let payload = Text::from_str(alloc, payload)?;
    match kind {
        Presence::Enter => Ok(Command::Enter(channel, client, payload)),
        Presence::Update => Ok(Command::Update(channel, client, payload)),
    }
}

fn attach_at_of(alloc: Global, rest: &str) -> Result<Command> {
    let (channel, serial) = split_two(rest)?;
    Ok(Command::AttachAt(Text::from_str(alloc, channel)?, serial_of(serial)?))
}

fn publish_of(alloc: Global, rest: &str) -> Result<Command> {
    let (channel, words) = split_two(rest)?;
    Ok(Command::Publish(Text::from_str(alloc, channel)?, messages_of(alloc, words)?))
}

fn leave_of(alloc: Global, rest: &str) -> Result<Command> {
    let (channel, client) = split_two(rest)?;
    Ok(Command::Leave(
        Text::from_str(alloc, channel)?,
        Text::from_str(alloc, client)?,
    ))
}

fn operate_of(alloc: Global, rest: &str) -> Result<Command> {
    let (channel, words) = split_two(rest)?;
    Ok(Command::Operate(Text::from_str(alloc, channel)?, ops_of(alloc, words)?))
}

/// The command that a word and what follows it are.
pub fn command_of(alloc: Global, word: &str, rest: &str) -> Result<Command> {
    match word {
        "connect" => Ok(Command::Connect),
        "close" => Ok(Command::Close),
        "die" => Ok(Command::Die),
        "attach" => Ok(Command::Attach(Text::from_str(alloc, rest)?)),
        "attach-at" => attach_at_of(alloc, rest),
        "detach" => Ok(Command::Detach(Text::from_str(alloc, rest)?)),
        "publish" => publish_of(alloc, rest),
        "enter" => presence_of(alloc, Presence::Enter, rest),
        "update" => presence_of(alloc, Presence::Update, rest),
        "leave" => leave_of(alloc, rest),
        "operate" => operate_of(alloc, rest),
        _ => Err(anyhow!("no input: {word}")),
    }
}
