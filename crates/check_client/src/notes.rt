// What stands short between `<` and `>` in a line, written out.
use crate::object_notes::push_object_note;
use crate::sent_notes::push_sent_note;
use crate::words::{op_serial_of, serial_of, split_two};
use anyhow::{Context, Result, anyhow};
use rl_ids::{write_op_serial, write_serial};
use std::alloc::Global;

fn push_serial(alloc: Global, text: &mut String, word: &str) -> Result<()> {
    text.push_str(write_serial(alloc, &serial_of(word)?)?.as_str())?;
    Ok(())
}

fn push_op_serial(alloc: Global, text: &mut String, word: &str) -> Result<()> {
    text.push_str(write_op_serial(alloc, &op_serial_of(word)?)?.as_str())?;
    Ok(())
}

// `connected ID`: a CONNECTED of this connection, with the key `ID!7`.
fn push_connected(alloc: Global, text: &mut String, id: &str) -> Result<()> {
    text.push_str("{\"action\":4,\"connectionDetails\":{\"connectionKey\":\"")?;
    text.push_str(format!(in alloc; "{id}!7\"}},\"connectionId\":\"{id}\"}}")?.as_str())?;
    Ok(())
}

// `attached CHANNEL EPOCH:PLACE FLAGS`: an ATTACHED.
fn push_attached(alloc: Global, text: &mut String, rest: &str) -> Result<()> {
    let (channel, rest) = split_two(rest)?;
    let (serial, flags) = split_two(rest)?;
    text.push_str("{\"action\":11,\"channel\":\"")?;
    text.push_str(channel)?;
    text.push_str("\",\"channelSerial\":\"")?;
    push_serial(alloc, text, serial)?;
    text.push_str("\",\"flags\":")?;
    text.push_str(flags)?;
    text.push('}')?;
    Ok(())
}

// `message CHANNEL EPOCH:PLACE DATA`: an entry of one message.
fn push_message(alloc: Global, text: &mut String, rest: &str) -> Result<()> {
    let (channel, rest) = split_two(rest)?;
    let (serial, payload) = split_two(rest)?;
    text.push_str("{\"action\":15,\"channel\":\"")?;
    text.push_str(channel)?;
    text.push_str("\",\"channelSerial\":\"")?;
    push_serial(alloc, text, serial)?;
    text.push_str("\",\"messages\":[{\"data\":\"")?;
    text.push_str(payload)?;
    text.push_str("\"}]}")?;
    Ok(())
}

// `CONNECTION CLIENT DATA ID STAMP` behind the action: an item of PRESENCE or SYNC.
fn push_item(alloc: Global, text: &mut String, action: u32, rest: &str) -> Result<()> {
    let (conn, rest) = split_two(rest)?;
    let (client, rest) = split_two(rest)?;
    let (payload, rest) = split_two(rest)?;
    let (id, stamp) = split_two(rest)?;
    let item = format!(in alloc;
        "{{\"action\":{action},\"clientId\":\"{client}\",\"connectionId\":\"{conn}\",\"data\":\"{payload}\",\"id\":\"{id}\",\"timestamp\":{stamp}}}"
    )?;
    text.push_str(item.as_str())?;
    Ok(())
}

fn push_other(alloc: Global, text: &mut String, word: &str, rest: &str) -> Result<()> {
    if push_sent_note(alloc, text, word, rest)? || push_object_note(alloc, text, word, rest)? {
        return Ok(());
    }
    Err(anyhow!("no note: {word}"))
}

// What is behind a word.
fn push_named(alloc: Global, text: &mut String, word: &str, rest: &str) -> Result<()> {
    match word {
        "connected" => push_connected(alloc, text, rest),
        "attached" => push_attached(alloc, text, rest),
        "message" => push_message(alloc, text, rest),
        "absent" => push_item(alloc, text, 0, rest),
        "present" => push_item(alloc, text, 1, rest),
        "enter" => push_item(alloc, text, 2, rest),
        "leave" => push_item(alloc, text, 3, rest),
        "update" => push_item(alloc, text, 4, rest),
        _ => push_other(alloc, text, word, rest),
    }
}

fn push_note(alloc: Global, text: &mut String, note: &str) -> Result<()> {
    match note.split_once(' ') {
        Some((word, rest)) => push_named(alloc, text, word, rest),
        None if note.contains('@') => push_op_serial(alloc, text, note),
        None => push_serial(alloc, text, note),
    }
}

/// A text with its notes written out: `<EPOCH:PLACE>` is a channel's serial, `<PLACE.INDEX@SITE>` an operation's, and a
/// word with what follows it a frame or an item.
pub fn expanded(alloc: Global, text: &str) -> Result<String> {
    let mut whole = String::new(alloc);
    let mut is_first = true;
    for piece in text.split('<') {
        if is_first {
            whole.push_str(piece)?;
            is_first = false;
            continue;
        }
        let (note, rest) = piece.split_once('>').context("a note without end")?;
        push_note(alloc, &mut whole, note)?;
        whole.push_str(rest)?;
    }
    Ok(whole)
}
