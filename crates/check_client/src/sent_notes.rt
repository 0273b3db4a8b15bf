// Frames that a client sends and that stand short in a line, written out.
use crate::words::{serial_of, split_two};
use anyhow::Result;
use rl_ids::write_serial;
use std::alloc::Global;

// `CHANNEL`, or `CHANNEL EPOCH:PLACE`: an ATTACH.
fn push_attach(alloc: Global, text: &mut String, rest: &str) -> Result<()> {
    let (channel, serial) = rest.split_once(' ').unwrap_or((rest, ""));
    text.push_str(format!(in alloc; "{{\"action\":10,\"channel\":\"{channel}\"")?.as_str())?;
    if !serial.is_empty() {
        text.push_str(",\"channelSerial\":\"")?;
        text.push_str(write_serial(alloc, &serial_of(serial)?)?.as_str())?;
        text.push('"')?;
    }
    text.push('}')?;
    Ok(())
}

// `CHANNEL`: a DETACH.
fn push_detach(alloc: Global, text: &mut String, channel: &str) -> Result<()> {
    text.push_str(format!(in alloc; "{{\"action\":12,\"channel\":\"{channel}\"}}")?.as_str())?;
    Ok(())
}

// `CHANNEL SERIAL DATA`: a MESSAGE of one message.
fn push_publish(alloc: Global, text: &mut String, rest: &str) -> Result<()> {
    let (channel, rest) = split_two(rest)?;
    let (serial, payload) = split_two(rest)?;
    let frame = format!(in alloc;
        "{{\"action\":15,\"channel\":\"{channel}\",\"messages\":[{{\"data\":\"{payload}\"}}],\"msgSerial\":{serial}}}"
    )?;
    text.push_str(frame.as_str())?;
    Ok(())
}

// `CHANNEL SERIAL CLIENT DATA` behind the action: a PRESENCE of one item.
fn push_presence(alloc: Global, text: &mut String, action: u32, rest: &str) -> Result<()> {
    let (channel, rest) = split_two(rest)?;
    let (serial, rest) = split_two(rest)?;
    let (client, payload) = split_two(rest)?;
    let frame = format!(in alloc;
        "{{\"action\":14,\"channel\":\"{channel}\",\"msgSerial\":{serial},\"presence\":[{{\"action\":{action},\"clientId\":\"{client}\",\"data\":\"{payload}\"}}]}}"
    )?;
    text.push_str(frame.as_str())?;
    Ok(())
}

// `CHANNEL SERIAL CLIENT`: a PRESENCE by which a member leaves.
fn push_leaving(alloc: Global, text: &mut String, rest: &str) -> Result<()> {
    let (channel, rest) = split_two(rest)?;
    let (serial, client) = split_two(rest)?;
    let frame = format!(in alloc;
        "{{\"action\":14,\"channel\":\"{channel}\",\"msgSerial\":{serial},\"presence\":[{{\"action\":3,\"clientId\":\"{client}\"}}]}}"
    )?;
    text.push_str(frame.as_str())?;
    Ok(())
}

/// Adds the frame that a word and what follows it are; answers whether the word is one of these.
pub fn push_sent_note(alloc: Global, text: &mut String, word: &str, rest: &str) -> Result<bool> {
    match word {
        "attach" => push_attach(alloc, text, rest)?,
        "detach" => push_detach(alloc, text, rest)?,
        "publish" => push_publish(alloc, text, rest)?,
        "entering" => push_presence(alloc, text, 2, rest)?,
        "updating" => push_presence(alloc, text, 4, rest)?,
        "leaving" => push_leaving(alloc, text, rest)?,
        _ => return Ok(false),
    }
    Ok(true)
}
