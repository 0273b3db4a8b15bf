// What a client sends, as lines say it.
use crate::words::{given, members, messages, moment, number, split_two};
use anyhow::{Result, anyhow};
use rl_actor::Came;
use rl_ids::{Blob, List, Moment, Text};
use rl_types::{Frame, Head};
use std::alloc::Global;

fn head(alloc: Global, channel: &str, msg: &str) -> Result<Head> {
    let msg = if msg == "-" { None } else { Some(number(msg)?) };
    Ok(Head {
        channel: Text::from_str(alloc, channel)?,
        msg,
        serial: None,
        conn: None,
        id: None,
        stamp: None,
    })
}

// `CHANNEL SERIAL ITEMS`.
fn publishing(alloc: Global, kind: &str, rest: &str) -> Result<Frame> {
    let (channel, rest) = split_two(rest)?;
    let (msg, words) = split_two(rest)?;
    let head = head(alloc, channel, msg)?;
    match kind {
        "message" => Ok(Frame::Message {
            head,
            items: messages(alloc, words)?,
        }),
        "presence" => Ok(Frame::Presence {
            head,
            items: members(alloc, words)?,
        }),
        _ => Ok(Frame::Object {
            head,
            ops: List::new(alloc),
        }),
    }
}

// A frame of another action: what a service sends, and what no session answers.
fn other(alloc: Global, word: &str) -> Result<Frame> {
    match word {
        "ack" => Ok(Frame::Ack {
            serial: 0,
            count: 1,
        }),
        "nack" => Ok(Frame::Nack {
            serial: 0,
            count: 1,
            code: 104,
        }),
        "connect" => Ok(Frame::Connect),
        "disconnect" => Ok(Frame::Disconnect),
        "disconnected" => Ok(Frame::Disconnected { code: None }),
        "closed" => Ok(Frame::Closed),
        "auth" => Ok(Frame::Auth),
        "error" => Ok(Frame::Error {
            channel: None,
            code: 400,
        }),
        "detached" => Ok(Frame::Detached {
            channel: Text::from_str(alloc, "a")?,
            code: None,
        }),
        "sync" => Ok(Frame::Sync {
            channel: Text::from_str(alloc, "a")?,
            at: None,
            items: List::new(alloc),
        }),
        "objectsync" => Ok(Frame::ObjectSync {
            channel: Text::from_str(alloc, "a")?,
            at: None,
            states: List::new(alloc),
        }),
        _ => Err(anyhow!("no frame: {word}")),
    }
}

fn attaching(alloc: Global, rest: &str) -> Result<Frame> {
    let (channel, asked) = split_two(rest)?;
    Ok(Frame::Attach {
        channel: Text::from_str(alloc, channel)?,
        serial: given(alloc, asked)?,
    })
}

fn frame(alloc: Global, word: &str, rest: &str) -> Result<Frame> {
    match word {
        "attach" => attaching(alloc, rest),
        "detach" => Ok(Frame::Detach {
            channel: Text::from_str(alloc, rest)?,
        }),
        "message" | "presence" | "object" => publishing(alloc, word, rest),
        "close" => Ok(Frame::Close),
        "heartbeat" => Ok(Frame::Heartbeat),
        _ => other(alloc, word),
    }
}

/// What came, and when: `MOMENT FRAME`, `MOMENT unknown` or `MOMENT bad BYTES`.
pub fn came(alloc: Global, rest: &str) -> Result<(Came, Moment)> {
    let (at, rest) = split_two(rest)?;
    let now = moment(at)?;
    let (word, rest) = rest.split_once(' ').unwrap_or((rest, ""));
    match word {
        "unknown" => Ok((Came::Unknown, now)),
        "bad" => Ok((Came::Bad(Blob::from_slice(alloc, rest.as_bytes())?), now)),
        _ => Ok((Came::A(frame(alloc, word, rest)?), now)),
    }
}
