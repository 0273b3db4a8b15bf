// Frames and calls as texts.
use anyhow::Result;
use rl_events::{BookEvent, Call, ChannelEvent, DirEvent, End, Outcome};
use rl_ids::{List, Text};
use rl_types::{Body, Cursor, Frame, Given, Head, Item, PresenceAction, PresenceItem};
use std::alloc::Global;

fn or_none(text: &Option<Text>) -> &str {
    match text {
        Some(text) => text.as_str(),
        None => "-",
    }
}

fn push_item(text: &mut String, item: &Item) -> Result<()> {
    text.push(' ')?;
    text.push_str(or_none(&item.client))?;
    text.push(':')?;
    text.push_str(or_none(&item.payload))?;
    Ok(())
}

fn push_items(text: &mut String, items: &List<Item>) -> Result<()> {
    for item in items.as_slice() {
        push_item(text, item)?;
    }
    Ok(())
}

fn action_text(action: PresenceAction) -> &'static str {
    match action {
        PresenceAction::Absent => "absent",
        PresenceAction::Present => "present",
        PresenceAction::Enter => "enter",
        PresenceAction::Leave => "leave",
        PresenceAction::Update => "update",
    }
}

fn push_member(text: &mut String, item: &PresenceItem) -> Result<()> {
    text.push(' ')?;
    text.push_str(action_text(item.action))?;
    text.push(':')?;
    text.push_str(item.conn.as_str())?;
    text.push(':')?;
    text.push_str(item.client.as_str())?;
    text.push(':')?;
    text.push_str(or_none(&item.payload))?;
    Ok(())
}

fn push_members(text: &mut String, items: &List<PresenceItem>) -> Result<()> {
    for item in items.as_slice() {
        push_member(text, item)?;
    }
    Ok(())
}

// Channel, message serial, channel serial, connection and stamp.
fn head_text(alloc: Global, kind: &str, head: &Head) -> Result<String> {
    let mut text = format!(in alloc; "{kind} {}", head.channel.as_str())?;
    if let Some(msg) = head.msg {
        text.push_str(format!(in alloc; " msg {msg}")?.as_str())?;
    }
    if let Some(serial) = head.serial {
        text.push_str(format!(in alloc; " {}@{}", serial.epoch.0, serial.place.0)?.as_str())?;
    }
    if let Some(conn) = &head.conn {
        text.push_str(format!(in alloc; " {}", conn.as_str())?.as_str())?;
    }
    if let Some(stamp) = head.stamp {
        text.push_str(format!(in alloc; " {}", stamp.0)?.as_str())?;
    }
    Ok(text)
}

fn cursor_text(alloc: Global, at: &Option<Cursor>) -> Result<String> {
    match at {
        Some(at) => Ok(format!(in alloc; "{}:{}", at.sequence.as_str(), at.cursor.as_str())?),
        None => Ok(String::from_str(alloc, "-")?),
    }
}

// ` error CODE`, where there is one.
fn with_code(alloc: Global, text: String, code: Option<u32>) -> Result<String> {
    match code {
        Some(code) => Ok(format!(in alloc; "{text} error {code}")?),
        None => Ok(text),
    }
}

fn items_text(alloc: Global, frame: &Frame) -> Result<String> {
    match frame {
        Frame::Message { head, items } => {
            let mut text = head_text(alloc, "message", head)?;
            push_items(&mut text, items)?;
            Ok(text)
        }
        Frame::Presence { head, items } => {
            let mut text = head_text(alloc, "presence", head)?;
            push_members(&mut text, items)?;
            Ok(text)
        }
        Frame::Object { head, ops } => {
            let text = head_text(alloc, "object", head)?;
            Ok(format!(in alloc; "{text} {}", ops.len())?)
        }
        Frame::Sync { channel, at, items } => {
            let at = cursor_text(alloc, at)?;
            let mut text = format!(in alloc; "sync {} {at}", channel.as_str())?;
            push_members(&mut text, items)?;
            Ok(text)
        }
        Frame::ObjectSync {
            channel,
            at,
            states,
        } => {
            let at = cursor_text(alloc, at)?;
            Ok(format!(in alloc; "objectsync {} {at} {}", channel.as_str(), states.len())?)
        }
        _ => Ok(String::from_str(alloc, "a frame that no service sends")?),
    }
}

/// A frame that was put out.
pub fn frame_text(alloc: Global, frame: &Frame) -> Result<String> {
    match frame {
        Frame::Heartbeat => Ok(String::from_str(alloc, "heartbeat")?),
        Frame::Ack { serial, count } => Ok(format!(in alloc; "ack {serial} {count}")?),
        Frame::Nack {
            serial,
            count,
            code,
        } => Ok(format!(in alloc; "nack {serial} {count} {code}")?),
        Frame::Connected {
            conn,
            key,
            ttl,
            idle,
            size,
            code,
        } => {
            let (conn, key) = (conn.as_str(), key.as_str());
            let text = format!(in alloc; "connected {conn} {key} {ttl} {idle} {size}")?;
            with_code(alloc, text, *code)
        }
        Frame::Disconnected { code } => {
            with_code(alloc, String::from_str(alloc, "disconnected")?, *code)
        }
        Frame::Closed => Ok(String::from_str(alloc, "closed")?),
        Frame::Error { channel, code } => {
            Ok(format!(in alloc; "error {} {code}", or_none(channel))?)
        }
        Frame::Attached {
            channel,
            serial,
            flags,
            code,
        } => {
            let (epoch, place) = (serial.epoch.0, serial.place.0);
            let text = format!(in alloc; "attached {} {epoch}@{place} {flags}", channel.as_str())?;
            with_code(alloc, text, *code)
        }
        Frame::Detached { channel, code } => {
            let text = format!(in alloc; "detached {}", channel.as_str())?;
            with_code(alloc, text, *code)
        }
        _ => items_text(alloc, frame),
    }
}

fn outcome_text(alloc: Global, outcome: &Option<Outcome>) -> Result<String> {
    match outcome {
        Some(Outcome::Taken(place)) => Ok(format!(in alloc; "taken {}", place.0)?),
        Some(Outcome::Refused(code)) => Ok(format!(in alloc; "refused {code}")?),
        None => Ok(String::from_str(alloc, "none")?),
    }
}

fn book_text(alloc: Global, event: &BookEvent) -> Result<String> {
    match event {
        BookEvent::Open { word, now } => Ok(format!(in alloc; "open {word} {}", now.0)?),
        BookEvent::Resume { key, now } => Ok(format!(in alloc;
            "resume {} {}",
            key.as_str(),
            now.0
        )?),
        BookEvent::Begin {
            conn,
            generation,
            serial,
        } => Ok(format!(in alloc; "begin {} {generation} {serial}", conn.0)?),
        BookEvent::End {
            conn,
            generation,
            serial,
            outcome,
        } => {
            let outcome = outcome_text(alloc, outcome)?;
            Ok(format!(in alloc; "end {} {generation} {serial} {outcome}", conn.0)?)
        }
        BookEvent::Lost {
            conn,
            generation,
            now,
        } => Ok(format!(in alloc; "lost {} {generation} {}", conn.0, now.0)?),
        BookEvent::Close { conn, generation } => {
            Ok(format!(in alloc; "close {} {generation}", conn.0)?)
        }
        BookEvent::Expire { now } => Ok(format!(in alloc; "expire {}", now.0)?),
    }
}

fn given_text(alloc: Global, asked: &Option<Given>) -> Result<String> {
    match asked {
        Some(Given::Ours(serial)) => {
            Ok(format!(in alloc; "{}@{}", serial.epoch.0, serial.place.0)?)
        }
        Some(Given::Other(text)) => Ok(String::from_str(alloc, text.as_str())?),
        None => Ok(String::from_str(alloc, "-")?),
    }
}

fn body_text(alloc: Global, body: &Body) -> Result<String> {
    match body {
        Body::Messages(items) => {
            let mut text = String::from_str(alloc, "message")?;
            push_items(&mut text, items)?;
            Ok(text)
        }
        Body::Presence(items) => {
            let mut text = String::from_str(alloc, "presence")?;
            push_members(&mut text, items)?;
            Ok(text)
        }
        Body::Objects(ops) => Ok(format!(in alloc; "object {}", ops.len())?),
    }
}

fn channel_text(alloc: Global, number: u8, event: &ChannelEvent) -> Result<String> {
    match event {
        ChannelEvent::Put {
            conn,
            serial,
            body,
            now,
        } => {
            let body = body_text(alloc, body)?;
            Ok(format!(in alloc; "put {number} {} {serial} {} {body}", conn.0, now.0)?)
        }
        ChannelEvent::Join { asked } => {
            let asked = given_text(alloc, asked)?;
            Ok(format!(in alloc; "join {number} {asked}")?)
        }
        ChannelEvent::Read { from, max } => {
            Ok(format!(in alloc; "read {number} {} {max}", from.0)?)
        }
        ChannelEvent::MemberPage { after, max } => match after {
            Some(key) => {
                let (conn, client) = (key.conn.as_str(), key.client.as_str());
                Ok(format!(in alloc; "members {number} {conn}:{client} {max}")?)
            }
            None => Ok(format!(in alloc; "members {number} - {max}")?),
        },
        ChannelEvent::ObjectPage { after, max } => {
            let after = if after.is_some() { "past" } else { "-" };
            Ok(format!(in alloc; "objects {number} {after} {max}")?)
        }
        _ => Ok(String::from_str(alloc, "a call that no actor makes")?),
    }
}

/// A call that is wanted; `-` is none.
pub fn call_text(alloc: Global, call: &Option<Call>) -> Result<String> {
    match call {
        Some(Call::Book(event)) => book_text(alloc, event),
        Some(Call::Dir(DirEvent::Ask(name))) => Ok(format!(in alloc; "ask {}", name.as_str())?),
        Some(Call::Dir(DirEvent::Names)) => Ok(String::from_str(alloc, "names")?),
        Some(Call::Chan(number, event)) => channel_text(alloc, number.0, event),
        None => Ok(String::from_str(alloc, "-")?),
    }
}

/// How an actor ended.
pub fn end_text(alloc: Global, end: &End) -> Result<String> {
    match end {
        End::Closed => Ok(String::from_str(alloc, "Closed")?),
        End::LinkEnded => Ok(String::from_str(alloc, "LinkEnded")?),
        End::LinkFault => Ok(String::from_str(alloc, "LinkFault")?),
        End::Superseded { mine, newer } => Ok(format!(in alloc; "Superseded {mine} {newer}")?),
        End::Forgotten => Ok(String::from_str(alloc, "Forgotten")?),
        End::Lagged { position, first } => {
            Ok(format!(in alloc; "Lagged {} {}", position.0, first.0)?)
        }
        End::BadFrame(bytes) => Ok(format!(in alloc; "BadFrame {}", bytes.as_slice().len())?),
        End::SerialGap { got, expected } => Ok(format!(in alloc; "SerialGap {got} {expected}")?),
        End::SerialOld { got, expected } => Ok(format!(in alloc; "SerialOld {got} {expected}")?),
        End::Idle { last, now } => Ok(format!(in alloc; "Idle {} {}", last.0, now.0)?),
        End::Stopped => Ok(String::from_str(alloc, "Stopped")?),
        End::ConnectionLimit { count, given } => {
            Ok(format!(in alloc; "ConnectionLimit {count} {given}")?)
        }
        End::NoMemory => Ok(String::from_str(alloc, "NoMemory")?),
    }
}
