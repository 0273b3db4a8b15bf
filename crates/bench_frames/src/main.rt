//! Reads or writes one frame again and again, so that a script can take the time.
//!
//! Its words: `read` or `write`; what the frame is, a MESSAGE whose data is made of `letters`, `quotes`, `controls` or
//! `accents`, or an OBJECT of `operations`; how many times that character stands in the data, or how many operations
//! there are; how many rounds. It prints how many bytes of frames were read or
//! written.
#![tactic(auto)]

use anyhow::{Context, Result, anyhow};
use rl_ids::{List, Text, read_object_id};
use rl_types::{Frame, Head, Item, ObjectOp, Op};
use rl_wire::{read_frame, write_frame};
use std::alloc::Global;
use std::env;
use std::rt::Env;

// A letter; a character that JSON writes in two bytes; one that it writes in six; one of two bytes.
fn character(kind: &str) -> Result<&'static str> {
    match kind {
        "letters" => Ok("x"),
        "quotes" => Ok("\""),
        "controls" => Ok("\u{1}"),
        "accents" => Ok("é"),
        _ => Err(anyhow!("no kind of data: {kind}")),
    }
}

fn head(alloc: Global) -> Result<Head> {
    Ok(Head {
        channel: Text::from_str(alloc, "room")?,
        msg: Some(0),
        serial: None,
        conn: None,
        id: None,
        stamp: None,
    })
}

fn message(alloc: Global, kind: &str, count: usize) -> Result<Frame> {
    let payload = Text::from_string(character(kind)?.repeat(alloc, count)?);
    let mut items = List::new(alloc);
    items.push(Item {
        id: None,
        name: None,
        payload: Some(payload),
        encoding: None,
        client: None,
    })?;
    Ok(Frame::Message {
        head: head(alloc)?,
        items,
    })
}

// As many operations as told, each of which adds to the same counter.
fn operations(alloc: Global, count: usize) -> Result<Frame> {
    let id = read_object_id("counter:a@0").context("no object id")?;
    let mut ops = List::new(alloc);
    for _ in 0..count {
        ops.push(ObjectOp {
            op: Op::CounterInc { id, amount: 1 },
            serial: None,
        })?;
    }
    Ok(Frame::Object {
        head: head(alloc)?,
        ops,
    })
}

fn frame(alloc: Global, kind: &str, count: usize) -> Result<Frame> {
    if kind == "operations" {
        return operations(alloc, count);
    }
    message(alloc, kind, count)
}

// The bytes of all rounds of writing.
fn write_rounds(alloc: Global, frame: &Frame, rounds: u32) -> Result<u64> {
    let mut bytes = 0u64;
    for _ in 0..rounds {
        bytes = bytes.saturating_add(write_frame(alloc, frame)?.len() as u64);
    }
    Ok(bytes)
}

// The bytes of all rounds of reading in which there was a frame.
fn read_rounds(alloc: Global, frame: &Frame, rounds: u32) -> Result<u64> {
    let text = write_frame(alloc, frame)?;
    let mut bytes = 0u64;
    for _ in 0..rounds {
        if let Ok(Some(_)) = read_frame(alloc, text.as_slice()) {
            bytes = bytes.saturating_add(text.len() as u64);
        }
    }
    Ok(bytes)
}

// The bytes of all rounds.
fn all_rounds(alloc: Global, way: &str, frame: &Frame, rounds: u32) -> Result<u64> {
    match way {
        "read" => read_rounds(alloc, frame, rounds),
        "write" => write_rounds(alloc, frame, rounds),
        _ => Err(anyhow!("neither read nor write: {way}")),
    }
}

fn word(words: &[String], at: usize) -> Result<&str> {
    match words.get(at) {
        Some(word) => Ok(word.as_str()),
        None => Err(anyhow!("too few words")),
    }
}

fn as_told(alloc: Global, words: &[String]) -> Result<u64> {
    let way = word(words, 0)?;
    let kind = word(words, 1)?;
    let count = word(words, 2)?.parse::<usize>()?;
    let rounds = word(words, 3)?.parse::<u32>()?;
    let frame = frame(alloc, kind, count)?;
    all_rounds(alloc, way, &frame, rounds)
}

fn words<R: Env + AllocGlobal>(rt: &R) -> Result<Vec<String>> {
    Ok(env::args(rt)?.skip(1).collect(rt.alloc())?)
}

fn main(rt: HostRuntime) -> Result<()> {
    let words = words(&rt)?;
    let bytes = as_told(rt.alloc(), words.as_slice())?;
    println!(rt; "{bytes} bytes")?;
    Ok(())
}
