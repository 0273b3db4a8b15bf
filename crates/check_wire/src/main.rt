//! Reads the table of wire cases, `frames.txt`, and prints a line for each case whose bytes are read otherwise
//! than the table says, and how many cases there are.
#![tactic(auto)]

use anyhow::{Context, Result, anyhow};
use rl_types::WireFault;
use rl_wire::{read_frame, write_frame};
use std::alloc::Global;
use std::fs;
use std::rt::Files;

// The bytes that two hexadecimal digits each stand for.
fn push_hex(bytes: &mut Vec<u8>, digits: &str) -> Result<()> {
    for pair in digits.as_bytes().chunks(2) {
        let number = rl_base::read_fixed(pair, 16, 2).ok_or(anyhow!("no byte: {digits}"))?;
        bytes.push(u8::try_from(number)?)?;
    }
    Ok(())
}

// What stands between `<` and `>`: a number, `*` and the text that is repeated so often, or bytes.
fn push_note(bytes: &mut Vec<u8>, note: &str) -> Result<()> {
    match note.split_once('*') {
        None => push_hex(bytes, note),
        Some((count, text)) => {
            for _ in 0..count.parse::<u32>()? {
                bytes.extend_from_slice(text.as_bytes())?;
            }
            Ok(())
        }
    }
}

// The bytes that a column stands for.
fn bytes_of(alloc: Global, column: &str) -> Result<Vec<u8>> {
    let mut bytes = Vec::new(alloc);
    for piece in column.split('<') {
        let (note, text) = piece.split_once('>').unwrap_or(("", piece));
        push_note(&mut bytes, note)?;
        bytes.extend_from_slice(text.as_bytes())?;
    }
    Ok(bytes)
}

// A fault, with the name of its field.
fn fault_text(alloc: Global, fault: &WireFault) -> Result<String> {
    let (kind, field) = match fault {
        WireFault::TooLong => ("TooLong", ""),
        WireFault::NotText => ("NotText", ""),
        WireFault::NotJson => ("NotJson", ""),
        WireFault::NotObject => ("NotObject", ""),
        WireFault::Missing(name) => ("Missing ", name.as_str()),
        WireFault::BadField(name) => ("BadField ", name.as_str()),
        WireFault::NoMemory => return Err(anyhow!("out of memory")),
    };
    Ok(format!(in alloc; "{kind}{field}")?)
}

// What bytes are: a fault, an unknown action, or the text of a frame.
fn answer(alloc: Global, bytes: &[u8]) -> Result<String> {
    match read_frame(alloc, bytes) {
        Ok(Some(frame)) => Ok(String::from_utf8(write_frame(alloc, &frame)?.into_vec())?),
        Ok(None) => Ok(String::from_str(alloc, "unknown action")?),
        Err(fault) => fault_text(alloc, &fault),
    }
}

// Whether a case comes out as its line says.
fn is_as_expected<R: Print + AllocGlobal>(rt: &R, line: &str) -> Result<bool> {
    let (name, columns) = line.split_once('\t').context("a line without tab")?;
    let (text, expected) = columns.split_once('\t').context("a line with one tab")?;
    let bytes = bytes_of(rt.alloc(), text)?;
    let found = answer(rt.alloc(), bytes.as_slice())?;
    let expected = bytes_of(rt.alloc(), expected)?;
    if found.as_bytes() == expected.as_slice() {
        return Ok(true);
    }
    println!(rt; "{name}: {found}")?;
    Ok(false)
}

fn main(rt: HostRuntime) -> Result<()> {
    let table = fs::read_to_string(&rt, "frames.txt").context("reading the table")?;
    let mut cases = 0u32;
    let mut wrong = 0u32;
    for line in table.as_str().lines() {
        if line.is_empty() || line.starts_with('#') {
            continue;
        }
        cases = cases.saturating_add(1);
        if !is_as_expected(&rt, line)? {
            wrong = wrong.saturating_add(1);
        }
    }
    println!(rt; "{cases} cases, {wrong} wrong")?;
    Ok(())
}
