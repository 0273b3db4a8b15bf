// Operations and objects that stand short in a line, written out.
use crate::words::{op_serial_of, split_two};
use anyhow::Result;
use rl_ids::{OpSerial, write_op_serial};
use std::alloc::Global;

// An item of OBJECT: an operation, of which this is all but its serial, and its serial.
fn push_op(alloc: Global, text: &mut String, told: &str, serial: &str) -> Result<()> {
    let serial = op_serial_of(serial)?;
    text.push_str("{\"operation\":{")?;
    text.push_str(told)?;
    text.push_str("},\"serial\":\"")?;
    text.push_str(write_op_serial(alloc, &serial)?.as_str())?;
    text.push_str("\"}")?;
    Ok(())
}

// `ID COUNT SERIAL`: a counter is made.
fn push_make(alloc: Global, text: &mut String, rest: &str) -> Result<()> {
    let (id, rest) = split_two(rest)?;
    let (count, serial) = split_two(rest)?;
    let told = format!(in alloc;
        "\"action\":3,\"counter\":{{\"count\":{count}}},\"objectId\":\"{id}\""
    )?;
    push_op(alloc, text, told.as_str(), serial)
}

// `ID AMOUNT SERIAL`: an amount is added.
fn push_inc(alloc: Global, text: &mut String, rest: &str) -> Result<()> {
    let (id, rest) = split_two(rest)?;
    let (amount, serial) = split_two(rest)?;
    let told = format!(in alloc;
        "\"action\":4,\"counterOp\":{{\"amount\":{amount}}},\"objectId\":\"{id}\""
    )?;
    push_op(alloc, text, told.as_str(), serial)
}

// `ID KEY TEXT SERIAL`: a key is given a text.
fn push_set(alloc: Global, text: &mut String, rest: &str) -> Result<()> {
    let (id, rest) = split_two(rest)?;
    let (key, rest) = split_two(rest)?;
    let (value, serial) = split_two(rest)?;
    let told = format!(in alloc;
        "\"action\":1,\"mapOp\":{{\"data\":{{\"string\":\"{value}\"}},\"key\":\"{key}\"}},\"objectId\":\"{id}\""
    )?;
    push_op(alloc, text, told.as_str(), serial)
}

// `ID KEY SERIAL`: a key loses its value.
fn push_remove(alloc: Global, text: &mut String, rest: &str) -> Result<()> {
    let (id, rest) = split_two(rest)?;
    let (key, serial) = split_two(rest)?;
    let told = format!(in alloc;
        "\"action\":2,\"mapOp\":{{\"key\":\"{key}\"}},\"objectId\":\"{id}\""
    )?;
    push_op(alloc, text, told.as_str(), serial)
}

// `ID SERIAL`: an object is deleted.
fn push_delete(alloc: Global, text: &mut String, rest: &str) -> Result<()> {
    let (id, serial) = split_two(rest)?;
    let told = format!(in alloc; "\"action\":5,\"objectId\":\"{id}\"")?;
    push_op(alloc, text, told.as_str(), serial)
}

// An item of OBJECT_SYNC: an object that was created, with the serial of one site, and its body.
fn push_state(
    alloc: Global,
    text: &mut String,
    id: &str,
    serial: &OpSerial,
    body: &str,
) -> Result<()> {
    let written = write_op_serial(alloc, serial)?;
    let told = format!(in alloc;
        "{{\"object\":{{\"objectId\":\"{id}\",\"siteTimeserials\":{{\"{}\":\"{}\"}},\"created\":true,{body}}}}}",
        serial.site.as_str(),
        written.as_str()
    )?;
    text.push_str(told.as_str())?;
    Ok(())
}

// `ID SUM SERIAL`: a counter.
fn push_counter(alloc: Global, text: &mut String, rest: &str) -> Result<()> {
    let (id, rest) = split_two(rest)?;
    let (sum, serial) = split_two(rest)?;
    let body = format!(in alloc; "\"counter\":{{\"count\":{sum}}}")?;
    push_state(alloc, text, id, &op_serial_of(serial)?, body.as_str())
}

// `ID KEY TEXT SERIAL`: a map with one key, of the same serial.
fn push_map(alloc: Global, text: &mut String, rest: &str) -> Result<()> {
    let (id, rest) = split_two(rest)?;
    let (key, rest) = split_two(rest)?;
    let (value, serial) = split_two(rest)?;
    let serial = op_serial_of(serial)?;
    let written = write_op_serial(alloc, &serial)?;
    let body = format!(in alloc;
        "\"map\":{{\"entries\":{{\"{key}\":{{\"data\":{{\"string\":\"{value}\"}},\"timeserial\":\"{}\"}}}}}}",
        written.as_str()
    )?;
    push_state(alloc, text, id, &serial, body.as_str())
}

/// Adds the operation or the object that a word and what follows it are; answers whether the word is one of these.
pub fn push_object_note(alloc: Global, text: &mut String, word: &str, rest: &str) -> Result<bool> {
    match word {
        "make" => push_make(alloc, text, rest)?,
        "inc" => push_inc(alloc, text, rest)?,
        "set" => push_set(alloc, text, rest)?,
        "remove" => push_remove(alloc, text, rest)?,
        "delete" => push_delete(alloc, text, rest)?,
        "counter" => push_counter(alloc, text, rest)?,
        "map" => push_map(alloc, text, rest)?,
        _ => return Ok(false),
    }
    Ok(true)
}
