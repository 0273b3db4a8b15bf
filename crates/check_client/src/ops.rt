// The operations that lines tell, and their texts.
use crate::words::split_part;
use anyhow::{Context, Result, anyhow};
use rl_ids::{List, MapValue, ObjectId, Text, object_id_code, read_object_id};
use rl_types::{ObjectOp, Op};
use std::alloc::Global;

fn object_id(word: &str) -> Result<ObjectId> {
    match read_object_id(word) {
        Some(id) => Ok(id),
        None => Err(anyhow!("no object's id: {word}")),
    }
}

// `tTEXT`, `nNUMBER`, `btrue`, `bfalse` or `rID`.
fn value_of(alloc: Global, word: &str) -> Result<MapValue> {
    if let Some(text) = word.strip_prefix('t') {
        return Ok(MapValue::Text(Text::from_str(alloc, text)?));
    }
    if let Some(digits) = word.strip_prefix('n') {
        return Ok(MapValue::Whole(digits.parse::<i64>()?));
    }
    if let Some(id) = word.strip_prefix('r') {
        return Ok(MapValue::Ref(object_id(id)?));
    }
    match word {
        "btrue" => Ok(MapValue::Bool(true)),
        "bfalse" => Ok(MapValue::Bool(false)),
        _ => Err(anyhow!("no value: {word}")),
    }
}

// `KEY=VALUE`.
fn entry_of(alloc: Global, word: &str) -> Result<(Text, MapValue)> {
    let (key, value) = word.split_once('=').context("an entry without value")?;
    Ok((Text::from_str(alloc, key)?, value_of(alloc, value)?))
}

// Entries with commas between them.
fn entries_of(alloc: Global, words: &str) -> Result<List<(Text, MapValue)>> {
    let mut entries = List::new(alloc);
    if words.is_empty() {
        return Ok(entries);
    }
    for word in words.split(',') {
        entries.push(entry_of(alloc, word)?)?;
    }
    Ok(entries)
}

// A map's key is set: `KEY;VALUE`.
fn set_of(alloc: Global, id: ObjectId, rest: &str) -> Result<Op> {
    let (key, value) = split_part(rest)?;
    Ok(Op::MapSet {
        id,
        key: Text::from_str(alloc, key)?,
        value: value_of(alloc, value)?,
    })
}

// `ACTION;ID` and, by action, `;ENTRIES`, `;KEY;VALUE`, `;KEY`, `;COUNT` or `;AMOUNT`.
fn op_of(alloc: Global, word: &str) -> Result<Op> {
    let (action, rest) = split_part(word)?;
    let (id, rest) = rest.split_once(';').unwrap_or((rest, ""));
    let id = object_id(id)?;
    match action {
        "makemap" => Ok(Op::MapCreate {
            id,
            entries: entries_of(alloc, rest)?,
        }),
        "set" => set_of(alloc, id, rest),
        "remove" => Ok(Op::MapRemove {
            id,
            key: Text::from_str(alloc, rest)?,
        }),
        "makecounter" => Ok(Op::CounterCreate {
            id,
            count: rest.parse::<i64>()?,
        }),
        "inc" => Ok(Op::CounterInc {
            id,
            amount: rest.parse::<i64>()?,
        }),
        "delete" => Ok(Op::Delete { id }),
        _ => Err(anyhow!("no action: {action}")),
    }
}

/// Operations with blanks between them.
pub fn ops_of(alloc: Global, words: &str) -> Result<List<Op>> {
    let mut ops = List::new(alloc);
    for word in words.split(' ') {
        ops.push(op_of(alloc, word)?)?;
    }
    Ok(ops)
}

// What is shown of an operation: its action, its object, and a key or a number.
fn op_text(alloc: Global, op: &Op) -> Result<String> {
    match op {
        Op::MapCreate { id, .. } => Ok(format!(in alloc;
            "makemap;{}",
            object_id_code(id).as_str()
        )?),
        Op::MapSet { id, key, .. } => {
            Ok(format!(in alloc; "set;{};{}", object_id_code(id).as_str(), key.as_str())?)
        }
        Op::MapRemove { id, key } => {
            Ok(format!(in alloc; "remove;{};{}", object_id_code(id).as_str(), key.as_str())?)
        }
        Op::CounterCreate { id, count } => {
            Ok(format!(in alloc; "makecounter;{};{count}", object_id_code(id).as_str())?)
        }
        Op::CounterInc { id, amount } => {
            Ok(format!(in alloc; "inc;{};{amount}", object_id_code(id).as_str())?)
        }
        Op::Delete { id } => Ok(format!(in alloc; "delete;{}", object_id_code(id).as_str())?),
    }
}

/// Adds operations, each behind a blank.
pub fn push_ops(alloc: Global, text: &mut String, ops: &List<ObjectOp>) -> Result<()> {
    for one in ops.as_slice() {
        text.push(' ')?;
        text.push_str(op_text(alloc, &one.op)?.as_str())?;
    }
    Ok(())
}
