// The operations that lines name.
use crate::words::{number, split_part, split_two, text_of};
use anyhow::{Context, Result, anyhow};
use rl_ids::{
    Blob, List, MapValue, Moment, ObjectId, OpSerial, Place, Text, read_object_id, read_site,
};
use rl_types::{ObjectOp, Op};
use std::alloc::Global;

/// Operations, and the moment at which they come.
#[derive(Drop)]
pub struct Frame {
    pub ops: List<ObjectOp>,
    pub now: Moment,
}

pub fn object_id(word: &str) -> Result<ObjectId> {
    match read_object_id(word) {
        Some(id) => Ok(id),
        None => Err(anyhow!("no object's id: {word}")),
    }
}

/// `-` is no id.
pub fn object_id_or_none(word: &str) -> Result<Option<ObjectId>> {
    if word == "-" {
        return Ok(None);
    }
    Ok(Some(object_id(word)?))
}

/// `tTEXT`, `nNUMBER`, `btrue`, `bfalse`, `yBYTES` or `rID`.
pub fn value_of(alloc: Global, word: &str) -> Result<MapValue> {
    if let Some(text) = word.strip_prefix('t') {
        return Ok(MapValue::Text(text_of(alloc, text)?));
    }
    if let Some(digits) = word.strip_prefix('n') {
        return Ok(MapValue::Whole(digits.parse::<i64>()?));
    }
    if let Some(text) = word.strip_prefix('y') {
        let bytes = text_of(alloc, text)?;
        return Ok(MapValue::Bytes(Blob::from_slice(alloc, bytes.as_bytes())?));
    }
    if let Some(id) = word.strip_prefix('r') {
        return Ok(MapValue::Ref(object_id(id)?));
    }
    match word {
        "btrue" => Ok(MapValue::Bool(true)),
        "bfalse" => Ok(MapValue::Bool(false)),
        _ => Err(anyhow!("no value: {word}")),
    }
}

// `KEY=VALUE`.
fn entry_of(alloc: Global, word: &str) -> Result<(Text, MapValue)> {
    let (key, value) = word.split_once('=').context("an entry without value")?;
    Ok((text_of(alloc, key)?, value_of(alloc, value)?))
}

// Entries with commas between them.
fn entries_of(alloc: Global, words: &str) -> Result<List<(Text, MapValue)>> {
    let mut entries = List::new(alloc);
    if words.is_empty() {
        return Ok(entries);
    }
    for word in words.split(',') {
        entries.push(entry_of(alloc, word)?)?;
    }
    Ok(entries)
}

// A map's key is set: `KEY;VALUE`.
fn set_of(alloc: Global, id: ObjectId, rest: &str) -> Result<Op> {
    let (key, value) = split_part(rest)?;
    Ok(Op::MapSet {
        id,
        key: text_of(alloc, key)?,
        value: value_of(alloc, value)?,
    })
}

// `ACTION;ID` and, by action, `;ENTRIES`, `;KEY;VALUE`, `;KEY`, `;COUNT` or `;AMOUNT`.
fn op_of(alloc: Global, word: &str) -> Result<Op> {
    let (action, rest) = split_part(word)?;
    let (id, rest) = rest.split_once(';').unwrap_or((rest, ""));
    let id = object_id(id)?;
    match action {
        "makemap" => Ok(Op::MapCreate {
            id,
            entries: entries_of(alloc, rest)?,
        }),
        "set" => set_of(alloc, id, rest),
        "remove" => Ok(Op::MapRemove {
            id,
            key: text_of(alloc, rest)?,
        }),
        "makecounter" => Ok(Op::CounterCreate {
            id,
            count: rest.parse::<i64>()?,
        }),
        "inc" => Ok(Op::CounterInc {
            id,
            amount: rest.parse::<i64>()?,
        }),
        "delete" => Ok(Op::Delete { id }),
        _ => Err(anyhow!("no action: {action}")),
    }
}

/// Operations without serials.
pub fn plain_ops(alloc: Global, words: &str) -> Result<List<ObjectOp>> {
    let mut ops = List::new(alloc);
    if words.is_empty() {
        return Ok(ops);
    }
    for word in words.split(' ') {
        let op = op_of(alloc, word)?;
        ops.push(ObjectOp { op, serial: None })?;
    }
    Ok(ops)
}

fn with_index(first: &OpSerial, index: u16) -> OpSerial {
    OpSerial {
        place: first.place,
        index,
        site: first.site,
    }
}

// Operations with serials that follow each other from the first on.
fn ops_from(alloc: Global, first: &OpSerial, words: &str) -> Result<List<ObjectOp>> {
    let mut ops = List::new(alloc);
    if words.is_empty() {
        return Ok(ops);
    }
    let mut index = first.index;
    for word in words.split(' ') {
        let op = op_of(alloc, word)?;
        let serial = with_index(first, index);
        ops.push(ObjectOp {
            op,
            serial: Some(serial),
        })?;
        index = index.saturating_add(1);
    }
    Ok(ops)
}

/// `SITE PLACE INDEX MOMENT OP..`: the operations of an entry of the site at the place, from the index on.
pub fn frame_of(alloc: Global, rest: &str) -> Result<Frame> {
    let (site, rest) = split_two(rest)?;
    let (place, rest) = split_two(rest)?;
    let (index, rest) = split_two(rest)?;
    let (now, words) = rest.split_once(' ').unwrap_or((rest, ""));
    let first = OpSerial {
        place: Place(number(place)?),
        index: index.parse::<u16>()?,
        site: read_site(site).context("no site")?,
    };
    Ok(Frame {
        ops: ops_from(alloc, &first, words)?,
        now: Moment(number(now)?),
    })
}
