// Objects as texts.
use crate::words::push_mark;
use anyhow::Result;
use rl_ids::{List, MapValue, Text, object_id_code};
use rl_types::{MapCell, ObjectBody, ObjectState};
use std::alloc::Global;

fn push_value(alloc: Global, text: &mut String, value: &MapValue) -> Result<()> {
    match value {
        MapValue::Text(one) => {
            text.push('t')?;
            text.push_str(one.as_str())?;
        }
        MapValue::Whole(number) => text.push_str(format!(in alloc; "n{number}")?.as_str())?,
        MapValue::Bool(is) => text.push_str(if *is { "btrue" } else { "bfalse" })?,
        MapValue::Bytes(bytes) => text.push_str(format!(in alloc; "y{}", bytes.len())?.as_str())?,
        MapValue::Ref(id) => {
            text.push('r')?;
            text.push_str(object_id_code(id).as_str())?;
        }
    }
    Ok(())
}

// `KEY=VALUE`; a key that was removed isn't shown.
fn push_cell(alloc: Global, text: &mut String, cell: &(Text, MapCell)) -> Result<()> {
    let Some(value) = &cell.1.value else {
        return Ok(());
    };
    push_mark(text, ",")?;
    text.push_str(cell.0.as_str())?;
    text.push('=')?;
    push_value(alloc, text, value)
}

fn cells_text(alloc: Global, cells: &List<(Text, MapCell)>) -> Result<String> {
    let mut text = String::new(alloc);
    for cell in cells.as_slice() {
        push_cell(alloc, &mut text, cell)?;
    }
    Ok(text)
}

/// Adds an object: `ID=SUM`, or `ID{CELLS}` with commas between the cells.
pub fn push_object(alloc: Global, text: &mut String, state: &ObjectState) -> Result<()> {
    text.push_str(object_id_code(&state.id).as_str())?;
    match &state.body {
        ObjectBody::Counter(sum) => text.push_str(format!(in alloc; "={sum}")?.as_str())?,
        ObjectBody::Map(cells) => {
            text.push('{')?;
            text.push_str(cells_text(alloc, cells)?.as_str())?;
            text.push('}')?;
        }
    }
    Ok(())
}
