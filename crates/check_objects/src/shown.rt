// Objects as texts.
use crate::words::{push_gap, push_text};
use anyhow::Result;
use rl_ids::{List, MapValue, OpSerial, SiteCode, Text, object_id_code};
use rl_types::{MapCell, ObjectBody, ObjectState, state_weight};
use std::alloc::Global;

// So many objects, with so many cells together, are shown whole.
const SHOWN_OBJECTS: usize = 6;

const SHOWN_CELLS: usize = 12;

fn push_serial(alloc: Global, text: &mut String, serial: &OpSerial) -> Result<()> {
    let shown = format!(in alloc;
        "{}.{}@{}",
        serial.place.0,
        serial.index,
        serial.site.as_str()
    )?;
    text.push_str(shown.as_str())?;
    Ok(())
}

fn push_bytes(alloc: Global, text: &mut String, bytes: &[u8]) -> Result<()> {
    push_text(alloc, text, std::str::from_utf8(bytes)?)
}

fn push_value(alloc: Global, text: &mut String, value: &MapValue) -> Result<()> {
    match value {
        MapValue::Text(one) => {
            text.push('t')?;
            push_text(alloc, text, one.as_str())
        }
        MapValue::Whole(number) => {
            text.push_str(format!(in alloc; "n{number}")?.as_str())?;
            Ok(())
        }
        MapValue::Bool(is) => {
            text.push_str(if *is { "btrue" } else { "bfalse" })?;
            Ok(())
        }
        MapValue::Bytes(bytes) => {
            text.push('y')?;
            push_bytes(alloc, text, bytes.as_slice())
        }
        MapValue::Ref(id) => {
            text.push('r')?;
            text.push_str(object_id_code(id).as_str())?;
            Ok(())
        }
    }
}

// `KEY=SERIAL=VALUE`; the value of a tombstone cell is `-`.
fn push_cell(alloc: Global, text: &mut String, cell: &(Text, MapCell)) -> Result<()> {
    push_text(alloc, text, cell.0.as_str())?;
    text.push('=')?;
    push_serial(alloc, text, &cell.1.serial)?;
    text.push('=')?;
    match &cell.1.value {
        Some(value) => push_value(alloc, text, value),
        None => {
            text.push('-')?;
            Ok(())
        }
    }
}

fn push_cells(alloc: Global, text: &mut String, cells: &List<(Text, MapCell)>) -> Result<()> {
    let mut mark = "";
    for cell in cells.as_slice() {
        text.push_str(mark)?;
        push_cell(alloc, text, cell)?;
        mark = ",";
    }
    Ok(())
}

fn push_body(alloc: Global, text: &mut String, body: &ObjectBody) -> Result<()> {
    match body {
        ObjectBody::Counter(sum) => {
            text.push_str(format!(in alloc; "#{sum}")?.as_str())?;
            Ok(())
        }
        ObjectBody::Map(cells) => push_cells(alloc, text, cells),
    }
}

// `SERIAL`, or `SITE/SERIAL` where the serial is another site's.
fn push_site(alloc: Global, text: &mut String, site: &(SiteCode, OpSerial)) -> Result<()> {
    if site.0.as_str() != site.1.site.as_str() {
        text.push_str(site.0.as_str())?;
        text.push('/')?;
    }
    push_serial(alloc, text, &site.1)
}

fn push_sites(alloc: Global, text: &mut String, sites: &List<(SiteCode, OpSerial)>) -> Result<()> {
    let mut mark = "";
    for site in sites.as_slice() {
        text.push_str(mark)?;
        push_site(alloc, text, site)?;
        mark = ",";
    }
    Ok(())
}

fn flags_text(state: &ObjectState) -> &'static str {
    match (state.created, state.tombstone) {
        (true, true) => "cx",
        (true, false) => "c",
        (false, true) => "x",
        (false, false) => "-",
    }
}

// `ID;FLAGS;BODY;SITES`, as lines tell it.
fn push_state(alloc: Global, text: &mut String, state: &ObjectState) -> Result<()> {
    text.push_str(object_id_code(&state.id).as_str())?;
    text.push(';')?;
    text.push_str(flags_text(state))?;
    text.push(';')?;
    push_body(alloc, text, &state.body)?;
    text.push(';')?;
    push_sites(alloc, text, &state.sites)
}

fn cells_in(state: &ObjectState) -> usize {
    match &state.body {
        ObjectBody::Counter(_) => 0,
        ObjectBody::Map(cells) => cells.len(),
    }
}

// How many objects and cells there are, and what they weigh.
#[derive(Clone, Copy)]
struct Sizes {
    objects: usize,
    cells: usize,
    weight: u64,
}

fn sizes_of(states: &List<ObjectState>) -> Sizes {
    let mut sizes = Sizes {
        objects: states.len(),
        cells: 0,
        weight: 0,
    };
    for state in states.as_slice() {
        sizes.cells = sizes.cells.saturating_add(cells_in(state));
        sizes.weight = sizes.weight.saturating_add(state_weight(state));
    }
    sizes
}

/// A few objects whole; of more how many they are, how many cells they have, and what they weigh.
pub fn states_text(alloc: Global, states: &List<ObjectState>) -> Result<String> {
    let sizes = sizes_of(states);
    if sizes.objects > SHOWN_OBJECTS || sizes.cells > SHOWN_CELLS {
        return Ok(format!(in alloc;
            "{} objects {} cells {} weight",
            sizes.objects, sizes.cells, sizes.weight
        )?);
    }
    let mut text = String::new(alloc);
    for state in states.as_slice() {
        push_gap(&mut text)?;
        push_state(alloc, &mut text, state)?;
    }
    Ok(text)
}
