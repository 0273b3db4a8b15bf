// What cells weigh, as the types' own weights count them.
ghost use Rattle.std.specs.Prelude.{◌≡◌, ◌+◌, ◌-◌, sum_by, IfOk};
ghost use Rattle.rl_types.specs.Weight.{cell_weight, held_weight, saturated, value_weight};
ghost use Rattle.rl_livemap.specs.Stamps.{weight_left, write_weight};
ghost use Rattle.rl_numbers.specs.declared.limits.TheConstants.{OBJECT_WEIGHT};

use crate::held::HeldCell;
use rl_ids::{MapValue, NoMemory, Text, object_id_len};
use rl_numbers::limits::{CELL_WEIGHT, OBJECT_WEIGHT, VALUE_WEIGHT};
use rl_types::MapCell;

fn value_weight(value: &MapValue) -> u64
    ensures { result ≡ value_weight value.now }
{
    match value {
        MapValue::Text(text) => text.len() as u64,
        MapValue::Whole(_) => VALUE_WEIGHT,
        MapValue::Bool(_) => VALUE_WEIGHT,
        MapValue::Bytes(bytes) => bytes.len() as u64,
        MapValue::Ref(id) => object_id_len(id),
    }
}

fn held_weight(value: &Option<MapValue>) -> u64
    ensures { result ≡ saturated (held_weight value.now) }
{
    match value {
        Some(value) => value_weight(value),
        None => 0,
    }
}

// A cell's weight with its key, or the greatest number where the weight is greater.
fn cell_weight(key: &str, cell: &MapCell) -> u64
    ensures { result ≡ saturated (cell_weight (key.now, cell.now)) }
{
    CELL_WEIGHT
        .saturating_add(key.len() as u64)
        .saturating_add(held_weight(&cell.value))
}

// The weight of cells, or the greatest number where the weight is greater.
fn total(cells: &[(Text, MapCell)]) -> u64
    ensures { result ≡ saturated (sum_by cell_weight cells.now) }
{
    let mut sum = 0u64;
    for cell in cells {
        sum = sum.saturating_add(cell_weight(cell.0.as_str(), &cell.1));
    }
    sum
}

// The weight of cells with that of an object, or the greatest number where the weight is greater.
pub fn weigh(cells: &[(Text, MapCell)]) -> u64
    ensures { result ≡ saturated (OBJECT_WEIGHT + sum_by cell_weight cells.now) }
{
    OBJECT_WEIGHT.saturating_add(total(cells))
}

// A weight with that of one more cell.
pub fn weight_with(weight: u64, key: &str, cell: &MapCell) -> Result<u64, NoMemory>
    ensures { IfOk result (λ full. full ≡ weight + cell_weight (key.now, cell.now)) }
{
    let more = cell_weight(key, cell);
    if more == u64::MAX {
        return Err(NoMemory);
    }
    weight.checked_add(more).ok_or(NoMemory)
}

// What is left of a weight with one more cell, where this stood at its key.
pub fn weight_left(weight: u64, full: u64, key: &str, before: &Option<Option<HeldCell>>) -> u64
    ensures { result ≡ weight_left weight full key.now before.now }
{
    match before {
        None => weight,
        Some(None) => full,
        Some(Some(held)) => without(full, key, held),
    }
}

// A weight without that of a cell.
fn without(full: u64, key: &str, held: &HeldCell) -> u64
    ensures { result ≡ full - write_weight key.now held.now }
{
    full.saturating_sub(cell_weight(key, held.cell()))
}
