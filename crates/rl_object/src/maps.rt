// What operations do to the map of an object, and putting that back.
ghost use Rattle.std.specs.Prelude.{◌≡◌, IfOk, OnOk, OnErr};
ghost use Rattle.rl_livemap.specs.Stamps.{map_weight};
ghost use Rattle.rl_objmodel.specs.Held.{Keys};
ghost use Rattle.rl_object.specs.Back.{cells_restored, key_in, IsCellThere};
ghost use Rattle.rl_object.specs.Parts.{acted_map, all_or_same, cells_before, map_back, one_or_same, IsMapBack};

use crate::stood::CellsStood;
use rl_ids::{Copied, Moment, NoMemory, OpSerial};
use rl_livemap::{HeldCell, LiveMap};
use rl_types::Op;
use std::alloc::Global;

// What a write answers, as what stood of a map.
fn one_or_same(before: Option<Option<HeldCell>>) -> CellsStood
    ensures { result ≡ one_or_same before }
{
    match before {
        Some(before) => CellsStood::One(before),
        None => CellsStood::Same,
    }
}

// What a create answers, as what stood of a map.
fn all_or_same(before: Option<LiveMap>) -> CellsStood
    ensures { result ≡ all_or_same before }
{
    match before {
        Some(before) => CellsStood::All(before),
        None => CellsStood::Same,
    }
}

// Applies an operation to the map of an object that stands, and answers what stood of it. `NoMemory` leaves it as before.
pub fn act(
    alloc: Global,
    map: &mut LiveMap,
    op: &Op,
    serial: &OpSerial,
    now: Moment,
) -> Result<CellsStood, NoMemory>
    ensures ok { OnOk result (map.new ≡ acted_map now serial.now op.now map.old) }
    ensures back { IfOk result (λ stood. IsMapBack (key_in op.now) (cells_before stood) map.new.cells map.old.cells) }
    ensures err { OnErr result (map.new ≡ map.old) }
{
    let _cells = map.cells();
    match op {
        Op::MapCreate { entries, .. } => {
            let before = map.merge_create(alloc, entries, serial)?;
            Ok(all_or_same(before))
        }
        Op::MapSet { key, value, .. } => {
            let value = value.copy(alloc)?;
            let before = map.set(alloc, key.as_str(), value, serial)?;
            Ok(one_or_same(before))
        }
        Op::MapRemove { key, .. } => {
            let before = map.remove(alloc, key.as_str(), serial, now)?;
            Ok(one_or_same(before))
        }
        Op::Delete { .. } => Ok(CellsStood::All(map.take(alloc))),
        _ => Ok(CellsStood::Same),
    }
}

// Puts back what stood of a map, whether it was created, and what it weighed.
pub fn put_back(map: &mut LiveMap, key: &str, stood: CellsStood, created: bool, weight: u64)
    requires there { IsCellThere key.now (cells_before stood) (Keys map.old.cells) }
    requires weight { weight ≡ map_weight (cells_restored key.now (cells_before stood) map.old.cells) }
    ensures { map.new ≡ map_back created (cells_restored key.now (cells_before stood) map.old.cells) }
{
    match stood {
        CellsStood::Same => map.set_created(created),
        CellsStood::One(before) => {
            map.put_back(key, before, weight);
            map.set_created(created);
        }
        CellsStood::All(before) => {
            *map = before;
            map.set_created(created);
        }
    }
}
