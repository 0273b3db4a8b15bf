// What no clause says: that calls succeed where memory lasts.
use rl_ids::{Copied, List, MapValue, Moment, NoMemory, OpSerial, Place, Text, read_site};
use rl_livemap::LiveMap;
use rl_numbers::limits::{CELL_WEIGHT, OBJECT_WEIGHT, TOMBSTONE_GRACE, VALUE_WEIGHT};
use std::alloc::Global;

// The serial of an operation of the site `s1`.
fn serial(place: u64) -> Result<OpSerial, NoMemory> {
    Ok(OpSerial {
        place: Place(place),
        index: 0,
        site: read_site("s1").ok_or(NoMemory)?,
    })
}

// A map of which `k` was set and removed, and then created with `k` and `l`.
fn written(alloc: Global) -> Result<LiveMap, NoMemory> {
    let mut map = LiveMap::empty(alloc);
    map.set(alloc, "k", MapValue::Whole(1), &serial(2)?)?;
    map.remove(alloc, "k", &serial(3)?, Moment(7))?;
    let mut entries = List::new(alloc);
    entries.push((Text::from_str(alloc, "k")?, MapValue::Whole(2)))?;
    entries.push((Text::from_str(alloc, "l")?, MapValue::Whole(3)))?;
    map.merge_create(alloc, &entries, &serial(1)?)?;
    Ok(map)
}

#[test]
fn writes_and_loads_succeed(rt: HostRuntime) -> Result<(), NoMemory> {
    let alloc = rt.alloc();
    let mut map = written(alloc)?;
    assert!(rt; map.get("l").is_some());
    assert!(rt; map.weight() == OBJECT_WEIGHT + 2 * (CELL_WEIGHT + 1) + VALUE_WEIGHT);
    let mut told = LiveMap::load(alloc, map.cells(), map.created(), Moment(8))?;
    map.collect(Moment(7 + TOMBSTONE_GRACE));
    told.collect(Moment(7 + TOMBSTONE_GRACE));
    assert!(rt; map.cells().len() == 1);
    assert!(rt; told.cells().len() == 2);
    assert!(rt; told.unnumbered(alloc)?.copy(alloc)?.weight() == told.weight());
    Ok(())
}

#[test]
fn what_stood_is_answered(rt: HostRuntime) -> Result<(), NoMemory> {
    let alloc = rt.alloc();
    let mut map = written(alloc)?;
    let first = map.set(alloc, "m", MapValue::Bool(true), &serial(4)?)?;
    assert!(rt; first.is_some());
    let second = map.remove(alloc, "m", &serial(4)?, Moment(8))?;
    assert!(rt; second.is_none());
    let all = map.take(alloc);
    assert!(rt; map.cells().is_empty());
    assert!(rt; all.cells().len() == 3);
    Ok(())
}
