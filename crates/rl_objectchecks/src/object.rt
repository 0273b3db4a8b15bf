// What no clause says: that calls succeed where memory lasts.
use rl_ids::{
    Code64, Copied, List, MapValue, Moment, NoMemory, ObjectId, ObjectKind, OpSerial, Place, Text,
    read_site,
};
use rl_numbers::limits::{
    CELL_WEIGHT, MAX_COUNTER_SUM, OBJECT_WEIGHT, TOMBSTONE_GRACE, VALUE_WEIGHT,
};
use rl_object::{Applied, Object, kind_of, suits, target_of};
use rl_types::{ObjectBody, ObjectState, Op};
use std::alloc::Global;

// The serial of an operation of the site `s1`.
fn serial(place: u64) -> Result<OpSerial, NoMemory> {
    Ok(OpSerial {
        place: Place(place),
        index: 0,
        site: read_site("s1").ok_or(NoMemory)?,
    })
}

fn made(kind: ObjectKind) -> Result<ObjectId, NoMemory> {
    Ok(ObjectId::Made {
        kind,
        hash: Code64::from_text("h").ok_or(NoMemory)?,
        millis: 0,
    })
}

fn set(alloc: Global, key: &str) -> Result<Op, NoMemory> {
    Ok(Op::MapSet {
        id: made(ObjectKind::Map)?,
        key: Text::from_str(alloc, key)?,
        value: MapValue::Whole(1),
    })
}

fn delete() -> Result<Op, NoMemory> {
    Ok(Op::Delete {
        id: made(ObjectKind::Map)?,
    })
}

// What became of an operation that is then put back.
fn tried(alloc: Global, object: &mut Object, op: &Op, place: u64) -> Result<Applied, NoMemory> {
    let serial = serial(place)?;
    let (done, stood) = object.apply(alloc, op, &serial, Moment(7))?;
    if let Some(stood) = stood {
        object.put_back(op, &serial, stood);
    }
    Ok(done)
}

// What became of an operation that stays.
fn taken(alloc: Global, object: &mut Object, op: &Op, place: u64) -> Result<Applied, NoMemory> {
    let (done, _) = object.apply(alloc, op, &serial(place)?, Moment(7))?;
    Ok(done)
}

// A map with one cell.
fn map(alloc: Global) -> Result<Object, NoMemory> {
    let mut map = Object::empty(alloc, &made(ObjectKind::Map)?)?;
    taken(alloc, &mut map, &set(alloc, "k")?, 1)?;
    Ok(map)
}

// A counter that a page told.
fn counter(alloc: Global, sum: i128) -> Result<Object, NoMemory> {
    let hash = Code64::from_text("h").ok_or(NoMemory)?;
    let state = ObjectState {
        id: ObjectId::Made {
            kind: ObjectKind::Counter,
            hash,
            millis: 0,
        },
        sites: List::new(alloc),
        tombstone: false,
        created: true,
        body: ObjectBody::Counter(sum),
    };
    Object::told(alloc, &state, Moment(0))
}

fn inc() -> Result<Op, NoMemory> {
    Ok(Op::CounterInc {
        id: made(ObjectKind::Counter)?,
        amount: 2,
    })
}

#[test]
fn a_write_is_put_back(rt: HostRuntime) -> Result<(), NoMemory> {
    let alloc = rt.alloc();
    let mut map = map(alloc)?;
    let done = tried(alloc, &mut map, &set(alloc, "l")?, 2)?;
    assert!(rt; done == Applied::Applied);
    assert!(rt; map.count_cells() == 1);
    assert!(rt; map.weight() == OBJECT_WEIGHT + CELL_WEIGHT + 1 + VALUE_WEIGHT);
    Ok(())
}

#[test]
fn a_deletion_is_put_back(rt: HostRuntime) -> Result<(), NoMemory> {
    let alloc = rt.alloc();
    let mut map = map(alloc)?;
    let done = tried(alloc, &mut map, &delete()?, 2)?;
    assert!(rt; done == Applied::Applied);
    assert!(rt; map.count_cells() == 1);
    assert!(rt; !map.is_tombstone());
    Ok(())
}

#[test]
fn a_deletion_leaves_a_tombstone(rt: HostRuntime) -> Result<(), NoMemory> {
    let alloc = rt.alloc();
    let mut map = map(alloc)?;
    let done = taken(alloc, &mut map, &delete()?, 2)?;
    assert!(rt; done == Applied::Applied);
    assert!(rt; map.is_gone(Moment(7 + TOMBSTONE_GRACE)));
    Ok(())
}

#[test]
fn increments_are_applied_once(rt: HostRuntime) -> Result<(), NoMemory> {
    let alloc = rt.alloc();
    let mut counter = counter(alloc, 5)?;
    let op = inc()?;
    let first = tried(alloc, &mut counter, &op, 1)?;
    assert!(rt; first == Applied::Applied);
    assert!(rt; counter.sum() == 5);
    let second = taken(alloc, &mut counter, &op, 1)?;
    assert!(rt; second == Applied::Applied);
    let third = taken(alloc, &mut counter, &op, 1)?;
    assert!(rt; third == Applied::Skipped);
    Ok(())
}

#[test]
fn sums_stay_in_their_range(rt: HostRuntime) -> Result<(), NoMemory> {
    let alloc = rt.alloc();
    let op = inc()?;
    assert!(rt; suits(kind_of(&target_of(&op)), &op));
    let mut full = counter(alloc, MAX_COUNTER_SUM)?;
    let done = tried(alloc, &mut full, &op, 1)?;
    assert!(rt; done == Applied::Range);
    Ok(())
}

#[test]
fn a_bare_root_is_shown(rt: HostRuntime) -> Result<(), NoMemory> {
    let alloc = rt.alloc();
    let mut root = Object::bare_root(alloc)?;
    root.collect(Moment(TOMBSTONE_GRACE));
    assert!(rt; root.is_bare());
    assert!(rt; root.is_live());
    assert!(rt; root.is_of("root"));
    assert!(rt; !root.is_before("root"));
    assert!(rt; root.is_upto("root"));
    assert!(rt; root.created());
    Ok(())
}

#[test]
fn copies_show_the_same(rt: HostRuntime) -> Result<(), NoMemory> {
    let alloc = rt.alloc();
    let map = map(alloc)?;
    let copy = map.copy(alloc)?;
    assert!(rt; copy.shows_same(&map));
    let fresh = map.unnumbered(alloc)?;
    assert!(rt; !fresh.shows_same(&map));
    let state = map.state(alloc)?;
    assert!(rt; state.id == map.id());
    Ok(())
}
