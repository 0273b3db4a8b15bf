// What no clause says: that calls succeed where memory lasts.
use rl_ids::{
    Copied, List, MapValue, Moment, NoMemory, ObjectId, OpSerial, Place, Text, read_object_id,
    read_site,
};
use rl_numbers::codes::UNKNOWN_OBJECT;
use rl_pool::{Applied, Pool};
use rl_types::{ObjectOp, Op};
use std::alloc::Global;

// An operation of the site `s1` at this place.
fn numbered(op: Op, place: u64) -> Result<ObjectOp, NoMemory> {
    Ok(ObjectOp {
        op,
        serial: Some(OpSerial {
            place: Place(place),
            index: 0,
            site: read_site("s1").ok_or(NoMemory)?,
        }),
    })
}

// A counter's id.
fn counter() -> Result<ObjectId, NoMemory> {
    read_object_id("counter:a@0").ok_or(NoMemory)
}

// The root's key `k` gets this value.
fn write(alloc: Global, value: MapValue) -> Result<Op, NoMemory> {
    Ok(Op::MapSet {
        id: ObjectId::Root,
        key: Text::from_str(alloc, "k")?,
        value,
    })
}

// A counter is made, and the root refers to it.
fn made(alloc: Global, place: u32) -> Result<List<ObjectOp>, NoMemory> {
    let id = counter()?;
    let place = u64::from(place);
    let mut ops = List::new(alloc);
    ops.push(numbered(Op::CounterCreate { id, count: 5 }, place)?)?;
    ops.push(numbered(write(alloc, MapValue::Ref(id))?, place + 1)?)?;
    Ok(ops)
}

// A write, and then an increment of an object that is not there.
fn broken(alloc: Global, place: u32) -> Result<List<ObjectOp>, NoMemory> {
    let id = read_object_id("counter:b@0").ok_or(NoMemory)?;
    let place = u64::from(place);
    let mut ops = List::new(alloc);
    ops.push(numbered(write(alloc, MapValue::Whole(1))?, place)?)?;
    ops.push(numbered(Op::CounterInc { id, amount: 1 }, place + 1)?)?;
    Ok(ops)
}

#[test]
fn a_frame_is_admitted_whole_or_not_at_all(rt: HostRuntime) -> Result<(), NoMemory> {
    let alloc = rt.alloc();
    let mut pool = Pool::new(alloc)?;
    assert!(rt; pool.is_bare());
    let good = made(alloc, 1)?;
    assert_eq!(rt; pool.check(alloc, &good, Moment(0))?, None);
    assert_eq!(rt; pool.admit(alloc, &good, Moment(0))?, None);
    assert_eq!(rt; pool.count(), 2);
    let before = pool.copy(alloc)?;
    let bad = broken(alloc, 3)?;
    assert_eq!(rt; pool.check(alloc, &bad, Moment(0))?, Some(UNKNOWN_OBJECT));
    assert_eq!(rt; pool.admit(alloc, &bad, Moment(0))?, Some(UNKNOWN_OBJECT));
    assert!(rt; pool.same(&before));
    Ok(())
}

#[test]
fn operations_are_applied_once_and_pages_tell_them(rt: HostRuntime) -> Result<(), NoMemory> {
    let alloc = rt.alloc();
    let mut pool = Pool::new(alloc)?;
    let ops = made(alloc, 1)?;
    let first = pool.apply(alloc, &ops, Moment(0))?;
    assert!(rt; first.as_slice() == [Applied::Applied, Applied::Applied].as_slice());
    let again = pool.apply(alloc, &ops, Moment(0))?;
    assert!(rt; again.as_slice() == [Applied::Skipped, Applied::Skipped].as_slice());
    let (page, last) = pool.after(alloc, Some(&counter()?), 1)?;
    assert!(rt; last);
    let mut told = Pool::new(alloc)?;
    told.replace(alloc, &page, Moment(0))?;
    assert!(rt; told.is_bare() == pool.is_bare());
    assert_eq!(rt; pool.live(alloc)?.len(), 2);
    pool.collect(Moment(0));
    assert_eq!(rt; pool.count(), 2);
    Ok(())
}
