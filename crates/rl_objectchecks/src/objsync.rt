// What no clause says: that calls succeed where memory lasts.
use rl_ids::{
    Copied, List, MapValue, Moment, NoMemory, ObjectId, OpSerial, Place, Text, read_site,
};
use rl_objsync::ObjSync;
use rl_types::{Cursor, ObjectBody, ObjectOp, ObjectState, Op};
use std::alloc::Global;

// A write at `k` of the root, as the site `s1` made it.
fn write(alloc: Global, place: u64) -> Result<List<ObjectOp>, NoMemory> {
    let mut ops = List::new(alloc);
    ops.push(ObjectOp {
        op: Op::MapSet {
            id: ObjectId::Root,
            key: Text::from_str(alloc, "k")?,
            value: MapValue::Whole(1),
        },
        serial: Some(OpSerial {
            place: Place(place),
            index: 0,
            site: read_site("s1").ok_or(NoMemory)?,
        }),
    })?;
    Ok(ops)
}

fn cursor(alloc: Global, cursor: &str) -> Result<Cursor, NoMemory> {
    Ok(Cursor {
        sequence: Text::from_str(alloc, "1")?,
        cursor: Text::from_str(alloc, cursor)?,
    })
}

// How many keys the root has.
fn keys(alloc: Global, sync: &ObjSync) -> Result<usize, NoMemory> {
    let live = sync.pool().live(alloc)?;
    match live.as_slice() {
        [
            ObjectState {
                body: ObjectBody::Map(cells),
                ..
            },
        ] => Ok(cells.len()),
        _ => Ok(9),
    }
}

#[test]
fn operations_wait_for_the_end_of_a_sync(rt: HostRuntime) -> Result<(), NoMemory> {
    let alloc = rt.alloc();
    let mut sync = ObjSync::new(alloc)?;
    sync.attached(alloc, true)?;
    sync.ops(alloc, &write(alloc, 1)?, Moment(0))?;
    sync.page(
        alloc,
        Some(&cursor(alloc, "x")?),
        &List::new(alloc),
        Moment(0),
    )?;
    assert_eq!(rt; keys(alloc, &sync)?, 0);
    sync.page(
        alloc,
        Some(&cursor(alloc, "")?),
        &List::new(alloc),
        Moment(0),
    )?;
    assert!(rt; !sync.syncing());
    assert_eq!(rt; keys(alloc, &sync)?, 1);
    Ok(())
}

#[test]
fn objects_are_shown_and_cleared(rt: HostRuntime) -> Result<(), NoMemory> {
    let alloc = rt.alloc();
    let mut sync = ObjSync::new(alloc)?;
    sync.ops(alloc, &write(alloc, 1)?, Moment(0))?;
    let shown = sync.pool().live(alloc)?;
    let mut copy = sync.copy(alloc)?;
    copy.attached(alloc, false)?;
    assert_eq!(rt; keys(alloc, &copy)?, 0);
    copy.attached(alloc, true)?;
    copy.page(alloc, None, &shown, Moment(0))?;
    copy.collect(Moment(0));
    assert_eq!(rt; keys(alloc, &copy)?, 1);
    Ok(())
}
