// What no clause says: that calls succeed where memory lasts.
use rl_counter::{Applied, Counter, put, put_back, serial_of};
use rl_ids::{Copied, List, NoMemory, ObjectId, OpSerial, Place, read_site};
use rl_numbers::limits::MAX_COUNTER_SUM;
use rl_types::{ObjectBody, ObjectState, Op};
use std::alloc::Global;

// The serial of an operation of the site `s1`.
fn serial(place: u64) -> Option<OpSerial> {
    Some(OpSerial {
        place: Place(place),
        index: 0,
        site: read_site("s1")?,
    })
}

fn create(counter: &mut Counter, count: i64, place: u64) -> Option<Applied> {
    let op = Op::CounterCreate {
        id: ObjectId::Root,
        count,
    };
    counter.apply(&op, &serial(place)?).ok()
}

fn inc(counter: &mut Counter, amount: i64, place: u64) -> Option<Applied> {
    let op = Op::CounterInc {
        id: ObjectId::Root,
        amount,
    };
    counter.apply(&op, &serial(place)?).ok()
}

fn counter_of(alloc: Global, sum: i128) -> Result<Counter, NoMemory> {
    let state = ObjectState {
        id: ObjectId::Root,
        sites: List::new(alloc),
        tombstone: false,
        created: true,
        body: ObjectBody::Counter(sum),
    };
    Counter::load_state(alloc, &state)
}

#[test]
fn operations_are_applied_once(rt: HostRuntime) -> Result<(), NoMemory> {
    let alloc = rt.alloc();
    let mut counter = Counter::zero(alloc);
    assert!(rt; create(&mut counter, 5, 1) == Some(Applied::Applied));
    assert!(rt; inc(&mut counter, 2, 2) == Some(Applied::Applied));
    assert!(rt; inc(&mut counter, 2, 2) == Some(Applied::Skipped));
    assert!(rt; counter.value() == 7);
    assert!(rt; counter.copy(alloc)?.value() == 7);
    let mut full = counter_of(alloc, MAX_COUNTER_SUM)?;
    assert!(rt; inc(&mut full, 1, 1) == Some(Applied::Range));
    assert!(rt; inc(&mut full, 0, 1) == Some(Applied::Applied));
    Ok(())
}

#[test]
fn what_a_site_had_is_put_back(rt: HostRuntime) -> Result<(), NoMemory> {
    let alloc = rt.alloc();
    let site = read_site("s1").ok_or(NoMemory)?;
    let mut sites = List::new(alloc);
    put(&mut sites, serial(1).ok_or(NoMemory)?)?;
    put(&mut sites, serial(2).ok_or(NoMemory)?)?;
    put_back(&mut sites, &site, serial(1));
    assert!(rt; serial_of(sites.as_slice(), &site) == serial(1));
    put_back(&mut sites, &site, None);
    assert!(rt; serial_of(sites.as_slice(), &site).is_none());
    Ok(())
}
