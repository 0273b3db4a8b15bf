//! Does one thing to a pool of objects again and again, so that a script can take the time.
//!
//! Its words: what is done, which is `frames`, `sets`, `incs`, `creates`, `applies`, `pages` or `tellings`; how many maps
//! the pool has beside its root; how many cells each of them has; how many counters there are; and how often it is done.
//! A frame has one operation: one key after another of the first map is set, the first counter gets one more, or a new
//! counter is made, which a full pool refuses. With `frames` they are made and dropped, with `applies` the sets are
//! applied without being judged, and else each frame is admitted where it breaks no rule. A page has the first 4 objects;
//! a telling puts all objects of the pool in the place of what it holds. It prints how often it was done, how many
//! frames were refused, and how many objects there are in the end.
#![tactic(auto)]

use anyhow::{Context, Result, anyhow};
use rl_ids::{
    List, MapValue, Moment, ObjectId, OpSerial, Place, SiteCode, Text, read_object_id, read_site,
};
use rl_pool::Pool;
use rl_types::{MapCell, ObjectBody, ObjectOp, ObjectState, Op};
use std::alloc::Global;
use std::env;
use std::rt::Env;

// What the values of maps are.
const VALUE: &str = "a value of 20 bytes.";

// So many objects a page has.
const PAGE_OBJECTS: usize = 4;

// What is done.
#[derive(Clone, Copy)]
enum Work {
    Frames,
    Sets,
    Incs,
    Creates,
    Applies,
    Pages,
    Tellings,
}

// What the words say.
#[derive(Clone, Copy)]
struct Plan {
    work: Work,
    maps: u64,
    cells: u64,
    counters: u64,
    count: u64,
}

// How often it was done, and how many frames were refused.
#[derive(Clone, Copy)]
struct Tally {
    done: u64,
    refused: u64,
}

// The id of the map with this number.
fn map_id(alloc: Global, number: u64) -> Result<ObjectId> {
    let text = format!(in alloc; "map:o{number}@0")?;
    read_object_id(text.as_str()).context("no map's id")
}

// The id of the counter with this number.
fn counter_id(alloc: Global, number: u64) -> Result<ObjectId> {
    let text = format!(in alloc; "counter:o{number}@0")?;
    read_object_id(text.as_str()).context("no counter's id")
}

fn key_of(alloc: Global, number: u64) -> Result<Text> {
    let mut key = Text::from_str(alloc, "k")?;
    key.push_decimal(number)?;
    Ok(key)
}

fn serial_at(site: &SiteCode, place: u64) -> OpSerial {
    OpSerial {
        place: Place(place),
        index: 0,
        site: *site,
    }
}

fn cell_of(alloc: Global, site: &SiteCode, number: u64) -> Result<(Text, MapCell)> {
    let key = key_of(alloc, number)?;
    let value = MapValue::Text(Text::from_str(alloc, VALUE)?);
    let cell = MapCell {
        serial: serial_at(site, 1),
        value: Some(value),
    };
    Ok((key, cell))
}

fn cells_of(alloc: Global, site: &SiteCode, count: u64) -> Result<List<(Text, MapCell)>> {
    let mut cells = List::new(alloc);
    for number in 0..count {
        cells.push(cell_of(alloc, site, number)?)?;
    }
    Ok(cells)
}

fn state_of(alloc: Global, id: ObjectId, body: ObjectBody) -> ObjectState {
    ObjectState {
        id,
        sites: List::new(alloc),
        tombstone: false,
        created: true,
        body,
    }
}

// A pool with so many maps of so many cells, and so many counters.
fn pool_of(alloc: Global, site: &SiteCode, plan: Plan) -> Result<Pool> {
    let mut states = List::new(alloc);
    for number in 0..plan.maps {
        let cells = cells_of(alloc, site, plan.cells)?;
        let id = map_id(alloc, number)?;
        states.push(state_of(alloc, id, ObjectBody::Map(cells)))?;
    }
    for number in 0..plan.counters {
        let id = counter_id(alloc, number)?;
        states.push(state_of(alloc, id, ObjectBody::Counter(0)))?;
    }
    let mut pool = Pool::new(alloc)?;
    pool.replace(alloc, &states, Moment(0))?;
    Ok(pool)
}

fn set_of(alloc: Global, plan: Plan, number: u64) -> Result<Op> {
    Ok(Op::MapSet {
        id: map_id(alloc, 0)?,
        key: key_of(alloc, number % plan.cells.max(1))?,
        value: MapValue::Text(Text::from_str(alloc, VALUE)?),
    })
}

fn op_of(alloc: Global, plan: Plan, number: u64) -> Result<Op> {
    match plan.work {
        Work::Incs => Ok(Op::CounterInc {
            id: counter_id(alloc, 0)?,
            amount: 1,
        }),
        Work::Creates => Ok(Op::CounterCreate {
            id: counter_id(alloc, plan.counters.saturating_add(number))?,
            count: 1,
        }),
        _ => set_of(alloc, plan, number),
    }
}

// The frame with this number: the places rise from 2 on.
fn frame_of(alloc: Global, site: &SiteCode, plan: Plan, number: u64) -> Result<List<ObjectOp>> {
    let mut ops = List::new(alloc);
    let op = op_of(alloc, plan, number)?;
    let serial = serial_at(site, number.saturating_add(2));
    ops.push(ObjectOp {
        op,
        serial: Some(serial),
    })?;
    Ok(ops)
}

// Whether a frame was taken.
fn take(alloc: Global, pool: &mut Pool, plan: Plan, ops: List<ObjectOp>) -> Result<bool> {
    match plan.work {
        Work::Frames => Ok(true),
        Work::Applies => {
            pool.apply(alloc, &ops, Moment(0))?;
            Ok(true)
        }
        _ => Ok(pool.admit(alloc, &ops, Moment(0))?.is_none()),
    }
}

// Shows the first page again and again.
fn show(alloc: Global, pool: &Pool, count: u64) -> Result<()> {
    for _turn in 0..count {
        pool.after(alloc, None, PAGE_OBJECTS)?;
    }
    Ok(())
}

// Tells the pool what it shows again and again.
fn tell(alloc: Global, pool: &mut Pool, count: u64) -> Result<()> {
    let (states, _) = pool.after(alloc, None, usize::MAX)?;
    for _turn in 0..count {
        pool.replace(alloc, &states, Moment(0))?;
    }
    Ok(())
}

// Does it as often as planned.
fn do_all(alloc: Global, pool: &mut Pool, site: &SiteCode, plan: Plan) -> Result<Tally> {
    match plan.work {
        Work::Pages => show(alloc, pool, plan.count)?,
        Work::Tellings => tell(alloc, pool, plan.count)?,
        _ => return give(alloc, pool, site, plan),
    }
    Ok(Tally {
        done: plan.count,
        refused: 0,
    })
}

// Gives the pool one frame after another.
fn give(alloc: Global, pool: &mut Pool, site: &SiteCode, plan: Plan) -> Result<Tally> {
    let mut refused = 0u64;
    for number in 0..plan.count {
        let ops = frame_of(alloc, site, plan, number)?;
        if !take(alloc, pool, plan, ops)? {
            refused = refused.saturating_add(1);
        }
    }
    Ok(Tally {
        done: plan.count,
        refused,
    })
}

fn work_of(word: &str) -> Result<Work> {
    match word {
        "frames" => Ok(Work::Frames),
        "sets" => Ok(Work::Sets),
        "incs" => Ok(Work::Incs),
        "creates" => Ok(Work::Creates),
        "applies" => Ok(Work::Applies),
        "pages" => Ok(Work::Pages),
        "tellings" => Ok(Work::Tellings),
        _ => Err(anyhow!("no kind of work: {word}")),
    }
}

fn word(words: &[String], at: usize) -> Result<&str> {
    match words.get(at) {
        Some(word) => Ok(word.as_str()),
        None => Err(anyhow!("too few words")),
    }
}

fn plan_of(words: &[String]) -> Result<Plan> {
    Ok(Plan {
        work: work_of(word(words, 0)?)?,
        maps: word(words, 1)?.parse::<u64>()?,
        cells: word(words, 2)?.parse::<u64>()?,
        counters: word(words, 3)?.parse::<u64>()?,
        count: word(words, 4)?.parse::<u64>()?,
    })
}

fn words<R: Env + AllocGlobal>(rt: &R) -> Result<Vec<String>> {
    Ok(env::args(rt)?.skip(1).collect(rt.alloc())?)
}

fn main(rt: HostRuntime) -> Result<()> {
    let words = words(&rt)?;
    let plan = plan_of(words.as_slice())?;
    let site = read_site("main").context("no site")?;
    let mut pool = pool_of(rt.alloc(), &site, plan)?;
    let tally = do_all(rt.alloc(), &mut pool, &site, plan)?;
    let Tally { done, refused } = tally;
    println!(rt; "{done} done, {refused} refused, {} objects", pool.count())?;
    Ok(())
}
