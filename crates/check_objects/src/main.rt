//! Reads the table of events on pools, channels, presence maps, object syncs and page sequences, `objects.txt`, and prints
//! a line for each event that is answered otherwise than the table says, and how many events there are.
//!
//! A line of the table is an event, ` => ` and what it is answered; where the event changes something, what then stands
//! is behind ` | `, or is all of the answer. A line that begins with `#` tells what follows, and begins it with a pool and
//! another one, a channel, a presence map, an object sync and page sequences that are new. Objects and members are shown as the
//! events tell them, so that a line can be read again; where there are many, only how many they are and what they weigh.
#![tactic(auto)]

mod channels;
mod items;
mod members;
mod ops;
mod pools;
mod sequences;
mod shown;
mod states;
mod views;
mod words;
mod world;

use anyhow::{Context, Result};
use std::fs;
use std::rt::Files;
use world::World;

// Whether an event is answered as its line says.
fn is_as_expected<R: Print + AllocGlobal>(rt: &R, world: &mut World, line: &str) -> Result<bool> {
    let (asked, expected) = line.split_once(" => ").context("a line without answer")?;
    let found = world.answer(rt.alloc(), asked)?;
    if found.as_str() == expected {
        return Ok(true);
    }
    println!(rt; "{asked}: {found}")?;
    Ok(false)
}

fn main(rt: HostRuntime) -> Result<()> {
    let table = fs::read_to_string(&rt, "objects.txt").context("reading the table")?;
    let mut world = World::new(rt.alloc())?;
    let mut cases = 0u32;
    let mut wrong = 0u32;
    for line in table.as_str().lines() {
        if line.is_empty() || line.starts_with('#') {
            world = World::new(rt.alloc())?;
            continue;
        }
        cases = cases.saturating_add(1);
        if !is_as_expected(&rt, &mut world, line)? {
            wrong = wrong.saturating_add(1);
        }
    }
    println!(rt; "{cases} events, {wrong} wrong")?;
    Ok(())
}
