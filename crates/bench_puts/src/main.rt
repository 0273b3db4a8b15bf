//! Does one thing to a channel again and again, so that a script can take the time and the memory.
//!
//! Its words: what is done, which is `bodies`, `puts`, `joins`, `ticks` or `reads`; how many channels there are, one
//! after another; how many puts each channel takes before it; how often it is done to each channel; how many
//! characters the data of a message has; how many its id has, at least ten. It prints how much was done: bodies made,
//! puts that were taken, joins that resumed, ticks, or entries that were read; and how many entries the last channel
//! retains.
#![tactic(auto)]

use anyhow::{Context, Result, anyhow};
use rl_channel::Channel;
use rl_events::{Outcome, ReadReply, Verdict};
use rl_ids::{ChannelSerial, ConnNo, Copied, Epoch, List, Moment, Place, Text, read_site};
use rl_types::{Body, Given, Item};
use std::alloc::Global;
use std::env;
use std::rt::Env;

// So many connections put, one after another.
const CONNECTIONS: u64 = 100;

// What is added to the number of a put in its id, so that all ids are of one length.
const FIRST_ID: u64 = 1_000_000_000;

// Joins and reads begin at one after another of so many places.
const PLACES: u64 = 4000;

// The most entries of a read.
const PAGE: usize = 16;

// What is done.
#[derive(Clone, Copy)]
enum Work {
    Bodies,
    Puts,
    Joins,
    Ticks,
    Reads,
}

// What the messages are made of: what their ids begin with, and their data.
#[derive(Drop)]
struct Sample {
    mark: Text,
    data: Text,
}

// What the words say.
#[derive(Drop)]
struct Plan {
    work: Work,
    channels: u32,
    before: u64,
    count: u64,
    sample: Sample,
}

// How much was done, and how many entries the last channel retains.
#[derive(Clone, Copy)]
struct Tally {
    done: u64,
    retained: usize,
}

fn body_of(alloc: Global, sample: &Sample, number: u64) -> Result<Body> {
    let mut id = sample.mark.copy(alloc)?;
    id.push_decimal(number.saturating_add(FIRST_ID))?;
    let mut items = List::new(alloc);
    items.push(Item {
        id: Some(id),
        name: None,
        payload: Some(sample.data.copy(alloc)?),
        encoding: None,
        client: None,
    })?;
    Ok(Body::Messages(items))
}

// Makes so many bodies, and drops them.
fn make_bodies(alloc: Global, sample: &Sample, count: u64) -> Result<u64> {
    let mut made = 0u64;
    for number in 0..count {
        if let Body::Messages(items) = body_of(alloc, sample, number)? {
            made = made.saturating_add(items.len() as u64);
        }
    }
    Ok(made)
}

// The put with this number, at a moment of the same number; whether it was taken. The serials of each connection
// rise.
fn put_one(alloc: Global, channel: &mut Channel, sample: &Sample, number: u64) -> Result<bool> {
    let body = body_of(alloc, sample, number)?;
    let conn = ConnNo((number % CONNECTIONS) as u32 + 1);
    let serial = number / CONNECTIONS;
    let verdict = channel.put(alloc, conn, serial, body, Moment(number))?;
    Ok(matches!(verdict, Verdict::Done(Outcome::Taken(_))))
}

// So many puts, the first of which has this number; how many were taken.
fn put_all(
    alloc: Global,
    channel: &mut Channel,
    sample: &Sample,
    first: u64,
    count: u64,
) -> Result<u64> {
    let mut taken = 0u64;
    for number in first..first.saturating_add(count) {
        if put_one(alloc, channel, sample, number)? {
            taken = taken.saturating_add(1);
        }
    }
    Ok(taken)
}

// So many joins; how many resumed.
fn join_all(channel: &Channel, count: u64) -> u64 {
    let head = channel.log().head().0;
    let mut resumed = 0u64;
    for number in 0..count {
        let serial = ChannelSerial {
            epoch: Epoch(1),
            place: Place(head.saturating_sub(number % PLACES)),
        };
        if channel.join(&Some(Given::Ours(serial))).resumed {
            resumed = resumed.saturating_add(1);
        }
    }
    resumed
}

// So many ticks, at moments in the second after this one.
fn tick_all(channel: &mut Channel, now: u64, count: u64) -> u64 {
    for number in 0..count {
        channel.tick(Moment(now.saturating_add(number % 1000)));
    }
    count
}

// So many reads; how many entries they gave.
fn read_all(alloc: Global, channel: &Channel, count: u64) -> Result<u64> {
    let head = channel.log().head().0;
    let mut entries = 0u64;
    for number in 0..count {
        let from = Place(head.saturating_sub(number % PLACES + PAGE as u64));
        if let ReadReply::Run(run) = channel.read(alloc, from, PAGE)? {
            entries = entries.saturating_add(run.len() as u64);
        }
    }
    Ok(entries)
}

// Does what is planned to one channel.
fn work_on(alloc: Global, channel: &mut Channel, plan: &Plan) -> Result<u64> {
    match plan.work {
        Work::Bodies => make_bodies(alloc, &plan.sample, plan.count),
        Work::Puts => put_all(alloc, channel, &plan.sample, plan.before, plan.count),
        Work::Joins => Ok(join_all(channel, plan.count)),
        Work::Ticks => Ok(tick_all(channel, plan.before, plan.count)),
        Work::Reads => read_all(alloc, channel, plan.count),
    }
}

// A new channel with what is planned.
fn one_channel(alloc: Global, plan: &Plan) -> Result<Tally> {
    let site = read_site("main").context("no site")?;
    let mut channel = Channel::new(alloc, Epoch(1), site)?;
    put_all(alloc, &mut channel, &plan.sample, 0, plan.before)?;
    let done = work_on(alloc, &mut channel, plan)?;
    Ok(Tally {
        done,
        retained: channel.log().len(),
    })
}

// All channels with what is planned.
fn all_channels(alloc: Global, plan: &Plan) -> Result<Tally> {
    let mut tally = Tally {
        done: 0,
        retained: 0,
    };
    for _ in 0..plan.channels {
        let one = one_channel(alloc, plan)?;
        tally = Tally {
            done: tally.done.saturating_add(one.done),
            retained: one.retained,
        };
    }
    Ok(tally)
}

fn work_of(word: &str) -> Result<Work> {
    match word {
        "bodies" => Ok(Work::Bodies),
        "puts" => Ok(Work::Puts),
        "joins" => Ok(Work::Joins),
        "ticks" => Ok(Work::Ticks),
        "reads" => Ok(Work::Reads),
        _ => Err(anyhow!("no kind of work: {word}")),
    }
}

fn sample_of(alloc: Global, data: usize, id: usize) -> Result<Sample> {
    Ok(Sample {
        mark: Text::from_string("m".repeat(alloc, id.saturating_sub(10))?),
        data: Text::from_string("x".repeat(alloc, data)?),
    })
}

fn word(words: &[String], at: usize) -> Result<&str> {
    match words.get(at) {
        Some(word) => Ok(word.as_str()),
        None => Err(anyhow!("too few words")),
    }
}

fn plan_of(alloc: Global, words: &[String]) -> Result<Plan> {
    let work = work_of(word(words, 0)?)?;
    let channels = word(words, 1)?.parse::<u32>()?;
    let before = word(words, 2)?.parse::<u64>()?;
    let count = word(words, 3)?.parse::<u64>()?;
    let data = word(words, 4)?.parse::<usize>()?;
    let id = word(words, 5)?.parse::<usize>()?;
    Ok(Plan {
        work,
        channels,
        before,
        count,
        sample: sample_of(alloc, data, id)?,
    })
}

fn words<R: Env + AllocGlobal>(rt: &R) -> Result<Vec<String>> {
    Ok(env::args(rt)?.skip(1).collect(rt.alloc())?)
}

fn main(rt: HostRuntime) -> Result<()> {
    let words = words(&rt)?;
    let plan = plan_of(rt.alloc(), words.as_slice())?;
    let tally = all_channels(rt.alloc(), &plan)?;
    let Tally { done, retained } = tally;
    println!(rt; "{done} done, {retained} retained")?;
    Ok(())
}
