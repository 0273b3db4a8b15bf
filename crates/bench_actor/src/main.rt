//! Lets an actor work again and again, so that a script can take the time.
//!
//! Its words: the work; how many sessions the actor has; how often it is done. The work is `made-entries` or
//! `made-messages` (what the next two take is made, and nothing done with it), `entries` (the sessions put out an entry
//! each, in turn), `messages` (a message is taken up for each session in turn, put and acknowledged), or `through` (a
//! client publishes a message, its session puts it by the book and the channel, and the client gets the acknowledgement
//! and the entry; it has one session). It prints how much was done; after `through`, how many acknowledgements and
//! entries the client got.
#![tactic(auto)]

mod calls;
mod service;
mod sessions;
mod texts;

use anyhow::{Result, anyhow};
use calls::new_actor;
use rl_actor::Actor;
use rl_ids::Place;
use service::Link;
use sessions::{attach_all, make_entry, make_message, put, put_out};
use std::alloc::Global;
use std::env;
use std::rt::Env;

#[derive(Clone, Copy)]
enum Work {
    MadeEntries,
    MadeMessages,
    Entries,
    Messages,
}

// Does it once: the sessions in turn.
fn do_one(
    alloc: Global,
    actor: &mut Actor,
    work: Work,
    sessions: u64,
    number: u64,
) -> Result<bool> {
    let size = sessions.max(1);
    let channel = number % size;
    let place = Place((number / size).saturating_add(1));
    match work {
        Work::MadeEntries => make_entry(alloc, channel, place),
        Work::MadeMessages => make_message(alloc, channel, number),
        Work::Entries => put_out(alloc, actor, channel, place),
        Work::Messages => put(alloc, actor, channel, number),
    }
}

// The actor gets its sessions, and does it as often as is asked.
fn do_with(alloc: Global, actor: &mut Actor, work: Work, sessions: u64, count: u64) -> Result<u64> {
    attach_all(alloc, actor, sessions)?;
    let mut done = 0u64;
    for number in 0..count {
        if do_one(alloc, actor, work, sessions, number)? {
            done = done.saturating_add(1);
        }
    }
    Ok(done)
}

fn do_all(alloc: Global, work: Work, sessions: u64, count: u64) -> Result<u64> {
    let mut actor = new_actor(alloc)?;
    do_with(alloc, &mut actor, work, sessions, count)
}

fn publish_all(alloc: Global, link: &mut Link, count: u64) -> Result<(usize, usize)> {
    link.connect(alloc)?;
    for _turn in 0..count {
        link.publish(alloc)?;
    }
    link.shown(alloc)
}

fn go_through(alloc: Global, count: u64) -> Result<(usize, usize)> {
    let mut link = Link::new(alloc)?;
    publish_all(alloc, &mut link, count)
}

fn work_of(word: &str) -> Result<Work> {
    match word {
        "made-entries" => Ok(Work::MadeEntries),
        "made-messages" => Ok(Work::MadeMessages),
        "entries" => Ok(Work::Entries),
        "messages" => Ok(Work::Messages),
        _ => Err(anyhow!("no kind of work: {word}")),
    }
}

fn word(words: &[String], at: usize) -> Result<&str> {
    match words.get(at) {
        Some(word) => Ok(word.as_str()),
        None => Err(anyhow!("too few words")),
    }
}

fn words<R: Env + AllocGlobal>(rt: &R) -> Result<Vec<String>> {
    Ok(env::args(rt)?.skip(1).collect(rt.alloc())?)
}

fn main(rt: HostRuntime) -> Result<()> {
    let alloc = rt.alloc();
    let words = words(&rt)?;
    let words = words.as_slice();
    let sessions = word(words, 1)?.parse::<u64>()?;
    let count = word(words, 2)?.parse::<u64>()?;
    if word(words, 0)? == "through" {
        let (answers, got) = go_through(alloc, count)?;
        println!(rt; "{count} done, {answers} acknowledged, {got} got")?;
        return Ok(());
    }
    let done = do_all(alloc, work_of(word(words, 0)?)?, sessions, count)?;
    println!(rt; "{done} done")?;
    Ok(())
}
