//! Puts presence into a channel again and again, so that a script can take the time.
//!
//! Its words: what a put does, which is `bodies` (items are made, and nothing is put), `updates` (it updates one of the
//! members) or `enters` (it lets a client enter, or takes that client away again, in turn); how many members stand
//! before; how often it is done. It prints how many puts were taken, or bodies made, and how many members stand then.
#![tactic(auto)]

use anyhow::{Context, Result, anyhow};
use rl_channel::Channel;
use rl_events::{Outcome, Verdict};
use rl_ids::{ConnNo, Epoch, List, Moment, Text, read_site};
use rl_types::{Body, PresenceAction, PresenceItem};
use std::alloc::Global;
use std::env;
use std::rt::Env;

// The members are of so many connections.
const CONNECTIONS: u64 = 100;

// What is added to the number of a member in its client id, so that all ids are of one length.
const FIRST_CLIENT: u64 = 1_000_000;

// From each member that is put to the next; it has no factor in common with the numbers of members.
const STEP: u64 = 7919;

// More than may stand.
const ALL: usize = 3000;

// What a put does.
#[derive(Clone, Copy)]
enum Work {
    Bodies,
    Updates,
    Enters,
}

// What the words say.
#[derive(Clone, Copy)]
struct Plan {
    work: Work,
    members: u64,
    count: u64,
}

// How much was done, and how many members stand.
#[derive(Clone, Copy)]
struct Tally {
    done: u64,
    members: usize,
}

// What one put tells: of which client, and what.
#[derive(Clone, Copy)]
struct Told {
    client: u64,
    action: PresenceAction,
}

fn body_of(alloc: Global, told: Told) -> Result<Body> {
    let mut client = Text::from_str(alloc, "client-")?;
    client.push_decimal(told.client.saturating_add(FIRST_CLIENT))?;
    let mut items = List::new(alloc);
    items.push(PresenceItem {
        action: told.action,
        client,
        conn: Text::from_str(alloc, "")?,
        id: Text::from_str(alloc, "")?,
        stamp: Moment(0),
        payload: Some(Text::from_str(alloc, "here, and well today")?),
        encoding: None,
    })?;
    Ok(Body::Presence(items))
}

// The put with this number, at a moment of the same number; whether it was taken. The serials of each connection
// rise.
fn put_one(alloc: Global, channel: &mut Channel, number: u64, told: Told) -> Result<bool> {
    let body = body_of(alloc, told)?;
    let conn = ConnNo((told.client % CONNECTIONS) as u32 + 1);
    let verdict = channel.put(alloc, conn, number, body, Moment(number))?;
    Ok(matches!(verdict, Verdict::Done(Outcome::Taken(_))))
}

// Lets so many clients enter.
fn enter_all(alloc: Global, channel: &mut Channel, members: u64) -> Result<u64> {
    let mut taken = 0u64;
    for client in 0..members {
        let told = Told {
            client,
            action: PresenceAction::Enter,
        };
        if put_one(alloc, channel, client, told)? {
            taken = taken.saturating_add(1);
        }
    }
    Ok(taken)
}

// What the put with this number tells, where so many members stand.
fn told_at(work: Work, members: u64, number: u64) -> Told {
    match work {
        Work::Bodies | Work::Updates => Told {
            client: number.saturating_mul(STEP) % members.max(1),
            action: PresenceAction::Update,
        },
        Work::Enters => Told {
            client: members.saturating_add((number / 2).saturating_mul(STEP) % members.max(1)),
            action: if number % 2 == 0 {
                PresenceAction::Enter
            } else {
                PresenceAction::Leave
            },
        },
    }
}

// Does it once.
fn do_one(alloc: Global, channel: &mut Channel, plan: Plan, number: u64) -> Result<bool> {
    let told = told_at(plan.work, plan.members, number);
    match plan.work {
        Work::Bodies => Ok(matches!(body_of(alloc, told)?, Body::Presence(_))),
        _ => put_one(alloc, channel, plan.members.saturating_add(number), told),
    }
}

// Does it as often as is planned.
fn do_all(alloc: Global, channel: &mut Channel, plan: Plan) -> Result<u64> {
    let mut done = 0u64;
    for number in 0..plan.count {
        if do_one(alloc, channel, plan, number)? {
            done = done.saturating_add(1);
        }
    }
    Ok(done)
}

// A channel with what is planned.
fn run(alloc: Global, plan: Plan) -> Result<Tally> {
    let site = read_site("main").context("no site")?;
    let mut channel = Channel::new(alloc, Epoch(1), site)?;
    enter_all(alloc, &mut channel, plan.members)?;
    let done = do_all(alloc, &mut channel, plan)?;
    let page = channel.member_page(alloc, None, ALL)?;
    Ok(Tally {
        done,
        members: page.items.len(),
    })
}

fn work_of(word: &str) -> Result<Work> {
    match word {
        "bodies" => Ok(Work::Bodies),
        "updates" => Ok(Work::Updates),
        "enters" => Ok(Work::Enters),
        _ => Err(anyhow!("no kind of work: {word}")),
    }
}

fn word(words: &[String], at: usize) -> Result<&str> {
    match words.get(at) {
        Some(word) => Ok(word.as_str()),
        None => Err(anyhow!("too few words")),
    }
}

fn plan_of(words: &[String]) -> Result<Plan> {
    Ok(Plan {
        work: work_of(word(words, 0)?)?,
        members: word(words, 1)?.parse::<u64>()?,
        count: word(words, 2)?.parse::<u64>()?,
    })
}

fn words<R: Env + AllocGlobal>(rt: &R) -> Result<Vec<String>> {
    Ok(env::args(rt)?.skip(1).collect(rt.alloc())?)
}

fn main(rt: HostRuntime) -> Result<()> {
    let words = words(&rt)?;
    let plan = plan_of(words.as_slice())?;
    let Tally { done, members } = run(rt.alloc(), plan)?;
    println!(rt; "{done} done, {members} members")?;
    Ok(())
}
