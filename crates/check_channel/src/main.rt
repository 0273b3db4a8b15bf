//! Reads the table of channels' events, `channels.txt`, and prints a line for each event that is answered
//! otherwise than the table says, and how many events there are.
#![tactic(auto)]

mod events;
mod replies;

use anyhow::{Context, Result, anyhow};
use events::event_of;
use replies::reply_text;
use rl_channel::Channel;
use rl_events::ChannelEvent;
use rl_ids::{Epoch, NoMemory, SiteCode, read_site};
use rl_turnlock::Machine;
use std::alloc::Global;
use std::fs;
use std::rt::Files;

// A channel of the epoch 1.
fn new_channel(alloc: Global) -> Result<Channel> {
    let site: SiteCode = read_site("s1").context("the site")?;
    Ok(Channel::new(alloc, Epoch(1), site)?)
}

fn take(alloc: Global, channel: &mut Channel, event: ChannelEvent) -> Result<String> {
    let taken: Result<_, NoMemory> = channel.take(alloc, event);
    match taken {
        Ok(reply) => reply_text(alloc, &reply),
        Err(NoMemory) => Err(anyhow!("out of memory")),
    }
}

// The answer to an event that a line asks for, or the last answer where it asks for it more than once: each time
// the serial is one more.
fn answer(alloc: Global, channel: &mut Channel, asked: &str) -> Result<String> {
    let (word, rest) = asked.split_once(' ').unwrap_or((asked, ""));
    if word != "times" {
        return take(alloc, channel, event_of(alloc, asked, 0)?);
    }
    let (count, event) = rest.split_once(' ').context("times without an event")?;
    let mut last = String::new(alloc);
    for done in 0..count.parse::<u32>()? {
        last = take(alloc, channel, event_of(alloc, event, u64::from(done))?)?;
    }
    Ok(last)
}

// Whether an event is answered as its line says.
fn is_as_expected<R: Print + AllocGlobal>(
    rt: &R,
    channel: &mut Channel,
    line: &str,
) -> Result<bool> {
    let (asked, expected) = line.split_once(" => ").context("a line without answer")?;
    let found = answer(rt.alloc(), channel, asked)?;
    if found.as_str() == expected {
        return Ok(true);
    }
    println!(rt; "{asked}: {found}")?;
    Ok(false)
}

fn main(rt: HostRuntime) -> Result<()> {
    let table = fs::read_to_string(&rt, "channels.txt").context("reading the table")?;
    let mut channel = new_channel(rt.alloc())?;
    let mut cases = 0u32;
    let mut wrong = 0u32;
    for line in table.as_str().lines() {
        if line.is_empty() || line.starts_with('#') {
            channel = new_channel(rt.alloc())?;
            continue;
        }
        cases = cases.saturating_add(1);
        if !is_as_expected(&rt, &mut channel, line)? {
            wrong = wrong.saturating_add(1);
        }
    }
    println!(rt; "{cases} events, {wrong} wrong")?;
    Ok(())
}
