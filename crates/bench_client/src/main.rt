//! Lets a client hear frames again and again, so that a script can take the time.
//!
//! Its words: what is heard, which is `made` (entries are made, and nothing is heard), `entries` (entries of its channels
//! in turn) or `acks` (a frame is published and the oldest one that waits is acknowledged); how many channels are attached,
//! or how many frames wait; how often it is done. It prints how much was done, and how many channels there are and how many
//! frames wait then.
#![tactic(auto)]

use anyhow::{Result, anyhow};
use rl_client::Client;
use rl_ids::{ChannelSerial, Epoch, List, Moment, Place, Text};
use rl_runs::{Command, Output};
use rl_types::{Frame, Head, Item};
use std::alloc::Global;
use std::env;
use std::rt::Env;

// All times are the same: no frame waits for another moment.
const NOW: Moment = Moment(1);

// What is added to the number of a channel in its name, so that all names are of one length.
const FIRST_CHANNEL: u64 = 1_000_000;

// What is heard.
#[derive(Clone, Copy)]
enum Work {
    Made,
    Entries,
    Acks,
}

// What the words say: how many channels or frames there are before, and how often it is done.
#[derive(Clone, Copy)]
struct Plan {
    work: Work,
    size: u64,
    count: u64,
}

fn name_of(alloc: Global, channel: u64) -> Result<Text> {
    let mut name = Text::from_str(alloc, "channel-")?;
    name.push_decimal(channel.saturating_add(FIRST_CHANNEL))?;
    Ok(name)
}

fn one_item(alloc: Global) -> Result<List<Item>> {
    let mut items = List::new(alloc);
    items.push(Item {
        id: None,
        name: None,
        payload: Some(Text::from_str(
            alloc,
            "a text of about seventy bytes, as a message of a chat may well have it",
        )?),
        encoding: None,
        client: None,
    })?;
    Ok(items)
}

fn serial_at(place: u64) -> ChannelSerial {
    ChannelSerial {
        epoch: Epoch(1),
        place: Place(place),
    }
}

// The entry of a channel at this place.
fn entry_of(alloc: Global, channel: u64, place: u64) -> Result<Frame> {
    Ok(Frame::Message {
        head: Head {
            channel: name_of(alloc, channel)?,
            msg: None,
            serial: Some(serial_at(place)),
            conn: None,
            id: None,
            stamp: None,
        },
        items: one_item(alloc)?,
    })
}

// What a client does with a command or a frame; a refusal ends the program.
fn act(alloc: Global, client: &mut Client, command: &Command) -> Result<Output> {
    match client.act(alloc, command, NOW) {
        Ok(output) => Ok(output),
        Err(_) => Err(anyhow!("a command is refused")),
    }
}

fn hear(alloc: Global, client: &mut Client, frame: Frame) -> Result<Output> {
    Ok(client.hear(alloc, Some(frame), NOW)?)
}

fn connect(alloc: Global, client: &mut Client) -> Result<()> {
    act(alloc, client, &Command::Connect)?;
    hear(
        alloc,
        client,
        Frame::Connected {
            conn: Text::from_str(alloc, "c1")?,
            key: Text::from_str(alloc, "c1!1-1")?,
            ttl: 120_000,
            idle: 15_000,
            size: 65_536,
            code: None,
        },
    )?;
    Ok(())
}

// The client attaches to a channel, whose last entry is at place 0.
fn attach(alloc: Global, client: &mut Client, channel: u64) -> Result<()> {
    act(alloc, client, &Command::Attach(name_of(alloc, channel)?))?;
    hear(
        alloc,
        client,
        Frame::Attached {
            channel: name_of(alloc, channel)?,
            serial: serial_at(0),
            flags: 0,
            code: None,
        },
    )?;
    Ok(())
}

fn publish(alloc: Global, client: &mut Client) -> Result<()> {
    let command = Command::Publish(name_of(alloc, 0)?, one_item(alloc)?);
    act(alloc, client, &command)?;
    Ok(())
}

// A connected client with what is planned.
fn client_for(alloc: Global, plan: Plan) -> Result<Client> {
    let mut client = Client::new(alloc, Text::from_str(alloc, "A")?);
    connect(alloc, &mut client)?;
    match plan.work {
        Work::Made => {}
        Work::Entries => {
            for channel in 0..plan.size {
                attach(alloc, &mut client, channel)?;
            }
        }
        Work::Acks => {
            for _ in 0..plan.size {
                publish(alloc, &mut client)?;
            }
        }
    }
    Ok(client)
}

// One frame is published, and the oldest that waits acknowledged.
fn acknowledge(alloc: Global, client: &mut Client, serial: u64) -> Result<()> {
    hear(alloc, client, Frame::Ack { serial, count: 1 })?;
    publish(alloc, client)
}

// Does it once: the channels get their entries in turn.
fn do_one(alloc: Global, client: &mut Client, plan: Plan, number: u64) -> Result<bool> {
    let size = plan.size.max(1);
    match plan.work {
        Work::Made => Ok(matches!(
            entry_of(alloc, number % size, number / size)?,
            Frame::Message { .. }
        )),
        Work::Entries => {
            let entry = entry_of(alloc, number % size, (number / size).saturating_add(1))?;
            Ok(!hear(alloc, client, entry)?.drop_link)
        }
        Work::Acks => {
            acknowledge(alloc, client, number)?;
            Ok(true)
        }
    }
}

// Does it as often as is planned.
fn do_all(alloc: Global, client: &mut Client, plan: Plan) -> Result<u64> {
    let mut done = 0u64;
    for number in 0..plan.count {
        if do_one(alloc, client, plan, number)? {
            done = done.saturating_add(1);
        }
    }
    Ok(done)
}

fn work_of(word: &str) -> Result<Work> {
    match word {
        "made" => Ok(Work::Made),
        "entries" => Ok(Work::Entries),
        "acks" => Ok(Work::Acks),
        _ => Err(anyhow!("no kind of work: {word}")),
    }
}

fn word(words: &[String], at: usize) -> Result<&str> {
    match words.get(at) {
        Some(word) => Ok(word.as_str()),
        None => Err(anyhow!("too few words")),
    }
}

fn plan_of(words: &[String]) -> Result<Plan> {
    Ok(Plan {
        work: work_of(word(words, 0)?)?,
        size: word(words, 1)?.parse::<u64>()?,
        count: word(words, 2)?.parse::<u64>()?,
    })
}

fn words<R: Env + AllocGlobal>(rt: &R) -> Result<Vec<String>> {
    Ok(env::args(rt)?.skip(1).collect(rt.alloc())?)
}

fn main(rt: HostRuntime) -> Result<()> {
    let alloc = rt.alloc();
    let words = words(&rt)?;
    let plan = plan_of(words.as_slice())?;
    let mut client = client_for(alloc, plan)?;
    let done = do_all(alloc, &mut client, plan)?;
    let shown = client.findings(alloc)?;
    println!(rt;
        "{done} done, {} channels, {} pending",
        shown.views.len(),
        shown.pending
    )?;
    Ok(())
}
