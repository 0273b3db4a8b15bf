//! Reads the table of actors' inputs, `actors.txt`, and prints a line for each input after which the frames put out, the
//! call wanted next or the end are others than the table says, and how many inputs there are.
#![tactic(auto)]

mod calls;
mod frames;
mod replies;
mod texts;
mod words;

use anyhow::{Context, Result, anyhow};
use calls::{absorb, begun, end_link, paging, put_out, reading, rest_at, session, take_up, wanted};
use frames::came;
use replies::reply_of;
use rl_actor::Actor;
use rl_events::End;
use rl_ids::{Moment, Text};
use rl_runs::Hello;
use rl_types::Frame;
use std::alloc::Global;
use std::fs;
use std::rt::Files;
use texts::{call_text, end_text, frame_text};
use words::{moment, number, optional, split_two};

// The most frames that an actor of the table puts out at one input.
const MOST_FRAMES: u32 = 1_000;

// `CLIENT KEY WORD MOMENT`.
fn begin(alloc: Global, rest: &str) -> Result<Actor> {
    let (client, rest) = split_two(rest)?;
    let (key, rest) = split_two(rest)?;
    let (word, at) = split_two(rest)?;
    let hello = Hello {
        client: optional(alloc, client)?,
        resume: optional(alloc, key)?,
        word: number(word)?,
    };
    begun(alloc, hello, moment(at)?)
}

// `MOMENT REPLY`, to the call that is wanted.
fn replied(alloc: Global, actor: &mut Actor, rest: &str) -> Result<Moment> {
    let (at, words) = split_two(rest)?;
    let now = moment(at)?;
    let call = wanted(alloc, actor, now)?;
    absorb(alloc, actor, &call, reply_of(alloc, words)?, now)?;
    Ok(now)
}

// `MOMENT CHANNEL REPLY`, to the page call or the read of the channel's session.
fn visited(alloc: Global, actor: &mut Actor, rest: &str, pages: bool) -> Result<Moment> {
    let (at, rest) = split_two(rest)?;
    let (channel, words) = split_two(rest)?;
    let now = moment(at)?;
    let channel = Text::from_str(alloc, channel)?;
    let call = if pages {
        paging(alloc, actor, &channel)?
    } else {
        reading(actor, &channel)
    };
    absorb(alloc, actor, &call, reply_of(alloc, words)?, now)?;
    Ok(now)
}

fn end_of(word: &str) -> Result<End> {
    match word {
        "linkended" => Ok(End::LinkEnded),
        "linkfault" => Ok(End::LinkFault),
        "stopped" => Ok(End::Stopped),
        "nomemory" => Ok(End::NoMemory),
        _ => Err(anyhow!("no end: {word}")),
    }
}

// What is asked of an actor at an input; the moment of the call that is shown then.
fn input(alloc: Global, actor: &mut Actor, word: &str, rest: &str) -> Result<Moment> {
    match word {
        "take" => {
            let (what, now) = came(alloc, rest)?;
            take_up(alloc, actor, what, now)?;
            Ok(now)
        }
        "reply" => replied(alloc, actor, rest),
        "page" => visited(alloc, actor, rest, true),
        "read" => visited(alloc, actor, rest, false),
        "rest" => {
            let now = moment(rest)?;
            rest_at(actor, now)?;
            Ok(now)
        }
        "over" => {
            let (at, why) = split_two(rest)?;
            end_link(actor, end_of(why)?);
            moment(at)
        }
        _ => Err(anyhow!("no input: {word}")),
    }
}

fn push_frame(alloc: Global, text: &mut String, frame: &Frame) -> Result<()> {
    text.push_str(frame_text(alloc, frame)?.as_str())?;
    text.push_str("; ")?;
    Ok(())
}

// The frame ends here.
fn push_taken(alloc: Global, text: &mut String, frame: Frame) -> Result<()> {
    push_frame(alloc, text, &frame)
}

// Adds the first frame that waits, which is taken. False where none waits.
fn push_next(alloc: Global, text: &mut String, actor: &mut Actor) -> Result<bool> {
    match put_out(actor) {
        Some(frame) => {
            push_taken(alloc, text, frame)?;
            Ok(true)
        }
        None => Ok(false),
    }
}

// The frames that wait, which are taken.
fn frames_out(alloc: Global, actor: &mut Actor) -> Result<String> {
    let mut text = String::new(alloc);
    for _count in 0..MOST_FRAMES {
        if !push_next(alloc, &mut text, actor)? {
            break;
        }
    }
    Ok(text)
}

fn push_end(alloc: Global, text: &mut String, actor: &Actor) -> Result<()> {
    if let Some(end) = actor.ended() {
        text.push_str(" ended ")?;
        text.push_str(end_text(alloc, end)?.as_str())?;
    }
    Ok(())
}

// The frames that wait, which are taken, the call that is wanted at this moment, and the end.
fn shown(alloc: Global, actor: &mut Actor, now: Moment) -> Result<String> {
    let mut text = frames_out(alloc, actor)?;
    let call = wanted(alloc, actor, now)?;
    text.push_str(call_text(alloc, &call)?.as_str())?;
    push_end(alloc, &mut text, actor)?;
    Ok(text)
}

// The page call and the read of a channel's session, and the names of the first two sessions.
fn calls_of(alloc: Global, actor: &Actor, channel: &str) -> Result<String> {
    let channel = Text::from_str(alloc, channel)?;
    let page = call_text(alloc, &paging(alloc, actor, &channel)?)?;
    let read = call_text(alloc, &reading(actor, &channel))?;
    let (first, second) = (session(actor, 0), session(actor, 1));
    Ok(format!(in alloc; "{page}, {read}, {first} {second}")?)
}

// What a line's input is answered.
fn answer(alloc: Global, actor: &mut Actor, asked: &str) -> Result<String> {
    let (word, rest) = asked.split_once(' ').unwrap_or((asked, ""));
    match word {
        "hello" => {
            *actor = begin(alloc, rest)?;
            shown(alloc, actor, Moment(0))
        }
        "calls" => calls_of(alloc, actor, rest),
        _ => {
            let now = input(alloc, actor, word, rest)?;
            shown(alloc, actor, now)
        }
    }
}

// Whether an input is answered as its line says.
fn is_as_expected<R: Print + AllocGlobal>(rt: &R, actor: &mut Actor, line: &str) -> Result<bool> {
    let (asked, expected) = line.split_once(" => ").context("a line without answer")?;
    let found = answer(rt.alloc(), actor, asked)?;
    if found.as_str() == expected {
        return Ok(true);
    }
    println!(rt; "{asked}: {found}")?;
    Ok(false)
}

// How many inputs there are, and how many are answered otherwise than their lines say.
#[derive(Clone, Copy)]
struct Counts {
    cases: u32,
    wrong: u32,
}

// Neither empty nor a remark.
fn is_input(line: &str) -> bool {
    !line.is_empty() && !line.starts_with('#')
}

// The counts after one input more.
fn counted<R: Print + AllocGlobal>(
    rt: &R,
    actor: &mut Actor,
    line: &str,
    counts: Counts,
) -> Result<Counts> {
    let wrong = if is_as_expected(rt, actor, line)? {
        0
    } else {
        1
    };
    Ok(Counts {
        cases: counts.cases.saturating_add(1),
        wrong: counts.wrong.saturating_add(wrong),
    })
}

fn counted_all<R: Print + AllocGlobal>(rt: &R, actor: &mut Actor, table: &str) -> Result<Counts> {
    let mut counts = Counts { cases: 0, wrong: 0 };
    for line in table.lines() {
        if is_input(line) {
            counts = counted(rt, actor, line, counts)?;
        }
    }
    Ok(counts)
}

fn checked<R: Print + AllocGlobal>(rt: &R, table: &str) -> Result<Counts> {
    let mut actor = begin(rt.alloc(), "- - 0 0")?;
    counted_all(rt, &mut actor, table)
}

fn main(rt: HostRuntime) -> Result<()> {
    let table = fs::read_to_string(&rt, "actors.txt").context("reading the table")?;
    let Counts { cases, wrong } = checked(&rt, table.as_str())?;
    println!(rt; "{cases} inputs, {wrong} wrong")?;
    Ok(())
}
