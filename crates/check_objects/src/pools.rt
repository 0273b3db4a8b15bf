// Events of pools.
use crate::ops::{frame_of, object_id_or_none, plain_ops};
use crate::shown::states_text;
use crate::states::states_of;
use crate::words::{number, push_gap, split_two, truth};
use anyhow::{Result, anyhow};
use rl_ids::{Copied, List, Moment};
use rl_objmodel::Applied;
use rl_pool::Pool;
use std::alloc::Global;
use std::mem;

/// The objects of a pool as a text.
pub fn pool_text(alloc: Global, pool: &Pool) -> Result<String> {
    let (states, _) = pool.after(alloc, None, usize::MAX)?;
    states_text(alloc, &states)
}

fn applied_text(one: Applied) -> &'static str {
    match one {
        Applied::Applied => "applied",
        Applied::Skipped => "skipped",
        Applied::Range => "range",
    }
}

fn outcomes_text(alloc: Global, outcomes: &List<Applied>) -> Result<String> {
    let mut text = String::new(alloc);
    for one in outcomes.as_slice() {
        push_gap(&mut text)?;
        text.push_str(applied_text(*one))?;
    }
    if text.is_empty() {
        text.push_str("nothing")?;
    }
    Ok(text)
}

// `SITE PLACE INDEX MOMENT OP..`.
fn apply(alloc: Global, pool: &mut Pool, rest: &str) -> Result<String> {
    let frame = frame_of(alloc, rest)?;
    let outcomes = pool.apply(alloc, &frame.ops, frame.now)?;
    outcomes_text(alloc, &outcomes)
}

fn code_text(alloc: Global, code: Option<u32>) -> Result<String> {
    match code {
        Some(code) => Ok(format!(in alloc; "{code}")?),
        None => Ok(String::from_str(alloc, "none")?),
    }
}

// `SITE PLACE INDEX MOMENT OP..`.
fn admit(alloc: Global, pool: &mut Pool, rest: &str) -> Result<String> {
    let frame = frame_of(alloc, rest)?;
    let code = pool.admit(alloc, &frame.ops, frame.now)?;
    code_text(alloc, code)
}

// `MOMENT OP..`.
fn check(alloc: Global, pool: &Pool, rest: &str) -> Result<String> {
    let (now, words) = rest.split_once(' ').unwrap_or((rest, ""));
    let ops = plain_ops(alloc, words)?;
    let code = pool.check(alloc, &ops, Moment(number(now)?))?;
    code_text(alloc, code)
}

// `ID MAX`; `-` is no id.
fn after(alloc: Global, pool: &Pool, rest: &str) -> Result<String> {
    let (word, max) = split_two(rest)?;
    let id = object_id_or_none(word)?;
    let (states, last) = pool.after(alloc, id.as_ref(), max.parse::<usize>()?)?;
    let mut text = states_text(alloc, &states)?;
    push_gap(&mut text)?;
    text.push_str(if last { "last" } else { "more" })?;
    Ok(text)
}

// `MOMENT STATE..`.
fn replace(alloc: Global, pool: &mut Pool, rest: &str) -> Result<String> {
    let (now, words) = rest.split_once(' ').unwrap_or((rest, ""));
    let states = states_of(alloc, words)?;
    pool.replace(alloc, &states, Moment(number(now)?))?;
    Ok(String::new(alloc))
}

fn keep(alloc: Global, pool: &Pool, other: &mut Pool) -> Result<String> {
    *other = pool.copy(alloc)?;
    Ok(String::from_str(alloc, "kept")?)
}

fn collect(alloc: Global, pool: &mut Pool, rest: &str) -> Result<String> {
    pool.collect(Moment(number(rest)?));
    Ok(String::new(alloc))
}

/// What a pool answers to an event, beside another pool.
pub fn pool_event(
    alloc: Global,
    pool: &mut Pool,
    other: &mut Pool,
    word: &str,
    rest: &str,
) -> Result<String> {
    match word {
        "apply" => apply(alloc, pool, rest),
        "admit" => admit(alloc, pool, rest),
        "check" => check(alloc, pool, rest),
        "after" => after(alloc, pool, rest),
        "replace" => replace(alloc, pool, rest),
        "live" => states_text(alloc, &pool.live(alloc)?),
        "collect" => collect(alloc, pool, rest),
        "keep" => keep(alloc, pool, other),
        "swap" => {
            mem::swap(pool, other);
            Ok(String::new(alloc))
        }
        "same" => truth(alloc, pool.same(other)),
        "count" => Ok(format!(in alloc; "{}", pool.count())?),
        "bare" => truth(alloc, pool.is_bare()),
        _ => Err(anyhow!("no event: {word}")),
    }
}
