// Events of object syncs.
use crate::ops::frame_of;
use crate::pools::pool_text;
use crate::states::{cursor_of, states_of};
use crate::words::{is_first, number, split_two};
use anyhow::{Result, anyhow};
use rl_ids::Moment;
use rl_objsync::ObjSync;
use std::alloc::Global;

/// The pool, and whether a sync is open.
pub fn view_text(alloc: Global, view: &ObjSync) -> Result<String> {
    let mut text = pool_text(alloc, view.pool())?;
    text.push_str(if view.syncing() { " syncing" } else { " whole" })?;
    Ok(text)
}

// `CURSOR MOMENT STATE..`.
fn page(alloc: Global, view: &mut ObjSync, rest: &str) -> Result<()> {
    let (at, rest) = split_two(rest)?;
    let (now, words) = rest.split_once(' ').unwrap_or((rest, ""));
    let at = cursor_of(alloc, at)?;
    let states = states_of(alloc, words)?;
    view.page(alloc, at.as_ref(), &states, Moment(number(now)?))?;
    Ok(())
}

// `SITE PLACE INDEX MOMENT OP..`.
fn ops(alloc: Global, view: &mut ObjSync, rest: &str) -> Result<()> {
    let frame = frame_of(alloc, rest)?;
    view.ops(alloc, &frame.ops, frame.now)?;
    Ok(())
}

fn attached(alloc: Global, view: &mut ObjSync, rest: &str) -> Result<()> {
    view.attached(alloc, is_first(rest, "objects", "nothing")?)?;
    Ok(())
}

/// What an object sync takes up. It answers nothing.
pub fn view_event(alloc: Global, view: &mut ObjSync, word: &str, rest: &str) -> Result<String> {
    match word {
        "attached" => attached(alloc, view, rest)?,
        "page" => page(alloc, view, rest)?,
        "ops" => ops(alloc, view, rest)?,
        "tick" => view.collect(Moment(number(rest)?)),
        _ => return Err(anyhow!("no event: {word}")),
    }
    Ok(String::new(alloc))
}
