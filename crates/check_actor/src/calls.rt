//! The calls of an actor, each in a function that promises nothing: what they promise isn't needed here, and would make
//! each function that makes several of them dear to prove.
use anyhow::{Result, anyhow};
use rl_actor::{Actor, Came};
use rl_events::{Call, End, Reply};
use rl_ids::{Moment, NoMemory, Text};
use rl_runs::Hello;
use rl_types::Frame;
use std::alloc::Global;

fn checked(done: Result<(), NoMemory>) -> Result<()> {
    match done {
        Ok(()) => Ok(()),
        Err(NoMemory) => Err(anyhow!("out of memory")),
    }
}

/// An actor at its beginning.
pub fn begun(alloc: Global, hello: Hello, now: Moment) -> Result<Actor> {
    match Actor::new(alloc, hello, now) {
        Ok(actor) => Ok(actor),
        Err(NoMemory) => Err(anyhow!("out of memory")),
    }
}

/// A frame, or what came in its place, is taken up. An error where the actor has ended.
pub fn take_up(alloc: Global, actor: &mut Actor, what: Came, now: Moment) -> Result<()> {
    if actor.ended().is_some() {
        return Err(anyhow!("a frame is taken up behind the end"));
    }
    checked(actor.take_up(alloc, what, now))
}

/// What was replied to a call is absorbed. An error where no call was wanted.
pub fn absorb(
    alloc: Global,
    actor: &mut Actor,
    call: &Option<Call>,
    reply: Reply,
    now: Moment,
) -> Result<()> {
    match call {
        Some(call) => checked(actor.absorb(alloc, call, reply, now)),
        None => Err(anyhow!("no call is wanted")),
    }
}

/// The call that is wanted.
pub fn wanted(alloc: Global, actor: &Actor, now: Moment) -> Result<Option<Call>> {
    Ok(actor.next_call(alloc, now)?)
}

/// The call of the next page of a channel's sync.
pub fn paging(alloc: Global, actor: &Actor, channel: &Text) -> Result<Option<Call>> {
    Ok(actor.page_call(alloc, channel)?)
}

/// The call that reads a channel on.
pub fn reading(actor: &Actor, channel: &Text) -> Option<Call> {
    actor.poll_call(channel)
}

/// The actor rests.
pub fn rest_at(actor: &mut Actor, now: Moment) -> Result<()> {
    let _did = actor.rest(now)?;
    Ok(())
}

/// The link is over.
pub fn end_link(actor: &mut Actor, why: End) {
    actor.link_over(why);
}

/// The first frame that waits, which is taken.
pub fn put_out(actor: &mut Actor) -> Option<Frame> {
    actor.take_out()
}

/// The name of the session at this index; `-` is none.
pub fn session(actor: &Actor, index: usize) -> &str {
    match actor.session(index) {
        Some(name) => name.as_str(),
        None => "-",
    }
}
