//! The objects of a channel, or of a client's view of it: maps, counters and tombstones, in order of id.
#![tactic(auto)]

mod admitting;
mod applying;
mod changes;
mod checking;
mod collecting;
mod journal;
pub mod laws;
mod live;
mod pages;
mod pool;
mod telling;

pub use pool::Pool;
pub use rl_objmodel::Applied;
