//! The bounded part of a channel: the window of its log, the ids that it remembers, and the last outcome of
//! each connection.
//!
//! What it stands for is `Parts` of `rl_model`: the whole log, where the window begins, the id of each entry,
//! and what is kept of each connection. The relation between the two is `Keeps` of `specs/Keeps.antt`; callers
//! cite it, `IsReady`, and the fields `head`, `room` and `newest` of what a contract sees.
#![tactic(auto)]

mod chanlog;
mod ids;
mod outcomes;
mod window;

pub use chanlog::ChanLog;
