//! The members of a channel (RTP2) as the service holds them: of each key that entered and hasn't left, the last
//! item that tells of it, in order of key.
//!
//! A contract sees [`Members`] as the list of these items. Each call says what it makes of the list, and that a list
//! which was what a channel's items leave is then what these and the call's own leave. So after any calls the list is
//! what all the items leave together.
//!
//! Memory is taken to hold an item and to answer a page; a call that finds none leaves the members as before.
#![tactic(auto)]

mod changes;
mod member;
mod members;
mod page;
mod search;
mod taking;

pub use members::Members;
