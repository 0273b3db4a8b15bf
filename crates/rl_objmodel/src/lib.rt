//! What the objects of a channel are (RTO): maps (RTLM), counters (RTLC) and tombstones. The definitions in `specs/`
//! say it twice.
//!
//! Over a list of operations, the latest first: a counter is the count of its create and the sum of its increments, a
//! key has what was written with the greatest serial, and an object is kept until a Tick collects its tombstone.
//! `Objects` has these, `Rules` the rules that operations pass, one after another.
//!
//! Over the objects that are held, in order of id: what one operation makes of them (`Steps`). Machines that hold
//! objects cite that form.
#![tactic(auto)]

pub mod laws;
mod plain;

pub use plain::Applied;
