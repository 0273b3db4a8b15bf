//! Machines. A machine answers one event after another, and its answer depends on nothing but its setup, the
//! events before and the event.
#![tactic(auto)]

mod machine;

pub use machine::Machine;
