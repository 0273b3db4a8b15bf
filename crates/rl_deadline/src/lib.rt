//! Deadlines: keys, each with a moment, and which of them are due.
#![tactic(auto)]

mod deadlines;
mod order;

pub use deadlines::Deadlines;
