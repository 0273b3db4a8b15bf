//! Objects in frames: operations and the states of objects, read from JSON and written as JSON.
//!
//! [`read_op`] and [`read_state`] answer what a JSON value is, or the first fault, in the order of the checks.
//! [`op_value`] and [`state_value`] give the one value that is written, which is read as the same again.
#![tactic(auto)]

mod actions;
mod items;
pub mod laws;
mod members;
mod operations;
mod states;
mod values;

pub use items::{FromItem, ToItem, item_values, read_items};
pub use operations::{op_value, read_op};
pub use states::{read_state, state_value};
