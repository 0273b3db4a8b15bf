//! Frames: the protocol messages between client and service as JSON texts.
//!
//! [`read_frame`] answers what bytes are, or the first fault, in the order of the checks: their length, UTF-8,
//! JSON, that the value is an object, its `action`, then the action's fields. [`write_frame`] gives a frame's
//! one text, which is read as the same frame again.
#![tactic(auto)]

mod actions;
mod codes;
mod cursors;
mod details;
mod heads;
pub mod laws;
mod lists;
mod members;
mod messages;
mod reading;
mod writing;

pub use reading::read_frame;
pub use writing::write_frame;
