//! Plain data: what clients and the service send each other, and what a log is made of.
//!
//! None of these types keeps a rule of its own: what holds of them is said by the calls that give them.
#![tactic(auto)]

mod frames;
mod messages;
mod objects;
mod presence;
mod states;
mod weights;

pub use frames::{Cursor, Frame, Head, WireFault};
pub use messages::{Body, Entry, Given, Item};
pub use objects::{MapCell, ObjectBody, ObjectOp, ObjectState, Op};
pub use presence::{PresenceAction, PresenceItem};
pub use states::{ChanState, ConnState};
pub use weights::{state_weight, weight};
