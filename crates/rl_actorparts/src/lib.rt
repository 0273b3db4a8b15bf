//! What an actor is made of, each part without the actor: the sessions of its channels by name and by number, the frames
//! of what was read, whose messages and presence items are, and what a reply says to each question. What each call makes
//! or answers is said over the definitions of `rl_actormodel`.
//!
//! Where a call that keeps something finds no memory, all is as before.
#![tactic(auto)]

mod frames;
mod sessions;
mod signing;
mod views;

pub use sessions::{Run, Sessions};
pub use signing::{signed_items, signed_members};
pub use views::{
    Beginning, Concern, Joining, Numbering, Opening, Reading, Resuming, Standing, beginning_in,
    concern_of, joining_in, numbering_in, opening_in, outcome_of, reading_in, resuming_in,
    standing_in, verdict_in,
};
