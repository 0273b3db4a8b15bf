//! What a session of the service does, as definitions: the actor. It decides for one connection what is asked of the
//! shared machines, and which frames are put out.
//!
//! The definitions are in `specs/`; here are the types that both they and the code above speak of, and laws.
#![tactic(auto)]

pub mod laws;
mod parts;

pub use parts::{Asked, Holder, Publish, Session, Wish};
