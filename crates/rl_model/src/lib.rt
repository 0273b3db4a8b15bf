//! What the service means: definitions in `specs/` that the contracts of the other crates cite, their laws,
//! and the plain data that the definitions speak of.
#![tactic(auto)]

pub mod laws;
mod plain;

pub use plain::{Client, Sent};
