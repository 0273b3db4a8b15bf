//! Runs scripts: the world that a script's lines make, over a channel machine, and what it shows.
#![tactic(auto)]

mod client;
mod findings;
mod records;
mod serving;
mod travel;
mod world;

pub use world::{World, run};
