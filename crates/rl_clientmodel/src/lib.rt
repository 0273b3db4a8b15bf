//! What a client is, as definitions: what it keeps of its connection and of each channel, and what each command, each
//! frame, the end of its link and the passing of time make of that (RTN, RTL, RTP, RTO). `specs/` has them.
//!
//! They stand on the state tables, the queue, the presence map and the object sync as these are. The types here are
//! plain data of which both the definitions and the code speak.
#![tactic(auto)]

pub mod laws;
mod runs;
mod steps;

pub use runs::{Beginning, Run};
pub use steps::ChannelStep;
