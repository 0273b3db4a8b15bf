//! What a client is told to do, the scripts of which that is a line, and what a run shows.
//!
//! None of these types keeps a rule of its own: what holds of them is said by the calls that give them.
#![tactic(auto)]

mod commands;
mod findings;
mod script;

pub use commands::{Command, Hello, Output, RecoveryKey, Stands};
pub use findings::{
    Answer, Cause, ChannelFindings, ChannelView, ClientFindings, Findings, Record, Segment,
};
pub use script::{Line, Script, ScriptCause};
