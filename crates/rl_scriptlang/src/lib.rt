//! The reader of scripts: the lines that bytes spell, or the first line that is refused and why.
#![tactic(auto)]

mod fault;
mod feeds;
mod lines;
mod number;
mod script;
mod seen;
mod split;
mod tokens;
mod words;

pub use fault::ScriptFault;
pub use script::read_script;
pub use words::cause_word;
