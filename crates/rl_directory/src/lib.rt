//! The directory of channels: which number a channel's name has. (This project's own.)
#![tactic(auto)]

mod directory;
pub mod laws;

pub use directory::Directory;
