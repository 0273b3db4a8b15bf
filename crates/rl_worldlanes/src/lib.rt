//! A world of many clients moves the lanes of its clients and channels: so every record in it is sound.
#![tactic(auto)]

pub mod laws;
