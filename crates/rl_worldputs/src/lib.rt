//! What every run keeps of the serials of connections, over the definitions of `rl_worldmodel`: each is put on one channel
//! alone, and one that was refused has no entry on any.
#![tactic(auto)]

pub mod laws;
