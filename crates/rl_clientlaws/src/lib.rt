//! What is true of all inputs of a client, over the definitions of `rl_clientmodel`. They stand apart from these, so that a
//! law more is proved without what stands on the definitions.
#![tactic(auto)]

pub mod laws;
