//! What is true of every actor of every run of many clients, over the definitions of `rl_worldmodel`: the numbers that it
//! keeps are the directory's, each of its sessions stands within its channel's log, and what is read is a run of that log.
#![tactic(auto)]

pub mod laws;
