//! What every run keeps of what clients were told, over the definitions of `rl_worldmodel`: histories are orderly, numbers
//! are given once, each frame that was queued is accounted for, and acknowledgements are of what channels decided.
#![tactic(auto)]

pub mod laws;
