//! One channel of one client with what lies between it and the service: whatever is cut, asked again and crossed, the record
//! that the client keeps of the channel is sound.
#![tactic(auto)]

pub mod laws;
