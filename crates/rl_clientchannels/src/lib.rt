//! The channels of a client: what it keeps of each, what a step, an answer, an entry and a page make of that, and all of
//! them by name. What each call makes of a channel is one definition of `rl_clientmodel`.
//!
//! A step ([`ChannelStep`](rl_clientmodel::ChannelStep)) takes no memory; what it makes the client send is told
//! beforehand. Where a call that keeps something finds no memory, all is as before.
#![tactic(auto)]

mod channel;
mod channels;
mod objects;
mod runs;

pub use channel::ClientChannel;
pub use channels::ClientChannels;
