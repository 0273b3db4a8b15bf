//! A client: what it is told, what it hears, what it sends and shows (RTN, RTL, RTP, RTO). Each call is one definition of
//! `rl_clientmodel`: what it answers and what stands after it. Where a call finds no memory, all is as before.
//!
//! All output is made first; then comes what keeps something more, which is as before where it fails or is taken back
//! without memory; what follows takes none.
#![tactic(auto)]

mod acting;
mod attaching;
mod client;
mod enqueuing;
mod entering;
mod fault;
mod hearing;
mod reading;
mod recovering;
mod refusing;
mod settling;
mod steps;
mod ticking;

pub use client::Client;
pub use fault::{ActFault, ClientFault};
