//! The actor of a session of the service: for one connection it decides what is asked of the shared machines, and which
//! frames are put out. (RTN, RTL; what calls what is this project's own.)
//!
//! Whoever runs a session gives the actor each frame that came ([`Actor::take_up`]), makes the calls that it wants
//! ([`Actor::next_call`], and for each session [`Actor::page_call`] and [`Actor::poll_call`]), gives it what was replied
//! ([`Actor::absorb`]), and sends the frames that wait ([`Actor::take_out`]). What each call does is an equation over the
//! definitions of `rl_actormodel`.
#![tactic(auto)]

mod actor;
mod attaching;
mod connecting;
mod ending;
mod entries;
mod publishing;
mod reading;
mod taking;

pub use actor::Actor;
pub use taking::Came;
