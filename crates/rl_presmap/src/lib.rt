//! What a client knows of a channel's members (RTP2): its presence map, and the syncs by which it is brought up to
//! date (RTP18, RTP19).
//!
//! A contract sees a [`PresMap`] as what it holds, in order of key, and the sync that is open. Each call says what it
//! makes of that and which events it tells. The laws say of each key by itself what stands at it after each call.
//!
//! A call that finds no memory leaves the map as before.
#![tactic(auto)]

mod copies;
mod ends;
mod events;
mod held;
pub mod laws;
mod newness;
mod presmap;
mod ready;
mod search;
mod syncs;
mod taking;

pub use events::PresenceEvent;
pub use newness::newer;
pub use presmap::PresMap;
