//! A client's sync of a channel's objects (RTO4, RTO5): what a client knows of them, and how pages and operations bring
//! it up to date.
//!
//! A contract sees an [`ObjSync`] as its pool and the sync that is open. Each call says what it makes of these. The laws
//! say what a sync leaves, whatever calls come before its end.
//!
//! A call that finds no memory leaves all as before.
#![tactic(auto)]

pub mod laws;
mod objsync;
mod sync;

pub use objsync::ObjSync;
