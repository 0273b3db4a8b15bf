//! What a run does, as definitions: the world of clients, transports and the service's machines, each action as a function
//! of the world, what the lines of a script stand for, and what a run shows. `specs/` has them.
//!
//! They stand on the definitions of a client, of a session of the service, of a channel, of the book of connections and of
//! the directory, as these are. Transports hold frames: of their JSON only the length counts, since one that is too
//! long comes to the service as bad bytes.
#![tactic(auto)]

pub mod laws;
