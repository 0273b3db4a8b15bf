//! What a report may be trusted for: the claims over whole runs, and their proofs as laws.
#![tactic(auto)]

pub mod laws;
