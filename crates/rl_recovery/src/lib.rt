//! Recovery keys as texts: what an application keeps of a client that stops, and gives the next one (RTN16).
//!
//! [`write_recovery_key`] gives the one text of a key, a JSON object. [`read_recovery_key`] answers the key that a
//! text is, or none. What is written of a key that a client gives is read as the same key.
#![tactic(auto)]

pub mod laws;
mod reading;
mod writing;

pub use reading::read_recovery_key;
pub use writing::write_recovery_key;
