//! The book of connections: which stand, which transport of each is the current one, and how far its puts have come.
#![tactic(auto)]

mod book;
mod keys;
pub mod laws;
mod range;
mod record;
mod shelf;

pub use book::ConnBook;
pub use range::NumberRange;
