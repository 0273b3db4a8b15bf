//! The outside: where bytes come from and where they go.
//!
//! A [`Source`] is read and a [`Sink`] is written. What a call means is told by two things that a contract
//! sees: the bytes, where the object tells them, and a count of the calls that failed. A call answers a
//! fault only where that count rose, so whatever is generic over these traits cannot make a fault up.
//! [`MemSource`] and [`MemSink`] tell all that they hold and fail at the calls that they are given.
//! [`ReaderSource`] and [`WriterSink`] are the real edge, over any `Read` and any `Write` of `std`.
#![tactic(auto)]

mod counts;
mod mem_sink;
mod mem_source;
mod reader_source;
mod sink;
mod source;
#[cfg(test)]
mod tests;
mod writer_sink;

pub use mem_sink::MemSink;
pub use mem_source::MemSource;
pub use reader_source::ReaderSource;
pub use sink::{Gave, Sink};
pub use source::{Source, Took};
pub use writer_sink::WriterSink;
