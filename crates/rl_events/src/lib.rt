//! What the machines that sessions share take and answer: a channel, the book of connections, the directory; and what a
//! session asks of them.
//!
//! None of these types keeps a rule of its own: what holds of them is said by the machines that take and give them.
#![tactic(auto)]

mod book;
mod calls;
mod channel;

pub use book::{BookEvent, BookReply};
pub use calls::{Call, ChannelNo, DirEvent, DirReply, End, Reply};
pub use channel::{ChannelEvent, ChannelReply, Outcome, ReadReply, Verdict};
