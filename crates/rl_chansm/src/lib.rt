//! The states of a channel as a client sees it (RTL2), and what each event makes of them.
#![tactic(auto)]

mod connection;
pub mod laws;
mod owed;
mod rules;
mod table;

pub use connection::{after_connection, event_of};
pub use owed::{
    awaits_attached, awaits_detached, lowered, raised, takes_attached, takes_detached, takes_error,
    takes_unasked,
};
pub use rules::{
    attach_at_refused, attaches, clears_channel, comes_up, detach_refused, detaches,
    forgets_serial, is_attached, operate_refused, presence_refused, publish_refused, sends_attach,
    sends_detach,
};
pub use table::{ChanEvent, chan_step};
