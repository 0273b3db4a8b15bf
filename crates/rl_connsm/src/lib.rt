//! The states of a connection (RTN4), and what each event makes of them.
#![tactic(auto)]

pub mod laws;
mod rules;
mod table;

pub use rules::{
    attach_refused, awaits_connected, awaits_ttl, brings_key, closes, connect_refused,
    enqueue_refused, forgets_connection, gives_recovery_key, is_connected, leaves_connected,
    loses_link, may_recover, opens_link, restarts_ttl, takes_acknowledgements,
};
pub use table::{ConnEvent, conn_step, drops_link, from_suspended_after, may_connect};
