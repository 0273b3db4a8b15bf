//! The items of MESSAGE, PRESENCE and SYNC frames, read from JSON and written as JSON.
#![tactic(auto)]

mod actions;
mod defaults;
pub mod laws;
mod messages_in;
mod presence_in;
mod values;

pub use messages_in::read_message_items;
pub use presence_in::read_presence_items;
pub use values::{message_values, presence_values, sync_values};
