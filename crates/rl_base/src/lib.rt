//! Texts, bytes, lists, short codes, copies and want of memory: the small types that every crate stands on.
//!
//! A contract sees a [`Text`], a [`Blob`] and a [`Code`] as the list of its bytes and a [`List`] as the
//! list of its items. Whatever takes memory answers [`NoMemory`] where there is none, and what it was
//! called on is then as before.
#![tactic(auto)]

mod blob;
mod code;
mod copied;
mod list;
mod memory;
mod numerals;
mod room;
mod same;
mod text;

pub use blob::Blob;
pub use code::{Code, Code16, Code64};
pub use copied::Copied;
pub use list::List;
pub use memory::NoMemory;
pub use numerals::{MAX_PADDED_DIGITS, read_decimal, read_digits, read_fixed, read_padded_decimal};
pub use room::RoomyList;
pub use same::Same;
pub use text::Text;
