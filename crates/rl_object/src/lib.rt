//! An object of a channel as it is held: a map (RTLM), a counter (RTLC) or a tombstone, which operations are applied to
//! in its place, and put back from it without memory.
#![tactic(auto)]

mod kinds;
mod maps;
mod object;
mod parts;
mod stood;

pub use kinds::{kind_of, suits, target_of};
pub use object::Object;
pub use rl_objmodel::Applied;
pub use stood::Stood;
