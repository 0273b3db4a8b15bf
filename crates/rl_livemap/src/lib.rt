//! A map (RTLM) as a pool holds it: what stands at each key, in order of key, and whether it was created.
#![tactic(auto)]

mod cells;
mod collecting;
mod held;
mod livemap;
mod weights;

pub use held::HeldCell;
pub use livemap::LiveMap;
