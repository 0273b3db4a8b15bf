//! What stands below a pool of objects: where an id's object is among objects in order of id, what objects load a pool
//! with, and the rules that an operation on them passes, as codes.
#![tactic(auto)]

mod load;
mod rules;
mod search;

pub use load::{Load, NO_LOAD, Shelf, all_load, exchanged, is_heavy, load_fits, load_of, shelf_of};
pub use rules::{is_heavy_at, or_next, pool_rule, rules_before};
pub use search::{find, past, put};
