//! Every number with a meaning, named once. Definitions, clauses and code cite these names, so another
//! limit is a change of one line here, the pages and the tables of cases aside.
//!
//! [`limits`] has what is bounded and by how much, [`codes`] the faults that frames carry, [`flags`] the
//! bits of an ATTACHED frame, [`actions`] the numbers of frames, presence items and operations.
#![tactic(auto)]

pub mod actions;
pub mod codes;
pub mod flags;
pub mod limits;
