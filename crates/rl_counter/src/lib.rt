//! A counter (RTLC) as a pool holds it: the sites whose operations it took, whether it was created, and its sum. The
//! site test and the sum are given alone too, for what holds sites of its own.
#![tactic(auto)]

mod counter;
mod sites;

pub use counter::{Counter, added, sum_after};
pub use rl_objmodel::Applied;
pub use sites::{is_newer, put, put_back, serial_of, told};
