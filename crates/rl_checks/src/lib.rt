//! Tests that cross crates, of what no contract says: above all that each call which may answer want of memory
//! answers otherwise where memory is ample. The examples' whole reports are compared by `check_examples`,
//! frames by `check_wire`, and what channels answer by `check_channel`.
#![tactic(auto)]

#[cfg(test)]
mod base;
#[cfg(test)]
mod commands;
#[cfg(test)]
mod data;
#[cfg(test)]
mod frames;
#[cfg(test)]
mod ids;
#[cfg(test)]
mod objects;
#[cfg(test)]
mod presence;
#[cfg(test)]
mod scripts;
