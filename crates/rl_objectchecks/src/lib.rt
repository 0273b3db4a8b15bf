//! Tests of what presence and objects are made of, of what no contract says: above all that each call which may answer
//! want of memory answers otherwise where memory is ample. They stand beside the crates that they try, so that nothing
//! but the tests is proved for them.
#![tactic(auto)]

#[cfg(test)]
mod counter;
#[cfg(test)]
mod livemap;
#[cfg(test)]
mod members;
#[cfg(test)]
mod object;
#[cfg(test)]
mod objsync;
#[cfg(test)]
mod pages;
#[cfg(test)]
mod pool;
#[cfg(test)]
mod presmap;
