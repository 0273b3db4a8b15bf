//! Tests of the client's tables and queue, of the book and the directory, of what no contract says: above all that
//! each call which may answer want of memory answers otherwise where memory is ample. They stand beside the crates that
//! they try, so that nothing but the tests is proved for them.
#![tactic(auto)]

#[cfg(test)]
mod ackq;
#[cfg(test)]
mod chansm;
#[cfg(test)]
mod connbook;
#[cfg(test)]
mod connsm;
#[cfg(test)]
mod deadline;
#[cfg(test)]
mod directory;
