//! Tests of frames, items, operations and recovery keys as JSON, of what no contract says: above all that each call
//! which may answer want of memory answers otherwise where memory is ample. They stand beside the crates that they
//! try, so that nothing but the tests is proved for them.
#![tactic(auto)]

#[cfg(test)]
mod recovery;
#[cfg(test)]
mod wire;
#[cfg(test)]
mod wireitems;
#[cfg(test)]
mod wireobj;
