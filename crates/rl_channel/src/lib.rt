//! A channel: a machine that keeps a bounded part of what it took, and answers as its whole history says.
//!
//! What it keeps and which history it stands for is `specs/State.antt`. Each event has a call of its own
//! ([`Channel`]: `put`, `join`, `read`, `member_page`, `object_page`, `gone`, `tick`); `machine.rt` makes them one machine.
#![tactic(auto)]

mod changes;
mod channel;
mod filling;
mod going;
mod judging;
mod leaving;
mod machine;
mod objects;
mod ranges;

pub use channel::{Channel, ChannelSetup, Joined, MemberPage, ObjectPage};
