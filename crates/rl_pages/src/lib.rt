//! The pages of a session's sync: which page of members or objects is asked for next, in which frame it is sent,
//! and when the sync ends (RTP18, RTO5; the rule of the end is this project's own).
//!
//! A session asks [`Pages::next`] for an event, lets its channel answer it, gives the reply to [`Pages::absorb`] and
//! sends the frame. Once [`Pages::may_end`] holds of the place up to which it sent entries, it sends
//! [`Pages::end_frames`].
#![tactic(auto)]

mod frames;
pub mod laws;
mod pages;
mod progress;

pub use pages::Pages;
