//! The steps of a client's channel that keep nothing more of it: none of them takes memory.
use rl_chansm::ChanEvent;
use rl_ids::Moment;

/// A step of one channel.
#[derive(Clone, Copy, Debug)]
pub enum ChannelStep {
    /// An event of the state table. Where it asks the service something, the answer is owed from then on.
    Moves {
        /// The event.
        event: ChanEvent,
        /// Whether the connection is CONNECTED: then ATTACH and DETACH are sent at once. It says nothing of an event
        /// that the connection itself is for its channels.
        connected: bool,
        /// The moment, in milliseconds.
        now: Moment,
    },
    /// A DETACHED that names the channel was got.
    DetachedGot {
        /// Whether the connection is CONNECTED.
        connected: bool,
        /// The moment, in milliseconds.
        now: Moment,
    },
    /// An ERROR that names the channel was got.
    ErrorGot,
    /// The link is gone, and with it each answer that was owed.
    LinkLost,
    /// There is a new link, on which no answer is owed yet.
    LinkOpened,
    /// Time passed in CONNECTED: an ATTACH that wasn't answered for [`rl_numbers::limits::ATTACH_TIMEOUT`] is given up.
    Waited {
        /// The moment, in milliseconds.
        now: Moment,
    },
    /// Time passed: tombstones of objects are collected.
    Collects {
        /// The moment, in milliseconds.
        now: Moment,
    },
}
