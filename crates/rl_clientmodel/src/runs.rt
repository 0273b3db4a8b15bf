//! The runs of a client's record, with what began each one. (This project's own.)
use rl_ids::{ChannelSerial, List, Place};
use rl_types::Body;

/// What began a run: which answer, with what was asked and told, or which entry.
#[derive(Clone, Copy, Debug)]
pub enum Beginning {
    /// The ATTACHED that the channel awaited.
    Answered {
        /// The serial that the last ATTACH gave.
        asked: Option<ChannelSerial>,
        /// Whether the answer was RESUMED.
        resumed: bool,
        /// The serial that it told.
        told: ChannelSerial,
        /// Whether the channel was DETACHED, SUSPENDED or FAILED since the run before began.
        away: bool,
    },
    /// An ATTACHED that nobody had asked for, on an ATTACHED channel. (Only another service sends it.)
    Unasked {
        /// The serial that was held.
        held: ChannelSerial,
        /// Whether it was RESUMED.
        resumed: bool,
        /// The serial that it told.
        told: ChannelSerial,
    },
    /// An entry at another place than the one after the serial held. (Only another service sends it.)
    Skipped {
        /// The serial that was held.
        held: ChannelSerial,
        /// The serial of the entry.
        told: ChannelSerial,
    },
}

/// A run of entries without a gap.
#[derive(Debug, Drop)]
pub struct Run {
    /// What began it.
    pub beginning: Beginning,
    /// The entries got in it, with their places, in order.
    pub got: List<(Place, Body)>,
}
