//! What a step of the connection is for its channels.
ghost use Rattle.std.specs.Prelude.{◌≡◌};
ghost use Rattle.rl_chansm.specs.Connection as steps;

use crate::{ChanEvent, chan_step};
use rl_types::{ChanState, ConnState};

/// The event that a step of the connection from one state to another is for each of its channels: it stands
/// (RTL3d), or is suspended (RTL3c), closed (RTL3b) or failed (RTL3a), and was not so before. Other steps are
/// nothing to a channel, but where they lose the link: [`ChanEvent::LinkDown`] is told then.
pub fn event_of(before: ConnState, after: ConnState) -> Option<ChanEvent>
    ensures { result ≡ steps.event_of before after }
{
    use ConnState::{Closed, Connected, Connecting, Failed, Suspended};
    match (before, after) {
        (Connecting, Connected) => Some(ChanEvent::ConnUp),
        (Suspended, Suspended) | (Closed, Closed) | (Failed, Failed) => None,
        (_, Suspended) => Some(ChanEvent::ConnSuspended),
        (_, Closed) => Some(ChanEvent::ConnClosed),
        (_, Failed) => Some(ChanEvent::ConnFailed),
        _ => None,
    }
}

/// The state of a channel after a step of the connection: what the connection's new state is ([`event_of`]) is told
/// first, and then, where the link is gone, [`ChanEvent::LinkDown`]. So a channel that is DETACHING fails with its
/// connection.
pub fn after_connection(
    state: ChanState,
    unlinked: bool,
    before: ConnState,
    after: ConnState,
) -> ChanState
    ensures { result ≡ steps.after_connection unlinked before after state }
{
    after_link(after_event(state, event_of(before, after)), unlinked)
}

// The state of a channel that is told what became of the connection.
fn after_event(state: ChanState, event: Option<ChanEvent>) -> ChanState
    ensures { result ≡ steps.after_event event state }
{
    match event {
        Some(event) => chan_step(state, event),
        None => state,
    }
}

// The state of a channel whose link is gone or not.
fn after_link(state: ChanState, unlinked: bool) -> ChanState
    ensures { result ≡ steps.after_link unlinked state }
{
    if unlinked {
        chan_step(state, ChanEvent::LinkDown)
    } else {
        state
    }
}
