//! What the state of a connection says beside the table.
ghost use Rattle.std.specs.Prelude.{◌≡◌};
ghost use Rattle.rl_connsm.specs.Rules as rules;

use crate::{ConnEvent, drops_link, may_connect};
use rl_types::ConnState;

// COMMANDS

// Whether nothing is attached in this state and nothing is taken that is to be acknowledged.
fn is_down(state: ConnState) -> bool
    ensures { result ≡ rules.is_down state }
{
    matches!(
        state,
        ConnState::Suspended | ConnState::Closing | ConnState::Closed | ConnState::Failed
    )
}

/// The state with which Connect is refused: CONNECTING, CONNECTED or CLOSING. Elsewhere it is not refused (RTN11;
/// where it is, this is this project's own).
pub fn connect_refused(state: ConnState) -> Option<ConnState>
    ensures { result ≡ rules.connect_refused state }
{
    if may_connect(state) {
        None
    } else {
        Some(state)
    }
}

/// The state with which Attach is refused: SUSPENDED, CLOSING, CLOSED or FAILED (RTL4b). Elsewhere it is not
/// refused.
pub fn attach_refused(state: ConnState) -> Option<ConnState>
    ensures { result ≡ rules.attach_refused state }
{
    if is_down(state) { Some(state) } else { None }
}

/// The state with which a command is refused that needs acknowledgement: publishing, presence and operations on
/// objects in SUSPENDED, CLOSING, CLOSED or FAILED (RTL6c4). Elsewhere the state does not refuse it.
pub fn enqueue_refused(state: ConnState) -> Option<ConnState>
    ensures { result ≡ rules.enqueue_refused state }
{
    if is_down(state) { Some(state) } else { None }
}

/// Whether Close does anything (RTN12). It is never refused; in CLOSING, CLOSED and FAILED it changes nothing.
pub fn closes(state: ConnState) -> bool
    ensures { result ≡ rules.closes state }
{
    !matches!(
        state,
        ConnState::Closing | ConnState::Closed | ConnState::Failed
    )
}

/// Whether a client may go on where another one stood (RTN16): only where it has not connected yet.
pub fn may_recover(state: ConnState) -> bool
    ensures { result ≡ rules.may_recover state }
{
    matches!(state, ConnState::Initialized)
}

// FRAMES

/// Whether frames are sent at once: in CONNECTED (RTL6c1).
pub fn is_connected(state: ConnState) -> bool
    ensures { result ≡ rules.is_connected state }
{
    matches!(state, ConnState::Connected)
}

/// Whether a CONNECTED frame counts: in CONNECTING (RTN4). Elsewhere it changes nothing.
pub fn awaits_connected(state: ConnState) -> bool
    ensures { result ≡ rules.awaits_connected state }
{
    matches!(state, ConnState::Connecting)
}

/// Whether an ACK or NACK counts: in CONNECTED and CLOSING (RTN7a). Elsewhere it changes nothing.
pub fn takes_acknowledgements(state: ConnState) -> bool
    ensures { result ≡ rules.takes_acknowledgements state }
{
    matches!(state, ConnState::Connected | ConnState::Closing)
}

// WHAT IS HELD

/// Whether no connection is held: in SUSPENDED, CLOSED and FAILED its id and key are forgotten (RTN8c, RTN9c), the
/// frames that await acknowledgement are dropped, and the next serial is 0 (RTN7e).
pub fn forgets_connection(state: ConnState) -> bool
    ensures { result ≡ rules.forgets_connection state }
{
    matches!(
        state,
        ConnState::Suspended | ConnState::Closed | ConnState::Failed
    )
}

/// Whether a client that connects from this state brings the key that it holds: from DISCONNECTED (RTN15b), and
/// from INITIALIZED, where it holds one if it recovers (RTN16k). From other states it brings none.
pub fn brings_key(state: ConnState) -> bool
    ensures { result ≡ rules.brings_key state }
{
    matches!(state, ConnState::Initialized | ConnState::Disconnected)
}

/// Whether another client can go on with the key that this one holds (RTN16): not where it closes. (For CLOSING
/// this is this project's own.)
pub fn gives_recovery_key(state: ConnState) -> bool
    ensures { result ≡ rules.gives_recovery_key state }
{
    !matches!(state, ConnState::Closing)
}

// BETWEEN TWO STATES

/// Whether a step from one state to another begins a new link, on which no answer is owed: where the client
/// connects. (This project's own.)
pub fn opens_link(before: ConnState, after: ConnState) -> bool
    ensures { result ≡ rules.opens_link before after }
{
    !awaits_connected(before) && awaits_connected(after)
}

/// Whether the link is gone with a step from one state to another, and with it the answers that were owed: where
/// the event says so, or where the step drops it ([`drops_link`]). (This project's own.)
pub fn loses_link(event: ConnEvent, before: ConnState, after: ConnState) -> bool
    ensures { result ≡ rules.loses_link event before after }
{
    match event {
        ConnEvent::Down => true,
        _ => drops_link(before, after),
    }
}

/// Whether a step from one state to another leaves CONNECTED: from this moment on the service keeps the
/// connection for `connectionStateTtl` (CD2f, RTN14e).
pub fn leaves_connected(before: ConnState, after: ConnState) -> bool
    ensures { result ≡ rules.leaves_connected before after }
{
    is_connected(before) && !is_connected(after)
}

// TIME

/// Whether the client gives the connection up once the service keeps it no longer: in DISCONNECTED and CONNECTING
/// (RTN14e).
pub fn awaits_ttl(state: ConnState) -> bool
    ensures { result ≡ rules.awaits_ttl state }
{
    matches!(state, ConnState::Connecting | ConnState::Disconnected)
}

/// Whether a Connect from this state begins the time anew after which the connection is given up: one from
/// DISCONNECTED does not. (This project's own.)
pub fn restarts_ttl(state: ConnState) -> bool
    ensures { result ≡ rules.restarts_ttl state }
{
    match state {
        ConnState::Disconnected => false,
        _ => may_connect(state),
    }
}
