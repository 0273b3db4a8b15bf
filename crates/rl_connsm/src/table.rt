ghost use Rattle.std.specs.Prelude.{◌≡◌};
ghost use Rattle.rl_connsm.specs.Table as table;

use rl_types::ConnState;

/// What happens to a connection.
#[derive(Clone, Copy, Debug, PartialEq, Eq)]
pub enum ConnEvent {
    /// The client connects (RTN11).
    Connect,
    /// The service says that the connection stands: the frame CONNECTED (RTN4).
    Connected,
    /// The link is gone, or none could be made (RTN14d, RTN15a).
    Down,
    /// The service ends the link: the frame DISCONNECTED (RTN15h).
    Disconnected,
    /// The service ends the connection: the frame ERROR that names no channel (RTN14g, RTN15i).
    Fatal,
    /// The service keeps the connection no longer (RTN14e).
    Ttl,
    /// The client closes the connection (RTN12).
    CloseAsked,
    /// The service closed the connection: the frame CLOSED (RTN12a).
    ClosedGot,
    /// The client dies. (This project's own.)
    Died,
}

/// The state after an event, by the table of the connection (RTN4, RTN11, RTN12, RTN14, RTN15). A pair that
/// is not in the table leaves the state.
///
/// `from_suspended` says whether the client last connected from SUSPENDED: then what can't be connected is
/// SUSPENDED again (RTN14f). See [`from_suspended_after`].
pub fn conn_step(state: ConnState, from_suspended: bool, event: ConnEvent) -> ConnState
    ensures { result ≡ table.conn_table state from_suspended event }
{
    use ConnState::{
        Closed, Closing, Connected, Connecting, Disconnected, Failed, Initialized, Suspended,
    };
    match (event, state) {
        (ConnEvent::Connect, Initialized | Disconnected | Suspended | Closed | Failed) =>
            Connecting,
        (ConnEvent::Connected, Connecting) => Connected,
        (ConnEvent::Down | ConnEvent::Disconnected, Connecting) if from_suspended => Suspended,
        (ConnEvent::Down | ConnEvent::Disconnected, Connecting | Connected) => Disconnected,
        (ConnEvent::Fatal, Connecting | Connected) => Failed,
        (ConnEvent::Ttl, Disconnected | Connecting) => Suspended,
        (ConnEvent::CloseAsked, Connected) => Closing,
        (ConnEvent::CloseAsked, Initialized | Connecting | Disconnected | Suspended) => Closed,
        (ConnEvent::ClosedGot | ConnEvent::Down, Closing) => Closed,
        (ConnEvent::Died, Failed) => Failed,
        (ConnEvent::Died, _) => Closed,
        (_, same) => same,
    }
}

/// Whether a client may connect in this state (RTN11). In another one the client refuses it.
pub fn may_connect(state: ConnState) -> bool
    ensures { result ≡ table.may_connect state }
{
    !matches!(
        state,
        ConnState::Connecting | ConnState::Connected | ConnState::Closing
    )
}

/// Whether the client last connected from SUSPENDED, after an event: this is set anew each time the client
/// connects, and other events leave it. (This project's own, for RTN14f.)
pub fn from_suspended_after(state: ConnState, from_suspended: bool, event: ConnEvent) -> bool
    ensures { result ≡ table.from_suspended_after state from_suspended event }
{
    match event {
        ConnEvent::Connect if may_connect(state) => matches!(state, ConnState::Suspended),
        _ => from_suspended,
    }
}

/// Whether a step from one state to another drops the link: where it leaves CONNECTING or CONNECTED for a
/// state other than these two and CLOSING. (This project's own.)
pub fn drops_link(before: ConnState, after: ConnState) -> bool
    ensures { result ≡ table.drops_link before after }
{
    matches!(before, ConnState::Connecting | ConnState::Connected)
        && !matches!(
            after,
            ConnState::Connecting | ConnState::Connected | ConnState::Closing
        )
}
