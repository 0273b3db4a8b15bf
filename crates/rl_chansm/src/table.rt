ghost use Rattle.std.specs.Prelude.{◌≡◌};
ghost use Rattle.rl_chansm.specs.Table.{chan_table};

use rl_types::ChanState;

/// What happens to a channel of a client.
#[derive(Clone, Copy, Debug, PartialEq, Eq)]
pub enum ChanEvent {
    /// The client attaches (RTL4).
    AttachAsked,
    /// The client detaches (RTL5), while it is connected or not.
    DetachAsked { connected: bool },
    /// The frame ATTACHED that the client awaits (RTL4c).
    AttachedTaken,
    /// The frame DETACHED that the client awaits (RTL5d).
    DetachedTaken,
    /// The frame ERROR that names the channel (RTL14).
    ErrorTaken,
    /// A frame DETACHED that the client did not ask for (RTL13).
    DetachedUnasked,
    /// The connection stands (RTL3d, RTN15c6, RTN15c7).
    ConnUp,
    /// The link is gone.
    LinkDown,
    /// The service did not answer an ATTACH in time (RTL4f).
    Timeout,
    /// The connection is suspended (RTL3c).
    ConnSuspended,
    /// The connection is closed (RTL3b).
    ConnClosed,
    /// The connection failed (RTL3a).
    ConnFailed,
}

/// The state after an event, by the table of the channel (RTL2, RTL3, RTL4, RTL5, RTL13, RTL14). A pair that
/// is not in the table leaves the state.
pub fn chan_step(state: ChanState, event: ChanEvent) -> ChanState
    ensures { result ≡ chan_table state event }
{
    use ChanEvent::{
        AttachAsked, AttachedTaken, ConnClosed, ConnFailed, ConnSuspended, ConnUp, DetachAsked,
        DetachedTaken, DetachedUnasked, ErrorTaken, LinkDown, Timeout,
    };
    use ChanState::{Attached, Attaching, Detached, Detaching, Failed, Initialized, Suspended};
    match (event, state) {
        (AttachAsked, Initialized | Detached | Suspended | Failed | Detaching) => Attaching,
        (DetachAsked { connected }, Attaching | Attached) if connected => Detaching,
        (DetachAsked { .. }, Attaching | Attached | Suspended) => Detached,
        (AttachedTaken, Attaching) => Attached,
        (DetachedTaken, Detaching) => Detached,
        (ErrorTaken, Attaching | Attached | Detaching) => Failed,
        (DetachedUnasked, Attached) => Attaching,
        (ConnUp, Attaching | Attached | Suspended) => Attaching,
        (LinkDown, Detaching) => Detached,
        (Timeout, Attaching) => Suspended,
        (ConnSuspended, Attaching | Attached) => Suspended,
        (ConnClosed, Attaching | Attached | Detaching | Suspended) => Detached,
        (ConnFailed, Attaching | Attached | Detaching | Suspended) => Failed,
        (_, same) => same,
    }
}
