//! What the state of a channel says beside the table.
ghost use Rattle.std.specs.Prelude.{◌≡◌};
ghost use Rattle.rl_chansm.specs.Rules as rules;

use crate::ChanEvent;
use rl_types::ChanState;

// COMMANDS

/// The state with which AttachAt is refused: that of the channel, where it is known. (This project's own.)
pub fn attach_at_refused(known: Option<ChanState>) -> Option<ChanState>
    ensures { result ≡ rules.attach_at_refused known }
{
    known
}

/// The state with which Detach is refused: FAILED (RTL5b). Elsewhere it is not refused.
pub fn detach_refused(state: ChanState) -> Option<ChanState>
    ensures { result ≡ rules.detach_refused state }
{
    match state {
        ChanState::Failed => Some(state),
        _ => None,
    }
}

/// The state with which publishing is refused: SUSPENDED or FAILED (RTL6c4). Elsewhere it is not refused; it needs
/// no attachment, and a channel that is not known is INITIALIZED.
pub fn publish_refused(state: ChanState) -> Option<ChanState>
    ensures { result ≡ rules.publish_refused state }
{
    match state {
        ChanState::Suspended | ChanState::Failed => Some(state),
        _ => None,
    }
}

/// The state with which an operation on objects is refused: DETACHED, SUSPENDED or FAILED. Elsewhere it is not
/// refused; it needs no attachment. (This project's own.)
pub fn operate_refused(state: ChanState) -> Option<ChanState>
    ensures { result ≡ rules.operate_refused state }
{
    match state {
        ChanState::Detached | ChanState::Suspended | ChanState::Failed => Some(state),
        _ => None,
    }
}

/// The state with which it is refused to enter, to update and to leave: each but ATTACHED. (This project's own,
/// where RTP8 waits.)
pub fn presence_refused(state: ChanState) -> Option<ChanState>
    ensures { result ≡ rules.presence_refused state }
{
    match state {
        ChanState::Attached => None,
        _ => Some(state),
    }
}

/// Whether Attach does anything: in ATTACHING and ATTACHED it changes nothing (RTL4a, RTL4h).
pub fn attaches(state: ChanState) -> bool
    ensures { result ≡ rules.attaches state }
{
    !matches!(state, ChanState::Attaching | ChanState::Attached)
}

/// Whether Detach does anything: in INITIALIZED, DETACHED and DETACHING it changes nothing (RTL5a, RTL5i).
pub fn detaches(state: ChanState) -> bool
    ensures { result ≡ rules.detaches state }
{
    matches!(
        state,
        ChanState::Attaching | ChanState::Attached | ChanState::Suspended
    )
}

/// Whether the channel is ATTACHED: then the entries that come are got.
pub fn is_attached(state: ChanState) -> bool
    ensures { result ≡ rules.is_attached state }
{
    matches!(state, ChanState::Attached)
}

// FRAMES SENT

/// Whether the channel attaches again once the connection stands: in ATTACHING, ATTACHED and SUSPENDED (RTL3d,
/// RTN15c6, RTN15c7).
pub fn comes_up(state: ChanState) -> bool
    ensures { result ≡ rules.comes_up state }
{
    matches!(
        state,
        ChanState::Attaching | ChanState::Attached | ChanState::Suspended
    )
}

/// Whether an ATTACH is sent with an event in this state (RTL4c, RTL13a, RTL3d), so that one answer more is owed:
/// in CONNECTED where the channel becomes ATTACHING, and where the connection stands again in ATTACHING too.
/// `connected` says whether the connection is CONNECTED.
pub fn sends_attach(connected: bool, state: ChanState, event: ChanEvent) -> bool
    ensures { result ≡ rules.sends_attach connected state event }
{
    match event {
        ChanEvent::AttachAsked => connected && attaches(state),
        ChanEvent::DetachedUnasked => connected && is_attached(state),
        ChanEvent::ConnUp => comes_up(state),
        _ => false,
    }
}

/// Whether a DETACH is sent with an event in this state (RTL5d), so that one answer more is owed: where the client
/// detaches in CONNECTED and the channel was ATTACHING or ATTACHED.
pub fn sends_detach(state: ChanState, event: ChanEvent) -> bool
    ensures { result ≡ rules.sends_detach state event }
{
    match event {
        ChanEvent::DetachAsked { connected } => connected
            && matches!(state, ChanState::Attaching | ChanState::Attached),
        _ => false,
    }
}

// WHAT IS HELD

/// Whether no channel serial is held: in DETACHED, SUSPENDED and FAILED (RTL15b1).
pub fn forgets_serial(state: ChanState) -> bool
    ensures { result ≡ rules.forgets_serial state }
{
    matches!(
        state,
        ChanState::Detached | ChanState::Suspended | ChanState::Failed
    )
}

/// Whether there are no members, own ones included, and no objects: in DETACHED and FAILED (RTP5a). In SUSPENDED
/// they are kept.
pub fn clears_channel(state: ChanState) -> bool
    ensures { result ≡ rules.clears_channel state }
{
    matches!(state, ChanState::Detached | ChanState::Failed)
}
