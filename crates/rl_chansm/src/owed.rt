//! Answers that a channel is owed: to each ATTACH and DETACH one. The last one counts, since the others answer what
//! was asked before. (This project's own.)
ghost use Rattle.std.specs.Prelude.{◌≡◌};
ghost use Rattle.rl_chansm.specs.Owed as owed_answers;

use crate::is_attached;
use rl_types::ChanState;

/// The count after one more answer was asked for. It stands still at its type's end.
pub fn raised(owed: u64) -> u64
    ensures { result ≡ owed_answers.raised owed }
{
    owed.saturating_add(1)
}

/// The count after an answer came. At its type's end it is no count any more, and is lowered no more.
pub fn lowered(owed: u64) -> u64
    ensures { result ≡ owed_answers.lowered owed }
{
    if owed < u64::MAX {
        owed.saturating_sub(1)
    } else {
        owed
    }
}

// Whether an answer was owed, and is the last one.
fn is_last(owed: u64) -> bool
    ensures { result ≡ owed_answers.is_last owed }
{
    owed > 0 && lowered(owed) == 0
}

/// Whether ATTACHED is the answer that the state awaits: in ATTACHING (RTL4c).
pub fn awaits_attached(state: ChanState) -> bool
    ensures { result ≡ owed_answers.awaits_attached state }
{
    matches!(state, ChanState::Attaching)
}

/// Whether DETACHED is the answer that the state awaits: in DETACHING (RTL5d).
pub fn awaits_detached(state: ChanState) -> bool
    ensures { result ≡ owed_answers.awaits_detached state }
{
    matches!(state, ChanState::Detaching)
}

// Whether an ERROR that names the channel makes it FAILED.
fn takes_errors(state: ChanState) -> bool
    ensures { result ≡ owed_answers.takes_errors state }
{
    matches!(
        state,
        ChanState::Attaching | ChanState::Attached | ChanState::Detaching
    )
}

/// Whether an ATTACHED is the answer that the channel awaits, where so many are owed before it: the last one in
/// ATTACHING (RTL4c).
pub fn takes_attached(owed: u64, state: ChanState) -> bool
    ensures { result ≡ owed_answers.takes_attached owed state }
{
    is_last(owed) && awaits_attached(state)
}

/// Whether a DETACHED is the answer that the channel awaits, where so many are owed before it: the last one in
/// DETACHING (RTL5d).
pub fn takes_detached(owed: u64, state: ChanState) -> bool
    ensures { result ≡ owed_answers.takes_detached owed state }
{
    is_last(owed) && awaits_detached(state)
}

/// Whether an ERROR that names the channel makes it FAILED, where so many answers are owed before it: in ATTACHING,
/// ATTACHED and DETACHING, where none is owed after it (RTL14). It need not be an answer itself.
pub fn takes_error(owed: u64, state: ChanState) -> bool
    ensures { result ≡ owed_answers.takes_error owed state }
{
    lowered(owed) == 0 && takes_errors(state)
}

/// Whether an ATTACHED or DETACHED counts though nobody asked for it: none is owed before it, and the channel is
/// ATTACHED (RTL12, RTL13a).
pub fn takes_unasked(owed: u64, state: ChanState) -> bool
    ensures { result ≡ owed_answers.takes_unasked owed state }
{
    owed == 0 && is_attached(state)
}
