// Syncs that end, and members that all leave. No memory is taken here.
ghost use Rattle.std.specs.Prelude.{◌≡◌, ◌<◌, ◌≤◌, ◌+◌, ◌++◌, ◌∷◌, [], filter, vec_len};
ghost use Rattle.rl_presmap.specs.Held.{is_member};
ghost use Rattle.rl_presmap.specs.Steps.{all_plain, end_events, leaves};

use crate::events::PresenceEvent;
use crate::held::{Held, Standing};
use rl_base::RoomyList;
use std::alloc::Global;
use std::mem;

// Keeps one where it was named, or tells that it left.
fn keep_or_tell(one: Held, kept: &mut RoomyList<Held>, events: &mut RoomyList<PresenceEvent>)
    requires kept_room { 0 < kept.old.1 }
    requires events_room { 0 < events.old.1 }
    ensures kept { kept.new.0 ≡ kept.old.0 ++ all_plain (one ∷ []) }
    ensures events { events.new.0 ≡ events.old.0 ++ end_events (one ∷ []) }
    ensures kept_left { kept.old.1 ≤ kept.new.1 + 1 }
    ensures events_left { events.old.1 ≤ events.new.1 + 1 }
{
    match one.standing {
        Standing::Member => kept.push(one),
        Standing::Residual => events.push(PresenceEvent::Left(one.item)),
        Standing::Absent => {}
    }
}

// Those that were named. There is room for them, and to tell of all others.
fn named_of(
    held: Vec<Held>,
    kept: RoomyList<Held>,
    events: &mut RoomyList<PresenceEvent>,
) -> Vec<Held>
    requires none { kept.0 ≡ [] }
    requires kept_room { vec_len held ≤ kept.1 }
    requires events_room { vec_len held ≤ events.old.1 }
    ensures kept { result.items ≡ all_plain held.items }
    ensures events { events.new.0 ≡ events.old.0 ++ end_events held.items }
{
    let mut kept = kept;
    for one in held {
        keep_or_tell(one, &mut kept, events);
    }
    kept.into_list().into_vec()
}

// A sync ends. There is room for those that stay, and to tell of those that leave.
pub fn end(
    alloc: Global,
    held: &mut Vec<Held>,
    kept: RoomyList<Held>,
    events: &mut RoomyList<PresenceEvent>,
)
    requires none { kept.0 ≡ [] }
    requires kept_room { vec_len held.old ≤ kept.1 }
    requires events_room { vec_len held.old ≤ events.old.1 }
    ensures kept { held.new.items ≡ all_plain held.old.items }
    ensures events { events.new.0 ≡ events.old.0 ++ end_events held.old.items }
{
    let all = mem::replace(held, Vec::new(alloc));
    *held = named_of(all, kept, events);
}

// Tells that one left, where it was a member.
fn leave(one: Held, events: &mut RoomyList<PresenceEvent>)
    requires { 0 < events.old.1 }
    ensures events { events.new.0 ≡ events.old.0 ++ leaves (filter is_member (one ∷ [])) }
    ensures left { events.old.1 ≤ events.new.1 + 1 }
{
    if one.is_member() {
        events.push(PresenceEvent::Left(one.item));
    }
}

// Tells that all members left.
pub fn all_leave(held: Vec<Held>, events: &mut RoomyList<PresenceEvent>)
    requires { vec_len held ≤ events.old.1 }
    ensures { events.new.0 ≡ events.old.0 ++ leaves (filter is_member held.items) }
{
    for one in held {
        leave(one, events);
    }
}
