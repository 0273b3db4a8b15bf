// Syncs that open, and the items of their pages. No memory is taken here.
ghost use Rattle.std.specs.Prelude.{◌≡◌, ◌<◌, ◌≤◌, ◌+◌, ◌++◌, length, map, filter, option_to_list, vec_len, if◌then◌else◌};
ghost use Rattle.std.specs.Option.{option_copied};
ghost use Rattle.std.specs.Vec.{vec_capacity};
ghost use Rattle.rl_presmap.specs.declared.held.Standing.TheVariants as standing;
ghost use Rattle.rl_presmap.specs.Held.{AreRising};
ghost use Rattle.rl_presmap.specs.Steps.{with_each, with_item, with_items, events_of, held_as, all_residual, goes_on, ends_sync};

use crate::events::PresenceEvent;
use crate::held::{Held, Standing, SyncState};
use crate::ready::Ready;
use crate::taking::take_up;
use rl_base::RoomyList;
use rl_ids::List;
use rl_types::Cursor;

// Whether a SYNC frame with this cursor goes on in the sync that is open.
pub fn goes_on(sync: &SyncState, at: Option<&Cursor>) -> bool
    ensures { result ≡ goes_on sync.now (option_copied at.entry) }
{
    match (sync, at) {
        (SyncState::Closed, _) => false,
        (SyncState::Numbered(sequence), Some(at)) => sequence.as_str() == at.sequence.as_str(),
        _ => true,
    }
}

// Makes all that is held residual.
fn mark(held: &mut Vec<Held>)
    ensures items { held.new.items ≡ map (λ one. held_as standing.Residual one.item) held.old.items }
    ensures len { vec_len held.new ≡ vec_len held.old }
    ensures capacity { vec_capacity held.new ≡ vec_capacity held.old }
{
    for one in held.iter_mut() {
        one.standing = Standing::Residual;
    }
}

// A sync opens.
pub fn open(held: &mut Vec<Held>)
    ensures items { held.new.items ≡ all_residual held.old.items }
    ensures len { vec_len held.new ≤ vec_len held.old }
    ensures capacity { vec_capacity held.new ≡ vec_capacity held.old }
{
    held.retain(|one| one.is_member());
    mark(held);
}

// A SYNC frame begins: it goes on in the sync that is open, or opens one.
pub fn begin(held: &mut Vec<Held>, goes_on: bool)
    ensures items { held.new.items ≡ (if goes_on then held.old.items else all_residual held.old.items) }
    ensures len { vec_len held.new ≤ vec_len held.old }
    ensures capacity { vec_capacity held.new ≡ vec_capacity held.old }
{
    if !goes_on {
        open(held);
    }
}

// Takes an item up, whatever it tells. There is room for one more.
fn take_one(held: &mut Vec<Held>, syncing: bool, ready: Ready)
    requires rising { AreRising held.old.items }
    requires room { vec_len held.old < vec_capacity held.old }
    ensures items { held.new.items ≡ with_item syncing ready held.old.items }
    ensures len { vec_len held.new ≤ vec_len held.old + 1 }
    ensures capacity { vec_capacity held.old ≤ vec_capacity held.new }
{
    take_up(held, syncing, ready);
}

// Takes items up, in order. There is room for all.
pub fn take_each(held: &mut Vec<Held>, syncing: bool, ready: List<Ready>)
    requires rising { AreRising held.old.items }
    requires room { vec_len held.old + length ready ≤ vec_capacity held.old }
    ensures { held.new.items ≡ with_each syncing ready held.old.items }
{
    for one in ready.into_vec() {
        take_one(held, syncing, one);
    }
}

// Tells this, where it is something. There is room.
fn tell(events: &mut RoomyList<PresenceEvent>, event: Option<PresenceEvent>)
    requires { 0 < events.old.1 }
    ensures items { events.new.0 ≡ events.old.0 ++ option_to_list event }
    ensures room { events.old.1 ≤ events.new.1 + 1 }
{
    if let Some(event) = event {
        events.push(event);
    }
}

// Takes the items of a page up, in order, and tells what they tell. There is room for all.
pub fn take_all(held: &mut Vec<Held>, ready: List<Ready>, events: &mut RoomyList<PresenceEvent>)
    requires rising { AreRising held.old.items }
    requires room { vec_len held.old + length ready ≤ vec_capacity held.old }
    requires events_room { length ready ≤ events.old.1 }
    ensures items { held.new.items ≡ with_items ready held.old.items }
    ensures events { events.new.0 ≡ events.old.0 ++ events_of ready held.old.items }
    ensures len { vec_len held.new ≤ vec_len held.old + length ready }
    ensures left { events.old.1 ≤ events.new.1 + length ready }
{
    for one in ready.into_vec() {
        tell(events, take_up(held, true, one));
    }
}
