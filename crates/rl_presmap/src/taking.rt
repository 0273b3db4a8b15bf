// Items that are taken up. No memory is taken here: the items are ready, and there is room.
ghost use Rattle.std.specs.Prelude.{◌≡◌, ◌<◌, ◌≤◌, ◌+◌, ◌++◌, ◌∷◌, suc, take, drop, option_to_list, vec_len, insert, slice_get, Some, false};
ghost use Rattle.std.specs.Vec.{vec_capacity};
ghost use Rattle.rl_presmap.specs.declared.held.Held.{Held};
ghost use Rattle.rl_presmap.specs.Held.{AreRising, is_member, replaced_at};
ghost use Rattle.rl_presmap.specs.Steps.{is_absent, stored, told_as, told, slot_after, with_item, event_of, named};

use crate::events::PresenceEvent;
use crate::held::{Held, Standing};
use crate::newness::newer;
use crate::ready::Ready;
use crate::search::find;
use rl_types::{PresenceAction, PresenceItem};

fn is_absent(item: &PresenceItem) -> bool
    ensures { result ≡ is_absent item.now.action }
{
    matches!(item.action, PresenceAction::Absent)
}

// What an item that is taken leaves at its key.
fn stored(mut item: PresenceItem, syncing: bool) -> Option<Held>
    ensures { result ≡ stored item.action syncing item }
{
    let standing = match item.action {
        PresenceAction::Leave if !syncing => return None,
        PresenceAction::Leave => Standing::Absent,
        _ => Standing::Member,
    };
    item.action = match standing {
        Standing::Absent => PresenceAction::Absent,
        _ => PresenceAction::Present,
    };
    Some(Held { item, standing })
}

// What an item that is taken tells.
fn told(item: PresenceItem, was_member: bool) -> Option<PresenceEvent>
    ensures { result ≡ told_as item.action was_member item }
{
    match (item.action, was_member) {
        (PresenceAction::Leave, true) => Some(PresenceEvent::Left(item)),
        (PresenceAction::Leave, false) => None,
        (_, true) => Some(PresenceEvent::Updated(item)),
        (_, false) => Some(PresenceEvent::Entered(item)),
    }
}

// Puts this, where it is something, at a place. There is room.
fn place(held: &mut Vec<Held>, at: usize, slot: Option<Held>)
    requires within { at ≤ vec_len held.old }
    requires room { vec_len held.old < vec_capacity held.old }
    ensures items { held.new.items ≡ take at held.old.items ++ (option_to_list slot ++ drop at held.old.items) }
    ensures len { vec_len held.new ≤ vec_len held.old + 1 }
    ensures capacity { vec_capacity held.old ≤ vec_capacity held.new }
{
    if let Some(one) = slot {
        let _inserted = held.insert(at, one);
    }
}

// Puts this, or nothing, in the place of what is held there.
fn replace(held: &mut Vec<Held>, at: usize, slot: Option<Held>)
    requires { at < vec_len held.old }
    ensures items { held.new.items ≡ replaced_at at slot held.old.items }
    ensures len { vec_len held.new ≤ vec_len held.old }
    ensures capacity { vec_capacity held.old ≤ vec_capacity held.new }
{
    match slot {
        Some(one) => held[at] = one,
        None => {
            held.remove(at);
        }
    }
}

// Takes an item up at the place of its key, of which nothing is held.
fn take_first(held: &mut Vec<Held>, at: usize, syncing: bool, ready: Ready) -> Option<PresenceEvent>
    requires within { at ≤ vec_len held.old }
    requires room { vec_len held.old < vec_capacity held.old }
    ensures items { held.new.items ≡ take at held.old.items ++ (option_to_list (stored ready.action syncing ready) ++ drop at held.old.items) }
    ensures event { result ≡ told_as ready.action false ready }
    ensures len { vec_len held.new ≤ vec_len held.old + 1 }
    ensures capacity { vec_capacity held.old ≤ vec_capacity held.new }
{
    let (kept, item) = ready.into_parts();
    place(held, at, stored(kept, syncing));
    told(item, false)
}

// Takes an item up in place of what is held of its key, than which it is newer.
fn take_newer(held: &mut Vec<Held>, at: usize, syncing: bool, ready: Ready) -> Option<PresenceEvent>
    requires { at < vec_len held.old }
    ensures items { held.new.items ≡ replaced_at at (stored ready.action syncing ready) held.old.items }
    ensures event { (was : Held) → slice_get held.old.items at ≡ Some was → result ≡ told_as ready.action (is_member was) ready }
    ensures len { vec_len held.new ≤ vec_len held.old }
    ensures capacity { vec_capacity held.old ≤ vec_capacity held.new }
{
    let (kept, item) = ready.into_parts();
    let was_member = held[at].is_member();
    replace(held, at, stored(kept, syncing));
    told(item, was_member)
}

// An item that is not newer names what is held of its key.
fn name(held: &mut Vec<Held>, at: usize)
    requires { at < vec_len held.old }
    ensures items { (was : Held) → slice_get held.old.items at ≡ Some was → held.new.items ≡ take at held.old.items ++ (named was ∷ drop (suc at) held.old.items) }
    ensures len { vec_len held.new ≡ vec_len held.old }
    ensures capacity { vec_capacity held.new ≡ vec_capacity held.old }
{
    held[at].name();
}

// Takes an item up where something is held of its key.
fn take_again(held: &mut Vec<Held>, at: usize, syncing: bool, ready: Ready) -> Option<PresenceEvent>
    requires { at < vec_len held.old }
    ensures items { (was : Held) → slice_get held.old.items at ≡ Some was → held.new.items ≡ replaced_at at (slot_after syncing ready (Some was)) held.old.items }
    ensures event { (was : Held) → slice_get held.old.items at ≡ Some was → result ≡ told ready (Some was) }
    ensures len { vec_len held.new ≤ vec_len held.old }
    ensures capacity { vec_capacity held.old ≤ vec_capacity held.new }
{
    if newer(ready.item(), &held[at].item) {
        return take_newer(held, at, syncing, ready);
    }
    name(held, at);
    None
}

// Takes an item up, and answers what it tells. There is room for one more.
pub fn take_up(held: &mut Vec<Held>, syncing: bool, ready: Ready) -> Option<PresenceEvent>
    requires rising { AreRising held.old.items }
    requires room { vec_len held.old < vec_capacity held.old }
    ensures items { held.new.items ≡ with_item syncing ready held.old.items }
    ensures event { result ≡ event_of ready held.old.items }
    ensures len { vec_len held.new ≤ vec_len held.old + 1 }
    ensures capacity { vec_capacity held.old ≤ vec_capacity held.new }
{
    if is_absent(ready.item()) {
        return None;
    }
    match find(held.as_slice(), ready.item()) {
        Ok(at) => take_again(held, at, syncing, ready),
        Err(at) => take_first(held, at, syncing, ready),
    }
}
