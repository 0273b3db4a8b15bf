// What one item makes of the members, and how it is taken back. No memory is taken here: the members are ready, and
// there is room.
ghost use Rattle.std.specs.Prelude.{◌≡◌, ◌≤◌, ◌<◌, ◌+◌, ℕ, true, not, filter, reverse, insert, remove, slice_set, vec_len};
ghost use Rattle.std.specs.List.{list_any};
ghost use Rattle.std.specs.Vec.{vec_capacity};
ghost use Rattle.rl_model.specs.Members.{enters, is_of};
ghost use Rattle.rl_members.specs.Held.{with_member, with_item, key_at, IsRising};
ghost use Rattle.rl_members.specs.Changes.{removes, undone, all_undone, IsUndoable, AreUndoable};

use crate::member::Member;
use crate::search::{find, find_of};
use rl_ids::Text;
use rl_types::PresenceAction;
use std::mem;

// What one item made of the members that are held, and what is wanted to take it back.
#[derive(Drop)]
pub enum Change {
    Nothing,
    // A member was added at this place.
    Added(usize),
    // At this place there was this member before.
    Replaced(usize, Member),
    // This member stood at this place.
    Removed(usize, Member),
}

impl Change {
    // Whether a member was removed.
    pub fn removes(&self) -> bool
        ensures { result ≡ removes self.now }
    {
        matches!(self, Change::Removed(..))
    }
}

fn enters(action: PresenceAction) -> bool
    ensures { result ≡ enters action }
{
    matches!(action, PresenceAction::Enter | PresenceAction::Update)
}

// Puts a member in place of the one at this place.
fn replace(held: &mut Vec<Member>, at: usize, member: Member) -> Change
    requires { at < vec_len held.old }
    ensures items { held.new.items ≡ slice_set held.old.items at member }
    ensures undone { undone result held.new.items ≡ held.old.items }
    ensures undoable { (room : ℕ) → IsUndoable room result held.new.items }
    ensures len { vec_len held.new ≡ vec_len held.old }
    ensures capacity { vec_capacity held.old ≤ vec_capacity held.new }
{
    Change::Replaced(at, mem::replace(&mut held[at], member))
}

// Puts a member at this place, and moves the later ones.
fn place(held: &mut Vec<Member>, at: usize, member: Member)
    requires within { at ≤ vec_len held.old }
    requires room { vec_len held.old < vec_capacity held.old }
    ensures items { held.new.items ≡ insert held.old.items at member }
    ensures len { vec_len held.new ≡ vec_len held.old + 1 }
    ensures capacity { vec_capacity held.old ≤ vec_capacity held.new }
{
    // There is room, so it succeeds.
    let _inserted = held.insert(at, member);
}

// Adds a member at this place.
fn add(held: &mut Vec<Member>, at: usize, member: Member) -> Change
    requires within { at ≤ vec_len held.old }
    requires room { vec_len held.old < vec_capacity held.old }
    ensures items { held.new.items ≡ insert held.old.items at member }
    ensures undone { undone result held.new.items ≡ held.old.items }
    ensures undoable { (room : ℕ) → IsUndoable room result held.new.items }
    ensures len { vec_len held.new ≡ vec_len held.old + 1 }
    ensures capacity { vec_capacity held.old ≤ vec_capacity held.new }
{
    place(held, at, member);
    Change::Added(at)
}

// Takes the member at this place out, and moves the later ones.
fn remove(held: &mut Vec<Member>, at: usize) -> Change
    requires { at < vec_len held.old }
    ensures items { held.new.items ≡ remove held.old.items at }
    ensures undone { undone result held.new.items ≡ held.old.items }
    ensures undoable { (room : ℕ) → vec_len held.old ≤ room → IsUndoable room result held.new.items }
    ensures removes { removes result ≡ true }
    ensures len { vec_len held.new ≤ vec_len held.old }
    ensures capacity { vec_capacity held.old ≤ vec_capacity held.new }
{
    Change::Removed(at, held.remove(at))
}

// Puts a member in place of its key's, or among the others, in order.
pub fn put(held: &mut Vec<Member>, member: Member) -> Change
    requires rising { IsRising held.old.items }
    requires room { vec_len held.old < vec_capacity held.old }
    ensures items { held.new.items ≡ with_member member held.old.items }
    ensures undone { undone result held.new.items ≡ held.old.items }
    ensures undoable { (room : ℕ) → IsUndoable room result held.new.items }
    ensures len { vec_len held.new ≤ vec_len held.old + 1 }
    ensures capacity { vec_capacity held.old ≤ vec_capacity held.new }
{
    match find_of(held.as_slice(), &member) {
        Ok(at) => replace(held, at, member),
        Err(at) => add(held, at, member),
    }
}

// Takes the member of the key of these texts out, where there is one.
pub fn take_out(held: &mut Vec<Member>, conn: &Text, client: &Text) -> Change
    requires rising { IsRising held.old.items }
    ensures items { held.new.items ≡ filter (λ item. not (is_of (key_at conn.now client.now) item)) held.old.items }
    ensures removes { removes result ≡ list_any (is_of (key_at conn.now client.now)) held.old.items }
    ensures undone { undone result held.new.items ≡ held.old.items }
    ensures undoable { (room : ℕ) → vec_len held.old ≤ room → IsUndoable room result held.new.items }
    ensures len { vec_len held.new ≤ vec_len held.old }
    ensures capacity { vec_capacity held.old ≤ vec_capacity held.new }
{
    match find(held.as_slice(), conn, client) {
        Ok(at) => remove(held, at),
        Err(_) => Change::Nothing,
    }
}

// Takes an item up: one that enters is put in, and of another the key's member is taken out.
pub fn take_up(held: &mut Vec<Member>, one: Member) -> Change
    requires rising { IsRising held.old.items }
    requires room { vec_len held.old < vec_capacity held.old }
    ensures items { held.new.items ≡ with_item one held.old.items }
    ensures undone { undone result held.new.items ≡ held.old.items }
    ensures undoable { (room : ℕ) → vec_len held.old ≤ room → IsUndoable room result held.new.items }
    ensures len { vec_len held.new ≤ vec_len held.old + 1 }
    ensures capacity { vec_capacity held.old ≤ vec_capacity held.new }
{
    let item = one.item();
    if enters(item.action) {
        return put(held, one);
    }
    take_out(held, &item.conn, &item.client)
}

// Takes a change back.
fn take_back(held: &mut Vec<Member>, change: Change)
    requires { IsUndoable (vec_capacity held.old) change held.old.items }
    ensures items { held.new.items ≡ undone change held.old.items }
    ensures capacity { vec_capacity held.old ≤ vec_capacity held.new }
{
    match change {
        Change::Nothing => {}
        Change::Added(at) => {
            held.remove(at);
        }
        Change::Replaced(at, was) => held[at] = was,
        Change::Removed(at, was) => place(held, at, was),
    }
}

// Takes these changes back, of which the first is the earliest.
pub fn take_all_back(held: &mut Vec<Member>, changes: Vec<Change>)
    requires { AreUndoable (vec_capacity held.old) (reverse changes.items) held.old.items }
    ensures { held.new.items ≡ all_undone (reverse changes.items) held.old.items }
{
    let mut left = changes;
    while let Some(change) = left.pop() {
        take_back(held, change);
    }
}
