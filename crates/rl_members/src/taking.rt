// Items that are taken up, one after another, or none of them. No memory is taken here.
ghost use Rattle.std.specs.Prelude.{◌≡◌, ◌≤◌, ◌+◌, [], length, nat_lt, not, vec_len, if◌then◌else◌};
ghost use Rattle.std.specs.Vec.{vec_capacity};
ghost use Rattle.rl_members.specs.Held.{with_items, outgrows, IsRising};

use crate::changes::{Change, take_all_back, take_up};
use crate::member::Member;
use rl_ids::List;
use rl_numbers::limits::MAX_MEMBERS;

// Whether more members are held than may stand.
fn are_too_many(held: &[Member]) -> bool
    ensures { result ≡ nat_lt MAX_MEMBERS (length held.now) }
{
    held.len() > MAX_MEMBERS
}

// Takes items up, one after another; or, where more stand after one of them than may, none of them. What was taken up
// by then is taken back. There is room for all, and for what is wanted to take them back.
pub fn take_all(held: &mut Vec<Member>, ready: List<Member>, changes: Vec<Change>) -> bool
    requires rising { IsRising held.old.items }
    requires room { vec_len held.old + length ready ≤ vec_capacity held.old }
    requires none { changes.items ≡ [] }
    requires changes_room { length ready ≤ vec_capacity changes }
    ensures verdict { result ≡ not (outgrows held.old.items ready) }
    ensures items { held.new.items ≡ (if result then with_items ready held.old.items else held.old.items) }
    ensures rising { IsRising held.new.items }
{
    let mut changes = changes;
    for one in ready.into_vec() {
        changes.push_reserved(take_up(held, one));
        if are_too_many(held.as_slice()) {
            take_all_back(held, changes);
            return false;
        }
    }
    true
}
