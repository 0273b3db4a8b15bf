// Copies of what is held, and room.
ghost use Rattle.std.specs.Prelude.{◌≡◌, ◌≤◌, ◌+◌, [], filter, map, IfOk};
ghost use Rattle.rl_presmap.specs.Held.{is_member};

use crate::held::Held;
use rl_base::RoomyList;
use rl_ids::{Copied, List, NoMemory};
use rl_types::PresenceItem;
use std::alloc::Global;

// The members among these, in order.
pub fn members_of(alloc: Global, held: &[Held]) -> Result<List<PresenceItem>, NoMemory>
    ensures { IfOk result (λ members. members ≡ map (λ one. one.item) (filter is_member held.now)) }
{
    let mut members = List::new(alloc);
    for one in held {
        if one.is_member() {
            members.push(one.item.copy(alloc)?)?;
        }
    }
    Ok(members)
}

// The same again.
pub fn copy_all(alloc: Global, held: &[Held]) -> Result<Vec<Held>, NoMemory>
    ensures { IfOk result (λ made. made.items ≡ held.now) }
{
    let mut made = Vec::new(alloc);
    for one in held {
        made.push(one.copy(alloc)?)?;
    }
    Ok(made)
}

// An empty list with room for so many.
pub fn room_for<T: Drop>(alloc: Global, count: usize) -> Result<RoomyList<T>, NoMemory>
    ensures none { IfOk result (λ list. list.0 ≡ []) }
    ensures room { IfOk result (λ list. count ≤ list.1) }
{
    let mut list = RoomyList::from_list(List::new(alloc));
    list.reserve(count)?;
    Ok(list)
}

// The sum, where it is not too great for a list.
pub fn sum(one: usize, other: usize) -> Result<usize, NoMemory>
    ensures { IfOk result (λ both. both ≡ one + other) }
{
    one.checked_add(other).ok_or(NoMemory)
}
