ghost use Rattle.std.specs.Prelude.{◌≡◌, IfOk};

use rl_ids::{Copied, List, NoMemory};
use rl_types::PresenceItem;
use std::alloc::Global;
use std::marker::Model;

/// A member that is held. Its item has a place of its own in memory, so where members move to make room for one, a word
/// is moved for each. A contract sees it as the item.
#[derive(Drop)]
pub struct Member {
    item: Box<PresenceItem>,
}

impl Model for Member {
    ghost use Rattle.rl_types.specs.declared.presence.PresenceItem.{PresenceItem};

    ghost Value = { PresenceItem };

    ghost view = { λ m. m.item.value };
}

impl Member {
    /// A copy of the item, to be held.
    pub fn of(alloc: Global, item: &PresenceItem) -> Result<Member, NoMemory>
        ensures { IfOk result (λ member. member ≡ item.now) }
    {
        Ok(Member {
            item: Box::new(alloc, item.copy(alloc)?)?,
        })
    }

    pub fn item(&self) -> &PresenceItem
        ensures { result.now ≡ self.now }
    {
        &self.item
    }
}

/// Copies of these items, to be held, in order.
pub fn all_ready(alloc: Global, items: &[PresenceItem]) -> Result<List<Member>, NoMemory>
    ensures { IfOk result (λ ready. ready ≡ items.now) }
{
    let mut ready = List::new(alloc);
    for item in items {
        ready.push(Member::of(alloc, item)?)?;
    }
    Ok(ready)
}
