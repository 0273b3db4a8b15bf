ghost use Rattle.std.specs.Prelude.{◌≡◌, IfOk};

use rl_ids::{Copied, List, NoMemory};
use rl_types::PresenceItem;
use std::alloc::Global;
use std::marker::Model;

/// An item with the memory that it may take: one copy of it to be held, and one to be told. A contract sees it as the
/// item.
#[derive(Drop)]
pub struct Ready {
    kept: PresenceItem,
    told: PresenceItem,
}

impl Model for Ready {
    ghost use Rattle.std.specs.Prelude.{◌≡◌};
    ghost use Rattle.rl_types.specs.declared.presence.PresenceItem.{PresenceItem};

    ghost Value = { PresenceItem };

    ghost view = { λ r. r.told };

    ghost invariant = { λ r. r.kept ≡ r.told };
}

impl Ready {
    pub fn of(alloc: Global, item: &PresenceItem) -> Result<Ready, NoMemory>
        ensures { IfOk result (λ ready. ready ≡ item.now) }
    {
        Ok(Ready {
            kept: item.copy(alloc)?,
            told: item.copy(alloc)?,
        })
    }

    pub fn item(&self) -> &PresenceItem
        ensures { result.now ≡ self.now }
    {
        &self.told
    }

    /// The item to be held, and the one to be told.
    pub fn into_parts(self) -> (PresenceItem, PresenceItem)
        ensures kept { result.0 ≡ self }
        ensures told { result.1 ≡ self }
    {
        let Ready { kept, told } = self;
        (kept, told)
    }
}

/// These items, in order.
pub fn all_ready(alloc: Global, items: &[PresenceItem]) -> Result<List<Ready>, NoMemory>
    ensures { IfOk result (λ ready. ready ≡ items.now) }
{
    let mut ready = List::new(alloc);
    for item in items {
        ready.push(Ready::of(alloc, item)?)?;
    }
    Ok(ready)
}
