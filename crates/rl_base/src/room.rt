ghost use Rattle.std.specs.Prelude.{◌≡◌, ◌+◌, ◌-◌, ◌≤◌, ◌<◌, ◌++◌, [], ◌∷◌, OnOk, OnErr};

use crate::{List, NoMemory};
use std::marker::Model;

/// A list for which room is made ahead, so that items can be pushed to it that then take no memory. A
/// contract sees it as the list of its items, and how many more there is room for.
///
/// A list is taken into it and given back without memory: where several things must all be done or none,
/// take the list out, [`RoomyList::reserve`], do what may fail, push, and put the list back.
#[derive(Debug, Drop)]
pub struct RoomyList<T> {
    items: Vec<T>,
}

impl<T> Model for RoomyList<T> {
    ghost use Rattle.std.specs.Prelude.{List, ℕ, ◌-◌};
    ghost use Rattle.std.specs.Coded.{coded_list, coded×, coded_ℕ};
    ghost use Rattle.std.specs.Vec.{vec_capacity, vec_len};

    ghost Value = { List T × ℕ };

    ghost coded = { coded× (coded_list T.code) coded_ℕ };

    ghost view = { λ l. (l.items.items, vec_capacity l.items - vec_len l.items) };
}

impl<T> RoomyList<T> {
    pub fn from_list(list: List<T>) -> RoomyList<T>
        ensures { result.0 ≡ list }
    {
        RoomyList {
            items: list.into_vec(),
        }
    }

    pub fn into_list(self) -> List<T>
        ensures { result ≡ self.0 }
    {
        let RoomyList { items } = self;
        List::from_vec(items)
    }

    /// Makes room for so many more items.
    pub fn reserve(&mut self, more: usize) -> Result<(), NoMemory>
        ensures items { self.new.0 ≡ self.old.0 }
        ensures ok { OnOk result (more ≤ self.new.1) }
    {
        self.items.reserve(more)?;
        Ok(())
    }
}

impl<T: Drop> RoomyList<T> {
    /// Appends an item for which there is room. It takes no memory.
    pub fn push(&mut self, item: T)
        requires { 0 < self.old.1 }
        ensures items { self.new.0 ≡ self.old.0 ++ item ∷ [] }
        ensures room { self.new.1 + 1 ≡ self.old.1 }
    {
        self.items.push_reserved(item);
    }
}
