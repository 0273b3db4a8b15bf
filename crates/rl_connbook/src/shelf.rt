ghost use Rattle.std.specs.Prelude.{◌≡◌, [], length, None, OnOk, OnErr};
ghost use Rattle.std.specs.Borrow.{sem};
ghost use Rattle.std.specs.Option.{option_copied, option_copied_mut};
ghost use Rattle.std.specs.List.Sorted.{IsStrictlySortedBy};
ghost use Rattle.std.specs.Map.{keys_of, lookup, remove_entry};
ghost use Rattle.std.specs.BTreeMap.{is_at, insert_entry};
ghost use Rattle.std.specs.Ordering.{nat_cmp};
ghost use Rattle.rl_connbook.specs.Lends.{lends_get};

use rl_ids::NoMemory;
use slab::Slab;
use std::alloc::Global;
use std::collections::BTreeMap;
use std::marker::Model;

// Values under numbers. A contract sees it as the pairs of a number and its value, in order of number.
//
// A value stands in a slot of a slab, and a map leads from its number to the slot. With n values, each call but
// `new` and `len` searches the map once, in steps of about the logarithm of n; beside that it takes a time that
// does not grow with n, save where the slab grows.
#[derive(Drop)]
pub struct Shelf<T> {
    index: BTreeMap<u32, usize>,
    slots: Slab<T>,
}

impl<T> Model for Shelf<T> {
    ghost use Rattle.std.specs.Prelude.{List, ℕ};
    ghost use Rattle.std.specs.Coded.{coded_list, coded×, coded_ℕ};
    ghost use Rattle.slab.specs.Slab.{get};
    ghost use Rattle.rl_connbook.specs.Shelf.{joined, IsShelved};

    ghost Value = { List (ℕ × T) };

    ghost coded = { coded_list (coded× coded_ℕ T.code) };

    ghost view = { λ s. joined s.index.entries (get s.slots) };

    ghost invariant = { λ s. IsShelved s.index.entries s.slots };
}

impl<T> Shelf<T> {
    pub fn new(alloc: Global) -> Shelf<T>
        ensures { result ≡ [] }
    {
        Shelf {
            index: BTreeMap::new(alloc),
            slots: Slab::new(alloc),
        }
    }

    // How many values it has.
    pub fn len(&self) -> usize
        ensures { result ≡ length self.now }
    {
        self.index.len()
    }

    // The value of a number.
    pub fn get(&self, number: u32) -> Option<&T>
        ensures { option_copied result ≡ lookup (is_at (nat_cmp number)) self.now }
    {
        let slot = self.index.get(&number)?;
        self.slots.get(*slot)
    }

    // The value of a number, for writing.
    pub fn get_mut(&mut self, number: u32) -> Option<&mut T>
        ensures* writes_back { sem 𝓛 (lends_get T.row self.entry number result) }
        ensures value { option_copied_mut result ≡ lookup (is_at (nat_cmp number)) self.old }
        ensures ordered { IsStrictlySortedBy nat_cmp (keys_of self.old) }
    {
        let slot = *self.index.get(&number)?;
        self.slots.get_mut(slot)
    }
}

impl<T: Drop> Shelf<T> {
    // Gives a new number a value. All memory is taken before the first change; after `NoMemory` all is as before.
    pub fn insert(&mut self, number: u32, value: T) -> Result<(), NoMemory>
        requires { lookup (is_at (nat_cmp number)) self.old ≡ None }
        ensures ok { OnOk result (self.new ≡ insert_entry nat_cmp self.old number value) }
        ensures err { OnErr result (self.new ≡ self.old) }
    {
        self.slots.reserve(1)?;
        let slot = self.slots.vacant_key();
        self.index.insert(number, slot)?;
        self.slots.insert_reserved(value);
        Ok(())
    }

    // Takes a number and its value away.
    pub fn remove(&mut self, number: u32)
        ensures { self.new ≡ remove_entry (is_at (nat_cmp number)) self.old }
    {
        if let Some(slot) = self.index.remove(&number) {
            self.slots.remove(slot);
        }
    }
}
