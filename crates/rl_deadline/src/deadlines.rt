ghost use Rattle.std.specs.Prelude.{◌≡◌, [], Some, IsSome, None, IfOk, OnOk, OnErr, IsOk};
ghost use Rattle.std.specs.Ordering.{nat_cmp};
ghost use Rattle.std.specs.Map.{lookup, remove_entry};
ghost use Rattle.std.specs.BTreeMap.{is_at, insert_entry};
ghost use Rattle.rl_deadline.specs.Order.{due};

use crate::order::{forget, put_in, take_out};
use rl_ids::{List, Moment, NoMemory};
use std::alloc::Global;
use std::collections::BTreeMap;
use std::marker::Model;

/// Keys, each with a moment. A contract sees them as the pairs of a key and its moment, in order of key.
/// (This project's own.)
///
/// With n keys, [`set`](Deadlines::set) and [`cancel`](Deadlines::cancel) search in steps of about the logarithm of n
/// and then shift at most n pairs of 16 bytes, in one move of memory; [`due`](Deadlines::due) looks at the keys that
/// are due and at one more.
#[derive(Drop)]
pub struct Deadlines {
    moments: BTreeMap<u32, u64>,
    // the same, as pairs of moment and key, in order
    order: Vec<(u64, u32)>,
}

impl Model for Deadlines {
    ghost use Rattle.std.specs.Prelude.{◌≡◌, List, ℕ};
    ghost use Rattle.rl_deadline.specs.Order.{in_order};

    ghost Value = { List (ℕ × ℕ) };

    ghost view = { λ d. d.moments.entries };

    ghost invariant = { λ d. d.order.items ≡ in_order d.moments.entries };
}

impl Deadlines {
    /// No deadlines. They take no memory.
    pub fn new(alloc: Global) -> Deadlines
        ensures { result ≡ [] }
    {
        Deadlines {
            moments: BTreeMap::new(alloc),
            order: Vec::new(alloc),
        }
    }

    /// Gives a key this moment. Where the key is there, its moment is replaced, which takes no memory and is
    /// always answered Ok.
    ///
    /// `NoMemory` comes only for a new key; all is then as before.
    pub fn set(&mut self, key: u32, at: Moment) -> Result<(), NoMemory>
        ensures ok { OnOk result (self.new ≡ insert_entry nat_cmp self.old key at) }
        ensures err { OnErr result (self.new ≡ self.old) }
        ensures known { IsSome (lookup (is_at (nat_cmp key)) self.old) → IsOk result }
    {
        let known = self.moments.get(&key).copied();
        forget(&mut self.order, known, key);
        if put_in(&mut self.order, (at.0, key)).is_err() {
            return Err(NoMemory);
        }
        if self.moments.insert(key, at.0).is_err() {
            take_out(&mut self.order, (at.0, key));
            return Err(NoMemory);
        }
        Ok(())
    }

    /// Takes a key away. Where it is not there, nothing changes. It takes no memory.
    pub fn cancel(&mut self, key: u32)
        ensures { self.new ≡ remove_entry (is_at (nat_cmp key)) self.old }
    {
        let known = self.moments.remove(&key);
        forget(&mut self.order, known, key);
    }

    /// The keys whose moment is at most `now`, in order of moment, then key.
    pub fn due(&self, alloc: Global, now: Moment) -> Result<List<u32>, NoMemory>
        ensures { IfOk result (λ keys. keys ≡ due now self.now) }
    {
        let mut keys = List::new(alloc);
        for deadline in self.order.as_slice() {
            if now.0 < deadline.0 {
                return Ok(keys);
            }
            keys.push(deadline.1)?;
        }
        Ok(keys)
    }
}
