ghost use Rattle.std.specs.Prelude.{◌≡◌, ◌↔◌, ℕ, [], ◌∷◌, length, IfOk, IsTrue, OnOk, OnErr};
ghost use Rattle.std.specs.Option.{option_copied};
ghost use Rattle.rl_objmodel.specs.Held.{bare_root};
ghost use Rattle.rl_objmodel.specs.Rules.{Setting};
ghost use Rattle.rl_objmodel.specs.Steps.{collected, is_bare, live_states, pool_after, pool_ops_rule, pool_outcomes, replaced, states};
ghost use Rattle.rl_pool.specs.Admitting.{admitted_rule, IsAdmittedOr};
ghost use Rattle.rl_pool.specs.Checks.{AreBelow};
ghost use Rattle.rl_objrules.specs.Loads.{HasRoot};
ghost use Rattle.rl_pool.specs.Pools.{is_last_page, page_states};

use crate::admitting::admit_ops;
use crate::applying::apply_ops;
use crate::checking::{check_all, unnumbered_shelf};
use crate::collecting::collect;
use crate::live::live;
use crate::pages::{first_states, is_bare, show_same};
use crate::telling::told;
use rl_ids::{Copied, List, Moment, NoMemory, ObjectId, read_site};
use rl_object::Object;
use rl_objmodel::Applied;
use rl_objrules::{Shelf, past, shelf_of};
use rl_types::{ObjectOp, ObjectState};
use std::alloc::Global;
use std::marker::Model;

/// The objects of a channel, or of a client's view of it (RTO3): the root, maps, counters and tombstones. A contract
/// sees them as the list of these, in order of id, each as it is held (`Held` of `rl_objmodel`).
///
/// With n objects, a search looks at about log n ids. How many cells there are and what all weighs is kept, and never
/// counted anew by [`Pool::admit`] and [`Pool::apply`]: one operation costs about what it costs in an empty pool.
#[derive(Drop)]
pub struct Pool {
    // in order of id, which rises from each to the next, beside their load
    shelf: Shelf,
}

impl Model for Pool {
    ghost use Rattle.std.specs.Prelude.{List};
    ghost use Rattle.rl_objmodel.specs.Held.{Held};
    ghost use Rattle.rl_objrules.specs.Loads.{IsSound};

    ghost Value = { List Held };

    ghost view = { λ p. p.shelf.objects };

    ghost invariant = { λ p. IsSound p.shelf };
}

impl Pool {
    /// A pool with an empty root alone. `NoMemory` comes where there is no memory.
    pub fn new(alloc: Global) -> Result<Pool, NoMemory>
        ensures { IfOk result (λ pool. pool ≡ bare_root ∷ []) }
    {
        let mut objects = List::new(alloc);
        objects.push(Object::bare_root(alloc)?)?;
        Ok(Pool {
            shelf: shelf_of(objects)?,
        })
    }

    /// The code of the first rule that operations break, as they would enter at the moment `clock`, or `None` where they
    /// break none: each is judged against the objects as they are after the earlier ones, as the newest of all that
    /// they have seen. (The rules are this project's own.)
    ///
    /// - [`TOO_LONG`](rl_numbers::codes::TOO_LONG): a key, a text or bytes are longer than 1,024 bytes.
    /// - Of a create `WRONG_KIND` where its id is the root or of the other kind, `DUPLICATE_OBJECT` where the id's
    ///   object is there, a tombstone too, and `STALE_ID` where its moment is more than 600,000 from the clock.
    /// - Of another operation `UNKNOWN_OBJECT` where its object is not there, `TOMBSTONED` where it is a tombstone, and
    ///   `WRONG_KIND` where it is of the other kind, or is the root that would be deleted.
    /// - Of each reference in order `UNKNOWN_OBJECT`, then `TOMBSTONED`.
    /// - `RANGE`: a number, a count, an amount or a counter's sum is past plus or minus 2^53 - 1.
    /// - `POOL_LIMIT`: with it there would be too many objects or cells, or too much weight.
    ///
    /// `NoMemory` comes where there is no memory. The pool is copied for it.
    pub fn check(
        &self,
        alloc: Global,
        ops: &List<ObjectOp>,
        clock: Moment,
    ) -> Result<Option<u32>, NoMemory>
        ensures { IfOk result (λ code. (setting : Setting) → (place : ℕ) → setting.now ≡ clock → AreBelow place self.now → code ≡ pool_ops_rule setting place 0 self.now ops.now) }
    {
        let site = read_site("a").ok_or(NoMemory)?;
        let mut made = unnumbered_shelf(alloc, &self.shelf)?;
        check_all(alloc, &mut made, ops.as_slice(), &site, clock)
    }

    /// Admits operations that have their serials, as they enter at the moment `now`: each is judged, by the rules that
    /// [`Pool::check`] tells, against the objects as the earlier ones left them, and applied where it breaks none.
    ///
    /// - `None`: none of them breaks a rule, and the pool is as [`Pool::apply`] leaves it.
    /// - The code of the first rule that is broken: the pool is as before.
    ///
    /// `NoMemory` leaves the pool as before, too. Nothing is copied whole: what an operation changes is kept meanwhile, so
    /// that it can be put back, which takes no memory. Each operation is searched for once.
    pub fn admit(
        &mut self,
        alloc: Global,
        ops: &List<ObjectOp>,
        now: Moment,
    ) -> Result<Option<u32>, NoMemory>
        ensures code { IfOk result (λ code. code ≡ admitted_rule now ops.now self.old) }
        ensures step { IfOk result (λ code. IsAdmittedOr code self.new self.old (pool_after now ops.now self.old)) }
        ensures err { OnErr result (self.new ≡ self.old) }
    {
        admit_ops(alloc, &mut self.shelf, ops.as_slice(), now)
    }

    /// Applies operations, one after another, each by the site test (RTO9), and answers what became of each.
    ///
    /// - `Skipped` comes exactly where the object's site has this serial or a greater one, or the operation is for
    ///   another kind of object than its id names, or has no serial.
    /// - `Range` comes exactly where another operation would bring the sum of a counter that stands past plus or minus
    ///   [`MAX_COUNTER_SUM`](rl_numbers::limits::MAX_COUNTER_SUM). (This project's own.)
    /// - Else the operation is `Applied`: a missing object is made first, of its id's kind, and the site's serial is set.
    ///   A create is merged once, a removal leaves a tombstone cell of the moment `now`, a deletion a tombstone of that
    ///   moment. A tombstone takes serials, and nothing more.
    ///
    /// What is not `Applied` changes nothing. `NoMemory` leaves the pool as before: what was done is put back.
    pub fn apply(
        &mut self,
        alloc: Global,
        ops: &List<ObjectOp>,
        now: Moment,
    ) -> Result<List<Applied>, NoMemory>
        ensures outcomes { IfOk result (λ done. done ≡ pool_outcomes now ops.now self.old) }
        ensures step { OnOk result (self.new ≡ pool_after now ops.now self.old) }
        ensures err { OnErr result (self.new ≡ self.old) }
    {
        apply_ops(alloc, &mut self.shelf, ops.as_slice(), now)
    }

    /// A page of the objects: the first of those past an id, at most `max`, as a page shows them, in order of id, and
    /// whether none remain after these. Without an id it is the first page. The id need not be an object's.
    pub fn after(
        &self,
        alloc: Global,
        id: Option<&ObjectId>,
        max: usize,
    ) -> Result<(List<ObjectState>, bool), NoMemory>
        ensures states { IfOk result (λ page. page.0 ≡ page_states (option_copied id.entry) max self.now) }
        ensures last { IfOk result (λ page. page.1 ≡ is_last_page (option_copied id.entry) max self.now) }
    {
        let rest = past(self.shelf.objects.as_slice(), id);
        Ok((first_states(alloc, rest, max)?, rest.len() <= max))
    }

    /// The objects that these states tell, all others gone, and an empty root where no root is among them. A state
    /// whose body is not of its id's kind is passed over; of the others of one id the last is kept. Tombstones and
    /// tombstone cells have the moment `now`. (This project's own.) `NoMemory` leaves the pool as before.
    pub fn replace(
        &mut self,
        alloc: Global,
        states: &List<ObjectState>,
        now: Moment,
    ) -> Result<(), NoMemory>
        ensures ok { OnOk result (self.new ≡ replaced now states.now) }
        ensures err { OnErr result (self.new ≡ self.old) }
    {
        self.shelf = told(alloc, states.as_slice(), now)?;
        Ok(())
    }

    /// The live objects, in order of id: the root, and each that was created and not deleted (RTO3). A key that was
    /// removed, or whose value names an object that is not live, reads as absent (RTLM5d2).
    pub fn live(&self, alloc: Global) -> Result<List<ObjectState>, NoMemory>
        ensures { IfOk result (λ live. live ≡ live_states self.now) }
    {
        live(alloc, self.shelf.objects.as_slice())
    }

    /// Drops each tombstone, and in each map each tombstone cell, of whose moment `now` is
    /// [`TOMBSTONE_GRACE`](rl_numbers::limits::TOMBSTONE_GRACE) or more past (RTO10). The root stays. It takes no
    /// memory, and looks at each object and each cell once.
    pub fn collect(&mut self, now: Moment)
        ensures { self.new ≡ collected now self.old }
    {
        collect(&mut self.shelf, now);
    }

    /// Whether pages show the same of both pools, tombstones and sites included. It takes no memory.
    pub fn same(&self, other: &Pool) -> bool
        ensures { IsTrue result ↔ (states self.now ≡ states other.now) }
    {
        show_same(
            self.shelf.objects.as_slice(),
            other.shelf.objects.as_slice(),
        )
    }

    /// Whether the pool is an empty root alone. It takes no memory.
    pub fn is_bare(&self) -> bool
        ensures { result ≡ is_bare self.now }
    {
        is_bare(self.shelf.objects.as_slice())
    }

    /// How many objects there are, tombstones and the root among them. It takes no memory.
    pub fn count(&self) -> usize
        ensures count { result ≡ length self.now }
        ensures root { HasRoot self.now }
    {
        self.shelf.objects.len()
    }
}

impl Copied for Pool {
    fn copy(&self, alloc: Global) -> Result<Pool, NoMemory> {
        let objects = self.shelf.objects.copy(alloc)?;
        Ok(Pool {
            shelf: Shelf {
                objects,
                load: self.shelf.load,
            },
        })
    }
}
