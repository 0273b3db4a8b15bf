ghost use Rattle.std.specs.Prelude.{◌&&◌, ◌≡◌, ◌↔◌, true, is_some, IfOk, OnOk, OnErr, IsTrue, IsSome};
ghost use Rattle.rl_ids.specs.declared.objects.ObjectId.{ObjectId};
ghost use Rattle.rl_ids.specs.Objects.{kind_of, object_id_text};
ghost use Rattle.rl_types.specs.Weight.{state_weight};
ghost use Rattle.rl_objmodel.specs.declared.plain.Applied.TheVariants as outcomes;
ghost use Rattle.rl_objmodel.specs.Held.{bare_root, shown, shown_body};
ghost use Rattle.rl_objmodel.specs.Operations.{is_root};
ghost use Rattle.rl_objmodel.specs.Rules.{cells_in, sum_held};
ghost use Rattle.rl_objmodel.specs.Steps.{collected_body, has_no_cell, held_after, is_gone, is_held_as, is_live_held, is_of_kind, new_held, outcome, told_held};
ghost use Rattle.rl_object.specs.Unnumbered.{unnumbered_held};
ghost use Rattle.rl_object.specs.Ids.{is_before_id, is_upto_id};
ghost use Rattle.rl_object.specs.Back.{restored, CanGoBack, StoodIsBack};

use crate::parts::Parts;
use crate::stood::Stood;
use rl_ids::{Copied, Moment, NoMemory, ObjectId, OpSerial};
use rl_objmodel::Applied;
use rl_types::{ObjectState, Op};
use std::alloc::Global;
use std::marker::Model;

/// An object that is held: a map (RTLM), a counter (RTLC) or a tombstone (RTLO3d). A contract sees it as a `Held` of
/// `rl_objmodel`. The value itself is a pointer, so that a list of objects is cheap to move.
///
/// With n sites and n cells, an operation looks at about log n of each, and moves those behind its own where that is
/// new. It keeps its weight, so that nothing is counted again.
#[derive(Drop)]
pub struct Object {
    parts: Box<Parts>,
}

impl Model for Object {
    ghost use Rattle.rl_objmodel.specs.Held.{Held};

    ghost Value = { Held };

    ghost view = { λ o. o.parts.value };
}

impl Object {
    /// An object of its id's kind, empty and not created. `NoMemory` comes where there is no memory.
    pub fn empty(alloc: Global, id: &ObjectId) -> Result<Object, NoMemory>
        ensures { IfOk result (λ made. made ≡ new_held id.now) }
    {
        Ok(Object {
            parts: Box::new(alloc, Parts::empty(alloc, id))?,
        })
    }

    /// A root that nobody wrote to (RTO3b). `NoMemory` comes where there is no memory.
    pub fn bare_root(alloc: Global) -> Result<Object, NoMemory>
        ensures { IfOk result (λ root. root ≡ bare_root) }
    {
        Ok(Object {
            parts: Box::new(alloc, Parts::bare_root(alloc))?,
        })
    }

    /// The object that a state shows (OST2), whose body is of its id's kind: its sites and cells in order, of each site
    /// the greatest serial, of each key the cell of the greatest serial. A tombstone, and each tombstone cell, has
    /// the moment `now`. `NoMemory` comes where there is no memory, or where the weight would pass 2^64 - 1.
    pub fn told(alloc: Global, state: &ObjectState, now: Moment) -> Result<Object, NoMemory>
        requires { is_of_kind (kind_of state.now.id) state.now.body ≡ true }
        ensures { IfOk result (λ object. object ≡ told_held now state.now) }
    {
        let parts = Parts::told(alloc, state, now)?;
        Ok(Object {
            parts: Box::new(alloc, parts)?,
        })
    }

    /// Its id. It takes no memory.
    pub fn id(&self) -> ObjectId
        ensures { result ≡ self.now.id }
    {
        self.parts.id()
    }

    /// Whether it is of the id with this text, as [`object_id_code`](rl_ids::object_id_code) spells it. The text of its
    /// own id is kept, so that none is spelled.
    pub fn is_of(&self, text: &str) -> bool
        ensures { (id : ObjectId) → object_id_text id ≡ text.now → result ≡ is_held_as id self.now }
    {
        self.parts.is_of(text)
    }

    /// Whether its id comes before the one with this text.
    pub fn is_before(&self, text: &str) -> bool
        ensures { (id : ObjectId) → object_id_text id ≡ text.now → result ≡ is_before_id id self.now }
    {
        self.parts.is_before(text)
    }

    /// Whether its id comes before the one with this text, or is it.
    pub fn is_upto(&self, text: &str) -> bool
        ensures { (id : ObjectId) → object_id_text id ≡ text.now → result ≡ is_upto_id id self.now }
    {
        self.parts.is_upto(text)
    }

    /// Whether it was created, and not deleted since.
    pub fn created(&self) -> bool
        ensures { result ≡ self.now.created }
    {
        self.parts.created()
    }

    /// Whether it is the root, or was created and not deleted.
    pub fn is_live(&self) -> bool
        ensures { result ≡ is_live_held self.now }
    {
        self.parts.is_live()
    }

    /// Whether it was deleted.
    pub fn is_tombstone(&self) -> bool
        ensures { result ≡ is_some self.now.deleted }
    {
        self.parts.is_tombstone()
    }

    /// Whether it is the root, and has no cell.
    pub fn is_bare(&self) -> bool
        ensures { result ≡ (is_root self.now.id && has_no_cell self.now.body) }
    {
        self.parts.is_bare()
    }

    /// A counter's sum; a map has the sum 0.
    pub fn sum(&self) -> i128
        ensures { result ≡ sum_held (shown_body self.now.body) }
    {
        self.parts.sum()
    }

    /// How many cells it has, tombstone cells among them.
    pub fn count_cells(&self) -> u64
        ensures { result ≡ cells_in (shown self.now) }
    {
        self.parts.count_cells()
    }

    /// Its weight: [`OBJECT_WEIGHT`](rl_numbers::limits::OBJECT_WEIGHT), and for each cell its own. It is kept, not
    /// counted.
    pub fn weight(&self) -> u64
        ensures { result ≡ state_weight (shown self.now) }
    {
        self.parts.weight()
    }

    /// The object as a page shows it (OST2). `NoMemory` comes where there is no memory.
    pub fn state(&self, alloc: Global) -> Result<ObjectState, NoMemory>
        ensures { IfOk result (λ state. state ≡ shown self.now) }
    {
        self.parts.state(alloc)
    }

    /// Whether a Tick drops it (RTO10): it is a tombstone, not the root, of whose moment `now` is
    /// [`TOMBSTONE_GRACE`](rl_numbers::limits::TOMBSTONE_GRACE) or more past.
    pub fn is_gone(&self, now: Moment) -> bool
        ensures { result ≡ is_gone now self.now }
    {
        self.parts.is_gone(now)
    }

    /// Whether a page shows the same of both.
    pub fn shows_same(&self, other: &Object) -> bool
        ensures { IsTrue result ↔ (shown self.now ≡ shown other.now) }
    {
        self.parts.shows_same(&other.parts)
    }

    /// Applies an operation that names its id, and answers what became of it, and, exactly where it was applied, what
    /// stood before.
    ///
    /// - `Skipped` comes exactly where the operation is for another kind of object, or its site has this serial or a
    ///   greater one (RTO9).
    /// - `Range` comes exactly where another operation would bring the sum of a counter that stands past its range.
    ///   (This project's own.)
    /// - Else it is `Applied`. A create is merged once, a removal leaves a tombstone cell of the moment `now`, a
    ///   deletion a tombstone of that moment. A tombstone takes serials, and nothing more.
    ///
    /// What is not `Applied` changes nothing, nor does `NoMemory`, which comes where there is no memory, or where the
    /// weight would pass 2^64 - 1. Only a create that is merged into a map copies its cells.
    pub fn apply(
        &mut self,
        alloc: Global,
        op: &Op,
        serial: &OpSerial,
        now: Moment,
    ) -> Result<(Applied, Option<Stood>), NoMemory>
        ensures outcome { IfOk result (λ done. done.0 ≡ outcome serial.now op.now self.old) }
        ensures stood { IfOk result (λ done. IsSome done.1 ↔ (done.0 ≡ outcomes.Applied)) }
        ensures back { IfOk result (λ done. StoodIsBack serial.now op.now done.1 self.new self.old) }
        ensures step { OnOk result (self.new ≡ held_after now serial.now op.now self.old) }
        ensures err { OnErr result (self.new ≡ self.old) }
    {
        self.parts.apply(alloc, op, serial, now)
    }

    /// Puts back what stood before an operation that was applied. It takes no memory.
    pub fn put_back(&mut self, op: &Op, serial: &OpSerial, stood: Stood)
        requires { CanGoBack serial.now op.now stood self.old }
        ensures { self.new ≡ restored serial.now op.now stood self.old }
    {
        self.parts.put_back(op, serial, stood);
    }

    /// A copy without the serials of its sites, and with the place 0 and the index 0 in those of its cells, so that
    /// each operation comes to it as the newest. `NoMemory` comes where there is no memory.
    pub fn unnumbered(&self, alloc: Global) -> Result<Object, NoMemory>
        ensures { IfOk result (λ made. made ≡ unnumbered_held self.now) }
    {
        let parts = self.parts.unnumbered(alloc)?;
        Ok(Object {
            parts: Box::new(alloc, parts)?,
        })
    }

    /// Drops each tombstone cell that is collected (RTO10), and weighs the others. It takes no memory, and looks at
    /// each cell.
    pub fn collect(&mut self, now: Moment)
        ensures { self.new ≡ record self.old { body = collected_body now self.old.body } }
    {
        self.parts.collect(now);
    }
}

impl Copied for Object {
    fn copy(&self, alloc: Global) -> Result<Object, NoMemory> {
        let parts = self.parts.copy(alloc)?;
        Ok(Object {
            parts: Box::new(alloc, parts)?,
        })
    }
}
