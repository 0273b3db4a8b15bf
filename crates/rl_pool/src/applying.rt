// Operations that are applied one after another, each in its place.
ghost use Rattle.std.specs.Prelude.{◌≡◌, ◌<◌, length, List, IfOk, OnOk, OnErr, Some};
ghost use Rattle.rl_objmodel.specs.Held.{Held};
ghost use Rattle.rl_objmodel.specs.Steps.{pool_after, pool_outcomes};
ghost use Rattle.rl_pool.specs.Changes.{IsTaken};
ghost use Rattle.rl_pool.specs.Journal.{op_in, LeadsBack};
ghost use Rattle.rl_objrules.specs.Loads.{IsSound};

use crate::changes::apply_found;
use crate::journal::{Step, record, undo_all};
use rl_base::RoomyList;
use rl_ids::{List, Moment, NoMemory, OpSerial};
use rl_object::target_of;
use rl_objmodel::Applied;
use rl_objrules::{Shelf, find};
use rl_types::ObjectOp;
use std::alloc::Global;

// Applies the operation at a place, which has this serial, and records what it changed.
fn apply_numbered(
    alloc: Global,
    shelf: &mut Shelf,
    ops: &[ObjectOp],
    at: usize,
    serial: &OpSerial,
    now: Moment,
    steps: &mut RoomyList<Step>,
) -> Result<Applied, NoMemory>
    requires within { at < length ops.now }
    requires sound { IsSound shelf.old }
    requires serial { (op_in ops.now at).serial ≡ Some serial.now }
    ensures ok { IfOk result (λ done. IsTaken now (op_in ops.now at) shelf.old shelf.new done) }
    ensures back { (before : List Held) → LeadsBack ops.now steps.old.0 shelf.old.objects before → LeadsBack ops.now steps.new.0 shelf.new.objects before }
{
    let op = &ops[at].op;
    steps.reserve(1)?;
    let found = find(shelf.objects.as_slice(), &target_of(op));
    let effect = apply_found(alloc, shelf, found, op, serial, now)?;
    record(steps, at, serial, effect.change);
    Ok(effect.done)
}

// Applies the operation at a place, and records what it changed; one without a serial is passed over.
fn apply_next(
    alloc: Global,
    shelf: &mut Shelf,
    ops: &[ObjectOp],
    at: usize,
    now: Moment,
    steps: &mut RoomyList<Step>,
) -> Result<Applied, NoMemory>
    requires within { at < length ops.now }
    requires sound { IsSound shelf.old }
    ensures ok { IfOk result (λ done. IsTaken now (op_in ops.now at) shelf.old shelf.new done) }
    ensures back { (before : List Held) → LeadsBack ops.now steps.old.0 shelf.old.objects before → LeadsBack ops.now steps.new.0 shelf.new.objects before }
{
    match &ops[at].serial {
        Some(serial) => apply_numbered(alloc, shelf, ops, at, serial, now, steps),
        None => Ok(Applied::Skipped),
    }
}

// Applies operations, and records what they changed.
fn apply_all(
    alloc: Global,
    shelf: &mut Shelf,
    ops: &[ObjectOp],
    now: Moment,
    steps: &mut RoomyList<Step>,
) -> Result<List<Applied>, NoMemory>
    requires sound { IsSound shelf.old }
    ensures outcomes { IfOk result (λ done. done ≡ pool_outcomes now ops.now shelf.old.objects) }
    ensures step { OnOk result (shelf.new.objects ≡ pool_after now ops.now shelf.old.objects) }
    ensures sound { OnOk result (IsSound shelf.new) }
    ensures back { (before : List Held) → LeadsBack ops.now steps.old.0 shelf.old.objects before → LeadsBack ops.now steps.new.0 shelf.new.objects before }
{
    let mut done = List::new(alloc);
    for at in 0..ops.len() {
        let one = apply_next(alloc, shelf, ops, at, now, steps)?;
        done.push(one)?;
    }
    Ok(done)
}

// Applies operations. `NoMemory` leaves all as before: what was done is put back.
pub fn apply_ops(
    alloc: Global,
    shelf: &mut Shelf,
    ops: &[ObjectOp],
    now: Moment,
) -> Result<List<Applied>, NoMemory>
    requires { IsSound shelf.old }
    ensures outcomes { IfOk result (λ done. done ≡ pool_outcomes now ops.now shelf.old.objects) }
    ensures step { OnOk result (shelf.new.objects ≡ pool_after now ops.now shelf.old.objects) }
    ensures sound { IsSound shelf.new }
    ensures err { OnErr result (shelf.new ≡ shelf.old) }
{
    let load = shelf.load;
    let mut steps = RoomyList::from_list(List::new(alloc));
    match apply_all(alloc, shelf, ops, now, &mut steps) {
        Ok(done) => Ok(done),
        Err(error) => {
            undo_all(&mut shelf.objects, ops, steps);
            shelf.load = load;
            Err(error)
        }
    }
}
