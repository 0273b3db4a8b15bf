// Operations that are judged one after another, each against the objects as the earlier ones left them, and applied where
// none breaks a rule.
ghost use Rattle.std.specs.Prelude.{◌≡◌, ◌<◌, length, List, IfOk, OnErr, Some};
ghost use Rattle.rl_objmodel.specs.Held.{Held};
ghost use Rattle.rl_objmodel.specs.Operations.{id_in};
ghost use Rattle.rl_objmodel.specs.Steps.{pool_after, pool_op_rule};
ghost use Rattle.rl_pool.specs.Admitting.{admitted_rule, AreAdmitted, IsAdmitted, IsEnteredOr, IsJudged, IsPut};
ghost use Rattle.rl_objrules.specs.Ids.{FindsId};
ghost use Rattle.rl_pool.specs.Journal.{op_in, LeadsBack};
ghost use Rattle.rl_objrules.specs.Loads.{IsSound};

use crate::changes::{Change, apply_found};
use crate::journal::{Step, record, undo_all};
use rl_base::RoomyList;
use rl_ids::{List, Moment, NoMemory, OpSerial};
use rl_object::target_of;
use rl_objrules::{Shelf, find, is_heavy_at, or_next, pool_rule, rules_before};
use rl_types::{ObjectOp, Op};
use std::alloc::Global;

// Applies an operation that breaks no rule on the objects before it, and answers the code of the rule on those after it.
fn enter(
    alloc: Global,
    shelf: &mut Shelf,
    found: Result<usize, usize>,
    op: &Op,
    serial: &OpSerial,
    now: Moment,
) -> Result<(Option<u32>, Option<Change>), NoMemory>
    requires place { FindsId (id_in op.now) shelf.old.objects found }
    requires sound { IsSound shelf.old }
    ensures ok { IfOk result (λ done. IsPut now serial.now op.now shelf.old shelf.new done.0 done.1) }
    ensures err { OnErr result (shelf.new ≡ shelf.old) }
{
    let effect = apply_found(alloc, shelf, found, op, serial, now)?;
    Ok((pool_rule(shelf, effect.heavy), effect.change))
}

// Judges an operation, and applies it where it breaks no rule on the objects before it.
pub fn judge_op(
    alloc: Global,
    shelf: &mut Shelf,
    op: &Op,
    serial: &OpSerial,
    now: Moment,
) -> Result<(Option<u32>, Option<Change>), NoMemory>
    requires { IsSound shelf.old }
    ensures ok { IfOk result (λ done. IsJudged now serial.now op.now shelf.old shelf.new done.0 done.1) }
    ensures err { OnErr result (shelf.new ≡ shelf.old) }
{
    let found = find(shelf.objects.as_slice(), &target_of(op));
    match rules_before(shelf.objects.as_slice(), found, op, now) {
        Some(code) => Ok((Some(code), None)),
        None => enter(alloc, shelf, found, op, serial, now),
    }
}

// The code of the rule that an operation without a serial breaks. It changes nothing.
fn judge_unnumbered(shelf: &Shelf, op: &Op, now: Moment) -> Option<u32>
    requires { IsSound shelf.now }
    ensures { result ≡ pool_op_rule now shelf.now.objects shelf.now.objects op.now }
{
    let found = find(shelf.objects.as_slice(), &target_of(op));
    let heavy = is_heavy_at(shelf.objects.as_slice(), found);
    or_next(
        rules_before(shelf.objects.as_slice(), found, op, now),
        pool_rule(shelf, heavy),
    )
}

// Judges the operation at a place, which has this serial, and records what it changed.
fn admit_numbered(
    alloc: Global,
    shelf: &mut Shelf,
    ops: &[ObjectOp],
    at: usize,
    serial: &OpSerial,
    now: Moment,
    steps: &mut RoomyList<Step>,
) -> Result<Option<u32>, NoMemory>
    requires within { at < length ops.now }
    requires sound { IsSound shelf.old }
    requires serial { (op_in ops.now at).serial ≡ Some serial.now }
    ensures ok { IfOk result (λ code. IsAdmitted now (op_in ops.now at) shelf.old shelf.new code) }
    ensures back { (before : List Held) → LeadsBack ops.now steps.old.0 shelf.old.objects before → LeadsBack ops.now steps.new.0 shelf.new.objects before }
{
    let op = &ops[at].op;
    steps.reserve(1)?;
    let (code, change) = judge_op(alloc, shelf, op, serial, now)?;
    record(steps, at, serial, change);
    Ok(code)
}

// Judges the operation at a place, and records what it changed.
fn admit_next(
    alloc: Global,
    shelf: &mut Shelf,
    ops: &[ObjectOp],
    at: usize,
    now: Moment,
    steps: &mut RoomyList<Step>,
) -> Result<Option<u32>, NoMemory>
    requires within { at < length ops.now }
    requires sound { IsSound shelf.old }
    ensures ok { IfOk result (λ code. IsAdmitted now (op_in ops.now at) shelf.old shelf.new code) }
    ensures back { (before : List Held) → LeadsBack ops.now steps.old.0 shelf.old.objects before → LeadsBack ops.now steps.new.0 shelf.new.objects before }
{
    match &ops[at].serial {
        Some(serial) => admit_numbered(alloc, shelf, ops, at, serial, now, steps),
        None => Ok(judge_unnumbered(shelf, &ops[at].op, now)),
    }
}

// Judges operations up to the first that breaks a rule, and records what they changed.
fn admit_all(
    alloc: Global,
    shelf: &mut Shelf,
    ops: &[ObjectOp],
    now: Moment,
    steps: &mut RoomyList<Step>,
) -> Result<Option<u32>, NoMemory>
    requires { IsSound shelf.old }
    ensures ok { IfOk result (λ code. AreAdmitted now ops.now shelf.old shelf.new code) }
    ensures back { (before : List Held) → LeadsBack ops.now steps.old.0 shelf.old.objects before → LeadsBack ops.now steps.new.0 shelf.new.objects before }
{
    for at in 0..ops.len() {
        match admit_next(alloc, shelf, ops, at, now, steps)? {
            Some(code) => return Ok(Some(code)),
            None => {}
        }
    }
    Ok(None)
}

// Judges operations, and applies them where none breaks a rule; else all is as before, and what was done is put back.
pub fn admit_ops(
    alloc: Global,
    shelf: &mut Shelf,
    ops: &[ObjectOp],
    now: Moment,
) -> Result<Option<u32>, NoMemory>
    requires { IsSound shelf.old }
    ensures code { IfOk result (λ code. code ≡ admitted_rule now ops.now shelf.old.objects) }
    ensures step { IfOk result (λ code. IsEnteredOr code shelf.new shelf.old (pool_after now ops.now shelf.old.objects)) }
    ensures sound { IsSound shelf.new }
    ensures err { OnErr result (shelf.new ≡ shelf.old) }
{
    let load = shelf.load;
    let mut steps = RoomyList::from_list(List::new(alloc));
    let code = admit_all(alloc, shelf, ops, now, &mut steps);
    if !matches!(code, Ok(None)) {
        undo_all(&mut shelf.objects, ops, steps);
        shelf.load = load;
    }
    code
}
