// One operation on the objects: what it changes, and how that is put back.
ghost use Rattle.std.specs.Prelude.{◌≡◌, ◌<◌, ◌≤◌, length, insert, IfOk, OnOk, OnErr, Some, None};
ghost use Rattle.rl_objmodel.specs.Held.{shown};
ghost use Rattle.rl_objmodel.specs.Operations.{id_in};
ghost use Rattle.rl_objmodel.specs.Rules.{is_heavy};
ghost use Rattle.rl_objmodel.specs.Steps.{held_after, outcome};
ghost use Rattle.rl_pool.specs.Changes.{added_effect, changed_at, held_in, put_back_by, put_back_if, refused_effect, CanPutBack, IsAppliedAt, IsChanged, IsUndoable, IsUndoableIf};
ghost use Rattle.rl_objrules.specs.Ids.{FindsId, IsIdHeldAt, IsIdMissedAt};
ghost use Rattle.rl_objrules.specs.Loads.{load_of, no_load, IsExchanged, IsSound};

use rl_ids::{List, Moment, NoMemory, OpSerial};
use rl_numbers::limits::MAX_OBJECT_WEIGHT;
use rl_object::{Object, Stood, target_of};
use rl_objmodel::Applied;
use rl_objrules::{NO_LOAD, Shelf, exchanged, is_heavy, load_of};
use rl_types::Op;
use std::alloc::Global;

/// What an operation changed: the object at a place, and what stood there; nothing did where the object was made.
#[derive(Drop)]
pub struct Change {
    /// The place.
    pub at: usize,
    /// What stood there.
    pub stood: Option<Stood>,
}

/// What became of an operation.
#[derive(Drop)]
pub struct Effect {
    /// Whether it was applied.
    pub done: Applied,
    /// What it changed.
    pub change: Option<Change>,
    /// Whether its own object is then there, and past the weight of one.
    pub heavy: bool,
}

// The change of an object in its place.
fn changed_at(at: usize, stood: Option<Stood>) -> Option<Change>
    ensures { result ≡ changed_at at stood }
{
    match stood {
        Some(stood) => Some(Change {
            at,
            stood: Some(stood),
        }),
        None => None,
    }
}

// Applies an operation to the object at a place.
fn apply_at(
    alloc: Global,
    objects: &mut List<Object>,
    at: usize,
    op: &Op,
    serial: &OpSerial,
    now: Moment,
) -> Result<(Applied, Option<Change>), NoMemory>
    requires { at < length objects.old }
    ensures ok { IfOk result (λ done. IsAppliedAt now serial.now op.now at objects.old objects.new done.0 done.1) }
    ensures err { OnErr result (objects.new ≡ objects.old) }
{
    let object = objects.at_mut(at);
    match object.apply(alloc, op, serial, now) {
        Ok((done, stood)) => Ok((done, changed_at(at, stood))),
        Err(error) => Err(error),
    }
}

// Puts back what stood in the object at a place.
fn restore_at(objects: &mut List<Object>, at: usize, op: &Op, serial: &OpSerial, stood: Stood)
    requires within { at < length objects.old }
    requires can { CanPutBack (Some stood) serial.now op.now (held_in objects.old at) }
    ensures { objects.new ≡ put_back_by (Some stood) serial.now op.now at objects.old }
{
    let object = objects.at_mut(at);
    object.put_back(op, serial, stood);
}

// Puts back what an operation changed. It takes no memory.
pub fn put_back(objects: &mut List<Object>, op: &Op, serial: &OpSerial, change: Change)
    requires { IsUndoable serial.now op.now change objects.old }
    ensures { objects.new ≡ put_back_by change.stood serial.now op.now change.at objects.old }
{
    let Change { at, stood } = change;
    match stood {
        Some(stood) => restore_at(objects, at, op, serial, stood),
        None => {
            objects.remove(at);
        }
    }
}

// Puts back what an operation changed, where it did.
fn put_back_if(objects: &mut List<Object>, op: &Op, serial: &OpSerial, change: Option<Change>)
    requires { IsUndoableIf serial.now op.now change objects.old }
    ensures { objects.new ≡ put_back_if serial.now op.now change objects.old }
{
    if let Some(change) = change {
        put_back(objects, op, serial, change);
    }
}

// Applies an operation to the object of its id, which is at a place.
fn change_at(
    alloc: Global,
    shelf: &mut Shelf,
    at: usize,
    op: &Op,
    serial: &OpSerial,
    now: Moment,
) -> Result<Effect, NoMemory>
    requires place { IsIdHeldAt (id_in op.now) shelf.old.objects at }
    requires sound { IsSound shelf.old }
    ensures ok { IfOk result (λ effect. IsChanged now serial.now op.now shelf.old shelf.new effect) }
    ensures err { OnErr result (shelf.new ≡ shelf.old) }
{
    let was = load_of(&shelf.objects.as_slice()[at]);
    let (done, change) = apply_at(alloc, &mut shelf.objects, at, op, serial, now)?;
    let is = load_of(&shelf.objects.as_slice()[at]);
    match exchanged(&shelf.load, &was, &is) {
        Some(load) => {
            shelf.load = load;
            let heavy = is.weight > MAX_OBJECT_WEIGHT;
            Ok(Effect {
                done,
                change,
                heavy,
            })
        }
        None => {
            put_back_if(&mut shelf.objects, op, serial, change);
            Err(NoMemory)
        }
    }
}

// Puts an object that an operation made at a place.
fn add_at(shelf: &mut Shelf, at: usize, object: Object) -> Result<Effect, NoMemory>
    requires within { at ≤ length shelf.old.objects }
    ensures ok { OnOk result (shelf.new.objects ≡ insert shelf.old.objects at object) }
    ensures load { OnOk result (IsExchanged shelf.old.load no_load (load_of object) shelf.new.load) }
    ensures effect { IfOk result (λ effect. effect ≡ added_effect at (is_heavy (shown object))) }
    ensures err { OnErr result (shelf.new ≡ shelf.old) }
{
    let heavy = is_heavy(&object);
    let Some(load) = exchanged(&shelf.load, &NO_LOAD, &load_of(&object)) else {
        return Err(NoMemory);
    };
    shelf.objects.insert(at, object)?;
    shelf.load = load;
    Ok(Effect {
        done: Applied::Applied,
        change: Some(Change { at, stood: None }),
        heavy,
    })
}

// What became of an operation that made no object and was not applied.
fn refused(done: Applied) -> Effect
    ensures { result ≡ refused_effect done }
{
    Effect {
        done,
        change: None,
        heavy: false,
    }
}

// Applies an operation to an object that was made for it. What stood before is of no use.
fn apply_made(
    alloc: Global,
    object: &mut Object,
    op: &Op,
    serial: &OpSerial,
    now: Moment,
) -> Result<Applied, NoMemory>
    ensures outcome { IfOk result (λ done. done ≡ outcome serial.now op.now object.old) }
    ensures step { OnOk result (object.new ≡ held_after now serial.now op.now object.old) }
{
    let done = object.apply(alloc, op, serial, now)?;
    Ok(done.0)
}

// Applies an operation to an object that is made for it at a place.
fn change_new(
    alloc: Global,
    shelf: &mut Shelf,
    at: usize,
    op: &Op,
    serial: &OpSerial,
    now: Moment,
) -> Result<Effect, NoMemory>
    requires place { IsIdMissedAt (id_in op.now) shelf.old.objects at }
    requires sound { IsSound shelf.old }
    ensures ok { IfOk result (λ effect. IsChanged now serial.now op.now shelf.old shelf.new effect) }
    ensures err { OnErr result (shelf.new ≡ shelf.old) }
{
    let mut object = Object::empty(alloc, &target_of(op))?;
    match apply_made(alloc, &mut object, op, serial, now)? {
        Applied::Applied => add_at(shelf, at, object),
        Applied::Skipped => Ok(refused(Applied::Skipped)),
        Applied::Range => Ok(refused(Applied::Range)),
    }
}

// Applies an operation to the object that it names, which was looked for. What is not `Applied` changes nothing, nor does
// `NoMemory`.
pub fn apply_found(
    alloc: Global,
    shelf: &mut Shelf,
    found: Result<usize, usize>,
    op: &Op,
    serial: &OpSerial,
    now: Moment,
) -> Result<Effect, NoMemory>
    requires place { FindsId (id_in op.now) shelf.old.objects found }
    requires sound { IsSound shelf.old }
    ensures ok { IfOk result (λ effect. IsChanged now serial.now op.now shelf.old shelf.new effect) }
    ensures err { OnErr result (shelf.new ≡ shelf.old) }
{
    match found {
        Ok(at) => change_at(alloc, shelf, at, op, serial, now),
        Err(at) => change_new(alloc, shelf, at, op, serial, now),
    }
}
