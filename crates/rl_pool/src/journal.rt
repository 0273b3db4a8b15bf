// The steps that operations took, and how they are put back.
ghost use Rattle.std.specs.Prelude.{◌≡◌, ◌<◌};
ghost use Rattle.rl_pool.specs.Journal.{all_undone, recorded, undone, CanUndo, CanUndoAll};

use crate::changes::{Change, put_back};
use rl_base::RoomyList;
use rl_ids::{List, OpSerial};
use rl_object::Object;
use rl_types::ObjectOp;

/// A step that an operation took.
#[derive(Drop)]
pub struct Step {
    /// Which of the operations it was.
    pub op: usize,
    /// Its serial.
    pub serial: OpSerial,
    /// What it changed.
    pub change: Change,
}

// Records what an operation changed, where it did, in a journal that has room. It takes no memory.
pub fn record(steps: &mut RoomyList<Step>, op: usize, serial: &OpSerial, change: Option<Change>)
    requires { 0 < steps.old.1 }
    ensures { steps.new.0 ≡ recorded op serial.now change steps.old.0 }
{
    if let Some(change) = change {
        steps.push(Step {
            op,
            serial: *serial,
            change,
        });
    }
}

// Puts one step back.
fn undo(objects: &mut List<Object>, ops: &[ObjectOp], step: Step)
    requires { CanUndo ops.now step objects.old }
    ensures { objects.new ≡ undone ops.now step objects.old }
{
    let Step { op, serial, change } = step;
    put_back(objects, &ops[op].op, &serial, change);
}

// Puts all steps back, the last first. It takes no memory.
pub fn undo_all(objects: &mut List<Object>, ops: &[ObjectOp], steps: RoomyList<Step>)
    requires { CanUndoAll ops.now steps.0 objects.old }
    ensures { objects.new ≡ all_undone ops.now steps.0 objects.old }
{
    let mut left = steps.into_list().into_vec();
    while let Some(step) = left.pop() {
        undo(objects, ops, step);
    }
}
