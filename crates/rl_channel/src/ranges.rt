// The moments of ids fit their type.
ghost use Rattle.std.specs.Prelude.{◌<◌, ◌^◌, map};
ghost use Rattle.std.specs.List.{AllByRecursion};
ghost use Rattle.rl_ids.specs.Objects.{IsIdInRange};
ghost use Rattle.rl_objmodel.specs.Following.{IsOpInRange, IsValueInRange};
ghost use Rattle.rl_objmodel.specs.Operations.{id_in, values_of};
ghost use Rattle.rl_channel.specs.Changes.{BodyFits};

use rl_ids::{MapValue, ObjectId, Text};
use rl_types::{Body, ObjectOp, Op};

fn number_fits(_number: u64)
    ensures { _number < 2 ^ 64 }
{}

fn id_fits(id: &ObjectId)
    ensures { IsIdInRange id.now }
{
    if let ObjectId::Made { millis, .. } = id {
        number_fits(*millis);
    }
}

fn value_fits(value: &MapValue)
    ensures { IsValueInRange value.now }
{
    if let MapValue::Ref(id) = value {
        id_fits(id);
    }
}

fn entries_fit(entries: &[(Text, MapValue)])
    ensures { AllByRecursion IsValueInRange (map (λ entry. entry.1) entries.now) }
{
    for entry in entries {
        value_fits(&entry.1);
    }
}

fn values_fit(op: &Op)
    ensures { AllByRecursion IsValueInRange (values_of op.now) }
{
    match op {
        Op::MapCreate { entries, .. } => entries_fit(entries.as_slice()),
        Op::MapSet { value, .. } => value_fits(value),
        _ => {}
    }
}

fn target_fits(op: &Op)
    ensures { IsIdInRange (id_in op.now) }
{
    match op {
        Op::MapCreate { id, .. } => id_fits(id),
        Op::MapSet { id, .. } => id_fits(id),
        Op::MapRemove { id, .. } => id_fits(id),
        Op::CounterCreate { id, .. } => id_fits(id),
        Op::CounterInc { id, .. } => id_fits(id),
        Op::Delete { id } => id_fits(id),
    }
}

fn op_fits(op: &ObjectOp)
    ensures { IsOpInRange op.now }
{
    target_fits(&op.op);
    values_fit(&op.op);
}

fn ops_fit(ops: &[ObjectOp])
    ensures { AllByRecursion IsOpInRange ops.now }
{
    for op in ops {
        op_fits(op);
    }
}

// The ids that a body's operations name fit.
pub fn body_fits(body: &Body)
    ensures { BodyFits body.now }
{
    if let Body::Objects(ops) = body {
        ops_fit(ops.as_slice());
    }
}
