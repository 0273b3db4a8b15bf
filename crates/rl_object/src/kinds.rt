ghost use Rattle.std.specs.Prelude.{◌≡◌};
ghost use Rattle.rl_ids.specs.Objects.{kind_of};
ghost use Rattle.rl_object.specs.Back.{key_in};
ghost use Rattle.rl_objmodel.specs.Operations.{id_in, suits};

use rl_ids::{ObjectId, ObjectKind};
use rl_types::Op;

/// The kind of object that an id names. The root is a map. It takes no memory.
pub fn kind_of(id: &ObjectId) -> ObjectKind
    ensures { result ≡ kind_of id.now }
{
    match id {
        ObjectId::Root => ObjectKind::Map,
        ObjectId::Made { kind, .. } => *kind,
    }
}

/// The object that an operation is for. It takes no memory.
pub fn target_of(op: &Op) -> ObjectId
    ensures { result ≡ id_in op.now }
{
    match op {
        Op::MapCreate { id, .. } => *id,
        Op::MapSet { id, .. } => *id,
        Op::MapRemove { id, .. } => *id,
        Op::CounterCreate { id, .. } => *id,
        Op::CounterInc { id, .. } => *id,
        Op::Delete { id } => *id,
    }
}

/// Whether an operation is for objects of this kind; a deletion is for both. It takes no memory.
pub fn suits(kind: ObjectKind, op: &Op) -> bool
    ensures { result ≡ suits kind op.now }
{
    match op {
        Op::MapCreate { .. } => matches!(kind, ObjectKind::Map),
        Op::MapSet { .. } => matches!(kind, ObjectKind::Map),
        Op::MapRemove { .. } => matches!(kind, ObjectKind::Map),
        Op::CounterCreate { .. } => matches!(kind, ObjectKind::Counter),
        Op::CounterInc { .. } => matches!(kind, ObjectKind::Counter),
        Op::Delete { .. } => true,
    }
}

// The key that an operation writes.
pub fn key_in(op: &Op) -> &str
    ensures { result.now ≡ key_in op.now }
{
    match op {
        Op::MapSet { key, .. } => key.as_str(),
        Op::MapRemove { key, .. } => key.as_str(),
        _ => "",
    }
}
