//! The lists of OBJECT and OBJECT_SYNC frames.
ghost use Rattle.std.specs.Prelude.{◌≡◌, map, IfOk};
ghost use Rattle.serde_json.specs.Data.{Data};
ghost use Rattle.serde_json.specs.View.{view, items_of, items_view};
ghost use Rattle.rl_jsonfields.specs.Fields.{Reads, Gives, each};

use crate::{op_value, read_op, read_state, state_value};
use rl_ids::{List, NoMemory};
use rl_types::{ObjectOp, ObjectState, WireFault};
use serde_json::Value;
use std::alloc::Global;

/// What is read of an item of a list.
pub trait FromItem: Sized + Drop {
    ghost item_at: { Data → Reads Self };

    fn from_item(alloc: Global, value: &Value) -> Result<Self, WireFault>
        ensures { Gives result (item_at (view value.now)) };
}

/// The items of a list, each read, in order; or the first fault.
pub fn read_items<T: FromItem>(alloc: Global, values: &[Value]) -> Result<List<T>, WireFault>
    ensures { Gives result (each T.item_at (items_view values.now)) }
{
    let mut found = List::new(alloc);
    for value in values {
        let one = T::from_item(alloc, value)?;
        found.push(one)?;
    }
    Ok(found)
}

/// What is written as an item of a list.
pub trait ToItem {
    ghost value_of: { Self → Data };

    fn to_item(&self, alloc: Global) -> Result<Value, NoMemory>
        ensures { IfOk result (λ v. view v ≡ value_of self.now) };
}

/// Each of these as an item of a list, in order.
pub fn item_values<T: ToItem>(alloc: Global, items: &[T]) -> Result<Vec<Value>, NoMemory>
    ensures { IfOk result (λ v. items_view v.items ≡ items_of (map T.value_of items.now)) }
{
    let mut values = Vec::new(alloc);
    for item in items {
        values.push(item.to_item(alloc)?)?;
    }
    Ok(values)
}

impl FromItem for ObjectOp {
    ghost use Rattle.rl_wireobj.specs.Operations.{op_at};

    ghost item_at = { op_at };

    fn from_item(alloc: Global, value: &Value) -> Result<ObjectOp, WireFault> {
        read_op(alloc, value)
    }
}

impl ToItem for ObjectOp {
    ghost use Rattle.rl_wireobj.specs.Operations.{op_json};

    ghost value_of = { op_json };

    fn to_item(&self, alloc: Global) -> Result<Value, NoMemory> {
        op_value(alloc, self)
    }
}

impl FromItem for ObjectState {
    ghost use Rattle.rl_wireobj.specs.States.{state_at};

    ghost item_at = { state_at };

    fn from_item(alloc: Global, value: &Value) -> Result<ObjectState, WireFault> {
        read_state(alloc, value)
    }
}

impl ToItem for ObjectState {
    ghost use Rattle.rl_wireobj.specs.States.{state_json};

    ghost value_of = { state_json };

    fn to_item(&self, alloc: Global) -> Result<Value, NoMemory> {
        state_value(alloc, self)
    }
}
