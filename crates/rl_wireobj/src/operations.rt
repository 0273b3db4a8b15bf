//! What is done to objects: the items of OBJECT frames.
ghost use Rattle.std.specs.Prelude.{◌≡◌, Ok, IfOk, OnOk, option_map, unwrap_or};
ghost use Rattle.serde_json.specs.Data.{no_members};
ghost use Rattle.serde_json.specs.View.{view, members_view};
ghost use Rattle.rl_types.specs.declared.objects.Op.TheVariants as ops;
ghost use Rattle.rl_jsonfields.specs.Fields.{Gives, each_member};
ghost use Rattle.rl_wireobj.specs.Sendable.{IsSendableOp};
ghost use Rattle.rl_wireobj.specs.Operations.{semantics, entries_in, entry_at, map_create, map_set, map_remove, counter_create, counter_inc, by_action, operation, op_at, entry_json, entries_json, head_members, operation_members, with_op_serial, op_json};

use crate::actions::{Action, required_action};
use crate::members::{FromMember, ToMember, read_members, write_members};
use crate::values::{optional_serial, required_id, required_value, set_id, set_serial, value_json};
use rl_ids::{List, MapValue, NoMemory, ObjectId, OpSerial, Text};
use rl_jsonfields::{
    Field, Object, check_object, optional_members, optional_number, optional_signed,
    required_any_text, required_object, required_signed, set_number, set_signed, set_text,
    set_value,
};
use rl_numbers::actions::{
    COUNTER_CREATE, COUNTER_INC, MAP_CREATE, MAP_REMOVE, MAP_SET, OBJECT_DELETE,
};
use rl_types::{ObjectOp, Op, WireFault};
use serde_json::{Map, Value};
use std::alloc::Global;

// READING

// How two writes at a key are judged: 0, the later one wins, is the only way.
#[tactic(auto, unfolding(crate::specs::Operations::semantics))]
fn semantics_of(object: &Value) -> Result<Option<u64>, WireFault>
    ensures { Gives result (semantics (view object.now)) }
{
    optional_number(object, Field::Semantics, 0, 0)
}

#[tactic(auto, unfolding(rl_jsonfields::specs::Fields::each_member))]
fn members_or_none<T: FromMember>(
    alloc: Global,
    members: Option<&Object>,
) -> Result<List<T>, WireFault>
    ensures { Gives result (each_member T.read_at (unwrap_or (option_map (λ m. members_view m.now.entries) members.entry) no_members)) }
{
    match members {
        Some(members) => read_members(alloc, members),
        None => Ok(List::new(alloc)),
    }
}

/// The entries of a map. It is `BadField` where `semantics` is there and not 0, or `entries` is no object; an absent
/// `entries` has none.
#[tactic(auto, unfolding(crate::specs::Operations::entries_in))]
pub fn entries_in<T: FromMember>(alloc: Global, object: &Value) -> Result<List<T>, WireFault>
    ensures { Gives result (entries_in T.read_at (view object.now)) }
{
    semantics_of(object)?;
    let members = optional_members(object, Field::Entries)?;
    members_or_none(alloc, members)
}

#[tactic(auto, unfolding(crate::specs::Operations::entry_at))]
fn entry_in(alloc: Global, key: &str, value: &Value) -> Result<(Text, MapValue), WireFault>
    ensures { Gives result (entry_at key.now (view value.now)) }
{
    check_object(value, Field::Entries)?;
    let held = required_value(alloc, value)?;
    Ok((Text::from_str(alloc, key)?, held))
}

impl FromMember for (Text, MapValue) {
    ghost use Rattle.rl_wireobj.specs.Operations.{entry_at};

    ghost read_at = { entry_at };

    fn from_member(alloc: Global, key: &str, value: &Value) -> Result<(Text, MapValue), WireFault> {
        entry_in(alloc, key, value)
    }
}

#[tactic(auto, unfolding(crate::specs::Operations::map_create))]
fn map_create_of(alloc: Global, id: ObjectId, object: &Value) -> Result<Op, WireFault>
    ensures { Gives result (map_create id (view object.now)) }
{
    let map = required_object(object, Field::Map)?;
    let entries = entries_in(alloc, map)?;
    Ok(Op::MapCreate { id, entries })
}

#[tactic(auto, unfolding(crate::specs::Operations::map_set))]
fn map_set_of(alloc: Global, id: ObjectId, object: &Value) -> Result<Op, WireFault>
    ensures { Gives result (map_set id (view object.now)) }
{
    let inside = required_object(object, Field::MapOp)?;
    let key = required_any_text(alloc, inside, Field::Key)?;
    let value = required_value(alloc, inside)?;
    Ok(Op::MapSet { id, key, value })
}

#[tactic(auto, unfolding(crate::specs::Operations::map_remove))]
fn map_remove_of(alloc: Global, id: ObjectId, object: &Value) -> Result<Op, WireFault>
    ensures { Gives result (map_remove id (view object.now)) }
{
    let inside = required_object(object, Field::MapOp)?;
    let key = required_any_text(alloc, inside, Field::Key)?;
    Ok(Op::MapRemove { id, key })
}

#[tactic(auto, unfolding(crate::specs::Operations::counter_create))]
fn counter_create_of(id: ObjectId, object: &Value) -> Result<Op, WireFault>
    ensures { Gives result (counter_create id (view object.now)) }
{
    let inside = required_object(object, Field::Counter)?;
    let count = optional_signed(inside, Field::Count)?;
    Ok(Op::CounterCreate {
        id,
        count: count.unwrap_or(0),
    })
}

#[tactic(auto, unfolding(crate::specs::Operations::counter_inc))]
fn counter_inc_of(id: ObjectId, object: &Value) -> Result<Op, WireFault>
    ensures { Gives result (counter_inc id (view object.now)) }
{
    let inside = required_object(object, Field::CounterOp)?;
    let amount = required_signed(inside, Field::Amount)?;
    Ok(Op::CounterInc { id, amount })
}

fn by_action(alloc: Global, action: Action, id: ObjectId, object: &Value) -> Result<Op, WireFault>
    ensures { Gives result (by_action action id (view object.now)) }
{
    match action {
        Action::MapCreate => map_create_of(alloc, id, object),
        Action::MapSet => map_set_of(alloc, id, object),
        Action::MapRemove => map_remove_of(alloc, id, object),
        Action::CounterCreate => counter_create_of(id, object),
        Action::CounterInc => counter_inc_of(id, object),
        Action::Delete => Ok(Op::Delete { id }),
    }
}

#[tactic(auto, unfolding(crate::specs::Operations::operation))]
fn operation_of(alloc: Global, object: &Value) -> Result<Op, WireFault>
    ensures { Gives result (operation (view object.now)) }
{
    let action = required_action(object)?;
    let id = required_id(object)?;
    by_action(alloc, action, id, object)
}

/// The operation that an item of an OBJECT frame is, or the first fault (OM; the form of an item is this project's
/// own).
///
/// A value that is no object is `BadField("state")`. First comes `operation` with all that is in it: `action`,
/// `objectId`, then by the action `map`, `mapOp` with `key` and `data`, `counter` or `counterOp`; then `serial`, which
/// may be absent. An absent `count` is 0, absent `entries` are none, and everything that is wrong in `data` is
/// `BadField("data")`. Entries are read in the order of their keys. `NoMemory` comes from the allocator alone.
#[tactic(auto, unfolding(crate::specs::Operations::op_at))]
pub fn read_op(alloc: Global, value: &Value) -> Result<ObjectOp, WireFault>
    ensures { Gives result (op_at (view value.now)) }
{
    check_object(value, Field::State)?;
    let inside = required_object(value, Field::Operation)?;
    let op = operation_of(alloc, inside)?;
    let serial = optional_serial(value, Field::Serial)?;
    Ok(ObjectOp { op, serial })
}

// WRITING

#[tactic(auto, unfolding(crate::specs::Operations::entry_json))]
fn entry_json(alloc: Global, value: &MapValue) -> Result<Value, NoMemory>
    ensures { IfOk result (λ v. view v ≡ entry_json value.now) }
{
    let mut object = Map::new(alloc);
    set_value(alloc, &mut object, Field::Data, value_json(alloc, value)?)?;
    Ok(Value::Object(object))
}

impl ToMember for (Text, MapValue) {
    ghost use Rattle.rl_wireobj.specs.Operations.{entry_json};

    ghost key_of = { λ e. e.0 };

    ghost json_of = { λ e. entry_json e.1 };

    fn key(&self) -> &str {
        self.0.as_str()
    }

    fn json(&self, alloc: Global) -> Result<Value, NoMemory> {
        entry_json(alloc, &self.1)
    }
}

#[tactic(auto, unfolding(crate::specs::Operations::entries_json))]
fn entries_json(alloc: Global, entries: &List<(Text, MapValue)>) -> Result<Value, NoMemory>
    ensures { IfOk result (λ v. view v ≡ entries_json entries.now) }
{
    let members = write_members(alloc, entries.as_slice())?;
    let mut object = Map::new(alloc);
    set_value(alloc, &mut object, Field::Entries, Value::Object(members))?;
    Ok(Value::Object(object))
}

// An action and the object that it is done to.
fn head_object(alloc: Global, action: u64, id: &ObjectId) -> Result<Object, NoMemory>
    ensures { IfOk result (λ m. members_view m.entries ≡ head_members action id.now) }
{
    let mut object = Map::new(alloc);
    set_number(alloc, &mut object, Field::Action, action)?;
    set_id(alloc, &mut object, id)?;
    Ok(object)
}

#[tactic(auto, unfolding(crate::specs::Operations::operation_members))]
fn map_create_object(
    alloc: Global,
    id: &ObjectId,
    entries: &List<(Text, MapValue)>,
) -> Result<Object, NoMemory>
    ensures { IfOk result (λ m. members_view m.entries ≡ operation_members (ops.MapCreate id.now entries.now)) }
{
    let mut object = head_object(alloc, MAP_CREATE, id)?;
    set_value(
        alloc,
        &mut object,
        Field::Map,
        entries_json(alloc, entries)?,
    )?;
    Ok(object)
}

#[tactic(auto, unfolding(crate::specs::Operations::operation_members))]
fn map_set_object(
    alloc: Global,
    id: &ObjectId,
    key: &Text,
    value: &MapValue,
) -> Result<Object, NoMemory>
    ensures { IfOk result (λ m. members_view m.entries ≡ operation_members (ops.MapSet id.now key.now value.now)) }
{
    let mut inside = Map::new(alloc);
    set_text(alloc, &mut inside, Field::Key, key.as_str())?;
    set_value(alloc, &mut inside, Field::Data, value_json(alloc, value)?)?;
    let mut object = head_object(alloc, MAP_SET, id)?;
    set_value(alloc, &mut object, Field::MapOp, Value::Object(inside))?;
    Ok(object)
}

#[tactic(auto, unfolding(crate::specs::Operations::operation_members))]
fn map_remove_object(alloc: Global, id: &ObjectId, key: &Text) -> Result<Object, NoMemory>
    ensures { IfOk result (λ m. members_view m.entries ≡ operation_members (ops.MapRemove id.now key.now)) }
{
    let mut inside = Map::new(alloc);
    set_text(alloc, &mut inside, Field::Key, key.as_str())?;
    let mut object = head_object(alloc, MAP_REMOVE, id)?;
    set_value(alloc, &mut object, Field::MapOp, Value::Object(inside))?;
    Ok(object)
}

#[tactic(auto, unfolding(crate::specs::Operations::operation_members))]
fn counter_create_object(alloc: Global, id: &ObjectId, count: i64) -> Result<Object, NoMemory>
    ensures { IfOk result (λ m. members_view m.entries ≡ operation_members (ops.CounterCreate id.now count)) }
{
    let mut inside = Map::new(alloc);
    set_signed(alloc, &mut inside, Field::Count, count)?;
    let mut object = head_object(alloc, COUNTER_CREATE, id)?;
    set_value(alloc, &mut object, Field::Counter, Value::Object(inside))?;
    Ok(object)
}

#[tactic(auto, unfolding(crate::specs::Operations::operation_members))]
fn counter_inc_object(alloc: Global, id: &ObjectId, amount: i64) -> Result<Object, NoMemory>
    ensures { IfOk result (λ m. members_view m.entries ≡ operation_members (ops.CounterInc id.now amount)) }
{
    let mut inside = Map::new(alloc);
    set_signed(alloc, &mut inside, Field::Amount, amount)?;
    let mut object = head_object(alloc, COUNTER_INC, id)?;
    set_value(alloc, &mut object, Field::CounterOp, Value::Object(inside))?;
    Ok(object)
}

#[tactic(auto, unfolding(crate::specs::Operations::operation_members))]
fn operation_object(alloc: Global, op: &Op) -> Result<Object, NoMemory>
    ensures { IfOk result (λ m. members_view m.entries ≡ operation_members op.now) }
{
    match op {
        Op::MapCreate { id, entries } => map_create_object(alloc, id, entries),
        Op::MapSet { id, key, value } => map_set_object(alloc, id, key, value),
        Op::MapRemove { id, key } => map_remove_object(alloc, id, key),
        Op::CounterCreate { id, count } => counter_create_object(alloc, id, *count),
        Op::CounterInc { id, amount } => counter_inc_object(alloc, id, *amount),
        Op::Delete { id } => head_object(alloc, OBJECT_DELETE, id),
    }
}

// Writes a serial and the site that gave it, where there is one.
fn set_some_serial(
    alloc: Global,
    object: &mut Object,
    serial: &Option<OpSerial>,
) -> Result<(), NoMemory>
    ensures { OnOk result (members_view object.new.entries ≡ with_op_serial serial.now (members_view object.old.entries)) }
{
    match serial {
        Some(serial) => {
            set_serial(alloc, object, Field::Serial, serial)?;
            set_text(alloc, object, Field::SiteCode, serial.site.as_str())
        }
        None => Ok(()),
    }
}

/// An operation as an item of an OBJECT frame. `serial` is written where it is there, and with it `siteCode`, the site
/// that gave it; `semantics` is left out, `count` and `entries` are always written. An operation that can be sent is
/// read as the same again.
#[tactic(auto, using(crate::proofs::Again::written_op))]
pub fn op_value(alloc: Global, op: &ObjectOp) -> Result<Value, NoMemory>
    ensures value { IfOk result (λ v. view v ≡ op_json op.now) }
    ensures reads_back { IfOk result (λ v. IsSendableOp op.now → op_at (view v) ≡ Ok op.now) }
{
    op_json(alloc, op)
}

#[tactic(auto, unfolding(crate::specs::Operations::op_json))]
fn op_json(alloc: Global, op: &ObjectOp) -> Result<Value, NoMemory>
    ensures { IfOk result (λ v. view v ≡ op_json op.now) }
{
    let operation = operation_object(alloc, &op.op)?;
    let mut object = Map::new(alloc);
    set_value(
        alloc,
        &mut object,
        Field::Operation,
        Value::Object(operation),
    )?;
    set_some_serial(alloc, &mut object, &op.serial)?;
    Ok(Value::Object(object))
}
