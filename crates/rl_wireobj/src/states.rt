//! Objects as a page shows them: the items of OBJECT_SYNC frames.
ghost use Rattle.std.specs.Prelude.{◌≡◌, Ok, Some, IfOk, OnOk, option_map};
ghost use Rattle.serde_json.specs.View.{view, members_view};
ghost use Rattle.rl_jsonfields.specs.declared.names.Field.TheVariants as fields;
ghost use Rattle.rl_jsonfields.specs.Fields.{Gives, field, shaped};
ghost use Rattle.rl_wireobj.specs.Values.{a_serial};
ghost use Rattle.rl_wireobj.specs.Sendable.{IsSendableState};
ghost use Rattle.rl_wireobj.specs.States.{site_with, site_at, sites, none_at, held, cell_at, counter_of, map_of, body_from, body, state_in, state_at, with_held, cell_json, cells_json, nearest, counter_json, with_body, sites_json, state_members, state_json};

use crate::members::{FromMember, ToMember, read_members, write_members};
use crate::operations::entries_in;
use crate::values::{
    required_id, required_serial, required_value, serial_in, set_id, set_serial, value_json,
};
use rl_ids::{List, MapValue, NoMemory, OpSerial, SiteCode, Text, read_site, write_op_serial};
use rl_jsonfields::{
    Field, Object, bad, check_object, find, flag, missing, optional_object, required_members,
    required_object, required_signed, set_bool, set_signed, set_value,
};
use rl_types::{MapCell, ObjectBody, ObjectState, WireFault};
use serde_json::{Map, Value};
use std::alloc::Global;

// READING

// A site with the greatest serial that it gave.
#[tactic(auto, using(rl_ids::proofs::ObjectTexts::site_is, rl_ids::proofs::ObjectTexts::site_form))]
fn site_with(key: &str, serial: Option<OpSerial>) -> Option<(SiteCode, OpSerial)>
    ensures { result ≡ site_with key.now serial }
{
    let Some(site) = read_site(key) else {
        return None;
    };
    match serial {
        Some(serial) => Some((site, serial)),
        None => None,
    }
}

#[tactic(auto, unfolding(crate::specs::States::site_at))]
fn site_in(key: &str, value: &Value) -> Result<(SiteCode, OpSerial), WireFault>
    ensures { Gives result (site_at key.now (view value.now)) }
{
    match site_with(key, serial_in(value)) {
        Some(pair) => Ok(pair),
        None => Err(bad(Field::SiteTimeserials)),
    }
}

impl FromMember for (SiteCode, OpSerial) {
    ghost use Rattle.rl_wireobj.specs.States.{site_at};

    ghost read_at = { site_at };

    fn from_member(
        _alloc: Global,
        key: &str,
        value: &Value,
    ) -> Result<(SiteCode, OpSerial), WireFault> {
        site_in(key, value)
    }
}

#[tactic(auto, unfolding(crate::specs::States::sites))]
fn sites_of(alloc: Global, object: &Value) -> Result<List<(SiteCode, OpSerial)>, WireFault>
    ensures { Gives result (sites (view object.now)) }
{
    let members = required_members(object, Field::SiteTimeserials)?;
    read_members(alloc, members)
}

// Sees that a tombstone has no value.
fn none_in(object: &Value) -> Result<Option<MapValue>, WireFault>
    ensures { Gives result (none_at (field fields.Data (view object.now))) }
{
    match find(object, Field::Data) {
        None => Ok(None),
        Some(_) => Err(bad(Field::Data)),
    }
}

fn held_in(alloc: Global, tombstone: bool, object: &Value) -> Result<Option<MapValue>, WireFault>
    ensures { Gives result (held tombstone (view object.now)) }
{
    if tombstone {
        return none_in(object);
    }
    let value = required_value(alloc, object)?;
    Ok(Some(value))
}

#[tactic(auto, unfolding(crate::specs::States::cell_at))]
fn cell_in(alloc: Global, key: &str, value: &Value) -> Result<(Text, MapCell), WireFault>
    ensures { Gives result (cell_at key.now (view value.now)) }
{
    check_object(value, Field::Entries)?;
    let tombstone = flag(value, Field::Tombstone)?;
    let held = held_in(alloc, tombstone, value)?;
    let serial = required_serial(value, Field::Timeserial)?;
    let key = Text::from_str(alloc, key)?;
    Ok((
        key,
        MapCell {
            serial,
            value: held,
        },
    ))
}

impl FromMember for (Text, MapCell) {
    ghost use Rattle.rl_wireobj.specs.States.{cell_at};

    ghost read_at = { cell_at };

    fn from_member(alloc: Global, key: &str, value: &Value) -> Result<(Text, MapCell), WireFault> {
        cell_in(alloc, key, value)
    }
}

#[tactic(auto, unfolding(crate::specs::States::counter_of))]
fn counter_of(object: &Value) -> Result<ObjectBody, WireFault>
    ensures { Gives result (counter_of (view object.now)) }
{
    let count = required_signed(object, Field::Count)?;
    Ok(ObjectBody::Counter(i128::from(count)))
}

fn map_of(alloc: Global, object: Option<&Value>) -> Result<ObjectBody, WireFault>
    ensures { Gives result (map_of (option_map (λ v. view v.now) object.entry)) }
{
    match object {
        None => Err(missing(Field::Counter)),
        Some(object) => {
            let cells = entries_in(alloc, object)?;
            Ok(ObjectBody::Map(cells))
        }
    }
}

// Where a counter is there, no map is read.
fn body_from(
    alloc: Global,
    counter: Option<&Value>,
    object: &Value,
) -> Result<ObjectBody, WireFault>
    ensures { Gives result (body_from (option_map (λ v. view v.now) counter.entry) (view object.now)) }
{
    match counter {
        Some(counter) => counter_of(counter),
        None => {
            let map = optional_object(object, Field::Map)?;
            map_of(alloc, map)
        }
    }
}

#[tactic(auto, unfolding(crate::specs::States::body))]
fn body_of(alloc: Global, object: &Value) -> Result<ObjectBody, WireFault>
    ensures { Gives result (body (view object.now)) }
{
    let counter = optional_object(object, Field::Counter)?;
    body_from(alloc, counter, object)
}

#[tactic(auto, unfolding(crate::specs::States::state_in))]
fn state_in(alloc: Global, object: &Value) -> Result<ObjectState, WireFault>
    ensures { Gives result (state_in (view object.now)) }
{
    let id = required_id(object)?;
    let sites = sites_of(alloc, object)?;
    let tombstone = flag(object, Field::Tombstone)?;
    let created = flag(object, Field::Created)?;
    let body = body_of(alloc, object)?;
    Ok(ObjectState {
        id,
        sites,
        tombstone,
        created,
        body,
    })
}

/// The object that an item of an OBJECT_SYNC frame is, or the first fault (OST2; the form of an item is this project's
/// own).
///
/// A value that is no object is `BadField("state")`. In `object` come `objectId`, `siteTimeserials`, `tombstone`,
/// `created`, then `counter` with `count`, or `map` with `semantics` and `entries`. Where both are absent it is
/// `Missing("counter")`, and where `counter` is there `map` isn't read. A key or value of `siteTimeserials` in another
/// form is `BadField("siteTimeserials")`. In an entry come `tombstone`, `data`, which is absent exactly in a tombstone,
/// and `timeserial`; entries are read in the order of their keys. `tombstone` and `created` are false where they are
/// absent. `NoMemory` comes from the allocator alone.
#[tactic(auto, unfolding(crate::specs::States::state_at))]
pub fn read_state(alloc: Global, value: &Value) -> Result<ObjectState, WireFault>
    ensures { Gives result (state_at (view value.now)) }
{
    check_object(value, Field::State)?;
    let object = required_object(value, Field::Object)?;
    state_in(alloc, object)
}

// WRITING

fn set_held(alloc: Global, object: &mut Object, held: &Option<MapValue>) -> Result<(), NoMemory>
    ensures { OnOk result (members_view object.new.entries ≡ with_held held.now (members_view object.old.entries)) }
{
    match held {
        Some(value) => set_value(alloc, object, Field::Data, value_json(alloc, value)?),
        None => set_bool(alloc, object, Field::Tombstone, true),
    }
}

#[tactic(auto, unfolding(crate::specs::States::cell_json))]
fn cell_json(alloc: Global, cell: &MapCell) -> Result<Value, NoMemory>
    ensures { IfOk result (λ v. view v ≡ cell_json cell.now) }
{
    let mut object = Map::new(alloc);
    set_serial(alloc, &mut object, Field::Timeserial, &cell.serial)?;
    set_held(alloc, &mut object, &cell.value)?;
    Ok(Value::Object(object))
}

impl ToMember for (Text, MapCell) {
    ghost use Rattle.rl_wireobj.specs.States.{cell_json};

    ghost key_of = { λ c. c.0 };

    ghost json_of = { λ c. cell_json c.1 };

    fn key(&self) -> &str {
        self.0.as_str()
    }

    fn json(&self, alloc: Global) -> Result<Value, NoMemory> {
        cell_json(alloc, &self.1)
    }
}

#[tactic(auto, unfolding(crate::specs::States::cells_json))]
fn cells_json(alloc: Global, cells: &List<(Text, MapCell)>) -> Result<Value, NoMemory>
    ensures { IfOk result (λ v. view v ≡ cells_json cells.now) }
{
    let members = write_members(alloc, cells.as_slice())?;
    let mut object = Map::new(alloc);
    set_value(alloc, &mut object, Field::Entries, Value::Object(members))?;
    Ok(Value::Object(object))
}

// The nearest whole number of 64 bits.
fn nearest(sum: i128) -> i64
    ensures { result ≡ nearest sum }
{
    if sum < i64::MIN as i128 {
        i64::MIN
    } else if (i64::MAX as i128) < sum {
        i64::MAX
    } else {
        sum as i64
    }
}

#[tactic(auto, unfolding(crate::specs::States::counter_json))]
fn counter_json(alloc: Global, sum: i128) -> Result<Value, NoMemory>
    ensures { IfOk result (λ v. view v ≡ counter_json sum) }
{
    let mut object = Map::new(alloc);
    set_signed(alloc, &mut object, Field::Count, nearest(sum))?;
    Ok(Value::Object(object))
}

fn set_body(alloc: Global, object: &mut Object, body: &ObjectBody) -> Result<(), NoMemory>
    ensures { OnOk result (members_view object.new.entries ≡ with_body body.now (members_view object.old.entries)) }
{
    match body {
        ObjectBody::Counter(sum) => {
            set_value(alloc, object, Field::Counter, counter_json(alloc, *sum)?)
        }
        ObjectBody::Map(cells) => set_value(alloc, object, Field::Map, cells_json(alloc, cells)?),
    }
}

impl ToMember for (SiteCode, OpSerial) {
    ghost use Rattle.serde_json.specs.Data.{string};
    ghost use Rattle.rl_ids.specs.Objects.{op_serial_text};

    ghost key_of = { λ s. s.0 };

    ghost json_of = { λ s. string (op_serial_text s.1) };

    fn key(&self) -> &str {
        self.0.as_str()
    }

    fn json(&self, alloc: Global) -> Result<Value, NoMemory> {
        let text = write_op_serial(alloc, &self.1)?;
        Ok(Value::String(text.into_string()))
    }
}

#[tactic(auto, unfolding(crate::specs::States::sites_json))]
fn sites_json(alloc: Global, sites: &List<(SiteCode, OpSerial)>) -> Result<Value, NoMemory>
    ensures { IfOk result (λ v. view v ≡ sites_json sites.now) }
{
    Ok(Value::Object(write_members(alloc, sites.as_slice())?))
}

#[tactic(auto, unfolding(crate::specs::States::state_members))]
fn state_object(alloc: Global, state: &ObjectState) -> Result<Object, NoMemory>
    ensures { IfOk result (λ m. members_view m.entries ≡ state_members state.now) }
{
    let mut object = Map::new(alloc);
    set_id(alloc, &mut object, &state.id)?;
    let sites = sites_json(alloc, &state.sites)?;
    set_value(alloc, &mut object, Field::SiteTimeserials, sites)?;
    set_bool(alloc, &mut object, Field::Tombstone, state.tombstone)?;
    set_bool(alloc, &mut object, Field::Created, state.created)?;
    set_body(alloc, &mut object, &state.body)?;
    Ok(object)
}

/// An object as an item of an OBJECT_SYNC frame. `semantics` is left out, an entry's `tombstone` is written exactly where
/// it is true, everything else always. A sum that 64 bits don't hold is written as the nearest number that they hold.
/// An object that can be sent is read as the same again.
#[tactic(auto, using(crate::proofs::Again::written_state))]
pub fn state_value(alloc: Global, state: &ObjectState) -> Result<Value, NoMemory>
    ensures value { IfOk result (λ v. view v ≡ state_json state.now) }
    ensures reads_back { IfOk result (λ v. IsSendableState state.now → state_at (view v) ≡ Ok state.now) }
{
    state_json(alloc, state)
}

#[tactic(auto, unfolding(crate::specs::States::state_json))]
fn state_json(alloc: Global, state: &ObjectState) -> Result<Value, NoMemory>
    ensures { IfOk result (λ v. view v ≡ state_json state.now) }
{
    let inside = state_object(alloc, state)?;
    let mut object = Map::new(alloc);
    set_value(alloc, &mut object, Field::Object, Value::Object(inside))?;
    Ok(Value::Object(object))
}
