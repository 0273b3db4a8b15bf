// Items are written.
ghost use Rattle.std.specs.Prelude.{◌≡◌, [], IfOk, OnOk, unwrap_or};
ghost use Rattle.serde_json.specs.View.{view, items_view, members_view};
ghost use Rattle.rl_jsonfields.specs.Texts.{with_text, with_number, text_unless, number_unless};
ghost use Rattle.rl_jsonfields.specs.declared.names.Field.TheVariants as fields;
ghost use Rattle.rl_wireitems.specs.Items.{message_value, message_values, presence_value, presence_values, sync_value, sync_values};

use crate::actions::action_number;
use crate::defaults::{id_at, or_empty, stamp_of};
use rl_ids::{List, NoMemory, Text};
use rl_jsonfields::{
    Field, Object, set_number, set_number_unless, set_some_text, set_text, set_text_unless,
};
use rl_types::{Head, Item, PresenceItem};
use serde_json::{Map, Value};
use std::alloc::Global;

#[tactic(auto, unfolding(crate::specs::Items::message_value))]
fn message_value(alloc: Global, item: &Item) -> Result<Value, NoMemory>
    ensures { IfOk result (λ v. view v ≡ message_value item.now) }
{
    let mut map = Map::new(alloc);
    set_some_text(alloc, &mut map, Field::Id, &item.id)?;
    set_some_text(alloc, &mut map, Field::Name, &item.name)?;
    set_some_text(alloc, &mut map, Field::Data, &item.payload)?;
    set_some_text(alloc, &mut map, Field::Encoding, &item.encoding)?;
    set_some_text(alloc, &mut map, Field::ClientId, &item.client)?;
    Ok(Value::Object(map))
}

// Writes the connection id, unless it is the frame's.
fn set_conn(
    alloc: Global,
    map: &mut Object,
    head: &Head,
    item: &PresenceItem,
) -> Result<(), NoMemory>
    ensures { OnOk result (members_view map.new.entries ≡ with_text fields.ConnectionId (text_unless (unwrap_or head.now.conn []) item.now.conn) (members_view map.old.entries)) }
{
    let default = or_empty(&head.conn);
    set_text_unless(alloc, map, Field::ConnectionId, default, item.conn.as_str())
}

// Writes the id, unless it is the one that the frame gives at this place.
fn set_id(
    alloc: Global,
    map: &mut Object,
    default: &Option<Text>,
    item: &PresenceItem,
) -> Result<(), NoMemory>
    ensures { OnOk result (members_view map.new.entries ≡ with_text fields.Id (text_unless (unwrap_or default.now []) item.now.id) (members_view map.old.entries)) }
{
    set_text_unless(alloc, map, Field::Id, or_empty(default), item.id.as_str())
}

// Writes the moment, unless it is the frame's.
fn set_stamp(
    alloc: Global,
    map: &mut Object,
    head: &Head,
    item: &PresenceItem,
) -> Result<(), NoMemory>
    ensures { OnOk result (members_view map.new.entries ≡ with_number fields.Timestamp (number_unless (unwrap_or head.now.stamp 0) item.now.stamp) (members_view map.old.entries)) }
{
    let default = stamp_of(head);
    set_number_unless(alloc, map, Field::Timestamp, default, item.stamp.0)
}

#[tactic(auto, unfolding(crate::specs::Items::presence_value))]
fn presence_value(
    alloc: Global,
    head: &Head,
    index: u64,
    item: &PresenceItem,
) -> Result<Value, NoMemory>
    ensures { IfOk result (λ v. view v ≡ presence_value head.now index item.now) }
{
    let default = id_at(alloc, head, index)?;
    let mut map = Map::new(alloc);
    set_number(alloc, &mut map, Field::Action, action_number(item.action))?;
    set_text_unless(alloc, &mut map, Field::ClientId, "", item.client.as_str())?;
    set_conn(alloc, &mut map, head, item)?;
    set_id(alloc, &mut map, &default, item)?;
    set_stamp(alloc, &mut map, head, item)?;
    set_some_text(alloc, &mut map, Field::Data, &item.payload)?;
    set_some_text(alloc, &mut map, Field::Encoding, &item.encoding)?;
    Ok(Value::Object(map))
}

#[tactic(auto, unfolding(crate::specs::Items::sync_value))]
fn sync_value(alloc: Global, item: &PresenceItem) -> Result<Value, NoMemory>
    ensures { IfOk result (λ v. view v ≡ sync_value item.now) }
{
    let mut map = Map::new(alloc);
    set_number(alloc, &mut map, Field::Action, action_number(item.action))?;
    set_text(alloc, &mut map, Field::ClientId, item.client.as_str())?;
    set_text(alloc, &mut map, Field::ConnectionId, item.conn.as_str())?;
    set_text(alloc, &mut map, Field::Id, item.id.as_str())?;
    set_number(alloc, &mut map, Field::Timestamp, item.stamp.0)?;
    set_some_text(alloc, &mut map, Field::Data, &item.payload)?;
    set_some_text(alloc, &mut map, Field::Encoding, &item.encoding)?;
    Ok(Value::Object(map))
}

/// The messages of a MESSAGE frame as JSON. Each field is written exactly where it is there.
pub fn message_values(alloc: Global, items: &List<Item>) -> Result<Vec<Value>, NoMemory>
    ensures { IfOk result (λ v. items_view v.items ≡ message_values items.now) }
{
    let mut values = Vec::new(alloc);
    for item in items.as_slice() {
        values.push(message_value(alloc, item)?)?;
    }
    Ok(values)
}

/// The items of a PRESENCE frame with this head as JSON. An item's `clientId`, `connectionId`, `id` and
/// `timestamp` are left out exactly where it reads the same without them.
pub fn presence_values(
    alloc: Global,
    head: &Head,
    items: &List<PresenceItem>,
) -> Result<Vec<Value>, NoMemory>
    ensures { IfOk result (λ v. items_view v.items ≡ presence_values head.now items.now) }
{
    let mut values = Vec::new(alloc);
    for (i, item) in items.as_slice().iter().enumerate() {
        values.push(presence_value(alloc, head, i as u64, item)?)?;
    }
    Ok(values)
}

/// The items of a SYNC frame as JSON: `clientId`, `connectionId`, `id` and `timestamp` are always written.
pub fn sync_values(alloc: Global, items: &List<PresenceItem>) -> Result<Vec<Value>, NoMemory>
    ensures { IfOk result (λ v. items_view v.items ≡ sync_values items.now) }
{
    let mut values = Vec::new(alloc);
    for item in items.as_slice() {
        values.push(sync_value(alloc, item)?)?;
    }
    Ok(values)
}
