//! The members of each frame's JSON value.
ghost use Rattle.std.specs.Prelude.{◌≡◌, Some, IfOk, option_map, OnOk, OnErr};
ghost use Rattle.serde_json.specs.Data.{object, string};
ghost use Rattle.serde_json.specs.View.{view, members_view};
ghost use Rattle.rl_ids.specs.Forms.{serial_text};
ghost use Rattle.rl_types.specs.declared.frames.Frame.TheVariants as frames;
ghost use Rattle.rl_jsonfields.specs.declared.names.Field.TheVariants as fields;
ghost use Rattle.rl_jsonfields.specs.Texts.{with_some, with_text};
ghost use Rattle.rl_wire.specs.Texts.{action, with_error, given_text, cursor_text, head_members, details_value, details_of, frame_members};

use crate::codes::{error_value, set_error};
use crate::cursors::write_cursor;
use rl_ids::{ChannelSerial, List, Moment, NoMemory, Text, write_serial};
use rl_jsonfields::{
    Field, Object, set_number, set_some_number, set_some_text, set_text, set_value,
};
use rl_numbers::actions;
use rl_types::{Cursor, Given, Head, Item, ObjectOp, ObjectState, PresenceItem};
use rl_wireitems::{message_values, presence_values, sync_values};
use rl_wireobj::item_values;
use serde_json::{Map, Value};
use std::alloc::Global;

/// The object of an action without fields.
pub fn action_members_of(alloc: Global, number: u64) -> Result<Object, NoMemory>
    ensures { IfOk result (λ m. members_view m.entries ≡ action number) }
{
    let mut object = Map::new(alloc);
    set_number(alloc, &mut object, Field::Action, number)?;
    Ok(object)
}

// An action with a channel.
fn channel_members_of(alloc: Global, number: u64, channel: &Text) -> Result<Object, NoMemory>
    ensures { IfOk result (λ m. members_view m.entries ≡ with_text fields.Channel (Some channel.now) (action number)) }
{
    let mut object = action_members_of(alloc, number)?;
    set_text(alloc, &mut object, Field::Channel, channel.as_str())?;
    Ok(object)
}

#[tactic(auto, unfolding(crate::specs::Texts::frame_members))]
pub fn ack_members_of(alloc: Global, serial: u64, count: u32) -> Result<Object, NoMemory>
    ensures { IfOk result (λ m. members_view m.entries ≡ frame_members (frames.Ack serial count)) }
{
    let mut object = action_members_of(alloc, actions::ACK)?;
    set_number(alloc, &mut object, Field::Count, u64::from(count))?;
    set_number(alloc, &mut object, Field::MsgSerial, serial)?;
    Ok(object)
}

#[tactic(auto, unfolding(crate::specs::Texts::frame_members))]
pub fn nack_members_of(
    alloc: Global,
    serial: u64,
    count: u32,
    code: u32,
) -> Result<Object, NoMemory>
    ensures { IfOk result (λ m. members_view m.entries ≡ frame_members (frames.Nack serial count code)) }
{
    let mut object = action_members_of(alloc, actions::NACK)?;
    set_number(alloc, &mut object, Field::Count, u64::from(count))?;
    set_number(alloc, &mut object, Field::MsgSerial, serial)?;
    set_value(alloc, &mut object, Field::Error, error_value(alloc, code)?)?;
    Ok(object)
}

#[tactic(auto, unfolding(crate::specs::Texts::details_value))]
fn details_value(
    alloc: Global,
    key: &Text,
    ttl: u64,
    idle: u64,
    size: u64,
) -> Result<Value, NoMemory>
    ensures { IfOk result (λ v. view v ≡ details_value (details_of key.now ttl idle size)) }
{
    let mut object = Map::new(alloc);
    set_text(alloc, &mut object, Field::ConnectionKey, key.as_str())?;
    set_number(alloc, &mut object, Field::ConnectionStateTtl, ttl)?;
    set_number(alloc, &mut object, Field::MaxIdleInterval, idle)?;
    set_number(alloc, &mut object, Field::MaxMessageSize, size)?;
    Ok(Value::Object(object))
}

#[tactic(auto, unfolding(crate::specs::Texts::frame_members))]
pub fn connected_members_of(
    alloc: Global,
    conn: &Text,
    key: &Text,
    ttl: u64,
    idle: u64,
    size: u64,
    code: Option<u32>,
) -> Result<Object, NoMemory>
    ensures { IfOk result (λ m. members_view m.entries ≡ frame_members (frames.Connected conn.now key.now ttl idle size code)) }
{
    let details = details_value(alloc, key, ttl, idle, size)?;
    let mut object = action_members_of(alloc, actions::CONNECTED)?;
    set_text(alloc, &mut object, Field::ConnectionId, conn.as_str())?;
    set_value(alloc, &mut object, Field::ConnectionDetails, details)?;
    set_error(alloc, &mut object, code)?;
    Ok(object)
}

#[tactic(auto, unfolding(crate::specs::Texts::frame_members))]
pub fn disconnected_members_of(alloc: Global, code: Option<u32>) -> Result<Object, NoMemory>
    ensures { IfOk result (λ m. members_view m.entries ≡ frame_members (frames.Disconnected code)) }
{
    let mut object = action_members_of(alloc, actions::DISCONNECTED)?;
    set_error(alloc, &mut object, code)?;
    Ok(object)
}

#[tactic(auto, unfolding(crate::specs::Texts::frame_members))]
pub fn error_members_of(
    alloc: Global,
    channel: &Option<Text>,
    code: u32,
) -> Result<Object, NoMemory>
    ensures { IfOk result (λ m. members_view m.entries ≡ frame_members (frames.Error channel.now code)) }
{
    let mut object = action_members_of(alloc, actions::ERROR)?;
    set_some_text(alloc, &mut object, Field::Channel, channel)?;
    set_value(alloc, &mut object, Field::Error, error_value(alloc, code)?)?;
    Ok(object)
}

// Writes a channel serial. Where memory ends the object is as before.
fn set_serial(alloc: Global, object: &mut Object, serial: &ChannelSerial) -> Result<(), NoMemory>
    ensures ok { OnOk result (members_view object.new.entries ≡ with_text fields.ChannelSerial (Some (serial_text serial.now)) (members_view object.old.entries)) }
    ensures err { OnErr result (object.new.entries ≡ object.old.entries) }
{
    let text = write_serial(alloc, serial)?;
    set_text(alloc, object, Field::ChannelSerial, text.as_str())
}

// Writes a channel serial as it was given, where one was.
fn set_given(alloc: Global, object: &mut Object, serial: &Option<Given>) -> Result<(), NoMemory>
    ensures ok { OnOk result (members_view object.new.entries ≡ with_text fields.ChannelSerial (option_map given_text serial.now) (members_view object.old.entries)) }
    ensures err { OnErr result (object.new.entries ≡ object.old.entries) }
{
    match serial {
        Some(Given::Ours(serial)) => set_serial(alloc, object, serial),
        Some(Given::Other(text)) => set_text(alloc, object, Field::ChannelSerial, text.as_str()),
        None => Ok(()),
    }
}

#[tactic(auto, unfolding(crate::specs::Texts::frame_members))]
pub fn attach_members_of(
    alloc: Global,
    channel: &Text,
    serial: &Option<Given>,
) -> Result<Object, NoMemory>
    ensures { IfOk result (λ m. members_view m.entries ≡ frame_members (frames.Attach channel.now serial.now)) }
{
    let mut object = channel_members_of(alloc, actions::ATTACH, channel)?;
    set_given(alloc, &mut object, serial)?;
    Ok(object)
}

#[tactic(auto, unfolding(crate::specs::Texts::frame_members))]
pub fn attached_members_of(
    alloc: Global,
    channel: &Text,
    serial: &ChannelSerial,
    flags: u64,
    code: Option<u32>,
) -> Result<Object, NoMemory>
    ensures { IfOk result (λ m. members_view m.entries ≡ frame_members (frames.Attached channel.now serial.now flags code)) }
{
    let mut object = channel_members_of(alloc, actions::ATTACHED, channel)?;
    set_serial(alloc, &mut object, serial)?;
    set_number(alloc, &mut object, Field::Flags, flags)?;
    set_error(alloc, &mut object, code)?;
    Ok(object)
}

#[tactic(auto, unfolding(crate::specs::Texts::frame_members))]
pub fn detach_members_of(alloc: Global, channel: &Text) -> Result<Object, NoMemory>
    ensures { IfOk result (λ m. members_view m.entries ≡ frame_members (frames.Detach channel.now)) }
{
    channel_members_of(alloc, actions::DETACH, channel)
}

#[tactic(auto, unfolding(crate::specs::Texts::frame_members))]
pub fn detached_members_of(
    alloc: Global,
    channel: &Text,
    code: Option<u32>,
) -> Result<Object, NoMemory>
    ensures { IfOk result (λ m. members_view m.entries ≡ frame_members (frames.Detached channel.now code)) }
{
    let mut object = channel_members_of(alloc, actions::DETACHED, channel)?;
    set_error(alloc, &mut object, code)?;
    Ok(object)
}

// Writes the channel serial of an entry, where there is one.
fn set_some_serial(
    alloc: Global,
    object: &mut Object,
    serial: &Option<ChannelSerial>,
) -> Result<(), NoMemory>
    ensures ok { OnOk result (members_view object.new.entries ≡ with_text fields.ChannelSerial (option_map serial_text serial.now) (members_view object.old.entries)) }
    ensures err { OnErr result (object.new.entries ≡ object.old.entries) }
{
    match serial {
        Some(serial) => set_serial(alloc, object, serial),
        None => Ok(()),
    }
}

fn number_of(moment: Option<Moment>) -> Option<u64>
    ensures { result ≡ moment }
{
    match moment {
        Some(moment) => Some(moment.0),
        None => None,
    }
}

#[tactic(auto, unfolding(crate::specs::Texts::head_members))]
fn head_members_of(alloc: Global, number: u64, head: &Head) -> Result<Object, NoMemory>
    ensures { IfOk result (λ m. members_view m.entries ≡ head_members number head.now) }
{
    let mut object = channel_members_of(alloc, number, &head.channel)?;
    set_some_number(alloc, &mut object, Field::MsgSerial, head.msg)?;
    set_some_serial(alloc, &mut object, &head.serial)?;
    set_some_text(alloc, &mut object, Field::ConnectionId, &head.conn)?;
    set_some_text(alloc, &mut object, Field::Id, &head.id)?;
    set_some_number(alloc, &mut object, Field::Timestamp, number_of(head.stamp))?;
    Ok(object)
}

#[tactic(auto, unfolding(crate::specs::Texts::frame_members))]
pub fn presence_members_of(
    alloc: Global,
    head: &Head,
    items: &List<PresenceItem>,
) -> Result<Object, NoMemory>
    ensures { IfOk result (λ m. members_view m.entries ≡ frame_members (frames.Presence head.now items.now)) }
{
    let mut object = head_members_of(alloc, actions::PRESENCE, head)?;
    let values = presence_values(alloc, head, items)?;
    set_value(alloc, &mut object, Field::Presence, Value::Array(values))?;
    Ok(object)
}

#[tactic(auto, unfolding(crate::specs::Texts::frame_members))]
pub fn message_members_of(
    alloc: Global,
    head: &Head,
    items: &List<Item>,
) -> Result<Object, NoMemory>
    ensures { IfOk result (λ m. members_view m.entries ≡ frame_members (frames.Message head.now items.now)) }
{
    let mut object = head_members_of(alloc, actions::MESSAGE, head)?;
    let values = message_values(alloc, items)?;
    set_value(alloc, &mut object, Field::Messages, Value::Array(values))?;
    Ok(object)
}

// Writes a cursor, where there is one. Where memory ends the object is as before.
fn set_cursor(alloc: Global, object: &mut Object, at: &Option<Cursor>) -> Result<(), NoMemory>
    ensures ok { OnOk result (members_view object.new.entries ≡ with_text fields.ChannelSerial (option_map cursor_text at.now) (members_view object.old.entries)) }
    ensures err { OnErr result (object.new.entries ≡ object.old.entries) }
{
    match at {
        Some(cursor) => {
            let text = write_cursor(alloc, cursor)?;
            set_text(alloc, object, Field::ChannelSerial, text.as_str())
        }
        None => Ok(()),
    }
}

#[tactic(auto, unfolding(crate::specs::Texts::frame_members))]
pub fn sync_members_of(
    alloc: Global,
    channel: &Text,
    at: &Option<Cursor>,
    items: &List<PresenceItem>,
) -> Result<Object, NoMemory>
    ensures { IfOk result (λ m. members_view m.entries ≡ frame_members (frames.Sync channel.now at.now items.now)) }
{
    let mut object = channel_members_of(alloc, actions::SYNC, channel)?;
    set_cursor(alloc, &mut object, at)?;
    let values = sync_values(alloc, items)?;
    set_value(alloc, &mut object, Field::Presence, Value::Array(values))?;
    Ok(object)
}

#[tactic(auto, unfolding(crate::specs::Texts::frame_members))]
pub fn operations_members_of(
    alloc: Global,
    head: &Head,
    ops: &List<ObjectOp>,
) -> Result<Object, NoMemory>
    ensures { IfOk result (λ m. members_view m.entries ≡ frame_members (frames.Object head.now ops.now)) }
{
    let mut object = head_members_of(alloc, actions::OBJECT, head)?;
    let values = item_values(alloc, ops.as_slice())?;
    set_value(alloc, &mut object, Field::State, Value::Array(values))?;
    Ok(object)
}

#[tactic(auto, unfolding(crate::specs::Texts::frame_members))]
pub fn objects_members_of(
    alloc: Global,
    channel: &Text,
    at: &Option<Cursor>,
    states: &List<ObjectState>,
) -> Result<Object, NoMemory>
    ensures { IfOk result (λ m. members_view m.entries ≡ frame_members (frames.ObjectSync channel.now at.now states.now)) }
{
    let mut object = channel_members_of(alloc, actions::OBJECT_SYNC, channel)?;
    set_cursor(alloc, &mut object, at)?;
    let values = item_values(alloc, states.as_slice())?;
    set_value(alloc, &mut object, Field::State, Value::Array(values))?;
    Ok(object)
}
