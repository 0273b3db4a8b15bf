//! Frames with a list of items. The list is moved out of the object, so that no item's data is copied.
ghost use Rattle.std.specs.Prelude.{◌≡◌, IfOk, unwrap_or, option_map};
ghost use Rattle.serde_json.specs.Data.{no_items};
ghost use Rattle.serde_json.specs.View.{view, items_view};
ghost use Rattle.rl_jsonfields.specs.Fields.{Gives};
ghost use Rattle.rl_wireitems.specs.Items.{sync_head};
ghost use Rattle.rl_wire.specs.Frames.{presence, message, sync, operations, objects};

use crate::cursors::optional_cursor;
use crate::heads::{channel_of, head_of};
use rl_ids::{NoMemory, Text};
use rl_jsonfields::{Field, optional_items, required_items};
use rl_types::{Frame, Head, WireFault};
use rl_wireitems::{read_message_items, read_presence_items};
use rl_wireobj::read_items;
use serde_json::Value;
use std::alloc::Global;

#[tactic(auto, unfolding(crate::specs::Frames::presence))]
pub fn presence_of(alloc: Global, object: &mut Value) -> Result<Frame, WireFault>
    ensures { Gives result (presence (view object.old)) }
{
    let head = head_of(alloc, object)?;
    let values = required_items(object, Field::Presence)?;
    let items = read_presence_items(alloc, &head, values)?;
    Ok(Frame::Presence { head, items })
}

#[tactic(auto, unfolding(crate::specs::Frames::message))]
pub fn message_of(alloc: Global, object: &mut Value) -> Result<Frame, WireFault>
    ensures { Gives result (message (view object.old)) }
{
    let head = head_of(alloc, object)?;
    let values = required_items(object, Field::Messages)?;
    let items = read_message_items(alloc, &head, values)?;
    Ok(Frame::Message { head, items })
}

// A head of the channel alone: a SYNC frame has no fields from which its items take anything.
fn head_without_fields(alloc: Global, channel: &Text) -> Result<Head, NoMemory>
    ensures { IfOk result (λ h. h ≡ sync_head channel.now) }
{
    Ok(Head {
        channel: Text::from_str(alloc, channel.as_str())?,
        msg: None,
        serial: None,
        conn: None,
        id: None,
        stamp: None,
    })
}

#[tactic(auto, unfolding(crate::specs::Frames::sync))]
pub fn sync_of(alloc: Global, object: &mut Value) -> Result<Frame, WireFault>
    ensures { Gives result (sync (view object.old)) }
{
    let channel = channel_of(alloc, object)?;
    let at = optional_cursor(alloc, object)?;
    let values = optional_items(object, Field::Presence)?;
    let head = head_without_fields(alloc, &channel)?;
    let items = read_presence_items(alloc, &head, or_none(alloc, values))?;
    Ok(Frame::Sync { channel, at, items })
}

#[tactic(auto, unfolding(crate::specs::Frames::operations))]
pub fn operations_of(alloc: Global, object: &mut Value) -> Result<Frame, WireFault>
    ensures { Gives result (operations (view object.old)) }
{
    let head = head_of(alloc, object)?;
    let values = required_items(object, Field::State)?;
    let ops = read_items(alloc, values.as_slice())?;
    Ok(Frame::Object { head, ops })
}

#[tactic(auto, unfolding(crate::specs::Frames::objects))]
pub fn objects_of(alloc: Global, object: &mut Value) -> Result<Frame, WireFault>
    ensures { Gives result (objects (view object.old)) }
{
    let channel = channel_of(alloc, object)?;
    let at = optional_cursor(alloc, object)?;
    let values = or_none(alloc, optional_items(object, Field::State)?);
    let states = read_items(alloc, values.as_slice())?;
    Ok(Frame::ObjectSync {
        channel,
        at,
        states,
    })
}

// An absent list is empty.
fn or_none(alloc: Global, values: Option<Vec<Value>>) -> Vec<Value>
    ensures { items_view result.items ≡ unwrap_or (option_map (λ v. items_view v.items) values) no_items }
{
    match values {
        Some(values) => values,
        None => Vec::new(alloc),
    }
}
