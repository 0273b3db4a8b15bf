// What is told of members is read.
ghost use Rattle.std.specs.Prelude.{◌≡◌};
ghost use Rattle.serde_json.specs.View.{view, items_view};
ghost use Rattle.rl_jsonfields.specs.Fields.{Gives};
ghost use Rattle.rl_wireitems.specs.Items.{presence_item, presence_items};

use crate::actions::required_action;
use crate::defaults::{conn_or, id_at, or_empty, stamp_or, text_or};
use rl_ids::{List, Moment};
use rl_jsonfields::{
    Field, check_object, check_text, optional_any_text, optional_number, take_text,
};
use rl_types::{Head, PresenceItem, WireFault};
use serde_json::Value;
use std::alloc::Global;

#[tactic(auto, unfolding(crate::specs::Items::presence_item))]
fn presence_in(
    alloc: Global,
    head: &Head,
    index: u64,
    value: Value,
) -> Result<PresenceItem, WireFault>
    ensures { Gives result (presence_item head.now index (view value)) }
{
    let mut value = value;
    check_object(&value, Field::Presence)?;
    let action = required_action(&value)?;
    let client = optional_any_text(alloc, &value, Field::ClientId)?;
    let conn = optional_any_text(alloc, &value, Field::ConnectionId)?;
    let id = optional_any_text(alloc, &value, Field::Id)?;
    let stamp = optional_number(&value, Field::Timestamp, 0, u64::MAX)?;
    check_text(&value, Field::Data)?;
    let encoding = optional_any_text(alloc, &value, Field::Encoding)?;
    let default = id_at(alloc, head, index)?;
    Ok(PresenceItem {
        action,
        client: text_or(alloc, client, "")?,
        conn: conn_or(alloc, conn, head)?,
        id: text_or(alloc, id, or_empty(&default))?,
        stamp: Moment(stamp_or(stamp, head)),
        payload: take_text(&mut value, Field::Data),
        encoding,
    })
}

/// The presence items of a list (TP3), each with its index. An item without `id` takes the frame's `id`, a
/// colon and its index, and one without `connectionId` or `timestamp` the frame's; what is then still absent
/// reads as the empty text, or 0. It is `BadField("presence")` where an item is no object,
/// `Missing("action")` where it has no action, and `BadField` with a field's name where that field has
/// another shape: the fault of the first item that has one, in the order `action`, `clientId`,
/// `connectionId`, `id`, `timestamp`, `data`, `encoding`. The data is moved, not copied.
#[tactic(auto, unfolding(rl_jsonfields::specs::Fields::each_at))]
pub fn read_presence_items(
    alloc: Global,
    head: &Head,
    values: Vec<Value>,
) -> Result<List<PresenceItem>, WireFault>
    ensures { Gives result (presence_items head.now (items_view values.items)) }
{
    let mut items = List::new(alloc);
    for value in values {
        let index = items.len() as u64;
        items.push(presence_in(alloc, head, index, value)?)?;
    }
    Ok(items)
}
