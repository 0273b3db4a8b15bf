// Messages are read.
ghost use Rattle.std.specs.Prelude.{◌≡◌};
ghost use Rattle.serde_json.specs.View.{view, items_view};
ghost use Rattle.rl_jsonfields.specs.Fields.{Gives};
ghost use Rattle.rl_wireitems.specs.Items.{message_item, message_items};

use crate::defaults::own_or_id_at;
use rl_ids::List;
use rl_jsonfields::{Field, check_object, check_text, optional_any_text, take_text};
use rl_types::{Head, Item, WireFault};
use serde_json::Value;
use std::alloc::Global;

#[tactic(auto, unfolding(crate::specs::Items::message_item))]
fn message_in(alloc: Global, head: &Head, index: u64, value: Value) -> Result<Item, WireFault>
    ensures { Gives result (message_item head.now index (view value)) }
{
    let mut value = value;
    check_object(&value, Field::Messages)?;
    let id = optional_any_text(alloc, &value, Field::Id)?;
    let name = optional_any_text(alloc, &value, Field::Name)?;
    check_text(&value, Field::Data)?;
    let encoding = optional_any_text(alloc, &value, Field::Encoding)?;
    let client = optional_any_text(alloc, &value, Field::ClientId)?;
    Ok(Item {
        id: own_or_id_at(alloc, id, head, index)?,
        name,
        payload: take_text(&mut value, Field::Data),
        encoding,
        client,
    })
}

/// The messages of a list (TM2), each with its index. A message without `id` takes the frame's `id`, a colon
/// and its index, where the frame has one. It is `BadField("messages")` where an item is no object, and
/// `BadField` with a field's name where that field is no text: the fault of the first item that has one, in
/// the order `id`, `name`, `data`, `encoding`, `clientId`. The data is moved, not copied.
#[tactic(auto, unfolding(rl_jsonfields::specs::Fields::each_at))]
pub fn read_message_items(
    alloc: Global,
    head: &Head,
    values: Vec<Value>,
) -> Result<List<Item>, WireFault>
    ensures { Gives result (message_items head.now (items_view values.items)) }
{
    let mut items = List::new(alloc);
    for value in values {
        let index = items.len() as u64;
        items.push(message_in(alloc, head, index, value)?)?;
    }
    Ok(items)
}
