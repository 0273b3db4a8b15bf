// What an item takes from its frame.
ghost use Rattle.std.specs.Prelude.{◌≡◌, [], IfOk, unwrap_or};
ghost use Rattle.rl_wireitems.specs.Items.{id_at, own_or};

use rl_ids::{NoMemory, Text};
use rl_types::Head;
use std::alloc::Global;

// The id of an item without one: the frame's, a colon, the index.
pub fn id_at(alloc: Global, head: &Head, index: u64) -> Result<Option<Text>, NoMemory>
    ensures { IfOk result (λ id. id ≡ id_at head.now index) }
{
    match &head.id {
        None => Ok(None),
        Some(id) => {
            let mut text = Text::from_str(alloc, id.as_str())?;
            text.push_ascii(b':')?;
            text.push_decimal(index)?;
            Ok(Some(text))
        }
    }
}

// The item's own id, else the one that it takes from the frame.
pub fn own_or_id_at(
    alloc: Global,
    own: Option<Text>,
    head: &Head,
    index: u64,
) -> Result<Option<Text>, NoMemory>
    ensures { IfOk result (λ id. id ≡ own_or own (id_at head.now index)) }
{
    match own {
        Some(id) => Ok(Some(id)),
        None => id_at(alloc, head, index),
    }
}

// The text, or none of its bytes.
pub fn or_empty(text: &Option<Text>) -> &str
    ensures { result.now ≡ unwrap_or text.now [] }
{
    match text {
        Some(text) => text.as_str(),
        None => "",
    }
}

pub fn text_or(alloc: Global, text: Option<Text>, default: &str) -> Result<Text, NoMemory>
    ensures { IfOk result (λ t. t ≡ unwrap_or text default.now) }
{
    match text {
        Some(text) => Ok(text),
        None => Text::from_str(alloc, default),
    }
}

// The frame's moment, or 0.
pub fn stamp_of(head: &Head) -> u64
    ensures { result ≡ unwrap_or head.now.stamp 0 }
{
    match head.stamp {
        Some(stamp) => stamp.0,
        None => 0,
    }
}

// The item's own connection id, else the frame's, else the empty text.
pub fn conn_or(alloc: Global, own: Option<Text>, head: &Head) -> Result<Text, NoMemory>
    ensures { IfOk result (λ t. t ≡ unwrap_or own (unwrap_or head.now.conn [])) }
{
    text_or(alloc, own, or_empty(&head.conn))
}

// The item's own moment, else the frame's, else 0.
pub fn stamp_or(own: Option<u64>, head: &Head) -> u64
    ensures { result ≡ unwrap_or own (unwrap_or head.now.stamp 0) }
{
    own.unwrap_or(stamp_of(head))
}
