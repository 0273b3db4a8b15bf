ghost use Rattle.std.specs.Prelude.{◌≡◌, Some, IfOk, option_and_then, option_map};
ghost use Rattle.serde_json.specs.View.{view};
ghost use Rattle.rl_jsonfields.specs.declared.names.Field.TheVariants as fields;
ghost use Rattle.rl_jsonfields.specs.Fields.{Gives, optional, shaped};
ghost use Rattle.rl_wire.specs.Frames.{cursor, cursor_of};
ghost use Rattle.rl_wire.specs.Texts.{cursor_text};

use rl_ids::{NoMemory, Text};
use rl_jsonfields::{Field, bad, find};
use rl_types::{Cursor, WireFault};
use serde_json::Value;
use std::alloc::Global;

// A text, cut at its first colon.
fn cursor_of(alloc: Global, text: &str) -> Result<Cursor, WireFault>
    ensures { Gives result (shaped fields.ChannelSerial (cursor_of text.now)) }
{
    match text.split_once(':') {
        Some((sequence, cursor)) => Ok(Cursor {
            sequence: Text::from_str(alloc, sequence)?,
            cursor: Text::from_str(alloc, cursor)?,
        }),
        None => Err(bad(Field::ChannelSerial)),
    }
}

/// Where a page of a sync stands (RTP18a), or `None` where the field is absent. It is `BadField` where it is no
/// text, or one without a colon.
#[tactic(auto, unfolding(rl_jsonfields::specs::Fields::optional))]
pub fn optional_cursor(alloc: Global, object: &Value) -> Result<Option<Cursor>, WireFault>
    ensures { Gives result (optional cursor fields.ChannelSerial (view object.now)) }
{
    match find(object, Field::ChannelSerial) {
        None => Ok(None),
        Some(value) => match value.as_str() {
            Some(text) => Ok(Some(cursor_of(alloc, text)?)),
            None => Err(bad(Field::ChannelSerial)),
        },
    }
}

/// The text of a cursor: its two texts and a colon between them.
pub fn write_cursor(alloc: Global, cursor: &Cursor) -> Result<Text, NoMemory>
    ensures { IfOk result (λ t. t ≡ cursor_text cursor.now) }
{
    let mut text = Text::from_str(alloc, cursor.sequence.as_str())?;
    text.push_ascii(b':')?;
    text.push_str(cursor.cursor.as_str())?;
    Ok(text)
}
