// The parts of the frames in which pages are sent.
ghost use Rattle.std.specs.Prelude.{◌≡◌, IfOk};
ghost use Rattle.std.specs.Fmt.{decimal};
ghost use Rattle.rl_pages.specs.Frames as frames;

use rl_ids::{NoMemory, Text};
use rl_types::Cursor;
use std::alloc::Global;

// Where the page of this number stands in its sync.
pub(crate) fn page_at(alloc: Global, sequence: u64, number: u64) -> Result<Cursor, NoMemory>
    ensures { IfOk result (λ at. at ≡ frames.page_at sequence number) }
{
    Ok(Cursor {
        sequence: decimal_text(alloc, sequence)?,
        cursor: decimal_text(alloc, number)?,
    })
}

// Where a sync ends.
pub(crate) fn end_at(alloc: Global, sequence: u64) -> Result<Cursor, NoMemory>
    ensures { IfOk result (λ at. at ≡ frames.end_at sequence) }
{
    Ok(Cursor {
        sequence: decimal_text(alloc, sequence)?,
        cursor: Text::new(alloc),
    })
}

fn decimal_text(alloc: Global, number: u64) -> Result<Text, NoMemory>
    ensures { IfOk result (λ text. text ≡ decimal number) }
{
    let mut text = Text::new(alloc);
    text.push_decimal(number)?;
    Ok(text)
}
