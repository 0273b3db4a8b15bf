//! Bodies, as the last words of a line.
ghost use Rattle.std.specs.Prelude.{◌≡◌, ◌++◌, flat_map, OnOk};
ghost use Rattle.rl_model.specs.Report.{action_word, body_words, item_words, op_words, presence_words, spaced};

use crate::lists::{Printed, push_all};
use crate::words::{push_quoted, push_quoted_or_dash, push_word};
use rl_ids::{Blob, Epoch, NoMemory};
use rl_types::{Body, Item, ObjectOp, PresenceAction, PresenceItem};

impl Printed for Item {
    ghost text_of = { λ epoch item. spaced (item_words item) };

    fn push_to(&self, out: &mut Blob, _epoch: Epoch) -> Result<(), NoMemory> {
        push_word(out, "|")?;
        push_quoted_or_dash(out, &self.id)?;
        push_quoted_or_dash(out, &self.name)?;
        push_quoted_or_dash(out, &self.payload)
    }
}

fn action_word(action: PresenceAction) -> &'static str
    ensures { result.now ≡ action_word action }
{
    match action {
        PresenceAction::Absent => "absent",
        PresenceAction::Present => "present",
        PresenceAction::Enter => "enter",
        PresenceAction::Leave => "leave",
        PresenceAction::Update => "update",
    }
}

impl Printed for PresenceItem {
    ghost text_of = { λ epoch item. spaced (presence_words item) };

    fn push_to(&self, out: &mut Blob, _epoch: Epoch) -> Result<(), NoMemory> {
        push_word(out, "|")?;
        push_word(out, action_word(self.action))?;
        push_quoted(out, &self.client)?;
        push_quoted_or_dash(out, &self.payload)
    }
}

// The words of all messages.
fn push_items(out: &mut Blob, epoch: Epoch, items: &[Item]) -> Result<(), NoMemory>
    ensures { OnOk result (out.new ≡ out.old ++ spaced (flat_map item_words items.now)) }
{
    push_all(out, epoch, items)
}

// The words of all presence items.
fn push_presence(out: &mut Blob, epoch: Epoch, items: &[PresenceItem]) -> Result<(), NoMemory>
    ensures { OnOk result (out.new ≡ out.old ++ spaced (flat_map presence_words items.now)) }
{
    push_all(out, epoch, items)
}

// The words of all operations.
fn push_ops(out: &mut Blob, epoch: Epoch, ops: &[ObjectOp]) -> Result<(), NoMemory>
    ensures { OnOk result (out.new ≡ out.old ++ spaced (flat_map op_words ops.now)) }
{
    push_all(out, epoch, ops)
}

impl Printed for Body {
    ghost text_of = { λ epoch body. spaced (body_words body) };

    fn push_to(&self, out: &mut Blob, epoch: Epoch) -> Result<(), NoMemory> {
        match self {
            Body::Messages(items) => {
                push_word(out, "message")?;
                push_items(out, epoch, items.as_slice())
            }
            Body::Presence(items) => {
                push_word(out, "presence")?;
                push_presence(out, epoch, items.as_slice())
            }
            Body::Objects(ops) => {
                push_word(out, "objects")?;
                push_ops(out, epoch, ops.as_slice())
            }
        }
    }
}
