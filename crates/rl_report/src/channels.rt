//! Channels: the span of the log that is kept, and its entries.
ghost use Rattle.std.specs.Prelude.{◌≡◌, ◌++◌, OnOk};
ghost use Rattle.rl_model.specs.Report.{channel_lines, entry_line};

use crate::lists::{Printed, push_all};
use crate::words::{push_conn, push_number, push_number_or_dash, push_str, push_word};
use rl_ids::{Blob, Epoch, NoMemory};
use rl_runs::ChannelFindings;
use rl_types::Entry;

impl Printed for Entry {
    ghost text_of = { λ epoch. entry_line };

    fn push_to(&self, out: &mut Blob, epoch: Epoch) -> Result<(), NoMemory> {
        push_str(out, "entry")?;
        push_number(out, self.place.0)?;
        push_number(out, self.stamp.0)?;
        push_conn(out, self.conn)?;
        push_number_or_dash(out, self.serial)?;
        self.body.push_to(out, epoch)?;
        push_str(out, "\n")
    }
}

impl Printed for ChannelFindings {
    ghost text_of = { λ epoch. channel_lines };

    fn push_to(&self, out: &mut Blob, epoch: Epoch) -> Result<(), NoMemory> {
        push_str(out, "channel")?;
        push_word(out, self.name.as_str())?;
        push_word(out, "first")?;
        push_number(out, self.first.0)?;
        push_word(out, "head")?;
        push_number(out, self.head.0)?;
        push_str(out, "\n")?;
        push_all(out, epoch, self.entries.as_slice())
    }
}
