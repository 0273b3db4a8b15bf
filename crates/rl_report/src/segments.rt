//! Segments: where each starts, why it began, and what was got.
ghost use Rattle.std.specs.Prelude.{◌≡◌, ◌++◌, ◌∷◌, OnOk};
ghost use Rattle.rl_model.specs.Report.{cause_words, given_word, got_line, segment_lines, serial_word, spaced};

use crate::lists::{Printed, push_all};
use crate::words::{push_number, push_str, push_word};
use rl_ids::{Blob, ChannelSerial, Epoch, NoMemory, Place};
use rl_runs::{Cause, Segment};
use rl_types::{Body, Given};

// Its place, or `other` where it is of another run.
impl Printed for ChannelSerial {
    ghost text_of = { λ epoch serial. 32 ∷ serial_word epoch serial };

    fn push_to(&self, out: &mut Blob, epoch: Epoch) -> Result<(), NoMemory> {
        if self.epoch.0 == epoch.0 {
            push_number(out, self.place.0)
        } else {
            push_word(out, "other")
        }
    }
}

impl Printed for Given {
    ghost text_of = { λ epoch given. 32 ∷ given_word epoch given };

    fn push_to(&self, out: &mut Blob, epoch: Epoch) -> Result<(), NoMemory> {
        match self {
            Given::Ours(serial) => serial.push_to(out, epoch),
            Given::Other(_) => push_word(out, "other"),
        }
    }
}

// A word and what is printed behind it.
fn push_two<T: Printed>(out: &mut Blob, epoch: Epoch, word: &str, rest: &T) -> Result<(), NoMemory>
    ensures { OnOk result (out.new ≡ out.old ++ 32 ∷ word.now ++ T.text_of epoch rest.now) }
{
    push_word(out, word)?;
    rest.push_to(out, epoch)
}

impl Printed for Cause {
    ghost text_of = { λ epoch cause. spaced (cause_words epoch cause) };

    fn push_to(&self, out: &mut Blob, epoch: Epoch) -> Result<(), NoMemory> {
        match self {
            Cause::Opened => push_word(out, "opened"),
            Cause::NotRetained(asked) => push_two(out, epoch, "notretained", asked),
            Cause::Recovered(asked) => push_two(out, epoch, "recovered", asked),
            Cause::Moved(held, told) => {
                push_two(out, epoch, "moved", held)?;
                told.push_to(out, epoch)
            }
            Cause::Jump(held, told) => {
                push_two(out, epoch, "jump", held)?;
                told.push_to(out, epoch)
            }
        }
    }
}

impl Printed for (Place, Body) {
    ghost text_of = { λ epoch. got_line };

    fn push_to(&self, out: &mut Blob, epoch: Epoch) -> Result<(), NoMemory> {
        push_str(out, "got")?;
        push_number(out, self.0.0)?;
        self.1.push_to(out, epoch)?;
        push_str(out, "\n")
    }
}

impl Printed for Segment {
    ghost text_of = { segment_lines };

    fn push_to(&self, out: &mut Blob, epoch: Epoch) -> Result<(), NoMemory> {
        push_str(out, "segment")?;
        push_number(out, self.start.0)?;
        self.cause.push_to(out, epoch)?;
        push_str(out, "\n")?;
        push_all(out, epoch, self.got.as_slice())
    }
}
