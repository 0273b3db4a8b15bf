// The bytes of a source, to its end or to the limit of a script.
ghost use Rattle.std.specs.Prelude.{◌≡◌, ◌++◌, [], OnOk, count_by};
ghost use Rattle.rl_model.specs.Script.{is_feed, ends_open, is_too_long};
ghost use Rattle.rlscript.specs.Input.{ReadBytes, ReadFaults, ReadEnds};

use rl_ids::{Blob, NoMemory};
use rl_numbers::limits::{MAX_SCRIPT_LINES, MAX_SCRIPT_SIZE};
use rl_outside::{Source, Took};
use std::alloc::Global;
use std::marker::Model;

/// The most bytes that one read takes.
pub const PIECE: usize = 4_096;

/// What reading a script came to.
#[derive(Drop)]
pub enum Input {
    /// The source was read to its end, and these are its bytes.
    Whole(Blob),
    /// More was taken than a script may have.
    TooLong,
    /// A read failed.
    Fault,
    NoMemory,
}

// The bytes taken so far, whose line feeds are counted.
#[derive(Drop)]
struct Taken {
    bytes: Vec<u8>,
    feeds: usize,
}

impl Model for Taken {
    ghost use Rattle.std.specs.Prelude.{◌≡◌, List, ℕ, count_by};
    ghost use Rattle.rl_model.specs.Script.{is_feed};

    ghost Value = { List ℕ };

    ghost view = { λ t. t.bytes.items };

    ghost invariant = { λ t. t.feeds ≡ count_by is_feed t.bytes.items };
}

fn feeds_in(piece: &[u8]) -> usize
    ensures { result ≡ count_by is_feed piece.now }
{
    piece.iter().filter(|byte| **byte == b'\n').count()
}

fn ends_open(bytes: &[u8]) -> bool
    ensures { result ≡ ends_open bytes.now }
{
    match bytes.last() {
        Some(byte) => *byte != b'\n',
        None => false,
    }
}

impl Taken {
    fn new(alloc: Global) -> Taken
        ensures { result ≡ [] }
    {
        Taken {
            bytes: Vec::new(alloc),
            feeds: 0,
        }
    }

    fn add(&mut self, piece: &[u8]) -> Result<(), NoMemory>
        ensures { OnOk result (self.new ≡ self.old ++ piece.now) }
    {
        match self.bytes.extend_from_slice(piece) {
            Ok(()) => {
                self.feeds += feeds_in(piece);
                Ok(())
            }
            Err(_) => Err(NoMemory),
        }
    }

    fn is_too_long(&self) -> bool
        ensures { result ≡ is_too_long self.now }
    {
        let lines = if ends_open(&self.bytes) {
            self.feeds + 1
        } else {
            self.feeds
        };
        self.bytes.len() > MAX_SCRIPT_SIZE || lines > MAX_SCRIPT_LINES
    }

    fn into_bytes(self) -> Blob
        ensures { result ≡ self }
    {
        let Taken { bytes, feeds: _ } = self;
        Blob::from_vec(bytes)
    }
}

/// Reads until the source has nothing left, it fails, or more was taken than a script may have. Each turn takes
/// at least one byte, so it ends at the limit: it takes at most [`PIECE`] bytes beyond the size that a script may
/// have.
pub fn read_input<S: Source>(alloc: Global, src: &mut S) -> Input
    ensures bytes { ReadBytes result (S.left src.old) (S.left src.new) }
    ensures faults { ReadFaults result (S.faults src.old) (S.faults src.new) }
    ensures ends { ReadEnds result (S.ends src.old) (S.ends src.new) }
{
    let mut taken = Taken::new(alloc);
    let mut buffer = [0u8; PIECE];
    loop {
        match src.read(&mut buffer) {
            Took::End => return Input::Whole(taken.into_bytes()),
            Took::Failed => return Input::Fault,
            Took::Bytes(count) => {
                if taken.add(&buffer[..count]).is_err() {
                    return Input::NoMemory;
                }
                if taken.is_too_long() {
                    return Input::TooLong;
                }
            }
        }
    }
}
