// A reader as a source.
ghost use Rattle.std.specs.Prelude.{◌≡◌, ◌≢◌, ◌<◌, length, IfErr, None};
ghost use Rattle.std.specs.IoError.{error_kind};
ghost use Rattle.std.specs.Io.{ReadsAtMost};
ghost use Rattle.std.specs.Io.KnownBytes.{ReadConsumes};
ghost use Rattle.rl_outside.specs.Source.{ReadTakes, ReadCounts, EndCounts, faults_after_read, ends_after_read};

use crate::{Source, Took};
use std::io;
use std::io::{ErrorKind, Read};

/// A reader of `std` as a source, which tells no content.
#[derive(Debug, Drop)]
pub struct ReaderSource<R> {
    reader: R,
    faults: u64,
    ends: u64,
}

impl<R: Read> ReaderSource<R> {
    /// A source over a reader that was not read yet.
    pub fn new(reader: R) -> ReaderSource<R>
        ensures { result ≡ record { reader = reader; faults = 0; ends = 0 } }
    {
        ReaderSource {
            reader,
            faults: 0,
            ends: 0,
        }
    }
}

// One read, which is tried again where it is interrupted, however often.
fn read_once<R: Read>(reader: &mut R, into: &mut [u8]) -> io::Result<usize>
    ensures bound { ReadsAtMost result into.new }
    ensures bytes { ReadConsumes (R.remaining reader.old) (R.remaining reader.new) result into.new }
    ensures retried { IfErr result (λ error. error_kind error ≢ ErrorKind.Interrupted) }
{
    for _ in 0..u64::MAX {
        match reader.read(into) {
            Err(error) if error.kind() == ErrorKind::Interrupted => {}
            answer => return answer,
        }
    }
    Err(io::Error::from(ErrorKind::TimedOut))
}

impl<R: Read> Source for ReaderSource<R> {
    ghost left = { λ _. None };

    ghost faults = { λ s. s.faults };

    ghost ends = { λ s. s.ends };

    /// One read of the reader. It fails where the reader does, but is tried again as often as it is interrupted,
    /// and it is at the end where the reader gave no byte.
    fn read(&mut self, into: &mut [u8]) -> Took
        requires { 0 < length into.old }
        ensures bytes { ReadTakes None None result into.new }
        ensures cause { ReadCounts self.old.faults self.new.faults result }
        ensures end { EndCounts self.old.ends self.new.ends result }
        ensures counted { self.new.faults ≡ faults_after_read self.old.faults result }
        ensures ends_counted { self.new.ends ≡ ends_after_read self.old.ends result }
        ensures known { ReadTakes (R.remaining self.old.reader) (R.remaining self.new.reader) result into.new }
    {
        match read_once(&mut self.reader, into) {
            Ok(0) => {
                self.ends = self.ends.saturating_add(1);
                Took::End
            }
            Ok(count) => Took::Bytes(count),
            Err(_) => {
                self.faults = self.faults.saturating_add(1);
                Took::Failed
            }
        }
    }
}
