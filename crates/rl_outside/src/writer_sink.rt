// A writer as a sink.
ghost use Rattle.std.specs.Prelude.{◌≡◌, ◌≢◌, ◌<◌, length, IfErr, None};
ghost use Rattle.std.specs.IoError.{error_kind};
ghost use Rattle.std.specs.Io.{WritesAtMost};
ghost use Rattle.std.specs.Io.KnownBytes.{WriteAppends};
ghost use Rattle.rl_outside.specs.Sink.{WriteGives, WriteCounts, faults_after_write};

use crate::{Gave, Sink};
use std::io;
use std::io::{ErrorKind, Write};

/// A writer of `std` as a sink, which tells no content. It has no buffer of its own and doesn't flush, so the
/// writer should be one that writes through, as standard output is.
#[derive(Debug, Drop)]
pub struct WriterSink<W> {
    writer: W,
    faults: u64,
}

impl<W: Write> WriterSink<W> {
    /// A sink over a writer, of which no write has failed.
    pub fn new(writer: W) -> WriterSink<W>
        ensures { result ≡ record { writer = writer; faults = 0 } }
    {
        WriterSink { writer, faults: 0 }
    }
}

// One write, which is tried again where it is interrupted, however often.
fn write_once<W: Write>(writer: &mut W, from: &[u8]) -> io::Result<usize>
    ensures bound { WritesAtMost result from.now }
    ensures bytes { WriteAppends (W.contents writer.old) (W.contents writer.new) result from.now }
    ensures retried { IfErr result (λ error. error_kind error ≢ ErrorKind.Interrupted) }
{
    for _ in 0..u64::MAX {
        match writer.write(from) {
            Err(error) if error.kind() == ErrorKind::Interrupted => {}
            answer => return answer,
        }
    }
    Err(io::Error::from(ErrorKind::TimedOut))
}

impl<W: Write> Sink for WriterSink<W> {
    ghost written = { λ _. None };

    ghost faults = { λ s. s.faults };

    /// One write of the writer. It fails where the writer does or took no byte, but is tried again as often as
    /// it is interrupted.
    fn write(&mut self, from: &[u8]) -> Gave
        requires { 0 < length from.now }
        ensures bytes { WriteGives None None result from.now }
        ensures cause { WriteCounts self.old.faults self.new.faults result }
        ensures counted { self.new.faults ≡ faults_after_write self.old.faults result }
        ensures known { WriteGives (W.contents self.old.writer) (W.contents self.new.writer) result from.now }
    {
        match write_once(&mut self.writer, from) {
            Ok(0) | Err(_) => {
                self.faults = self.faults.saturating_add(1);
                Gave::Failed
            }
            Ok(count) => Gave::Bytes(count),
        }
    }
}
