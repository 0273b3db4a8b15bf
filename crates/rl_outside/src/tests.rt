// What no clause says: that calls succeed where memory lasts, and what a failing reader or writer comes to.
use crate::{Gave, MemSink, MemSource, ReaderSource, Sink, Source, Took, WriterSink};
use rl_ids::NoMemory;
use std::alloc::Global;
use std::io;
use std::io::{ErrorKind, Read, Write};
use std::test::Fail;

const TURNS: usize = 5;

// How often a call is interrupted before it goes on.
const INTERRUPTIONS: u32 = 5_000;

// What reads into a small buffer answered, and the bytes that they gave.
fn read_turns<S: Source>(alloc: Global, source: &mut S) -> Result<(Vec<Took>, Vec<u8>), NoMemory> {
    let mut answers = Vec::new(alloc);
    let mut given = Vec::new(alloc);
    for _ in 0..TURNS {
        let mut buffer = [0; 3];
        let took = source.read(&mut buffer);
        if let Took::Bytes(count) = took {
            given.extend_from_slice(&buffer[..count])?;
        }
        answers.push(took)?;
    }
    Ok((answers, given))
}

// What the writes answered that it took to write the bytes.
fn write_turns<K: Sink>(alloc: Global, sink: &mut K, bytes: &[u8]) -> Result<Vec<Gave>, NoMemory> {
    let mut answers = Vec::new(alloc);
    let mut at = 0;
    for _ in 0..TURNS {
        if at >= bytes.len() {
            break;
        }
        let gave = sink.write(&bytes[at..]);
        if let Gave::Bytes(count) = gave {
            at += count;
        }
        answers.push(gave)?;
    }
    Ok(answers)
}

// Two bytes a call. The second is interrupted for a long time and then fails.
#[derive(Drop)]
struct ShakyReader<'a> {
    left: &'a [u8],
    calls: u32,
}

impl Read for ShakyReader<'_> {
    fn read(&mut self, buf: &mut [u8]) -> io::Result<usize> {
        self.calls = self.calls.saturating_add(1);
        if self.calls > 1 && self.calls - 2 < INTERRUPTIONS {
            return Err(io::Error::from(ErrorKind::Interrupted));
        }
        if self.calls == INTERRUPTIONS + 2 {
            return Err(io::Error::from(ErrorKind::ConnectionReset));
        }
        let count = buf.len().min(self.left.len()).min(2);
        buf[..count].copy_from_slice(&self.left[..count]);
        self.left = &self.left[count..];
        Ok(count)
    }
}

// Two bytes a call. The second is interrupted for a long time and then fails, and the one after the next takes
// nothing.
#[derive(Drop)]
struct ShakyWriter {
    written: Vec<u8>,
    calls: u32,
}

impl Write for ShakyWriter {
    fn write(&mut self, buf: &[u8]) -> io::Result<usize> {
        self.calls = self.calls.saturating_add(1);
        if self.calls > 1 && self.calls - 2 < INTERRUPTIONS {
            return Err(io::Error::from(ErrorKind::Interrupted));
        }
        if self.calls == INTERRUPTIONS + 2 {
            return Err(io::Error::from(ErrorKind::BrokenPipe));
        }
        let count = if self.calls == INTERRUPTIONS + 4 {
            0
        } else {
            buf.len().min(2)
        };
        self.written.extend_from_slice(&buf[..count])?;
        Ok(count)
    }

    fn flush(&mut self) -> io::Result<()> {
        Ok(())
    }
}

#[test]
fn a_memory_source_gives_its_bytes_in_pieces_and_fails_at_the_listed_reads(
    rt: HostRuntime,
) -> Result<(), Fail> {
    use Took::{Bytes, End, Failed};
    let rows: [(usize, &[u32], [Took; TURNS]); 3] = [
        (2, &[], [Bytes(2), Bytes(2), Bytes(1), End, End]),
        (9, &[1, 3], [Failed, Bytes(3), Failed, Bytes(2), End]),
        (9, &[3, 4], [Bytes(3), Bytes(2), Failed, Failed, End]),
    ];
    for (piece, fail, wanted) in rows {
        let mut source = MemSource::new(rt.alloc(), b"abcde", piece, fail)?;
        let (answers, given) = read_turns(rt.alloc(), &mut source)?;
        assert_eq!(rt; answers.as_slice(), wanted.as_slice(), "at {piece}");
        assert_eq!(rt; given.as_slice(), b"abcde".as_slice(), "at {piece}");
    }
    Ok(())
}

#[test]
fn a_memory_sink_takes_all_and_fails_at_the_listed_writes(rt: HostRuntime) -> Result<(), Fail> {
    use Gave::{Bytes, Failed};
    let mut sink = MemSink::new(rt.alloc(), &[1, 3])?;
    let first = write_turns(rt.alloc(), &mut sink, b"abc")?;
    assert_eq!(rt; first.as_slice(), [Failed, Bytes(3)].as_slice());
    assert_eq!(rt; sink.as_slice(), b"abc".as_slice());
    let second = write_turns(rt.alloc(), &mut sink, b"de")?;
    assert_eq!(rt; second.as_slice(), [Failed, Bytes(2)].as_slice());
    assert_eq!(rt; sink.as_slice(), b"abcde".as_slice());
    Ok(())
}

#[test]
fn a_reader_that_is_interrupted_and_fails_goes_on(rt: HostRuntime) -> Result<(), Fail> {
    use Took::{Bytes, End, Failed};
    let mut source = ReaderSource::new(ShakyReader {
        left: b"abcde",
        calls: 0,
    });
    let (answers, given) = read_turns(rt.alloc(), &mut source)?;
    assert_eq!(rt;
        answers.as_slice(),
        [Bytes(2), Failed, Bytes(2), Bytes(1), End].as_slice()
    );
    assert_eq!(rt; given.as_slice(), b"abcde".as_slice());
    Ok(())
}

#[test]
fn a_writer_that_is_interrupted_or_fails_or_takes_nothing_goes_on(
    rt: HostRuntime,
) -> Result<(), Fail> {
    use Gave::{Bytes, Failed};
    let mut writer = ShakyWriter {
        written: Vec::new(rt.alloc()),
        calls: 0,
    };
    let mut sink = WriterSink::new(&mut writer);
    let answers = write_turns(rt.alloc(), &mut sink, b"abcde")?;
    assert_eq!(rt;
        answers.as_slice(),
        [Bytes(2), Failed, Bytes(2), Failed, Bytes(1)].as_slice()
    );
    assert_eq!(rt; writer.written.as_slice(), b"abcde".as_slice());
    Ok(())
}
