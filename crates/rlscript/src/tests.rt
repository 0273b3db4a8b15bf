//! The program as a newcomer meets it, over memory: its statuses and what it writes.
use crate::start::program;
use crate::top::script_top;
use rl_ids::NoMemory;
use rl_outside::{MemSink, MemSource};
use std::alloc::Global;
use std::env::Args;
use std::io;
use std::io::ErrorKind;
use std::process::ExitCode;

const HELLO: &str = "client A\nopen A\nattach A room\npub A room hi\nsettle\n";

const HELLO_REPORT: &str =
    "report\nchannel room first 1 head 1\nentry 1 0 c00000001 0 message | \"c00000001:0:0\" - \"hi\"\nclient A connected c00000001 pending 0 dropped 0\nack c00000001 0\nrecord room attached 1\nsegment 0 opened\ngot 1 message | \"c00000001:0:0\" - \"hi\"\nmembers room yes\nobjects room yes\nmap root 0\nend\n";

const USAGE: &str = "usage: rlscript [run | gen SEED CLIENTS STEPS]\n";

// What a run of the program is given, and what it must answer and write.
#[derive(Clone, Copy)]
struct Row {
    words: &'static [&'static str],
    script: &'static str,
    piece: usize,
    failing_read: u32,
    failing_write: u32,
    status: u8,
    written: &'static str,
}

fn texts(alloc: Global, words: &[&str]) -> Result<Vec<String>, NoMemory> {
    let mut made = Vec::new(alloc);
    for word in words {
        made.push(String::from_str(alloc, word)?)?;
    }
    Ok(made)
}

fn is_met(alloc: Global, row: &Row) -> Result<bool, NoMemory> {
    let words = texts(alloc, row.words)?;
    let piece = row.piece.max(1);
    let mut source = MemSource::new(alloc, row.script.as_bytes(), piece, &[row.failing_read])?;
    let mut sink = MemSink::new(alloc, &[row.failing_write])?;
    let end = script_top(alloc, &words, &mut source, &mut sink);
    Ok(
        end.status == row.status
            && end.world.is_some() == (row.status == 0)
            && sink.as_slice() == row.written.as_bytes(),
    )
}

const fn make_row(
    words: &'static [&'static str],
    script: &'static str,
    status: u8,
    written: &'static str,
) -> Row {
    Row {
        words,
        script,
        piece: 4096,
        failing_read: 0,
        failing_write: 0,
        status,
        written,
    }
}

#[test]
fn statuses_have_their_texts(rt: HostRuntime) -> Result<(), NoMemory> {
    let rows = [
        make_row(&[], HELLO, 0, HELLO_REPORT),
        make_row(&["run"], HELLO, 0, HELLO_REPORT),
        make_row(&["run"], "", 0, "report\nend\n"),
        make_row(&["run", "x"], HELLO, 2, USAGE),
        make_row(&[""], HELLO, 2, USAGE),
        make_row(&["gen", "7", "1", "0"], HELLO, 2, USAGE),
        make_row(&["run"], "pub A room hi", 3, "line 1: order\n"),
        make_row(&["run"], "jump", 3, "line 1: word\n"),
    ];
    for (index, row) in rows.iter().enumerate() {
        assert!(rt; is_met(rt.alloc(), row)?, "row {index}");
    }
    Ok(())
}

#[test]
fn faults_have_their_texts(rt: HostRuntime) -> Result<(), NoMemory> {
    let read = Row {
        piece: 8,
        failing_read: 2,
        ..make_row(&[], HELLO, 4, "read fault\n")
    };
    assert!(rt; is_met(rt.alloc(), &read)?);
    let write = Row {
        failing_write: 1,
        ..make_row(&[], HELLO, 5, "")
    };
    assert!(rt; is_met(rt.alloc(), &write)?);
    Ok(())
}

#[test]
fn pieces_do_not_matter(rt: HostRuntime) -> Result<(), NoMemory> {
    for piece in [1, 2, 3, 7, 51] {
        let cut = Row {
            piece,
            ..make_row(&[], HELLO, 0, HELLO_REPORT)
        };
        assert!(rt; is_met(rt.alloc(), &cut)?, "in pieces of {piece}");
    }
    Ok(())
}

// A script of so many bytes, in lines of so many.
fn long_script(alloc: Global, bytes: usize, width: usize) -> Result<Vec<u8>, NoMemory> {
    let mut made = Vec::new(alloc);
    for at in 0..bytes {
        let byte = if at % width.max(1) == width.max(1) - 1 {
            b'\n'
        } else {
            b'#'
        };
        made.push(byte)?;
    }
    Ok(made)
}

fn status_of(alloc: Global, script: &[u8]) -> Result<u8, NoMemory> {
    let mut source = MemSource::new(alloc, script, 65_536, &[])?;
    let mut sink = MemSink::new(alloc, &[])?;
    Ok(script_top(alloc, &[], &mut source, &mut sink).status)
}

#[test]
fn limits_are_met(rt: HostRuntime) -> Result<(), NoMemory> {
    for (bytes, width, status) in [
        (100_000usize, 1usize, 0u8),
        (100_001, 1, 6),
        (200_000, 2, 0),
        (200_001, 2, 6),
    ] {
        let script = long_script(rt.alloc(), bytes, width)?;
        assert_eq!(rt; status_of(rt.alloc(), &script)?, status, "{bytes} bytes");
    }
    Ok(())
}

// How the program ends for these arguments, and what it writes.
fn ends_with(
    alloc: Global,
    args: io::Result<Args>,
    status: u8,
    written: &str,
) -> Result<bool, NoMemory> {
    let mut source = MemSource::new(alloc, HELLO.as_bytes(), 4096, &[])?;
    let mut sink = MemSink::new(alloc, &[])?;
    let code = program(alloc, args, &mut source, &mut sink);
    Ok(code == ExitCode::from(status) && sink.as_slice() == written.as_bytes())
}

#[test]
fn arguments_choose_what_is_done(rt: HostRuntime) -> Result<(), NoMemory> {
    let rows: [(&[&str], u8, &str); 4] = [
        (&["rlscript"], 0, HELLO_REPORT),
        (&["rlscript", "run"], 0, HELLO_REPORT),
        (&["rlscript", "run", "x"], 2, USAGE),
        (&["run", "x"], 2, USAGE),
    ];
    for (args, status, written) in rows {
        let args = texts(rt.alloc(), args)?.into_iter();
        assert!(rt; ends_with(rt.alloc(), Ok(args), status, written)?);
    }
    let faulty = Err(io::Error::from(ErrorKind::InvalidData));
    assert!(rt; ends_with(rt.alloc(), faulty, 2, USAGE)?);
    Ok(())
}
