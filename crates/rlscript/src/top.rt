// The top call.
ghost use Rattle.std.specs.Prelude.{◌≡◌, None};
ghost use Rattle.rlscript.specs.Top.{asks_for_run, words_of, usage, Ends, EndsRun};
ghost use Rattle.rlscript.specs.Stages.{Said};

use crate::input::{Input, read_input};
use crate::stages::{run_bytes, say};
use rl_outside::{Sink, Source};
use rl_world::World;
use std::alloc::Global;

const USAGE: &str = "usage: rlscript [run | gen SEED CLIENTS STEPS]\n";

const READ_FAULT: &str = "read fault\n";

const TOO_LONG: &str = "too long\n";

/// How a run ends.
#[derive(Drop)]
pub struct ScriptEnd {
    /// 0: the report was written. 2: the words are others, and the usage was written. 3: a line is outside the
    /// grammar, and its number and cause were written. 4: a read failed. 5: a write failed. 6: the script has
    /// more than 16,777,216 bytes or 100,000 lines. 7: want of memory.
    ///
    /// 3 comes exactly where the source was read to its end, its bytes are no more than a script may have, and a
    /// line is outside the grammar; 6 exactly where more was taken. Both yield to 5 and to 7, and 2 yields to 5.
    pub status: u8,
    /// The world in which the script was run, exactly at status 0.
    pub world: Option<World>,
}

impl ScriptEnd {
    pub fn without_world(status: u8) -> ScriptEnd
        ensures status { result.status ≡ status }
        ensures world { result.world ≡ None }
    {
        ScriptEnd {
            status,
            world: None,
        }
    }
}

fn asks_for_run(words: &[String]) -> bool
    ensures { result ≡ asks_for_run (words_of words.now) }
{
    match words {
        [] => true,
        [word] => word.as_str() == "run",
        _ => false,
    }
}

/// Writes the usage.
pub fn refuse_words<K: Sink>(out: &mut K) -> u8
    ensures { Said result 2 (K.written out.old) (K.written out.new) (K.faults out.old) (K.faults out.new) usage }
{
    say(out, USAGE.as_bytes(), 2)
}

// Reads a script, runs it and writes its report.
fn run_source<S: Source, K: Sink>(alloc: Global, src: &mut S, out: &mut K) -> ScriptEnd
    ensures { EndsRun (record {
      left = S.left src.old;
      left_after = S.left src.new;
      read_faults = S.faults src.old;
      read_faults_after = S.faults src.new;
      ends = S.ends src.old;
      ends_after = S.ends src.new;
      written = K.written out.old;
      written_after = K.written out.new;
      write_faults = K.faults out.old;
      write_faults_after = K.faults out.new;
    })
        result.status
        result.world }
{
    match read_input(alloc, src) {
        Input::Whole(bytes) => run_bytes(alloc, bytes.as_slice(), out),
        Input::TooLong => ScriptEnd::without_world(say(out, TOO_LONG.as_bytes(), 6)),
        Input::Fault => ScriptEnd::without_world(say(out, READ_FAULT.as_bytes(), 4)),
        Input::NoMemory => ScriptEnd::without_world(7),
    }
}

/// The program: with no word, or with `run`, it reads a script from the source, runs it, and writes the report
/// to the sink.
///
/// At status 0 the source was read to its end, and what was written is the report of the world that its script
/// leaves, in which every record is sound and a remembered id stands once. At each other status the contract says
/// why it comes and what was written; [`ScriptEnd`] lists them.
pub fn script_top<S: Source, K: Sink>(
    alloc: Global,
    words: &[String],
    src: &mut S,
    out: &mut K,
) -> ScriptEnd
    ensures { Ends (asks_for_run (words_of words.now))
        (record {
          left = S.left src.old;
          left_after = S.left src.new;
          read_faults = S.faults src.old;
          read_faults_after = S.faults src.new;
          ends = S.ends src.old;
          ends_after = S.ends src.new;
          written = K.written out.old;
          written_after = K.written out.new;
          write_faults = K.faults out.old;
          write_faults_after = K.faults out.new;
        })
        result.status
        result.world }
{
    if asks_for_run(words) {
        run_source(alloc, src, out)
    } else {
        ScriptEnd::without_world(refuse_words(out))
    }
}
