// The start of the program, from its arguments.
ghost use Rattle.std.specs.Prelude.{◌≡◌, IfOk};
ghost use Rattle.std.specs.Process.{exit_status};
ghost use Rattle.rlscript.specs.Start.{words_after_name, args_ask_for_run, EndsProgram};

use crate::top::{ScriptEnd, refuse_words, script_top};
use rl_outside::{Sink, Source};
use std::alloc::{AllocError, Global};
use std::env::Args;
use std::io;
use std::process::ExitCode;

fn words_after_name(alloc: Global, args: Args) -> Result<Vec<String>, AllocError>
    ensures { IfOk result (λ words. words.items ≡ words_after_name args) }
{
    args.skip(1).collect(alloc)
}

// The status alone; the world is let go.
fn status_of(end: ScriptEnd) -> u8
    ensures { result ≡ end.status }
{
    end.status
}

fn status_by<S: Source, K: Sink>(
    alloc: Global,
    args: io::Result<Args>,
    src: &mut S,
    out: &mut K,
) -> u8
    ensures { EndsProgram (args_ask_for_run args)
        (record {
          left = S.left src.old;
          left_after = S.left src.new;
          read_faults = S.faults src.old;
          read_faults_after = S.faults src.new;
          ends = S.ends src.old;
          ends_after = S.ends src.new;
          written = K.written out.old;
          written_after = K.written out.new;
          write_faults = K.faults out.old;
          write_faults_after = K.faults out.new;
        })
        result }
{
    let Ok(args) = args else {
        return refuse_words(out);
    };
    match words_after_name(alloc, args) {
        Ok(words) => status_of(script_top(alloc, &words, src, out)),
        Err(AllocError) => 7,
    }
}

/// The program, from the arguments as [`std::env::args`] gives them.
///
/// It ends with the status of [`script_top`] for the words after the program's name. Arguments that cannot be
/// had, as where one is not UTF-8, are words that it does not know: 2, with the usage. Where there is no memory
/// for the words it ends with 7, and nothing was read or written.
pub fn program<S: Source, K: Sink>(
    alloc: Global,
    args: io::Result<Args>,
    src: &mut S,
    out: &mut K,
) -> ExitCode
    ensures { EndsProgram (args_ask_for_run args)
        (record {
          left = S.left src.old;
          left_after = S.left src.new;
          read_faults = S.faults src.old;
          read_faults_after = S.faults src.new;
          ends = S.ends src.old;
          ends_after = S.ends src.new;
          written = K.written out.old;
          written_after = K.written out.new;
          write_faults = K.faults out.old;
          write_faults_after = K.faults out.new;
        })
        (exit_status result) }
{
    ExitCode::from(status_by(alloc, args, src, out))
}
