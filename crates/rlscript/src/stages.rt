// The stages of a run.
ghost use Rattle.std.specs.Prelude.{◌≡◌, ◌+◌, ◌≤◌, ◌<◌, ◌^◌, IfOk, string_bytes, length, Ok};
ghost use Rattle.rl_model.specs.Script.{script_of, fed, published};
ghost use Rattle.rl_model.specs.Limits.{AreSmallLines};
ghost use Rattle.rlscript.specs.Top.{refusal, script_report, IsWorldOf};
ghost use Rattle.rlscript.specs.Stages.{Said, Ran, RanScript, Reported};

use crate::top::ScriptEnd;
use rl_ids::{Blob, NoMemory};
use rl_numbers::limits::MAX_SCRIPT_SIZE;
use rl_outside::{Gave, Sink};
use rl_report::report;
use rl_runs::{Script, ScriptCause};
use rl_scriptlang::{ScriptFault, cause_word, read_script};
use rl_world::{World, run};
use std::alloc::Global;

fn refusal_text(alloc: Global, line: u32, cause: ScriptCause) -> Result<String, NoMemory>
    ensures { IfOk result (λ text. string_bytes text ≡ refusal line cause) }
{
    let word = cause_word(cause);
    match format!(in alloc; "line {line}: {word}\n") {
        Ok(text) => Ok(text),
        Err(_) => Err(NoMemory),
    }
}

/// Writes a text, and answers this status, or 5 where the sink fails.
pub fn say<K: Sink>(out: &mut K, text: &[u8], status: u8) -> u8
    ensures { Said result status (K.written out.old) (K.written out.new) (K.faults out.old) (K.faults out.new) text.now }
{
    let mut done = 0;
    while done < text.len() {
        match out.write(&text[done..]) {
            Gave::Bytes(count) => done += count,
            Gave::Failed => return 5,
        }
    }
    status
}

// The world of a script, and its report.
fn world_and_report(alloc: Global, script: &Script) -> Result<(World, Blob), NoMemory>
    requires few { published script.now.lines + fed script.now.lines < 2 ^ 53 }
    requires small { AreSmallLines script.now.lines }
    ensures { IfOk result (λ made. Reported made.0 made.1 script.now.lines) }
{
    let world = run(alloc, script)?;
    let findings = world.findings(alloc)?;
    let text = report(alloc, &findings)?;
    Ok((world, text))
}

// Runs a script and writes its report.
fn run_script<K: Sink>(alloc: Global, script: &Script, out: &mut K) -> ScriptEnd
    requires few { published script.now.lines + fed script.now.lines < 2 ^ 53 }
    requires small { AreSmallLines script.now.lines }
    ensures { RanScript script.now.lines result.status result.world (K.written out.old) (K.written out.new) (K.faults out.old) (K.faults out.new) }
{
    let Ok((world, text)) = world_and_report(alloc, script) else {
        return ScriptEnd::without_world(7);
    };
    let status = say(out, text.as_slice(), 0);
    if status == 0 {
        ScriptEnd {
            status,
            world: Some(world),
        }
    } else {
        ScriptEnd::without_world(status)
    }
}

/// Reads the bytes as a script, runs it and writes its report; or says which line is refused.
pub fn run_bytes<K: Sink>(alloc: Global, bytes: &[u8], out: &mut K) -> ScriptEnd
    requires { length bytes.now ≤ MAX_SCRIPT_SIZE }
    ensures { Ran bytes.now result.status result.world (K.written out.old) (K.written out.new) (K.faults out.old) (K.faults out.new) }
{
    match read_script(alloc, bytes) {
        Ok(script) => run_script(alloc, &script, out),
        Err(ScriptFault::Refused { line, cause }) => match refusal_text(alloc, line, cause) {
            Ok(text) => ScriptEnd::without_world(say(out, text.as_bytes(), 3)),
            Err(_) => ScriptEnd::without_world(7),
        },
        Err(ScriptFault::NoMemory) => ScriptEnd::without_world(7),
    }
}
