// A whole script.
ghost use Rattle.std.specs.Prelude.{◌≤◌, ◌+◌, length, IfOk};
ghost use Rattle.rl_model.specs.Script.{script_of, published, fed};
ghost use Rattle.rl_model.specs.Limits.{AreSmallLines};
ghost use Rattle.rl_numbers.specs.declared.limits.TheConstants.{MAX_SCRIPT_SIZE};
ghost use Rattle.rl_scriptlang.specs.Reads.{ReadsScript};

use crate::ScriptFault;
use crate::fault::LineFault;
use crate::feeds::first_line;
use crate::seen::Seen;
use rl_numbers::limits::MAX_PUT;
use rl_runs::Script;
use std::alloc::Global;

/// Reads bytes as a script: its lines, or the number, from 1, of the first line that is refused, and why.
/// What the lines of a script name and send is small enough to travel as frames.
/// A script of [`rl_numbers::limits::MAX_SCRIPT_SIZE`] bytes is read in time and memory that are linear in them.
#[tactic(auto, using(crate::proofs::Small::small_lines))]
pub fn read_script(alloc: Global, bytes: &[u8]) -> Result<Script, ScriptFault>
    requires { length bytes.now ≤ MAX_SCRIPT_SIZE }
    ensures said { ReadsScript result (script_of bytes.now) }
    ensures small { IfOk result (λ script. AreSmallLines script.lines) }
    ensures few { IfOk result (λ script. published script.lines + fed script.lines ≤ MAX_PUT) }
{
    let mut seen = Seen::new(alloc);
    let mut rest = bytes;
    let mut number: u32 = 1;
    while !rest.is_empty() {
        let head = first_line(rest);
        match seen.take_line(alloc, head.line) {
            Ok(()) => {}
            Err(LineFault::Cause(cause)) => {
                return Err(ScriptFault::Refused {
                    line: number,
                    cause,
                });
            }
            Err(LineFault::NoMemory) => return Err(ScriptFault::NoMemory),
        }
        rest = head.rest;
        number += 1;
    }
    Ok(Script {
        lines: seen.into_lines(),
    })
}
