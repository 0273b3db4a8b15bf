// Scripts: read, run, shown and copied; and refused.
use crate::base::is_copied;
use rl_ids::NoMemory;
use rl_report::report;
use rl_runs::ScriptCause;
use rl_scriptlang::{ScriptFault, read_script};
use rl_world::run;
use std::alloc::Global;

const EACH_LINE: &str =
    "client A\n\n# all kinds of lines\nfeed room 2 x\nopen A\nattachat A room 1 1\npub A room hi\nsettle\ncut A\nopen A\nattach A room\nsettle\n";

const EACH_LINE_REPORT: &str =
    "report\nchannel room first 1 head 3\nentry 1 0 c00000000 0 message | \"c00000000:0:0\" - \"x\"\nentry 2 0 c00000000 1 message | \"c00000000:1:0\" - \"x\"\nentry 3 0 c00000001 0 message | \"c00000001:0:0\" - \"hi\"\nclient A connected c00000001 pending 0 dropped 0\nack c00000001 0\nrecord room attached 3\nsegment 1 recovered 1\ngot 2 message | \"c00000000:1:0\" - \"x\"\ngot 3 message | \"c00000001:0:0\" - \"hi\"\nmembers room yes\nobjects room yes\nmap root 0\nend\n";

// Whether a script reads as lines that can be copied, runs, and shows findings that can be copied and have this
// report.
fn runs_to(alloc: Global, script: &str, expected: &str) -> Result<bool, NoMemory> {
    if script.len() > 16_777_216 {
        return Ok(false);
    }
    let Ok(script) = read_script(alloc, script.as_bytes()) else {
        return Ok(false);
    };
    if !is_copied(alloc, &script)? {
        return Ok(false);
    }
    let findings = run(alloc, &script)?.findings(alloc)?;
    let text = report(alloc, &findings)?;
    Ok(is_copied(alloc, &findings)? && text.as_slice() == expected.as_bytes())
}

#[test]
fn a_script_runs(rt: HostRuntime) -> Result<(), NoMemory> {
    assert!(rt; runs_to(rt.alloc(), EACH_LINE, EACH_LINE_REPORT)?);
    assert!(rt; runs_to(rt.alloc(), "", "report\nend\n")?);
    Ok(())
}

fn is_refused(alloc: Global, script: &[u8], line: u32, cause: ScriptCause) -> bool {
    if script.len() > 16_777_216 {
        return false;
    }
    match read_script(alloc, script) {
        Ok(_) => false,
        Err(fault) => fault == ScriptFault::Refused { line, cause },
    }
}

#[test]
fn lines_are_refused(rt: HostRuntime) {
    for (script, line, cause) in [
        (b"jump".as_slice(), 1, ScriptCause::Word),
        (b" settle".as_slice(), 1, ScriptCause::Word),
        (b"settle ".as_slice(), 1, ScriptCause::Count),
        (b"client A B".as_slice(), 1, ScriptCause::Count),
        (b"client a-b".as_slice(), 1, ScriptCause::Name),
        (
            b"client A\nattach A r/m".as_slice(),
            2,
            ScriptCause::Channel,
        ),
        (b"feed room 01 x".as_slice(), 1, ScriptCause::Number),
        (b"feed room 10001 x".as_slice(), 1, ScriptCause::Number),
        (b"client A\npub A room ".as_slice(), 2, ScriptCause::Text),
        (b"#\xff".as_slice(), 1, ScriptCause::Text),
        (b"open A".as_slice(), 1, ScriptCause::Order),
        (b"client A\nclient B".as_slice(), 2, ScriptCause::Word),
        (b"client A\nopen A\ncut A".as_slice(), 3, ScriptCause::Word),
    ] {
        assert!(rt; is_refused(rt.alloc(), script, line, cause), "{script:?}");
    }
}
