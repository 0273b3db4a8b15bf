//! Runs the scripts that its words name, and says of each whether its report is the expected one: of the word
//! `hello`, the script `hello.script` and the report `hello.report`.
#![tactic(auto)]

use anyhow::{Context, Result, anyhow};
use rl_ids::Blob;
use rl_report::report;
use rl_scriptlang::read_script;
use rl_world::run;
use std::alloc::Global;
use std::rt::{Env, Files};
use std::{env, fs};

// The report of a script.
fn report_of(alloc: Global, script: &str) -> Result<Blob> {
    if script.len() > 16_777_216 {
        return Err(anyhow!("the script is too long"));
    }
    let script = read_script(alloc, script.as_bytes())?;
    let world = run(alloc, &script)?;
    let findings = world.findings(alloc)?;
    Ok(report(alloc, &findings)?)
}

fn is_as_expected<R: Files + AllocGlobal>(rt: &R, name: &str) -> Result<bool> {
    let script = fs::read_to_string(rt, format!(in rt.alloc(); "{name}.script")?).context(
        "reading the script",
    )?;
    let expected = fs::read_to_string(rt, format!(in rt.alloc(); "{name}.report")?).context(
        "reading the report",
    )?;
    let found = report_of(rt.alloc(), script.as_str())?;
    Ok(found.as_slice() == expected.as_bytes())
}

fn main(rt: HostRuntime) -> Result<()> {
    for name in env::args(&rt)?.skip(1) {
        let found = if is_as_expected(&rt, name.as_str())? {
            "as expected"
        } else {
            "DIFFERS"
        };
        println!(rt; "{name}: {found}")?;
    }
    Ok(())
}
