//! The text of a report: what a run shows, line by line.
#![tactic(auto)]

ghost use Rattle.std.specs.Prelude.{◌≡◌, IfOk};
ghost use Rattle.rl_model.specs.Report.{report};

use rl_ids::{Blob, NoMemory};
use rl_runs::Findings;
use std::alloc::Global;

mod bodies;
mod channels;
mod clients;
mod lists;
mod objects;
mod segments;
mod words;

/// The report of what a run shows, made in one pass. (Its form is this project's own.) The one error is
/// want of memory.
pub fn report(alloc: Global, findings: &Findings) -> Result<Blob, NoMemory>
    ensures { IfOk result (λ text. text ≡ report findings.now) }
{
    let mut out = Blob::new(alloc);
    words::push_str(&mut out, "report\n")?;
    lists::push_all(&mut out, findings.epoch, findings.channels.as_slice())?;
    lists::push_all(&mut out, findings.epoch, findings.clients.as_slice())?;
    words::push_str(&mut out, "end\n")?;
    Ok(out)
}
