//! Lists of what stands in a report.
ghost use Rattle.std.specs.Prelude.{◌≡◌, ◌++◌, ℕ, List, flat_map, OnOk};

use rl_ids::{Blob, Epoch, NoMemory};

// What stands in a report.
pub trait Printed {
    // Its text in the report of a run with this epoch.
    ghost text_of: { ℕ → Self → List ℕ };

    fn push_to(&self, out: &mut Blob, epoch: Epoch) -> Result<(), NoMemory>
        ensures { OnOk result (out.new ≡ out.old ++ text_of epoch self.now) };
}

// One after another.
pub fn push_all<T: Printed>(out: &mut Blob, epoch: Epoch, all: &[T]) -> Result<(), NoMemory>
    ensures { OnOk result (out.new ≡ out.old ++ flat_map (T.text_of epoch) all.now) }
{
    for one in all {
        one.push_to(out, epoch)?;
    }
    Ok(())
}
