ghost use Rattle.std.specs.Prelude.{◌≡◌, ◌<◌, ℕ, List, length, slice_index_or};
ghost use Rattle.rl_objmodel.specs.Held.{Write, is_collected_write};
ghost use Rattle.rl_objmodel.specs.Steps.{collected_cells, told_written};
ghost use Rattle.rl_livemap.specs.Stamps.{collected_at, stamped, IsKept, IsMap};

use crate::weights::weigh;
use rl_ids::{List, Moment, Text};
use rl_numbers::limits::TOMBSTONE_GRACE;
use rl_types::MapCell;

// Whether a cell is a tombstone that is collected.
fn is_collected(cell: &MapCell, stamp: Moment, now: Moment) -> bool
    ensures { result ≡ is_collected_write now (told_written stamp cell.now.value) }
{
    match cell.value {
        Some(_) => false,
        None => now.0 >= TOMBSTONE_GRACE && stamp.0 <= now.0 - TOMBSTONE_GRACE,
    }
}

// Drops the cell at a place, where it is collected.
fn drop_at(cells: &mut List<(Text, MapCell)>, stamps: &mut List<Moment>, at: usize, now: Moment)
    requires within { at < length cells.old }
    requires even { length stamps.old ≡ length cells.old }
    ensures step { (d : List ℕ × Write) → stamped cells.new stamps.new ≡ collected_at now (slice_index_or (stamped cells.old stamps.old) at d) at (stamped cells.old stamps.old) }
    ensures even { length stamps.new ≡ length cells.new }
{
    if is_collected(&cells.as_slice()[at].1, stamps.as_slice()[at], now) {
        cells.remove(at);
        stamps.remove(at);
    }
}

// Drops each cell that is collected, the last first.
fn drop_collected(cells: &mut List<(Text, MapCell)>, stamps: &mut List<Moment>, now: Moment)
    requires { IsKept cells.old stamps.old }
    ensures cells { stamped cells.new stamps.new ≡ collected_cells now (stamped cells.old stamps.old) }
    ensures kept { IsKept cells.new stamps.new }
{
    let mut at = cells.len();
    while at > 0 {
        at -= 1;
        drop_at(cells, stamps, at, now);
    }
}

// Drops each cell that is collected, and weighs the others.
pub fn collect_weighed(
    cells: &mut List<(Text, MapCell)>,
    stamps: &mut List<Moment>,
    weight: &mut u64,
    now: Moment,
)
    requires { IsMap cells.old stamps.old weight.old }
    ensures cells { stamped cells.new stamps.new ≡ collected_cells now (stamped cells.old stamps.old) }
    ensures kept { IsMap cells.new stamps.new weight.new }
{
    let _weight = *weight;
    drop_collected(cells, stamps, now);
    *weight = weigh(cells.as_slice());
}
