ghost use Rattle.std.specs.Prelude.{◌≡◌, ◌<◌, ◌≤◌, ℕ, List, map, bytes_eq, if◌then◌else◌, insert, length, slice_set, slice_index_or, is_some, Some, IsSome, IfOk, IfSome, OnOk, OnErr, MatchResult};
ghost use Rattle.std.specs.Option.{option_copied};
ghost use Rattle.rl_ids.specs.Objects.{is_below};
ghost use Rattle.rl_objmodel.specs.Places.{at_text, restored_at, is_before, FindsPlace, IsPlace, IsRising};
ghost use Rattle.rl_objmodel.specs.Steps.{with_told};
ghost use Rattle.rl_livemap.specs.Stamps.{held_cell, place_back, stamped, stood_at, unnumbered_shown, IsKept, IsMap};
ghost use Rattle.rl_types.specs.declared.objects.MapCell.{MapCell};

use crate::held::HeldCell;
use crate::weights::{weight_left, weight_with};
use rl_ids::{Copied, List, Moment, NoMemory, OpSerial, Place, Text};
use rl_types::MapCell;
use std::alloc::Global;
use std::mem;

// Whether a cell's key comes before another.
fn is_before(cell: &(Text, MapCell), key: &str) -> bool
    ensures { result ≡ is_before key.now cell.now }
{
    cell.0.as_str().cmp(key).is_lt()
}

// Whether it is the cell's key.
fn is_of(cell: &(Text, MapCell), key: &str) -> bool
    ensures { result ≡ bytes_eq key.now cell.now.0 }
{
    key == cell.0.as_str()
}

// Whether a serial is smaller than another.
fn is_below(one: &OpSerial, other: &OpSerial) -> bool
    ensures { result ≡ is_below one.now other.now }
{
    one.cmp(other).is_lt()
}

// How many cells' keys come before this one; they are searched by halves.
fn place_of(cells: &[(Text, MapCell)], key: &str) -> usize
    ensures within { result ≤ length cells.now }
    ensures place { IsRising cells.now → IsPlace key.now cells.now result }
{
    cells.partition_point(|cell| is_before(cell, key))
}

// Where the key's cell is, or would stand.
fn find(cells: &[(Text, MapCell)], key: &str) -> Result<usize, usize>
    ensures within { MatchResult result (λ at. at < length cells.now) (λ at. at ≤ length cells.now) }
    ensures place { IsRising cells.now → FindsPlace key.now cells.now result }
{
    let at = place_of(cells, key);
    if at < cells.len() && is_of(&cells[at], key) {
        Ok(at)
    } else {
        Err(at)
    }
}

// The key's cell.
pub fn found<'a>(cells: &'a List<(Text, MapCell)>, key: &str) -> Option<&'a MapCell>
    ensures { IsRising cells.now → option_copied result ≡ at_text key.now cells.now }
{
    let cells = cells.as_slice();
    match find(cells, key) {
        Ok(at) => Some(&cells[at].1),
        Err(_) => None,
    }
}

// Puts a cell and its stamp in place of others, and answers these. It takes no memory.
fn replace(
    cells: &mut List<(Text, MapCell)>,
    stamps: &mut List<Moment>,
    at: usize,
    cell: MapCell,
    stamp: Moment,
) -> HeldCell
    requires cell { at < length cells.old }
    requires stamp { at < length stamps.old }
    ensures cells { (d : List ℕ × MapCell) → cells.new ≡ slice_set cells.old at ((slice_index_or cells.old at d).0, cell) }
    ensures stamps { stamps.new ≡ slice_set stamps.old at stamp }
    ensures before { (d : List ℕ × MapCell) → (s : ℕ) → result ≡ held_cell (slice_index_or stamps.old at s) (slice_index_or cells.old at d).1 }
{
    let before = stamps.as_slice()[at];
    let old = cells.at_mut(at);
    let held = mem::replace(&mut old.1, cell);
    stamps.set(at, stamp);
    HeldCell::new(held, before)
}

// Puts a cell and its stamp at a place, and moves the later ones.
fn insert(
    cells: &mut List<(Text, MapCell)>,
    stamps: &mut List<Moment>,
    at: usize,
    cell: (Text, MapCell),
    stamp: Moment,
) -> Result<(), NoMemory>
    requires cell { at ≤ length cells.old }
    requires stamp { at ≤ length stamps.old }
    ensures cells { OnOk result (cells.new ≡ insert cells.old at cell) }
    ensures stamps { OnOk result (stamps.new ≡ insert stamps.old at stamp) }
    ensures err_cells { OnErr result (cells.new ≡ cells.old) }
    ensures err_stamps { OnErr result (stamps.new ≡ stamps.old) }
{
    stamps.insert(at, stamp)?;
    if cells.insert(at, cell).is_err() {
        stamps.remove(at);
        return Err(NoMemory);
    }
    Ok(())
}

// Writes a cell over the one at a place, where that has a smaller serial, and answers what stood there.
fn write_over(
    cells: &mut List<(Text, MapCell)>,
    stamps: &mut List<Moment>,
    at: usize,
    cell: MapCell,
    stamp: Moment,
) -> Option<Option<HeldCell>>
    requires cell { at < length cells.old }
    requires stamp { at < length stamps.old }
    ensures changed { (d : List ℕ × MapCell) → is_some result ≡ is_below (slice_index_or cells.old at d).1.serial cell.serial }
    ensures cells { (d : List ℕ × MapCell) → cells.new ≡ (if is_some result then slice_set cells.old at ((slice_index_or cells.old at d).0, cell) else cells.old) }
    ensures stamps { stamps.new ≡ (if is_some result then slice_set stamps.old at stamp else stamps.old) }
    ensures before { (d : List ℕ × MapCell) → (s : ℕ) → IfSome result (λ before. before ≡ Some (held_cell (slice_index_or stamps.old at s) (slice_index_or cells.old at d).1)) }
{
    if !is_below(&cells.as_slice()[at].1.serial, &cell.serial) {
        return None;
    }
    Some(Some(replace(cells, stamps, at, cell, stamp)))
}

// Writes a cell at a key where nothing stands.
fn write_new(
    alloc: Global,
    cells: &mut List<(Text, MapCell)>,
    stamps: &mut List<Moment>,
    at: usize,
    key: &str,
    cell: MapCell,
    stamp: Moment,
) -> Result<(), NoMemory>
    requires cell { at ≤ length cells.old }
    requires stamp { at ≤ length stamps.old }
    ensures cells { OnOk result (cells.new ≡ insert cells.old at (key.now, cell)) }
    ensures stamps { OnOk result (stamps.new ≡ insert stamps.old at stamp) }
    ensures err_cells { OnErr result (cells.new ≡ cells.old) }
    ensures err_stamps { OnErr result (stamps.new ≡ stamps.old) }
{
    let key = Text::from_str(alloc, key)?;
    insert(cells, stamps, at, (key, cell), stamp)
}

// Writes a cell, where nothing stands at its key, or what has a smaller serial, and answers what stood there.
fn write(
    alloc: Global,
    cells: &mut List<(Text, MapCell)>,
    stamps: &mut List<Moment>,
    key: &str,
    cell: MapCell,
    stamp: Moment,
) -> Result<Option<Option<HeldCell>>, NoMemory>
    requires { IsKept cells.old stamps.old }
    ensures before { IfOk result (λ before. before ≡ stood_at key.now cell.serial (stamped cells.old stamps.old)) }
    ensures step { OnOk result (stamped cells.new stamps.new ≡ with_told stamp (key.now, cell) (stamped cells.old stamps.old)) }
    ensures kept { IsKept cells.new stamps.new }
    ensures err_cells { OnErr result (cells.new ≡ cells.old) }
    ensures err_stamps { OnErr result (stamps.new ≡ stamps.old) }
{
    match find(cells.as_slice(), key) {
        Ok(at) => Ok(write_over(cells, stamps, at, cell, stamp)),
        Err(at) => {
            write_new(alloc, cells, stamps, at, key, cell, stamp)?;
            Ok(Some(None))
        }
    }
}

// Writes a cell, where nothing stands at its key, or what has a smaller serial, answers what stood there, and keeps the
// weight of all.
pub fn write_weighed(
    alloc: Global,
    cells: &mut List<(Text, MapCell)>,
    stamps: &mut List<Moment>,
    weight: &mut u64,
    key: &str,
    cell: MapCell,
    stamp: Moment,
) -> Result<Option<Option<HeldCell>>, NoMemory>
    requires { IsMap cells.old stamps.old weight.old }
    ensures before { IfOk result (λ before. before ≡ stood_at key.now cell.serial (stamped cells.old stamps.old)) }
    ensures step { OnOk result (stamped cells.new stamps.new ≡ with_told stamp (key.now, cell) (stamped cells.old stamps.old)) }
    ensures kept { IsMap cells.new stamps.new weight.new }
    ensures err_cells { OnErr result (cells.new ≡ cells.old) }
    ensures err_stamps { OnErr result (stamps.new ≡ stamps.old) }
{
    let full = weight_with(*weight, key, &cell)?;
    let before = write(alloc, cells, stamps, key, cell, stamp)?;
    *weight = weight_left(*weight, full, key, &before);
    Ok(before)
}

// Puts back what stood at a place: a cell, or nothing. It takes no memory.
fn put_back_at(
    cells: &mut List<(Text, MapCell)>,
    stamps: &mut List<Moment>,
    at: usize,
    before: Option<HeldCell>,
)
    requires cell { at < length cells.old }
    requires even { length stamps.old ≡ length cells.old }
    ensures step { stamped cells.new stamps.new ≡ place_back at before (stamped cells.old stamps.old) }
    ensures even { length stamps.new ≡ length cells.new }
{
    match before {
        Some(held) => {
            let (cell, stamp) = held.into_parts();
            replace(cells, stamps, at, cell, stamp);
        }
        None => {
            cells.remove(at);
            stamps.remove(at);
        }
    }
}

// Puts back what stood at a key: a cell, or nothing. It takes no memory. Where the key has no cell, nothing changes.
pub fn put_back(
    cells: &mut List<(Text, MapCell)>,
    stamps: &mut List<Moment>,
    key: &str,
    before: Option<HeldCell>,
)
    requires { IsKept cells.old stamps.old }
    ensures back { IsSome (at_text key.now (stamped cells.old stamps.old)) → stamped cells.new stamps.new ≡ restored_at key.now before (stamped cells.old stamps.old) }
    ensures kept { IsKept cells.new stamps.new }
{
    match find(cells.as_slice(), key) {
        Ok(at) => put_back_at(cells, stamps, at, before),
        Err(_) => {}
    }
}

// A copy of a cell whose serial has the place 0 and the index 0.
fn unnumbered_cell(alloc: Global, cell: &(Text, MapCell)) -> Result<(Text, MapCell), NoMemory>
    ensures { IfOk result (λ made. made ≡ unnumbered_shown cell.now) }
{
    let key = cell.0.copy(alloc)?;
    let value = cell.1.value.copy(alloc)?;
    let serial = OpSerial {
        place: Place(0),
        index: 0,
        site: cell.1.serial.site,
    };
    Ok((key, MapCell { serial, value }))
}

// Copies of cells whose serials have the place 0 and the index 0.
pub fn unnumbered(
    alloc: Global,
    cells: &[(Text, MapCell)],
) -> Result<List<(Text, MapCell)>, NoMemory>
    ensures { IfOk result (λ made. made ≡ map unnumbered_shown cells.now) }
{
    let mut made = List::new(alloc);
    for cell in cells {
        made.push(unnumbered_cell(alloc, cell)?)?;
    }
    Ok(made)
}
