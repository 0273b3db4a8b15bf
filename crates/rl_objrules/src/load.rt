// What objects load a pool with: how many cells they have, and what they weigh.
ghost use Rattle.std.specs.Prelude.{◌≡◌, ◌+◌, ◌<◌, ◌≤◌, ◌^◌, ◌-◌, IfErr, IfNone, IfOk, IfSome, IsTrue};
ghost use Rattle.rl_objmodel.specs.Held.{shown};
ghost use Rattle.rl_objmodel.specs.Rules.{is_heavy};
ghost use Rattle.rl_objrules.specs.Loads.{is_full, is_past_limits, is_past_range, load_in, load_of, saturated_load, IsExchanged, IsInRange, IsUnder};

use rl_ids::{List, NoMemory};
use rl_numbers::limits::{MAX_MAP_CELLS, MAX_OBJECT_WEIGHT, MAX_OBJECTS, MAX_POOL_WEIGHT};
use rl_object::Object;

/// What objects load a pool with.
#[derive(Clone, Copy, Drop)]
pub struct Load {
    /// How many cells they have, tombstone cells among them.
    pub cells: u64,
    /// What they weigh.
    pub weight: u64,
}

/// Objects in order of id, and their load.
#[derive(Drop)]
pub struct Shelf {
    /// The objects.
    pub objects: List<Object>,
    /// What all of them load it with.
    pub load: Load,
}

/// What no objects load a pool with.
pub const NO_LOAD: Load = Load {
    cells: 0,
    weight: 0,
};

/// Whether an object is past the weight of one.
pub fn is_heavy(object: &Object) -> bool
    ensures { result ≡ is_heavy (shown object.now) }
{
    object.weight() > MAX_OBJECT_WEIGHT
}

/// What one object loads a pool with.
pub fn load_of(object: &Object) -> Load
    ensures { result ≡ load_of object.now }
{
    Load {
        cells: object.count_cells(),
        weight: object.weight(),
    }
}

/// What objects load a pool with, each number the greatest of its type where it is greater.
pub fn all_load(objects: &[Object]) -> Load
    ensures { result ≡ saturated_load (load_in objects.now) }
{
    let mut cells = 0u64;
    let mut weight = 0u64;
    for object in objects {
        cells = cells.saturating_add(object.count_cells());
        weight = weight.saturating_add(object.weight());
    }
    Load { cells, weight }
}

fn is_number(_number: u64)
    ensures { _number < 2 ^ 64 }
{}

/// The numbers of a load fit their type. It does nothing: its contract is the fact.
pub fn load_fits(load: &Load)
    ensures { IsInRange load.now }
{
    is_number(load.cells);
    is_number(load.weight);
}

/// Objects with their load. `NoMemory`, where a number of it is the greatest of its type or past it, drops them.
pub fn shelf_of(objects: List<Object>) -> Result<Shelf, NoMemory>
    ensures objects { IfOk result (λ shelf. shelf.objects ≡ objects) }
    ensures load { IfOk result (λ shelf. shelf.load ≡ load_in objects) }
    ensures full { IfErr result (λ _fault. IsTrue (is_full (load_in objects))) }
{
    let load = all_load(objects.as_slice());
    if load.cells == u64::MAX || load.weight == u64::MAX {
        return Err(NoMemory);
    }
    Ok(Shelf { objects, load })
}

// A number with more in place of less, where it fits.
fn exchanged_number(number: u64, less: u64, more: u64) -> Option<u64>
    requires { less ≤ number }
    ensures made { IfSome result (λ made. made + less ≡ number + more) }
    ensures past { IfNone result (2 ^ 64 ≤ (number - less) + more) }
{
    (number - less).checked_add(more)
}

/// A load with more in place of less, where its numbers fit their type.
pub fn exchanged(load: &Load, less: &Load, more: &Load) -> Option<Load>
    requires { IsUnder less.now load.now }
    ensures made { IfSome result (λ made. IsExchanged load.now less.now more.now made) }
    ensures past { IfNone result (IsTrue (is_past_range load.now less.now more.now)) }
{
    let cells = exchanged_number(load.cells, less.cells, more.cells)?;
    let weight = exchanged_number(load.weight, less.weight, more.weight)?;
    Some(Load { cells, weight })
}

// Whether so many objects with such a load are more, or weigh more, than a pool may have, or one is past its weight.
pub fn is_past_limits(count: usize, load: &Load, heavy: bool) -> bool
    ensures { result ≡ is_past_limits count load.now heavy }
{
    count > MAX_OBJECTS
        || load.cells > MAX_MAP_CELLS as u64
        || heavy
        || load.weight > MAX_POOL_WEIGHT
}
