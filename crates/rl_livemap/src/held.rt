ghost use Rattle.std.specs.Prelude.{◌≡◌};
ghost use Rattle.rl_objmodel.specs.Held.{cell_of};
ghost use Rattle.rl_livemap.specs.Stamps.{held_cell};

use rl_ids::Moment;
use rl_types::MapCell;
use std::marker::Model;

/// What stood at a key of a map: a value, or a tombstone cell with the moment of its removal, with the serial of its
/// write. A contract sees it as a `Write`.
#[derive(Drop)]
pub struct HeldCell {
    cell: MapCell,
    // of a tombstone cell the moment of its removal; of a cell with a value it says nothing
    stamp: Moment,
}

impl Model for HeldCell {
    ghost use Rattle.rl_objmodel.specs.Held.{Write};
    ghost use Rattle.rl_livemap.specs.Stamps.{held_cell};

    ghost Value = { Write };

    ghost view = { λ h. held_cell h.stamp h.cell };
}

impl HeldCell {
    // A cell with its stamp.
    pub fn new(cell: MapCell, stamp: Moment) -> HeldCell
        ensures { result ≡ held_cell stamp cell }
    {
        HeldCell { cell, stamp }
    }

    // The cell, as a page shows it.
    pub fn cell(&self) -> &MapCell
        ensures { result.now ≡ cell_of self.now }
    {
        &self.cell
    }

    // The cell and its stamp.
    pub fn into_parts(self) -> (MapCell, Moment)
        ensures { held_cell result.1 result.0 ≡ self }
    {
        let HeldCell { cell, stamp } = self;
        (cell, stamp)
    }
}
