use rl_ids::{Moment, OpSerial};
use rl_livemap::{HeldCell, LiveMap};
use std::marker::Model;

// What stood of a map before an operation: it is the same, one cell was changed, or all of it was.
#[derive(Drop)]
pub enum CellsStood {
    Same,
    One(Option<HeldCell>),
    All(LiveMap),
}

/// What stood in an object before an operation was applied to it, which
/// [`Object::put_back`](crate::Object::put_back) puts back. A contract sees it as a `Stood` of `specs/Back.antt`. A cell
/// that was written over, and the map of an object that was deleted, are moved into it, not copied.
#[derive(Drop)]
pub struct Stood {
    // of the operation's site
    pub(crate) serial: Option<OpSerial>,
    pub(crate) deleted: Option<Moment>,
    pub(crate) created: bool,
    pub(crate) sum: i128,
    pub(crate) cells: CellsStood,
    pub(crate) weight: u64,
}

impl Model for Stood {
    ghost use Rattle.rl_object.specs.Back.{Stood as Kept};

    ghost Value = { Kept };

    ghost use Rattle.rl_object.specs.Parts.{stood_as};

    ghost view = { λ s. stood_as s.serial s.deleted s.created s.sum s.cells s.weight };
}
