ghost use Rattle.std.specs.Prelude.{◌≡◌, map, option_map, IfOk, IsSome, OnOk, OnErr};
ghost use Rattle.std.specs.Option.{option_copied};
ghost use Rattle.rl_objmodel.specs.Held.{cell_of, removal, shown_cell, value_written};
ghost use Rattle.rl_objmodel.specs.Places.{at_text, restored_at, IsRising};
ghost use Rattle.rl_livemap.specs.Stamps.{map_weight, stood_at, stood_before, unnumbered};
ghost use Rattle.rl_objmodel.specs.Steps.{collected_cells, empty_map, entry_writes, loaded_map, merged, told_write, with_told, with_write, with_writes};

use crate::cells::{found, put_back, unnumbered, write_weighed};
use crate::collecting::collect_weighed;
use crate::held::HeldCell;
use rl_ids::{Copied, List, MapValue, Moment, NoMemory, OpSerial, Text};
use rl_numbers::limits::OBJECT_WEIGHT;
use rl_types::MapCell;
use std::alloc::Global;
use std::marker::Model;
use std::mem;

/// A map (RTLM). A contract sees it as a `MapHeld`: whether its create was merged, and what stands at its keys, in
/// order of key: a value, or a tombstone cell with the moment of its removal, each with the serial of its write.
///
/// With n cells, a write looks at about log n keys; one at a new key moves the cells behind it in one move of memory.
/// It keeps its weight, so that none of them is weighed again. A write that would bring the weight past 2^64 - 1 is
/// `NoMemory`.
#[derive(Drop)]
pub struct LiveMap {
    // in order of key, each once
    cells: List<(Text, MapCell)>,
    // of each tombstone cell the moment of its removal; of a cell with a value it says nothing
    stamps: List<Moment>,
    created: bool,
    // of all cells, with that of an object
    weight: u64,
}

impl Model for LiveMap {
    ghost use Rattle.rl_objmodel.specs.Steps.{MapHeld};
    ghost use Rattle.rl_livemap.specs.Stamps.{stamped, IsMap};

    ghost Value = { MapHeld };

    ghost view = { λ m. record { created = m.created; cells = stamped m.cells m.stamps } };

    ghost invariant = { λ m. IsMap m.cells m.stamps m.weight };
}

impl LiveMap {
    /// A map without cells, that is not created. It takes no memory.
    pub fn empty(alloc: Global) -> LiveMap
        ensures { result ≡ empty_map }
    {
        LiveMap {
            cells: List::new(alloc),
            stamps: List::new(alloc),
            created: false,
            weight: OBJECT_WEIGHT,
        }
    }

    /// The map that a page shows: these cells, put in order, and whether it is created. A tombstone cell has the
    /// moment `now`. Of two cells of one key that of the greater serial stays, of one serial the first. `NoMemory`
    /// comes where there is no memory.
    pub fn load(
        alloc: Global,
        cells: &List<(Text, MapCell)>,
        created: bool,
        now: Moment,
    ) -> Result<LiveMap, NoMemory>
        ensures { IfOk result (λ map. map ≡ loaded_map now created cells.now) }
    {
        let mut map = LiveMap::empty(alloc);
        map.tell(alloc, cells.as_slice(), now)?;
        map.created = created;
        Ok(map)
    }

    // Writes these cells, one after another.
    fn tell(
        &mut self,
        alloc: Global,
        cells: &[(Text, MapCell)],
        now: Moment,
    ) -> Result<(), NoMemory>
        ensures { OnOk result (self.new ≡ record self.old { cells = with_writes (map (told_write now) cells.now) self.old.cells }) }
    {
        for cell in cells {
            let told = cell.1.copy(alloc)?;
            self.write(alloc, cell.0.as_str(), told, now)?;
        }
        Ok(())
    }

    // Writes a cell, where it changes what stands at its key, and answers what stood there.
    fn write(
        &mut self,
        alloc: Global,
        key: &str,
        cell: MapCell,
        stamp: Moment,
    ) -> Result<Option<Option<HeldCell>>, NoMemory>
        ensures before { IfOk result (λ before. before ≡ stood_at key.now cell.serial self.old.cells) }
        ensures step { OnOk result (self.new ≡ record self.old { cells = with_told stamp (key.now, cell) self.old.cells }) }
        ensures err { OnErr result (self.new ≡ self.old) }
    {
        write_weighed(
            alloc,
            &mut self.cells,
            &mut self.stamps,
            &mut self.weight,
            key,
            cell,
            stamp,
        )
    }

    /// Gives a key a value (RTLM7), where nothing stands there or what has a smaller serial, and answers what stood
    /// there, nothing or a cell: `Some` of it. Else it is `None`, and the map is as before, as it is after `NoMemory`.
    pub fn set(
        &mut self,
        alloc: Global,
        key: &str,
        value: MapValue,
        serial: &OpSerial,
    ) -> Result<Option<Option<HeldCell>>, NoMemory>
        ensures before { IfOk result (λ before. before ≡ stood_at key.now serial.now self.old.cells) }
        ensures step { OnOk result (self.new ≡ record self.old { cells = with_write key.now (value_written serial.now value) self.old.cells }) }
        ensures err { OnErr result (self.new ≡ self.old) }
    {
        let cell = MapCell {
            serial: *serial,
            value: Some(value),
        };
        self.write(alloc, key, cell, Moment(0))
    }

    /// Leaves a tombstone cell of the moment `now` at a key (RTLM8), where nothing stands there or what has a smaller
    /// serial, and answers what stood there, as [`LiveMap::set`] does. Else the map is as before, as it is after
    /// `NoMemory`.
    pub fn remove(
        &mut self,
        alloc: Global,
        key: &str,
        serial: &OpSerial,
        now: Moment,
    ) -> Result<Option<Option<HeldCell>>, NoMemory>
        ensures before { IfOk result (λ before. before ≡ stood_at key.now serial.now self.old.cells) }
        ensures step { OnOk result (self.new ≡ record self.old { cells = with_write key.now (removal serial.now now) self.old.cells }) }
        ensures err { OnErr result (self.new ≡ self.old) }
    {
        let cell = MapCell {
            serial: *serial,
            value: None,
        };
        self.write(alloc, key, cell, now)
    }

    /// Puts back what stood at a key before a write, a cell or nothing, and what the map weighed. It takes no memory.
    pub fn put_back(&mut self, key: &str, before: Option<HeldCell>, weight: u64)
        requires there { IsSome (at_text key.now self.old.cells) }
        requires weight { weight ≡ map_weight (restored_at key.now before self.old.cells) }
        ensures { self.new ≡ record self.old { cells = restored_at key.now before self.old.cells } }
    {
        put_back(&mut self.cells, &mut self.stamps, key, before);
        self.weight = weight;
    }

    /// Merges what a create brings (RTLM16, RTLM6d): each entry is set, one after another, and the map is created. It
    /// answers the map that stood before. Where the map is created already, nothing changes, and it answers `None`.
    ///
    /// All memory is taken before the first change: the first create copies the map. `NoMemory` leaves it as before.
    pub fn merge_create(
        &mut self,
        alloc: Global,
        entries: &List<(Text, MapValue)>,
        serial: &OpSerial,
    ) -> Result<Option<LiveMap>, NoMemory>
        ensures before { IfOk result (λ before. before ≡ stood_before self.old) }
        ensures step { OnOk result (self.new ≡ merged serial.now entries.now self.old) }
        ensures err { OnErr result (self.new ≡ self.old) }
    {
        if self.created() {
            return Ok(None);
        }
        let mut made = self.copy(alloc)?;
        made.set_all(alloc, entries.as_slice(), serial)?;
        made.set_created(true);
        Ok(Some(mem::replace(self, made)))
    }

    // Sets these entries, one after another.
    fn set_all(
        &mut self,
        alloc: Global,
        entries: &[(Text, MapValue)],
        serial: &OpSerial,
    ) -> Result<(), NoMemory>
        ensures { OnOk result (self.new ≡ record self.old { cells = with_writes (entry_writes serial.now entries.now) self.old.cells }) }
    {
        for entry in entries {
            let value = entry.1.copy(alloc)?;
            self.set(alloc, entry.0.as_str(), value, serial)?;
        }
        Ok(())
    }

    /// Takes the whole map out, and leaves an empty one that is not created. It takes no memory.
    pub fn take(&mut self, alloc: Global) -> LiveMap
        ensures map { result ≡ self.old }
        ensures left { self.new ≡ empty_map }
    {
        mem::replace(self, LiveMap::empty(alloc))
    }

    /// Says whether a create was merged, as where a map is put back. It takes no memory.
    pub fn set_created(&mut self, created: bool)
        ensures { self.new ≡ record self.old { created = created } }
    {
        self.created = created;
    }

    /// What the map weighs: [`OBJECT_WEIGHT`], and for each cell
    /// [`CELL_WEIGHT`](rl_numbers::limits::CELL_WEIGHT), its key and its value. It takes no memory, and looks at no cell.
    pub fn weight(&self) -> u64
        ensures { result ≡ map_weight self.now.cells }
    {
        self.weight
    }

    /// What stands at a key, or nothing. A tombstone cell has no value. It takes no memory.
    pub fn get(&self, key: &str) -> Option<&MapCell>
        ensures { option_copied result ≡ option_map cell_of (at_text key.now self.now.cells) }
    {
        found(&self.cells, key)
    }

    /// What stands at each key, in order of key, tombstone cells among them.
    pub fn cells(&self) -> &List<(Text, MapCell)>
        ensures value { result.now ≡ map shown_cell self.now.cells }
        ensures order { IsRising self.now.cells }
    {
        &self.cells
    }

    /// A copy in which the serial of each cell has the place 0 and the index 0: what is written to it at a later place
    /// is then newer than all that stands. `NoMemory` comes where there is no memory.
    pub fn unnumbered(&self, alloc: Global) -> Result<LiveMap, NoMemory>
        ensures { IfOk result (λ made. made ≡ record self.now { cells = unnumbered self.now.cells }) }
    {
        Ok(LiveMap {
            cells: unnumbered(alloc, self.cells.as_slice())?,
            stamps: self.stamps.copy(alloc)?,
            created: self.created,
            weight: self.weight,
        })
    }

    /// Whether a create was merged.
    pub fn created(&self) -> bool
        ensures { result ≡ self.now.created }
    {
        self.created
    }

    /// Drops each tombstone cell of whose removal `now` is [`TOMBSTONE_GRACE`](rl_numbers::limits::TOMBSTONE_GRACE) or
    /// more past (RTO10). It takes no memory, looks at each cell once, and moves the cells behind one that it drops.
    pub fn collect(&mut self, now: Moment)
        ensures { self.new ≡ record self.old { cells = collected_cells now self.old.cells } }
    {
        collect_weighed(&mut self.cells, &mut self.stamps, &mut self.weight, now);
    }
}

impl Copied for LiveMap {
    fn copy(&self, alloc: Global) -> Result<LiveMap, NoMemory> {
        Ok(LiveMap {
            cells: self.cells.copy(alloc)?,
            stamps: self.stamps.copy(alloc)?,
            created: self.created,
            weight: self.weight,
        })
    }
}
