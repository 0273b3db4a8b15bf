ghost use Rattle.std.specs.Prelude.{◌&&◌, ◌≡◌, ◌↔◌, ◌||◌, true, not, None, is_some, IfOk, IsSome, OnOk, OnErr, IsTrue};
ghost use Rattle.rl_ids.specs.declared.objects.ObjectId.{ObjectId};
ghost use Rattle.rl_ids.specs.Objects.{kind_of, object_id_text};
ghost use Rattle.rl_types.specs.Weight.{state_weight};
ghost use Rattle.rl_types.specs.declared.objects.Op.{Op};
ghost use Rattle.rl_objmodel.specs.declared.plain.Applied.TheVariants as outcomes;
ghost use Rattle.rl_objmodel.specs.Held.{bare_root, shown, shown_body};
ghost use Rattle.rl_objmodel.specs.Operations.{is_root, suits};
ghost use Rattle.rl_objmodel.specs.Places.{at_text, IsRising};
ghost use Rattle.rl_objmodel.specs.Rules.{cells_in, sum_held};
ghost use Rattle.rl_objmodel.specs.Steps.{added, collected_body, has_no_cell, held_after, held_by, is_gone, is_held_as, is_live_held, is_misplaced, is_of_kind, new_held, outcome, passes, told_held, with_site};
ghost use Rattle.rl_object.specs.Unnumbered.{unnumbered_held};
ghost use Rattle.rl_object.specs.Ids.{is_before_id, is_upto_id};
ghost use Rattle.rl_object.specs.Back.{key_in, restored, CanGoBack, IsBack, StoodIsBack};
ghost use Rattle.rl_object.specs.Parts.{acted_map, cells_before, created_after, deleted_after, map_told, sum_in_body, sum_left, sum_within, IsMapBack};

use crate::kinds::{key_in, kind_of, suits};
use crate::maps;
use crate::stood::{CellsStood, Stood};
use rl_counter::{added, is_newer, put, put_back, serial_of, sum_after, told};
use rl_ids::{
    Code, Copied, List, Moment, NoMemory, ObjectId, ObjectKind, OpSerial, Same, SiteCode,
    object_id_code,
};
use rl_livemap::LiveMap;
use rl_numbers::limits::{OBJECT_WEIGHT, TOMBSTONE_GRACE};
use rl_objmodel::Applied;
use rl_types::{ObjectBody, ObjectState, Op};
use std::alloc::Global;
use std::marker::Model;

// The parts of an object. A contract sees them as a `Held`. The id says which kind it is of, and so which of the other
// parts are used.
#[derive(Drop)]
pub struct Parts {
    id: ObjectId,
    // the id's text, by which objects are in order
    text: Code<96>,
    // in order of site, each once
    sites: List<(SiteCode, OpSerial)>,
    // of a tombstone the moment at which it was deleted
    deleted: Option<Moment>,
    // whether a counter was created; a map knows it
    created: bool,
    // of a counter
    sum: i128,
    // of a map, with its weight
    map: LiveMap,
}

impl Model for Parts {
    ghost use Rattle.rl_objmodel.specs.Held.{Held};
    ghost use Rattle.rl_object.specs.Parts.{held_as, IsObject};

    ghost Value = { Held };

    ghost view = { λ o. held_as o.id o.sites o.deleted o.created o.sum o.map };

    ghost invariant = { λ o. IsObject o.id o.text o.sites };
}

impl Parts {
    // An object of its id's kind, empty and not created.
    pub fn empty(alloc: Global, id: &ObjectId) -> Parts
        ensures { result ≡ new_held id.now }
    {
        Parts {
            id: *id,
            text: object_id_code(id),
            sites: List::new(alloc),
            deleted: None,
            created: false,
            sum: 0,
            map: LiveMap::empty(alloc),
        }
    }

    // A root that nobody wrote to.
    pub fn bare_root(alloc: Global) -> Parts
        ensures { result ≡ bare_root }
    {
        let mut map = LiveMap::empty(alloc);
        map.set_created(true);
        Parts {
            id: ObjectId::Root,
            text: object_id_code(&ObjectId::Root),
            sites: List::new(alloc),
            deleted: None,
            created: true,
            sum: 0,
            map,
        }
    }

    // The object that a state shows, whose body is of its id's kind.
    pub fn told(alloc: Global, state: &ObjectState, now: Moment) -> Result<Parts, NoMemory>
        requires { is_of_kind (kind_of state.now.id) state.now.body ≡ true }
        ensures { IfOk result (λ object. object ≡ told_held now state.now) }
    {
        let sites = told(alloc, state.sites.as_slice())?;
        let deleted = if state.tombstone { Some(now) } else { None };
        let map = map_in(alloc, &state.body, state.created, now)?;
        Ok(Parts {
            id: state.id,
            text: object_id_code(&state.id),
            sites,
            deleted,
            created: state.created,
            sum: sum_in(&state.body),
            map,
        })
    }

    // Its id.
    pub fn id(&self) -> ObjectId
        ensures { result ≡ self.now.id }
    {
        self.id
    }

    // Whether it is of the id with this text.
    pub fn is_of(&self, text: &str) -> bool
        ensures { (id : ObjectId) → object_id_text id ≡ text.now → result ≡ is_held_as id self.now }
    {
        text == self.text.as_str()
    }

    // Whether its id comes before the one with this text.
    pub fn is_before(&self, text: &str) -> bool
        ensures { (id : ObjectId) → object_id_text id ≡ text.now → result ≡ is_before_id id self.now }
    {
        self.text.as_str().cmp(text).is_lt()
    }

    // Whether its id comes before the one with this text, or is it.
    pub fn is_upto(&self, text: &str) -> bool
        ensures { (id : ObjectId) → object_id_text id ≡ text.now → result ≡ is_upto_id id self.now }
    {
        !text.cmp(self.text.as_str()).is_lt()
    }

    // Whether it was created, and not deleted since.
    pub fn created(&self) -> bool
        ensures { result ≡ self.now.created }
    {
        match kind_of(&self.id) {
            ObjectKind::Counter => self.created,
            ObjectKind::Map => self.map.created(),
        }
    }

    // Whether it is the root, or was created and not deleted.
    pub fn is_live(&self) -> bool
        ensures { result ≡ is_live_held self.now }
    {
        matches!(self.id, ObjectId::Root) || self.created() && self.deleted.is_none()
    }

    // Whether it was deleted.
    pub fn is_tombstone(&self) -> bool
        ensures { result ≡ is_some self.now.deleted }
    {
        self.deleted.is_some()
    }

    // Whether it is the root, and has no cell.
    pub fn is_bare(&self) -> bool
        ensures { result ≡ (is_root self.now.id && has_no_cell self.now.body) }
    {
        matches!(self.id, ObjectId::Root) && self.map.cells().is_empty()
    }

    // A counter's sum; a map has none.
    pub fn sum(&self) -> i128
        ensures { result ≡ sum_held (shown_body self.now.body) }
    {
        match kind_of(&self.id) {
            ObjectKind::Counter => self.sum,
            ObjectKind::Map => 0,
        }
    }

    // How many cells it has, tombstone cells among them.
    pub fn count_cells(&self) -> u64
        ensures { result ≡ cells_in (shown self.now) }
    {
        match kind_of(&self.id) {
            ObjectKind::Counter => 0,
            ObjectKind::Map => self.map.cells().len() as u64,
        }
    }

    // Its weight.
    pub fn weight(&self) -> u64
        ensures { result ≡ state_weight (shown self.now) }
    {
        match kind_of(&self.id) {
            ObjectKind::Counter => OBJECT_WEIGHT,
            ObjectKind::Map => self.map.weight(),
        }
    }

    // What it holds, as a page shows it.
    fn body(&self, alloc: Global) -> Result<ObjectBody, NoMemory>
        ensures { IfOk result (λ body. body ≡ shown_body self.now.body) }
    {
        match kind_of(&self.id) {
            ObjectKind::Counter => Ok(ObjectBody::Counter(self.sum)),
            ObjectKind::Map => Ok(ObjectBody::Map(self.map.cells().copy(alloc)?)),
        }
    }

    // The object as a page shows it.
    pub fn state(&self, alloc: Global) -> Result<ObjectState, NoMemory>
        ensures { IfOk result (λ state. state ≡ shown self.now) }
    {
        Ok(ObjectState {
            id: self.id,
            sites: self.sites.copy(alloc)?,
            tombstone: self.deleted.is_some(),
            created: self.created(),
            body: self.body(alloc)?,
        })
    }

    // Whether a Tick drops it.
    pub fn is_gone(&self, now: Moment) -> bool
        ensures { result ≡ is_gone now self.now }
    {
        match (&self.id, &self.deleted) {
            (ObjectId::Made { .. }, Some(stamp)) => {
                now.0 >= TOMBSTONE_GRACE && stamp.0 <= now.0 - TOMBSTONE_GRACE
            }
            _ => false,
        }
    }

    // Whether a page shows the same of both.
    pub fn shows_same(&self, other: &Parts) -> bool
        ensures { IsTrue result ↔ (shown self.now ≡ shown other.now) }
    {
        self.id.same(&other.id)
            && self.sites.same(&other.sites)
            && self.deleted.is_some() == other.deleted.is_some()
            && self.created() == other.created()
            && self.body_shows_same(other)
    }

    // Whether a page shows the same of what both hold.
    fn body_shows_same(&self, other: &Parts) -> bool
        ensures { IsTrue result ↔ (shown_body self.now.body ≡ shown_body other.now.body) }
    {
        match (kind_of(&self.id), kind_of(&other.id)) {
            (ObjectKind::Counter, ObjectKind::Counter) => self.sum == other.sum,
            (ObjectKind::Map, ObjectKind::Map) => self.map.cells().same(other.map.cells()),
            _ => false,
        }
    }

    // Whether an operation is for its kind, and newer than all that it took of the operation's site.
    fn takes(&self, op: &Op, serial: &OpSerial) -> bool
        ensures { not result ≡ (is_misplaced op.now self.now || not (passes serial.now self.now.sites)) }
    {
        suits(kind_of(&self.id), op) && is_newer(self.sites.as_slice(), serial)
    }

    // The sum that an operation leaves, where it does not pass its range. A map has the sum 0.
    fn sum_within(&self, op: &Op) -> Option<i128>
        ensures { result ≡ sum_within self.now.body (added op.now self.now.created) }
    {
        match kind_of(&self.id) {
            ObjectKind::Counter => sum_after(self.sum, added(op, self.created)),
            ObjectKind::Map => Some(0),
        }
    }

    // Sets a site's serial in a tombstone, and answers what stood.
    fn mark(&mut self, serial: &OpSerial) -> Result<Stood, NoMemory>
        ensures step { OnOk result (self.new ≡ record self.old { sites = with_site serial.now self.old.sites }) }
        ensures back { IfOk result (λ stood. (op : Op) → IsBack serial.now op stood self.new self.old) }
        ensures err { OnErr result (self.new ≡ self.old) }
    {
        let created = self.created();
        let sum = self.sum();
        let weight = self.weight();
        let deleted = self.deleted;
        let before = put_site(&mut self.sites, serial)?;
        Ok(Stood {
            serial: before,
            deleted,
            created,
            sum,
            cells: CellsStood::Same,
            weight,
        })
    }

    // Applies an operation that it takes, to an object that stands, and answers what stood. The sum is the one that it
    // leaves.
    fn change(
        &mut self,
        alloc: Global,
        op: &Op,
        serial: &OpSerial,
        now: Moment,
        sum: i128,
    ) -> Result<Stood, NoMemory>
        requires stands { self.old.deleted ≡ None }
        requires suits { suits (kind_of self.old.id) op.now ≡ true }
        requires sum { sum ≡ sum_in_body self.old.body (added op.now self.old.created) }
        ensures step { OnOk result (self.new ≡ held_by None now serial.now op.now self.old) }
        ensures back { IfOk result (λ stood. IsBack serial.now op.now stood self.new self.old) }
        ensures err { OnErr result (self.new ≡ self.old) }
    {
        let created = self.created();
        let old_sum = self.sum();
        let weight = self.weight();
        let (before, cells) = act(alloc, &mut self.sites, &mut self.map, op, serial, now)?;
        self.deleted = deleted_after(op, now);
        self.created = created_after(op, self.created);
        self.sum = sum_left(op, sum);
        Ok(Stood {
            serial: before,
            deleted: None,
            created,
            sum: old_sum,
            cells,
            weight,
        })
    }

    // Applies an operation that names its id, by the site test, and answers what became of it, and where it was applied
    // what stood. What is not `Applied` changes nothing, nor does `NoMemory`.
    pub fn apply(
        &mut self,
        alloc: Global,
        op: &Op,
        serial: &OpSerial,
        now: Moment,
    ) -> Result<(Applied, Option<Stood>), NoMemory>
        ensures outcome { IfOk result (λ done. done.0 ≡ outcome serial.now op.now self.old) }
        ensures stood { IfOk result (λ done. IsSome done.1 ↔ (done.0 ≡ outcomes.Applied)) }
        ensures back { IfOk result (λ done. StoodIsBack serial.now op.now done.1 self.new self.old) }
        ensures step { OnOk result (self.new ≡ held_after now serial.now op.now self.old) }
        ensures err { OnErr result (self.new ≡ self.old) }
    {
        if !self.takes(op, serial) {
            return Ok((Applied::Skipped, None));
        }
        if self.is_tombstone() {
            let stood = self.mark(serial)?;
            return Ok((Applied::Applied, Some(stood)));
        }
        let Some(sum) = self.sum_within(op) else {
            return Ok((Applied::Range, None));
        };
        let stood = self.change(alloc, op, serial, now, sum)?;
        Ok((Applied::Applied, Some(stood)))
    }

    // Puts back what stood before an operation. It takes no memory.
    pub fn put_back(&mut self, op: &Op, serial: &OpSerial, stood: Stood)
        requires { CanGoBack serial.now op.now stood self.old }
        ensures { self.new ≡ restored serial.now op.now stood self.old }
    {
        let Stood {
            serial: before,
            deleted,
            created,
            sum,
            cells,
            weight,
        } = stood;
        put_back(&mut self.sites, &serial.site, before);
        self.deleted = deleted;
        self.created = created;
        self.sum = sum;
        match kind_of(&self.id) {
            ObjectKind::Counter => {}
            ObjectKind::Map => maps::put_back(&mut self.map, key_in(op), cells, created, weight),
        }
    }

    // A copy without the serials of its sites, and with place 0 in those of its cells.
    pub fn unnumbered(&self, alloc: Global) -> Result<Parts, NoMemory>
        ensures { IfOk result (λ made. made ≡ unnumbered_held self.now) }
    {
        let map = self.map.unnumbered(alloc)?;
        Ok(Parts {
            id: self.id,
            text: self.text,
            sites: List::new(alloc),
            deleted: self.deleted,
            created: self.created,
            sum: self.sum,
            map,
        })
    }

    // Drops the tombstone cells that are collected.
    pub fn collect(&mut self, now: Moment)
        ensures { self.new ≡ record self.old { body = collected_body now self.old.body } }
    {
        self.map.collect(now);
    }
}

// Sets the serial of its own site, and answers the one before. `NoMemory` leaves the sites as before.
fn put_site(
    sites: &mut List<(SiteCode, OpSerial)>,
    serial: &OpSerial,
) -> Result<Option<OpSerial>, NoMemory>
    requires { IsRising sites.old }
    ensures before { IfOk result (λ before. before ≡ at_text serial.now.site sites.old) }
    ensures ok { OnOk result (sites.new ≡ with_site serial.now sites.old) }
    ensures rising { IsRising sites.new }
    ensures err { OnErr result (sites.new ≡ sites.old) }
{
    let before = serial_of(sites.as_slice(), &serial.site);
    put(sites, *serial)?;
    Ok(before)
}

// Applies an operation to the sites and the map of an object that stands, and answers what stood of both. `NoMemory`
// leaves both as before.
fn act(
    alloc: Global,
    sites: &mut List<(SiteCode, OpSerial)>,
    map: &mut LiveMap,
    op: &Op,
    serial: &OpSerial,
    now: Moment,
) -> Result<(Option<OpSerial>, CellsStood), NoMemory>
    requires { IsRising sites.old }
    ensures before { IfOk result (λ stood. stood.0 ≡ at_text serial.now.site sites.old) }
    ensures cells { IfOk result (λ stood. IsMapBack (key_in op.now) (cells_before stood.1) map.new.cells map.old.cells) }
    ensures sites { OnOk result (sites.new ≡ with_site serial.now sites.old) }
    ensures map { OnOk result (map.new ≡ acted_map now serial.now op.now map.old) }
    ensures rising { IsRising sites.new }
    ensures err_sites { OnErr result (sites.new ≡ sites.old) }
    ensures err_map { OnErr result (map.new ≡ map.old) }
{
    let before = put_site(sites, serial)?;
    match maps::act(alloc, map, op, serial, now) {
        Ok(cells) => Ok((before, cells)),
        Err(_) => {
            put_back(sites, &serial.site, before);
            Err(NoMemory)
        }
    }
}

// When an object that stands was deleted, after an operation.
fn deleted_after(op: &Op, now: Moment) -> Option<Moment>
    ensures { result ≡ deleted_after now op.now }
{
    match op {
        Op::Delete { .. } => Some(now),
        _ => None,
    }
}

// Whether a counter that stands is created, after an operation.
fn created_after(op: &Op, created: bool) -> bool
    ensures { result ≡ created_after op.now created }
{
    match op {
        Op::CounterCreate { .. } => true,
        Op::Delete { .. } => false,
        _ => created,
    }
}

// The sum that an operation leaves, which a deletion does not.
fn sum_left(op: &Op, sum: i128) -> i128
    ensures { result ≡ sum_left op.now sum }
{
    match op {
        Op::Delete { .. } => 0,
        _ => sum,
    }
}

// The map that a body shows.
fn map_in(alloc: Global, body: &ObjectBody, created: bool, now: Moment) -> Result<LiveMap, NoMemory>
    ensures { IfOk result (λ map. map ≡ map_told now created body.now) }
{
    match body {
        ObjectBody::Counter(_) => Ok(LiveMap::empty(alloc)),
        ObjectBody::Map(cells) => LiveMap::load(alloc, cells, created, now),
    }
}

// A counter's sum; a map has none.
fn sum_in(body: &ObjectBody) -> i128
    ensures { result ≡ sum_held body.now }
{
    match body {
        ObjectBody::Counter(sum) => *sum,
        ObjectBody::Map(_) => 0,
    }
}

impl Copied for Parts {
    fn copy(&self, alloc: Global) -> Result<Parts, NoMemory> {
        Ok(Parts {
            id: self.id,
            text: self.text,
            sites: self.sites.copy(alloc)?,
            deleted: self.deleted,
            created: self.created,
            sum: self.sum,
            map: self.map.copy(alloc)?,
        })
    }
}
