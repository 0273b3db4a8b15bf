ghost use Rattle.std.specs.Prelude.{◌≡◌, ◌≢◌, ℕ, List, ◌+◌, ◌-◌, ◌^◌, ◌<◌, ◌≤◌, [], length, IfOk, OnOk, OnErr, IsOk};
ghost use Rattle.rl_model.specs.Parts.{Parts, aged, parts_of, read_in, remembered_in, retained, with_entry, with_outcome, without_outcome};
ghost use Rattle.rl_chanlog.specs.Keeps.{IsReady, Keeps};

use crate::ids::Ids;
use crate::outcomes::Outcomes;
use crate::window::Window;
use rl_events::{Outcome, ReadReply};
use rl_ids::{ConnNo, Moment, NoMemory, Place, Text};
use rl_numbers::limits::{MAX_REMEMBERED, MAX_WINDOW_ENTRIES};
use rl_types::Entry;
use std::alloc::Global;
use std::marker::Model;

/// What a channel holds of its log, within bounds: the entries that are retained, the ids that it remembers, and
/// the last outcome of each connection.
///
/// Retained are at most 4,096 entries, which weigh at most 8,388,608 and are at most 120,000 ms old (this
/// project's own bounds; a service keeps messages for two minutes, RTN15g). Remembered are the ids of the last
/// 8,192 entries (RSL1k2), whether these are retained or not. An outcome is kept until its connection is
/// forgotten (RTN19a2).
#[derive(Drop)]
pub struct ChanLog {
    window: Window,
    ids: Ids,
    outcomes: Outcomes,
}

impl Model for ChanLog {
    ghost use Rattle.std.specs.Prelude.{◌-◌, min};
    ghost use Rattle.rl_chanlog.specs.Keeps.{ChanLogView};
    ghost use Rattle.rl_numbers.specs.declared.limits.TheConstants.{MAX_REMEMBERED};

    ghost Value = { ChanLogView };

    ghost view = { λ l. record { window = l.window; ids = l.ids; outcomes = l.outcomes; head = l.window.head; newest = l.window.newest; room = min l.window.spare (min l.ids.spare (MAX_REMEMBERED - l.ids.count)) } };
}

impl ChanLog {
    /// The log of a channel that took nothing yet. `NoMemory` comes where memory is wanted.
    pub fn new(alloc: Global) -> Result<ChanLog, NoMemory>
        ensures { IfOk result (λ log. ((site : List ℕ) → Keeps log (parts_of site [])) × (log.newest ≡ 0)) }
    {
        Ok(ChanLog {
            window: Window::new(alloc),
            ids: Ids::new(alloc),
            outcomes: Outcomes::new(alloc),
        })
    }

    /// Takes the memory that one `add` of this entry wants. Once in 8,192 entries it drops the ids that are not
    /// remembered any more. After `NoMemory` the log stands for what it did.
    pub fn reserve(&mut self, alloc: Global, _entry: &Entry) -> Result<(), NoMemory>
        ensures same { (parts : Parts) → Keeps self.old parts → Keeps self.new parts }
        ensures room { OnOk result (0 < self.new.room) }
        ensures ready { (conn : ℕ) → IsReady conn self.old → IsReady conn self.new }
        ensures kept { (self.new.newest ≡ self.old.newest) × (self.new.head ≡ self.old.head) }
    {
        self.window.reserve()?;
        self.ids.reserve(alloc)
    }

    /// Puts an entry after the others, with the id that its put gave, and lets the window move on: the earliest
    /// entries that do not fit any more are dropped. Its place is the one after the head, and stamps never fall: its
    /// stamp is not before that of the entry before it. It takes no memory, and costs what it drops.
    pub fn add(&mut self, entry: Entry, id: Option<Text>)
        requires room { 0 < self.old.room }
        requires place { entry.place ≡ self.old.head + 1 }
        requires within { entry.place ≤ 2 ^ 64 - 2 }
        requires later { self.old.newest ≤ entry.stamp }
        ensures added { (parts : Parts) → Keeps self.old parts → Keeps self.new (with_entry entry id parts) }
        ensures newest { self.new.newest ≡ entry.stamp }
        ensures head { self.new.head ≡ self.old.head + 1 }
        ensures ready { (conn : ℕ) → IsReady conn self.old → IsReady conn self.new }
    {
        self.ids.add(id, entry.place.0);
        self.window.add(entry);
    }

    /// Takes the memory that each later `consume` of this connection wants, until it is forgotten: none where an
    /// outcome of it is kept. What else is ready stays so. After `NoMemory` the log stands for what it did.
    pub fn ready(&mut self, conn: ConnNo) -> Result<(), NoMemory>
        ensures same { (parts : Parts) → Keeps self.old parts → Keeps self.new parts }
        ensures ready { OnOk result (IsReady conn self.new) }
        ensures others { (other : ℕ) → IsReady other self.old → IsReady other self.new }
        ensures kept { (self.new.newest ≡ self.old.newest) × (self.new.head ≡ self.old.head) × (self.new.room ≡ self.old.room) }
    {
        self.outcomes.ready(conn.0)
    }

    /// Keeps the outcome of a connection's last serial, in the place of the one before (RTN19a2). It takes no
    /// memory after `ready`, and does not scan. After `NoMemory` the log stands for what it did.
    pub fn consume(&mut self, conn: ConnNo, serial: u64, outcome: Outcome) -> Result<(), NoMemory>
        ensures ok { OnOk result ((parts : Parts) → Keeps self.old parts → Keeps self.new (with_outcome conn serial outcome parts)) }
        ensures err { OnErr result ((parts : Parts) → Keeps self.old parts → Keeps self.new parts) }
        ensures ready { IsReady conn self.old → IsOk result }
        ensures others { (other : ℕ) → IsReady other self.old → IsReady other self.new }
        ensures kept { (self.new.newest ≡ self.old.newest) × (self.new.head ≡ self.old.head) × (self.new.room ≡ self.old.room) }
    {
        self.outcomes.put(conn.0, serial, outcome)
    }

    /// Copies of the first entries after a place, at most `max` of them; or `NotRetained` with the first place,
    /// exactly where the entries after the place are not all retained or the place is past the head (this
    /// project's own). It costs what it gives. `NoMemory` comes where there is none for the copies.
    pub fn read(&self, alloc: Global, from: Place, max: usize) -> Result<ReadReply, NoMemory>
        ensures { IfOk result (λ reply. (parts : Parts) → Keeps self.now parts → reply ≡ read_in parts from max) }
    {
        let first = self.window.first();
        if from.0 < first - 1 || self.window.head() < from.0 {
            return Ok(ReadReply::NotRetained(Place(first)));
        }
        let run = self
            .window
            .run(alloc, (from.0 - (first - 1)) as usize, max)?;
        Ok(ReadReply::Run(run))
    }

    /// The least place that is retained, counted from 1, or the one after the head where none is (this project's
    /// own).
    pub fn first(&self) -> Place
        ensures value { (parts : Parts) → Keeps self.now parts → result ≡ parts.first }
        ensures some { 1 ≤ result }
    {
        Place(self.window.first())
    }

    /// The place of the last entry of the log (RTL15), or 0 where there is none.
    pub fn head(&self) -> Place
        ensures value { (parts : Parts) → Keeps self.now parts → result ≡ length parts.log }
        ensures head { result ≡ self.now.head }
        ensures limit { result ≤ 2 ^ 64 - 2 }
    {
        Place(self.window.head())
    }

    /// How many entries are retained: at most 4,096 (this project's own).
    pub fn len(&self) -> usize
        ensures value { (parts : Parts) → Keeps self.now parts → result ≡ length (retained parts) }
        ensures limit { result ≤ MAX_WINDOW_ENTRIES }
    {
        self.window.len()
    }

    /// The place of the latest entry, among the last 8,192, whose put gave this id (RSL1k2). It does not scan.
    pub fn holds_id(&self, id: &str) -> Option<Place>
        ensures { (parts : Parts) → Keeps self.now parts → result ≡ remembered_in parts id.now }
    {
        self.ids.place_of(id, self.window.head())
    }

    /// The last serial of a connection and its outcome, where they are kept. It does not scan.
    pub fn last_of(&self, conn: ConnNo) -> Option<(u64, Outcome)>
        ensures { (parts : Parts) → Keeps self.now parts → result ≡ parts.kept conn }
    {
        self.outcomes.get(conn.0)
    }

    /// Forgets the outcome of a connection, which is gone for good (this project's own). It does not scan. Other
    /// connections stay ready.
    pub fn forget(&mut self, conn: ConnNo)
        ensures forgot { (parts : Parts) → Keeps self.old parts → Keeps self.new (without_outcome conn parts) }
        ensures others { (other : ℕ) → conn ≢ other → IsReady other self.old → IsReady other self.new }
        ensures kept { (self.new.newest ≡ self.old.newest) × (self.new.head ≡ self.old.head) × (self.new.room ≡ self.old.room) }
    {
        self.outcomes.remove(conn.0);
    }

    /// Lets the window move past the entries that are older than 120,000 ms at this moment (this project's own; a
    /// service keeps messages for two minutes). It takes no memory, and costs what it drops; room stays.
    pub fn age(&mut self, now: Moment)
        ensures aged { (parts : Parts) → Keeps self.old parts → Keeps self.new (aged now parts) }
        ensures ready { (conn : ℕ) → IsReady conn self.old → IsReady conn self.new }
        ensures kept { (self.new.newest ≡ self.old.newest) × (self.new.head ≡ self.old.head) × (self.old.room ≤ self.new.room) }
    {
        self.window.age(now);
    }
}
