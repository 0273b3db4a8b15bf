// The ids that are remembered.
ghost use Rattle.std.specs.Prelude.{◌≡◌, ◌+◌, ◌-◌, ◌<◌, ◌≤◌, [], ◌∷◌, ℕ, List, OnOk, Some, bytes_eq, if◌then◌else◌};
ghost use Rattle.std.specs.HashMap.{spare};
ghost use Rattle.rl_model.specs.Verdict.{Added};
ghost use Rattle.rl_chanlog.specs.Ids.{KeepsIds, or_earlier, place_in, remembered_at, texts_of};

use rl_ids::{NoMemory, Place, Text};
use rl_numbers::limits::MAX_REMEMBERED;
use std::alloc::Global;
use std::collections::HashMap;
use std::marker::Model;
use std::mem;

// The ids by which entries are known, each with the place of the latest entry that it was given for: `recent`
// has those of the last `count` entries, which are at most 8,192, and `earlier` those of the 8,192 entries before
// these. So no id is taken out one by one.
#[derive(Drop)]
pub struct Ids {
    recent: HashMap<String, u64>,
    earlier: HashMap<String, u64>,
    count: u64,
}

impl Model for Ids {
    ghost use Rattle.std.specs.Prelude.{◌≤◌};
    ghost use Rattle.std.specs.HashMap.{spare};
    ghost use Rattle.rl_chanlog.specs.Ids.{IdsView, texts_of};
    ghost use Rattle.rl_numbers.specs.declared.limits.TheConstants.{MAX_REMEMBERED};

    ghost Value = { IdsView };

    ghost view = { λ i. record { recent = texts_of i.recent.entries; earlier = texts_of i.earlier.entries; count = i.count; spare = spare i.recent } };

    ghost invariant = { λ i. i.count ≤ MAX_REMEMBERED };
}

impl Ids {
    // No ids. It takes no memory.
    pub fn new(alloc: Global) -> Ids
        ensures { KeepsIds result [] }
    {
        Ids {
            recent: HashMap::new(alloc),
            earlier: HashMap::new(alloc),
            count: 0,
        }
    }

    // Makes room for the id of one more entry.
    pub fn reserve(&mut self, alloc: Global) -> Result<(), NoMemory>
        ensures same { (added : List Added) → KeepsIds self.old added → KeepsIds self.new added }
        ensures room { OnOk result ((0 < self.new.spare) × (self.new.count < MAX_REMEMBERED)) }
    {
        self.turn(alloc);
        self.recent.reserve(1)?;
        Ok(())
    }

    // Where `recent` has the ids of 8,192 entries, makes it `earlier`, and begins another.
    fn turn(&mut self, alloc: Global)
        ensures same { (added : List Added) → KeepsIds self.old added → KeepsIds self.new added }
        ensures room { self.new.count < MAX_REMEMBERED }
    {
        if self.count == MAX_REMEMBERED {
            self.earlier = mem::replace(&mut self.recent, HashMap::new(alloc));
            self.count = 0;
        }
    }

    // Remembers the id of an entry at this place. It takes no memory.
    pub fn add(&mut self, id: Option<Text>, place: u64)
        requires spare { 0 < self.old.spare }
        requires few { self.old.count < MAX_REMEMBERED }
        ensures { (added : List Added) → KeepsIds self.old added → KeepsIds self.new (record { id = id; place = place } ∷ added) }
    {
        self.count += 1;
        if let Some(id) = id {
            put(&mut self.recent, id, place);
        }
    }

    // The place of the latest entry, among the last 8,192 up to this head, that was given this id.
    pub fn place_of(&self, id: &str, head: u64) -> Option<Place>
        ensures { result ≡ remembered_at head id.now self.now }
    {
        match self.find(id) {
            Some(place) if head.saturating_sub(place) < MAX_REMEMBERED => Some(Place(place)),
            _ => None,
        }
    }

    // The place of the latest entry that was given this id, among those whose ids are held.
    fn find(&self, id: &str) -> Option<u64>
        ensures { result ≡ or_earlier (place_in id.now self.now.recent) (place_in id.now self.now.earlier) }
    {
        match look_up(&self.recent, id) {
            Some(place) => Some(place),
            None => look_up(&self.earlier, id),
        }
    }
}

// The place at which an id stands.
#[tactic(auto, using(crate::proofs::Places::text_found))]
fn look_up(ids: &HashMap<String, u64>, id: &str) -> Option<u64>
    ensures { result ≡ place_in id.now (texts_of ids.now.entries) }
{
    ids.get(id).copied()
}

// Puts the place of an id in. It takes no memory.
fn put(ids: &mut HashMap<String, u64>, id: Text, place: u64)
    requires { 0 < spare ids.old }
    ensures { (text : List ℕ) → place_in text (texts_of ids.new.entries) ≡ (if bytes_eq text id then Some place else place_in text (texts_of ids.old.entries)) }
{
    // There is a spare place, so it succeeds.
    let _ = ids.insert(id.into_string(), place);
}
