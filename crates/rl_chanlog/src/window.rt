// The end of the log that is retained.
ghost use Rattle.std.specs.Prelude.{◌≡◌, ℕ, ◌+◌, ◌-◌, ◌^◌, ◌<◌, ◌≤◌, ◌++◌, [], ◌∷◌, length, take, drop, sum_by, IfOk, OnOk};
ghost use Rattle.rl_model.specs.Window.{entry_weight, fits, fits_at};
ghost use Rattle.rl_chanlog.specs.Window.{RiseTo, narrowed, spare, young_from};

use rl_ids::{Copied, List, Moment, NoMemory};
use rl_numbers::limits::{MAX_ENTRY_AGE, MAX_WINDOW_ENTRIES, MAX_WINDOW_WEIGHT};
use rl_types::{Entry, weight};
use std::alloc::Global;
use std::collections::VecDeque;
use std::marker::Model;

// The retained entries with what they weigh, the place of the last entry, and its stamp. The stamps of the
// entries never fall.
#[derive(Drop)]
pub struct Window {
    entries: VecDeque<Entry>,
    weight: u128,
    head: u64,
    newest: Moment,
}

impl Model for Window {
    ghost use Rattle.rl_chanlog.specs.Window.{IsWindow, WindowView, spare};

    ghost Value = { WindowView };

    ghost view = { λ w. record { entries = w.entries.items; head = w.head; newest = w.newest; spare = spare w.entries } };

    ghost invariant = { λ w. IsWindow w.entries.items w.weight w.head w.newest };
}

impl Window {
    // The window of an empty log. It takes no memory.
    pub fn new(alloc: Global) -> Window
        ensures entries { result.entries ≡ [] }
        ensures head { result.head ≡ 0 }
        ensures newest { result.newest ≡ 0 }
    {
        Window {
            entries: VecDeque::new(alloc),
            weight: 0,
            head: 0,
            newest: Moment(0),
        }
    }

    // Makes room for one more entry.
    pub fn reserve(&mut self) -> Result<(), NoMemory>
        ensures entries { self.new.entries ≡ self.old.entries }
        ensures head { self.new.head ≡ self.old.head }
        ensures newest { self.new.newest ≡ self.old.newest }
        ensures room { OnOk result (0 < self.new.spare) }
    {
        self.entries.reserve(1)?;
        Ok(())
    }

    // Puts an entry after the others, and drops the earliest ones that do not fit any more.
    pub fn add(&mut self, entry: Entry)
        requires room { 0 < self.old.spare }
        requires place { entry.place ≡ self.old.head + 1 }
        requires within { entry.place ≤ 2 ^ 64 - 2 }
        requires later { self.old.newest ≤ entry.stamp }
        ensures entries { self.new.entries ≡ narrowed fits (self.old.entries ++ entry ∷ []) }
        ensures head { self.new.head ≡ self.old.head + 1 }
        ensures newest { self.new.newest ≡ entry.stamp }
    {
        let weighs = self.weight + u128::from(weight(&entry.body));
        self.head += 1;
        self.newest = entry.stamp;
        self.entries.push_back_reserved(entry);
        self.weight = narrow(&mut self.entries, weighs);
    }

    // Drops the entries that are too old at this moment.
    pub fn age(&mut self, now: Moment)
        ensures entries { self.new.entries ≡ narrowed (fits_at now) self.old.entries }
        ensures head { self.new.head ≡ self.old.head }
        ensures newest { self.new.newest ≡ self.old.newest }
        ensures room { self.old.spare ≤ self.new.spare }
    {
        self.weight = drop_old(&mut self.entries, self.weight, now.0);
    }

    // How many entries are retained.
    pub fn len(&self) -> usize
        ensures value { result ≡ length self.now.entries }
        ensures limit { result ≤ MAX_WINDOW_ENTRIES }
    {
        self.entries.len()
    }

    // The place of the last entry of the log.
    pub fn head(&self) -> u64
        ensures value { result ≡ self.now.head }
        ensures limit { result ≤ 2 ^ 64 - 2 }
    {
        self.head
    }

    // The place of the first entry that is retained, or the one after the head where none is.
    pub fn first(&self) -> u64
        ensures value { result + length self.now.entries ≡ self.now.head + 1 }
        ensures some { 1 ≤ result }
    {
        self.head - self.entries.len() as u64 + 1
    }

    // Copies of at most so many entries, from the one at this index on.
    pub fn run(&self, alloc: Global, from: usize, max: usize) -> Result<List<Entry>, NoMemory>
        requires { from ≤ length self.now.entries }
        ensures { IfOk result (λ run. run ≡ take max (drop from self.now.entries)) }
    {
        let count = (self.entries.len() - from).min(max);
        let mut run = List::new(alloc);
        for at in 0..count {
            run.push(self.entries[from + at].copy(alloc)?)?;
        }
        Ok(run)
    }
}

// Drops the earliest entries until the rest fit, and answers what these weigh.
fn narrow(entries: &mut VecDeque<Entry>, weighs: u128) -> u128
    requires weighs { weighs ≡ sum_by entry_weight entries.old.items }
    ensures entries { entries.new.items ≡ narrowed fits entries.old.items }
    ensures weighed { result ≡ sum_by entry_weight entries.new.items }
{
    let mut left = weighs;
    while let Some(earliest) = entries.front() {
        if entries.len() <= MAX_WINDOW_ENTRIES && left <= u128::from(MAX_WINDOW_WEIGHT) {
            return left;
        }
        left -= u128::from(weight(&earliest.body));
        entries.pop_front();
    }
    left
}

// Drops entries from the first on until one is young enough, and answers what the rest weigh.
fn drop_old(entries: &mut VecDeque<Entry>, weighs: u128, now: u64) -> u128
    requires weighs { weighs ≡ sum_by entry_weight entries.old.items }
    ensures entries { entries.new.items ≡ young_from now entries.old.items }
    ensures weighed { result ≡ sum_by entry_weight entries.new.items }
    ensures room { spare entries.old ≤ spare entries.new }
{
    let mut left = weighs;
    while let Some(earliest) = entries.front() {
        if now.saturating_sub(earliest.stamp.0) <= MAX_ENTRY_AGE {
            return left;
        }
        left -= u128::from(weight(&earliest.body));
        entries.pop_front();
    }
    left
}
