ghost use Rattle.std.specs.Prelude.{◌≡◌, ◌≤◌, ◌+◌, ◌-◌, ◌^◌, ◌++◌, ◌∷◌, [], ℕ, List, Some, OnOk, OnErr, ◌&&◌, bytes_eq};
ghost use Rattle.rl_events.specs.declared.book.BookEvent.{BookEvent};
ghost use Rattle.rl_events.specs.declared.book.BookReply.TheVariants.{Resumed, Done, Superseded};
ghost use Rattle.rl_connbook.specs.Records.{latest, lowered, raised, is_open, expected_after, outcomes_after};
ghost use Rattle.rl_connbook.specs.Book.{begun, may_resume, kept_outcome, is_over};
ghost use Rattle.rl_connbook.specs.Steps.{record_after, new_record};
ghost use Rattle.rl_connbook.specs.Due.{due_at};

use rl_events::{BookReply, Outcome};
use rl_ids::{List, Moment, NoMemory, Text};
use rl_numbers::limits::{
    CONNECTION_STATE_TTL, MAX_KEPT_OUTCOMES, MAX_MESSAGE_SERIAL, MAX_RESUMED_GENERATION,
};
use std::alloc::Global;

// Whether a connection's transport is there.
#[derive(Clone, Copy, Debug)]
pub enum Standing {
    Live,
    // by the moment at which it was lost
    LostSince(Moment),
    Closed,
}

// What the book keeps of a connection.
#[derive(Drop)]
pub struct Record {
    pub key: Text,
    pub generation: u64,
    pub standing: Standing,
    // the serial that the next put has
    pub expected: u64,
    // the latest outcomes, each with its serial, in order
    pub outcomes: List<(u64, Outcome)>,
    // how many puts are in flight
    pub busy: u64,
    // whether this generation has had a Begin
    pub begun: bool,
}

impl Record {
    pub fn new(alloc: Global, key: Text) -> Record
        ensures { result ≡ new_record key }
    {
        Record {
            key,
            generation: 1,
            standing: Standing::Live,
            expected: 0,
            outcomes: List::new(alloc),
            busy: 0,
            begun: false,
        }
    }

    pub fn is_open(&self) -> bool
        ensures { result ≡ is_open self.now.standing }
    {
        match self.standing {
            Standing::Closed => false,
            _ => true,
        }
    }

    // Whether Expire takes the record.
    pub fn is_over(&self, now: Moment) -> bool
        ensures { result ≡ is_over now self.now }
    {
        if self.busy != 0 {
            return false;
        }
        match self.standing {
            Standing::Live => false,
            Standing::LostSince(since) => {
                now.0 >= CONNECTION_STATE_TTL && since.0 <= now.0 - CONNECTION_STATE_TTL
            }
            Standing::Closed => true,
        }
    }

    // The moment from which Expire may take the record.
    pub fn due(&self) -> Moment
        ensures { result ≡ due_at self.now.standing }
    {
        match self.standing {
            Standing::Live => Moment(u64::MAX),
            Standing::LostSince(since) => Moment(since.0.saturating_add(CONNECTION_STATE_TTL)),
            Standing::Closed => Moment(0),
        }
    }

    // Whether it is the record of a connection that is live or lost, with this key.
    fn has_key(&self, key: &Text) -> bool
        ensures { result ≡ (bytes_eq key.now self.now.key && is_open self.now.standing) }
    {
        key.as_str() == self.key.as_str() && self.is_open()
    }

    // Whether the connection may come back by this key.
    pub fn may_resume(&self, key: &Text) -> bool
        ensures { result ≡ (bytes_eq key.now self.now.key && is_open self.now.standing && may_resume self.now) }
    {
        self.has_key(key) && self.generation != MAX_RESUMED_GENERATION
    }

    // The outcome that is kept of a serial.
    fn kept(&self, serial: u64) -> Option<Outcome>
        ensures { result ≡ kept_outcome serial self.now.outcomes }
    {
        for one in self.outcomes.as_slice() {
            if one.0 == serial {
                return Some(one.1);
            }
        }
        None
    }

    // A Begin at the current generation.
    pub fn begin(&mut self, serial: u64) -> BookReply
        ensures reply { result ≡ begun serial self.old }
        ensures new { (conn generation : ℕ) → self.new ≡ record_after (BookEvent.Begin conn generation serial) result self.old }
    {
        let first = !self.begun;
        self.begun = true;
        let expected = self.expected;
        if serial < expected {
            return match self.kept(serial) {
                Some(outcome) => BookReply::Known(outcome),
                None => BookReply::SerialOld {
                    got: serial,
                    expected,
                },
            };
        }
        if serial > expected && !first {
            return BookReply::SerialGap {
                got: serial,
                expected,
            };
        }
        self.busy = self.busy.saturating_add(1);
        BookReply::Go
    }

    // An End at the current generation.
    pub fn end(&mut self, serial: u64, outcome: Option<Outcome>) -> Result<(), NoMemory>
        ensures ok { (conn generation : ℕ) → OnOk result (self.new ≡ record_after (BookEvent.End conn generation serial outcome) Done self.old) }
        ensures err { OnErr result (self.new ≡ self.old) }
    {
        if let Some(outcome) = outcome {
            if self.expected <= serial && serial <= MAX_MESSAGE_SERIAL {
                self.keep(serial, outcome)?;
            }
        }
        self.lower();
        Ok(())
    }

    // An End at an earlier generation.
    pub fn end_late(&mut self, serial: u64, outcome: Option<Outcome>) -> Result<(), NoMemory>
        ensures ok { (conn generation newer : ℕ) → OnOk result (self.new ≡ record_after (BookEvent.End conn generation serial outcome) (Superseded newer) self.old) }
        ensures err { OnErr result (self.new ≡ self.old) }
    {
        if let Some(outcome) = outcome {
            if serial == self.expected && serial <= MAX_MESSAGE_SERIAL {
                self.keep(serial, outcome)?;
            }
        }
        self.lower();
        Ok(())
    }

    // Keeps an outcome after the others, and drops the oldest where they are too many.
    fn keep(&mut self, serial: u64, outcome: Outcome) -> Result<(), NoMemory>
        requires { serial ≤ MAX_MESSAGE_SERIAL }
        ensures ok { OnOk result (self.new ≡ record self.old { expected = serial + 1; outcomes = latest (self.old.outcomes ++ (serial, outcome) ∷ []) }) }
        ensures err { OnErr result (self.new ≡ self.old) }
    {
        self.outcomes.push((serial, outcome))?;
        if self.outcomes.len() > MAX_KEPT_OUTCOMES {
            self.outcomes.remove(0);
        }
        self.expected = serial + 1;
        Ok(())
    }

    // One put fewer is in flight.
    fn lower(&mut self)
        ensures { self.new ≡ record self.old { busy = lowered self.old.busy } }
    {
        if self.busy < u64::MAX {
            self.busy = self.busy.saturating_sub(1);
        }
    }

    pub fn lose(&mut self, now: Moment)
        ensures { (conn generation : ℕ) → self.new ≡ record_after (BookEvent.Lost conn generation now) Done self.old }
    {
        if let Standing::Live = self.standing {
            self.standing = Standing::LostSince(now);
        }
    }

    pub fn close(&mut self)
        ensures { (conn generation : ℕ) → self.new ≡ record_after (BookEvent.Close conn generation) Done self.old }
    {
        if self.is_open() {
            self.standing = Standing::Closed;
            self.generation = self.generation.saturating_add(1);
            self.begun = false;
        }
    }

    pub fn resume(&mut self)
        ensures generation { self.new.generation ≡ raised self.old.generation }
        ensures new { (key : List ℕ) (now conn generation : ℕ) → self.new ≡ record_after (BookEvent.Resume key now) (Resumed conn generation) self.old }
    {
        self.standing = Standing::Live;
        self.generation = self.generation.saturating_add(1);
        self.begun = false;
    }
}
