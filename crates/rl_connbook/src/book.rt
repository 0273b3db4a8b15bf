ghost use Rattle.std.specs.Prelude.{◌≡◌, ◌≤◌, ℕ, [], true, map, Some, IfOk, OnOk, OnErr, IsOk, IsSome};
ghost use Rattle.std.specs.List.{filter};
ghost use Rattle.std.specs.List.Sorted.{IsStrictlySortedBy};
ghost use Rattle.std.specs.Map.{keys_of, lookup};
ghost use Rattle.std.specs.BTreeMap.{is_at, insert_entry};
ghost use Rattle.std.specs.Ordering.{nat_cmp};
ghost use Rattle.rl_events.specs.declared.book.BookEvent.{BookEvent};
ghost use Rattle.rl_connbook.specs.Book.{told, book_after, is_full, is_over, is_spare};
ghost use Rattle.rl_connbook.specs.Steps.{after, without_all};
ghost use Rattle.rl_connbook.specs.Due.{is_over_at, due_numbers, without_deadlines};

use crate::keys::{key_text, number_in};
use crate::range::NumberRange;
use crate::record::Record;
use crate::shelf::Shelf;
use rl_deadline::Deadlines;
use rl_events::{BookEvent, BookReply, Outcome};
use rl_ids::{ConnNo, Copied, List, Moment, NoMemory, Text};
use rl_numbers::limits::{MAX_CONNECTION, MAX_CONNECTIONS};
use rl_turnlock::Machine;
use std::alloc::Global;
use std::marker::Model;

/// The book of connections (RTN15, RTN16; the book and its limits are this project's own).
///
/// It is a [`Machine`]. Its setup is the range of the numbers that it gives; what it answers is said by that and
/// by its events alone. A contract sees the book as its range, the last number that it gave and the records that
/// stand, in order of number; that it stands for a history says that these are what the definitions make of the
/// history.
///
/// - `Open` gives the next number, from `after + 1`, with generation 1 and a key; or `Limit` exactly where
///   [`MAX_CONNECTIONS`] stand or no number of the range is left. `Limit` says how many stand, and the last
///   number given, or `after` where none was: at `last` none is left.
/// - `Resume` brings a live or lost connection back under the next generation; or `KeyUnknown` exactly where no
///   such connection has that key, or its generation is `MAX_RESUMED_GENERATION`.
/// - `Begin`, `End`, `Lost` and `Close` are `NoRecord` exactly where no connection with that number stands, and
///   `Superseded` exactly where its generation is greater than theirs.
/// - `Begin` is `Go` at the expected serial, and above it where it is the first one of its generation, else
///   `SerialGap`. Below it, it is `Known` where the outcome is among the latest `MAX_KEPT_OUTCOMES`, else
///   `SerialOld`.
/// - `End` is one call in flight fewer. It keeps its outcome at a serial not below the expected one and at most
///   `MAX_MESSAGE_SERIAL`; one of an earlier generation at exactly the expected serial.
/// - `Lost` and `Close` change how the connection stands; `Close` also raises its generation.
/// - `Expire` removes each connection without calls in flight that is closed, or lost for
///   `CONNECTION_STATE_TTL`.
///
/// `Resume`, `Begin`, `Lost` and `Close` take no memory and are always answered. After `NoMemory` the book is as
/// before.
///
/// No event looks at all connections. With n of them, a record stands in a slot of a slab, and its number leads to
/// the slot in steps of about the logarithm of n. `Resume` finds it by its key the same way: a key has the number
/// in its place, and the two keys are then compared. What each event costs beside that:
///
/// - `Begin` below the expected serial looks at the outcomes that are kept, and `End` may move them.
/// - `Open`, `Resume`, `Lost` and `Close` put the connection's deadline in its place among the others: a search by
///   halves, and a move of at most 16 bytes for each of n in one piece.
/// - `Expire` looks at the connections whose deadline has come, and at one deadline more: a live one has no
///   deadline before 2^64 - 1, a lost one has it `CONNECTION_STATE_TTL` after the loss, a closed one at once. It
///   sorts their numbers, tests each, and removes each one that is over, which costs as much as a `Close`. One that
///   has a call in flight keeps its deadline, and is tested again by the next `Expire`.
#[derive(Drop)]
pub struct ConnBook {
    range: NumberRange,
    // `after` where no number was given
    last_given: u32,
    records: Shelf<Record>,
    // from when each may be over
    deadlines: Deadlines,
}

impl Model for ConnBook {
    ghost use Rattle.rl_connbook.specs.Book.{Book};
    ghost use Rattle.rl_connbook.specs.Due.{IsKept};

    ghost Value = { Book };

    ghost view = { λ b. record { range = b.range; last_given = b.last_given; records = b.records } };

    ghost invariant = { λ b. IsKept b.last_given b.records b.deadlines };
}

// Removes the records of these connections.
#[tactic(auto, using(std::proofs::lemmas::List::Sums::fold_push))]
fn remove_all(records: &mut Shelf<Record>, conns: &[ConnNo])
    ensures { records.new ≡ without_all records.old conns.now }
{
    for conn in conns {
        records.remove(conn.0);
    }
}

// Cancels the deadlines of these connections.
#[tactic(auto, using(std::proofs::lemmas::List::Sums::fold_push))]
fn cancel_all(deadlines: &mut Deadlines, conns: &[ConnNo])
    ensures { deadlines.new ≡ without_deadlines deadlines.old conns.now }
{
    for conn in conns {
        deadlines.cancel(conn.0);
    }
}

// Gives a connection that has a deadline another one, which takes no memory and is always answered Ok.
fn postpone(deadlines: &mut Deadlines, number: u32, at: Moment)
    ensures { IsSome (lookup (is_at (nat_cmp number)) deadlines.old) → deadlines.new ≡ insert_entry nat_cmp deadlines.old number at }
{
    deadlines.set(number, at).ok();
}

impl ConnBook {
    /// A book of all numbers: that [`between`](ConnBook::between) 0 and [`MAX_CONNECTION`]. `NoMemory` comes
    /// where there is no memory.
    pub fn new(alloc: Global) -> Result<ConnBook, NoMemory>
        ensures { IfOk result (λ book. book ≡ book_after (record { after = 0; last = MAX_CONNECTION }) []) }
    {
        ConnBook::between(alloc, 0, MAX_CONNECTION)
    }

    /// A book in which no connection stands, and that gave no number: it stands for no event. It gives the
    /// numbers above `after`, up to `last`. `NoMemory` comes where there is no memory.
    pub fn between(alloc: Global, after: u32, last: u32) -> Result<ConnBook, NoMemory>
        requires { after ≤ last }
        ensures { IfOk result (λ book. book ≡ book_after (record { after = after; last = last }) []) }
    {
        Ok(ConnBook {
            range: NumberRange { after, last },
            last_given: after,
            records: Shelf::new(alloc),
            deadlines: Deadlines::new(alloc),
        })
    }

    // Whether no connection more can be opened.
    fn is_full(&self) -> bool
        ensures { result ≡ is_full self.now }
    {
        self.records.len() >= MAX_CONNECTIONS || self.last_given >= self.range.last
    }

    // The key, its copy and the deadline are made before the record. Where the memory for the record ends, the
    // deadline is cancelled, which takes none.
    fn open(&mut self, alloc: Global, word: u64) -> Result<BookReply, NoMemory>
        ensures reply { (now : ℕ) → IfOk result (λ reply. reply ≡ told self.old (BookEvent.Open word now)) }
        ensures new { (now : ℕ) → OnOk result (self.new ≡ after self.old (BookEvent.Open word now)) }
        ensures err { OnErr result (self.new ≡ self.old) }
    {
        if self.is_full() {
            return Ok(BookReply::Limit {
                count: self.records.len(),
                given: self.last_given,
            });
        }
        let conn = self.last_given + 1;
        let key = key_text(alloc, conn, word)?;
        let shown = key.copy(alloc)?;
        let record = Record::new(alloc, key);
        self.deadlines.set(conn, record.due())?;
        if self.records.insert(conn, record).is_err() {
            self.deadlines.cancel(conn);
            return Err(NoMemory);
        }
        self.last_given = conn;
        Ok(BookReply::Opened {
            conn: ConnNo(conn),
            generation: 1,
            key: shown,
        })
    }

    fn resume(&mut self, key: &Text) -> BookReply
        ensures reply { (now : ℕ) → result ≡ told self.old (BookEvent.Resume key.now now) }
        ensures new { (now : ℕ) → self.new ≡ after self.old (BookEvent.Resume key.now now) }
    {
        let number = number_in(key.as_bytes());
        let Some(record) = self.records.get_mut(number) else {
            return BookReply::KeyUnknown;
        };
        if !record.may_resume(key) {
            return BookReply::KeyUnknown;
        }
        record.resume();
        let generation = record.generation;
        let due = record.due();
        postpone(&mut self.deadlines, number, due);
        BookReply::Resumed {
            conn: ConnNo(number),
            generation,
        }
    }

    fn begin(&mut self, conn: ConnNo, generation: u64, serial: u64) -> BookReply
        ensures reply { result ≡ told self.old (BookEvent.Begin conn generation serial) }
        ensures new { self.new ≡ after self.old (BookEvent.Begin conn generation serial) }
    {
        let Some(record) = self.records.get_mut(conn.0) else {
            return BookReply::NoRecord;
        };
        if generation < record.generation {
            return BookReply::Superseded {
                newer: record.generation,
            };
        }
        record.begin(serial)
    }

    fn end(
        &mut self,
        conn: ConnNo,
        generation: u64,
        serial: u64,
        outcome: Option<Outcome>,
    ) -> Result<BookReply, NoMemory>
        ensures reply { IfOk result (λ reply. reply ≡ told self.old (BookEvent.End conn generation serial outcome)) }
        ensures new { OnOk result (self.new ≡ after self.old (BookEvent.End conn generation serial outcome)) }
        ensures err { OnErr result (self.new ≡ self.old) }
    {
        let Some(record) = self.records.get_mut(conn.0) else {
            return Ok(BookReply::NoRecord);
        };
        let newer = record.generation;
        if generation < newer {
            record.end_late(serial, outcome)?;
            return Ok(BookReply::Superseded { newer });
        }
        record.end(serial, outcome)?;
        Ok(BookReply::Done)
    }

    fn lose(&mut self, conn: ConnNo, generation: u64, now: Moment) -> BookReply
        ensures reply { result ≡ told self.old (BookEvent.Lost conn generation now) }
        ensures new { self.new ≡ after self.old (BookEvent.Lost conn generation now) }
    {
        let Some(record) = self.records.get_mut(conn.0) else {
            return BookReply::NoRecord;
        };
        if generation < record.generation {
            return BookReply::Superseded {
                newer: record.generation,
            };
        }
        record.lose(now);
        let due = record.due();
        postpone(&mut self.deadlines, conn.0, due);
        BookReply::Done
    }

    fn close(&mut self, conn: ConnNo, generation: u64) -> BookReply
        ensures reply { result ≡ told self.old (BookEvent.Close conn generation) }
        ensures new { self.new ≡ after self.old (BookEvent.Close conn generation) }
    {
        let Some(record) = self.records.get_mut(conn.0) else {
            return BookReply::NoRecord;
        };
        if generation < record.generation {
            return BookReply::Superseded {
                newer: record.generation,
            };
        }
        record.close();
        let due = record.due();
        postpone(&mut self.deadlines, conn.0, due);
        BookReply::Done
    }

    // Whether the connection with this number is there and over.
    fn is_over(&self, number: u32, now: Moment) -> bool
        ensures { result ≡ is_over_at now self.now.records number }
    {
        match self.records.get(number) {
            Some(record) => record.is_over(now),
            None => false,
        }
    }

    // Those of these connections that are over.
    fn over_among(
        &self,
        alloc: Global,
        numbers: &[u32],
        now: Moment,
    ) -> Result<List<ConnNo>, NoMemory>
        ensures { IfOk result (λ conns. conns ≡ filter (is_over_at now self.now.records) numbers.now) }
    {
        let mut conns = List::new(alloc);
        for number in numbers {
            if self.is_over(*number, now) {
                conns.push(ConnNo(*number))?;
            }
        }
        Ok(conns)
    }

    // The numbers of the connections whose deadline has come, in order. Those that are over are among them.
    fn due(&self, alloc: Global, now: Moment) -> Result<List<u32>, NoMemory>
        ensures numbers { IfOk result (λ numbers. numbers ≡ due_numbers now self.now.records) }
        ensures ordered { IsStrictlySortedBy nat_cmp (keys_of self.now.records) }
    {
        let mut numbers = self.deadlines.due(alloc, now)?;
        numbers.sort()?;
        Ok(numbers)
    }

    // The connections that are over, in order.
    fn over(&self, alloc: Global, now: Moment) -> Result<List<ConnNo>, NoMemory>
        ensures { IfOk result (λ conns. conns ≡ map (λ e. e.0) (filter (λ e. is_over now e.1) self.now.records)) }
    {
        let numbers = self.due(alloc, now)?;
        self.over_among(alloc, numbers.as_slice(), now)
    }

    fn expire(&mut self, alloc: Global, now: Moment) -> Result<BookReply, NoMemory>
        ensures reply { IfOk result (λ reply. reply ≡ told self.old (BookEvent.Expire now)) }
        ensures new { OnOk result (self.new ≡ after self.old (BookEvent.Expire now)) }
        ensures err { OnErr result (self.new ≡ self.old) }
    {
        let conns = self.over(alloc, now)?;
        remove_all(&mut self.records, conns.as_slice());
        cancel_all(&mut self.deadlines, conns.as_slice());
        Ok(BookReply::Expired(conns))
    }

    // Takes one event, by what the book keeps alone.
    fn step(&mut self, alloc: Global, event: BookEvent) -> Result<BookReply, NoMemory>
        ensures reply { IfOk result (λ reply. reply ≡ told self.old event) }
        ensures new { OnOk result (self.new ≡ after self.old event) }
        ensures err { OnErr result (self.new ≡ self.old) }
        ensures spare { is_spare event ≡ true → IsOk result }
    {
        match event {
            BookEvent::Open { word, now: _ } => self.open(alloc, word),
            BookEvent::Resume { key, now: _ } => Ok(self.resume(&key)),
            BookEvent::Begin {
                conn,
                generation,
                serial,
            } => Ok(self.begin(conn, generation, serial)),
            BookEvent::End {
                conn,
                generation,
                serial,
                outcome,
            } => self.end(conn, generation, serial, outcome),
            BookEvent::Lost {
                conn,
                generation,
                now,
            } => Ok(self.lose(conn, generation, now)),
            BookEvent::Close { conn, generation } => Ok(self.close(conn, generation)),
            BookEvent::Expire { now } => self.expire(alloc, now),
        }
    }
}

impl Machine for ConnBook {
    type Event = BookEvent;

    type Reply = BookReply;

    type Setup = NumberRange;

    ghost use Rattle.std.specs.Prelude.{◌≡◌};
    ghost use Rattle.rl_connbook.specs.Book.{book_after, reply_after, is_spare};

    ghost stands = { λ book past. book ≡ book_after book.range past };

    ghost setup = { λ book. book.range };

    ghost any_setup = { record { after = 0; last = 0 } };

    ghost reply = { reply_after };

    ghost is_spare = { is_spare };

    #[tactic(auto, using(crate::proofs::History::stands_more))]
    fn take(&mut self, alloc: Global, event: BookEvent) -> Result<BookReply, NoMemory> {
        self.step(alloc, event)
    }
}
