// A sync that is open. It changes no pool.
ghost use Rattle.std.specs.Prelude.{◌≡◌, IfOk, OnOk, OnErr};
ghost use Rattle.std.specs.Option.{option_copied};
ghost use Rattle.rl_objsync.specs.Steps.{ends_sync, is_same_sequence, keeping, opened, received_with, receiving, sequence_in, synced};

use rl_ids::{Copied, List, Moment, NoMemory, Text};
use rl_pool::Pool;
use rl_types::{Cursor, ObjectOp, ObjectState};
use std::alloc::Global;

/// A sync of objects that is open (RTO5).
#[derive(Drop)]
pub struct OpenSync {
    /// The objects that were received since the sequence changed last.
    pub received: List<ObjectState>,
    /// The operations that were given since the sync opened, in order (RTO7).
    pub kept: List<ObjectOp>,
    /// The sequence of the page before, where one came.
    pub sequence: Option<Text>,
}

// Whether a page with this cursor ends the sync.
pub fn ends_sync(at: Option<&Cursor>) -> bool
    ensures { result ≡ ends_sync (option_copied at.entry) }
{
    match at {
        Some(at) => at.cursor.is_empty(),
        None => true,
    }
}

// The sequence of a page with this cursor, where it has one.
fn sequence_of(alloc: Global, at: Option<&Cursor>) -> Result<Option<Text>, NoMemory>
    ensures { IfOk result (λ sequence. sequence ≡ sequence_in (option_copied at.entry)) }
{
    match at {
        Some(at) => Ok(Some(at.sequence.copy(alloc)?)),
        None => Ok(None),
    }
}

impl OpenSync {
    pub fn new(alloc: Global) -> OpenSync
        ensures { result ≡ opened }
    {
        OpenSync {
            received: List::new(alloc),
            kept: List::new(alloc),
            sequence: None,
        }
    }

    // Keeps operations, behind those kept before. `NoMemory` changes nothing.
    pub fn keep(&mut self, alloc: Global, ops: &List<ObjectOp>) -> Result<(), NoMemory>
        ensures ok { OnOk result (self.new ≡ keeping ops.now self.old) }
        ensures err { OnErr result (self.new ≡ self.old) }
    {
        let more = ops.copy(alloc)?;
        self.kept.append(more)
    }

    // Whether a page with this cursor has the sequence of the page before.
    fn goes_on(&self, at: Option<&Cursor>) -> bool
        ensures { result ≡ is_same_sequence self.now.sequence (sequence_in (option_copied at.entry)) }
    {
        match (&self.sequence, at) {
            (Some(sequence), Some(at)) => sequence.as_str() == at.sequence.as_str(),
            _ => false,
        }
    }

    // Receives the objects of a page. `NoMemory` changes nothing.
    pub fn receive(
        &mut self,
        alloc: Global,
        at: Option<&Cursor>,
        states: &List<ObjectState>,
    ) -> Result<(), NoMemory>
        ensures ok { OnOk result (self.new ≡ receiving (option_copied at.entry) states.now self.old) }
        ensures err { OnErr result (self.new ≡ self.old) }
    {
        let sequence = sequence_of(alloc, at)?;
        let more = states.copy(alloc)?;
        if self.goes_on(at) {
            self.received.append(more)?;
        } else {
            self.received = more;
        }
        self.sequence = sequence;
        Ok(())
    }

    // The objects that are received with this page.
    fn received_with(
        &self,
        alloc: Global,
        at: Option<&Cursor>,
        states: &List<ObjectState>,
    ) -> Result<List<ObjectState>, NoMemory>
        ensures { IfOk result (λ all. all ≡ received_with (option_copied at.entry) states.now self.now) }
    {
        let mut all = List::new(alloc);
        if self.goes_on(at) {
            all.append(self.received.copy(alloc)?)?;
        }
        all.append(states.copy(alloc)?)?;
        Ok(all)
    }

    // The pool that the sync leaves where it ends with this page.
    pub fn end(
        &self,
        alloc: Global,
        at: Option<&Cursor>,
        states: &List<ObjectState>,
        now: Moment,
    ) -> Result<Pool, NoMemory>
        ensures { IfOk result (λ pool. pool ≡ synced now (received_with (option_copied at.entry) states.now self.now) self.now.kept) }
    {
        let received = self.received_with(alloc, at, states)?;
        let mut pool = Pool::new(alloc)?;
        pool.replace(alloc, &received, now)?;
        pool.apply(alloc, &self.kept, now)?;
        Ok(pool)
    }
}

impl Copied for OpenSync {
    fn copy(&self, alloc: Global) -> Result<OpenSync, NoMemory> {
        Ok(OpenSync {
            received: self.received.copy(alloc)?,
            kept: self.kept.copy(alloc)?,
            sequence: self.sequence.copy(alloc)?,
        })
    }
}
