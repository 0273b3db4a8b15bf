ghost use Rattle.std.specs.Prelude.{◌≡◌, ◌↔◌, ◌≤◌, [], true, false, length, filter, slice_range, IfOk, IfErr, OnOk, OnErr, IsTrue, if◌then◌else◌};
ghost use Rattle.std.specs.List.{remove_range};
ghost use Rattle.rl_ackq.specs.declared.fault.PushFault.TheVariants as faults;
ghost use Rattle.rl_ackq.specs.Frames.{is_acknowledged};
ghost use Rattle.rl_ackq.specs.Queue as queue;

use crate::PushFault;
use crate::pending::{Pending, give_serial};
use rl_ids::{Copied, List, NoMemory};
use rl_numbers::limits::{MAX_MESSAGE_SERIAL, MAX_PENDING};
use rl_types::Frame;
use std::alloc::Global;
use std::collections::VecDeque;
use std::marker::Model;

/// The frames that await acknowledgement, in order, and the next serial (RTN7b). The serials rise, and are
/// below the next one; a frame is kept as it is sent, with its serial in its head.
#[derive(Drop)]
pub struct AckQueue {
    pending: VecDeque<Pending>,
    next: u64,
}

impl Model for AckQueue {
    ghost use Rattle.rl_ackq.specs.Queue.{IsQueue, Queue};

    ghost Value = { Queue };

    ghost view = { λ q. record { pending = q.pending.items; next = q.next } };

    ghost invariant = { λ q. IsQueue q.pending.items q.next };
}

impl AckQueue {
    /// The empty queue, whose next serial is 0. It takes no memory.
    pub fn new(alloc: Global) -> AckQueue
        ensures { result ≡ queue.new_queue }
    {
        AckQueue {
            pending: VecDeque::new(alloc),
            next: 0,
        }
    }

    /// The serial that the next frame gets, which is at most 2^53 - 1. What is told of the queue holds at every
    /// moment: the serials rise and are below this one, at most 1,000 frames are pending, and each has its
    /// serial in its head.
    pub fn next(&self) -> u64
        ensures value { result ≡ self.now.next }
        ensures holds { queue.IsQueue self.now.pending self.now.next }
    {
        self.next
    }

    /// How many frames are pending: at most 1,000.
    pub fn len(&self) -> usize
        ensures value { result ≡ length self.now.pending }
        ensures few { result ≤ MAX_PENDING }
    {
        self.pending.len()
    }

    /// Whether no frame is pending.
    pub fn is_empty(&self) -> bool
        ensures { IsTrue result ↔ (self.now.pending ≡ []) }
    {
        self.pending.is_empty()
    }

    /// Whether no frame can be taken: 1,000 are pending, or the next serial is 2^53 - 1.
    pub fn is_full(&self) -> bool
        ensures { result ≡ queue.is_full self.now }
    {
        self.pending.len() == MAX_PENDING || self.next == MAX_MESSAGE_SERIAL
    }

    /// Takes a frame that the service acknowledges (MESSAGE, PRESENCE, OBJECT) after the others, with the next serial,
    /// which goes into its head too, and answers the serial (RTN7b). `Full` comes exactly where the queue is full, with
    /// the count of pending frames; after it, as after want of memory, the queue is as before.
    pub fn push(&mut self, frame: Frame) -> Result<u64, PushFault>
        requires { is_acknowledged frame ≡ true }
        ensures ok { IfOk result (λ serial. (serial ≡ self.old.next) × (queue.is_full self.old ≡ false)) }
        ensures pushed { OnOk result (self.new ≡ queue.pushed frame self.old) }
        ensures cause { IfErr result (λ fault. fault ≡ (if queue.is_full self.old then faults.Full (length self.old.pending) else faults.NoMemory)) }
        ensures err { OnErr result (self.new ≡ self.old) }
    {
        if self.is_full() {
            return Err(PushFault::Full(self.pending.len()));
        }
        let serial = self.next;
        self.pending.push_back(Pending::new(serial, frame))?;
        self.next += 1;
        Ok(serial)
    }

    /// The serials of the pending frames among the `count` serials from `serial` on, in order: what an ACK or a
    /// NACK of these settles (RTN7a). Serials of frames that are not pending are passed over. The queue is
    /// unchanged: see [`take_out`](AckQueue::take_out).
    pub fn covered_serials(
        &self,
        alloc: Global,
        serial: u64,
        count: u32,
    ) -> Result<List<u64>, NoMemory>
        ensures { IfOk result (λ serials. serials ≡ queue.settled_serials serial count self.now) }
    {
        let (first, past) = self.covered(serial, count);
        let serials = self
            .pending
            .range(first..past)
            .map(|one| one.serial)
            .collect(alloc)?;
        Ok(List::from_vec(serials))
    }

    /// Takes the pending frames with these `count` serials from `serial` on out of the queue (RTN7a). It takes no
    /// memory.
    pub fn take_out(&mut self, serial: u64, count: u32)
        ensures { self.new ≡ queue.settled serial count self.old }
    {
        let (first, past) = self.covered(serial, count);
        self.pending.drain(first..past);
    }

    /// Takes the pending frames with these `count` serials from `serial` on out of the queue, and answers their
    /// serials in order: for ACK and NACK alike (RTN7a). Serials of frames that are not pending are passed
    /// over. All memory is taken before the first change: where there is none, the queue is as before.
    pub fn settle(&mut self, alloc: Global, serial: u64, count: u32) -> Result<List<u64>, NoMemory>
        ensures ok { IfOk result (λ serials. serials ≡ queue.settled_serials serial count self.old) }
        ensures settled { OnOk result (self.new ≡ queue.settled serial count self.old) }
        ensures err { OnErr result (self.new ≡ self.old) }
    {
        let serials = self.covered_serials(alloc, serial, count)?;
        self.take_out(serial, count);
        Ok(serials)
    }

    /// Takes back what was pushed since the next serial was this one: drops the pending frames from this serial
    /// on, and it is the next one again. It takes no memory. (This project's own: what fails after a push is as
    /// before.)
    pub fn take_back(&mut self, serial: u64)
        requires { serial ≤ self.old.next }
        ensures { self.new ≡ queue.cut_at serial self.old }
    {
        let kept = self.below(serial);
        self.pending.truncate(kept);
        self.next = serial;
    }

    /// Copies of the pending frames in order, each with its serial in its head, to be sent again (RTN19a).
    pub fn resend(&self, alloc: Global) -> Result<List<Frame>, NoMemory>
        ensures ok { IfOk result (λ frames. frames ≡ queue.frames self.now.pending) }
        ensures told { queue.AreTold self.now.pending }
    {
        let mut frames = List::new(alloc);
        for at in 0..self.pending.len() {
            frames.push(self.pending[at].frame.copy(alloc)?)?;
        }
        Ok(frames)
    }

    /// Copies of the pending frames in order, with the serials from 0 in their heads: what
    /// [`resend`](AckQueue::resend) gives of the queue that is numbered anew (RTN19a2). The queue is unchanged: see
    /// [`renumber`](AckQueue::renumber).
    pub fn resend_anew(&self, alloc: Global) -> Result<List<Frame>, NoMemory>
        ensures { IfOk result (λ frames. frames ≡ queue.frames (queue.renumbered self.now).pending) }
    {
        let mut frames = List::new(alloc);
        for at in 0..self.pending.len() {
            let mut frame = self.pending[at].frame.copy(alloc)?;
            give_serial(&mut frame, at as u64);
            frames.push(frame)?;
        }
        Ok(frames)
    }

    /// Gives the pending frames the serials from 0, in order; the next serial is then their count (RTN19a2). It
    /// takes no memory.
    pub fn renumber(&mut self)
        ensures { self.new ≡ queue.renumbered self.old }
    {
        number_from_0(&mut self.pending);
        self.next = self.pending.len() as u64;
    }

    /// Begins an empty queue at this serial, which is at most 2^53 - 1 (RTN16f).
    pub fn start_at(&mut self, serial: u64)
        requires empty { self.old.pending ≡ [] }
        requires small { serial ≤ MAX_MESSAGE_SERIAL }
        ensures { self.new ≡ queue.started_at serial }
    {
        self.next = serial;
    }

    /// Drops all pending frames, and answers how many there were; the next serial is then 0 (RTN7e). It takes
    /// no memory.
    pub fn drop_all(&mut self) -> usize
        ensures count { result ≡ length self.old.pending }
        ensures dropped { self.new ≡ queue.new_queue }
    {
        let count = self.pending.len();
        self.pending.clear();
        self.next = 0;
        count
    }
}

impl AckQueue {
    // Where the pending frames with these serials begin, and where they end.
    fn covered(&self, serial: u64, count: u32) -> (usize, usize)
        ensures order { result.0 ≤ result.1 }
        ensures within { result.1 ≤ length self.now.pending }
        ensures given { filter (queue.is_covered serial count) self.now.pending ≡ slice_range self.now.pending result.0 result.1 }
        ensures kept { (queue.settled serial count self.now).pending ≡ remove_range self.now.pending result.0 result.1 }
    {
        let first = self.below(serial);
        let past = self.below(serial.saturating_add(u64::from(count)));
        (first, past)
    }

    // How many pending frames have serials below this one.
    fn below(&self, serial: u64) -> usize
        ensures count { result ≡ length (filter (queue.is_below serial) self.now.pending) }
        ensures holds { queue.IsQueue self.now.pending self.now.next }
    {
        self.pending.partition_point(|one| one.serial < serial)
    }
}

// Gives the frames the serials from 0, in order.
fn number_from_0(pending: &mut VecDeque<Pending>)
    ensures { pending.new.items ≡ queue.numbered_from 0 pending.old.items }
{
    for at in 0..pending.len() {
        pending[at].renumber(at as u64);
    }
}

impl Copied for AckQueue {
    fn copy(&self, alloc: Global) -> Result<AckQueue, NoMemory> {
        let pending = copy_all(alloc, &self.pending)?;
        Ok(AckQueue {
            pending,
            next: self.next,
        })
    }
}

// Copies of the frames, in order.
fn copy_all(alloc: Global, pending: &VecDeque<Pending>) -> Result<VecDeque<Pending>, NoMemory>
    ensures { IfOk result (λ made. made.items ≡ pending.now.items) }
{
    let mut made = VecDeque::new(alloc);
    for at in 0..pending.len() {
        made.push_back(pending[at].copy(alloc)?)?;
    }
    Ok(made)
}
