// A source in memory.
ghost use Rattle.std.specs.Prelude.{◌≡◌, ◌<◌, ◌≤◌, length, IfOk, Some};
ghost use Rattle.rl_outside.specs.Source.{ReadTakes, ReadCounts, EndCounts};
ghost use Rattle.rl_outside.specs.MemSource.{answer, taken, rest, after_read, filled};

use crate::counts::is_listed;
use crate::{Source, Took};
use rl_ids::NoMemory;
use std::alloc::Global;
use std::marker::Model;

/// A source over bytes in memory, which gives them in pieces and fails at the calls that it is given.
#[derive(Debug, Drop)]
pub struct MemSource {
    bytes: Vec<u8>,
    at: usize,
    piece: usize,
    fail: Vec<u32>,
    calls: u32,
    faults: u64,
    ends: u64,
}

impl Model for MemSource {
    ghost use Rattle.std.specs.Prelude.{◌≤◌, drop, length};
    ghost use Rattle.rl_outside.specs.MemSource.{Feed};

    ghost Value = { Feed };

    ghost view = { λ s. record {
      left = drop s.at s.bytes.items;
      piece = s.piece;
      fail = s.fail.items;
      calls = s.calls;
      faults = s.faults;
      ends = s.ends;
    } };

    ghost invariant = { λ s. (1 ≤ s.piece) × (s.at ≤ length s.bytes.items) };
}

impl MemSource {
    /// A source of some bytes. `piece` is the most that one read gives, and `fail` has the numbers, counted
    /// from 1, of the reads that fail; the number of a read stands still at 2^32 - 1. Answers `NoMemory` where
    /// there is none for a copy of the bytes and the numbers.
    pub fn new(
        alloc: Global,
        bytes: &[u8],
        piece: usize,
        fail: &[u32],
    ) -> Result<MemSource, NoMemory>
        requires { 1 ≤ piece }
        ensures { IfOk result (λ made. made ≡ record {
          left = bytes.now;
          piece = piece;
          fail = fail.now;
          calls = 0;
          faults = 0;
          ends = 0;
        }) }
    {
        Ok(MemSource {
            bytes: Vec::from_slice(alloc, bytes)?,
            at: 0,
            piece,
            fail: Vec::from_slice(alloc, fail)?,
            calls: 0,
            faults: 0,
            ends: 0,
        })
    }
}

// Takes at most `piece` of the bytes that are left, where there are any.
fn take_piece(left: &[u8], piece: usize, into: &mut [u8]) -> Took
    requires piece { 1 ≤ piece }
    requires room { 0 < length into.old }
    ensures bytes { ReadTakes (Some left.now) (Some (rest left.now result)) result into.new }
    ensures answer { result ≡ taken left.now piece (length into.old) }
    ensures filled { into.new ≡ filled left.now result into.old }
{
    if left.is_empty() {
        return Took::End;
    }
    let count = piece.min(into.len()).min(left.len());
    into[..count].copy_from_slice(&left[..count]);
    Took::Bytes(count)
}

impl Source for MemSource {
    ghost left = { λ s. Some s.left };

    ghost faults = { λ s. s.faults };

    ghost ends = { λ s. s.ends };

    /// Fails exactly where the number of this read is among those that fail. Else it is at the end exactly
    /// where nothing is left, and else it gives as many bytes as the piece, the buffer and what is left allow.
    fn read(&mut self, into: &mut [u8]) -> Took
        requires { 0 < length into.old }
        ensures bytes { ReadTakes (Some self.old.left) (Some self.new.left) result into.new }
        ensures cause { ReadCounts self.old.faults self.new.faults result }
        ensures end { EndCounts self.old.ends self.new.ends result }
        ensures answer { result ≡ answer self.old (length into.old) }
        ensures after { self.new ≡ after_read self.old result }
        ensures filled { into.new ≡ filled self.old.left result into.old }
    {
        self.calls = self.calls.saturating_add(1);
        if is_listed(self.calls, &self.fail) {
            self.faults = self.faults.saturating_add(1);
            return Took::Failed;
        }
        let took = take_piece(&self.bytes[self.at..], self.piece, into);
        match took {
            Took::Bytes(count) => self.at += count,
            Took::End => self.ends = self.ends.saturating_add(1),
            Took::Failed => {}
        }
        took
    }
}
