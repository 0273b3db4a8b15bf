// A sink in memory.
ghost use Rattle.std.specs.Prelude.{◌≡◌, ◌<◌, ◌⊎◌, [], length, IfOk, IsTrue, Some};
ghost use Rattle.rl_outside.specs.Counts.{one_call, is_listed};
ghost use Rattle.rl_outside.specs.Sink.{WriteGives, WriteCounts};
ghost use Rattle.rl_outside.specs.MemSink.{after_write};

use crate::counts::is_listed;
use crate::{Gave, Sink};
use rl_ids::NoMemory;
use std::alloc::Global;
use std::marker::Model;

/// A sink that keeps in memory what is written, and fails at the calls that it is given.
#[derive(Debug, Drop)]
pub struct MemSink {
    written: Vec<u8>,
    fail: Vec<u32>,
    calls: u32,
    faults: u64,
}

impl Model for MemSink {
    ghost use Rattle.rl_outside.specs.MemSink.{Store};

    ghost Value = { Store };

    ghost view = { λ s. record {
      written = s.written.items;
      fail = s.fail.items;
      calls = s.calls;
      faults = s.faults;
    } };
}

impl MemSink {
    /// A sink to which nothing was written. `fail` has the numbers, counted from 1, of the writes that fail.
    /// The number of a write stands still at 2^32 - 1. Answers `NoMemory` where there is none for a copy of the
    /// numbers.
    pub fn new(alloc: Global, fail: &[u32]) -> Result<MemSink, NoMemory>
        ensures { IfOk result (λ made. made ≡ record {
          written = [];
          fail = fail.now;
          calls = 0;
          faults = 0;
        }) }
    {
        Ok(MemSink {
            written: Vec::new(alloc),
            fail: Vec::from_slice(alloc, fail)?,
            calls: 0,
            faults: 0,
        })
    }

    /// The bytes that were written.
    pub fn as_slice(&self) -> &[u8]
        ensures { result.now ≡ self.now.written }
    {
        self.written.as_slice()
    }
}

impl Sink for MemSink {
    ghost written = { λ s. Some s.written };

    ghost faults = { λ s. s.faults };

    /// Fails where the number of this write is among those that fail, and where there is no memory for the
    /// bytes, which is a fault like any other. Else all of the bytes are written.
    fn write(&mut self, from: &[u8]) -> Gave
        requires { 0 < length from.now }
        ensures bytes { WriteGives (Some self.old.written) (Some self.new.written) result from.now }
        ensures cause { WriteCounts self.old.faults self.new.faults result }
        ensures listed { IsTrue (is_listed (one_call self.old.calls) self.old.fail) → result ≡ Gave.Failed }
        ensures whole { (result ≡ Gave.Failed) ⊎ (result ≡ Gave.Bytes (length from.now)) }
        ensures after { self.new ≡ after_write self.old result from.now }
    {
        self.calls = self.calls.saturating_add(1);
        if is_listed(self.calls, &self.fail) || self.written.extend_from_slice(from).is_err() {
            self.faults = self.faults.saturating_add(1);
            return Gave::Failed;
        }
        Gave::Bytes(from.len())
    }
}
