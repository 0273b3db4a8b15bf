// Where bytes come from.
ghost use Rattle.std.specs.Prelude.{List, ℕ, Option, ◌<◌, length};
ghost use Rattle.rl_outside.specs.Source.{ReadTakes, ReadCounts, EndCounts};

/// What a read gave.
#[derive(Clone, Copy, PartialEq, Eq, Debug)]
pub enum Took {
    /// So many bytes, at least one, which stand at the front of the buffer.
    Bytes(usize),
    /// Nothing is left.
    End,
    /// The read failed, took nothing and was counted as a fault. A later read may go on.
    Failed,
}

/// Where bytes come from.
pub trait Source {
    /// The bytes that are left, where it tells them.
    ghost left: { Self → Option (List ℕ) };

    /// How often a read has failed. The count stands still at 2^64 - 1.
    ghost faults: { Self → ℕ };

    /// How often a read has found nothing left. The count stands still at 2^64 - 1.
    ghost ends: { Self → ℕ };

    /// Takes some of the bytes that are left into a buffer that isn't empty.
    fn read(&mut self, into: &mut [u8]) -> Took
        requires { 0 < length into.old }
        ensures bytes { ReadTakes (left self.old) (left self.new) result into.new }
        ensures cause { ReadCounts (faults self.old) (faults self.new) result }
        ensures end { EndCounts (ends self.old) (ends self.new) result };
}
