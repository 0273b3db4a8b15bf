// Where bytes go.
ghost use Rattle.std.specs.Prelude.{List, ℕ, Option, ◌<◌, length};
ghost use Rattle.rl_outside.specs.Sink.{WriteGives, WriteCounts};

/// What a write took.
#[derive(Clone, Copy, PartialEq, Eq, Debug)]
pub enum Gave {
    /// So many bytes, at least one, from the front of those given.
    Bytes(usize),
    /// The write failed, wrote nothing and was counted as a fault. A later write may go on.
    Failed,
}

/// Where bytes go.
pub trait Sink {
    /// The bytes that were written, where it tells them.
    ghost written: { Self → Option (List ℕ) };

    /// How often a write has failed. The count stands still at 2^64 - 1.
    ghost faults: { Self → ℕ };

    /// Writes some of the bytes, which are not none, after those that were written.
    fn write(&mut self, from: &[u8]) -> Gave
        requires { 0 < length from.now }
        ensures bytes { WriteGives (written self.old) (written self.new) result from.now }
        ensures cause { WriteCounts (faults self.old) (faults self.new) result };
}
