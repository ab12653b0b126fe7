//! What may the program ask of its output?
//!
//! Each failure has a cause, a count that rose, so that no answer comes from nowhere. What is asked of files is in `shelf`.

ghost use Rattle.std.specs.Prelude.{◌≡◌, ◌<◌, ◌≤◌, List, ℕ, length, take};
ghost use Rattle.std.specs.declared.option.Option.{Option};
ghost use Rattle.std.specs.Io.KnownBytes.{append_known};
ghost use Rattle.wb_world.specs.Cause.{Rose};
ghost use Rattle.wb_world.specs.Sink.{TakesSome, taken};

/// The answer to a write.
#[derive(Clone, Copy, Debug, PartialEq, Eq)]
pub enum Put {
    /// So many bytes were taken, from the beginning of the piece.
    Took(usize),
    /// The write failed, and nothing was taken.
    Failed,
}

/// A place that bytes are written to.
///
/// Contracts see the bytes written, where they are known, and how often a write failed. That count never falls, and
/// stands still at `u64::MAX`.
pub trait Sink {
    /// The bytes written, where they are known.
    ghost written: { Self → Option (List ℕ) };

    /// How often a write failed.
    ghost faults: { Self → ℕ };

    /// Writes at least one byte from the beginning of a piece.
    fn write(&mut self, piece: &[u8]) -> Put
        requires { 0 < length piece.now }

        ensures within { TakesSome result (length piece.now) }
        ensures bytes { written self.new ≡ append_known (written self.old) (take (taken result) piece.now) }

        // A fault has a cause.
        ensures failed { result ≡ Put.Failed → Rose (faults self.old) (faults self.new) }
        ensures faults { faults self.old ≤ faults self.new };
}
