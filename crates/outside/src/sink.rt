//! Sinks to write to, as a trait.

ghost use Rattle.std.specs.Prelude.{◌≡◌, ℕ, ◌-◌, ◌<◌, ◌≤◌, List, Bool, true, false, Option, IsOk, IfOk, OnOk, OnErr, length};
ghost use Rattle.std.specs.Io.{WritesAtMost};
ghost use Rattle.std.specs.Io.KnownBytes.{Keeps, WriteAppends};
ghost use Rattle.outside.specs.Fault.{Rose};
ghost use Rattle.outside.specs.Taken.{TakesSome, StaysFlushed};

use crate::fault::Failed;

/// Where bytes are written to.
pub trait Sink {
    /// How many faults there were. It stands still at 2^64 - 1.
    ghost faults: { Self → ℕ };

    /// The bytes taken so far, where that is told.
    ghost taken: { Self → Option (List ℕ) };

    /// Whether all taken bytes are flushed.
    ghost is_flushed: { Self → Bool };

    /// Whether the sink surely takes so many more bytes, and flushes, without a fault. A sink that can't
    /// know says never.
    ghost SurelyTakes: { Self → ℕ → Type 0 };

    /// Takes a front of the piece: at least a byte of one that isn't empty. A failed write takes none.
    fn write(&mut self, piece: &[u8]) -> Result<usize, Failed>
        ensures bound { WritesAtMost result piece.now }
        ensures some { TakesSome result piece.now }
        ensures bytes { WriteAppends (taken self.old) (taken self.new) result piece.now }
        ensures flushed { StaysFlushed result (is_flushed self.old) (is_flushed self.new) }
        ensures counted { faults self.old ≤ faults self.new }
        ensures failed { OnErr result (Rose (faults self.old) (faults self.new)) }
        ensures sure { (n : ℕ) → length piece.now ≤ n → SurelyTakes self.old n → IsOk result }
        ensures sure_count { (n : ℕ) → length piece.now ≤ n → SurelyTakes self.old n → faults self.new ≡ faults self.old }
        ensures sure_rest { (n : ℕ) → length piece.now ≤ n → SurelyTakes self.old n → IfOk result (λ k. SurelyTakes self.new (n - k)) };

    /// Sends all taken bytes on to where they are to be seen.
    fn flush(&mut self) -> Result<(), Failed>
        ensures bytes { Keeps (taken self.old) (taken self.new) }
        ensures flushed { OnOk result (is_flushed self.new ≡ true) }
        ensures counted { faults self.old ≤ faults self.new }
        ensures failed { OnErr result (Rose (faults self.old) (faults self.new)) }
        ensures sure { (n : ℕ) → SurelyTakes self.old n → IsOk result }
        ensures sure_count { (n : ℕ) → SurelyTakes self.old n → faults self.new ≡ faults self.old }
        ensures sure_rest { (n : ℕ) → SurelyTakes self.old n → SurelyTakes self.new n };
}
