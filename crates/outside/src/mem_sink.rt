//! A sink in memory.

ghost use Rattle.std.specs.Prelude.{◌≡◌, ℕ, ◌+◌, ◌-◌, ◌≤◌, Bool, true, false, ◌↔◌, ◌&&◌, List, [], ◌++◌, length, nat_lt, Option, Some, IsTrue, IsOk, IfOk, OnOk, OnErr, is_err};
ghost use Rattle.std.specs.Bool.{OnTrue, OnFalse};
ghost use Rattle.std.specs.Io.{WritesAtMost};
ghost use Rattle.std.specs.Io.KnownBytes.{Keeps, WriteAppends};
ghost use Rattle.outside.specs.Fault.{raised, Rose};
ghost use Rattle.outside.specs.Taken.{TakesSome, StaysFlushed};
ghost use Rattle.outside.specs.MemSink.{TakesMore, fails_to_write, fails_to_flush, after_fault, after_write, after_flush};

use crate::count::{is_listed, raised};
use crate::fault::Failed;
use crate::memory::NoMemory;
use crate::sink::Sink;
use std::alloc::Global;
use std::marker::Model;

/// A sink in memory, for tests, with room for so many bytes. A call fails exactly where its number, counted
/// from 1 over both calls, is among those that were given, or where the piece doesn't fit in the room that
/// is left.
#[derive(Drop)]
pub struct MemSink {
    room: usize,
    fail: Vec<u64>,
    calls: u64,
    faults: u64,
    taken: Vec<u8>,
    is_flushed: bool,
}

impl Model for MemSink {
    ghost use Rattle.std.specs.Prelude.{◌≤◌, vec_len, vec_capacity};
    ghost use Rattle.outside.specs.MemSink.{SinkInMemory};

    ghost Value = { SinkInMemory };

    ghost view = { λ m. record {
      room = m.room;
      fail = m.fail.items;
      calls = m.calls;
      faults = m.faults;
      taken = m.taken.items;
      is_flushed = m.is_flushed;
    } };

    ghost invariant = { λ m. (vec_len m.taken ≤ m.room) × (m.room ≤ vec_capacity m.taken) };
}

impl MemSink {
    /// An empty sink with room for so many bytes, and the numbers of the calls that are to fail. It takes
    /// its memory here.
    pub fn new(alloc: Global, room: usize, fail: Vec<u64>) -> Result<MemSink, NoMemory>
        ensures { IfOk result (λ sink. sink ≡ record {
          room = room;
          fail = fail.items;
          calls = 0;
          faults = 0;
          taken = [];
          is_flushed = true;
        }) }
    {
        let taken = Vec::with_capacity(alloc, room)?;
        Ok(MemSink {
            room,
            fail,
            calls: 0,
            faults: 0,
            taken,
            is_flushed: true,
        })
    }

    /// The bytes that were taken.
    pub fn bytes(&self) -> &[u8]
        ensures { result.now ≡ self.now.taken }
    {
        self.taken.as_slice()
    }

    /// Counts a call, and says whether it is to fail.
    fn count_call(&mut self) -> bool
        ensures fails { result ≡ fails_to_flush self.old }
        ensures counted { self.new ≡ record self.old { calls = raised self.old.calls } }
    {
        self.calls = raised(self.calls);
        is_listed(&self.fail, self.calls)
    }

    /// Counts a fault.
    fn count_fault(&mut self)
        ensures counted { self.new ≡ record self.old { faults = raised self.old.faults } }
        ensures rises { self.old.faults ≤ self.new.faults }
    {
        self.faults = raised(self.faults);
    }

    /// Takes the piece where it fits, and says whether it did.
    fn take(&mut self, piece: &[u8]) -> bool
        ensures fits { IsTrue result ↔ (length self.old.taken + length piece.now ≤ self.old.room) }
        ensures taken { OnTrue result (self.new ≡ record self.old {
          taken = self.old.taken ++ piece.now;
          is_flushed = self.old.is_flushed && nat_lt (length piece.now) 1;
        }) }
        ensures refused { OnFalse result (self.new ≡ self.old) }
    {
        if piece.len() > self.room - self.taken.len() {
            return false;
        }
        let taken = self.taken.extend_from_slice(piece);
        self.is_flushed = self.is_flushed && piece.is_empty();
        taken.is_ok()
    }
}

impl Sink for MemSink {
    ghost faults = { λ m. m.faults };

    ghost taken = { λ m. Some m.taken };

    ghost is_flushed = { λ m. m.is_flushed };

    ghost SurelyTakes = { TakesMore };

    fn write(&mut self, piece: &[u8]) -> Result<usize, Failed>
        ensures bound { WritesAtMost result piece.now }
        ensures some { TakesSome result piece.now }
        ensures bytes { WriteAppends (Some self.old.taken) (Some self.new.taken) result piece.now }
        ensures flushed { StaysFlushed result self.old.is_flushed self.new.is_flushed }
        ensures counted { self.old.faults ≤ self.new.faults }
        ensures failed { OnErr result (Rose self.old.faults self.new.faults) }
        ensures sure { (n : ℕ) → length piece.now ≤ n → TakesMore self.old n → IsOk result }
        ensures sure_count { (n : ℕ) → length piece.now ≤ n → TakesMore self.old n → self.new.faults ≡ self.old.faults }
        ensures sure_rest { (n : ℕ) → length piece.now ≤ n → TakesMore self.old n → IfOk result (λ k. TakesMore self.new (n - k)) }

        // Exactly when it fails, that it takes the piece whole else, and what it leaves.
        ensures fails { is_err result ≡ fails_to_write self.old piece.now }
        ensures whole { IfOk result (λ k. k ≡ length piece.now) }
        ensures after { self.new ≡ after_write self.old piece.now }
    {
        if self.count_call() || !self.take(piece) {
            self.count_fault();
            return Err(Failed);
        }
        Ok(piece.len())
    }

    fn flush(&mut self) -> Result<(), Failed>
        ensures bytes { Keeps (Some self.old.taken) (Some self.new.taken) }
        ensures flushed { OnOk result (self.new.is_flushed ≡ true) }
        ensures counted { self.old.faults ≤ self.new.faults }
        ensures failed { OnErr result (Rose self.old.faults self.new.faults) }
        ensures sure { (n : ℕ) → TakesMore self.old n → IsOk result }
        ensures sure_count { (n : ℕ) → TakesMore self.old n → self.new.faults ≡ self.old.faults }
        ensures sure_rest { (n : ℕ) → TakesMore self.old n → TakesMore self.new n }

        // Exactly when it fails, and what it leaves.
        ensures fails { is_err result ≡ fails_to_flush self.old }
        ensures after { self.new ≡ after_flush self.old }
    {
        if self.count_call() {
            self.count_fault();
            return Err(Failed);
        }
        self.is_flushed = true;
        Ok(())
    }
}
