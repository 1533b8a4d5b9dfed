//! The text of a command, gathered before the first byte of it is written.

ghost use Rattle.std.specs.Prelude.{◌≡◌, ℕ, [], Option, Some, false};
ghost use Rattle.outside.specs.Fault.{raised};

use outside::{Bytes, Failed, Sink};
use std::alloc::Global;
use std::marker::Model;

/// A sink that keeps what it takes. A write that there is no memory for counts a fault, and takes nothing.
#[derive(Drop)]
pub struct Gathered {
    text: Vec<u8>,
    faults: u64,
    is_flushed: bool,
}

impl Model for Gathered {
    ghost use Rattle.topaz_run.specs.Gathered.{Text};

    ghost Value = { Text };

    ghost view = { λ g. record { text = g.text.items; faults = g.faults; is_flushed = g.is_flushed } };
}

impl Gathered {
    /// No text.
    pub fn new(alloc: Global) -> Gathered
        ensures { result.text ≡ [] }
    {
        Gathered {
            text: Vec::new(alloc),
            faults: 0,
            is_flushed: true,
        }
    }

    /// The text.
    pub fn into_bytes(self) -> Bytes
        ensures { result ≡ self.text }
    {
        let Gathered {
            text,
            faults: _,
            is_flushed: _,
        } = self;
        Bytes::from_vec(text)
    }
}

impl Sink for Gathered {
    ghost faults = { λ g. g.faults };

    ghost taken = { λ g. Some g.text };

    ghost is_flushed = { λ g. g.is_flushed };

    ghost SurelyTakes = { λ _ _. ⊥ };

    fn write(&mut self, piece: &[u8]) -> Result<usize, Failed> {
        if piece.is_empty() {
            return Ok(0);
        }
        if self.text.extend_from_slice(piece).is_err() {
            self.faults = self.faults.saturating_add(1);
            return Err(Failed);
        }
        self.is_flushed = false;
        Ok(piece.len())
    }

    fn flush(&mut self) -> Result<(), Failed> {
        self.is_flushed = true;
        Ok(())
    }
}
