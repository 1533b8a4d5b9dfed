//! The host's standard output.

ghost use Rattle.std.specs.Prelude.{◌≡◌, ℕ, ◌≤◌, true, Option, None, IfOk};
ghost use Rattle.outside.specs.Fault.{raised};

use crate::count::raised;
use crate::fault::Failed;
use crate::memory::NoMemory;
use crate::sink::Sink;
use std::alloc::Global;
use std::io;
use std::io::{BufWriter, Printer, Write};
use std::marker::Model;

/// The host's standard output, through a buffer of its own. It doesn't tell which bytes it took. A call
/// that the host refuses counts one fault, and so does a write that the host answers by taking nothing.
#[derive(Drop)]
pub struct HostOut<'a, P: Print> {
    out: BufWriter<Printer<'a, P>>,
    faults: u64,
    is_flushed: bool,
}

impl<'a, P: Print> Model for HostOut<'a, P> {
    ghost use Rattle.outside.specs.Host.{OutOfHost};

    ghost Value = { OutOfHost };

    ghost view = { λ h. record { faults = h.faults; is_flushed = h.is_flushed } };
}

impl<'a, P: Print> HostOut<'a, P> {
    /// The runtime's standard output. The buffer is made here, and no call takes more memory.
    pub fn new(rt: &'a P, alloc: Global) -> Result<HostOut<'a, P>, NoMemory>
        ensures { IfOk result (λ out. out ≡ record { faults = 0; is_flushed = true }) }
    {
        match BufWriter::new(alloc, io::writer(rt)) {
            Ok(out) => Ok(HostOut {
                out,
                faults: 0,
                is_flushed: true,
            }),
            Err(_) => Err(NoMemory),
        }
    }

    /// Counts a fault, and answers it.
    fn count_fault(&mut self) -> Failed
        ensures counted { self.new ≡ record self.old { faults = raised self.old.faults } }
        ensures rises { self.old.faults ≤ self.new.faults }
    {
        self.faults = raised(self.faults);
        Failed
    }
}

impl<'a, P: Print> Sink for HostOut<'a, P> {
    ghost faults = { λ h. h.faults };

    ghost taken = { λ _. None };

    ghost is_flushed = { λ h. h.is_flushed };

    ghost SurelyTakes = { λ _ _. ⊥ };

    fn write(&mut self, piece: &[u8]) -> Result<usize, Failed> {
        if piece.is_empty() {
            return Ok(0);
        }
        match self.out.write(piece) {
            Ok(0) | Err(_) => Err(self.count_fault()),
            Ok(count) => {
                self.is_flushed = false;
                Ok(count)
            }
        }
    }

    fn flush(&mut self) -> Result<(), Failed> {
        match self.out.flush() {
            Ok(()) => {
                self.is_flushed = true;
                Ok(())
            }
            Err(_) => Err(self.count_fault()),
        }
    }
}
