//! What consoles printed and took in.

ghost use Rattle.std.specs.Prelude.{◌≡◌, ◌+◌, ◌≤◌, replicate, IfOk};
ghost use Rattle.network.specs.World.{no_counts};

use outside::NoMemory;
use std::alloc::Global;
use std::marker::Model;

/// What a console printed, and what entered from it, in bytes since the first turn.
#[derive(Drop)]
pub struct Counts {
    printed: u64,
    entered: u64,
}

impl Model for Counts {
    ghost use Rattle.network.specs.World.{Counts};

    ghost Value = { Counts };

    ghost view = { λ counts. record { printed = counts.printed; entered = counts.entered } };
}

impl Counts {
    /// Before the first turn.
    pub fn new() -> Counts
        ensures { result ≡ no_counts }
    {
        Counts {
            printed: 0,
            entered: 0,
        }
    }

    /// How many bytes were printed.
    pub fn printed(&self) -> u64
        ensures { result ≡ self.now.printed }
    {
        self.printed
    }

    /// How many bytes entered.
    pub fn entered(&self) -> u64
        ensures { result ≡ self.now.entered }
    {
        self.entered
    }

    /// So many more bytes entered.
    pub fn enter(&mut self, count: usize)
        requires { self.old.entered + count ≤ 18446744073709551615 }
        ensures { self.new ≡ record self.old { entered = self.old.entered + count } }
    {
        self.entered += count as u64;
    }

    /// So many more bytes were printed.
    pub fn print(&mut self, count: usize)
        requires { self.old.printed + count ≤ 18446744073709551615 }
        ensures { self.new ≡ record self.old { printed = self.old.printed + count } }
    {
        self.printed += count as u64;
    }
}

/// Those of so many consoles before the first turn.
pub fn opening_counts(alloc: Global, count: usize) -> Result<Vec<Counts>, NoMemory>
    ensures { IfOk result (λ counts. counts.items ≡ replicate count no_counts) }
{
    let mut counts = Vec::with_capacity(alloc, count)?;
    for _console in 0..count {
        counts.push(Counts::new())?;
    }
    Ok(counts)
}
