//! A core: its registers, and the one call that does an instruction.

ghost use Rattle.std.specs.Prelude.{◌≡◌};
ghost use Rattle.std.specs.Borrow.{sem};
ghost use Rattle.core_step.specs.Lending.{LendsRegisters};
ghost use Rattle.core_step.specs.Pages.{AreBacked};
ghost use Rattle.core_step.specs.Access.{SameSizes};
ghost use Rattle.core_step.specs.Step as spec;

use crate::answer::Hw;
use crate::cycle::cycle;
use crate::look::Look;
use ground::Ground;
use guest_regs::Regs;
use std::marker::Model;

/// A core: its registers. Contracts see the record `CoreState`.
#[derive(Drop)]
pub struct Core {
    regs: Regs,
}

impl Model for Core {
    ghost use Rattle.core_step.specs.Core.{CoreState};

    ghost Value = { CoreState };

    ghost view = { λ core. record { registers = core.regs } };
}

impl Core {
    /// A core with these registers.
    pub fn new(regs: Regs) -> Core
        ensures { result ≡ record { registers = regs } }
    {
        Core { regs }
    }

    /// Its registers.
    pub fn regs(&self) -> &Regs
        ensures { result.now ≡ self.now.registers }
    {
        &self.regs
    }

    /// Its registers, to be changed.
    pub fn regs_mut(&mut self) -> &mut Regs
        ensures lent { result.now ≡ self.old.registers }
        ensures* ends { sem 𝓛 (LendsRegisters self.entry result) }
    {
        &mut self.regs
    }

    /// Does one instruction over the lent translations and real memory, or answers why it isn't done. It
    /// takes no memory.
    #[tactic(auto, using(crate::proofs::Unchanged::kept_by))]
    pub fn step<L: Look>(&mut self, look: &L, ground: &mut Ground) -> Hw
        requires { AreBacked ground.old (L.lookup look.now) }
        // The answer, the registers and the memory are those of the definition.
        ensures done { spec.stepped (L.lookup look.now) self.old.registers ground.old
            ≡ record { answer = spec.answered result; registers = self.new.registers; memory = ground.new } }
        ensures kept { spec.KeepsUnlessDone (spec.answered result) self.old.registers self.new.registers ground.old ground.new }
        // Extents keep their sizes, so the pages are backed as before.
        ensures sizes { SameSizes ground.old ground.new }
    {
        cycle(look, &mut self.regs, ground)
    }
}
