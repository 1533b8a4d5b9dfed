//! The beginning of a step.

ghost use Rattle.std.specs.Prelude.{◌≡◌, ◌&&◌, IsTrue};
ghost use Rattle.guest_regs.specs.Registers.{Registers};
ghost use Rattle.trap_emulate.specs.Clock.{ticked};
ghost use Rattle.trap_emulate.specs.Entry.{are_interrupts_enabled, may_enter};
ghost use Rattle.partition.specs.Step as spec;

use guest_regs::Regs;
use trap_emulate::{Cause, are_interrupts_enabled, is_decrementer_pending, tick};

/// Whether an interrupt is pending: the external one, whose line this is, or the decrementer's.
pub fn is_pending(line: bool, regs: &Regs) -> bool
    ensures { result ≡ spec.is_pending line regs.now }
{
    line || is_decrementer_pending(regs)
}

/// Whether an interrupt is pending and MSR[EE] lets it be entered.
pub fn is_entered(line: bool, regs: &Regs) -> bool
    ensures { result ≡ (spec.is_pending line regs.now && are_interrupts_enabled regs.now) }
{
    is_pending(line, regs) && are_interrupts_enabled(regs)
}

/// Which interrupt is pending, where one is: the external one comes first.
pub fn pending(line: bool) -> Cause
    ensures value { result ≡ spec.pending line }
    ensures entered { (registers : Registers) → IsTrue (may_enter result registers) }
{
    if line {
        Cause::External
    } else {
        Cause::Decrementer
    }
}

/// Lets a step's time pass, and wakes a core for which an interrupt is pending.
pub fn begin(line: bool, regs: &mut Regs)
    ensures { regs.new ≡ spec.woken line (ticked regs.old) }
{
    tick(regs);
    if is_pending(line, regs) {
        regs.set_idle(false);
    }
}
