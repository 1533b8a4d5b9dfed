//! Small answers of the definition: permissions, faults, reservations.

ghost use Rattle.std.specs.Prelude.{◌≡◌, ◌<◌};
ghost use Rattle.guest_regs.specs.Registers.{in_problem_state};
ghost use Rattle.core_step.specs.Access as access;
ghost use Rattle.core_step.specs.Step as spec;

use crate::access::{Fault, Places};
use crate::answer::Hw;
use guest_regs::Regs;
use insn_alu::Form;

/// The permission that a fetch needs: UX, or SX of the system.
pub fn fetching(regs: &Regs) -> u16
    ensures value { result ≡ access.fetching (in_problem_state regs.now) }
    ensures some { 0 < result }
{
    if regs.is_user() { 32 } else { 16 }
}

/// The permission that a load or store needs: UW, SW, UR or SR.
pub fn access_permission(store: bool, regs: &Regs) -> u16
    ensures value { result ≡ spec.access_permission store regs.now }
    ensures some { 0 < result }
{
    match (store, regs.is_user()) {
        (true, true) => 8,
        (true, false) => 4,
        (false, true) => 2,
        (false, false) => 1,
    }
}

/// Whether an access has to begin at a multiple of 4.
pub fn is_aligned(form: Form) -> bool
    ensures { result ≡ spec.is_aligned form }
{
    match form {
        Form::Many | Form::Reserve | Form::Conditional => true,
        Form::Load | Form::Store | Form::Zero => false,
    }
}

/// What the first fault of a load or store answers.
pub fn data_fault(store: bool, fault: Fault) -> Hw
    ensures { spec.answered result ≡ spec.data_fault store fault }
{
    match fault {
        Fault::Missing(ea) => Hw::MissData { ea, store },
        Fault::Denied(ea) => Hw::StorageData {
            ea,
            store,
            little: false,
        },
        Fault::Reversed(ea) => Hw::StorageData {
            ea,
            store,
            little: true,
        },
    }
}

/// What the fault of a fetch answers.
pub fn fetch_fault(pc: u32, fault: Fault) -> Hw
    ensures { spec.answered result ≡ spec.fetch_fault pc fault }
{
    match fault {
        Fault::Missing(_) => Hw::MissInsn { ea: pc },
        Fault::Denied(_) => Hw::StorageInsn { little: false },
        Fault::Reversed(_) => Hw::StorageInsn { little: true },
    }
}

/// The reservation granule of the first byte, by its logical address (Power ISA 2.06, Book II, chapter 4).
pub fn first_granule(places: Places) -> u64
    ensures { result ≡ spec.first_granule (access.in_order places) }
{
    places.first.logical - places.first.logical % 64
}

/// Whether that granule is reserved.
pub fn holds(regs: &Regs, granule: u64) -> bool
    ensures { result ≡ spec.holds regs.now granule }
{
    match regs.reserved() {
        Some(held) => held == granule,
        None => false,
    }
}
