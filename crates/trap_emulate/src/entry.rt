//! The entry of interrupts.

ghost use Rattle.std.specs.Prelude.{◌≡◌, ℕ, ◌<◌, ◌≤◌, ◌%◌, IsTrue};
ghost use Rattle.trap_emulate.specs.Entry.{delivered, handler, interrupted, checked, with_dear_esr, are_interrupts_enabled, may_enter};
ghost use Rattle.guest_regs.specs.Registers.{data_space};
ghost use Rattle.guest_regs.specs.State.{store_syndrome};
ghost use Rattle.trap_emulate.specs.Tlb.{missing};

use crate::cause::Cause;
use crate::mmu::Mmu;
use crate::tlb::miss;
use guest_regs::msr::{CRITICAL_ENABLE, EXTERNAL_ENABLE, MACHINE_CHECK_ENABLE};
use guest_regs::{Regs, is_set, store_syndrome};

/// Whether MSR[EE] lets external and decrementer interrupts be entered.
pub fn are_interrupts_enabled(regs: &Regs) -> bool
    ensures { result ≡ are_interrupts_enabled regs.now }
{
    is_set(regs.msr(), EXTERNAL_ENABLE)
}

/// Whether a core can enter the interrupt of a cause: a machine check needs MSR[ME], and nothing else needs anything.
pub fn may_enter(regs: &Regs, cause: Cause) -> bool
    ensures { result ≡ may_enter cause regs.now }
{
    match cause {
        Cause::MachineCheck => is_set(regs.msr(), MACHINE_CHECK_ENABLE),
        _ => true,
    }
}

/// Enters the interrupt of a cause, which `may_enter` allows (Power ISA 2.06, Book III-E, chapter 7). A TLB error reports in
/// the MAS registers what missed; translations and the next-victim counter stay.
#[tactic(auto, unfolding(crate::specs::Entry::delivered))]
pub fn deliver(regs: &mut Regs, mmu: &mut Mmu, cause: Cause)
    requires { IsTrue (may_enter cause regs.old) }
    ensures registers { regs.new ≡ delivered mmu.old.nv cause regs.old }
    ensures kept { mmu.new ≡ mmu.old }
{
    let here = regs.pc();
    match cause {
        Cause::MachineCheck => check(regs),
        Cause::StorageData { ea, esr } => interrupt_with_dear_esr(regs, 2, ea, esr),
        Cause::StorageInsn { esr } => {
            regs.set_esr(esr);
            interrupt(regs, 3, here);
        }
        Cause::External => interrupt(regs, 4, here),
        Cause::Align { ea, esr } => interrupt_with_dear_esr(regs, 5, ea, esr),
        Cause::Program { esr } => {
            regs.set_esr(esr);
            interrupt(regs, 6, here);
        }
        Cause::NoFloat => interrupt(regs, 7, here),
        Cause::Syscall => interrupt(regs, 8, here.wrapping_add(4)),
        Cause::Decrementer => interrupt(regs, 10, here),
        Cause::MissData { ea, store } => miss_data(regs, mmu, ea, store),
        Cause::MissInsn { ea } => {
            miss(mmu.nv, regs.instruction_space(), ea, regs);
            interrupt(regs, 14, here);
        }
    }
}

/// Enters an interrupt for which DEAR takes an address, and ESR what was wrong.
fn interrupt_with_dear_esr(regs: &mut Regs, kind: u8, ea: u32, esr: u32)
    requires { kind < 16 }
    ensures { regs.new ≡ interrupted kind regs.old.pc (with_dear_esr ea esr regs.old) }
{
    regs.set_dear(ea);
    regs.set_esr(esr);
    let here = regs.pc();
    interrupt(regs, kind, here);
}

/// Enters the TLB error of a load or store.
#[tactic(auto, unfolding(crate::specs::Tlb::missing, crate::specs::Tlb::with_mas))]
fn miss_data(regs: &mut Regs, mmu: &Mmu, ea: u32, store: bool)
    ensures { let missed = missing mmu.now.nv (data_space regs.old) ea (with_dear_esr ea (store_syndrome store) regs.old) in
        regs.new ≡ interrupted 13 regs.old.pc missed }
{
    let here = regs.pc();
    regs.set_dear(ea);
    regs.set_esr(store_syndrome(store));
    miss(mmu.nv, regs.data_space(), ea, regs);
    interrupt(regs, 13, here);
}

/// The address of the handler of a kind of interrupt.
#[tactic(auto, using(crate::proofs::Halves::halves_join))]
fn handler_of(regs: &Regs, kind: u8) -> u32
    requires { kind < 16 }
    ensures address { result ≡ handler kind regs.now }
    ensures aligned { result % 4 ≡ 0 }
{
    regs.ivpr() & 0xFFFF_0000 | regs.ivor(kind) & 0xFFF0
}

/// Enters an interrupt that `rfi` returns from, to `back`.
#[tactic(auto, unfolding(crate::specs::Entry::interrupted))]
fn interrupt(regs: &mut Regs, kind: u8, back: u32)
    requires { kind < 16 }
    ensures { regs.new ≡ interrupted kind back regs.old }
{
    let state = regs.msr();
    regs.set_srr0(back);
    regs.set_srr1(state);
    regs.set_msr(state & (CRITICAL_ENABLE | MACHINE_CHECK_ENABLE));
    regs.set_pc(handler_of(regs, kind));
}

/// Enters a machine check, which `rfmci` returns from.
#[tactic(auto, unfolding(crate::specs::Entry::checked))]
fn check(regs: &mut Regs)
    ensures { regs.new ≡ checked regs.old }
{
    regs.set_mcsrr0(regs.pc());
    regs.set_mcsrr1(regs.msr());
    regs.set_msr(0);
    regs.set_pc(handler_of(regs, 1));
}
