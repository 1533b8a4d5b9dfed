//! The privileged instructions.

ghost use Rattle.std.specs.Prelude.{◌≡◌, ℕ};
ghost use Rattle.trap_emulate.specs.Privileged.{emulated, state_after, returned, with_external_enable};

use crate::mmu::Mmu;
use crate::tlb::{invalidate, invalidate_local, read_tlb, search_tlb, write_tlb};
use arrayvec::ArrayVec;
use guest_regs::msr::EXTERNAL_ENABLE;
use guest_regs::{Regs, is_set};
use guest_tlb::Dead;
use insn::{Insn, Op};

/// Does a privileged instruction for the system, for which MSR[PR] is clear: the returns from
/// interrupts, `mfmsr`, `mtmsr`, `wrtee` and `wrteei` (Power ISA 2.06, Book III-E, chapters 4 and 5), `tlbwe`, `tlbre`,
/// `tlbsx`, `tlbilx` and `tlbivax` (chapter 6), and `tlbsync` and `dcbi`, which have no effect here but to go on.
/// Answers the slots whose translations it overwrote or invalidated, in rising order.
///
/// `insn` is what `insn::decode` gives of its word. `tlbilx` with T of 2 is illegal and doesn't come here; it and every
/// other instruction leave all as it is.
#[tactic(auto, unfolding(crate::specs::Privileged::emulated))]
pub fn emulate(insn: &Insn, regs: &mut Regs, mmu: &mut Mmu) -> Dead
    ensures { emulated insn.now.op insn.now.word regs.old mmu.old.tlb mmu.old.nv
        ≡ record { registers = regs.new; slots = mmu.new.tlb; nv = mmu.new.nv; ended = result.items } }
{
    match insn.op {
        Op::Tlbwe => write_tlb(regs, mmu),
        Op::Tlbre => {
            read_tlb(regs, mmu);
            ArrayVec::new()
        }
        Op::Tlbsx => {
            search_tlb(regs.indexed_address(insn.ra(), insn.rb()), regs, mmu);
            ArrayVec::new()
        }
        Op::Tlbilx => invalidate_local(insn, regs, mmu),
        Op::Tlbivax => invalidate(regs.indexed_address(insn.ra(), insn.rb()), regs, mmu),
        _ => {
            change_state(insn, regs);
            ArrayVec::new()
        }
    }
}

/// Does an instruction on the machine state alone, and no other.
#[tactic(auto, unfolding(crate::specs::Privileged::state_after))]
fn change_state(insn: &Insn, regs: &mut Regs)
    ensures { regs.new ≡ state_after insn.now.op insn.now.word regs.old }
{
    let register = insn.rt();
    match insn.op {
        Op::Rfi => return_to(regs, regs.srr0(), regs.srr1()),
        Op::Rfci => return_to(regs, regs.csrr0(), regs.csrr1()),
        Op::Rfmci => return_to(regs, regs.mcsrr0(), regs.mcsrr1()),
        Op::Mfmsr => {
            regs.set_gpr(register, regs.msr());
            regs.advance();
        }
        Op::Mtmsr => {
            regs.set_msr(regs.gpr(register));
            regs.advance();
        }
        Op::Wrtee => {
            enable_external(regs, is_set(regs.gpr(register), EXTERNAL_ENABLE));
            regs.advance();
        }
        Op::Wrteei => {
            enable_external(regs, insn.is_enabling());
            regs.advance();
        }
        Op::Tlbsync | Op::Dcbi => regs.advance(),
        _ => {}
    }
}

/// Goes back to an address and a machine state.
#[tactic(auto, unfolding(crate::specs::Privileged::returned))]
fn return_to(regs: &mut Regs, address: u32, state: u32)
    ensures { regs.new ≡ returned address state regs.old }
{
    regs.set_pc(address);
    regs.set_msr(state);
}

/// Sets EE, or clears it.
#[tactic(auto, unfolding(crate::specs::Privileged::with_external_enable))]
fn enable_external(regs: &mut Regs, on: bool)
    ensures { regs.new ≡ with_external_enable on regs.old }
{
    let state = regs.msr();
    regs.set_msr(if on {
        state | EXTERNAL_ENABLE
    } else {
        state & !EXTERNAL_ENABLE
    });
}
