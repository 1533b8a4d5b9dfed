//! The instructions on translations, and what a TLB error leaves in the MAS registers.

ghost use Rattle.std.specs.Prelude.{◌≡◌, ℕ, ◌<◌};
ghost use Rattle.mas.specs.Fields.{sas_bit, spid_field};
ghost use Rattle.mas.specs.Translation.{reporting, missed};
ghost use Rattle.guest_tlb.specs.Slots.{entry_at, named_slot, naming, search_of};
ghost use Rattle.trap_emulate.specs.Tlb.{mas_of, with_mas, next_victim, reporting_slot, reporting_next, not_found, reporting_search, missing, tlb_write, tlb_read, tlb_search, tlb_invalidate_local, tlb_invalidate};

use crate::mmu::Mmu;
use arrayvec::ArrayVec;
use guest_regs::Regs;
use guest_tlb::{Dead, WAYS, name_slot, slot_of};
use insn::Insn;
use mas::{Mas, miss_mas, to_mas};

/// V of MAS1.
const VALID: u32 = 0x8000_0000;

/// The bit of an invalidation's address that chooses TLB1.
const IN_TLB1: u32 = 8;

/// The bit of an invalidation's address that asks for all of a TLB.
const WHOLE_TLB: u32 = 4;

/// The MAS registers of a core.
fn mas_from(regs: &Regs) -> Mas
    ensures { result ≡ mas_of regs.now }
{
    Mas {
        m0: regs.mas0(),
        m1: regs.mas1(),
        m2: regs.mas2(),
        m3: regs.mas3(),
        m4: regs.mas4(),
        m6: regs.mas6(),
        m7: regs.mas7(),
    }
}

/// Gives a core its MAS registers.
#[tactic(auto, using(crate::proofs::Upper::upper_bits), unfolding(crate::specs::Tlb::with_mas))]
fn set_mas(regs: &mut Regs, mas: &Mas)
    requires { mas.now.m7 < 16 }
    ensures { regs.new ≡ with_mas mas.now regs.old }
{
    regs.set_mas0(mas.m0);
    regs.set_mas1(mas.m1);
    regs.set_mas2(mas.m2);
    regs.set_mas3(mas.m3);
    regs.set_mas4(mas.m4);
    regs.set_mas6(mas.m6);
    regs.set_mas7(mas.m7);
}

/// The counter after a write by these registers.
fn victim_after(mas: &Mas, nv: u8) -> u8
    requires { nv < 4 }
    ensures counter { result ≡ next_victim mas.now nv }
    ensures bound { result < 4 }
{
    if mas.tlbsel() == 0 {
        (mas.nv() % WAYS) as u8
    } else {
        nv
    }
}

/// Writes a translation (`tlbwe`).
#[tactic(auto, unfolding(crate::specs::Tlb::tlb_write))]
pub fn write_tlb(regs: &mut Regs, mmu: &mut Mmu) -> Dead
    ensures { tlb_write regs.old mmu.old.tlb mmu.old.nv
        ≡ record { registers = regs.new; slots = mmu.new.tlb; nv = mmu.new.nv; ended = result.items } }
{
    let mas = mas_from(regs);
    let dead = mmu.tlb.write(&mas);
    mmu.nv = victim_after(&mas, mmu.nv);
    regs.advance();
    dead
}

/// The MAS registers when they report what a slot has.
#[tactic(auto, using(crate::proofs::Upper::reported_upper))]
fn report_slot(mas: &Mas, mmu: &Mmu, slot: u16) -> Mas
    requires { slot < 576 }
    ensures mas { result ≡ reporting (entry_at mmu.now.tlb slot) mas.now }
    ensures upper { result.m7 < 16 }
{
    to_mas(&mmu.tlb.read(slot), mas)
}

/// The MAS registers when they report what the slot has that they name.
fn report_named(mas: &Mas, mmu: &Mmu) -> Mas
    ensures mas { result ≡ reporting_slot (named_slot mas.now) mmu.now.tlb mas.now }
    ensures upper { result.m7 < 16 }
{
    match slot_of(mas) {
        Some(slot) => report_slot(mas, mmu, slot),
        None => Mas {
            m1: 0,
            m2: 0,
            m3: 0,
            m7: 0,
            ..*mas
        },
    }
}

/// Reads a translation (`tlbre`).
#[tactic(auto, unfolding(crate::specs::Tlb::tlb_read))]
pub fn read_tlb(regs: &mut Regs, mmu: &Mmu)
    ensures { regs.new ≡ tlb_read regs.old mmu.now.tlb mmu.now.nv }
{
    let mas = mas_from(regs);
    set_mas(regs, &report_named(&mas, mmu).with_nv(mmu.nv));
    regs.advance();
}

/// The MAS registers when they report a slot that a search found.
fn report_found(mas: &Mas, mmu: &Mmu, slot: u16) -> Mas
    requires { slot < 576 }
    ensures mas { result ≡ reporting_next mmu.now.nv (reporting (entry_at mmu.now.tlb slot) (naming slot mas.now)) }
    ensures upper { result.m7 < 16 }
{
    report_slot(&name_slot(slot, mas), mmu, slot).with_nv(mmu.nv)
}

/// The MAS registers when they report that a search found nothing.
#[tactic(auto, unfolding(mas::specs::Translation::missed))]
fn report_miss(mas: &Mas, nv: u8, ea: u32) -> Mas
    ensures mas { result ≡ not_found ea nv mas.now }
    ensures upper { result.m7 < 16 }
{
    let missed = miss_mas(mas, mas.spid(), mas.sas(), ea, nv);
    Mas {
        m1: missed.m1 % VALID,
        m6: mas.m6,
        ..missed
    }
}

/// The MAS registers when they report a search.
fn report_search(mas: &Mas, mmu: &Mmu, ea: u32) -> Mas
    ensures mas { result ≡ reporting_search (search_of (sas_bit mas.now.m6) (spid_field mas.now.m6) ea mmu.now.tlb) ea mmu.now.tlb mmu.now.nv mas.now }
    ensures upper { result.m7 < 16 }
{
    match mmu.tlb.search(mas.sas(), mas.spid(), ea) {
        Some(slot) => report_found(mas, mmu, slot),
        None => report_miss(mas, mmu.nv, ea),
    }
}

/// Searches for the translation of an effective address (`tlbsx`).
#[tactic(auto, unfolding(crate::specs::Tlb::tlb_search))]
pub fn search_tlb(ea: u32, regs: &mut Regs, mmu: &Mmu)
    ensures { regs.new ≡ tlb_search ea regs.old mmu.now.tlb mmu.now.nv }
{
    let mas = mas_from(regs);
    let found = report_search(&mas, mmu, ea);
    set_mas(regs, &found);
    regs.advance();
}

/// Invalidates translations of this core (`tlbilx`): all, those of a PID, or those of a PID with an effective address.
#[tactic(auto, unfolding(crate::specs::Tlb::tlb_invalidate_local))]
pub fn invalidate_local(insn: &Insn, regs: &mut Regs, mmu: &mut Mmu) -> Dead
    ensures { tlb_invalidate_local insn.now.word regs.old mmu.old.tlb mmu.old.nv
        ≡ record { registers = regs.new; slots = mmu.new.tlb; nv = mmu.new.nv; ended = result.items } }
{
    let mas = mas_from(regs);
    let pid = mas.spid();
    let ea = regs.indexed_address(insn.ra(), insn.rb());
    let dead = match insn.invalidate_kind() {
        0 => mmu.tlb.inval_all(true, true),
        1 => mmu.tlb.inval_pid(pid),
        3 => mmu.tlb.inval_ea(ea, Some(pid), true, true),
        _ => return ArrayVec::new(),
    };
    regs.advance();
    dead
}

/// Invalidates translations of one TLB (`tlbivax`): all, or those with the effective address.
#[tactic(auto, unfolding(crate::specs::Tlb::tlb_invalidate))]
pub fn invalidate(ea: u32, regs: &mut Regs, mmu: &mut Mmu) -> Dead
    ensures { tlb_invalidate ea regs.old mmu.old.tlb mmu.old.nv
        ≡ record { registers = regs.new; slots = mmu.new.tlb; nv = mmu.new.nv; ended = result.items } }
{
    let tlb1 = ea / IN_TLB1 % 2 == 1;
    let dead = if ea / WHOLE_TLB % 2 == 1 {
        mmu.tlb.inval_all(!tlb1, tlb1)
    } else {
        mmu.tlb.inval_ea(ea, None, !tlb1, tlb1)
    };
    regs.advance();
    dead
}

/// Reports in the MAS registers that no translation matches an effective address in a space, for the running process.
#[tactic(auto, unfolding(crate::specs::Tlb::missing, mas::specs::Translation::missed))]
pub fn miss(nv: u8, space: bool, ea: u32, regs: &mut Regs)
    ensures { regs.new ≡ missing nv space ea regs.old }
{
    let mas = mas_from(regs);
    set_mas(regs, &miss_mas(&mas, regs.pid(), space, ea, nv));
}
