//! Special registers by their numbers.

ghost use Rattle.std.specs.Prelude.{◌≡◌, ℕ};
ghost use Rattle.guest_regs.specs.Special.{special_of, special_among, numbers, IsInRun, special_value, other_value, special_written, other_written, is_privileged, is_user_writable, spr_read, spr_write, KeepsUnlessDone};

use crate::answer::{ReadAnswer, WriteAnswer};
use crate::registers::Regs;
use crate::special::Special;

/// The register that a number names.
#[tactic(auto, unfolding(crate::specs::Special::special_of))]
fn special_of_number(number: u32) -> Special
    ensures special { result ≡ special_of number }
    ensures run { IsInRun result }
{
    match number {
        400..=415 => Special::Ivor((number - 400) as u8),
        272..=279 => Special::Sprg((number - 272) as u8),
        259..=263 => Special::UserSprg((number - 256) as u8),
        _ => single(number),
    }
}

/// A register that has a number of its own.
#[tactic(auto, unfolding(crate::specs::Special::numbers))]
fn single(number: u32) -> Special
    ensures special { result ≡ special_among numbers number }
    ensures run { IsInRun result }
{
    match number {
        1 => Special::Xer,
        8 => Special::Lr,
        9 => Special::Ctr,
        22 => Special::Dec,
        26 => Special::Srr0,
        27 => Special::Srr1,
        48 => Special::Pid,
        54 => Special::Decar,
        58 => Special::Csrr0,
        59 => Special::Csrr1,
        61 => Special::Dear,
        62 => Special::Esr,
        63 => Special::Ivpr,
        268 => Special::TimeLower,
        269 => Special::TimeUpper,
        286 => Special::Pir,
        287 => Special::Pvr,
        336 => Special::Tsr,
        340 => Special::Tcr,
        570 => Special::Mcsrr0,
        571 => Special::Mcsrr1,
        624 => Special::Mas0,
        625 => Special::Mas1,
        626 => Special::Mas2,
        627 => Special::Mas3,
        628 => Special::Mas4,
        630 => Special::Mas6,
        688 => Special::Tlb0cfg,
        689 => Special::Tlb1cfg,
        944 => Special::Mas7,
        1008 => Special::Hid0,
        1010 => Special::L1csr0,
        1011 => Special::L1csr1,
        1013 => Special::Bucsr,
        _ => Special::Unlisted,
    }
}

/// What a register reads as.
#[tactic(auto, unfolding(crate::specs::Special::special_value))]
fn value_of(regs: &Regs, special: Special) -> u32
    requires { IsInRun special }
    ensures { result ≡ special_value special regs.now }
{
    match special {
        Special::Xer => regs.xer(),
        Special::Lr => regs.lr(),
        Special::Ctr => regs.ctr(),
        Special::Dec => regs.dec(),
        Special::Decar => regs.decar(),
        Special::Srr0 => regs.srr0(),
        Special::Srr1 => regs.srr1(),
        Special::Dear => regs.dear(),
        Special::Esr => regs.esr(),
        Special::Pid => regs.pid() as u32,
        Special::Csrr0 => regs.csrr0(),
        Special::Csrr1 => regs.csrr1(),
        Special::Mcsrr0 => regs.mcsrr0(),
        Special::Mcsrr1 => regs.mcsrr1(),
        Special::Ivpr => regs.ivpr(),
        Special::Ivor(n) => regs.ivor(n),
        _ => other_value_of(regs, special),
    }
}

/// What the others read as, of which an unlisted one has 0.
#[tactic(auto, unfolding(crate::specs::Special::other_value))]
fn other_value_of(regs: &Regs, special: Special) -> u32
    requires { IsInRun special }
    ensures { result ≡ other_value special regs.now }
{
    match special {
        Special::Sprg(n) => regs.sprg(n),
        Special::UserSprg(n) => regs.sprg(n),
        Special::TimeLower => (regs.time() % 0x1_0000_0000) as u32,
        Special::TimeUpper => (regs.time() / 0x1_0000_0000) as u32,
        Special::Pir => regs.pir(),
        Special::Pvr => regs.pvr(),
        Special::Tsr => regs.tsr(),
        Special::Tcr => regs.tcr(),
        Special::Mas0 => regs.mas0(),
        Special::Mas1 => regs.mas1(),
        Special::Mas2 => regs.mas2(),
        Special::Mas3 => regs.mas3(),
        Special::Mas4 => regs.mas4(),
        Special::Mas6 => regs.mas6(),
        Special::Mas7 => regs.mas7(),
        Special::Tlb0cfg => regs.tlb0cfg(),
        Special::Tlb1cfg => regs.tlb1cfg(),
        Special::Hid0 => regs.hid0(),
        Special::L1csr0 => regs.l1csr0(),
        Special::L1csr1 => regs.l1csr1(),
        Special::Bucsr => regs.bucsr(),
        _ => 0,
    }
}

/// Writes a register.
#[tactic(auto, unfolding(crate::specs::Special::special_written))]
fn set(regs: &mut Regs, special: Special, value: u32)
    requires { IsInRun special }
    ensures { regs.new ≡ special_written special value regs.old }
{
    match special {
        Special::Xer => regs.set_xer(value),
        Special::Lr => regs.set_lr(value),
        Special::Ctr => regs.set_ctr(value),
        Special::Dec => regs.set_dec(value),
        Special::Decar => regs.set_decar(value),
        Special::Srr0 => regs.set_srr0(value),
        Special::Srr1 => regs.set_srr1(value),
        Special::Dear => regs.set_dear(value),
        Special::Esr => regs.set_esr(value),
        Special::Pid => regs.set_pid(value),
        Special::Csrr0 => regs.set_csrr0(value),
        Special::Csrr1 => regs.set_csrr1(value),
        Special::Mcsrr0 => regs.set_mcsrr0(value),
        Special::Mcsrr1 => regs.set_mcsrr1(value),
        Special::Ivpr => regs.set_ivpr(value),
        Special::Ivor(n) => regs.set_ivor(n, value),
        _ => set_other(regs, special, value),
    }
}

/// Writes one of the others. What is unlisted or can only be read stays.
#[tactic(auto, unfolding(crate::specs::Special::other_written))]
fn set_other(regs: &mut Regs, special: Special, value: u32)
    requires { IsInRun special }
    ensures { regs.new ≡ other_written special value regs.old }
{
    match special {
        Special::Sprg(n) => regs.set_sprg(n, value),
        Special::Tsr => regs.set_tsr(regs.tsr() & !value),
        Special::Tcr => regs.set_tcr(value),
        Special::Mas0 => regs.set_mas0(value),
        Special::Mas1 => regs.set_mas1(value),
        Special::Mas2 => regs.set_mas2(value),
        Special::Mas3 => regs.set_mas3(value),
        Special::Mas4 => regs.set_mas4(value),
        Special::Mas6 => regs.set_mas6(value),
        Special::Mas7 => regs.set_mas7(value),
        Special::Hid0 => regs.set_hid0(value),
        Special::L1csr0 => regs.set_l1csr0(value),
        Special::L1csr1 => regs.set_l1csr1(value),
        Special::Bucsr => regs.set_bucsr(value),
        _ => {}
    }
}

/// Whether a number is the system's.
fn needs_privilege(number: u32) -> bool
    ensures { result ≡ is_privileged number }
{
    number / 16 % 2 == 1
}

/// What `mfspr` of the number `n` gives. The answer is `Privileged` where the number is the system's and MSR[PR]
/// is set, and `Illegal` where it is not the system's and names no register.
#[tactic(auto, unfolding(crate::specs::Special::spr_read))]
pub fn spr_read(regs: &Regs, n: u32) -> ReadAnswer
    ensures { result ≡ spr_read n regs.now }
{
    let special = special_of_number(n);
    let privileged = needs_privilege(n);
    if privileged && regs.is_user() {
        ReadAnswer::Privileged
    } else if privileged || special != Special::Unlisted {
        ReadAnswer::Value(value_of(regs, special))
    } else {
        ReadAnswer::Illegal
    }
}

/// Writes the special register of the number `n`, as `mtspr` does. The answer is `Privileged` where the number is
/// the system's and MSR[PR] is set, and `Illegal` where it is not the system's and names no register that can be
/// written. The registers then stay.
#[tactic(auto, unfolding(crate::specs::Special::spr_write))]
pub fn spr_write(regs: &mut Regs, n: u32, v: u32) -> WriteAnswer
    ensures written { spr_write n v regs.old ≡ record { answer = result; after = regs.new } }
    ensures refused { KeepsUnlessDone result regs.old regs.new }
{
    let special = special_of_number(n);
    let privileged = needs_privilege(n);
    if privileged && regs.is_user() {
        WriteAnswer::Privileged
    } else if privileged || is_written_by_users(special) {
        set(regs, special, v);
        WriteAnswer::Done
    } else {
        WriteAnswer::Illegal
    }
}

/// Whether user programs may write the register.
fn is_written_by_users(special: Special) -> bool
    ensures { result ≡ is_user_writable special }
{
    matches!(special, Special::Xer | Special::Lr | Special::Ctr)
}
