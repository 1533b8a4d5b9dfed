//! Branches, the condition register, and selection.

ghost use Rattle.std.specs.Prelude.{◌≡◌, ℕ, ◌<◌, ◌≤◌, ◌*◌, ◌/◌, ◌%◌, ◌+◌};
ghost use Rattle.insn_alu.specs.Rows.{comparison_row, selected, same, condition_met, counts, counted, count_met, linked, branched, target_of, branch_row, conditional_row, count_register_row, condition_row, first_bit, second_bit, field_row, chosen_field, chosen_fields, fields_row};

use crate::fields::{
    b_of, base_of, bit_of, field_of, replace_bit, replace_field, s_of, set_condition,
};
use crate::numbers::power;
use guest_regs::Regs;
use insn::Insn;

/// Whether two tests agree.
pub fn agree(one: bool, other: bool) -> bool
    ensures { result ≡ same one other }
{
    one == other
}

/// Field BF takes how two values compare.
#[tactic(auto, unfolding(crate::specs::Rows::comparison_row))]
pub fn set_order(insn: Insn, regs: &mut Regs, order: u32)
    requires { order ≤ 8 }
    ensures { regs.new ≡ comparison_row insn.word order regs.old }
{
    set_condition(regs, insn.bf(), order);
    regs.advance();
}

/// What isel chooses.
#[tactic(auto, unfolding(crate::specs::Rows::selected))]
pub fn select(insn: Insn, regs: &Regs) -> u32
    ensures { result ≡ selected insn.word regs.now }
{
    if bit_of(regs.cr(), insn.mask_begin()) {
        base_of(insn, regs)
    } else {
        b_of(insn, regs)
    }
}

/// Whether the condition that BO and BI name is met.
fn is_condition_met(insn: Insn, regs: &Regs) -> bool
    ensures { result ≡ condition_met insn.word regs.now }
{
    let options = insn.rt();
    options / 16 % 2 == 1 || agree(bit_of(regs.cr(), insn.ra() as u32), options / 8 % 2 == 1)
}

/// Whether BO lets the count register fall.
fn does_count(insn: Insn) -> bool
    ensures { result ≡ counts insn.word }
{
    insn.rt() / 4 % 2 == 0
}

/// Lets the count register fall by one, where BO says so.
fn count(insn: Insn, regs: &mut Regs)
    ensures { regs.new ≡ counted insn.word regs.old }
{
    if does_count(insn) {
        regs.set_ctr(regs.ctr().wrapping_sub(1));
    }
}

/// Whether the count that BO asks for is met.
fn is_count_met(insn: Insn, regs: &Regs) -> bool
    ensures { result ≡ count_met insn.word regs.now }
{
    !does_count(insn) || agree(regs.ctr() == 0, insn.rt() / 2 % 2 == 1)
}

/// Keeps the address of the next instruction in the link register, where LK is 1.
fn link(insn: Insn, regs: &mut Regs)
    ensures { regs.new ≡ linked insn.word regs.old }
{
    if insn.is_linked() {
        regs.set_lr(regs.pc().wrapping_add(4));
    }
}

/// Goes to the target or on, after LK was seen to.
#[tactic(auto, unfolding(crate::specs::Rows::branched))]
fn go(insn: Insn, regs: &mut Regs, taken: bool, target: u32)
    ensures { regs.new ≡ branched insn.word taken target regs.old }
{
    link(insn, regs);
    if taken {
        regs.set_pc(target);
    } else {
        regs.advance();
    }
}

/// Where a branch with this displacement goes.
pub fn target_by(insn: Insn, regs: &Regs, displacement: i32) -> u32
    ensures { result ≡ target_of insn.word displacement regs.now }
{
    let from = if insn.is_absolute() { 0 } else { regs.pc() };
    from.wrapping_add(displacement.cast_unsigned())
}

/// A branch that is always taken.
#[tactic(auto, unfolding(crate::specs::Rows::branch_row))]
pub fn branch(insn: Insn, regs: &mut Regs)
    ensures { regs.new ≡ branch_row insn.word regs.old }
{
    let target = target_by(insn, regs, insn.branch_displacement());
    go(insn, regs, true, target);
}

/// A branch that looks at the condition and at the count.
#[tactic(auto, unfolding(crate::specs::Rows::conditional_row))]
pub fn branch_conditional(insn: Insn, regs: &mut Regs, target: u32)
    ensures { regs.new ≡ conditional_row insn.word target regs.old }
{
    count(insn, regs);
    let is_taken = is_count_met(insn, regs) && is_condition_met(insn, regs);
    go(insn, regs, is_taken, target);
}

/// A branch to the count register, which looks at the condition alone.
#[tactic(auto, unfolding(crate::specs::Rows::count_register_row))]
pub fn branch_to_count(insn: Insn, regs: &mut Regs)
    ensures { regs.new ≡ count_register_row insn.word regs.old }
{
    let is_taken = is_condition_met(insn, regs);
    go(insn, regs, is_taken, regs.ctr());
}

/// The bit that BA names.
pub fn first_of(insn: Insn, regs: &Regs) -> bool
    ensures { result ≡ first_bit insn.word regs.now }
{
    bit_of(regs.cr(), insn.ra() as u32)
}

/// The bit that BB names.
pub fn second_of(insn: Insn, regs: &Regs) -> bool
    ensures { result ≡ second_bit insn.word regs.now }
{
    bit_of(regs.cr(), insn.rb() as u32)
}

/// Bit BT takes a value.
#[tactic(auto, unfolding(crate::specs::Rows::condition_row))]
pub fn set_bit(insn: Insn, regs: &mut Regs, value: bool)
    ensures { regs.new ≡ condition_row insn.word value regs.old }
{
    let cr = replace_bit(regs.cr(), insn.rt() as u32, value);
    regs.set_cr(cr);
    regs.advance();
}

/// Field BF takes field BFA.
#[tactic(auto, unfolding(crate::specs::Rows::field_row))]
pub fn move_field(insn: Insn, regs: &mut Regs)
    ensures { regs.new ≡ field_row insn.word regs.old }
{
    let value = field_of(regs.cr(), insn.bfa());
    let cr = replace_field(regs.cr(), insn.bf(), value);
    regs.set_cr(cr);
    regs.advance();
}

/// A field of the one word where FXM names it, else of the other.
fn choose(fxm: u32, one: u32, other: u32, n: u32) -> u32
    requires { n < 8 }
    ensures field { result ≡ chosen_field fxm one other n }
    ensures bound { result < 16 }
{
    if fxm as u64 / power(7 - n) % 2 == 1 {
        field_of(one, n)
    } else {
        field_of(other, n)
    }
}

/// The fields that FXM names of the one word, and the rest of the other.
#[tactic(auto, unfolding(crate::specs::Rows::chosen_fields))]
fn choose_all(fxm: u32, one: u32, other: u32) -> u32
    ensures { result ≡ chosen_fields fxm one other }
{
    choose(fxm, one, other, 0) * 0x1000_0000
        + choose(fxm, one, other, 1) * 0x0100_0000
        + choose(fxm, one, other, 2) * 0x0010_0000
        + choose(fxm, one, other, 3) * 0x0001_0000
        + choose(fxm, one, other, 4) * 0x1000
        + choose(fxm, one, other, 5) * 0x100
        + choose(fxm, one, other, 6) * 0x10
        + choose(fxm, one, other, 7)
}

/// The condition register takes the fields of (RS) that FXM names.
#[tactic(auto, unfolding(crate::specs::Rows::fields_row))]
pub fn set_fields(insn: Insn, regs: &mut Regs)
    ensures { regs.new ≡ fields_row insn.word regs.old }
{
    let cr = choose_all(insn.fxm(), s_of(insn, regs), regs.cr());
    regs.set_cr(cr);
    regs.advance();
}
