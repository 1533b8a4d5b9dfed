//! The effect of each instruction, table by table.

ghost use Rattle.std.specs.Prelude.{◌≡◌, ℕ};
ghost use Rattle.insn_alu.specs.Exec.{exec_of, branches_of, sums_of, products_of, comparisons_of, logic_of, rotations_of, answered, KeepsUnlessDone, KeepsUnlessAnswered, HasNoAccess, TransfersForMemory};

use crate::branches::{
    agree, branch, branch_conditional, branch_to_count, first_of, move_field, second_of, select,
    set_bit, set_order, target_by,
};
use crate::effect::Effect;
use crate::fields::{
    a_of, b_of, base_of, carry_of, extended_immediate, s_of, set_arithmetic, set_in_form,
    set_recorded, set_result, upper,
};
use crate::numbers::{
    divide, divide_signed, extend_byte, extend_half, lacks_quotient, order, order_signed,
    product_high, product_overflows, shift_left, shift_right, signed_product_high,
};
use crate::rows::{
    add_carrying, add_up, carry_in, carry_recorded, rotate, rotate_insert, shift_algebraic,
};
use crate::system::{exec_moves, exec_privileged, exec_storage, exec_transfers, trap};
use guest_regs::Regs;
use insn::{Insn, Op};

/// Does the instruction as far as it is a matter of the registers alone, and says what else it asks for. The
/// registers change for `Effect::Done` alone.
///
/// `insn` is what `insn::decode` gives of its word.
#[tactic(auto, unfolding(crate::specs::Exec::exec_of))]
pub fn exec(insn: &Insn, regs: &mut Regs) -> Effect
    ensures executed { exec_of insn.now.op insn.now.word regs.old ≡ record { effect = result; after = regs.new } }
    ensures kept { KeepsUnlessDone result regs.old regs.new }
    ensures transfers { TransfersForMemory result insn.now.op insn.now.word regs.old }
{
    let insn = *insn;
    if let Some(effect) = exec_branches(insn, regs) {
        return effect;
    }
    if let Some(effect) = exec_transfers(insn, regs) {
        return effect;
    }
    if let Some(effect) = exec_sums(insn, regs) {
        return effect;
    }
    if let Some(effect) = exec_products(insn, regs) {
        return effect;
    }
    if let Some(effect) = exec_comparisons(insn, regs) {
        return effect;
    }
    if let Some(effect) = exec_logic(insn, regs) {
        return effect;
    }
    if let Some(effect) = exec_rotations(insn, regs) {
        return effect;
    }
    if let Some(effect) = exec_moves(insn, regs) {
        return effect;
    }
    if let Some(effect) = exec_storage(insn, regs) {
        return effect;
    }
    if let Some(effect) = exec_privileged(insn, regs) {
        return effect;
    }
    Effect::Illegal
}

/// Branches, the condition register, and the system call (Power ISA 2.06, Book I, chapter 2).
#[tactic(auto, unfolding(crate::specs::Exec::branches_of))]
fn exec_branches(insn: Insn, regs: &mut Regs) -> Option<Effect>
    ensures executed { branches_of insn.op insn.word regs.old ≡ answered result regs.new }
    ensures kept { KeepsUnlessAnswered result regs.old regs.new }
    ensures access { HasNoAccess result }
{
    let first = first_of(insn, regs);
    let second = second_of(insn, regs);
    match insn.op {
        Op::B => branch(insn, regs),
        Op::Bc => branch_conditional(
            insn,
            regs,
            target_by(insn, regs, insn.conditional_displacement()),
        ),
        Op::Bclr => branch_conditional(insn, regs, regs.lr()),
        Op::Bcctr => branch_to_count(insn, regs),
        Op::Crand => set_bit(insn, regs, first && second),
        Op::Crnand => set_bit(insn, regs, !(first && second)),
        Op::Cror => set_bit(insn, regs, first || second),
        Op::Crxor => set_bit(insn, regs, !agree(first, second)),
        Op::Crnor => set_bit(insn, regs, !(first || second)),
        Op::Creqv => set_bit(insn, regs, agree(first, second)),
        Op::Crandc => set_bit(insn, regs, first && !second),
        Op::Crorc => set_bit(insn, regs, first || !second),
        Op::Mcrf => move_field(insn, regs),
        Op::Sc => return Some(Effect::Syscall),
        _ => return None,
    }
    Some(Effect::Done)
}

/// Sums and differences (Power ISA 2.06, Book I, section 3.3.8).
#[tactic(auto, unfolding(crate::specs::Exec::sums_of))]
fn exec_sums(insn: Insn, regs: &mut Regs) -> Option<Effect>
    ensures executed { sums_of insn.op insn.word regs.old ≡ answered result regs.new }
    ensures kept { KeepsUnlessAnswered result regs.old regs.new }
    ensures access { HasNoAccess result }
{
    let a = a_of(insn, regs);
    let b = b_of(insn, regs);
    match insn.op {
        Op::Addi => set_result(
            regs,
            insn.rt(),
            base_of(insn, regs).wrapping_add(extended_immediate(insn)),
        ),
        Op::Addis => set_result(
            regs,
            insn.rt(),
            base_of(insn, regs).wrapping_add(upper(insn)),
        ),
        Op::Add => add_up(insn, regs, a, b, 0),
        Op::Subf => add_up(insn, regs, !a, b, 1),
        Op::Addic => carry_in(regs, insn.rt(), a, extended_immediate(insn), 0),
        Op::AddicRecord => carry_recorded(regs, insn.rt(), a, extended_immediate(insn), 0),
        Op::Subfic => carry_in(regs, insn.rt(), !a, extended_immediate(insn), 1),
        Op::Addc => add_carrying(insn, regs, a, b, 0),
        Op::Subfc => add_carrying(insn, regs, !a, b, 1),
        Op::Adde => add_carrying(insn, regs, a, b, carry_of(regs)),
        Op::Subfe => add_carrying(insn, regs, !a, b, carry_of(regs)),
        Op::Addme => add_carrying(insn, regs, a, u32::MAX, carry_of(regs)),
        Op::Subfme => add_carrying(insn, regs, !a, u32::MAX, carry_of(regs)),
        Op::Addze => add_carrying(insn, regs, a, 0, carry_of(regs)),
        Op::Subfze => add_carrying(insn, regs, !a, 0, carry_of(regs)),
        Op::Neg => add_up(insn, regs, !a, 0, 1),
        _ => return None,
    }
    Some(Effect::Done)
}

/// Products and quotients (Power ISA 2.06, Book I, section 3.3.8).
#[tactic(auto, unfolding(crate::specs::Exec::products_of))]
fn exec_products(insn: Insn, regs: &mut Regs) -> Option<Effect>
    ensures executed { products_of insn.op insn.word regs.old ≡ answered result regs.new }
    ensures kept { KeepsUnlessAnswered result regs.old regs.new }
    ensures access { HasNoAccess result }
{
    let a = a_of(insn, regs);
    let b = b_of(insn, regs);
    match insn.op {
        Op::Mulli => set_result(regs, insn.rt(), a.wrapping_mul(extended_immediate(insn))),
        Op::Mulhw => set_in_form(insn, regs, insn.rt(), signed_product_high(a, b)),
        Op::Mullw => set_arithmetic(insn, regs, a.wrapping_mul(b), product_overflows(a, b)),
        Op::Mulhwu => set_in_form(insn, regs, insn.rt(), product_high(a, b)),
        Op::Divw => set_arithmetic(insn, regs, divide_signed(a, b), lacks_quotient(a, b)),
        Op::Divwu => set_arithmetic(insn, regs, divide(a, b), b == 0),
        _ => return None,
    }
    Some(Effect::Done)
}

/// Comparisons, traps and selection (Power ISA 2.06, Book I, sections 3.3.9 to 3.3.11).
#[tactic(auto, unfolding(crate::specs::Exec::comparisons_of))]
fn exec_comparisons(insn: Insn, regs: &mut Regs) -> Option<Effect>
    ensures executed { comparisons_of insn.op insn.word regs.old ≡ answered result regs.new }
    ensures kept { KeepsUnlessAnswered result regs.old regs.new }
    ensures access { HasNoAccess result }
{
    let a = a_of(insn, regs);
    let b = b_of(insn, regs);
    match insn.op {
        Op::Cmpi => set_order(insn, regs, order_signed(a, extended_immediate(insn))),
        Op::Cmp => set_order(insn, regs, order_signed(a, b)),
        Op::Cmpli => set_order(insn, regs, order(a, insn.immediate())),
        Op::Cmpl => set_order(insn, regs, order(a, b)),
        Op::Twi => return Some(trap(insn, regs, a, extended_immediate(insn))),
        Op::Tw => return Some(trap(insn, regs, a, b)),
        Op::Isel => set_result(regs, insn.rt(), select(insn, regs)),
        _ => return None,
    }
    Some(Effect::Done)
}

/// Logic (Power ISA 2.06, Book I, section 3.3.12).
#[tactic(auto, unfolding(crate::specs::Exec::logic_of))]
fn exec_logic(insn: Insn, regs: &mut Regs) -> Option<Effect>
    ensures executed { logic_of insn.op insn.word regs.old ≡ answered result regs.new }
    ensures kept { KeepsUnlessAnswered result regs.old regs.new }
    ensures access { HasNoAccess result }
{
    let s = s_of(insn, regs);
    let b = b_of(insn, regs);
    match insn.op {
        Op::Andi => set_recorded(regs, insn.ra(), s & insn.immediate()),
        Op::Andis => set_recorded(regs, insn.ra(), s & upper(insn)),
        Op::Ori => set_result(regs, insn.ra(), s | insn.immediate()),
        Op::Oris => set_result(regs, insn.ra(), s | upper(insn)),
        Op::Xori => set_result(regs, insn.ra(), s ^ insn.immediate()),
        Op::Xoris => set_result(regs, insn.ra(), s ^ upper(insn)),
        Op::And => set_in_form(insn, regs, insn.ra(), s & b),
        Op::Xor => set_in_form(insn, regs, insn.ra(), s ^ b),
        Op::Nand => set_in_form(insn, regs, insn.ra(), !(s & b)),
        Op::Or => set_in_form(insn, regs, insn.ra(), s | b),
        Op::Nor => set_in_form(insn, regs, insn.ra(), !(s | b)),
        Op::Eqv => set_in_form(insn, regs, insn.ra(), !(s ^ b)),
        Op::Andc => set_in_form(insn, regs, insn.ra(), s & !b),
        Op::Orc => set_in_form(insn, regs, insn.ra(), s | !b),
        Op::Extsb => set_in_form(insn, regs, insn.ra(), extend_byte(s)),
        Op::Extsh => set_in_form(insn, regs, insn.ra(), extend_half(s)),
        Op::Cntlzw => set_in_form(insn, regs, insn.ra(), s.leading_zeros()),
        _ => return None,
    }
    Some(Effect::Done)
}

/// Rotations and shifts (Power ISA 2.06, Book I, section 3.3.13).
#[tactic(auto, unfolding(crate::specs::Exec::rotations_of))]
fn exec_rotations(insn: Insn, regs: &mut Regs) -> Option<Effect>
    ensures executed { rotations_of insn.op insn.word regs.old ≡ answered result regs.new }
    ensures kept { KeepsUnlessAnswered result regs.old regs.new }
    ensures access { HasNoAccess result }
{
    let s = s_of(insn, regs);
    let b = b_of(insn, regs);
    match insn.op {
        Op::Rlwinm => rotate(insn, regs, insn.rb() as u32),
        Op::Rlwnm => rotate(insn, regs, b % 32),
        Op::Rlwimi => rotate_insert(insn, regs, insn.rb() as u32),
        Op::Slw => set_in_form(insn, regs, insn.ra(), shift_left(s, b % 64)),
        Op::Srw => set_in_form(insn, regs, insn.ra(), shift_right(s, b % 64)),
        Op::Srawi => shift_algebraic(insn, regs, insn.rb() as u32),
        Op::Sraw => shift_algebraic(insn, regs, b % 64),
        _ => return None,
    }
    Some(Effect::Done)
}
