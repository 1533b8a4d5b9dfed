//! Rows that several arithmetic and shift instructions share.

ghost use Rattle.std.specs.Prelude.{◌≡◌, ℕ, ◌<◌, ◌^◌, ◌/◌, ◌%◌, ◌+◌};
ghost use Rattle.insn_alu.specs.Rows.{sum_row, carrying_row, carrying_in, carrying_recorded, rotation_row, insertion_row, algebraic_row};

use crate::fields::{a_of, s_of, set_arithmetic, set_carry, set_in_form, set_recorded, set_result};
use crate::numbers::{insert, mask_of, shift_right_signed, shifts_one_out, sum_overflows};
use guest_regs::Regs;
use insn::Insn;

/// The sum of two words and a carry.
fn sum_of(left: u32, right: u32, carry: u32) -> u64
    requires { carry < 2 }
    ensures { result ≡ left + right + carry }
{
    left as u64 + right as u64 + carry as u64
}

/// The lower word of a sum.
fn low_word(sum: u64) -> u32
    ensures { result ≡ sum % 2 ^ 32 }
{
    (sum % 0x1_0000_0000) as u32
}

/// The carry out of a sum.
fn carry_out(sum: u64) -> u32
    requires { sum < 2 ^ 33 }
    ensures carry { result ≡ sum / 2 ^ 32 }
    ensures bound { result < 2 }
{
    (sum / 0x1_0000_0000) as u32
}

/// RT takes a sum of two words and a carry. OV and SO say whether it fits, where OE is 1.
#[tactic(auto, unfolding(crate::specs::Rows::sum_row))]
pub fn add_up(insn: Insn, regs: &mut Regs, left: u32, right: u32, carry: u32)
    requires { carry < 2 }
    ensures { regs.new ≡ sum_row insn.word left right carry regs.old }
{
    let sum = low_word(sum_of(left, right, carry));
    set_arithmetic(insn, regs, sum, sum_overflows(left, right, carry));
}

/// The same, and CA takes the carry out.
#[tactic(auto, unfolding(crate::specs::Rows::carrying_row))]
pub fn add_carrying(insn: Insn, regs: &mut Regs, left: u32, right: u32, carry: u32)
    requires { carry < 2 }
    ensures { regs.new ≡ carrying_row insn.word left right carry regs.old }
{
    set_carry(regs, carry_out(sum_of(left, right, carry)));
    add_up(insn, regs, left, right, carry);
}

/// A register takes such a sum, and CA the carry out, without OE and Rc.
#[tactic(auto, unfolding(crate::specs::Rows::carrying_in))]
pub fn carry_in(regs: &mut Regs, number: u8, left: u32, right: u32, carry: u32)
    requires number { number < 32 }
    requires carry { carry < 2 }
    ensures { regs.new ≡ carrying_in number left right carry regs.old }
{
    let sum = sum_of(left, right, carry);
    set_carry(regs, carry_out(sum));
    set_result(regs, number, low_word(sum));
}

/// The same, and CR0 compares the sum.
#[tactic(auto, unfolding(crate::specs::Rows::carrying_recorded))]
pub fn carry_recorded(regs: &mut Regs, number: u8, left: u32, right: u32, carry: u32)
    requires number { number < 32 }
    requires carry { carry < 2 }
    ensures { regs.new ≡ carrying_recorded number left right carry regs.old }
{
    let sum = sum_of(left, right, carry);
    set_carry(regs, carry_out(sum));
    set_recorded(regs, number, low_word(sum));
}

/// Rotates (RS) and takes what is under the mask.
#[tactic(auto, unfolding(crate::specs::Rows::rotation_row))]
pub fn rotate(insn: Insn, regs: &mut Regs, count: u32)
    ensures { regs.new ≡ rotation_row insn.word count regs.old }
{
    let ones = mask_of(insn.mask_begin(), insn.mask_end());
    let value = s_of(insn, regs).rotate_left(count) & ones;
    set_in_form(insn, regs, insn.ra(), value);
}

/// Rotates (RS) and inserts it into (RA) under the mask.
#[tactic(auto, unfolding(crate::specs::Rows::insertion_row))]
pub fn rotate_insert(insn: Insn, regs: &mut Regs, count: u32)
    ensures { regs.new ≡ insertion_row insn.word count regs.old }
{
    let ones = mask_of(insn.mask_begin(), insn.mask_end());
    let value = insert(ones, s_of(insn, regs).rotate_left(count), a_of(insn, regs));
    set_in_form(insn, regs, insn.ra(), value);
}

/// Shifts (RS) right with its sign.
#[tactic(auto, unfolding(crate::specs::Rows::algebraic_row))]
pub fn shift_algebraic(insn: Insn, regs: &mut Regs, count: u32)
    ensures { regs.new ≡ algebraic_row insn.word count regs.old }
{
    let bits = s_of(insn, regs);
    set_carry(regs, if shifts_one_out(bits, count) { 1 } else { 0 });
    set_in_form(insn, regs, insn.ra(), shift_right_signed(bits, count));
}
