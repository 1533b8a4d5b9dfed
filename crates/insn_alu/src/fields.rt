//! The condition register, XER, and how an instruction ends.

ghost use Rattle.std.specs.Prelude.{◌≡◌, ℕ, ◌<◌, ◌≤◌, ◌^◌, ◌*◌, ◌/◌, ◌%◌, ◌+◌};
ghost use Rattle.insn_alu.specs.Fields.{replaced, condition_field, with_field, condition_bit, with_bit, summary, carry, with_carry, with_overflow, with_condition, recorded, a_of, b_of, s_of, base_of, extended_immediate, upper, result_in, result_recorded, result_in_form, arithmetic};

use crate::numbers::{order_signed, power};
use guest_regs::Regs;
use insn::Insn;

/// Another digit at a place of a number that is written in a base.
#[tactic(auto, using(crate::proofs::Digits::digit_fits))]
fn replace(number: u32, base: u64, place: u64, digit: u64) -> u32
    requires whole { 2 ^ 32 % (base * place) ≡ 0 }
    requires positive { 0 < place }
    requires digit { digit < base }
    requires base { base ≤ 16 }
    requires place { place ≤ 2 ^ 32 }
    ensures { result ≡ replaced base place digit number }
{
    let above = base * place;
    let number = number as u64;
    (number / above * above + digit * place + number % place) as u32
}

/// A field of the condition register.
pub fn field_of(cr: u32, n: u32) -> u32
    requires { n < 8 }
    ensures field { result ≡ condition_field cr n }
    ensures bound { result < 16 }
{
    (cr as u64 / power(28 - 4 * n) % 16) as u32
}

/// The condition register with another field.
#[tactic(auto, using(crate::proofs::Digits::field_divides))]
pub fn replace_field(cr: u32, n: u32, value: u32) -> u32
    requires field { n < 8 }
    requires value { value < 16 }
    ensures { result ≡ with_field cr n value }
{
    replace(cr, 16, power(28 - 4 * n), value as u64)
}

/// A bit of the condition register.
pub fn bit_of(cr: u32, n: u32) -> bool
    requires { n < 32 }
    ensures { result ≡ condition_bit cr n }
{
    cr as u64 / power(31 - n) % 2 == 1
}

/// The condition register with another bit.
#[tactic(auto, using(crate::proofs::Digits::bit_divides))]
pub fn replace_bit(cr: u32, n: u32, value: bool) -> u32
    requires { n < 32 }
    ensures { result ≡ with_bit cr n value }
{
    replace(cr, 2, power(31 - n), if value { 1 } else { 0 })
}

/// SO.
pub fn summary_of(regs: &Regs) -> u32
    ensures value { result ≡ summary regs.now }
    ensures bound { result < 2 }
{
    regs.xer() / 0x8000_0000 % 2
}

/// CA.
pub fn carry_of(regs: &Regs) -> u32
    ensures value { result ≡ carry regs.now }
    ensures bound { result < 2 }
{
    regs.xer() / 0x2000_0000 % 2
}

/// CA is set to a carry, or to none.
pub fn set_carry(regs: &mut Regs, value: u32)
    requires { value < 2 }
    ensures { regs.new ≡ with_carry value regs.old }
{
    let xer = replace(regs.xer(), 2, 0x2000_0000, value as u64);
    regs.set_xer(xer);
}

/// OV is set to an overflow, or to none, and SO where one was here or earlier.
pub fn set_overflow(regs: &mut Regs, here: bool)
    ensures { regs.new ≡ with_overflow here regs.old }
{
    let bits = if here { 3 } else { 2 * summary_of(regs) };
    let xer = replace(regs.xer(), 4, 0x4000_0000, bits as u64);
    regs.set_xer(xer);
}

/// A condition field takes how two values compare, and SO.
pub fn set_condition(regs: &mut Regs, n: u32, order: u32)
    requires field { n < 8 }
    requires order { order ≤ 8 }
    ensures { regs.new ≡ with_condition n order regs.old }
{
    let cr = replace_field(regs.cr(), n, order + summary_of(regs));
    regs.set_cr(cr);
}

/// CR0 compares a result with 0.
#[tactic(auto, unfolding(crate::specs::Fields::recorded))]
fn record_result(regs: &mut Regs, value: u32)
    ensures { regs.new ≡ recorded value regs.old }
{
    set_condition(regs, 0, order_signed(value, 0));
}

/// (RA)
pub fn a_of(insn: Insn, regs: &Regs) -> u32
    ensures { result ≡ a_of insn.word regs.now }
{
    regs.gpr(insn.ra())
}

/// (RB)
pub fn b_of(insn: Insn, regs: &Regs) -> u32
    ensures { result ≡ b_of insn.word regs.now }
{
    regs.gpr(insn.rb())
}

/// (RS)
pub fn s_of(insn: Insn, regs: &Regs) -> u32
    ensures { result ≡ s_of insn.word regs.now }
{
    regs.gpr(insn.rt())
}

/// (RA|0)
pub fn base_of(insn: Insn, regs: &Regs) -> u32
    ensures { result ≡ base_of insn.word regs.now }
{
    regs.gpr_or_zero(insn.ra())
}

/// The immediate with copies of its sign.
pub fn extended_immediate(insn: Insn) -> u32
    ensures { result ≡ extended_immediate insn.word }
{
    insn.signed_immediate().cast_unsigned()
}

/// The immediate in the upper half.
pub fn upper(insn: Insn) -> u32
    ensures { result ≡ upper insn.word }
{
    insn.immediate() * 0x1_0000
}

/// A register takes its result.
#[tactic(auto, unfolding(crate::specs::Fields::result_in))]
pub fn set_result(regs: &mut Regs, number: u8, value: u32)
    requires { number < 32 }
    ensures { regs.new ≡ result_in number value regs.old }
{
    regs.set_gpr(number, value);
    regs.advance();
}

/// A register takes its result, and CR0 compares it.
#[tactic(auto, unfolding(crate::specs::Fields::result_recorded))]
pub fn set_recorded(regs: &mut Regs, number: u8, value: u32)
    requires { number < 32 }
    ensures { regs.new ≡ result_recorded number value regs.old }
{
    regs.set_gpr(number, value);
    record_result(regs, value);
    regs.advance();
}

/// A register takes its result, and CR0 compares it where Rc is 1.
#[tactic(auto, unfolding(crate::specs::Fields::result_in_form))]
pub fn set_in_form(insn: Insn, regs: &mut Regs, number: u8, value: u32)
    requires { number < 32 }
    ensures { regs.new ≡ result_in_form insn.word number value regs.old }
{
    if insn.records() {
        set_recorded(regs, number, value);
    } else {
        set_result(regs, number, value);
    }
}

/// RT takes an arithmetic result. OV and SO say whether it fits, where OE is 1.
#[tactic(auto, unfolding(crate::specs::Fields::arithmetic))]
pub fn set_arithmetic(insn: Insn, regs: &mut Regs, value: u32, overflow: bool)
    ensures { regs.new ≡ arithmetic insn.word value overflow regs.old }
{
    if insn.tells_overflow() {
        set_overflow(regs, overflow);
    }
    set_in_form(insn, regs, insn.rt(), value);
}
