//! Results over 32 bits.

ghost use Rattle.std.specs.Prelude.{◌≡◌, ℕ, ◌<◌, ◌≤◌, ◌^◌, ◌*◌, ◌/◌, ◌%◌, ◌+◌, ◌==◌, ◌&&◌, ◌*ℤ◌, ◌+ℤ◌, pos};
ghost use Rattle.insn_alu.specs.Numbers.{signed_value, overflows, compared, mask, inserted, shifted_left, shifted_right, shifted_algebraic, algebraic_carry, extended_byte, extended_half, high_product, high_signed_product, has_no_quotient, signed_quotient, unsigned_quotient, traps};

/// A power of two.
#[tactic(auto, using(crate::proofs::Powers::power_fits))]
pub fn power(n: u32) -> u64
    requires { n ≤ 32 }
    ensures value { result ≡ 2 ^ n }
    ensures positive { 0 < result }
    ensures bound { result ≤ 2 ^ 32 }
{
    1 << n
}

/// Ones from bit `first` to bit `last`, round past bit 31.
#[tactic(auto, using(crate::proofs::Powers::power_order), unfolding(crate::specs::Numbers::mask))]
pub fn mask_of(first: u32, last: u32) -> u32
    requires first { first < 32 }
    requires last { last < 32 }
    ensures { result ≡ mask first last }
{
    let from = power(32 - first);
    let below = power(31 - last);
    if first <= last {
        (from - below) as u32
    } else {
        (0xFFFF_FFFF - (below - from)) as u32
    }
}

/// The bits under the mask, and those of another word elsewhere.
pub fn insert(ones: u32, bits: u32, others: u32) -> u32
    ensures { result ≡ inserted ones bits others }
{
    (bits & ones) | (others & !ones)
}

/// How two numbers compare: 8 for less, 4 for greater, 2 for equal.
pub fn order(one: u32, other: u32) -> u32
    ensures order { result ≡ compared (pos one) (pos other) }
    ensures bound { result ≤ 8 }
{
    if one < other {
        8
    } else if other < one {
        4
    } else {
        2
    }
}

/// How two signed values compare.
pub fn order_signed(one: u32, other: u32) -> u32
    ensures order { result ≡ compared (signed_value one) (signed_value other) }
    ensures bound { result ≤ 8 }
{
    let one = one.cast_signed();
    let other = other.cast_signed();
    if one < other {
        8
    } else if other < one {
        4
    } else {
        2
    }
}

/// The sum of two signed values and a carry.
fn signed_sum(left: u32, right: u32, carry: u32) -> i64
    requires { carry < 2 }
    ensures { result ≡ signed_value left +ℤ signed_value right +ℤ pos carry }
{
    left.cast_signed() as i64 + right.cast_signed() as i64 + carry as i64
}

/// Whether the sum of two signed values and a carry doesn't fit.
pub fn sum_overflows(left: u32, right: u32, carry: u32) -> bool
    requires { carry < 2 }
    ensures { result ≡ overflows (signed_value left +ℤ signed_value right +ℤ pos carry) }
{
    let sum = signed_sum(left, right, carry);
    sum < -0x8000_0000 || sum > 0x7FFF_FFFF
}

/// The product of two signed values.
fn signed_product(one: u32, other: u32) -> i64
    ensures { result ≡ signed_value one *ℤ signed_value other }
{
    one.cast_signed() as i64 * other.cast_signed() as i64
}

/// Whether the product of two signed values doesn't fit.
pub fn product_overflows(one: u32, other: u32) -> bool
    ensures { result ≡ overflows (signed_value one *ℤ signed_value other) }
{
    let product = signed_product(one, other);
    product < -0x8000_0000 || product > 0x7FFF_FFFF
}

/// The upper word of the product of two signed values.
#[tactic(auto, unfolding(crate::specs::Numbers::high_signed_product))]
pub fn signed_product_high(one: u32, other: u32) -> u32
    ensures { result ≡ high_signed_product one other }
{
    (signed_product(one, other).cast_unsigned() >> 32) as u32
}

/// The upper word of the product without signs.
pub fn product_high(one: u32, other: u32) -> u32
    ensures { result ≡ high_product one other }
{
    (one as u64 * other as u64 / 0x1_0000_0000) as u32
}

/// Whether the quotient of two signed values has no 32 bits.
pub fn lacks_quotient(one: u32, other: u32) -> bool
    ensures { result ≡ has_no_quotient one other }
{
    other == 0 || (one == 0x8000_0000 && other == u32::MAX)
}

/// The quotient of two signed values, or 0 where it has no 32 bits.
#[tactic(auto, unfolding(crate::specs::Numbers::signed_quotient))]
pub fn divide_signed(one: u32, other: u32) -> u32
    ensures { result ≡ signed_quotient one other }
{
    if lacks_quotient(one, other) {
        0
    } else {
        (one.cast_signed() / other.cast_signed()).cast_unsigned()
    }
}

/// The quotient without signs, or 0 where there is none.
#[tactic(auto, unfolding(crate::specs::Numbers::unsigned_quotient))]
pub fn divide(one: u32, other: u32) -> u32
    ensures { result ≡ unsigned_quotient one other }
{
    if other == 0 { 0 } else { one / other }
}

/// Shifted left by 0 to 63 places.
pub fn shift_left(bits: u32, count: u32) -> u32
    ensures { result ≡ shifted_left bits count }
{
    if count > 31 { 0 } else { bits << count }
}

/// Shifted right by 0 to 63 places.
pub fn shift_right(bits: u32, count: u32) -> u32
    ensures { result ≡ shifted_right bits count }
{
    if count > 31 { 0 } else { bits >> count }
}

/// The signed value shifted right.
#[tactic(auto, using(crate::proofs::Powers::shr_div), unfolding(crate::specs::Numbers::shifted_algebraic))]
pub fn shift_right_signed(bits: u32, count: u32) -> u32
    ensures { result ≡ shifted_algebraic bits count }
{
    if count <= 31 {
        (bits.cast_signed() >> count).cast_unsigned()
    } else if bits >= 0x8000_0000 {
        u32::MAX
    } else {
        0
    }
}

/// Whether the value is negative and a one is shifted out.
#[tactic(auto, unfolding(crate::specs::Numbers::algebraic_carry))]
pub fn shifts_one_out(bits: u32, count: u32) -> bool
    ensures { result ≡ algebraic_carry bits count }
{
    bits >= 0x8000_0000 && (count > 31 || bits as u64 % power(count) != 0)
}

/// The last byte with copies of its sign before it.
pub fn extend_byte(bits: u32) -> u32
    ensures { result ≡ extended_byte bits }
{
    let byte = (bits % 0x100) as u8;
    (byte.cast_signed() as i32).cast_unsigned()
}

/// The last halfword with copies of its sign before it.
pub fn extend_half(bits: u32) -> u32
    ensures { result ≡ extended_half bits }
{
    let half = (bits % 0x1_0000) as u16;
    (half.cast_signed() as i32).cast_unsigned()
}

/// Whether TO asks for a trap where a comparison holds, by the bit of that comparison.
fn is_asked(asked: u32, bit: u32, holds: bool) -> bool
    requires { 0 < bit }
    ensures { result ≡ ((asked / bit % 2 == 1) && holds) }
{
    asked / bit % 2 == 1 && holds
}

/// Whether TO asks for a trap on two values.
#[tactic(auto, unfolding(crate::specs::Numbers::traps))]
pub fn is_trapped(asked: u32, one: u32, other: u32) -> bool
    ensures { result ≡ traps asked one other }
{
    is_asked(asked, 16, one.cast_signed() < other.cast_signed())
        || is_asked(asked, 8, other.cast_signed() < one.cast_signed())
        || is_asked(asked, 4, one == other)
        || is_asked(asked, 2, one < other)
        || is_asked(asked, 1, other < one)
}
