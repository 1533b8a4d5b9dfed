//! Sets of numbers below 128 as the bits of a word.

ghost use Rattle.std.specs.Prelude.{◌≡◌, ℕ, ◌<◌, ◌≤◌, true, false};
ghost use Rattle.vpic.specs.Numbers.{has, with_number, without_number};

/// Whether a number is in a set.
pub fn has(set: u128, n: u8) -> bool
    requires { n < 128 }
    ensures { result ≡ has set n }
{
    set >> n & 1 == 1
}

/// A set with a number put in.
pub fn with_number(set: u128, n: u8) -> u128
    requires { n < 128 }
    ensures { result ≡ with_number set n }
{
    set | 1 << n
}

/// A set with a number taken out.
pub fn without_number(set: u128, n: u8) -> u128
    requires { n < 128 }
    ensures { result ≡ without_number set n }
{
    set & !(1 << n)
}

/// The first number of a set from this one on and below the end, or the end.
pub fn next_in(set: u128, from: u8, end: u8) -> u8
    requires order { from ≤ end }
    requires limit { end ≤ 128 }
    ensures after { from ≤ result }
    ensures within { result ≤ end }
    ensures found { result < end → has set result ≡ true }
    ensures none { (m : ℕ) → from ≤ m → m < result → has set m ≡ false }
{
    if from == end {
        return end;
    }
    let zeros = (set >> from).trailing_zeros() as u8;
    end.min(from + zeros)
}
