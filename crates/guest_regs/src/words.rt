//! Words: whether one has a bit, and its bytes.

ghost use Rattle.std.specs.Prelude.{◌≡◌, ℕ, ◌+◌, ◌<◌, ◌≤◌, ◌++◌};
ghost use Rattle.std.specs.Int.{w32, to_be_bytes};
ghost use Rattle.arrayvec.specs.ArrayVec.{array_vec_len};
ghost use Rattle.guest_regs.specs.State.{is_set};

use arrayvec::ArrayVec;

/// Whether a value has a bit, which is given by its weight.
pub fn is_set(value: u32, bit: u32) -> bool
    requires { 0 < bit }
    ensures { result ≡ is_set bit value }
{
    value / bit % 2 == 1
}

/// Joins the four bytes of a word to others, the most significant byte first.
pub fn push_word<const N: usize>(bytes: &mut ArrayVec<u8, N>, word: u32)
    requires { array_vec_len bytes.old + 4 ≤ N }
    ensures bytes { bytes.new.items ≡ bytes.old.items ++ to_be_bytes w32 word }
    ensures length { array_vec_len bytes.new ≡ array_vec_len bytes.old + 4 }
{
    let [first, second, third, last] = word.to_be_bytes();
    bytes.push(first);
    bytes.push(second);
    bytes.push(third);
    bytes.push(last);
}
