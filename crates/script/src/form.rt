//! Numbers and bytes as words of a line.

ghost use Rattle.std.specs.Prelude.{◌≡◌, ◌≤◌, true, length, IfOk};
ghost use Rattle.std.specs.Char.{is_ascii_digit};
ghost use Rattle.std.specs.List.{list_all};
ghost use Rattle.std.specs.Str.Parse.{digits_value};
ghost use Rattle.script.specs.Form as spec;

use hex::FromHexError;
use outside::{Bytes, NoMemory};
use std::alloc::Global;

/// Digits of a number.
const MOST_DIGITS: usize = 20;

/// The number of the last core that a partition can have.
pub const LAST_CORE: u32 = 31;

/// Whether all bytes are decimal digits.
fn are_digits(word: &[u8]) -> bool
    ensures { result ≡ list_all is_ascii_digit word.now }
{
    word.iter().all(|byte| byte.is_ascii_digit())
}

/// Whether the word is a number.
fn is_decimal(word: &[u8]) -> bool
    ensures { result ≡ spec.is_decimal word.now }
{
    let len = word.len();
    0 < len && len <= MOST_DIGITS && are_digits(word) && !(1 < len && word[0] == b'0')
}

/// The number that the digits write.
fn digits_value(word: &[u8]) -> u128
    requires digits { list_all is_ascii_digit word.now ≡ true }
    requires few { length word.now ≤ 20 }
    ensures { result ≡ digits_value 10 word.now }
{
    let mut value = 0;
    for byte in word {
        value = value * 10 + u128::from(*byte - b'0');
    }
    value
}

/// The number that the word writes.
#[tactic(auto, unfolding(crate::specs::Form::decimal_of))]
fn decimal_of(word: &[u8]) -> Option<u128>
    ensures { result ≡ spec.decimal_of word.now }
{
    if is_decimal(word) {
        Some(digits_value(word))
    } else {
        None
    }
}

/// The turn that the word writes.
#[tactic(auto, unfolding(crate::specs::Form::turn_of))]
pub fn turn_of(word: &[u8]) -> Option<u64>
    ensures { result ≡ spec.turn_of word.now }
{
    let turn = decimal_of(word)?;
    if 0 < turn && turn <= u64::MAX as u128 {
        Some(turn as u64)
    } else {
        None
    }
}

/// The core that the word writes; 32 for all that no core can have.
#[tactic(auto, unfolding(crate::specs::Form::core_of))]
pub fn core_of(word: &[u8]) -> Option<u32>
    ensures { result ≡ spec.core_of word.now }
{
    let core = decimal_of(word)?;
    if core <= LAST_CORE as u128 {
        Some(core as u32)
    } else {
        Some(LAST_CORE + 1)
    }
}

/// The bytes that the word writes.
#[tactic(auto, unfolding(crate::specs::Form::bytes_of))]
pub fn bytes_of(alloc: Global, word: &[u8]) -> Result<Option<Bytes>, NoMemory>
    ensures { IfOk result (λ found. found ≡ spec.bytes_of word.now) }
{
    if word.len() < 2 || 128 < word.len() {
        return Ok(None);
    }
    match hex::decode(alloc, word) {
        Ok(bytes) => Ok(Some(Bytes::from_vec(bytes))),
        Err(FromHexError::OutOfMemory) => Err(NoMemory),
        Err(_) => Ok(None),
    }
}
