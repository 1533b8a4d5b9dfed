//! The bytes that travel in r5 to r8, each register's most significant first.

ghost use Rattle.std.specs.Prelude.{◌≡◌, ◌≤◌, ◌<◌, ℕ, length, slice_index};
ghost use Rattle.arrayvec.specs.ArrayVec.{array_vec_len};
ghost use Rattle.hcall_abi.specs.Payload.{sent_bytes, word_at, words_of};

use arrayvec::ArrayVec;
use guest_regs::{Regs, push_word};

/// The first `count` bytes of r5 to r8, at most sixteen (ePAPR 1.1, chapter 7, byte channels).
#[tactic(auto, unfolding(crate::specs::Payload::payload))]
pub fn sent_bytes(regs: &Regs, count: usize) -> ArrayVec<u8, 16>
    requires { count ≤ 16 }
    ensures bytes { result.items ≡ sent_bytes count regs.now }
    ensures length { array_vec_len result ≡ count }
{
    let mut bytes = ArrayVec::new();
    push_word(&mut bytes, regs.gpr(5));
    push_word(&mut bytes, regs.gpr(6));
    push_word(&mut bytes, regs.gpr(7));
    push_word(&mut bytes, regs.gpr(8));
    bytes.truncate(count);
    bytes
}

/// The byte at a place, and 0 behind the last.
fn byte_or_zero(bytes: &[u8], place: usize) -> u8
    ensures { result ≡ slice_index bytes.now place }
{
    if place < bytes.len() { bytes[place] } else { 0 }
}

/// The word of the four bytes from a place on.
fn word_at(bytes: &[u8], place: usize) -> u32
    requires { place ≤ 12 }
    ensures { result ≡ word_at bytes.now place }
{
    u32::from_be_bytes([
        byte_or_zero(bytes, place),
        byte_or_zero(bytes, place + 1),
        byte_or_zero(bytes, place + 2),
        byte_or_zero(bytes, place + 3),
    ])
}

/// At most sixteen bytes as the words of r5 to r8, with zeros behind the last byte (ePAPR 1.1, chapter 7, byte
/// channels).
pub fn words_of(bytes: &[u8]) -> [u32; 4]
    requires { length bytes.now ≤ 16 }
    ensures { result ≡ words_of bytes.now }
{
    [
        word_at(bytes, 0),
        word_at(bytes, 4),
        word_at(bytes, 8),
        word_at(bytes, 12),
    ]
}
