//! What the bytes of a property's value mean.

ghost use Rattle.std.specs.Prelude.{◌≡◌, List, ℕ, IfSome, IfNone};
ghost use Rattle.std.specs.List.{list_all};
ghost use Rattle.std.specs.Option.{option_copied};
ghost use Rattle.dt_model.specs.Value as spec;
ghost use Rattle.dt_model.specs.Value.{u32_in, u64_in, text_in, IsTextValue};

use byteorder::{BigEndian, ByteOrder};

/// The number in a value of four bytes (ePAPR 1.1, 2.2.4.2), and `None` where it has another length.
pub fn u32_of(value: &[u8]) -> Option<u32>
    ensures { result ≡ u32_in value.now }
{
    if value.len() == 4 {
        Some(BigEndian::read_u32(value))
    } else {
        None
    }
}

/// The number in a value of eight bytes, and `None` where it has another length.
pub fn u64_of(value: &[u8]) -> Option<u64>
    ensures { result ≡ u64_in value.now }
{
    if value.len() == 8 {
        Some(BigEndian::read_u64(value))
    } else {
        None
    }
}

/// Whether the byte is a printable character of ASCII.
fn is_printable(byte: u8) -> bool
    ensures { result ≡ spec.is_printable byte }
{
    0x20 <= byte && byte <= 0x7e
}

/// Whether all of the bytes are.
fn are_printable(bytes: &[u8]) -> bool
    ensures { result ≡ list_all spec.is_printable bytes.now }
{
    bytes.iter().all(|byte| is_printable(*byte))
}

/// The bytes before the last one, where that is a NUL and they are a text.
fn printed_text(value: &[u8]) -> Option<&[u8]>
    ensures some { IfSome result (λ text. IsTextValue value.now text.now) }
    ensures none { IfNone result ((text : List ℕ) → IsTextValue value.now text → ⊥) }
{
    let (last, text) = value.split_last()?;
    if *last == 0 && !text.is_empty() && text.len() <= 255 && are_printable(text) {
        Some(text)
    } else {
        None
    }
}

/// The text in a value without the NUL that ends it. `None` where the value is not 1 to 255 bytes that can be printed
/// (0x20 to 0x7e) and one NUL.
pub fn text_of(value: &[u8]) -> Option<&[u8]>
    ensures exact { option_copied result ≡ text_in value.now }
    ensures some { IfSome result (λ text. IsTextValue value.now text.now) }
    ensures none { IfNone result ((text : List ℕ) → IsTextValue value.now text → ⊥) }
{
    printed_text(value)
}
