//! Words of four and of eight bytes, appended.

ghost use Rattle.std.specs.Prelude.{◌≡◌, ◌^◌, ◌<◌, ◌++◌, OnOk, length, replicate};
ghost use Rattle.byteorder.specs.Endian.{big_bytes};
ghost use Rattle.dt_model.specs.Spelling.{padding, padded};
ghost use Rattle.dt_model.specs.Canonical.{word};

use byteorder::{BigEndian, ByteOrder};
use std::alloc::AllocError;

/// Appends a number in four bytes.
pub fn push_word(out: &mut Vec<u8>, number: u32) -> Result<(), AllocError>
    ensures { OnOk result (out.new.items ≡ out.old.items ++ big_bytes 4 number) }
{
    let mut bytes = [0u8; 4];
    BigEndian::write_u32(&mut bytes, number);
    out.extend_from_slice(&bytes)?;
    Ok(())
}

/// Appends a number in eight bytes.
pub fn push_double(out: &mut Vec<u8>, number: u64) -> Result<(), AllocError>
    ensures { OnOk result (out.new.items ≡ out.old.items ++ big_bytes 8 number) }
{
    let mut bytes = [0u8; 8];
    BigEndian::write_u64(&mut bytes, number);
    out.extend_from_slice(&bytes)?;
    Ok(())
}

/// Appends the zeros that are missing behind so many bytes to a multiple of 4.
pub fn push_padding(out: &mut Vec<u8>, count: usize) -> Result<(), AllocError>
    ensures { OnOk result (out.new.items ≡ out.old.items ++ replicate (padding count) 0) }
{
    for _zero in 0..missing(count) {
        out.push(0)?;
    }
    Ok(())
}

/// How many bytes follow so many up to a multiple of 4.
fn missing(count: usize) -> usize
    ensures { result ≡ padding count }
{
    (4 - count % 4) % 4
}

/// Appends a property whose name stands at that place of the strings block.
pub fn push_property(out: &mut Vec<u8>, place: u32, value: &[u8]) -> Result<(), AllocError>
    requires { length value.now < 2 ^ 32 }
    ensures { OnOk result (out.new.items
        ≡ out.old.items ++ (word 3 ++ (word (length value.now) ++ (word place ++ padded value.now)))) }
{
    push_word(out, 3)?;
    push_word(out, value.len() as u32)?;
    push_word(out, place)?;
    out.extend_from_slice(value)?;
    push_padding(out, value.len())
}
