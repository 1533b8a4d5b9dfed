//! One extent of real memory.

ghost use Rattle.std.specs.Prelude.{◌≡◌, ◌+◌, ◌<◌, ◌≤◌, IfOk, length, drop, replicate};
ghost use Rattle.ground.specs.Extents.{written};

use byteorder::{BigEndian, ByteOrder};
use outside::NoMemory;
use std::alloc::Global;
use std::marker::Model;

/// One extent: fewer than 2^32 bytes, whose number never changes.
#[derive(Drop)]
pub struct Extent {
    bytes: Vec<u8>,
}

impl Model for Extent {
    ghost use Rattle.std.specs.Prelude.{ℕ, ◌<◌, ◌^◌, List, length};

    ghost Value = { List ℕ };

    ghost view = { λ extent. extent.bytes.items };

    ghost invariant = { λ extent. length extent.bytes.items < 2 ^ 32 };
}

impl Extent {
    /// So many bytes, all zero.
    pub fn zeroed(alloc: Global, size: u32) -> Result<Extent, NoMemory>
        ensures { IfOk result (λ extent. extent ≡ replicate size 0) }
    {
        let bytes = vec![in alloc; 0u8; size as usize]?;
        Ok(Extent { bytes })
    }

    /// How many bytes it has.
    pub fn size(&self) -> u32
        ensures { result ≡ length self.now }
    {
        self.bytes.len() as u32
    }

    /// All its bytes.
    pub fn bytes(&self) -> &[u8]
        ensures { result.now ≡ self.now }
    {
        self.bytes.as_slice()
    }

    /// The bytes from this offset on.
    pub fn from(&self, at: u32) -> &[u8]
        requires { at ≤ length self.now }
        ensures { result.now ≡ drop at self.now }
    {
        &self.bytes[at as usize..]
    }

    /// Writes the bytes from this offset on.
    pub fn put(&mut self, at: u32, bytes: &[u8])
        requires { at + length bytes.now ≤ length self.old }
        ensures { self.new ≡ written at bytes.now self.old }
    {
        let start = at as usize;
        self.bytes[start..start + bytes.len()].copy_from_slice(bytes);
    }

    /// Writes the same byte so many times from this offset on.
    pub fn fill(&mut self, at: u32, len: u32, byte: u8)
        requires { at + len ≤ length self.old }
        ensures { self.new ≡ written at (replicate len byte) self.old }
    {
        let start = at as usize;
        self.bytes[start..start + len as usize].fill(byte);
    }
}
