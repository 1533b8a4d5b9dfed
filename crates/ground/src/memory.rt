//! Real memory as its extents.

ghost use Rattle.std.specs.Prelude.{◌≡◌, ◌≢◌, ◌<◌, IfOk, length, replicate};
ghost use Rattle.ground.specs.Extents.{extent_at, bytes_at, number_at, after_write, after_store, zero_extents, HasRange, AreSmall};

use crate::extent::Extent;
use byteorder::{BigEndian, ByteOrder};
use outside::NoMemory;
use std::alloc::Global;
use std::marker::Model;

/// Real memory: extents of bytes. An extent is named by its number, counted from 0 in the order of the
/// sizes that `new` was given, and a place in it by an offset in bytes from its start: `at` is such an
/// offset, and no address of any kind. A number lies with its highest byte first, at any offset: none has
/// to be aligned. No call but `new` takes memory, and no other fails.
#[derive(Drop)]
pub struct Ground {
    extents: Vec<Extent>,
}

impl Model for Ground {
    ghost use Rattle.std.specs.Prelude.{ℕ, List};

    ghost Value = { List (List ℕ) };

    ghost view = { λ memory. memory.extents.items };
}

impl Ground {
    /// Extents of these sizes in bytes, all zero, together a GiB at most. Takes all the memory here; fails
    /// only where memory runs out.
    pub fn new(alloc: Global, sizes: &[u32]) -> Result<Ground, NoMemory>
        requires { AreSmall sizes.now }
        ensures { IfOk result (λ memory. memory ≡ zero_extents sizes.now) }
    {
        let mut extents = Vec::with_capacity(alloc, sizes.len())?;
        for &size in sizes {
            extents.push(Extent::zeroed(alloc, size)?)?;
        }
        Ok(Ground { extents })
    }

    /// How many bytes an extent has.
    pub fn size(&self, extent: usize) -> u32
        requires { extent < length self.now }
        ensures { result ≡ length (extent_at self.now extent) }
    {
        self.extents[extent].size()
    }

    /// The byte at an offset.
    pub fn load8(&self, extent: usize, at: u32) -> u8
        requires { HasRange self.now extent at 1 }
        ensures { result ≡ number_at self.now extent at 1 }
    {
        self.view(extent)[at as usize]
    }

    /// The number in the two bytes from an offset on.
    pub fn load16(&self, extent: usize, at: u32) -> u16
        requires { HasRange self.now extent at 2 }
        ensures { result ≡ number_at self.now extent at 2 }
    {
        BigEndian::read_u16(self.extents[extent].from(at))
    }

    /// The number in the four bytes from an offset on.
    pub fn load32(&self, extent: usize, at: u32) -> u32
        requires { HasRange self.now extent at 4 }
        ensures { result ≡ number_at self.now extent at 4 }
    {
        BigEndian::read_u32(self.extents[extent].from(at))
    }

    /// Writes a byte at an offset.
    pub fn store8(&mut self, extent: usize, at: u32, value: u8)
        requires { HasRange self.old extent at 1 }
        ensures { self.new ≡ after_store self.old extent at 1 value }
    {
        self.put(extent, at, &[value]);
    }

    /// Writes a number in the two bytes from an offset on.
    pub fn store16(&mut self, extent: usize, at: u32, value: u16)
        requires { HasRange self.old extent at 2 }
        ensures { self.new ≡ after_store self.old extent at 2 value }
    {
        let mut bytes = [0u8; 2];
        BigEndian::write_u16(&mut bytes, value);
        self.put(extent, at, &bytes);
    }

    /// Writes a number in the four bytes from an offset on.
    pub fn store32(&mut self, extent: usize, at: u32, value: u32)
        requires { HasRange self.old extent at 4 }
        ensures { self.new ≡ after_store self.old extent at 4 value }
    {
        let mut bytes = [0u8; 4];
        BigEndian::write_u32(&mut bytes, value);
        self.put(extent, at, &bytes);
    }

    /// Writes bytes from an offset on.
    pub fn put(&mut self, extent: usize, at: u32, bytes: &[u8])
        requires { HasRange self.old extent at (length bytes.now) }
        ensures { self.new ≡ after_write self.old extent at bytes.now }
    {
        self.extents[extent].put(at, bytes);
    }

    /// Writes the same byte `len` times from an offset on.
    pub fn fill(&mut self, extent: usize, at: u32, len: u32, byte: u8)
        requires { HasRange self.old extent at len }
        ensures { self.new ≡ after_write self.old extent at (replicate len byte) }
    {
        self.extents[extent].fill(at, len, byte);
    }

    /// Copies `len` bytes from an offset of one extent to an offset of another.
    #[tactic(auto, using(crate::proofs::Parts::copied_late, crate::proofs::Parts::copied_early))]
    pub fn copy(&mut self, from: usize, from_at: u32, to: usize, to_at: u32, len: u32)
        requires apart { from ≢ to }
        requires read { HasRange self.old from from_at len }
        requires written { HasRange self.old to to_at len }
        ensures { self.new ≡ after_write self.old to to_at (bytes_at self.old from from_at len) }
    {
        let count = len as usize;
        if from < to {
            let (low, high) = self.extents.split_at_mut(to);
            high[0].put(to_at, &low[from].from(from_at)[..count]);
        } else {
            let (low, high) = self.extents.split_at_mut(from);
            low[to].put(to_at, &high[0].from(from_at)[..count]);
        }
    }

    /// The bytes of an extent.
    pub fn view(&self, extent: usize) -> &[u8]
        requires { extent < length self.now }
        ensures { result.now ≡ extent_at self.now extent }
    {
        self.extents[extent].bytes()
    }
}
