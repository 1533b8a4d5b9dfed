//! The memory reservation block.

ghost use Rattle.std.specs.Prelude.{◌≡◌, ◌≤◌, length, None, MatchResult};
ghost use Rattle.dt_model.specs.Fit as fit;
ghost use Rattle.dt_model.specs.Reserve as spec;
ghost use Rattle.dt_model.specs.Fault.{reserve_fault};
ghost use Rattle.dt_read.specs.Given.{FailsBy, IsMapOf, entries_fault};

use crate::fault::BlobFault;
use byteorder::{BigEndian, ByteOrder};
use dt_model::Reserve;
use std::alloc::Global;

const MOST_ENTRIES: usize = 1024;

const ENTRY_LENGTH: usize = 16;

/// The entry at the front.
#[tactic(auto, unfolding(dt_model::specs::Reserve::entry_of))]
fn entry_at(bytes: &[u8]) -> Reserve
    requires { 16 ≤ length bytes.now }
    ensures { result ≡ spec.entry_of bytes.now }
{
    Reserve {
        address: BigEndian::read_u64(bytes),
        size: BigEndian::read_u64(&bytes[8..]),
    }
}

/// Whether an entry isn't the one that ends the map.
fn is_entry(entry: Reserve) -> bool
    ensures { result ≡ fit.is_entry entry }
{
    !(entry.address == 0 && entry.size == 0)
}

/// The entries up to the one that ends the map, at most so many.
fn entries_of(alloc: Global, most: usize, bytes: &[u8]) -> Result<Vec<Reserve>, BlobFault>
    ensures { MatchResult result
        (λ entries. (entries_fault most bytes.now ≡ None) × IsMapOf most bytes.now entries.items)
        (λ fault. FailsBy fault (entries_fault most bytes.now)) }
{
    let mut entries = Vec::new(alloc);
    let mut rest = bytes;
    while rest.len() >= ENTRY_LENGTH {
        let entry = entry_at(rest);
        if !is_entry(entry) {
            return Ok(entries);
        }
        if entries.len() == most {
            return Err(BlobFault::Rule(6));
        }
        entries.push(entry)?;
        rest = rest.split_at(ENTRY_LENGTH).1;
    }
    Err(BlobFault::Rule(6))
}

/// The entries before the two zeros that end them.
#[tactic(auto, unfolding(dt_model::specs::Fault::reserve_fault))]
pub fn reserve_of(alloc: Global, bytes: &[u8]) -> Result<Vec<Reserve>, BlobFault>
    ensures { MatchResult result
        (λ entries. (reserve_fault bytes.now ≡ None) × IsMapOf 1024 bytes.now entries.items)
        (λ fault. FailsBy fault (reserve_fault bytes.now)) }
{
    entries_of(alloc, MOST_ENTRIES, bytes)
}
