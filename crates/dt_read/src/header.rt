//! The header, and the blocks that it names.

ghost use Rattle.std.specs.Prelude.{◌≡◌, ◌≤◌, ◌+◌, None, length, drop, MatchResult, IfOk, IfNone};
ghost use Rattle.std.specs.Bool.{OnFalse};
ghost use Rattle.byteorder.specs.Endian.{big_number};
ghost use Rattle.dt_model.specs.Header as spec;
ghost use Rattle.dt_read.specs.Given.{FailsBy};
ghost use Rattle.dt_read.specs.HeaderView.{header_view, AreWithin};

use crate::fault::BlobFault;
use byteorder::{BigEndian, ByteOrder};

const LENGTH: usize = 40;

const MAGIC: u32 = 0xd00d_feed;

const VERSION: u32 = 17;

const MOST_BYTES: u32 = 16_777_216;

/// The header's words (ePAPR 1.1, 8.2). Sizes and places are in bytes.
#[derive(Clone, Copy)]
pub struct Header {
    pub magic: u32,
    pub total_size: u32,
    pub structure_at: u32,
    pub strings_at: u32,
    pub reserve_at: u32,
    pub version: u32,
    pub compatible_version: u32,
    pub boot_cpu: u32,
    pub strings_size: u32,
    pub structure_size: u32,
}

/// The word of the header at an offset.
fn word_at(blob: &[u8], at: usize) -> u32
    requires { at + 4 ≤ length blob.now }
    ensures { result ≡ big_number 4 (drop at blob.now) }
{
    BigEndian::read_u32(&blob[at..])
}

/// The words of the header.
#[tactic(auto, unfolding(dt_model::specs::Header::header_of))]
fn words_of(blob: &[u8]) -> Header
    requires { 40 ≤ length blob.now }
    ensures { header_view result ≡ spec.header_of blob.now }
{
    Header {
        magic: word_at(blob, 0),
        total_size: word_at(blob, 4),
        structure_at: word_at(blob, 8),
        strings_at: word_at(blob, 12),
        reserve_at: word_at(blob, 16),
        version: word_at(blob, 20),
        compatible_version: word_at(blob, 24),
        boot_cpu: word_at(blob, 28),
        strings_size: word_at(blob, 32),
        structure_size: word_at(blob, 36),
    }
}

/// Whether a block begins or ends where it may not.
#[tactic(auto, unfolding(dt_model::specs::Header::is_misplaced))]
fn is_misplaced(header: &Header) -> bool
    ensures value { result ≡ spec.is_misplaced (header_view header.now) }
    ensures within { OnFalse result (AreWithin header.now) }
{
    let total_size = u64::from(header.total_size);
    let structure_end = u64::from(header.structure_at) + u64::from(header.structure_size);
    let strings_end = u64::from(header.strings_at) + u64::from(header.strings_size);
    header.reserve_at < 40
        || header.structure_at < 40
        || header.strings_at < 40
        || total_size < structure_end
        || total_size < strings_end
        || header.structure_at % 4 != 0
        || header.reserve_at % 8 != 0
}

/// The first of the rules B2 to B5 that the header breaks, in a blob of so many bytes.
#[tactic(auto, unfolding(dt_model::specs::Header::words_fault))]
fn fault_of(header: &Header, count: usize) -> Option<u8>
    ensures value { result ≡ spec.words_fault count (header_view header.now) }
    ensures within { IfNone result ((header.now.total_size ≤ count) × AreWithin header.now) }
{
    let total_size = header.total_size as usize;
    if header.magic != MAGIC {
        Some(2)
    } else if header.version < VERSION || header.compatible_version > VERSION {
        Some(3)
    } else if header.total_size < 40 || count < total_size || header.total_size > MOST_BYTES {
        Some(4)
    } else if is_misplaced(header) {
        Some(5)
    } else {
        None
    }
}

/// The header at the front of a blob.
#[tactic(auto, unfolding(dt_model::specs::Header::header_fault))]
pub fn header_of(blob: &[u8]) -> Result<Header, BlobFault>
    ensures value { MatchResult result
        (λ header. (spec.header_fault blob.now ≡ None) × (header_view header ≡ spec.header_of blob.now))
        (λ fault. FailsBy fault (spec.header_fault blob.now)) }
    ensures within { IfOk result (λ header. (header.total_size ≤ length blob.now) × AreWithin header) }
{
    if blob.len() < LENGTH {
        return Err(BlobFault::Rule(1));
    }
    let header = words_of(blob);
    match fault_of(&header, blob.len()) {
        Some(rule) => Err(BlobFault::Rule(rule)),
        None => Ok(header),
    }
}
