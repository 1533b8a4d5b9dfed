//! The program headers of an ELF file.

ghost use Rattle.std.specs.Prelude.{◌≡◌, ◌≤◌, ◌+◌, ◌*◌, length, IfOk};
ghost use Rattle.std.specs.Bool.{OnFalse};
ghost use Rattle.std.specs.List.{list_any};
ghost use Rattle.elf_image.specs.Segment as spec;

use crate::header::{Header, ROW_SIZE, word_at};
use outside::NoMemory;
use std::alloc::Global;

/// What of a program header counts (System V ABI, chapter 5, "Program Header").
#[derive(Clone, Copy, Debug)]
pub struct Segment {
    /// p_type: 1 for a segment that is loaded.
    pub kind: u32,
    /// p_offset: where its bytes begin in the file.
    pub from: u32,
    /// p_vaddr: the virtual address of its first byte.
    pub virtual_at: u32,
    /// p_paddr: the physical address of its first byte, which for a guest is a logical one.
    pub at: u32,
    /// p_filesz: how many bytes come from the file.
    pub len: u32,
    /// p_memsz: how many bytes there are in all.
    pub total: u32,
}

impl Segment {
    /// Whether it is loaded.
    pub fn is_load(&self) -> bool
        ensures { result ≡ spec.is_load self.now }
    {
        self.kind == 1
    }
}

/// The segment that the bytes at the front say.
#[tactic(auto, unfolding(crate::specs::Segment::segment_of))]
fn segment_of(row: &[u8]) -> Segment
    requires { 32 ≤ length row.now }
    ensures { result ≡ spec.segment_of row.now }
{
    Segment {
        kind: word_at(row, 0),
        from: word_at(row, 4),
        virtual_at: word_at(row, 8),
        at: word_at(row, 12),
        len: word_at(row, 16),
        total: word_at(row, 20),
    }
}

/// The segment of this number, in a table that begins at this byte.
fn segment_at(file: &[u8], table_at: usize, number: usize) -> Segment
    requires { table_at + 32 * number + 32 ≤ length file.now }
    ensures { result ≡ spec.segment_at file.now table_at number }
{
    segment_of(&file[table_at + ROW_SIZE * number..])
}

/// Whether the table ends behind a file of this size.
#[tactic(auto, unfolding(crate::specs::Segment::is_table_outside))]
pub fn is_table_outside(size: usize, header: &Header) -> bool
    ensures value { result ≡ spec.is_table_outside size header.now }
    ensures within { OnFalse result (header.now.table_at + 32 * header.now.count ≤ size) }
{
    (size as u64) < u64::from(header.table_at) + ROW_SIZE as u64 * u64::from(header.count)
}

/// The segments in the order of the table.
pub fn segments_in(alloc: Global, file: &[u8], header: &Header) -> Result<Vec<Segment>, NoMemory>
    requires { header.now.table_at + 32 * header.now.count ≤ length file.now }
    ensures { IfOk result (λ segments. segments.items ≡ spec.segments_in file.now header.now) }
{
    let table_at = header.table_at as usize;
    let mut segments = Vec::new(alloc);
    for number in 0..header.count as usize {
        segments.push(segment_at(file, table_at, number))?;
    }
    Ok(segments)
}

/// Whether it is loaded and doesn't fit a file of this size.
#[tactic(auto, unfolding(crate::specs::Segment::is_bad_segment))]
fn is_bad_segment(size: usize, segment: &Segment) -> bool
    ensures { result ≡ spec.is_bad_segment size segment.now }
{
    let end = u64::from(segment.from) + u64::from(segment.len);
    segment.is_load() && ((segment.len > 0 && (size as u64) < end) || segment.total < segment.len)
}

/// Whether one of them is loaded and doesn't fit a file of this size.
pub fn is_any_segment_bad(size: usize, segments: &[Segment]) -> bool
    ensures { result ≡ list_any (spec.is_bad_segment size) segments.now }
{
    segments.iter().any(|segment| is_bad_segment(size, segment))
}
