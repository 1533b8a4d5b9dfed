//! Planning the image that a file is.

ghost use Rattle.std.specs.Prelude.{◌≡◌, ◌≤◌, ◌<◌, None, false, true, length, find, IfOk, IfErr, OnOk};
ghost use Rattle.std.specs.List.{list_any};
ghost use Rattle.std.specs.Option.{option_copied};
ghost use Rattle.elf_image.specs.Header as header_spec;
ghost use Rattle.elf_image.specs.Segment as segment_spec;
ghost use Rattle.elf_image.specs.Piece.{piece_limit, is_piece_of, AreOf};
ghost use Rattle.elf_image.specs.Image as spec;

use crate::fault::ImageFault;
use crate::header::{HEADER_SIZE, header_of, is_elf, is_for_others, is_packed};
use crate::image::{Image, PlanPiece};
use crate::segment::{Segment, is_any_segment_bad, is_table_outside, segments_in};
use outside::{Listed, NoMemory};
use std::alloc::Global;

/// Whether the segment is loaded and has the virtual address.
fn has_address(address: u32, segment: &Segment) -> bool
    ensures { result ≡ spec.has_address address segment.now }
{
    let end = u64::from(segment.virtual_at) + u64::from(segment.total);
    segment.is_load() && segment.virtual_at <= address && u64::from(address) < end
}

/// The first of the segments that have the virtual address.
fn first_with(address: u32, segments: &[Segment]) -> Option<&Segment>
    ensures { option_copied result ≡ find (spec.has_address address) segments.now }
{
    segments
        .iter()
        .find(|segment| has_address(address, segment))
}

/// The physical address of the virtual one, which the segment has.
fn physical_of(address: u32, segment: &Segment) -> u64
    requires { segment.now.virtual_at ≤ address }
    ensures { result ≡ spec.physical_of address segment.now }
{
    u64::from(address - segment.virtual_at) + u64::from(segment.at)
}

/// The physical address of the virtual one, by the first of the segments that have it.
#[tactic(auto, using(crate::proofs::Found::below))]
fn physical_in(address: u32, segments: &[Segment]) -> Option<u64>
    ensures { result ≡ spec.physical_in address segments.now }
{
    let segment = first_with(address, segments)?;
    Some(physical_of(address, segment))
}

/// Whether the segment is loaded and has bytes.
fn has_bytes(segment: &Segment) -> bool
    ensures { result ≡ spec.has_bytes segment.now }
{
    segment.is_load() && segment.total > 0
}

/// The piece that the segment is, in a file of this size.
fn piece_of(size: usize, segment: &Segment) -> PlanPiece
    requires load { segment_spec.is_load segment.now ≡ true }
    requires placed { segment_spec.is_bad_segment size segment.now ≡ false }
    ensures value { result ≡ spec.piece_of segment.now }
    ensures fits { is_piece_of size result ≡ true }
{
    let total = u64::from(segment.total);
    PlanPiece {
        at: u64::from(segment.at),
        from: segment.from as usize,
        len: segment.len as usize,
        total,
    }
}

/// The pieces that the segments are, in a file of this size that they fit.
fn pieces_in(
    alloc: Global,
    size: usize,
    segments: &[Segment],
) -> Result<Listed<PlanPiece>, NoMemory>
    requires { list_any (segment_spec.is_bad_segment size) segments.now ≡ false }
    ensures value { IfOk result (λ pieces. pieces ≡ spec.pieces_in segments.now) }
    ensures fits { IfOk result (λ pieces. AreOf size pieces) }
{
    let mut pieces = Listed::new(alloc);
    for segment in segments {
        if has_bytes(segment) {
            pieces.push(piece_of(size, segment))?;
        }
    }
    Ok(pieces)
}

/// The image that the segments of an ELF file are.
#[tactic(auto, unfolding(crate::specs::Image::elf_image, crate::specs::Image::entry_of, crate::specs::Image::segments_fault, crate::specs::Segment::segments_of, crate::specs::Segment::is_inconsistent))]
fn elf_image(alloc: Global, file: &[u8]) -> Result<Image, ImageFault>
    requires { 52 ≤ length file.now }
    ensures kept { OnOk result (spec.segments_fault file.now ≡ None) }
    ensures value { IfOk result (λ image. image ≡ spec.elf_image file.now) }
    ensures broken { IfErr result (λ fault. spec.Says fault (spec.segments_fault file.now)) }
    ensures fits { IfOk result (λ image. AreOf (length file.now) image.pieces) }
{
    let header = header_of(file);
    if is_table_outside(file.len(), &header) {
        return Err(ImageFault::Rule(2));
    }
    let segments = segments_in(alloc, file, &header)?;
    if is_any_segment_bad(file.len(), &segments) {
        return Err(ImageFault::Rule(2));
    }
    match physical_in(header.entry, &segments) {
        Some(entry) => {
            let pieces = pieces_in(alloc, file.len(), &segments)?;
            Ok(Image { pieces, entry })
        }
        None => Err(ImageFault::Rule(3)),
    }
}

/// The image that a file of this size is as it stands.
#[tactic(auto, unfolding(crate::specs::Image::raw_image, crate::specs::Piece::is_piece_of))]
fn raw_image(alloc: Global, size: usize, at: u64) -> Result<Image, NoMemory>
    ensures value { IfOk result (λ image. image ≡ spec.raw_image size at) }
    ensures fits { size < piece_limit → IfOk result (λ image. AreOf size image.pieces) }
{
    let mut pieces = Listed::new(alloc);
    pieces.push(PlanPiece {
        at,
        from: 0,
        len: size,
        total: size as u64,
    })?;
    Ok(Image { pieces, entry: at })
}

/// Whether an ELF file is no image for the machine.
fn is_bad_elf(file: &[u8]) -> bool
    ensures { result ≡ header_spec.is_bad_elf file.now }
{
    file.len() < HEADER_SIZE || is_for_others(&header_of(file))
}

/// What the file of an image says. An ELF file (System V ABI, chapters 4 and 5) says its pieces and its entry, at
/// physical addresses, which for a guest are logical ones; any other file is one piece at the logical address `raw_at`,
/// and begins to run there.
///
/// It is refused by the least of these rules that it breaks: I1, a uImage, what gzip makes, or an ELF file that isn't for
/// this machine; I2, the table or a segment lies outside the file, or a segment has more bytes of the file than in all;
/// I3, no segment has the entry.
#[tactic(auto, unfolding(crate::specs::Image::image_of, crate::specs::Image::first_fault))]
pub fn plan(alloc: Global, file: &[u8], raw_at: u64) -> Result<Image, ImageFault>
    ensures kept { OnOk result (spec.first_fault file.now ≡ None) }
    ensures value { IfOk result (λ image. image ≡ spec.image_of file.now raw_at) }
    ensures broken { IfErr result (λ fault. spec.Says fault (spec.first_fault file.now)) }
    // A raw file of 4 GiB or more is planned too, and its piece is too long for a partition's memory.
    ensures fits { length file.now < piece_limit → IfOk result (λ image. AreOf (length file.now) image.pieces) }
{
    if is_packed(file) {
        return Err(ImageFault::Rule(1));
    }
    if !is_elf(file) {
        return Ok(raw_image(alloc, file.len(), raw_at)?);
    }
    if is_bad_elf(file) {
        return Err(ImageFault::Rule(1));
    }
    elf_image(alloc, file)
}
