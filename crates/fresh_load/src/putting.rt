//! Putting pieces into a region's bytes.

ghost use Rattle.std.specs.Prelude.{◌≡◌, ◌+◌, ◌≤◌, ◌<◌, ◌^◌, IsTrue, take, drop};
ghost use Rattle.machine_desc.specs.Sound.{is_within};
ghost use Rattle.ground.specs.Extents.{extent_at, with_extent, after_write, HasRange};
ghost use Rattle.fresh_load.specs.Loading as spec;
ghost use Rattle.fresh_load.specs.Placed.{is_placed};

use ground::Ground;
use machine_desc::{Piece, Region, ranges_meet};

/// So many of the bytes from there on, or fewer where there are fewer.
fn part_of(bytes: &[u8], from: usize, count: usize) -> &[u8]
    ensures { result.now ≡ take count (drop from bytes.now) }
{
    let rest = &bytes[from.min(bytes.len())..];
    &rest[..count.min(rest.len())]
}

/// Writes `count` bytes at an offset of an extent: those from `from` on, and zeros where there are fewer.
fn put_part(bytes: &[u8], from: usize, extent: usize, at: u32, count: u32, memory: &mut Ground)
    requires range { HasRange memory.old extent at count }
    requires small { at + count < 2 ^ 32 }
    ensures { memory.new ≡ after_write memory.old extent at (spec.padded_part bytes.now from count) }
{
    let own = part_of(bytes, from, count as usize);
    let len = own.len() as u32;
    memory.put(extent, at, own);
    memory.fill(extent, at + len, count - len, 0);
}

/// Puts the part of the piece that lies in the region over the region's bytes.
pub fn put_piece(piece: &Piece, region: &Region, memory: &mut Ground)
    requires placed { IsTrue (is_placed memory.old region.now) }
    requires within { IsTrue (is_within region.now) }
    ensures { memory.new ≡ with_extent memory.old region.now.extent
        (spec.bytes_over piece.now region.now.logical (extent_at memory.old region.now.extent)) }
{
    let len = u64::from(piece.len);
    let size = u64::from(region.size);
    if ranges_meet(piece.at, len, region.logical, size) {
        let from = piece.at.max(region.logical);
        let end = (piece.at + len).min(region.logical + size);
        put_part(
            piece.bytes.as_slice(),
            (from - piece.at) as usize,
            region.extent as usize,
            (from - region.logical) as u32,
            (end - from) as u32,
            memory,
        );
    }
}
