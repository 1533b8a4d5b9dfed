//! Filling the private memory of a partition.

ghost use Rattle.std.specs.Prelude.{◌≡◌, ℕ, true, false, IsTrue, All};
ghost use Rattle.machine_desc.specs.declared.desc.Region.{Region as RegionValue};
ghost use Rattle.machine_desc.specs.Sound.{is_within, IsSound};
ghost use Rattle.memory_areas.specs.Kept.{AreWithin};
ghost use Rattle.ground.specs.Extents.{extent_at, with_extent};
ghost use Rattle.ground.specs.Own.{own_of};
ghost use Rattle.fresh_load.specs.Fresh as spec;
ghost use Rattle.fresh_load.specs.Loading.{loaded, region_loaded};
ghost use Rattle.fresh_load.specs.Placed.{is_placed, ArePlaced, AreSharedZero, extents_of, is_private_extent, sizes_of};

use crate::putting::put_piece;
use ground::Ground;
use machine_desc::{Desc, Piece, Region};
use memory_areas::AreaMap;

/// Fills the region with what the pieces say, over zeros.
fn fill_region(pieces: &[Piece], region: &Region, memory: &mut Ground)
    requires placed { IsTrue (is_placed memory.old region.now) }
    requires within { IsTrue (is_within region.now) }
    ensures { memory.new ≡ with_extent memory.old region.now.extent (spec.fresh_bytes pieces.now region.now) }
{
    memory.fill(region.extent as usize, 0, region.size, 0);
    for piece in pieces {
        put_piece(piece, region, memory);
    }
}

/// Fills the region where it is private.
fn load_region(pieces: &[Piece], region: &Region, memory: &mut Ground)
    requires placed { IsTrue (is_placed memory.old region.now) }
    requires within { IsTrue (is_within region.now) }
    ensures { memory.new ≡ region_loaded pieces.now region.now memory.old }
{
    if region.private {
        fill_region(pieces, region, memory);
    }
}

/// Fills each of the regions that is private.
fn load_regions(pieces: &[Piece], regions: &[Region], memory: &mut Ground)
    requires placed { ArePlaced memory.old regions.now }
    requires within { AreWithin regions.now }
    ensures { memory.new ≡ loaded pieces.now regions.now memory.old }
{
    for region in regions {
        load_region(pieces, region, memory);
    }
}

/// Fills the private memory of a partition: each byte with that of the last piece that covers its logical address, and
/// with zero where none does. Shared regions and the extents of other partitions stay as they are. Takes no memory, and
/// the time of the bytes that it writes.
pub fn reload(desc: &Desc, memory: &mut Ground)
    requires sound { IsSound desc.now }
    requires placed { ArePlaced memory.old desc.now.regions }
    ensures private { All (λ (region : RegionValue). region.private ≡ true
        → extent_at memory.new region.extent ≡ spec.fresh_bytes desc.now.pieces region) desc.now.regions }
    ensures others { (extent : ℕ) → is_private_extent desc.now.regions extent ≡ false
        → extent_at memory.new extent ≡ extent_at memory.old extent }
    ensures sizes { sizes_of memory.new ≡ sizes_of memory.old }
    ensures placed { ArePlaced memory.new desc.now.regions }
    ensures own { own_of (extents_of desc.now.regions) memory.new
        ≡ spec.reloaded desc.now.pieces desc.now.regions (own_of (extents_of desc.now.regions) memory.old) }
{
    load_regions(desc.pieces.as_slice(), desc.regions.as_slice(), memory);
}

/// Fills the private memory of a partition for the first time, as `reload` does at any time.
///
/// The map isn't asked: a region is the whole of its extent, so its own numbers say where its bytes lie.
pub fn load(desc: &Desc, map: &AreaMap, memory: &mut Ground)
    requires sound { IsSound desc.now }
    requires map { map.now ≡ desc.now.regions }
    requires placed { ArePlaced memory.old desc.now.regions }
    ensures private { All (λ (region : RegionValue). region.private ≡ true
        → extent_at memory.new region.extent ≡ spec.fresh_bytes desc.now.pieces region) desc.now.regions }
    ensures others { (extent : ℕ) → is_private_extent desc.now.regions extent ≡ false
        → extent_at memory.new extent ≡ extent_at memory.old extent }
    ensures sizes { sizes_of memory.new ≡ sizes_of memory.old }
    ensures placed { ArePlaced memory.new desc.now.regions }
    ensures fresh { AreSharedZero memory.old desc.now.regions
        → own_of (extents_of desc.now.regions) memory.new ≡ spec.fresh_memory desc.now }
{
    reload(desc, memory);
}
