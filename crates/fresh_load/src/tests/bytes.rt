//! The bytes that memory begins with.

ghost use Rattle.std.specs.Prelude.{◌≡◌, ◌≤◌, IfOk, sum};
ghost use Rattle.std.specs.List.{list_all};
ghost use Rattle.ground.specs.Extents.{AreSmall};
ghost use Rattle.fresh_load.specs.Placed.{is_placed, sizes_of};

use crate::tests::drafts::{base_of, expect_fit, image_of, piece_of, region};
use crate::{describe, load};
use ground::Ground;
use machine_desc::{Desc, Piece, Region, sound};
use memory_areas::AreaMap;
use outside::{Listed, NoMemory};
use std::alloc::Global;
use std::process::Abort;
use std::test::Fail;

/// What memory has before it is loaded.
const OLD: u8 = 0xee;

/// Extents of these sizes, with old bytes.
#[tactic(auto, using(crate::proofs::Sizes::sizes))]
fn old_memory(alloc: Global, sizes: &[u32]) -> Result<Ground, NoMemory>
    requires { AreSmall sizes.now }
    ensures { IfOk result (λ memory. sizes_of memory ≡ sizes.now) }
{
    let mut memory = Ground::new(alloc, sizes)?;
    for (extent, &size) in sizes.iter().enumerate() {
        memory.fill(extent, 0, size, OLD);
    }
    Ok(memory)
}

/// Whether the region's extent has its size.
#[tactic(auto, using(crate::proofs::Sizes::sizes))]
fn is_there(memory: &Ground, sizes: &[u32], region: &Region) -> bool
    requires { sizes_of memory.now ≡ sizes.now }
    ensures { result ≡ is_placed memory.now region.now }
{
    let extent = region.extent as usize;
    extent < sizes.len() && memory.size(extent) == region.size
}

/// Whether those of all regions do.
fn are_there(memory: &Ground, sizes: &[u32], regions: &[Region]) -> bool
    requires { sizes_of memory.now ≡ sizes.now }
    ensures { result ≡ list_all (is_placed memory.now) regions.now }
{
    regions.iter().all(|region| is_there(memory, sizes, region))
}

/// Old memory with the partition loaded.
fn loaded(rt: &impl Abort, alloc: Global, sizes: &[u32], desc: &Desc) -> Result<Ground, Fail>
    requires { AreSmall sizes.now }
    ensures { IfOk result (λ memory. sizes_of memory ≡ sizes.now) }
{
    assert!(rt; sound(desc));
    let mut memory = old_memory(alloc, sizes)?;
    assert!(rt; are_there(&memory, sizes, desc.regions.as_slice()));
    let map = AreaMap::new(alloc, desc)?;
    load(desc, &map, &mut memory);
    Ok(memory)
}

/// A byte of an extent.
#[tactic(auto, using(crate::proofs::Sizes::sizes))]
fn byte_at(memory: &Ground, sizes: &[u32], extent: usize, at: usize) -> Option<u8>
    requires { sizes_of memory.now ≡ sizes.now }
{
    if extent < sizes.len() {
        memory.view(extent).get(at).copied()
    } else {
        None
    }
}

/// Two private pages side by side, the later one first, and a shared one behind them.
fn regions() -> [Region; 3] {
    [
        region(0x2000, 0x1000, 2, true),
        region(0x1000, 0x1000, 0, true),
        region(0x3000, 0x1000, 1, false),
    ]
}

/// A piece over both pages, one that a later one covers in part, one with more bytes than its length, one at the end of
/// the pages, and one without bytes anywhere.
fn pieces(alloc: Global) -> Result<Vec<Piece>, NoMemory> {
    let mut pieces = Vec::new(alloc);
    pieces.push(piece_of(alloc, 0x1ffe, &[1, 2, 3, 4], 4)?)?;
    pieces.push(piece_of(alloc, 0x1000, &[0x11; 8], 8)?)?;
    pieces.push(piece_of(alloc, 0x1002, &[0x22; 2], 4)?)?;
    pieces.push(piece_of(alloc, 0x2800, &[9; 3], 2)?)?;
    pieces.push(piece_of(alloc, 0x2fff, &[7], 1)?)?;
    pieces.push(piece_of(alloc, 0x3000, &[8], 0)?)?;
    Ok(pieces)
}

/// Bytes by extent and offset.
fn wanted() -> [(usize, usize, u8); 22] {
    [
        (0, 0, 0x11),
        (0, 1, 0x11),
        (0, 2, 0x22),
        (0, 3, 0x22),
        (0, 4, 0),
        (0, 5, 0),
        (0, 6, 0x11),
        (0, 7, 0x11),
        (0, 8, 0),
        (0, 0xffd, 0),
        (0, 0xffe, 1),
        (0, 0xfff, 2),
        (2, 0, 3),
        (2, 1, 4),
        (2, 2, 0),
        (2, 0x7ff, 0),
        (2, 0x800, 9),
        (2, 0x801, 9),
        (2, 0x802, 0),
        (2, 0xfff, 7),
        (1, 0, OLD),
        (1, 0xfff, OLD),
    ]
}

#[test]
fn later_pieces_cover_earlier_ones(rt: HostRuntime) -> Result<(), Fail> {
    let alloc = rt.alloc();
    let base = base_of(alloc, &regions(), 1, 0x1000, 0x1000)?;
    let desc = Desc {
        pieces: Listed::from_vec(pieces(alloc)?),
        ..base
    };
    let sizes = [0x1000u32, 0x1000, 0x1000, 0x1000];
    let memory = loaded(&rt, alloc, &sizes, &desc)?;
    for (extent, at, byte) in wanted() {
        assert_eq!(rt;
            byte_at(&memory, &sizes, extent, at),
            Some(byte),
            "{extent} {at:#x}"
        );
    }
    // an extent of another partition
    assert_eq!(rt; byte_at(&memory, &sizes, 3, 0), Some(OLD));
    Ok(())
}

#[test]
fn image_and_tree(rt: HostRuntime) -> Result<(), Fail> {
    let alloc = rt.alloc();
    let base = base_of(alloc, &[region(0, 0x2000, 0, true)], 2, 0x1000, 0x400)?;
    let file = [0xaa; 28];
    let image = image_of(alloc, 0, &[(0, 0, 28, 64)])?;
    expect_fit(&rt, &base, &file, &image, &[0xd0, 0x0d]);
    let desc = describe(alloc, base, &file, image, &[0xd0, 0x0d])?;
    let sizes = [0x2000u32];
    let memory = loaded(&rt, alloc, &sizes, &desc)?;
    for (at, byte) in [
        (0, 0xaa),
        (27, 0xaa),
        (28, 0),
        (63, 0),
        (64, 0),
        (0x1000, 0xd0),
        (0x1001, 0x0d),
        (0x1002, 0),
        (0x1240, 0),
        (0x1247, 1),
        (0x1256, 0),
        (0x1257, 1),
        (0x1258, 0),
        (0x1fff, 0),
    ] {
        assert_eq!(rt; byte_at(&memory, &sizes, 0, at), Some(byte), "{at:#x}");
    }
    Ok(())
}
