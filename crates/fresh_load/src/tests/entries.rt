//! What a completed description begins with.

use crate::describe;
use crate::tests::drafts::{base_of, expect_fit, image_of, region};
use machine_desc::{Desc, Piece};
use std::alloc::Global;
use std::process::Abort;
use std::test::Fail;

/// The file of the image.
const FILE: [u8; 6] = [1, 2, 3, 4, 5, 6];

/// The tree.
const TREE: [u8; 3] = [0xd0, 0x0d, 0xfe];

/// A partition of so many cores, with an image of three pieces, the second without bytes of the file.
fn described(rt: &impl Abort, alloc: Global, cores: u32) -> Result<Desc, Fail> {
    let base = base_of(
        alloc,
        &[region(0, 0x1_0000, 0, true)],
        cores,
        0x8000,
        0x1000,
    )?;
    let image = image_of(
        alloc,
        0x104,
        &[(0x100, 2, 3, 8), (0x200, 99, 0, 16), (0x300, 0, 6, 6)],
    )?;
    expect_fit(rt, &base, &FILE, &image, &TREE);
    Ok(describe(alloc, base, &FILE, image, &TREE)?)
}

/// Whether the piece is this one.
fn is(piece: &Piece, at: u64, bytes: &[u8], len: u32) -> bool {
    piece.at == at && piece.bytes.as_slice() == bytes && piece.len == len
}

/// The spin entry that waits for the core (ePAPR 1.1, 5.5.2).
fn spin_entry(core: u8) -> [u8; 24] {
    [
        0, 0, 0, 0, 0, 0, 0, 1, 0, 0, 0, 0, 0, 0, 0, 0, 0, 0, 0, 0, 0, 0, 0, core,
    ]
}

#[test]
fn image_then_tree(rt: HostRuntime) -> Result<(), Fail> {
    let desc = described(&rt, rt.alloc(), 1)?;
    assert_eq!(rt; desc.entry, 0x104);
    let pieces = desc.pieces.as_slice();
    assert_eq!(rt; pieces.len(), 4);
    assert!(rt; is(&pieces[0], 0x100, &[3, 4, 5], 8));
    assert!(rt; is(&pieces[1], 0x200, &[], 16));
    assert!(rt; is(&pieces[2], 0x300, &FILE, 6));
    assert!(rt; is(&pieces[3], 0x8000, &TREE, 3));
    Ok(())
}

#[test]
fn spin_entries(rt: HostRuntime) -> Result<(), Fail> {
    for cores in [2u32, 8] {
        let desc = described(&rt, rt.alloc(), cores)?;
        let pieces = desc.pieces.as_slice();
        assert_eq!(rt; pieces.len(), cores as usize + 3);
        for (core, at) in [(1u8, 0x8e40), (2, 0x8e80), (7, 0x8fc0)] {
            if u32::from(core) < cores {
                assert!(rt; is(&pieces[usize::from(core) + 3], at, &spin_entry(core), 24));
            }
        }
    }
    Ok(())
}
