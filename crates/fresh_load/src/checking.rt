//! The rules that an image and a device tree keep in a partition.

ghost use Rattle.std.specs.Prelude.{◌≡◌, ◌<◌};
ghost use Rattle.std.specs.List.{list_any};
ghost use Rattle.fresh_load.specs.Described as spec;

use crate::bounds::{MAPPED_END, SPIN_ROOM};
use elf_image::{Image, PlanPiece};
use machine_desc::{Desc, Region, is_private_range, ranges_meet};

/// Whether some piece isn't private.
fn is_any_not_private(regions: &[Region], pieces: &[PlanPiece]) -> bool
    ensures { result ≡ list_any (spec.is_not_private regions.now) pieces.now }
{
    pieces
        .iter()
        .any(|piece| !is_private_range(regions, piece.at, piece.total))
}

/// Whether a partition can't start there.
fn is_bad_entry(regions: &[Region], entry: u64) -> bool
    ensures { result ≡ spec.is_bad_entry regions.now entry }
{
    !(entry % 4 == 0 && entry < MAPPED_END && is_private_range(regions, entry, 1))
}

/// How many bytes of the window aren't for the tree.
fn spin_bytes(base: &Desc) -> u128
    ensures { result ≡ spec.spin_bytes base.now }
{
    if base.cores.as_slice().len() > 1 {
        SPIN_ROOM
    } else {
        0
    }
}

/// Whether the window has too few bytes for the tree.
fn is_too_long(base: &Desc, tree: &[u8]) -> bool
    ensures { result ≡ spec.is_too_long base.now tree.now }
{
    u128::from(base.tree_size) < tree.len() as u128 + spin_bytes(base)
}

/// Whether some piece has a byte in the window.
fn is_any_in_window(base: &Desc, pieces: &[PlanPiece]) -> bool
    ensures { result ≡ list_any (spec.is_in_window base.now) pieces.now }
{
    pieces.iter().any(|piece| ranges_meet(piece.at, piece.total, base.tree_at, base.tree_size))
}

/// The least of the rules I4 to I7 that is broken.
#[tactic(auto, unfolding(crate::specs::Described::first_fault))]
pub fn first_fault(base: &Desc, image: &Image, tree: &[u8]) -> Option<u8>
    ensures { result ≡ spec.first_fault base.now image.now tree.now }
{
    let regions = base.regions.as_slice();
    let pieces = image.pieces.as_slice();
    if is_any_not_private(regions, pieces) {
        Some(4)
    } else if is_bad_entry(regions, image.entry) {
        Some(5)
    } else if is_too_long(base, tree) {
        Some(6)
    } else if is_any_in_window(base, pieces) {
        Some(7)
    } else {
        None
    }
}
