//! Which descriptions are sound.

ghost use Rattle.std.specs.Prelude.{◌≡◌, []};
ghost use Rattle.std.specs.List.{list_any, list_all};
ghost use Rattle.machine_desc.specs.Sound as spec;
ghost use Rattle.machine_desc.specs.Ranges.{none_meets};

use crate::bounds::{ADDRESS_END, MAPPED_END, MOST_CORES, MOST_HANDLES, MOST_REGIONS, PAGE_SIZE};
use crate::desc::{Desc, Piece, Region};
use crate::numbering::are_numbered;
use crate::private::is_private_range;
use crate::ranges::{end_of, ranges_meet};
use crate::spin::are_spin_entries_private;

/// Whether the region is made of whole pages.
fn is_aligned(region: &Region) -> bool
    ensures { result ≡ spec.is_aligned region.now }
{
    region.logical % PAGE_SIZE == 0
        && region.real % PAGE_SIZE == 0
        && u64::from(region.size) % PAGE_SIZE == 0
}

/// Whether its addresses are below the end of all addresses.
fn is_within(region: &Region) -> bool
    ensures { result ≡ spec.is_within region.now }
{
    let size = u64::from(region.size);
    end_of(region.logical, size) <= ADDRESS_END && end_of(region.real, size) <= ADDRESS_END
}

/// Whether some logical address is in both regions.
fn have_address(region: &Region, other: &Region) -> bool
    ensures { result ≡ spec.have_address region.now other.now }
{
    ranges_meet(
        region.logical,
        u64::from(region.size),
        other.logical,
        u64::from(other.size),
    )
}

/// Whether each region is made of whole pages.
fn are_aligned(regions: &[Region]) -> bool
    ensures { result ≡ list_all spec.is_aligned regions.now }
{
    regions.iter().all(|region| is_aligned(region))
}

/// Whether no region is empty.
fn have_bytes(regions: &[Region]) -> bool
    ensures { result ≡ list_all spec.has_bytes regions.now }
{
    regions.iter().all(|region| region.size > 0)
}

/// Whether the addresses of each region are below the end of all addresses.
fn are_within(regions: &[Region]) -> bool
    ensures { result ≡ list_all spec.is_within regions.now }
{
    regions.iter().all(|region| is_within(region))
}

/// Whether the region has a logical address of one of the others.
fn meets_any(region: &Region, others: &[Region]) -> bool
    ensures { result ≡ list_any (spec.have_address region.now) others.now }
{
    others.iter().any(|other| have_address(region, other))
}

/// Whether the region has the extent of one of the others.
fn repeats_extent(region: &Region, others: &[Region]) -> bool
    ensures { result ≡ list_any (spec.have_extent region.now) others.now }
{
    others.iter().any(|other| region.extent == other.extent)
}

/// Whether no two regions have a logical address in common.
fn are_apart(regions: &[Region]) -> bool
    ensures { result ≡ none_meets spec.have_address [] regions.now }
{
    for (i, region) in regions.iter().enumerate() {
        if meets_any(region, &regions[..i]) {
            return false;
        }
    }
    true
}

/// Whether no two regions have the same extent.
fn extents_differ(regions: &[Region]) -> bool
    ensures { result ≡ none_meets spec.have_extent [] regions.now }
{
    for (i, region) in regions.iter().enumerate() {
        if repeats_extent(region, &regions[..i]) {
            return false;
        }
    }
    true
}

/// Whether the regions by themselves are as they must be.
#[tactic(auto, unfolding(crate::specs::Sound::are_regions_sound))]
fn are_regions_sound(regions: &[Region]) -> bool
    ensures { result ≡ spec.are_regions_sound regions.now }
{
    are_aligned(regions)
        && have_bytes(regions)
        && are_within(regions)
        && are_apart(regions)
        && extents_differ(regions)
}

/// Whether there are neither too many regions, handles and cores, nor too few cores.
#[tactic(auto, unfolding(crate::specs::Sound::are_counts_kept))]
fn are_counts_kept(desc: &Desc) -> bool
    ensures { result ≡ spec.are_counts_kept desc.now }
{
    let cores = desc.cores.as_slice().len();
    desc.regions.as_slice().len() <= MOST_REGIONS
        && desc.ports.as_slice().len() <= MOST_HANDLES
        && 1 <= cores
        && cores <= MOST_CORES
}

/// Whether the tree and the first instruction lie where a partition can reach them as it starts.
#[tactic(auto, unfolding(crate::specs::Sound::is_start_mapped))]
fn is_start_mapped(desc: &Desc) -> bool
    ensures { result ≡ spec.is_start_mapped desc.now }
{
    desc.tree_at < MAPPED_END && u64::from(desc.entry) < MAPPED_END && desc.entry % 4 == 0
}

/// Whether the range of each piece is private.
fn are_private(regions: &[Region], pieces: &[Piece]) -> bool
    ensures { result ≡ list_all (spec.is_private_piece regions.now) pieces.now }
{
    pieces.iter().all(|piece| is_private_range(regions, piece.at, u64::from(piece.len)))
}

/// Whether the description can be loaded and run: its regions are whole pages apart from one another, its counts
/// keep the limits, its interrupts are numbered in the order of its handles, it starts in mapped memory, and its
/// pieces and spin entries are private.
#[tactic(auto, unfolding(crate::specs::Sound::is_sound))]
pub fn sound(desc: &Desc) -> bool
    ensures { result ≡ spec.is_sound desc.now }
{
    are_regions_sound(desc.regions.as_slice())
        && are_counts_kept(desc)
        && are_numbered(desc.ports.as_slice())
        && is_start_mapped(desc)
        && are_spin_entries_private(desc)
        && are_private(desc.regions.as_slice(), desc.pieces.as_slice())
}
