//! The real memory under descriptions.

ghost use Rattle.std.specs.Prelude.{◌≡◌, ◌-◌, ◌^◌, ◌==◌, [], length, min, sum, count_by};
ghost use Rattle.std.specs.List.{list_any, list_all};
ghost use Rattle.machine_desc.specs.Joined as spec;
ghost use Rattle.machine_desc.specs.Ranges.{none_meets};

use crate::bounds::MOST_BYTES;
use crate::desc::{Desc, Region};
use crate::ranges::ranges_meet;
use crate::wiring::Wiring;

/// The sum, or as much as a number can say.
fn sum_of(sizes: &[u32]) -> u64
    ensures { result ≡ min (sum sizes.now) (2 ^ 64 - 1) }
{
    let mut total = 0u64;
    for size in sizes {
        total = total.saturating_add(u64::from(*size));
    }
    total
}

/// Whether the range has an address of one of the extents.
#[tactic(auto, using(crate::proofs::Spans::extents))]
fn meets_any(real: u64, size: u32, reals: &[u64], sizes: &[u32]) -> bool
    requires { length reals.now ≡ length sizes.now }
    ensures { result ≡ list_any (spec.spans_meet (record { at = real; size = size })) (spec.extent_spans reals.now sizes.now) }
{
    for (i, other) in reals.iter().enumerate() {
        if ranges_meet(real, u64::from(size), *other, u64::from(sizes[i])) {
            return true;
        }
    }
    false
}

/// Whether no two extents have a real address in common.
#[tactic(auto, using(crate::proofs::Spans::extents))]
fn are_apart(reals: &[u64], sizes: &[u32]) -> bool
    requires { length reals.now ≡ length sizes.now }
    ensures { result ≡ none_meets spec.spans_meet [] (spec.extent_spans reals.now sizes.now) }
{
    for (i, real) in reals.iter().enumerate() {
        if meets_any(*real, sizes[i], &reals[..i], &sizes[..i]) {
            return false;
        }
    }
    true
}

/// Whether the extents are as they must be.
#[tactic(auto, unfolding(crate::specs::Joined::are_extents_sound))]
pub fn are_extents_sound(wiring: &Wiring) -> bool
    ensures { result ≡ spec.are_extents_sound wiring.now }
{
    let sizes = wiring.sizes.as_slice();
    let reals = wiring.reals.as_slice();
    sizes.len() == reals.len() && sum_of(sizes) <= MOST_BYTES && are_apart(reals, sizes)
}

/// Whether the list of sizes has this one there.
fn has_size(sizes: &[u32], place: u32, size: u32) -> bool
    ensures { result ≡ spec.has_at sizes.now place size }
{
    match sizes.get(place as usize) {
        Some(other) => size == *other,
        None => false,
    }
}

/// Whether the list of real addresses has this one there.
fn has_real(reals: &[u64], place: u32, real: u64) -> bool
    ensures { result ≡ spec.has_at reals.now place real }
{
    match reals.get(place as usize) {
        Some(other) => real == *other,
        None => false,
    }
}

/// Whether one of the regions has the extent.
fn have_extent(extent: u32, regions: &[Region]) -> bool
    ensures { result ≡ list_any (λ region. region.extent == extent) regions.now }
{
    regions.iter().any(|region| region.extent == extent)
}

/// Whether the description names the extent.
fn names_extent(extent: u32, desc: &Desc) -> bool
    ensures { result ≡ spec.names_extent extent desc.now }
{
    have_extent(extent, desc.regions.as_slice())
}

/// How many descriptions name the extent.
fn count_of_names(extent: u32, descs: &[Desc]) -> usize
    ensures { result ≡ count_by (spec.names_extent extent) descs.now }
{
    descs
        .iter()
        .filter(|desc| names_extent(extent, desc))
        .count()
}

/// Whether both are set, or none.
pub fn same_bool(one: bool, other: bool) -> bool
    ensures { result ≡ spec.same_bool one other }
{
    if one { other } else { !other }
}

/// Whether the region is an extent, told as it is, and private where no other description names it.
#[tactic(auto, unfolding(crate::specs::Joined::is_region_joined))]
fn is_region_joined(descs: &[Desc], wiring: &Wiring, region: &Region) -> bool
    ensures { result ≡ spec.is_region_joined descs.now wiring.now region.now }
{
    has_size(wiring.sizes.as_slice(), region.extent, region.size)
        && has_real(wiring.reals.as_slice(), region.extent, region.real)
        && same_bool(region.private, count_of_names(region.extent, descs) == 1)
}

/// Whether all these regions are.
fn all_joined(descs: &[Desc], wiring: &Wiring, regions: &[Region]) -> bool
    ensures { result ≡ list_all (spec.is_region_joined descs.now wiring.now) regions.now }
{
    regions
        .iter()
        .all(|region| is_region_joined(descs, wiring, region))
}

/// Whether all regions are.
#[tactic(auto, unfolding(crate::specs::Joined::are_regions_joined))]
pub fn are_regions_joined(descs: &[Desc], wiring: &Wiring) -> bool
    ensures { result ≡ spec.are_regions_joined descs.now wiring.now }
{
    descs
        .iter()
        .all(|desc| all_joined(descs, wiring, desc.regions.as_slice()))
}
