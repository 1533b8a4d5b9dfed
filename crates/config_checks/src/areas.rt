//! C7 to C11: areas of real memory.

ghost use Rattle.std.specs.Prelude.{◌≡◌, ◌+◌, ◌-◌, ◌^◌, [], min, sum_by};
ghost use Rattle.std.specs.List.{list_any};
ghost use Rattle.std.specs.Option.{option_copied};
ghost use Rattle.config_checks.specs.Areas as spec;
ghost use Rattle.config_checks.specs.First.{first_meeting};

use crate::bounds::{ADDRESS_END, MOST_BYTES, PAGE_SIZE};
use crate::spot::{Spot, area_spot, list_spot};
use hv_config::{AreaDef, Range};
use machine_desc::ranges_meet;

/// The first address behind a range.
pub fn end_of(at: u64, size: u64) -> u128
    ensures { result ≡ at + size }
{
    u128::from(at) + u128::from(size)
}

/// Whether the area isn't made of whole pages, or of none.
fn is_ragged(area: &AreaDef) -> bool
    ensures { result ≡ spec.is_ragged area.now }
{
    area.base % PAGE_SIZE != 0 || area.size % PAGE_SIZE != 0 || area.size == 0
}

/// C7: the first such area.
#[tactic(auto, unfolding(crate::specs::Areas::ragged_area))]
pub fn ragged_area(areas: &[AreaDef]) -> Option<Spot<'_>>
    ensures { result ≡ spec.ragged_area areas.now }
{
    areas.iter().find(|area| is_ragged(area)).map(area_spot)
}

/// Whether the area goes past the end of all addresses.
fn is_high(area: &AreaDef) -> bool
    ensures { result ≡ spec.is_high area.now }
{
    ADDRESS_END < end_of(area.base, area.size)
}

/// C8: the first such area.
#[tactic(auto, unfolding(crate::specs::Areas::high_area))]
pub fn high_area(areas: &[AreaDef]) -> Option<Spot<'_>>
    ensures { result ≡ spec.high_area areas.now }
{
    areas.iter().find(|area| is_high(area)).map(area_spot)
}

/// Whether the range has the whole area.
fn has_whole(area: &AreaDef, range: &Range) -> bool
    ensures { result ≡ spec.has_whole area.now range.now }
{
    range.at <= area.base && end_of(area.base, area.size) <= end_of(range.at, range.size)
}

/// Whether one of the ranges has the whole area.
fn has_home(memory: &[Range], area: &AreaDef) -> bool
    ensures { result ≡ list_any (spec.has_whole area.now) memory.now }
{
    memory.iter().any(|range| has_whole(area, range))
}

/// Whether none has.
fn is_homeless(memory: &[Range], area: &AreaDef) -> bool
    ensures { result ≡ spec.is_homeless memory.now area.now }
{
    !has_home(memory, area)
}

/// C9: the first area that isn't whole in one range of real memory.
#[tactic(auto, unfolding(crate::specs::Areas::homeless_area))]
pub fn homeless_area<'a>(memory: &[Range], areas: &'a [AreaDef]) -> Option<Spot<'a>>
    ensures { result ≡ spec.homeless_area memory.now areas.now }
{
    areas
        .iter()
        .find(|area| is_homeless(memory, area))
        .map(area_spot)
}

/// Whether some address is in both areas.
fn areas_meet(area: &AreaDef, other: &AreaDef) -> bool
    ensures { result ≡ spec.areas_meet area.now other.now }
{
    ranges_meet(area.base, area.size, other.base, other.size)
}

/// Whether some address is in the area and in one of the others.
fn meets_any(area: &AreaDef, others: &[AreaDef]) -> bool
    ensures { result ≡ list_any (spec.areas_meet area.now) others.now }
{
    others.iter().any(|other| areas_meet(area, other))
}

/// The first area that has an address of an earlier one.
fn first_overlapping(areas: &[AreaDef]) -> Option<&AreaDef>
    ensures { option_copied result ≡ first_meeting spec.areas_meet [] areas.now }
{
    for (i, area) in areas.iter().enumerate() {
        if meets_any(area, &areas[..i]) {
            return Some(area);
        }
    }
    None
}

/// C10: that area.
#[tactic(auto, unfolding(crate::specs::Areas::overlapping_area))]
pub fn overlapping_area(areas: &[AreaDef]) -> Option<Spot<'_>>
    ensures { result ≡ spec.overlapping_area areas.now }
{
    first_overlapping(areas).map(area_spot)
}

/// The sum of the sizes, or as much as a number can say.
fn sum_of(areas: &[AreaDef]) -> u64
    ensures { result ≡ min (sum_by (λ area. area.size) areas.now) (2 ^ 64 - 1) }
{
    let mut sum = 0u64;
    for area in areas {
        sum = sum.saturating_add(area.size);
    }
    sum
}

/// C11: the list of areas, where all together are too large.
#[tactic(auto, unfolding(crate::specs::Areas::large_areas))]
pub fn large_areas(areas: &[AreaDef]) -> Option<Spot<'_>>
    ensures { result ≡ spec.large_areas areas.now }
{
    (MOST_BYTES < sum_of(areas)).then_some(list_spot(0, b"areas"))
}
