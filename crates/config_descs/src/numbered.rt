//! Areas and partitions by their numbers.

ghost use Rattle.std.specs.Prelude.{◌≡◌, ◌≤◌, position, length, sum_by};
ghost use Rattle.std.specs.Option.{option_copied};
ghost use Rattle.machine_desc.specs.Limits.{most_bytes};
ghost use Rattle.config_checks.specs.Found.{is_area, size_of as size_word};
ghost use Rattle.config_checks.specs.Limits.{most_areas};
ghost use Rattle.config_descs.specs.Numbered as spec;

use config_checks::{area_named, part_named, size_of};
use hv_config::{AreaDef, PartDef};

/// The place of the area in the list.
fn area_position(areas: &[AreaDef], name: &[u8]) -> Option<usize>
    ensures { result ≡ position (is_area name.now) areas.now }
{
    areas.iter().position(|area| area.name.as_slice() == name)
}

/// The number of the area's extent.
pub fn extent_of(areas: &[AreaDef], name: &[u8]) -> u32
    requires { length areas.now ≤ most_areas }
    ensures { result ≡ spec.extent_of areas.now name.now }
{
    match area_position(areas, name) {
        Some(number) => number as u32,
        None => 0,
    }
}

/// The real address of the area's first byte.
pub fn base_of(areas: &[AreaDef], name: &[u8]) -> u64
    ensures { result ≡ spec.base_of areas.now name.now }
{
    match area_named(areas, name) {
        Some(area) => area.base,
        None => 0,
    }
}

/// The area's size in bytes, where all areas together have at most 1 GiB.
pub fn small_size(areas: &[AreaDef], name: &[u8]) -> u32
    requires { sum_by (λ area. area.size) areas.now ≤ most_bytes }
    ensures { result ≡ size_word areas.now name.now }
{
    size_of(areas, name) as u32
}

/// The partition's number.
pub fn number_of(parts: &[PartDef], name: &[u8]) -> usize
    ensures { result ≡ spec.number_of parts.now name.now }
{
    part_named(parts, name).unwrap_or(0)
}

/// The partition with the name.
pub fn part_at<'a>(parts: &'a [PartDef], name: &[u8]) -> Option<&'a PartDef>
    ensures { option_copied result ≡ spec.part_named parts.now name.now }
{
    parts.iter().find(|part| part.name.as_slice() == name)
}
