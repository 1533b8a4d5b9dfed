//! What a configuration's names name.

ghost use Rattle.std.specs.Prelude.{◌≡◌, position, count_by};
ghost use Rattle.std.specs.List.{list_any};
ghost use Rattle.std.specs.Option.{option_copied};
ghost use Rattle.config_checks.specs.Found as spec;

use hv_config::{AreaDef, BellDef, ChannelDef, Config, GuestAreaDef, Kind, PartDef};

/// The first area with the name.
pub fn area_named<'a>(areas: &'a [AreaDef], name: &[u8]) -> Option<&'a AreaDef>
    ensures { option_copied result ≡ spec.area_named areas.now name.now }
{
    areas.iter().find(|area| area.name.as_slice() == name)
}

/// The size in bytes of the first area with the name, and 0 where there is none.
pub fn size_of(areas: &[AreaDef], name: &[u8]) -> u64
    ensures { result ≡ spec.size_of areas.now name.now }
{
    match area_named(areas, name) {
        Some(area) => area.size,
        None => 0,
    }
}

/// Where the first partition with the name stands in the list.
pub fn part_named(parts: &[PartDef], name: &[u8]) -> Option<usize>
    ensures { result ≡ position (spec.is_part name.now) parts.now }
{
    parts.iter().position(|part| part.name.as_slice() == name)
}

/// Whether there is an area with the name.
pub fn has_area(areas: &[AreaDef], name: &[u8]) -> bool
    ensures { result ≡ spec.has_area areas.now name.now }
{
    areas.iter().any(|area| area.name.as_slice() == name)
}

/// Whether there is a channel with the name.
fn has_channel(channels: &[ChannelDef], name: &[u8]) -> bool
    ensures { result ≡ spec.has_channel channels.now name.now }
{
    channels
        .iter()
        .any(|channel| channel.name.as_slice() == name)
}

/// Whether there is a doorbell with the name.
fn has_bell(bells: &[BellDef], name: &[u8]) -> bool
    ensures { result ≡ spec.has_bell bells.now name.now }
{
    bells.iter().any(|bell| bell.name.as_slice() == name)
}

/// Whether there is a partition with the name.
fn has_part(parts: &[PartDef], name: &[u8]) -> bool
    ensures { result ≡ spec.has_part parts.now name.now }
{
    parts.iter().any(|part| part.name.as_slice() == name)
}

/// Whether there is something of that name such as a handle of the kind stands for.
pub fn has_target(config: &Config, kind: Kind, name: &[u8]) -> bool
    ensures { result ≡ spec.has_target config.now kind name.now }
{
    match kind {
        Kind::Channel => has_channel(config.channels.as_slice(), name),
        Kind::Send => has_bell(config.bells.as_slice(), name),
        Kind::Receive => has_bell(config.bells.as_slice(), name),
        Kind::Manage => has_part(config.parts.as_slice(), name),
    }
}

/// Whether one of the guest areas maps the area.
fn have_area(name: &[u8], guests: &[GuestAreaDef]) -> bool
    ensures { result ≡ list_any (spec.is_mapped_by name.now) guests.now }
{
    guests.iter().any(|guest| guest.area.as_slice() == name)
}

/// Whether the partition maps the area.
fn maps(name: &[u8], part: &PartDef) -> bool
    ensures { result ≡ spec.maps name.now part.now }
{
    have_area(name, part.areas.as_slice())
}

/// How many partitions map the area.
fn count_of_maps(parts: &[PartDef], name: &[u8]) -> usize
    ensures { result ≡ count_by (spec.maps name.now) parts.now }
{
    parts.iter().filter(|part| maps(name, part)).count()
}

/// Whether exactly one of the partitions maps the area with the name.
pub fn is_private(parts: &[PartDef], name: &[u8]) -> bool
    ensures { result ≡ spec.is_private parts.now name.now }
{
    count_of_maps(parts, name) == 1
}
