//! C5: names that are too long or reserved, or that name nothing.

ghost use Rattle.std.specs.Prelude.{◌≡◌, find, []};
ghost use Rattle.std.specs.Option.{option_copied};
ghost use Rattle.config_checks.specs.Names as spec;

use crate::bounds::LONGEST_NAME;
use crate::found::{has_area, has_target};
use crate::spot::{
    Spot, area_spot, bell_spot, channel_spot, earlier, first_inner, part_spot, placed,
};
use hv_config::{AreaDef, BellDef, ChannelDef, Config, GuestAreaDef, HandleDef, PartDef};

/// Whether the name has too many characters.
pub fn is_long(name: &[u8]) -> bool
    ensures { result ≡ spec.is_long name.now }
{
    LONGEST_NAME < name.len()
}

/// Whether it is a word that lines of the program begin with, or that stands for a partition in one.
fn is_reserved(name: &[u8]) -> bool
    ensures { result ≡ spec.is_reserved name.now }
{
    name == b"end".as_slice()
        || name == b"console".as_slice()
        || name == b"refused".as_slice()
        || name == b"core".as_slice()
        || name == b"page".as_slice()
        || name == b"gen".as_slice()
        || name == b"accepted".as_slice()
        || name == b"self".as_slice()
}

/// Whether the guest area's name is too long, or there is no area such as it maps.
fn is_misnamed_guest(areas: &[AreaDef], guest: &GuestAreaDef) -> bool
    ensures { result ≡ spec.is_misnamed_guest areas.now guest.now }
{
    is_long(guest.name.as_slice()) || !has_area(areas, guest.area.as_slice())
}

/// Whether the handle's name is too long, or there is nothing such as it stands for.
fn is_misnamed_handle(config: &Config, handle: &HandleDef) -> bool
    ensures { result ≡ spec.is_misnamed_handle config.now handle.now }
{
    is_long(handle.name.as_slice()) || !has_target(config, handle.kind, handle.target.as_slice())
}

/// Whether the partition's own name is too long or reserved.
fn is_misnamed_part(part: &PartDef) -> bool
    ensures { result ≡ spec.is_misnamed_part part.now }
{
    is_long(part.name.as_slice()) || is_reserved(part.name.as_slice())
}

/// The first such guest area.
fn first_guest<'a>(areas: &[AreaDef], guests: &'a [GuestAreaDef]) -> Option<&'a GuestAreaDef>
    ensures { option_copied result ≡ find (spec.is_misnamed_guest areas.now) guests.now }
{
    guests.iter().find(|guest| is_misnamed_guest(areas, guest))
}

/// The first such handle.
fn first_handle<'a>(config: &Config, handles: &'a [HandleDef]) -> Option<&'a HandleDef>
    ensures { option_copied result ≡ find (spec.is_misnamed_handle config.now) handles.now }
{
    handles
        .iter()
        .find(|handle| is_misnamed_handle(config, handle))
}

/// The partition itself, or else the first such node of its two lists.
fn misnamed_in<'a>(config: &'a Config, part: &'a PartDef) -> Option<Spot<'a>>
    ensures { result ≡ spec.misnamed_in config.now [] part.now }
{
    if is_misnamed_part(part) {
        return Some(part_spot(part));
    }
    first_inner(
        part,
        first_guest(config.areas.as_slice(), part.areas.as_slice()),
        first_handle(config, part.handles.as_slice()),
    )
}

/// The first area whose name is too long.
#[tactic(auto, unfolding(crate::specs::Names::misnamed_area))]
fn misnamed_area(areas: &[AreaDef]) -> Option<Spot<'_>>
    ensures { result ≡ spec.misnamed_area areas.now }
{
    areas
        .iter()
        .find(|area| is_long(area.name.as_slice()))
        .map(area_spot)
}

/// The first channel whose name is too long.
#[tactic(auto, unfolding(crate::specs::Names::misnamed_channel))]
fn misnamed_channel(channels: &[ChannelDef]) -> Option<Spot<'_>>
    ensures { result ≡ spec.misnamed_channel channels.now }
{
    channels
        .iter()
        .find(|channel| is_long(channel.name.as_slice()))
        .map(channel_spot)
}

/// The first doorbell whose name is too long.
#[tactic(auto, unfolding(crate::specs::Names::misnamed_bell))]
fn misnamed_bell(bells: &[BellDef]) -> Option<Spot<'_>>
    ensures { result ≡ spec.misnamed_bell bells.now }
{
    bells
        .iter()
        .find(|bell| is_long(bell.name.as_slice()))
        .map(bell_spot)
}

/// The first misnamed node at or in one of the partitions.
#[tactic(auto, unfolding(crate::specs::Names::misnamed_part))]
fn misnamed_part<'a>(config: &'a Config, parts: &'a [PartDef]) -> Option<Spot<'a>>
    ensures { result ≡ spec.misnamed_part config.now parts.now }
{
    for part in parts {
        if let Some(spot) = misnamed_in(config, part) {
            return Some(spot);
        }
    }
    None
}

/// C5: the first misnamed node.
#[tactic(auto, unfolding(crate::specs::Names::misnamed))]
pub fn misnamed(config: &Config) -> Option<Spot<'_>>
    ensures { result ≡ spec.misnamed config.now }
{
    earlier(
        placed(config.areas_at, misnamed_area(config.areas.as_slice())),
        earlier(
            placed(
                config.channels_at,
                misnamed_channel(config.channels.as_slice()),
            ),
            earlier(
                placed(config.bells_at, misnamed_bell(config.bells.as_slice())),
                placed(
                    config.parts_at,
                    misnamed_part(config, config.parts.as_slice()),
                ),
            ),
        ),
    )
}
