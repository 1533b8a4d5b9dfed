//! C6: lists that are too long.

ghost use Rattle.std.specs.Prelude.{◌≡◌, []};
ghost use Rattle.config_checks.specs.Counts as spec;

use crate::bounds::{
    MOST_AREAS, MOST_BELLS, MOST_CHANNELS, MOST_HANDLES, MOST_PARTITIONS, MOST_REGIONS,
};
use crate::spot::{Spot, earlier, first_list, list_spot, placed};
use hv_config::{AreaDef, BellDef, ChannelDef, Config, PartDef};

/// The list of areas, where it is too long.
#[tactic(auto, unfolding(crate::specs::Counts::many_areas))]
fn many_areas(areas: &[AreaDef]) -> Option<Spot<'_>>
    ensures { result ≡ spec.many_areas areas.now }
{
    (MOST_AREAS < areas.len()).then_some(list_spot(0, b"areas"))
}

/// The list of channels, where it is too long.
#[tactic(auto, unfolding(crate::specs::Counts::many_channels))]
fn many_channels(channels: &[ChannelDef]) -> Option<Spot<'_>>
    ensures { result ≡ spec.many_channels channels.now }
{
    (MOST_CHANNELS < channels.len()).then_some(list_spot(0, b"channels"))
}

/// The list of doorbells, where it is too long.
#[tactic(auto, unfolding(crate::specs::Counts::many_bells))]
fn many_bells(bells: &[BellDef]) -> Option<Spot<'_>>
    ensures { result ≡ spec.many_bells bells.now }
{
    (MOST_BELLS < bells.len()).then_some(list_spot(0, b"doorbells"))
}

/// The first of the partition's two lists that is too long.
fn many_in(part: &PartDef) -> Option<Spot<'_>>
    ensures { result ≡ spec.many_in [] part.now }
{
    first_list(
        part,
        MOST_REGIONS < part.areas.as_slice().len(),
        MOST_HANDLES < part.handles.as_slice().len(),
    )
}

/// The list of partitions, where it is too long, or else the first such list of one.
#[tactic(auto, unfolding(crate::specs::Counts::many_parts))]
fn many_parts(parts: &[PartDef]) -> Option<Spot<'_>>
    ensures { result ≡ spec.many_parts parts.now }
{
    if MOST_PARTITIONS < parts.len() {
        return Some(list_spot(0, b"partitions"));
    }
    for part in parts {
        if let Some(spot) = many_in(part) {
            return Some(spot);
        }
    }
    None
}

/// C6: the first list that is too long.
#[tactic(auto, unfolding(crate::specs::Counts::too_many))]
pub fn too_many(config: &Config) -> Option<Spot<'_>>
    ensures { result ≡ spec.too_many config.now }
{
    earlier(
        placed(config.areas_at, many_areas(config.areas.as_slice())),
        earlier(
            placed(
                config.channels_at,
                many_channels(config.channels.as_slice()),
            ),
            earlier(
                placed(config.bells_at, many_bells(config.bells.as_slice())),
                placed(config.parts_at, many_parts(config.parts.as_slice())),
            ),
        ),
    )
}
