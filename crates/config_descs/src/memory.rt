//! The memory of a partition.

ghost use Rattle.std.specs.Prelude.{◌≡◌, IfOk, map, filter, not};
ghost use Rattle.std.specs.List.{list_any};
ghost use Rattle.config_checks.specs.Found.{is_private as private_word};
ghost use Rattle.config_descs.specs.Desc as spec;
ghost use Rattle.config_descs.specs.Limits.{KeepsLimits};

use crate::numbered::{base_of, extent_of, small_size};
use config_checks::{is_private, size_of};
use hv_config::{Config, GuestAreaDef, PartDef};
use machine_desc::{Region, Span};
use outside::{Listed, NoMemory};
use std::alloc::Global;

/// The region that the guest area is.
#[tactic(auto, unfolding(crate::specs::Desc::region_of))]
fn region_of(config: &Config, guest: &GuestAreaDef) -> Region
    requires { KeepsLimits config.now }
    ensures { result ≡ spec.region_of config.now guest.now }
{
    let areas = config.areas.as_slice();
    let name = guest.area.as_slice();
    Region {
        logical: guest.at,
        size: small_size(areas, name),
        extent: extent_of(areas, name),
        real: base_of(areas, name),
        private: is_private(config.parts.as_slice(), name),
    }
}

/// The regions that these guest areas are.
pub fn regions_of(
    alloc: Global,
    config: &Config,
    guests: &[GuestAreaDef],
) -> Result<Listed<Region>, NoMemory>
    requires { KeepsLimits config.now }
    ensures { IfOk result (λ regions. regions ≡ map (spec.region_of config.now) guests.now) }
{
    let mut regions = Listed::new(alloc);
    for guest in guests {
        regions.push(region_of(config, guest))?;
    }
    Ok(regions)
}

/// The logical addresses that the guest area has.
#[tactic(auto, unfolding(crate::specs::Desc::span_of))]
fn span_of(config: &Config, guest: &GuestAreaDef) -> Span
    ensures { result ≡ spec.span_of config.now guest.now }
{
    Span {
        at: guest.at,
        size: size_of(config.areas.as_slice(), guest.area.as_slice()),
    }
}

/// The ranges of the private ones among these guest areas.
fn spans_among(
    alloc: Global,
    config: &Config,
    guests: &[GuestAreaDef],
) -> Result<Listed<Span>, NoMemory>
    ensures { IfOk result (λ spans. spans ≡ map (spec.span_of config.now) (filter (λ guest. private_word config.now.parts guest.area) guests.now)) }
{
    let mut spans = Listed::new(alloc);
    for guest in guests {
        if is_private(config.parts.as_slice(), guest.area.as_slice()) {
            spans.push(span_of(config, guest))?;
        }
    }
    Ok(spans)
}

/// The ranges of the partition's private guest areas, in document order.
#[tactic(auto, unfolding(crate::specs::Desc::private_spans))]
pub fn private_spans(
    alloc: Global,
    config: &Config,
    part: &PartDef,
) -> Result<Listed<Span>, NoMemory>
    ensures { IfOk result (λ spans. spans ≡ spec.private_spans config.now part.now) }
{
    spans_among(alloc, config, part.areas.as_slice())
}

/// Whether one of these guest areas is mapped by another partition too.
fn shares_any(config: &Config, guests: &[GuestAreaDef]) -> bool
    ensures { result ≡ list_any (λ guest. not (private_word config.now.parts guest.area)) guests.now }
{
    guests.iter().any(|guest| !is_private(config.parts.as_slice(), guest.area.as_slice()))
}

/// Whether the partition shares an area with another one.
pub fn shares(config: &Config, part: &PartDef) -> bool
    ensures { result ≡ spec.shares config.now part.now }
{
    shares_any(config, part.areas.as_slice())
}
