//! What joins the partitions.

ghost use Rattle.std.specs.Prelude.{◌≡◌, ◌≤◌, All, IfOk, map, length, sum_by};
ghost use Rattle.std.specs.List.{filter_map};
ghost use Rattle.machine_desc.specs.Limits.{most_handles, most_bytes};
ghost use Rattle.config_descs.specs.Wired as spec;
ghost use Rattle.config_descs.specs.Limits.{KeepsLimits};

use crate::refs::refs_of;
use hv_config::{AreaDef, BellDef, ChannelDef, Config, Kind, PartDef};
use machine_desc::{Bell, End, Link, PortRef, Wiring};
use outside::{Bytes, Listed, NoMemory};
use std::alloc::Global;

/// The link between the handles, or between the handle and the console.
fn link_of(refs: &[PortRef], console: Option<usize>) -> Link
    ensures { result ≡ spec.link_of refs.now console }
{
    match (refs, console) {
        ([a, b, ..], _) => Link {
            a: End::Part(*a),
            b: End::Part(*b),
        },
        ([a], Some(number)) => Link {
            a: End::Part(*a),
            b: End::Console(number),
        },
        _ => Link {
            a: End::Console(0),
            b: End::Console(0),
        },
    }
}

/// The channel's console, where the next console has this number.
fn console_of(number: usize, channel: &ChannelDef) -> Option<usize>
    ensures { result ≡ spec.console_of number channel.now }
{
    if channel.console.is_some() {
        Some(number)
    } else {
        None
    }
}

/// The links that the channels are.
fn links_of(
    alloc: Global,
    parts: &[PartDef],
    channels: &[ChannelDef],
) -> Result<Listed<Link>, NoMemory>
    requires { All (λ part. length part.handles ≤ most_handles) parts.now }
    ensures { IfOk result (λ links. links ≡ spec.links_from parts.now 0 channels.now) }
{
    let mut links = Listed::new(alloc);
    let mut number = 0usize;
    for channel in channels {
        let refs = refs_of(alloc, parts, Kind::Channel, channel.name.as_slice())?;
        links.push(link_of(refs.as_slice(), console_of(number, channel)))?;
        number = if channel.console.is_some() {
            number + 1
        } else {
            number
        };
    }
    Ok(links)
}

/// The doorbell, by the handles on it.
#[tactic(auto, unfolding(crate::specs::Wired::bell_of))]
fn bell_of(alloc: Global, parts: &[PartDef], bell: &BellDef) -> Result<Bell, NoMemory>
    requires { All (λ part. length part.handles ≤ most_handles) parts.now }
    ensures { IfOk result (λ made. made ≡ spec.bell_of parts.now bell.now) }
{
    let name = bell.name.as_slice();
    Ok(Bell {
        senders: Listed::from_vec(refs_of(alloc, parts, Kind::Send, name)?),
        receivers: Listed::from_vec(refs_of(alloc, parts, Kind::Receive, name)?),
    })
}

/// All doorbells.
fn bells_of(alloc: Global, parts: &[PartDef], bells: &[BellDef]) -> Result<Listed<Bell>, NoMemory>
    requires { All (λ part. length part.handles ≤ most_handles) parts.now }
    ensures { IfOk result (λ made. made ≡ map (spec.bell_of parts.now) bells.now) }
{
    let mut made = Listed::new(alloc);
    for bell in bells {
        made.push(bell_of(alloc, parts, bell)?)?;
    }
    Ok(made)
}

/// The first of the handles.
fn first_ref(refs: &[PortRef]) -> Option<PortRef>
    ensures { result ≡ spec.first_ref refs.now }
{
    match refs {
        [first, ..] => Some(*first),
        [] => None,
    }
}

/// The handle that manages the partition.
#[tactic(auto, unfolding(crate::specs::Wired::manager_of))]
fn manager_of(alloc: Global, parts: &[PartDef], part: &PartDef) -> Result<Option<PortRef>, NoMemory>
    requires { All (λ part. length part.handles ≤ most_handles) parts.now }
    ensures { IfOk result (λ found. found ≡ spec.manager_of parts.now part.now) }
{
    let refs = refs_of(alloc, parts, Kind::Manage, part.name.as_slice())?;
    Ok(first_ref(refs.as_slice()))
}

/// The handles that manage the partitions.
fn managers_of(alloc: Global, parts: &[PartDef]) -> Result<Listed<Option<PortRef>>, NoMemory>
    requires { All (λ part. length part.handles ≤ most_handles) parts.now }
    ensures { IfOk result (λ found. found ≡ map (spec.manager_of parts.now) parts.now) }
{
    let mut found = Listed::new(alloc);
    for part in parts {
        found.push(manager_of(alloc, parts, part)?)?;
    }
    Ok(found)
}

/// The names of the consoles.
fn consoles_of(alloc: Global, channels: &[ChannelDef]) -> Result<Listed<Bytes>, NoMemory>
    ensures { IfOk result (λ names. names ≡ filter_map (λ channel. channel.console) channels.now) }
{
    let mut names = Listed::new(alloc);
    for channel in channels {
        if let Some(console) = &channel.console {
            names.push(Bytes::of(alloc, console.as_slice())?)?;
        }
    }
    Ok(names)
}

/// The sizes of the areas.
fn sizes_of(alloc: Global, areas: &[AreaDef]) -> Result<Listed<u32>, NoMemory>
    requires { sum_by (λ area. area.size) areas.now ≤ most_bytes }
    ensures { IfOk result (λ sizes. sizes ≡ map (λ area. area.size) areas.now) }
{
    let mut sizes = Listed::new(alloc);
    for area in areas {
        sizes.push(area.size as u32)?;
    }
    Ok(sizes)
}

/// The real addresses of the areas.
fn reals_of(alloc: Global, areas: &[AreaDef]) -> Result<Listed<u64>, NoMemory>
    ensures { IfOk result (λ reals. reals ≡ map (λ area. area.base) areas.now) }
{
    let mut reals = Listed::new(alloc);
    for area in areas {
        reals.push(area.base)?;
    }
    Ok(reals)
}

/// What joins the partitions: extents are the areas in document order, and links, doorbells, managers and consoles
/// stand in the order of the channels, doorbells, partitions and channels.
#[tactic(auto, unfolding(crate::specs::Wired::wiring_of))]
pub fn wiring_of(alloc: Global, config: &Config) -> Result<Wiring, NoMemory>
    requires { KeepsLimits config.now }
    ensures { IfOk result (λ wiring. wiring ≡ spec.wiring_of config.now) }
{
    let areas = config.areas.as_slice();
    let parts = config.parts.as_slice();
    let channels = config.channels.as_slice();
    Ok(Wiring {
        sizes: sizes_of(alloc, areas)?,
        reals: reals_of(alloc, areas)?,
        links: links_of(alloc, parts, channels)?,
        bells: bells_of(alloc, parts, config.bells.as_slice())?,
        managers: managers_of(alloc, parts)?,
        consoles: consoles_of(alloc, channels)?,
    })
}
