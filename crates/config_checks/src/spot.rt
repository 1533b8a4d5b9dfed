//! Nodes of a configuration that break a rule, and which of two stands first.

ghost use Rattle.std.specs.Prelude.{◌≡◌};
ghost use Rattle.std.specs.Option.{option_copied};
ghost use Rattle.config_checks.specs.Spot as spec;

use crate::path::Path;
use hv_config::{AreaDef, BellDef, ChannelDef, GuestAreaDef, HandleDef, PartDef};
use std::marker::Model;

/// A node, and where the list that it belongs to stands among the root's children: 0 where lists aren't compared.
#[derive(Drop)]
pub struct Spot<'a> {
    pub place: usize,
    pub path: Path<'a>,
}

impl<'a> Model for Spot<'a> {
    ghost use Rattle.config_checks.specs.Spot.{Spot as SpotValue};
    ghost use Rattle.config_checks.specs.Path.{bytes_of};

    ghost Value = { SpotValue };

    ghost view = { λ spot. record { place = spot.place; path = bytes_of spot.path } };
}

/// A list of the root itself, which stands there.
pub fn list_spot<'a>(place: usize, list: &'a [u8]) -> Spot<'a>
    ensures { result ≡ spec.list_spot place list.now }
{
    Spot {
        place,
        path: Path::List(list),
    }
}

/// A node of a list of the root.
fn entry_spot<'a>(list: &'a [u8], name: &'a [u8]) -> Spot<'a>
    ensures { result ≡ spec.entry_spot list.now name.now }
{
    Spot {
        place: 0,
        path: Path::Entry(list, name),
    }
}

/// A node of a list of the partition.
fn inner_spot<'a>(part: &'a PartDef, list: &'a [u8], name: &'a [u8]) -> Spot<'a>
    ensures { result ≡ spec.inner_spot part.now list.now name.now }
{
    Spot {
        place: 0,
        path: Path::Inner(part.name.as_slice(), list, name),
    }
}

/// A list of the partition itself.
fn inner_list_spot<'a>(part: &'a PartDef, list: &'a [u8]) -> Spot<'a>
    ensures { result ≡ spec.inner_list_spot part.now list.now }
{
    Spot {
        place: 0,
        path: Path::InnerList(part.name.as_slice(), list),
    }
}

/// The area's node.
pub fn area_spot(area: &AreaDef) -> Spot<'_>
    ensures { result ≡ spec.area_spot area.now }
{
    entry_spot(b"areas", area.name.as_slice())
}

/// The channel's node.
pub fn channel_spot(channel: &ChannelDef) -> Spot<'_>
    ensures { result ≡ spec.channel_spot channel.now }
{
    entry_spot(b"channels", channel.name.as_slice())
}

/// The doorbell's node.
pub fn bell_spot(bell: &BellDef) -> Spot<'_>
    ensures { result ≡ spec.bell_spot bell.now }
{
    entry_spot(b"doorbells", bell.name.as_slice())
}

/// The partition's node.
pub fn part_spot(part: &PartDef) -> Spot<'_>
    ensures { result ≡ spec.part_spot part.now }
{
    entry_spot(b"partitions", part.name.as_slice())
}

/// The node of a guest area of the partition.
pub fn guest_spot<'a>(part: &'a PartDef, guest: &'a GuestAreaDef) -> Spot<'a>
    ensures { result ≡ spec.guest_spot part.now guest.now }
{
    inner_spot(part, b"areas", guest.name.as_slice())
}

/// The node of a handle of the partition.
pub fn handle_spot<'a>(part: &'a PartDef, handle: &'a HandleDef) -> Spot<'a>
    ensures { result ≡ spec.handle_spot part.now handle.now }
{
    inner_spot(part, b"handles", handle.name.as_slice())
}

/// What was found, in the list that stands there.
#[tactic(auto, unfolding(crate::specs::Spot::placed, crate::specs::Spot::at_place))]
pub fn placed<'a>(place: usize, spot: Option<Spot<'a>>) -> Option<Spot<'a>>
    ensures { result ≡ spec.placed place spot.entry }
{
    match spot {
        Some(spot) => Some(Spot {
            place,
            path: spot.path,
        }),
        None => None,
    }
}

/// Of two that were found in different lists of the root, the one that stands first.
#[tactic(auto, unfolding(crate::specs::Spot::earlier))]
pub fn earlier<'a>(first: Option<Spot<'a>>, other: Option<Spot<'a>>) -> Option<Spot<'a>>
    ensures { result ≡ spec.earlier first.entry other.entry }
{
    match (first, other) {
        (None, other) => other,
        (Some(first), None) => Some(first),
        (Some(first), Some(other)) => {
            if other.place < first.place {
                Some(other)
            } else {
                Some(first)
            }
        }
    }
}

/// A guest area or a handle of the partition, whichever stands first.
#[tactic(auto, unfolding(crate::specs::Spot::first_inner))]
pub fn first_inner<'a>(
    part: &'a PartDef,
    guest: Option<&'a GuestAreaDef>,
    handle: Option<&'a HandleDef>,
) -> Option<Spot<'a>>
    ensures { result ≡ spec.first_inner part.now (option_copied guest.entry) (option_copied handle.entry) }
{
    match (guest, handle) {
        (None, None) => None,
        (None, Some(handle)) => Some(handle_spot(part, handle)),
        (Some(guest), None) => Some(guest_spot(part, guest)),
        (Some(guest), Some(handle)) => {
            if part.handles_at < part.areas_at {
                Some(handle_spot(part, handle))
            } else {
                Some(guest_spot(part, guest))
            }
        }
    }
}

/// The partition's list of guest areas or its list of handles, where the test holds of it, whichever stands first.
#[tactic(auto, unfolding(crate::specs::Spot::first_list))]
pub fn first_list(part: &PartDef, areas: bool, handles: bool) -> Option<Spot<'_>>
    ensures { result ≡ spec.first_list part.now areas handles }
{
    match (areas, handles) {
        (false, false) => None,
        (false, true) => Some(inner_list_spot(part, b"handles")),
        (true, false) => Some(inner_list_spot(part, b"areas")),
        (true, true) => {
            if part.handles_at < part.areas_at {
                Some(inner_list_spot(part, b"handles"))
            } else {
                Some(inner_list_spot(part, b"areas"))
            }
        }
    }
}
