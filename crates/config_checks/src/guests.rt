//! C12 to C14: areas in the memory of a partition.

ghost use Rattle.std.specs.Prelude.{◌≡◌, find, []};
ghost use Rattle.std.specs.List.{list_any};
ghost use Rattle.std.specs.Option.{option_copied};
ghost use Rattle.config_checks.specs.Guests as spec;
ghost use Rattle.config_checks.specs.First.{first_meeting, first_from};

use crate::areas::end_of;
use crate::bounds::{ADDRESS_END, PAGE_SIZE};
use crate::found::size_of;
use crate::spot::{Spot, guest_spot};
use hv_config::{AreaDef, Config, GuestAreaDef, PartDef};
use machine_desc::ranges_meet;

/// Whether the guest area doesn't begin at a page, or goes past the end of all addresses.
fn is_misplaced(areas: &[AreaDef], guest: &GuestAreaDef) -> bool
    ensures { result ≡ spec.is_misplaced areas.now guest.now }
{
    guest.at % PAGE_SIZE != 0
        || ADDRESS_END < end_of(guest.at, size_of(areas, guest.area.as_slice()))
}

/// The first such guest area of these.
fn first_misplaced<'a>(areas: &[AreaDef], guests: &'a [GuestAreaDef]) -> Option<&'a GuestAreaDef>
    ensures { option_copied result ≡ find (spec.is_misplaced areas.now) guests.now }
{
    guests.iter().find(|guest| is_misplaced(areas, guest))
}

/// The first such guest area of the partition.
fn misplaced_in<'a>(areas: &[AreaDef], part: &'a PartDef) -> Option<Spot<'a>>
    ensures { result ≡ spec.misplaced_in areas.now [] part.now }
{
    let guest = first_misplaced(areas, part.areas.as_slice())?;
    Some(guest_spot(part, guest))
}

/// The first such guest area of all partitions.
fn first_misplaced_in<'a>(areas: &[AreaDef], parts: &'a [PartDef]) -> Option<Spot<'a>>
    ensures { result ≡ first_from (spec.misplaced_in areas.now) [] parts.now }
{
    for part in parts {
        if let Some(spot) = misplaced_in(areas, part) {
            return Some(spot);
        }
    }
    None
}

/// C12: that guest area.
#[tactic(auto, unfolding(crate::specs::Guests::misplaced_guest))]
pub fn misplaced_guest(config: &Config) -> Option<Spot<'_>>
    ensures { result ≡ spec.misplaced_guest config.now }
{
    first_misplaced_in(config.areas.as_slice(), config.parts.as_slice())
}

/// Whether some address is in both guest areas.
fn guests_meet(areas: &[AreaDef], guest: &GuestAreaDef, other: &GuestAreaDef) -> bool
    ensures { result ≡ spec.guests_meet areas.now guest.now other.now }
{
    let size = size_of(areas, guest.area.as_slice());
    let other_size = size_of(areas, other.area.as_slice());
    ranges_meet(guest.at, size, other.at, other_size)
}

/// Whether some address is in the guest area and in one of the others.
fn meets_any(areas: &[AreaDef], guest: &GuestAreaDef, others: &[GuestAreaDef]) -> bool
    ensures { result ≡ list_any (spec.guests_meet areas.now guest.now) others.now }
{
    others.iter().any(|other| guests_meet(areas, guest, other))
}

/// The first of these guest areas that has an address of an earlier one.
fn first_overlapping<'a>(areas: &[AreaDef], guests: &'a [GuestAreaDef]) -> Option<&'a GuestAreaDef>
    ensures { option_copied result ≡ first_meeting (spec.guests_meet areas.now) [] guests.now }
{
    for (i, guest) in guests.iter().enumerate() {
        if meets_any(areas, guest, &guests[..i]) {
            return Some(guest);
        }
    }
    None
}

/// The first such guest area of the partition.
fn overlapping_in<'a>(areas: &[AreaDef], part: &'a PartDef) -> Option<Spot<'a>>
    ensures { result ≡ spec.overlapping_in areas.now [] part.now }
{
    let guest = first_overlapping(areas, part.areas.as_slice())?;
    Some(guest_spot(part, guest))
}

/// The first such guest area of all partitions.
fn first_overlapping_in<'a>(areas: &[AreaDef], parts: &'a [PartDef]) -> Option<Spot<'a>>
    ensures { result ≡ first_from (spec.overlapping_in areas.now) [] parts.now }
{
    for part in parts {
        if let Some(spot) = overlapping_in(areas, part) {
            return Some(spot);
        }
    }
    None
}

/// C13: that guest area.
#[tactic(auto, unfolding(crate::specs::Guests::overlapping_guest))]
pub fn overlapping_guest(config: &Config) -> Option<Spot<'_>>
    ensures { result ≡ spec.overlapping_guest config.now }
{
    first_overlapping_in(config.areas.as_slice(), config.parts.as_slice())
}

/// Whether both map the same area.
fn same_area(guest: &GuestAreaDef, other: &GuestAreaDef) -> bool
    ensures { result ≡ spec.same_area guest.now other.now }
{
    guest.area.as_slice() == other.area.as_slice()
}

/// Whether one of the others maps the same area.
fn repeats_any(guest: &GuestAreaDef, others: &[GuestAreaDef]) -> bool
    ensures { result ≡ list_any (spec.same_area guest.now) others.now }
{
    others.iter().any(|other| same_area(guest, other))
}

/// The first of these guest areas that maps the area of an earlier one.
fn first_repeated(guests: &[GuestAreaDef]) -> Option<&GuestAreaDef>
    ensures { option_copied result ≡ first_meeting spec.same_area [] guests.now }
{
    for (i, guest) in guests.iter().enumerate() {
        if repeats_any(guest, &guests[..i]) {
            return Some(guest);
        }
    }
    None
}

/// The first such guest area of the partition.
fn repeated_in(part: &PartDef) -> Option<Spot<'_>>
    ensures { result ≡ spec.repeated_in [] part.now }
{
    let guest = first_repeated(part.areas.as_slice())?;
    Some(guest_spot(part, guest))
}

/// C14: the first such guest area of all partitions.
#[tactic(auto, unfolding(crate::specs::Guests::repeated_guest))]
pub fn repeated_guest(parts: &[PartDef]) -> Option<Spot<'_>>
    ensures { result ≡ spec.repeated_guest parts.now }
{
    for part in parts {
        if let Some(spot) = repeated_in(part) {
            return Some(spot);
        }
    }
    None
}
