//! Managers and what they manage.

ghost use Rattle.std.specs.Prelude.{◌≡◌, ◌≤◌, length};
ghost use Rattle.machine_desc.specs.Joined as spec;

use crate::desc::{Desc, Region, Span};
use crate::extents::same_bool;
use crate::handles::{is_named, names_manager};
use crate::wiring::{PortRef, Wiring};

/// Whether the span there is the region's.
fn has_span(spans: &[Span], place: usize, region: &Region) -> bool
    ensures { result ≡ spec.has_span spans.now place region.now }
{
    match spans.get(place) {
        Some(span) => span.at == region.logical && span.size == u64::from(region.size),
        None => false,
    }
}

/// The place behind the region's span, where the region is private, and none where another span is there.
#[tactic(auto, unfolding(crate::specs::Joined::behind_span))]
fn behind_span(spans: &[Span], place: usize, region: &Region) -> Option<usize>
    requires { place ≤ length spans.now }
    ensures { result ≡ spec.behind_span spans.now place region.now }
{
    if !region.private {
        Some(place)
    } else if has_span(spans, place, region) {
        Some(place + 1)
    } else {
        None
    }
}

/// Whether the spans are those of the private regions, in their order.
#[tactic(auto, using(crate::proofs::Spans::private))]
fn are_private_spans(spans: &[Span], regions: &[Region]) -> bool
    ensures { result ≡ spec.are_private_spans spans.now regions.now }
{
    let mut next = 0usize;
    for region in regions {
        match behind_span(spans, next, region) {
            Some(behind) => next = behind,
            None => return false,
        }
    }
    next == spans.len()
}

/// Whether the partition begins so, and has these private ranges.
fn is_managed_as(held: bool, private: &[Span], desc: &Desc) -> bool
    ensures { result ≡ spec.is_managed_as held private.now desc.now }
{
    same_bool(held, desc.held) && are_private_spans(private, desc.regions.as_slice())
}

/// Whether the partition of this number begins so, and has these private ranges.
fn is_part_managed_as(descs: &[Desc], number: usize, held: bool, private: &[Span]) -> bool
    ensures { result ≡ spec.is_part_managed_as descs.now number held private.now }
{
    match descs.get(number) {
        Some(desc) => is_managed_as(held, private, desc),
        None => false,
    }
}

/// Whether the manager named for the partition is this handle.
fn is_manager_of(managers: &[Option<PortRef>], part: usize, handle: usize, number: usize) -> bool
    ensures { result ≡ spec.is_manager_of managers.now (record { part = part; handle = handle }) number }
{
    match managers.get(number) {
        Some(Some(at)) => is_named(part, handle, at),
        _ => false,
    }
}

/// Whether the handle manages another partition, told as it is, and is its one manager.
#[tactic(auto, unfolding(crate::specs::Joined::is_manage_joined))]
pub fn is_manage_joined(
    descs: &[Desc],
    wiring: &Wiring,
    part: usize,
    handle: usize,
    number: usize,
    held: bool,
    private: &[Span],
) -> bool
    ensures { result ≡ spec.is_manage_joined descs.now wiring.now (record { part = part; handle = handle }) number held private.now }
{
    number != part
        && is_part_managed_as(descs, number, held, private)
        && is_manager_of(wiring.managers.as_slice(), part, handle, number)
}

/// Whether the manager of the partition, where one is named, manages it.
fn is_manager_right(descs: &[Desc], number: usize, manager: &Option<PortRef>) -> bool
    ensures { result ≡ spec.is_manager_right descs.now number manager.now }
{
    match manager {
        Some(at) => names_manager(descs, number, at),
        None => true,
    }
}

/// Whether each manager manages its partition.
fn are_managers_right(descs: &[Desc], managers: &[Option<PortRef>]) -> bool
    ensures { result ≡ spec.are_managers_right descs.now 0 managers.now }
{
    for (i, manager) in managers.iter().enumerate() {
        if !is_manager_right(descs, i, manager) {
            return false;
        }
    }
    true
}

/// Whether there is an entry for each partition, and it is right.
#[tactic(auto, unfolding(crate::specs::Joined::are_managers_joined))]
pub fn are_managers_joined(descs: &[Desc], wiring: &Wiring) -> bool
    ensures { result ≡ spec.are_managers_joined descs.now wiring.now }
{
    let managers = wiring.managers.as_slice();
    managers.len() == descs.len() && are_managers_right(descs, managers)
}
