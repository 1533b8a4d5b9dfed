//! Byte channels.

ghost use Rattle.std.specs.Prelude.{◌≡◌, ◌==◌, count_by};
ghost use Rattle.std.specs.List.{list_all, range_with_len};
ghost use Rattle.machine_desc.specs.Joined as spec;

use crate::desc::Desc;
use crate::handles::{is_named, names_channel};
use crate::wiring::{End, Link, Wiring};

/// Whether the end is at this handle.
fn is_at(part: usize, handle: usize, end: &End) -> bool
    ensures { result ≡ spec.is_at (record { part = part; handle = handle }) end.now }
{
    match end {
        End::Part(other) => is_named(part, handle, other),
        End::Console(_) => false,
    }
}

/// Whether the end is at this console.
fn is_console(number: usize, end: &End) -> bool
    ensures { result ≡ spec.is_console number end.now }
{
    match end {
        End::Part(_) => false,
        End::Console(other) => number == *other,
    }
}

/// How many links have their first end at this handle.
fn first_ends_at(part: usize, handle: usize, links: &[Link]) -> usize
    ensures { result ≡ count_by (λ link. spec.is_at (record { part = part; handle = handle }) link.a) links.now }
{
    links
        .iter()
        .filter(|link| is_at(part, handle, &link.a))
        .count()
}

/// How many links have their second end at this handle.
fn second_ends_at(part: usize, handle: usize, links: &[Link]) -> usize
    ensures { result ≡ count_by (λ link. spec.is_at (record { part = part; handle = handle }) link.b) links.now }
{
    links
        .iter()
        .filter(|link| is_at(part, handle, &link.b))
        .count()
}

/// Whether one end is at this handle.
#[tactic(auto, unfolding(crate::specs::Joined::ends_at))]
pub fn is_linked(part: usize, handle: usize, links: &[Link]) -> bool
    ensures { result ≡ (spec.ends_at (record { part = part; handle = handle }) links.now == 1) }
{
    let first = first_ends_at(part, handle, links) as u128;
    first + second_ends_at(part, handle, links) as u128 == 1
}

/// How many links have their first end at this console.
fn first_ends_at_console(number: usize, links: &[Link]) -> usize
    ensures { result ≡ count_by (λ link. spec.is_console number link.a) links.now }
{
    links
        .iter()
        .filter(|link| is_console(number, &link.a))
        .count()
}

/// How many links have their second end at this console.
fn second_ends_at_console(number: usize, links: &[Link]) -> usize
    ensures { result ≡ count_by (λ link. spec.is_console number link.b) links.now }
{
    links
        .iter()
        .filter(|link| is_console(number, &link.b))
        .count()
}

/// Whether the end is at a channel handle or at a console.
fn is_end(descs: &[Desc], wiring: &Wiring, end: &End) -> bool
    ensures { result ≡ spec.is_end descs.now wiring.now end.now }
{
    match end {
        End::Part(at) => names_channel(descs, at),
        End::Console(number) => *number < wiring.consoles.as_slice().len(),
    }
}

/// Whether the ends are neither both at consoles nor both at one partition.
fn are_ends_apart(a: &End, b: &End) -> bool
    ensures { result ≡ spec.are_ends_apart a.now b.now }
{
    match (a, b) {
        (End::Part(at), End::Part(other)) => at.part != other.part,
        (End::Console(_), End::Console(_)) => false,
        _ => true,
    }
}

/// Whether the link is between two partitions, or a partition and a console.
fn is_link_joined(descs: &[Desc], wiring: &Wiring, link: &Link) -> bool
    ensures { result ≡ spec.is_link_joined descs.now wiring.now link.now }
{
    is_end(descs, wiring, &link.a)
        && is_end(descs, wiring, &link.b)
        && are_ends_apart(&link.a, &link.b)
}

/// Whether each link is.
fn all_joined(descs: &[Desc], wiring: &Wiring, links: &[Link]) -> bool
    ensures { result ≡ list_all (spec.is_link_joined descs.now wiring.now) links.now }
{
    links.iter().all(|link| is_link_joined(descs, wiring, link))
}

/// Whether one end is at the console.
#[tactic(auto, unfolding(crate::specs::Joined::ends_at_console))]
fn is_console_linked(links: &[Link], number: usize) -> bool
    ensures { result ≡ spec.is_console_linked links.now number }
{
    let first = first_ends_at_console(number, links) as u128;
    first + second_ends_at_console(number, links) as u128 == 1
}

/// Whether this holds of so many consoles.
#[tactic(auto, using(crate::proofs::Walking::stepping))]
fn are_consoles_linked(links: &[Link], count: usize) -> bool
    ensures { result ≡ list_all (spec.is_console_linked links.now) (range_with_len 0 count) }
{
    for number in 0..count {
        if !is_console_linked(links, number) {
            return false;
        }
    }
    true
}

/// Whether the links are as they must be, but for what handles ask of them.
#[tactic(auto, unfolding(crate::specs::Joined::are_links_joined))]
pub fn are_links_joined(descs: &[Desc], wiring: &Wiring) -> bool
    ensures { result ≡ spec.are_links_joined descs.now wiring.now }
{
    let links = wiring.links.as_slice();
    all_joined(descs, wiring, links) && are_consoles_linked(links, wiring.consoles.as_slice().len())
}
