//! The pages of an access, in order of address, and its first fault.

ghost use Rattle.std.specs.Prelude.{◌≡◌, ◌+◌, ◌%◌, ◌<◌, ◌≤◌, IfOk, IfSome, MatchResult};
ghost use Rattle.core_step.specs.Pages.{IsBacked, AreBacked};
ghost use Rattle.core_step.specs.Access as spec;

use crate::look::{Look, Page};
use ground::Ground;

/// Bytes of an access that lie in one 4 KiB page: the effective address of the first, and how many.
#[derive(Clone, Copy)]
pub struct Part {
    pub ea: u32,
    pub len: u32,
}

/// Where a part lies in real memory, and the logical address of its first byte.
#[derive(Clone, Copy)]
pub struct Place {
    pub extent: u32,
    pub at: u32,
    pub len: u32,
    pub logical: u64,
}

/// Why a part can't be accessed, at its effective address.
#[derive(Clone, Copy)]
pub enum Fault {
    /// No page covers it.
    Missing(u32),
    /// Its page doesn't allow it.
    Denied(u32),
    /// Its page is little-endian.
    Reversed(u32),
}

/// How many bytes the 4 KiB page has from an address on.
fn room_from(ea: u32) -> u32
    ensures { result ≡ spec.room_from ea }
{
    4096 - ea % 4096
}

/// An extent has fewer than 2^32 bytes, so an offset in it fits.
#[tactic(auto, unfolding(crate::specs::Access::place_in))]
fn place_in(ground: &Ground, page: Page, part: Part) -> Place
    requires { IsBacked ground.now part.ea page }
    ensures { result ≡ spec.place_in page part }
{
    let offset = part.ea - page.ea;
    let size = ground.size(page.extent as usize);
    prove!(u64::from(page.at) + u64::from(offset) < u64::from(size));
    Place {
        extent: page.extent,
        at: page.at + offset,
        len: part.len,
        logical: page.logical + u64::from(offset),
    }
}

/// Whether a page has the permission, given by its bit of MAS3.
fn allows(page: Page, permission: u16) -> bool
    requires { 0 < permission }
    ensures { result ≡ spec.allows page permission }
{
    page.perms / permission % 2 == 1
}

/// The place of a part in the page that covers it, if any does.
#[tactic(auto, unfolding(crate::specs::Access::place_or_fault))]
fn place_or_fault(
    ground: &Ground,
    permission: u16,
    part: Part,
    page: Option<Page>,
) -> Result<Place, Fault>
    requires some_bit { 0 < permission }
    requires backed { IfSome page (IsBacked ground.now part.ea) }
    ensures { result ≡ spec.place_or_fault permission part page }
{
    let Some(page) = page else {
        return Err(Fault::Missing(part.ea));
    };
    if !allows(page, permission) {
        return Err(Fault::Denied(part.ea));
    }
    if page.little {
        return Err(Fault::Reversed(part.ea));
    }
    Ok(place_in(ground, page, part))
}

/// The same of the page that is looked up. A part that lies in one 4 KiB page lies in its page.
pub fn look_up<L: Look>(
    look: &L,
    ground: &Ground,
    space: bool,
    pid: u16,
    permission: u16,
    part: Part,
) -> Result<Place, Fault>
    requires some_bit { 0 < permission }
    requires backed { AreBacked ground.now (L.lookup look.now) }
    ensures value { result ≡ spec.place_or_fault permission part (L.lookup look.now space pid part.ea) }
    ensures inside { part.ea % 4096 + part.len ≤ 4096 → IfOk result (λ place. spec.IsInside ground.now place) }
    ensures whole { IfOk result (λ place. place.len ≡ part.len) }
{
    place_or_fault(ground, permission, part, look.hit(space, pid, part.ea))
}

/// Where the bytes of an access lie: in one page, or in two.
#[derive(Clone, Copy)]
pub struct Places {
    pub first: Place,
    pub second: Option<Place>,
}

/// The places of an access of at most 4,096 bytes in the space `space`, or its first fault.
#[tactic(auto, unfolding(crate::specs::Access::parts_of))]
pub fn look_up_all<L: Look>(
    look: &L,
    ground: &Ground,
    space: bool,
    pid: u16,
    permission: u16,
    ea: u32,
    len: u32,
) -> Result<Places, Fault>
    requires some_bit { 0 < permission }
    requires short { len ≤ 4096 }
    requires backed { AreBacked ground.now (L.lookup look.now) }
    ensures value { MatchResult result
        (λ places. spec.places_or_fault (L.lookup look.now space pid) permission (spec.parts_of ea len) ≡ Ok (spec.in_order places))
        (λ fault. spec.places_or_fault (L.lookup look.now space pid) permission (spec.parts_of ea len) ≡ Err fault) }
    ensures inside { IfOk result (λ places. spec.AreInside ground.now (spec.in_order places)) }
    ensures whole { IfOk result (λ places. spec.total (spec.in_order places) ≡ len) }
{
    let room = room_from(ea);
    if len <= room {
        let first = look_up(look, ground, space, pid, permission, Part { ea, len })?;
        return Ok(Places {
            first,
            second: None,
        });
    }
    let first = look_up(look, ground, space, pid, permission, Part { ea, len: room })?;
    let rest = Part {
        ea: ea.wrapping_add(room),
        len: len - room,
    };
    let second = look_up(look, ground, space, pid, permission, rest)?;
    Ok(Places {
        first,
        second: Some(second),
    })
}
