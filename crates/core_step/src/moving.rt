//! Bytes from real memory and to it.

ghost use Rattle.std.specs.Prelude.{◌≡◌, ◌++◌, ◌+◌, ◌≤◌, length};
ghost use Rattle.ground.specs.Extents.{bytes_at, after_write};
ghost use Rattle.core_step.specs.Access as spec;

use crate::access::{Place, Places};
use crate::answer::Wrote;
use arrayvec::ArrayVec;
use ground::Ground;

/// The bytes at the places, in order.
pub fn load_bytes(ground: &Ground, places: Places) -> ArrayVec<u8, 128>
    requires inside { spec.AreInside ground.now (spec.in_order places) }
    requires few { spec.total (spec.in_order places) ≤ 128 }
    ensures { result.items ≡ spec.loaded_from ground.now (spec.in_order places) }
{
    let mut bytes = ArrayVec::new();
    push_place(&mut bytes, ground, places.first);
    if let Some(second) = places.second {
        push_place(&mut bytes, ground, second);
    }
    bytes
}

/// Appends the bytes at a place.
fn push_place(bytes: &mut ArrayVec<u8, 128>, ground: &Ground, place: Place)
    requires inside { spec.IsInside ground.now place }
    requires room { length bytes.old.items + place.len ≤ 128 }
    ensures { bytes.new.items ≡ bytes.old.items ++ bytes_at ground.now place.extent place.at place.len }
{
    let start = place.at as usize;
    let piece = &ground.view(place.extent as usize)[start..start + place.len as usize];
    if bytes.try_extend_from_slice(piece).is_err() {
        unreachable!()
    }
}

/// Puts bytes at a place.
#[tactic(auto, using(crate::proofs::Stay::same_sizes))]
fn put_place(ground: &mut Ground, place: Place, bytes: &[u8])
    requires inside { spec.IsInside ground.old place }
    requires whole { length bytes.now ≡ place.len }
    ensures stored { ground.new ≡ after_write ground.old place.extent place.at bytes.now }
    ensures sizes { spec.SameSizes ground.old ground.new }
{
    ground.put(place.extent as usize, place.at, bytes);
}

/// Puts the bytes at the places, in order.
pub fn store_bytes(ground: &mut Ground, places: Places, bytes: &[u8])
    requires inside { spec.AreInside ground.old (spec.in_order places) }
    requires whole { length bytes.now ≡ spec.total (spec.in_order places) }
    ensures stored { ground.new ≡ spec.stored_to ground.old (spec.in_order places) bytes.now }
    ensures sizes { spec.SameSizes ground.old ground.new }
{
    let (front, rest) = bytes.split_at(places.first.len as usize);
    put_place(ground, places.first, front);
    if let Some(second) = places.second {
        put_place(ground, second, rest);
    }
}

/// The ranges of the places, in order.
pub fn ranges(places: Places) -> ArrayVec<Wrote, 2>
    ensures { result.items ≡ spec.ranges_of (spec.in_order places) }
{
    let mut ranges = ArrayVec::new();
    ranges.push(range_of(places.first));
    if let Some(second) = places.second {
        ranges.push(range_of(second));
    }
    ranges
}

/// The range of real memory that a place is.
fn range_of(place: Place) -> Wrote
    ensures { result ≡ spec.range_of place }
{
    Wrote {
        extent: place.extent,
        at: place.at,
        len: place.len,
    }
}
