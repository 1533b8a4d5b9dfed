//! Writing what a list brings into private memory.

ghost use Rattle.std.specs.Prelude.{◌≡◌, ◌≤◌, IsTrue, length, take, drop};
ghost use Rattle.machine_desc.specs.Private.{is_private_range};
ghost use Rattle.machine_desc.specs.Sound.{are_regions_sound};
ghost use Rattle.fresh_load.specs.Placed.{ArePlaced, sizes_of};
ghost use Rattle.copy_lists.specs.Moving.{put};
ghost use Rattle.copy_lists.specs.Pieces.{are_targets_private, pieces_in, all_put};

use crate::list::{SgEntry, SgList};
use ground::Ground;
use memory_areas::AreaMap;

/// Writes the first of these bytes into private memory from a logical address on, as many as lie side by side there, and
/// tells how many: at least one.
fn put_run(ground: &mut Ground, map: &AreaMap, at: u64, bytes: &[u8]) -> usize
    requires sound { IsTrue (are_regions_sound map.now) }
    requires placed { ArePlaced ground.old map.now }
    requires some { 1 ≤ length bytes.now }
    requires private { IsTrue (is_private_range map.now at (length bytes.now)) }
    ensures some { 1 ≤ result }
    ensures most { result ≤ length bytes.now }
    ensures put { ground.new ≡ put map.now ground.old at (take result bytes.now) }
{
    match map.find(at) {
        Some(place) => {
            let len = bytes.len().min(place.run as usize);
            ground.put(place.extent as usize, place.at, &bytes[..len]);
            len
        }
        // no private byte is without a place
        None => bytes.len(),
    }
}

/// Writes the bytes into private memory, from a logical address on. No other byte changes.
pub fn put_bytes(ground: &mut Ground, map: &AreaMap, at: u64, bytes: &[u8])
    requires sound { IsTrue (are_regions_sound map.now) }
    requires placed { ArePlaced ground.old map.now }
    requires private { IsTrue (is_private_range map.now at (length bytes.now)) }
    ensures { ground.new ≡ put map.now ground.old at bytes.now }
{
    let mut done = 0;
    while done < bytes.len() {
        done += put_run(ground, map, at + done as u64, &bytes[done..]);
    }
}

/// Writes the bytes of an entry, which are the first of these, and gives those that are left.
fn put_entry<'a>(ground: &mut Ground, map: &AreaMap, entry: &SgEntry, bytes: &'a [u8]) -> &'a [u8]
    requires sound { IsTrue (are_regions_sound map.now) }
    requires placed { ArePlaced ground.old map.now }
    requires private { IsTrue (is_private_range map.now entry.now.target entry.now.size) }
    ensures put { ground.new ≡ put map.now ground.old entry.now.target (take entry.now.size bytes.now) }
    ensures left { result.now ≡ drop entry.now.size bytes.now }
{
    let count = entry.size.min(bytes.len() as u64) as usize;
    put_bytes(ground, map, entry.target, &bytes[..count]);
    &bytes[count..]
}

/// Writes the bytes into the private memory that the list's entries name as their targets: so many for each entry as it
/// copies, entry after entry. Where there are fewer than they copy together, the last entries get fewer.
pub fn sg_put(ground: &mut Ground, map: &AreaMap, list: &SgList, bytes: &[u8])
    requires sound { IsTrue (are_regions_sound map.now) }
    requires placed { ArePlaced ground.old map.now }
    requires private { IsTrue (are_targets_private map.now list.now) }
    ensures put { ground.new ≡ all_put map.now (pieces_in list.now bytes.now) ground.old }
    ensures sizes { sizes_of ground.new ≡ sizes_of ground.old }
{
    let mut left = bytes;
    for i in 0..list.len() {
        left = put_entry(ground, map, &list.entry(i), left);
    }
}
