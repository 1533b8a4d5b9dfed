//! Moving bytes between partitions, run after run.

ghost use Rattle.std.specs.Prelude.{◌≡◌, ℕ, ◌+◌, ◌<◌, ◌≤◌, false, IsTrue};
ghost use Rattle.machine_desc.specs.Private.{is_private_range};
ghost use Rattle.machine_desc.specs.Sound.{are_regions_sound};
ghost use Rattle.ground.specs.Extents.{extent_at};
ghost use Rattle.fresh_load.specs.Placed.{ArePlaced, is_private_extent, sizes_of};
ghost use Rattle.copy_lists.specs.Moving as spec;

use crate::list::{SgEntry, SgList};
use ground::Ground;
use memory_areas::AreaMap;

/// Copies bytes that lie side by side on both sides, `left` of them at most, and tells how many: at least one.
fn copy_run(
    ground: &mut Ground,
    from: &AreaMap,
    to: &AreaMap,
    source: u64,
    target: u64,
    left: u64,
) -> u64
    requires areas { spec.AreasFit from.now to.now ground.old }
    requires some { 1 ≤ left }
    requires read { IsTrue (is_private_range from.now source left) }
    requires written { IsTrue (is_private_range to.now target left) }
    ensures some { 1 ≤ result }
    ensures most { result ≤ left }
    ensures copied { ground.new ≡ spec.put to.now ground.old target (spec.bytes_in from.now ground.old source result) }
{
    match (from.find(source), to.find(target)) {
        (Some(source), Some(target)) => {
            let len = u64::from(source.run.min(target.run)).min(left) as u32;
            ground.copy(
                source.extent as usize,
                source.at,
                target.extent as usize,
                target.at,
                len,
            );
            u64::from(len)
        }
        // no byte of both ranges is without a place
        _ => left,
    }
}

/// Copies the bytes of an entry.
fn copy_entry(ground: &mut Ground, from: &AreaMap, to: &AreaMap, entry: &SgEntry)
    requires areas { spec.AreasFit from.now to.now ground.old }
    requires read { IsTrue (is_private_range from.now entry.now.source entry.now.size) }
    requires written { IsTrue (is_private_range to.now entry.now.target entry.now.size) }
    ensures { ground.new ≡ spec.entry_copied from.now to.now ground.old entry.now }
{
    let size = entry.size;
    let mut done = 0u64;
    while done < size {
        done += copy_run(
            ground,
            from,
            to,
            entry.source + done,
            entry.target + done,
            size - done,
        );
    }
}

/// Copies the entries' bytes, entry after entry, from the private memory of one partition to that of another. Each entry is
/// read as those before it left the bytes; no byte that is written is read.
pub fn sg_copy(ground: &mut Ground, from: &AreaMap, to: &AreaMap, list: &SgList)
    requires from_sound { IsTrue (are_regions_sound from.now) }
    requires to_sound { IsTrue (are_regions_sound to.now) }
    requires from_placed { ArePlaced ground.old from.now }
    requires to_placed { ArePlaced ground.old to.now }
    requires apart { spec.AreApart from.now to.now }
    requires entries { spec.AreCopiable from.now to.now list.now }
    ensures copied { ground.new ≡ spec.copied from.now to.now list.now ground.old }
    ensures sizes { sizes_of ground.new ≡ sizes_of ground.old }
    ensures others { (extent : ℕ) → is_private_extent to.now extent ≡ false → extent_at ground.new extent ≡ extent_at ground.old extent }
{
    for i in 0..list.len() {
        copy_entry(ground, from, to, &list.entry(i));
    }
}
