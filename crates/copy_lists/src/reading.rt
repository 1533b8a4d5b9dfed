//! Reading a list in the caller's memory.

ghost use Rattle.std.specs.Prelude.{◌≡◌, ◌+◌, ◌*◌, ◌^◌, ◌≤◌};
ghost use Rattle.fresh_load.specs.Placed.{ArePlaced};
ghost use Rattle.copy_lists.specs.Lists as spec;
ghost use Rattle.copy_lists.specs.Moving.{byte_in};

use crate::list::{SgEntry, SgList};
use ground::Ground;
use memory_areas::AreaMap;

/// How many bytes an entry has in memory.
pub const ENTRY_SIZE: u64 = 32;

/// The byte at a logical address, and 0 where no region has it.
#[tactic(auto, unfolding(crate::specs::Moving::byte_in))]
fn byte_at(map: &AreaMap, ground: &Ground, at: u64) -> u8
    requires { ArePlaced ground.now map.now }
    ensures { result ≡ byte_in map.now ground.now at }
{
    match map.find(at) {
        Some(place) => ground.load8(place.extent as usize, place.at),
        None => 0,
    }
}

/// The number in the eight bytes from a logical address on, the most significant first.
fn number_at(map: &AreaMap, ground: &Ground, at: u64) -> u64
    requires placed { ArePlaced ground.now map.now }
    requires end { at + 8 ≤ 2 ^ 64 }
    ensures { result ≡ spec.number_at (byte_in map.now ground.now) at }
{
    u64::from_be_bytes([
        byte_at(map, ground, at),
        byte_at(map, ground, at + 1),
        byte_at(map, ground, at + 2),
        byte_at(map, ground, at + 3),
        byte_at(map, ground, at + 4),
        byte_at(map, ground, at + 5),
        byte_at(map, ground, at + 6),
        byte_at(map, ground, at + 7),
    ])
}

/// The entry at a logical address.
#[tactic(auto, unfolding(crate::specs::Lists::entry_at))]
fn entry_at(map: &AreaMap, ground: &Ground, at: u64) -> SgEntry
    requires placed { ArePlaced ground.now map.now }
    requires end { at + spec.entry_size ≤ 2 ^ 64 }
    ensures { result ≡ spec.entry_at (byte_in map.now ground.now) at }
{
    SgEntry {
        source: number_at(map, ground, at),
        target: number_at(map, ground, at + 8),
        size: number_at(map, ground, at + 16),
    }
}

/// Reads so many entries from a logical address on, in place of those that the list had.
pub fn read_entries(list: &mut SgList, map: &AreaMap, ground: &Ground, at: u64, count: u32)
    requires placed { ArePlaced ground.now map.now }
    requires few { count ≤ spec.most_entries }
    requires end { at + spec.entry_size * count ≤ 2 ^ 64 }
    ensures { list.new ≡ spec.entries_at (byte_in map.now ground.now) at count }
{
    list.clear();
    for i in 0..count {
        list.push(entry_at(map, ground, at + ENTRY_SIZE * u64::from(i)));
    }
}
