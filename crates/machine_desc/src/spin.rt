//! The places of spin entries.

ghost use Rattle.std.specs.Prelude.{◌≡◌};
ghost use Rattle.machine_desc.specs.Sound as spec;

use crate::bounds::{SPIN_ROOM, SPIN_SIZE, SPIN_STEP};
use crate::desc::Desc;
use crate::private::is_private_from;
use crate::ranges::end_of;

/// Whether the place of the core's spin entry is private.
#[tactic(auto, unfolding(crate::specs::Sound::has_private_spin_entry))]
fn has_private_spin_entry(desc: &Desc, core: usize) -> bool
    ensures { result ≡ spec.has_private_spin_entry desc.now core }
{
    let behind = end_of(desc.tree_at, desc.tree_size) + SPIN_STEP * core as u128;
    SPIN_ROOM <= behind && is_private_from(desc.regions.as_slice(), behind - SPIN_ROOM, SPIN_SIZE)
}

/// Whether the places of the spin entries of all cores but the first are private.
#[tactic(auto, unfolding(crate::specs::Sound::are_spin_entries_private), using(crate::proofs::Walking::stepping))]
pub fn are_spin_entries_private(desc: &Desc) -> bool
    ensures { result ≡ spec.are_spin_entries_private desc.now }
{
    let count = desc.cores.as_slice().len();
    for core in 1..count {
        if !has_private_spin_entry(desc, core) {
            return false;
        }
    }
    true
}
