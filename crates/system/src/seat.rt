//! Whose core a number is.

ghost use Rattle.std.specs.Prelude.{◌≡◌, ℕ, ◌<◌, List, Option, Some, length, map, IfOk, IfSome};
ghost use Rattle.std.specs.List.{range_with_len};
ghost use Rattle.network.specs.Network.{owner_from};
ghost use Rattle.system.specs.Seats.{AreOwners, owner_in, seated_at};
ghost use Rattle.system.specs.System.{descs_of, part_at};

use outside::NoMemory;
use partition::Partition;
use std::alloc::Global;

/// A table of owners has the physical numbers below this one, which are those of real cores.
const TABLED: u32 = 32;

/// A core of a partition, by its place there.
#[derive(Clone, Copy, Debug)]
pub struct Seat {
    pub part: usize,
    pub core: usize,
}

/// Whose core has this physical number, if any one's.
#[tactic(auto, using(crate::proofs::Seated::seat_here, crate::proofs::Seated::seat_behind, crate::proofs::Seated::no_seat_left))]
pub fn seat_of(parts: &[Partition], number: u32) -> Option<Seat>
    ensures owner { seated_at result ≡ owner_from 0 (descs_of parts.now) number }
    ensures part { IfSome result (λ seat. seat.part < length parts.now) }
    ensures core { IfSome result (λ seat. seat.core < length (part_at parts.now seat.part).inner.cores) }
{
    for part in 0..parts.len() {
        if let Some(core) = parts[part].place_of(number) {
            return Some(Seat { part, core });
        }
    }
    None
}

/// The partition whose core has this physical number, if any one's.
#[tactic(auto, using(crate::proofs::Owned::owner_at))]
fn owner_of(parts: &[Partition], number: u32) -> Option<usize>
    ensures { result ≡ owner_in (descs_of parts.now) number }
{
    match seat_of(parts, number) {
        Some(seat) => Some(seat.part),
        None => None,
    }
}

/// The table of owners: by physical number, the partition whose core it is.
#[tactic(auto, using(crate::proofs::Owned::one_more_owner))]
pub fn owners_of(alloc: Global, parts: &[Partition]) -> Result<Vec<Option<usize>>, NoMemory>
    ensures { IfOk result (λ owners. owners.items ≡ map (owner_in (descs_of parts.now)) (range_with_len 0 32)) }
{
    let mut owners = Vec::with_capacity(alloc, TABLED as usize)?;
    for number in 0..TABLED {
        owners.push(owner_of(parts, number))?;
    }
    Ok(owners)
}

/// The core with this physical number, of the partition whose core it is.
#[tactic(auto, using(crate::proofs::Owned::owner_there, crate::proofs::Owned::owner_found, crate::proofs::Owned::owner_not_found))]
fn seat_in(parts: &[Partition], part: usize, number: u32) -> Option<Seat>
    requires { Some part ≡ owner_in (descs_of parts.now) number }
    ensures owner { seated_at result ≡ owner_from 0 (descs_of parts.now) number }
    ensures part { IfSome result (λ seat. seat.part < length parts.now) }
    ensures core { IfSome result (λ seat. seat.core < length (part_at parts.now seat.part).inner.cores) }
{
    let core = parts[part].place_of(number)?;
    Some(Seat { part, core })
}

/// Whose core has this physical number, if any one's, by the table. Goes over the partitions only for a number behind it.
#[tactic(auto, using(crate::proofs::Owned::tabled, crate::proofs::Owned::no_owner))]
pub fn find_seat(parts: &[Partition], owners: &[Option<usize>], number: u32) -> Option<Seat>
    requires { AreOwners owners.now (descs_of parts.now) }
    ensures owner { seated_at result ≡ owner_from 0 (descs_of parts.now) number }
    ensures part { IfSome result (λ seat. seat.part < length parts.now) }
    ensures core { IfSome result (λ seat. seat.core < length (part_at parts.now seat.part).inner.cores) }
{
    match owners.get(number as usize) {
        Some(Some(part)) => seat_in(parts, *part, number),
        Some(None) => None,
        None => seat_of(parts, number),
    }
}
