//! What is private to a partition.

ghost use Rattle.std.specs.Prelude.{◌≡◌, ◌+◌, ◌^◌, ◌<◌, find};
ghost use Rattle.std.specs.Option.{option_copied, option_map};
ghost use Rattle.machine_desc.specs.Private as spec;

use crate::desc::Region;
use crate::ranges::end_of;

/// Whether the region is private and has the address.
fn holds_privately(region: &Region, address: u128) -> bool
    ensures { result ≡ spec.holds_privately address region.now }
{
    region.private
        && u128::from(region.logical) <= address
        && address < end_of(region.logical, u64::from(region.size))
}

/// The first private region that has the address.
fn private_region(regions: &[Region], address: u128) -> Option<&Region>
    ensures { option_copied result ≡ find (spec.holds_privately address) regions.now }
{
    regions
        .iter()
        .find(|region| holds_privately(region, address))
}

/// Where the first private region ends that has the address.
fn private_end(regions: &[Region], address: u128) -> Option<u128>
    ensures { result ≡ option_map spec.region_end (find (spec.holds_privately address) regions.now) }
{
    private_region(regions, address).map(|region| end_of(region.logical, u64::from(region.size)))
}

/// Whether each of so many addresses from this one on is in a private region; the first may lie behind all addresses
/// that 64 bits can say.
#[tactic(auto, using(crate::proofs::Walking::walking))]
pub fn is_private_from(regions: &[Region], at: u128, size: u64) -> bool
    requires { at < 2 ^ 100 }
    ensures { result ≡ spec.is_private_range regions.now at size }
{
    let end = at + u128::from(size);
    let mut next = at;
    while next < end {
        match private_end(regions, next) {
            Some(behind) => next = behind,
            None => return false,
        }
    }
    true
}

/// Whether each of `size` bytes from the logical address `at` on is in a private region. The range may go over several
/// regions that lie side by side, in whatever order they stand. A range without bytes is private, wherever it is. The
/// sums never wrap: bytes behind the last address of 64 bits are in no region that ends before.
pub fn is_private_range(regions: &[Region], at: u64, size: u64) -> bool
    ensures { result ≡ spec.is_private_range regions.now at size }
{
    is_private_from(regions, u128::from(at), size)
}
