//! The place of an address in a region.

ghost use Rattle.std.specs.Prelude.{◌≡◌, IsTrue, IfSome, find};
ghost use Rattle.std.specs.Option.{option_copied};
ghost use Rattle.machine_desc.specs.Sound.{is_within};
ghost use Rattle.memory_areas.specs.Kept.{AreWithin};
ghost use Rattle.memory_areas.specs.Place as spec;

use machine_desc::Region;

/// Where a byte lies that a partition names by its logical address.
#[derive(Clone, Copy, Debug, PartialEq, Eq)]
pub struct Place {
    /// The number of the extent that has the byte.
    pub extent: u32,
    /// The byte's offset in the extent, in bytes.
    pub at: u32,
    /// How many bytes there are from this one to the end of the region, itself among them. All lie in the extent, one
    /// after another.
    pub run: u32,
    /// The real address of the byte.
    pub real: u64,
}

/// Whether the region has the address.
fn has_address(region: &Region, logical: u64) -> bool
    ensures { result ≡ spec.has_address logical region.now }
{
    region.logical <= logical && logical - region.logical < u64::from(region.size)
}

/// The first of the regions that has the address.
fn region_at(regions: &[Region], logical: u64) -> Option<&Region>
    ensures { option_copied result ≡ find (spec.has_address logical) regions.now }
{
    regions.iter().find(|region| has_address(region, logical))
}

/// Where the region has the address.
fn place_of(region: &Region, logical: u64) -> Place
    requires has { IsTrue (spec.has_address logical region.now) }
    requires within { IsTrue (is_within region.now) }
    ensures place { result ≡ spec.place_of logical region.now }
    ensures bounded { spec.IsBounded logical result }
{
    let at = (logical - region.logical) as u32;
    Place {
        extent: region.extent,
        at,
        run: region.size - at,
        real: region.real + u64::from(at),
    }
}

/// Where the first of the regions that has the address has it.
#[tactic(auto, unfolding(crate::specs::Place::place_in), using(crate::proofs::Found::found_has, crate::proofs::Found::found_within))]
pub fn place_in(regions: &[Region], logical: u64) -> Option<Place>
    requires { AreWithin regions.now }
    ensures place { result ≡ spec.place_in regions.now logical }
    ensures bounded { IfSome result (spec.IsBounded logical) }
{
    let region = region_at(regions, logical)?;
    Some(place_of(region, logical))
}
