//! The regions of a partition, by their addresses.

ghost use Rattle.std.specs.Prelude.{◌≡◌, IfOk, IfSome};
ghost use Rattle.machine_desc.specs.Sound.{IsSound};
ghost use Rattle.machine_desc.specs.Private as private;
ghost use Rattle.memory_areas.specs.Place as spec;

use crate::place::{Place, place_in};
use machine_desc::{Desc, Region, is_private_range};
use outside::NoMemory;
use std::alloc::Global;
use std::marker::Model;

/// Where the logical addresses of a partition (ePAPR 1.1, chapter 7: guest physical) lie in real memory. Contracts see
/// the list of the partition's regions, in the order of its description: 16 at most, so that a walk over them finds
/// an address. Only `new` takes memory.
#[derive(Drop)]
pub struct AreaMap {
    regions: Vec<Region>,
}

impl Model for AreaMap {
    ghost use Rattle.std.specs.Prelude.{List};
    ghost use Rattle.machine_desc.specs.declared.desc.Region.{Region};
    ghost use Rattle.memory_areas.specs.Kept.{AreWithin};

    ghost Value = { List Region };

    ghost view = { λ map. map.regions.items };

    ghost invariant = { λ map. AreWithin map.regions.items };
}

impl AreaMap {
    /// The regions of a sound description. Fails only where memory runs out.
    #[tactic(auto, using(crate::proofs::Found::sound_regions_within))]
    pub fn new(alloc: Global, desc: &Desc) -> Result<AreaMap, NoMemory>
        requires { IsSound desc.now }
        ensures { IfOk result (λ map. map ≡ desc.now.regions) }
    {
        let regions = Vec::from_slice(alloc, desc.regions.as_slice())?;
        Ok(AreaMap { regions })
    }

    /// Where the byte at a logical address lies. None exactly where no region has the address.
    pub fn find(&self, logical: u64) -> Option<Place>
        ensures place { result ≡ spec.place_in self.now logical }
        ensures bounded { IfSome result (spec.IsBounded logical) }
    {
        place_in(self.regions.as_slice(), logical)
    }

    /// Whether each of `len` bytes from a logical address on is in a private region; they may lie in several regions
    /// side by side. A range without bytes is private, wherever it is.
    pub fn is_private(&self, logical: u64, len: u64) -> bool
        ensures { result ≡ private.is_private_range self.now logical len }
    {
        is_private_range(self.regions.as_slice(), logical, len)
    }
}
