//! The partitions and their memory before the first turn.

ghost use Rattle.std.specs.Prelude.{◌≡◌, map, IfOk, OnOk, true};
ghost use Rattle.std.specs.List.{list_all};
ghost use Rattle.machine_desc.specs.Joined.{AreJoined};
ghost use Rattle.machine_desc.specs.Sound.{IsSound, is_sound};
ghost use Rattle.fresh_load.specs.Placed.{ArePlaced};
ghost use Rattle.system.specs.Beginning.{Loads};
ghost use Rattle.system.specs.System.{AreLoaded, HaveOneCore, fresh_part};

use fresh_load::load;
use ground::Ground;
use machine_desc::{Desc, Wiring};
use memory_areas::AreaMap;
use outside::NoMemory;
use partition::Partition;
use std::alloc::Global;

/// Loads the memory of one partition. Fails only where memory runs out.
fn load_part(alloc: Global, desc: &Desc, memory: &mut Ground) -> Result<(), NoMemory>
    requires sound { IsSound desc.now }
    requires placed { ArePlaced memory.old desc.now.regions }
    ensures { OnOk result (Loads desc.now memory.old memory.new) }
{
    let map = AreaMap::new(alloc, desc)?;
    load(desc, &map, memory);
    Ok(())
}

/// The real memory of joined partitions, each as it begins.
#[tactic(auto, using(crate::proofs::Loaded::opening_loaded, crate::proofs::Loaded::loaded_on, crate::proofs::Loaded::all_loaded, crate::proofs::Loaded::sizes_small, crate::proofs::Loaded::sound_at, crate::proofs::Loaded::placed_so_far))]
pub fn loaded_memory(alloc: Global, descs: &[Desc], wiring: &Wiring) -> Result<Ground, NoMemory>
    requires { AreJoined descs.now wiring.now }
    ensures { IfOk result (λ memory. AreLoaded descs.now memory) }
{
    let mut memory = Ground::new(alloc, wiring.sizes.as_slice())?;
    for part in 0..descs.len() {
        load_part(alloc, &descs[part], &mut memory)?;
    }
    Ok(memory)
}

/// The partitions of sound descriptions of one core each.
pub fn fresh_parts(alloc: Global, descs: Vec<Desc>) -> Result<Vec<Partition>, NoMemory>
    requires sound { list_all is_sound descs.items ≡ true }
    requires cores { HaveOneCore descs.items }
    ensures { IfOk result (λ parts. parts.items ≡ map fresh_part descs.items) }
{
    let mut parts = Vec::with_capacity(alloc, descs.len())?;
    for desc in descs {
        parts.push(Partition::new(alloc, desc)?)?;
    }
    Ok(parts)
}
