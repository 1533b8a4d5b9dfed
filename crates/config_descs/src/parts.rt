//! Partitions.

ghost use Rattle.std.specs.Prelude.{◌≡◌, ◌≤◌, IfOk, length};
ghost use Rattle.machine_desc.specs.Limits.{most_handles};
ghost use Rattle.config_descs.specs.Desc as spec;
ghost use Rattle.config_descs.specs.Limits.{KeepsLimits};

use crate::handles::ports_of;
use crate::memory::regions_of;
use hv_config::{Config, PartDef};
use machine_desc::Desc;
use outside::{Bytes, Listed, NoMemory};
use std::alloc::Global;

/// The description of a partition, without its image and its device tree: its entry is 0, and it has no pieces.
#[tactic(auto, unfolding(crate::specs::Desc::desc_of))]
pub fn desc_of(alloc: Global, config: &Config, part: &PartDef) -> Result<Desc, NoMemory>
    requires limits { KeepsLimits config.now }
    requires handles { length part.now.handles ≤ most_handles }
    ensures { IfOk result (λ desc. desc ≡ spec.desc_of config.now part.now) }
{
    Ok(Desc {
        name: Bytes::of(alloc, part.name.as_slice())?,
        regions: regions_of(alloc, config, part.areas.as_slice())?,
        cores: Listed::from_vec(Vec::from_slice(alloc, part.cpus.as_slice())?),
        ports: ports_of(alloc, config, part.handles.as_slice())?,
        tree_at: part.tree_at,
        tree_size: part.tree_size,
        entry: 0,
        held: part.held,
        pieces: Listed::new(alloc),
    })
}
