//! The whole tree.

ghost use Rattle.std.specs.Prelude.{◌≡◌, ◌<◌, ◌≤◌, IfOk, length, slice_index_or};
ghost use Rattle.std.specs.List.{flat_map};
ghost use Rattle.hv_config.specs.declared.config.PartDef.{PartDef};
ghost use Rattle.machine_desc.specs.Limits.{most_cores, most_handles};
ghost use Rattle.dt_model.specs.Node.{node_tokens};
ghost use Rattle.guest_tree.specs.Guest.{HasSpinRoom, IsGuestTree};
ghost use Rattle.guest_tree.specs.Properties as properties;
ghost use Rattle.guest_tree.specs.Tokens as tokens;

use crate::chosen::chosen;
use crate::cpus::cpus;
use crate::handles::hypervisor;
use crate::nodes::{memory, pic, root_properties};
use config_rules::{Accepted, accepted_keep_parts};
use dt_make::node;
use dt_model::{Node, Tree, rows_are_those_of_the_tokens};
use hv_config::{Config, PartDef};
use outside::NoMemory;
use std::alloc::Global;

/// The nodes below the root.
fn children(alloc: Global, config: &Config, part: &PartDef) -> Result<Vec<Node>, NoMemory>
    requires room { HasSpinRoom part.now }
    requires cores { length part.now.cpus ≤ most_cores }
    requires handles { length part.now.handles ≤ most_handles }
    ensures { IfOk result (λ nodes. flat_map node_tokens nodes.items ≡ tokens.children_tokens config.now part.now) }
{
    let mut nodes = Vec::new(alloc);
    nodes.push(cpus(alloc, part)?)?;
    nodes.push(memory(alloc, config, part)?)?;
    nodes.push(pic(alloc)?)?;
    nodes.push(hypervisor(alloc, part)?)?;
    nodes.push(chosen(alloc, part)?)?;
    Ok(nodes)
}

/// The device tree of a partition, which may have several cores.
pub fn tree_of(alloc: Global, config: &Config, part: &PartDef) -> Result<Tree, NoMemory>
    requires room { HasSpinRoom part.now }
    requires cores { length part.now.cpus ≤ most_cores }
    requires handles { length part.now.handles ≤ most_handles }
    ensures { IfOk result (λ tree. IsGuestTree config.now part.now tree) }
{
    rows_are_those_of_the_tokens();
    let nodes = children(alloc, config, part)?;
    let properties = root_properties(alloc, part)?;
    let root = node(alloc, b"", properties, nodes)?;
    Ok(Tree {
        reserve: Vec::new(alloc),
        boot_cpu: 0,
        root,
    })
}

/// The device tree that the guest of the partition of that number is given (ePAPR 1.1, chapters 3 and 7). Fails only
/// where memory runs out.
pub fn derive(alloc: Global, acc: &Accepted, part: usize) -> Result<Tree, NoMemory>
    requires { part < length acc.now.parts }
    ensures { IfOk result (λ tree. (d : PartDef) → IsGuestTree acc.now (slice_index_or acc.now.parts part d) tree) }
{
    accepted_keep_parts();
    let config = acc.config();
    tree_of(alloc, config, &config.parts.as_slice()[part])
}
