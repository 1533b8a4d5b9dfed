//! The nodes of the cores.

ghost use Rattle.std.specs.Prelude.{◌≡◌, ◌≤◌, ◌<◌, ◌+◌, [], ◌∷◌, ◌++◌, IfOk, OnOk, length};
ghost use Rattle.std.specs.List.{flat_map, range_with_len};
ghost use Rattle.hv_config.specs.declared.config.Config.{Config};
ghost use Rattle.machine_desc.specs.Limits.{most_cores};
ghost use Rattle.machine_desc.specs.Sound.{spin_at as spin_word};
ghost use Rattle.dt_model.specs.Node.{node_tokens};
ghost use Rattle.config_descs.specs.Desc.{desc_of};
ghost use Rattle.guest_tree.specs.Guest.{HasSpinRoom};
ghost use Rattle.guest_tree.specs.Properties as spec;
ghost use Rattle.guest_tree.specs.Tokens as tokens;

use dt_make::{leaf, node, push_address, push_number, push_text};
use dt_model::{Node, Property};
use hv_config::PartDef;
use itoa::Buffer;
use outside::NoMemory;
use std::alloc::Global;

/// The name of a core's node.
fn cpu_name(alloc: Global, core: u32) -> Result<Vec<u8>, NoMemory>
    ensures { IfOk result (λ name. name.items ≡ spec.cpu_name core) }
{
    let mut digits = Buffer::new();
    let mut name = Vec::from_slice(alloc, b"cpu@")?;
    name.extend_from_slice(digits.format(core).as_bytes())?;
    Ok(name)
}

/// The logical address of the spin entry of a core other than the first (ePAPR 1.1, 5.5.2).
#[tactic(auto, unfolding(config_descs::specs::Desc::desc_of))]
fn spin_at(part: &PartDef, core: u32) -> u64
    requires room { HasSpinRoom part.now }
    requires few { core < most_cores }
    ensures { (config : Config) → result ≡ spin_word (desc_of config part.now) core }
{
    part.tree_at + part.tree_size + 64 * u64::from(core) - 512
}

/// What the node of each core says.
fn start_properties(alloc: Global, status: &[u8], core: u32) -> Result<Vec<Property>, NoMemory>
    ensures { IfOk result (λ properties. properties.items ≡ spec.start_properties status.now core) }
{
    let mut properties = Vec::new(alloc);
    push_text(alloc, &mut properties, b"device_type", b"cpu")?;
    push_number(alloc, &mut properties, b"reg", core)?;
    push_text(alloc, &mut properties, b"status", status)?;
    push_number(alloc, &mut properties, b"clock-frequency", 1_000_000)?;
    push_number(alloc, &mut properties, b"timebase-frequency", 1_000_000)?;
    Ok(properties)
}

/// Appends how a core is released that spins.
fn push_spin(
    alloc: Global,
    properties: &mut Vec<Property>,
    part: &PartDef,
    core: u32,
) -> Result<(), NoMemory>
    requires room { HasSpinRoom part.now }
    requires few { core < most_cores }
    ensures { (config : Config) → OnOk result (properties.new.items ≡ properties.old.items ++ spec.spin_properties (desc_of config part.now) core) }
{
    push_text(alloc, properties, b"enable-method", b"spin-table")?;
    push_address(alloc, properties, b"cpu-release-addr", spin_at(part, core))
}

/// What the node of a core says.
#[tactic(auto, unfolding(crate::specs::Properties::cpu_properties))]
fn cpu_properties(alloc: Global, part: &PartDef, core: u32) -> Result<Vec<Property>, NoMemory>
    requires room { HasSpinRoom part.now }
    requires few { core < most_cores }
    ensures { (config : Config) → IfOk result (λ properties. properties.items ≡ spec.cpu_properties (desc_of config part.now) core) }
{
    if core == 0 {
        return start_properties(alloc, b"okay", core);
    }
    let mut properties = start_properties(alloc, b"disabled", core)?;
    push_spin(alloc, &mut properties, part, core)?;
    Ok(properties)
}

/// The node of a core.
fn cpu(alloc: Global, part: &PartDef, core: u32) -> Result<Node, NoMemory>
    requires room { HasSpinRoom part.now }
    requires few { core < most_cores }
    ensures { (config : Config) → IfOk result (λ node. node_tokens node ≡ tokens.cpu_tokens (desc_of config part.now) core) }
{
    let name = cpu_name(alloc, core)?;
    let properties = cpu_properties(alloc, part, core)?;
    leaf(alloc, name.as_slice(), properties)
}

/// The nodes of so many cores.
fn cpus_to(alloc: Global, part: &PartDef, count: u32) -> Result<Vec<Node>, NoMemory>
    requires room { HasSpinRoom part.now }
    requires few { count ≤ most_cores }
    ensures { (config : Config) → IfOk result (λ nodes.
        flat_map node_tokens nodes.items ≡ flat_map (tokens.cpu_tokens (desc_of config part.now)) (range_with_len 0 count)) }
{
    let mut nodes = Vec::new(alloc);
    for core in 0..count {
        nodes.push(cpu(alloc, part, core)?)?;
    }
    Ok(nodes)
}

/// What the node over the cores says.
fn cpus_properties(alloc: Global) -> Result<Vec<Property>, NoMemory>
    ensures { IfOk result (λ properties. properties.items ≡ spec.cpus_properties) }
{
    let mut properties = Vec::new(alloc);
    push_number(alloc, &mut properties, b"#address-cells", 1)?;
    push_number(alloc, &mut properties, b"#size-cells", 0)?;
    Ok(properties)
}

/// The node over the cores.
#[tactic(auto, unfolding(crate::specs::Tokens::cpus_tokens, config_descs::specs::Desc::desc_of))]
pub fn cpus(alloc: Global, part: &PartDef) -> Result<Node, NoMemory>
    requires room { HasSpinRoom part.now }
    requires few { length part.now.cpus ≤ most_cores }
    ensures { (config : Config) → IfOk result (λ node. node_tokens node ≡ tokens.cpus_tokens (desc_of config part.now)) }
{
    let properties = cpus_properties(alloc)?;
    let cores = cpus_to(alloc, part, part.cpus.as_slice().len() as u32)?;
    node(alloc, b"cpus", properties, cores)
}
