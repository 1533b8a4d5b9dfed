//! The tree of the hardware.

ghost use Rattle.std.specs.Prelude.{◌≡◌, ◌<◌, ◌≤◌, IfOk, OnOk};
ghost use Rattle.std.specs.List.{flat_map};
ghost use Rattle.dt_model.specs.Node.{node_tokens};
ghost use Rattle.gen_load.specs.Tokens as spec;

use crate::names::digit;
use dt_make::{leaf, node, push, push_double, push_number, push_text};
use dt_model::{Node, Property, Tree};
use outside::NoMemory;
use std::alloc::Global;

/// How much memory there is, in bytes.
const MEMORY_SIZE: u64 = 0x100_0000;

/// A cpu.
fn cpu(alloc: Global, number: u32) -> Result<Node, NoMemory>
    requires { number < 8 }
    ensures { IfOk result (λ node. node_tokens node ≡ spec.cpu_tokens number) }
{
    let mut properties = Vec::new(alloc);
    push_text(alloc, &mut properties, b"device_type", b"cpu")?;
    push_number(alloc, &mut properties, b"reg", number)?;
    let mut name = Vec::from_slice(alloc, b"cpu@")?;
    name.push(digit(number))?;
    leaf(alloc, name.as_slice(), properties)
}

/// The cpus.
fn cpus(alloc: Global, count: u32) -> Result<Vec<Node>, NoMemory>
    requires { count ≤ 8 }
    ensures { IfOk result (λ nodes. flat_map node_tokens nodes.items ≡ spec.all spec.cpu_tokens count) }
{
    let mut nodes = Vec::new(alloc);
    for number in 0..count {
        nodes.push(cpu(alloc, number)?)?;
    }
    Ok(nodes)
}

/// How many cells the children's addresses and sizes have.
fn cell_counts(alloc: Global, address: u32, size: u32) -> Result<Vec<Property>, NoMemory>
    ensures { IfOk result (λ properties. properties.items ≡ spec.cell_counts address size) }
{
    let mut properties = Vec::new(alloc);
    push_number(alloc, &mut properties, b"#address-cells", address)?;
    push_number(alloc, &mut properties, b"#size-cells", size)?;
    Ok(properties)
}

/// The memory, from address 0 on.
fn memory(alloc: Global) -> Result<Node, NoMemory>
    ensures { IfOk result (λ node. node_tokens node ≡ spec.memory_tokens) }
{
    let mut properties = Vec::new(alloc);
    push_text(alloc, &mut properties, b"device_type", b"memory")?;
    let mut range = Vec::new(alloc);
    push_double(&mut range, 0)?;
    push_double(&mut range, MEMORY_SIZE)?;
    push(alloc, &mut properties, b"reg", range)?;
    leaf(alloc, b"memory", properties)
}

/// The nodes below the root.
fn devices(alloc: Global, count: u32) -> Result<Vec<Node>, NoMemory>
    requires { count ≤ 8 }
    ensures { IfOk result (λ nodes. flat_map node_tokens nodes.items ≡ spec.devices_tokens count) }
{
    let counts = cell_counts(alloc, 1, 0)?;
    let cpus = cpus(alloc, count)?;
    let mut nodes = Vec::new(alloc);
    nodes.push(node(alloc, b"cpus", counts, cpus)?)?;
    nodes.push(memory(alloc)?)?;
    Ok(nodes)
}

/// The hardware for so many partitions.
#[tactic(auto, unfolding(crate::specs::Tokens::hardware_tokens))]
pub fn hardware(alloc: Global, count: u32) -> Result<Tree, NoMemory>
    requires { count ≤ 8 }
    ensures { IfOk result (λ tree. spec.IsTreeOf (spec.hardware_tokens count) tree) }
{
    let counts = cell_counts(alloc, 2, 2)?;
    let devices = devices(alloc, count)?;
    Ok(Tree {
        reserve: Vec::new(alloc),
        boot_cpu: 0,
        root: node(alloc, b"", counts, devices)?,
    })
}
