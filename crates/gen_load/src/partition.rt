//! The nodes of a partition.

ghost use Rattle.std.specs.Prelude.{◌≡◌, ◌<◌, ◌≤◌, IfOk};
ghost use Rattle.std.specs.List.{flat_map};
ghost use Rattle.dt_model.specs.Node.{node_tokens};
ghost use Rattle.gen_load.specs.Tokens as spec;

use crate::names::name_of;
use dt_make::{leaf, node, push_address, push_number, push_text};
use dt_model::{Node, Property};
use outside::NoMemory;
use std::alloc::Global;

/// Where the window for the device tree begins, and its size in bytes.
const TREE_AT: u64 = 0x8000;

const TREE_SIZE: u64 = 0x4000;

/// The guest area: the whole of an area, from logical address 0 on.
fn guest_area(alloc: Global, place: u32) -> Result<Node, NoMemory>
    requires { place < 8 }
    ensures { IfOk result (λ node. node_tokens node ≡ spec.guest_area_tokens place) }
{
    let mut properties = Vec::new(alloc);
    push_text(alloc, &mut properties, b"area", &name_of(b'a', place))?;
    push_address(alloc, &mut properties, b"at", 0)?;
    leaf(alloc, b"m", properties)
}

/// A handle on a channel.
fn handle(alloc: Global, name: &[u8], target: &[u8]) -> Result<Node, NoMemory>
    ensures { IfOk result (λ node. node_tokens node ≡ spec.handle_tokens name.now target.now) }
{
    let mut properties = Vec::new(alloc);
    push_text(alloc, &mut properties, b"kind", b"channel")?;
    push_text(alloc, &mut properties, b"target", target)?;
    leaf(alloc, name, properties)
}

/// The handles: on a console, to the next partition, and from the one before.
fn handles(alloc: Global, count: u32, place: u32) -> Result<Vec<Node>, NoMemory>
    requires here { place < count }
    requires few { count ≤ 8 }
    ensures { IfOk result (λ nodes. flat_map node_tokens nodes.items ≡ spec.handles_tokens count place) }
{
    let before = (place + count - 1) % count;
    let mut nodes = Vec::new(alloc);
    nodes.push(handle(alloc, b"con", &name_of(b'k', place))?)?;
    nodes.push(handle(alloc, b"out", &name_of(b'l', place))?)?;
    nodes.push(handle(alloc, b"got", &name_of(b'l', before))?)?;
    Ok(nodes)
}

/// What the partition's node says.
fn properties(alloc: Global, place: u32) -> Result<Vec<Property>, NoMemory>
    requires { place < 8 }
    ensures { IfOk result (λ properties. properties.items ≡ spec.part_properties place) }
{
    let mut properties = Vec::new(alloc);
    push_number(alloc, &mut properties, b"cpus", place)?;
    push_text(alloc, &mut properties, b"image", &name_of(b'g', place))?;
    push_address(alloc, &mut properties, b"tree-at", TREE_AT)?;
    push_address(alloc, &mut properties, b"tree-size", TREE_SIZE)?;
    Ok(properties)
}

/// The lists of a partition: its guest area, and its handles.
fn lists(alloc: Global, count: u32, place: u32) -> Result<Vec<Node>, NoMemory>
    requires here { place < count }
    requires few { count ≤ 8 }
    ensures { IfOk result (λ nodes. flat_map node_tokens nodes.items ≡ spec.part_lists_tokens count place) }
{
    let mut areas = Vec::new(alloc);
    areas.push(guest_area(alloc, place)?)?;
    let mut nodes = Vec::new(alloc);
    nodes.push(node(alloc, b"areas", Vec::new(alloc), areas)?)?;
    let handles = handles(alloc, count, place)?;
    nodes.push(node(alloc, b"handles", Vec::new(alloc), handles)?)?;
    Ok(nodes)
}

/// One of so many partitions.
#[tactic(auto, unfolding(crate::specs::Tokens::part_tokens))]
pub fn part(alloc: Global, count: u32, place: u32) -> Result<Node, NoMemory>
    requires here { place < count }
    requires few { count ≤ 8 }
    ensures { IfOk result (λ node. node_tokens node ≡ spec.part_tokens count place) }
{
    let properties = properties(alloc, place)?;
    let lists = lists(alloc, count, place)?;
    node(alloc, &name_of(b'p', place), properties, lists)
}
