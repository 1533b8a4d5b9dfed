//! The tree of the configuration.

ghost use Rattle.std.specs.Prelude.{◌≡◌, ◌<◌, ◌≤◌, ◌++◌, [], IfOk, OnOk};
ghost use Rattle.std.specs.List.{flat_map};
ghost use Rattle.dt_model.specs.Node.{node_tokens, tokens_of};
ghost use Rattle.gen_load.specs.Tokens as spec;

use crate::names::name_of;
use crate::partition::part;
use dt_make::{leaf, node, push_address, push_text};
use dt_model::{Node, Property, Tree};
use outside::NoMemory;
use std::alloc::Global;

/// How large each area is, in bytes.
const AREA_SIZE: u64 = 0x10_0000;

/// An area of real memory. They lie one behind the other.
fn area(alloc: Global, place: u32) -> Result<Node, NoMemory>
    requires { place < 8 }
    ensures { IfOk result (λ node. node_tokens node ≡ spec.area_tokens place) }
{
    let mut properties = Vec::new(alloc);
    push_address(
        alloc,
        &mut properties,
        b"base",
        u64::from(place) * AREA_SIZE,
    )?;
    push_address(alloc, &mut properties, b"size", AREA_SIZE)?;
    leaf(alloc, &name_of(b'a', place), properties)
}

/// The areas.
fn areas(alloc: Global, count: u32) -> Result<Vec<Node>, NoMemory>
    requires { count ≤ 8 }
    ensures { IfOk result (λ nodes. flat_map node_tokens nodes.items ≡ spec.all spec.area_tokens count) }
{
    let mut nodes = Vec::new(alloc);
    for place in 0..count {
        nodes.push(area(alloc, place)?)?;
    }
    Ok(nodes)
}

/// A channel with a console.
fn with_console(alloc: Global, place: u32) -> Result<Node, NoMemory>
    requires { place < 8 }
    ensures { IfOk result (λ node. node_tokens node ≡ spec.console_tokens place) }
{
    let mut properties = Vec::new(alloc);
    push_text(alloc, &mut properties, b"console", &name_of(b'c', place))?;
    leaf(alloc, &name_of(b'k', place), properties)
}

/// The channels with consoles.
fn consoles(alloc: Global, count: u32) -> Result<Vec<Node>, NoMemory>
    requires { count ≤ 8 }
    ensures { IfOk result (λ nodes. flat_map node_tokens nodes.items ≡ spec.all spec.console_tokens count) }
{
    let mut nodes = Vec::new(alloc);
    for place in 0..count {
        nodes.push(with_console(alloc, place)?)?;
    }
    Ok(nodes)
}

/// A channel between partitions.
fn without_console(alloc: Global, place: u32) -> Result<Node, NoMemory>
    requires { place < 8 }
    ensures { IfOk result (λ node. node_tokens node ≡ spec.link_tokens place) }
{
    leaf(alloc, &name_of(b'l', place), Vec::new(alloc))
}

/// Appends the channels between partitions.
fn push_links(alloc: Global, nodes: &mut Vec<Node>, count: u32) -> Result<(), NoMemory>
    requires { count ≤ 8 }
    ensures { OnOk result (flat_map node_tokens nodes.new.items ≡ flat_map node_tokens nodes.old.items ++ spec.all spec.link_tokens count) }
{
    for place in 0..count {
        nodes.push(without_console(alloc, place)?)?;
    }
    Ok(())
}

/// The partitions.
fn parts(alloc: Global, count: u32) -> Result<Vec<Node>, NoMemory>
    requires { count ≤ 8 }
    ensures { IfOk result (λ nodes. flat_map node_tokens nodes.items ≡ spec.all (spec.part_tokens count) count) }
{
    let mut nodes = Vec::new(alloc);
    for place in 0..count {
        nodes.push(part(alloc, count, place)?)?;
    }
    Ok(nodes)
}

/// The lists below the root.
fn lists(alloc: Global, count: u32) -> Result<Vec<Node>, NoMemory>
    requires { count ≤ 8 }
    ensures { IfOk result (λ nodes. flat_map node_tokens nodes.items ≡ spec.lists_tokens count) }
{
    let areas = areas(alloc, count)?;
    let mut channels = consoles(alloc, count)?;
    push_links(alloc, &mut channels, count)?;
    let parts = parts(alloc, count)?;
    let mut nodes = Vec::new(alloc);
    nodes.push(node(alloc, b"areas", Vec::new(alloc), areas)?)?;
    nodes.push(node(alloc, b"channels", Vec::new(alloc), channels)?)?;
    nodes.push(node(alloc, b"partitions", Vec::new(alloc), parts)?)?;
    Ok(nodes)
}

/// What the root says.
fn root_properties(alloc: Global) -> Result<Vec<Property>, NoMemory>
    ensures { IfOk result (λ properties. properties.items ≡ spec.root_properties) }
{
    let mut properties = Vec::new(alloc);
    push_text(alloc, &mut properties, b"compatible", b"topaz,config")?;
    Ok(properties)
}

/// The configuration of so many partitions.
#[tactic(auto, unfolding(crate::specs::Tokens::config_tokens))]
pub fn config(alloc: Global, count: u32) -> Result<Tree, NoMemory>
    requires { count ≤ 8 }
    ensures { IfOk result (λ tree. spec.IsTreeOf (spec.config_tokens count) tree) }
{
    let properties = root_properties(alloc)?;
    let lists = lists(alloc, count)?;
    Ok(Tree {
        reserve: Vec::new(alloc),
        boot_cpu: 0,
        root: node(alloc, b"", properties, lists)?,
    })
}
