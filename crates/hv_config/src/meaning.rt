//! The configuration that a tree says, read from its nodes by their names.

ghost use Rattle.std.specs.Prelude.{◌≡◌, IfOk, map, find, position};
ghost use Rattle.std.specs.Option.{option_copied};
ghost use Rattle.hv_config.specs.Meaning as spec;

use crate::config::{AreaDef, BellDef, ChannelDef, Config, GuestAreaDef, HandleDef, PartDef};
use crate::form::{Kind, cores_in, kind_in};
use dt_model::{Node, prop, text_of, u64_of};
use outside::{Bytes, Listed, NoMemory};
use std::alloc::Global;

/// The number in the property, and 0 without one.
fn number_at(node: &Node, name: &[u8]) -> u64
    ensures { result ≡ spec.number_at node.now name.now }
{
    match prop(node, name) {
        Some(value) => u64_of(value).unwrap_or(0),
        None => 0,
    }
}

/// The text in the property, if there is one.
fn text_at(alloc: Global, node: &Node, name: &[u8]) -> Result<Option<Bytes>, NoMemory>
    ensures { IfOk result (λ text. text ≡ spec.text_at node.now name.now) }
{
    match prop(node, name) {
        Some(value) => match text_of(value) {
            Some(text) => Ok(Some(Bytes::of(alloc, text)?)),
            None => Ok(None),
        },
        None => Ok(None),
    }
}

/// The text in the property, and no bytes without one.
fn text_or_none(alloc: Global, node: &Node, name: &[u8]) -> Result<Bytes, NoMemory>
    ensures { IfOk result (λ text. text ≡ spec.text_or_none node.now name.now) }
{
    match text_at(alloc, node, name)? {
        Some(text) => Ok(text),
        None => Bytes::of(alloc, b""),
    }
}

/// The numbers in the property.
fn cores_at(alloc: Global, node: &Node, name: &[u8]) -> Result<Listed<u32>, NoMemory>
    ensures { IfOk result (λ cores. cores ≡ spec.cores_at node.now name.now) }
{
    match prop(node, name) {
        Some(value) => Ok(Listed::from_vec(cores_in(alloc, value)?)),
        None => Ok(Listed::new(alloc)),
    }
}

/// The kind that the property names.
fn kind_at(node: &Node, name: &[u8]) -> Kind
    ensures { result ≡ spec.kind_at node.now name.now }
{
    match prop(node, name) {
        Some(value) => kind_in(value).unwrap_or(Kind::Channel),
        None => Kind::Channel,
    }
}

/// The first of the nodes with the name.
fn child_named<'a>(nodes: &'a [Node], name: &[u8]) -> Option<&'a Node>
    ensures { option_copied result ≡ find (spec.is_named name.now) nodes.now }
{
    nodes.iter().find(|node| node.name.as_slice() == name)
}

/// Where that node stands.
fn position_named(nodes: &[Node], name: &[u8]) -> Option<usize>
    ensures { result ≡ position (spec.is_named name.now) nodes.now }
{
    nodes.iter().position(|node| node.name.as_slice() == name)
}

/// The children of the node's child with the name.
#[tactic(auto, unfolding(crate::specs::Meaning::list_in))]
fn list_in<'a>(node: &'a Node, name: &[u8]) -> &'a [Node]
    ensures { result.now ≡ spec.list_in node.now name.now }
{
    match child_named(&node.children, name) {
        Some(list) => &list.children,
        None => &[],
    }
}

/// Where that child stands among the node's children.
#[tactic(auto, unfolding(crate::specs::Meaning::place_in))]
fn place_in(node: &Node, name: &[u8]) -> usize
    ensures { result ≡ spec.place_in node.now name.now }
{
    position_named(&node.children, name).unwrap_or(0)
}

/// An area.
#[tactic(auto, unfolding(crate::specs::Meaning::area_def))]
fn area_def(alloc: Global, node: &Node) -> Result<AreaDef, NoMemory>
    ensures { IfOk result (λ def. def ≡ spec.area_def node.now) }
{
    Ok(AreaDef {
        name: node.name.copy(alloc)?,
        base: number_at(node, b"base"),
        size: number_at(node, b"size"),
    })
}

/// The areas in a list.
fn areas(alloc: Global, nodes: &[Node]) -> Result<Listed<AreaDef>, NoMemory>
    ensures { IfOk result (λ defs. defs ≡ map spec.area_def nodes.now) }
{
    let mut defs = Listed::new(alloc);
    for node in nodes {
        defs.push(area_def(alloc, node)?)?;
    }
    Ok(defs)
}

/// A channel.
#[tactic(auto, unfolding(crate::specs::Meaning::channel_def))]
fn channel_def(alloc: Global, node: &Node) -> Result<ChannelDef, NoMemory>
    ensures { IfOk result (λ def. def ≡ spec.channel_def node.now) }
{
    Ok(ChannelDef {
        name: node.name.copy(alloc)?,
        console: text_at(alloc, node, b"console")?,
    })
}

/// The channels in a list.
fn channels(alloc: Global, nodes: &[Node]) -> Result<Listed<ChannelDef>, NoMemory>
    ensures { IfOk result (λ defs. defs ≡ map spec.channel_def nodes.now) }
{
    let mut defs = Listed::new(alloc);
    for node in nodes {
        defs.push(channel_def(alloc, node)?)?;
    }
    Ok(defs)
}

/// A doorbell.
#[tactic(auto, unfolding(crate::specs::Meaning::bell_def))]
fn bell_def(alloc: Global, node: &Node) -> Result<BellDef, NoMemory>
    ensures { IfOk result (λ def. def ≡ spec.bell_def node.now) }
{
    Ok(BellDef {
        name: node.name.copy(alloc)?,
    })
}

/// The doorbells in a list.
fn bells(alloc: Global, nodes: &[Node]) -> Result<Listed<BellDef>, NoMemory>
    ensures { IfOk result (λ defs. defs ≡ map spec.bell_def nodes.now) }
{
    let mut defs = Listed::new(alloc);
    for node in nodes {
        defs.push(bell_def(alloc, node)?)?;
    }
    Ok(defs)
}

/// A guest area.
#[tactic(auto, unfolding(crate::specs::Meaning::guest_area_def))]
fn guest_area_def(alloc: Global, node: &Node) -> Result<GuestAreaDef, NoMemory>
    ensures { IfOk result (λ def. def ≡ spec.guest_area_def node.now) }
{
    Ok(GuestAreaDef {
        name: node.name.copy(alloc)?,
        area: text_or_none(alloc, node, b"area")?,
        at: number_at(node, b"at"),
    })
}

/// The guest areas in a list.
fn guest_areas(alloc: Global, nodes: &[Node]) -> Result<Listed<GuestAreaDef>, NoMemory>
    ensures { IfOk result (λ defs. defs ≡ map spec.guest_area_def nodes.now) }
{
    let mut defs = Listed::new(alloc);
    for node in nodes {
        defs.push(guest_area_def(alloc, node)?)?;
    }
    Ok(defs)
}

/// A handle.
#[tactic(auto, unfolding(crate::specs::Meaning::handle_def))]
fn handle_def(alloc: Global, node: &Node) -> Result<HandleDef, NoMemory>
    ensures { IfOk result (λ def. def ≡ spec.handle_def node.now) }
{
    Ok(HandleDef {
        name: node.name.copy(alloc)?,
        kind: kind_at(node, b"kind"),
        target: text_or_none(alloc, node, b"target")?,
    })
}

/// The handles in a list.
fn handles(alloc: Global, nodes: &[Node]) -> Result<Listed<HandleDef>, NoMemory>
    ensures { IfOk result (λ defs. defs ≡ map spec.handle_def nodes.now) }
{
    let mut defs = Listed::new(alloc);
    for node in nodes {
        defs.push(handle_def(alloc, node)?)?;
    }
    Ok(defs)
}

/// A partition.
#[tactic(auto, unfolding(crate::specs::Meaning::part_def))]
fn part_def(alloc: Global, node: &Node) -> Result<PartDef, NoMemory>
    ensures { IfOk result (λ def. def ≡ spec.part_def node.now) }
{
    Ok(PartDef {
        name: node.name.copy(alloc)?,
        cpus: cores_at(alloc, node, b"cpus")?,
        image: text_or_none(alloc, node, b"image")?,
        image_at: number_at(node, b"image-at"),
        tree_at: number_at(node, b"tree-at"),
        tree_size: number_at(node, b"tree-size"),
        held: prop(node, b"held").is_some(),
        bootargs: text_at(alloc, node, b"bootargs")?,
        areas_at: place_in(node, b"areas"),
        areas: guest_areas(alloc, list_in(node, b"areas"))?,
        handles_at: place_in(node, b"handles"),
        handles: handles(alloc, list_in(node, b"handles"))?,
    })
}

/// The partitions in a list.
fn parts(alloc: Global, nodes: &[Node]) -> Result<Listed<PartDef>, NoMemory>
    ensures { IfOk result (λ defs. defs ≡ map spec.part_def nodes.now) }
{
    let mut defs = Listed::new(alloc);
    for node in nodes {
        defs.push(part_def(alloc, node)?)?;
    }
    Ok(defs)
}

/// The configuration that the root says.
#[tactic(auto, unfolding(crate::specs::Meaning::config_in))]
pub fn config_in(alloc: Global, root: &Node) -> Result<Config, NoMemory>
    ensures { IfOk result (λ config. config ≡ spec.config_in root.now) }
{
    Ok(Config {
        areas_at: place_in(root, b"areas"),
        areas: areas(alloc, list_in(root, b"areas"))?,
        channels_at: place_in(root, b"channels"),
        channels: channels(alloc, list_in(root, b"channels"))?,
        bells_at: place_in(root, b"doorbells"),
        bells: bells(alloc, list_in(root, b"doorbells"))?,
        parts_at: place_in(root, b"partitions"),
        parts: parts(alloc, list_in(root, b"partitions"))?,
    })
}
