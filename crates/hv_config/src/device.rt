//! The cpus and the memory nodes of a hardware tree, in document order.

ghost use Rattle.std.specs.Prelude.{◌≡◌, ◌++◌, IfOk, codes};
ghost use Rattle.std.specs.List.{flat_map};
ghost use Rattle.hv_config.specs.Meaning.{is_named};
ghost use Rattle.hv_config.specs.Device as spec;

use crate::cells::{Cells, cells_of};
use dt_model::{Node, prop, text_of};
use outside::{Bytes, NoMemory};
use std::alloc::Global;
use std::marker::Model;

/// A cpu's or a memory's node, with its path and the cell counts that its parent gives. They are read once for all
/// children, since a parent can have as many properties as children.
#[derive(Drop)]
pub struct Device<'a> {
    pub is_cpu: bool,
    pub path: Bytes,
    pub address: Option<Cells>,
    pub size: Option<Cells>,
    pub node: &'a Node,
}

impl<'a> Model for Device<'a> {
    ghost use Rattle.hv_config.specs.Device.{DeviceValue};
    ghost use Rattle.dt_model.specs.contracts.tree.Node.{the_row};
    ghost use Rattle.std.specs.Coded.{codes};

    ghost Value = { DeviceValue };

    ghost coded = { Prim.hlevel (codes, the_row.coded) };

    ghost view = { λ device. record {
      is_cpu = device.is_cpu;
      path = device.path;
      address = device.address;
      size = device.size;
      node = device.node.now;
    } };
}

/// The node's `device_type` is the text (ePAPR 1.1, 2.3.11).
fn is_device(text: &[u8], node: &Node) -> bool
    ensures { result ≡ spec.is_device text.now node.now }
{
    match prop(node, b"device_type") {
        Some(value) => match text_of(value) {
            Some(found) => found == text,
            None => false,
        },
        None => false,
    }
}

/// The name behind a front.
fn path_of(alloc: Global, front: &[u8], name: &[u8]) -> Result<Bytes, NoMemory>
    ensures { IfOk result (λ path. path ≡ front.now ++ name.now) }
{
    let mut path = Vec::from_slice(alloc, front)?;
    path.extend_from_slice(name)?;
    Ok(Bytes::from_vec(path))
}

/// The cell count of an address, 2 where none is given.
fn address_in(parent: &Node) -> Option<Cells>
    ensures { result ≡ spec.address_in parent.now }
{
    cells_of(parent, b"#address-cells", Cells::Two)
}

/// The cell count of a size, 1 where none is given.
fn size_in(parent: &Node) -> Option<Cells>
    ensures { result ≡ spec.size_in parent.now }
{
    cells_of(parent, b"#size-cells", Cells::One)
}

/// The cpus among nodes that stand under one parent.
#[tactic(auto, unfolding(crate::specs::Device::cpus_among))]
fn cpus_among<'a>(
    alloc: Global,
    address: Option<Cells>,
    size: Option<Cells>,
    nodes: &'a [Node],
) -> Result<Vec<Device<'a>>, NoMemory>
    ensures { IfOk result (λ devices. devices.items ≡ spec.cpus_among address size nodes.now) }
{
    let mut devices = Vec::new(alloc);
    for node in nodes {
        if is_device(b"cpu", node) {
            let path = path_of(alloc, b"/cpus/", node.name.as_slice())?;
            devices.push(Device {
                is_cpu: true,
                path,
                address,
                size,
                node,
            })?;
        }
    }
    Ok(devices)
}

/// The cpus of a node that holds them.
#[tactic(auto, unfolding(crate::specs::Device::cpus_under))]
fn cpus_under<'a>(alloc: Global, parent: &'a Node) -> Result<Vec<Device<'a>>, NoMemory>
    ensures { IfOk result (λ devices. devices.items ≡ spec.cpus_under parent.now) }
{
    cpus_among(alloc, address_in(parent), size_in(parent), &parent.children)
}

/// Whether the node is the one that holds the cpus.
fn holds_cpus(node: &Node) -> bool
    ensures { result ≡ is_named (codes "cpus") node.now }
{
    node.name.as_slice() == b"cpus".as_slice()
}

/// What a child of the root is, or holds.
#[tactic(auto, unfolding(crate::specs::Device::devices_at))]
fn devices_at<'a>(
    alloc: Global,
    address: Option<Cells>,
    size: Option<Cells>,
    child: &'a Node,
) -> Result<Vec<Device<'a>>, NoMemory>
    ensures { IfOk result (λ devices. devices.items ≡ spec.devices_at address size child.now) }
{
    let mut devices = Vec::new(alloc);
    if is_device(b"memory", child) {
        let path = path_of(alloc, b"/", child.name.as_slice())?;
        devices.push(Device {
            is_cpu: false,
            path,
            address,
            size,
            node: child,
        })?;
    }
    if holds_cpus(child) {
        let mut cpus = cpus_under(alloc, child)?;
        devices.append(&mut cpus)?;
    }
    Ok(devices)
}

/// What the children of the root are, or hold.
fn devices_among<'a>(
    alloc: Global,
    address: Option<Cells>,
    size: Option<Cells>,
    children: &'a [Node],
) -> Result<Vec<Device<'a>>, NoMemory>
    ensures { IfOk result (λ devices. devices.items ≡ flat_map (spec.devices_at address size) children.now) }
{
    let mut devices = Vec::new(alloc);
    for child in children {
        let mut more = devices_at(alloc, address, size, child)?;
        devices.append(&mut more)?;
    }
    Ok(devices)
}

/// All cpus and memory nodes.
#[tactic(auto, unfolding(crate::specs::Device::devices_of))]
pub fn devices_of<'a>(alloc: Global, root: &'a Node) -> Result<Vec<Device<'a>>, NoMemory>
    ensures { IfOk result (λ devices. devices.items ≡ spec.devices_of root.now) }
{
    devices_among(alloc, address_in(root), size_in(root), &root.children)
}
