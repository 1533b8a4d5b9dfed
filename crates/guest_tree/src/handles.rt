//! The nodes of the handles.

ghost use Rattle.std.specs.Prelude.{◌≡◌, ◌≤◌, ◌<◌, ◌+◌, [], ◌∷◌, ◌++◌, IfOk, OnOk, length};
ghost use Rattle.std.specs.List.{flat_map};
ghost use Rattle.machine_desc.specs.Limits.{most_handles};
ghost use Rattle.dt_model.specs.Node.{node_tokens};
ghost use Rattle.guest_tree.specs.Properties as spec;
ghost use Rattle.guest_tree.specs.Tokens as tokens;

use crate::nodes::{PIC_HANDLE, hypervisor_properties};
use config_descs::interrupts_of;
use dt_make::{leaf, node, push, push_cell, push_number, push_text};
use dt_model::{Node, Property};
use hv_config::{HandleDef, Kind, PartDef};
use outside::NoMemory;
use std::alloc::Global;

/// What each handle's node begins with: how it is used, and its number.
fn begin(alloc: Global, compatible: &[u8], number: u32) -> Result<Vec<Property>, NoMemory>
    ensures { IfOk result (λ properties. properties.items ≡ spec.compatible compatible.now ∷ spec.number_property number ∷ []) }
{
    let mut properties = Vec::new(alloc);
    push_text(alloc, &mut properties, b"compatible", compatible)?;
    push_number(alloc, &mut properties, b"hv-handle", number)?;
    Ok(properties)
}

/// Appends an interrupt.
fn push_interrupt(value: &mut Vec<u8>, interrupt: u8) -> Result<(), NoMemory>
    ensures { OnOk result (value.new.items ≡ value.old.items ++ spec.interrupt_cells interrupt) }
{
    push_cell(value, u32::from(interrupt))?;
    push_cell(value, 0)
}

/// Appends which interrupts a handle has, and whose they are.
fn push_interrupts(
    alloc: Global,
    properties: &mut Vec<Property>,
    interrupts: Vec<u8>,
) -> Result<(), NoMemory>
    ensures { OnOk result (properties.new.items ≡ properties.old.items ++ spec.interrupts_properties interrupts.items) }
{
    push(alloc, properties, b"interrupts", interrupts)?;
    push_number(alloc, properties, b"interrupt-parent", PIC_HANDLE)
}

/// What the node of a channel handle says: the first interrupt is that of received bytes.
fn channel(alloc: Global, number: u32, next: u8) -> Result<Vec<Property>, NoMemory>
    requires { next < 255 }
    ensures { IfOk result (λ properties. properties.items ≡ spec.channel_properties number next) }
{
    let mut properties = begin(alloc, b"epapr,hv-byte-channel", number)?;
    let (rx, tx) = (next, next + 1);
    let mut interrupts = Vec::new(alloc);
    push_interrupt(&mut interrupts, rx)?;
    push_interrupt(&mut interrupts, tx)?;
    push_interrupts(alloc, &mut properties, interrupts)?;
    Ok(properties)
}

/// What the node of a receive handle says.
fn receive(alloc: Global, number: u32, next: u8) -> Result<Vec<Property>, NoMemory>
    ensures { IfOk result (λ properties. properties.items ≡ spec.receive_properties number next) }
{
    let mut properties = begin(alloc, b"epapr,hv-receive-doorbell", number)?;
    let mut interrupts = Vec::new(alloc);
    push_interrupt(&mut interrupts, next)?;
    push_interrupts(alloc, &mut properties, interrupts)?;
    Ok(properties)
}

/// What the node of a manage handle says.
fn manage(alloc: Global, number: u32, target: &[u8]) -> Result<Vec<Property>, NoMemory>
    ensures { IfOk result (λ properties. properties.items ≡ spec.manage_properties number target.now) }
{
    let mut properties = begin(alloc, b"topaz,managed-partition", number)?;
    push_text(alloc, &mut properties, b"label", target)?;
    Ok(properties)
}

/// What the node of a handle with this number says, where its first interrupt would be this one.
#[tactic(auto, unfolding(crate::specs::Properties::handle_properties))]
fn handle_properties(
    alloc: Global,
    number: u32,
    next: u8,
    handle: &HandleDef,
) -> Result<Vec<Property>, NoMemory>
    requires { next < 255 }
    ensures { IfOk result (λ properties. properties.items ≡ spec.handle_properties number next handle.now) }
{
    match handle.kind {
        Kind::Channel => channel(alloc, number, next),
        Kind::Receive => receive(alloc, number, next),
        Kind::Send => begin(alloc, b"topaz,send-doorbell", number),
        Kind::Manage => manage(alloc, number, handle.target.as_slice()),
    }
}

/// The nodes of handles.
fn handles(alloc: Global, handles: &[HandleDef]) -> Result<Vec<Node>, NoMemory>
    requires { length handles.now ≤ most_handles }
    ensures { IfOk result (λ nodes. flat_map node_tokens nodes.items ≡ tokens.handle_tokens 1 0 handles.now) }
{
    let mut nodes = Vec::new(alloc);
    let mut number = 1u32;
    let mut next = 0u8;
    for handle in handles {
        let properties = handle_properties(alloc, number, next, handle)?;
        nodes.push(leaf(alloc, handle.name.as_slice(), properties)?)?;
        number += 1;
        next += interrupts_of(handle.kind);
    }
    Ok(nodes)
}

/// The node of the hypervisor, with the handles below it.
#[tactic(auto, unfolding(crate::specs::Tokens::hypervisor_tokens))]
pub fn hypervisor(alloc: Global, part: &PartDef) -> Result<Node, NoMemory>
    requires { length part.now.handles ≤ most_handles }
    ensures { IfOk result (λ node. node_tokens node ≡ tokens.hypervisor_tokens part.now) }
{
    let nodes = handles(alloc, part.handles.as_slice())?;
    let below = node(alloc, b"handles", Vec::new(alloc), nodes)?;
    let properties = hypervisor_properties(alloc)?;
    let mut children = Vec::new(alloc);
    children.push(below)?;
    node(alloc, b"hypervisor", properties, children)
}
