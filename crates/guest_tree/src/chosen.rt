//! The node of what is chosen for the guest (ePAPR 1.1, 3.5 "Chosen").

ghost use Rattle.std.specs.Prelude.{◌≡◌, ◌++◌, IfOk, OnOk, find};
ghost use Rattle.std.specs.Option.{option_copied};
ghost use Rattle.dt_model.specs.Node.{node_tokens};
ghost use Rattle.guest_tree.specs.Properties as spec;
ghost use Rattle.guest_tree.specs.Tokens as tokens;

use dt_make::{leaf, push_text};
use dt_model::{Node, Property};
use hv_config::{HandleDef, Kind, PartDef};
use outside::{Bytes, NoMemory};
use std::alloc::Global;

/// Whether the handle is on a channel.
fn is_channel(handle: &HandleDef) -> bool
    ensures { result ≡ spec.is_channel handle.now }
{
    match handle.kind {
        Kind::Channel => true,
        _ => false,
    }
}

/// The first handle on a channel.
fn first_channel(handles: &[HandleDef]) -> Option<&HandleDef>
    ensures { option_copied result ≡ find spec.is_channel handles.now }
{
    handles.iter().find(|handle| is_channel(handle))
}

/// The path of the handle's node.
fn handle_path(alloc: Global, handle: &HandleDef) -> Result<Vec<u8>, NoMemory>
    ensures { IfOk result (λ path. path.items ≡ spec.handle_path handle.now) }
{
    let mut path = Vec::from_slice(alloc, b"/hypervisor/handles/")?;
    path.extend_from_slice(handle.name.as_slice())?;
    Ok(path)
}

/// The boot arguments, where there are any.
fn push_bootargs(
    alloc: Global,
    properties: &mut Vec<Property>,
    bootargs: &Option<Bytes>,
) -> Result<(), NoMemory>
    ensures { OnOk result (properties.new.items ≡ properties.old.items ++ spec.bootargs_properties bootargs.now) }
{
    match bootargs {
        Some(bootargs) => push_text(alloc, properties, b"bootargs", bootargs.as_slice()),
        None => Ok(()),
    }
}

/// The path of the handle that the guest writes to, where there is one.
fn push_stdout(
    alloc: Global,
    properties: &mut Vec<Property>,
    handle: Option<&HandleDef>,
) -> Result<(), NoMemory>
    ensures { OnOk result (properties.new.items ≡ properties.old.items ++ spec.stdout_properties (option_copied handle.entry)) }
{
    match handle {
        Some(handle) => {
            let path = handle_path(alloc, handle)?;
            push_text(alloc, properties, b"stdout-path", path.as_slice())
        }
        None => Ok(()),
    }
}

/// The node of what is chosen.
#[tactic(auto, unfolding(crate::specs::Properties::chosen_properties))]
pub fn chosen(alloc: Global, part: &PartDef) -> Result<Node, NoMemory>
    ensures { IfOk result (λ node. node_tokens node ≡ tokens.chosen_tokens part.now) }
{
    let mut properties = Vec::new(alloc);
    push_bootargs(alloc, &mut properties, &part.bootargs)?;
    let stdout = first_channel(part.handles.as_slice());
    push_stdout(alloc, &mut properties, stdout)?;
    leaf(alloc, b"chosen", properties)
}
