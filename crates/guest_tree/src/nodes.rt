//! The nodes of a guest tree that stand alone.

ghost use Rattle.std.specs.Prelude.{◌≡◌, [], ◌∷◌, ◌++◌, IfOk, OnOk};
ghost use Rattle.std.specs.List.{flat_map};
ghost use Rattle.dt_model.specs.Node.{node_tokens};
ghost use Rattle.guest_tree.specs.Properties as spec;
ghost use Rattle.guest_tree.specs.Tokens as tokens;
ghost use Rattle.dt_make.specs.Values as values;

use config_checks::size_of;
use dt_make::{leaf, push, push_cell, push_double, push_empty, push_number, push_text};
use dt_model::{Node, Property};
use hv_config::{Config, GuestAreaDef, PartDef};
use outside::NoMemory;
use std::alloc::Global;

/// What the root says.
pub fn root_properties(alloc: Global, part: &PartDef) -> Result<Vec<Property>, NoMemory>
    ensures { IfOk result (λ properties. properties.items ≡ spec.root_properties part.now) }
{
    let mut properties = Vec::new(alloc);
    push_number(alloc, &mut properties, b"#address-cells", 2)?;
    push_number(alloc, &mut properties, b"#size-cells", 2)?;
    push_text(alloc, &mut properties, b"compatible", b"topaz,guest")?;
    push_text(alloc, &mut properties, b"model", part.name.as_slice())?;
    Ok(properties)
}

/// The address and the size of a guest area.
fn push_range(value: &mut Vec<u8>, config: &Config, guest: &GuestAreaDef) -> Result<(), NoMemory>
    ensures { OnOk result (value.new.items ≡ value.old.items ++ spec.range_of config.now guest.now) }
{
    push_double(value, guest.at)?;
    push_double(
        value,
        size_of(config.areas.as_slice(), guest.area.as_slice()),
    )
}

/// The addresses and the sizes of guest areas.
fn ranges_of(alloc: Global, config: &Config, guests: &[GuestAreaDef]) -> Result<Vec<u8>, NoMemory>
    ensures { IfOk result (λ value. value.items ≡ flat_map (spec.range_of config.now) guests.now) }
{
    let mut value = Vec::new(alloc);
    for guest in guests {
        push_range(&mut value, config, guest)?;
    }
    Ok(value)
}

/// The node of the partition's memory.
pub fn memory(alloc: Global, config: &Config, part: &PartDef) -> Result<Node, NoMemory>
    ensures { IfOk result (λ node. node_tokens node ≡ tokens.memory_tokens config.now part.now) }
{
    let mut properties = Vec::new(alloc);
    push_text(alloc, &mut properties, b"device_type", b"memory")?;
    let ranges = ranges_of(alloc, config, part.areas.as_slice())?;
    push(alloc, &mut properties, b"reg", ranges)?;
    leaf(alloc, b"memory", properties)
}

/// The node of the interrupt controller.
pub fn pic(alloc: Global) -> Result<Node, NoMemory>
    ensures { IfOk result (λ node. node_tokens node ≡ tokens.pic_tokens) }
{
    let mut properties = Vec::new(alloc);
    push_text(alloc, &mut properties, b"compatible", b"epapr,hv-pic")?;
    push_empty(alloc, &mut properties, b"interrupt-controller")?;
    push_number(alloc, &mut properties, b"#interrupt-cells", 2)?;
    push_number(alloc, &mut properties, b"phandle", PIC_HANDLE)?;
    leaf(alloc, b"pic", properties)
}

/// The number by which other nodes name the interrupt controller.
pub const PIC_HANDLE: u32 = 1;

/// The instructions of a hypercall.
fn hypercall(alloc: Global) -> Result<Vec<u8>, NoMemory>
    ensures { IfOk result (λ value. value.items ≡ values.cells spec.hypercall) }
{
    let mut value = Vec::new(alloc);
    for word in [0x4400_0022, 0x6000_0000, 0x6000_0000, 0x6000_0000] {
        push_cell(&mut value, word)?;
    }
    Ok(value)
}

/// What the node of the hypervisor says.
pub fn hypervisor_properties(alloc: Global) -> Result<Vec<Property>, NoMemory>
    ensures { IfOk result (λ properties. properties.items ≡ spec.hypervisor_properties) }
{
    let mut properties = Vec::new(alloc);
    push_text(alloc, &mut properties, b"compatible", b"topaz,hypervisor")?;
    let words = hypercall(alloc)?;
    push(alloc, &mut properties, b"hcall-instructions", words)?;
    push_empty(alloc, &mut properties, b"has-idle")?;
    Ok(properties)
}
