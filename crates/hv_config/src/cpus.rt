//! The cpus' numbers, and which cpus can be used.

ghost use Rattle.std.specs.Prelude.{◌≡◌, IfOk, [], count_by, is_some};
ghost use Rattle.std.specs.List.{list_any};
ghost use Rattle.std.specs.Option.{option_copied};
ghost use Rattle.hv_config.specs.Cpus as spec;

use crate::board::Cpu;
use crate::cells::{Cells, number_in, width};
use crate::device::Device;
use dt_model::{Node, prop, text_of};
use outside::{Listed, NoMemory};
use std::alloc::Global;

/// The first of one or more whole numbers.
fn first_number(cells: Cells, reg: &[u8]) -> Option<u64>
    ensures { result ≡ spec.first_number cells reg.now }
{
    if 0 < reg.len() && reg.len() % width(cells) == 0 {
        Some(number_in(cells, reg))
    } else {
        None
    }
}

/// The number of a well-formed cpu.
#[tactic(auto, unfolding(crate::specs::Cpus::number_of))]
pub fn number_of(device: &Device) -> Option<u64>
    ensures { result ≡ spec.number_of device.now }
{
    if !device.is_cpu {
        return None;
    }
    first_number(device.address?, prop(device.node, b"reg")?)
}

/// Whether that is its number.
fn has_number(number: u64, device: &Device) -> bool
    ensures { result ≡ spec.has_number number device.now }
{
    match number_of(device) {
        Some(other) => other == number,
        None => false,
    }
}

/// Whether one of the cpus has the number.
fn any_has_number(number: u64, devices: &[Device]) -> bool
    ensures { result ≡ list_any (spec.has_number number) devices.now }
{
    devices.iter().any(|device| has_number(number, device))
}

/// Its number is over 31, or one of an earlier cpu's. An ill one isn't compared, so at most 33 cpus ever are.
fn is_odd(earlier: &[Device], device: &Device) -> bool
    ensures { result ≡ spec.is_odd earlier.now device.now }
{
    match number_of(device) {
        Some(number) => 31 < number || any_has_number(number, earlier),
        None => false,
    }
}

/// The first such cpu.
pub fn first_odd<'s, 'a>(devices: &'s [Device<'a>]) -> Option<&'s Device<'a>>
    ensures { option_copied result ≡ spec.first_odd [] devices.now }
{
    for (i, device) in devices.iter().enumerate() {
        if is_odd(&devices[..i], device) {
            return Some(device);
        }
    }
    None
}

/// How many cpus have a number.
pub fn count_cpus(devices: &[Device]) -> usize
    ensures { result ≡ count_by (λ device. is_some (spec.number_of device)) devices.now }
{
    devices
        .iter()
        .filter(|device| number_of(device).is_some())
        .count()
}

/// Whether the text is the status of a cpu that can be used.
fn is_good_status(text: &[u8]) -> bool
    ensures { result ≡ spec.is_good_status text.now }
{
    text == b"okay".as_slice() || text == b"ok".as_slice() || text == b"disabled".as_slice()
}

/// Whether the cpu can be used.
fn is_usable(node: &Node) -> bool
    ensures { result ≡ spec.is_usable node.now }
{
    match prop(node, b"status") {
        Some(value) => match text_of(value) {
            Some(text) => is_good_status(text),
            None => false,
        },
        None => true,
    }
}

/// The cpu, if its number is one of a well-formed cpu and at most 31.
#[tactic(auto, unfolding(crate::specs::Cpus::cpu_of))]
fn cpu_of(device: &Device) -> Option<Cpu>
    ensures { result ≡ spec.cpu_of device.now }
{
    let number = number_of(device)?;
    if number <= 31 {
        Some(Cpu {
            number: number as u32,
            usable: is_usable(device.node),
        })
    } else {
        None
    }
}

/// The cpus.
pub fn cpus_in(alloc: Global, devices: &[Device]) -> Result<Listed<Cpu>, NoMemory>
    ensures { IfOk result (λ cpus. cpus ≡ spec.cpus_in devices.now) }
{
    let mut cpus = Listed::new(alloc);
    for device in devices {
        if let Some(cpu) = cpu_of(device) {
            cpus.push(cpu)?;
        }
    }
    Ok(cpus)
}
