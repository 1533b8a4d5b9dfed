//! The hardware from a tree, and the rules H1 to H4.

ghost use Rattle.std.specs.Prelude.{◌≡◌, IfErr, IfOk, MatchResult, None, OnOk, Some, find};
ghost use Rattle.std.specs.Option.{option_copied, option_map};
ghost use Rattle.hv_config.specs.Rule.{Says};
ghost use Rattle.hv_config.specs.Hardware as spec;

use crate::board::{Board, Range};
use crate::cpus::{count_cpus, cpus_in, first_odd, number_of};
use crate::device::{Device, devices_of};
use crate::fault::{Fault, Rule};
use crate::memory::{memory_in, ranges_of};
use dt_model::Tree;
use outside::{Bytes, NoMemory};
use std::alloc::Global;

/// H4: the node isn't well formed.
fn is_ill(alloc: Global, device: &Device) -> Result<bool, NoMemory>
    ensures { IfOk result (λ ill. ill ≡ spec.is_ill device.now) }
{
    if device.is_cpu {
        Ok(number_of(device).is_none())
    } else {
        Ok(ranges_of(alloc, device)?.is_none())
    }
}

/// The first such node.
fn first_ill<'s, 'a>(
    alloc: Global,
    devices: &'s [Device<'a>],
) -> Result<Option<&'s Device<'a>>, NoMemory>
    ensures { IfOk result (λ found. option_copied found ≡ find spec.is_ill devices.now) }
{
    for device in devices {
        if is_ill(alloc, device)? {
            return Ok(Some(device));
        }
    }
    Ok(None)
}

/// The fault at the path.
fn fault_at(alloc: Global, number: u8, path: &[u8]) -> Fault
    ensures { Says result (Some (spec.broken_at number path.now)) }
{
    match Bytes::of(alloc, path) {
        Ok(at) => Fault::Broken {
            rule: Rule {
                letter: b'H',
                number,
            },
            at,
        },
        Err(_) => Fault::NoMemory,
    }
}

/// Refuses where a node was found.
fn refuse(alloc: Global, number: u8, device: Option<&Device>) -> Result<(), Fault>
    ensures { MatchResult result
        (λ _. option_copied device.entry ≡ None)
        (λ fault. Says fault (option_map (spec.device_breach number) (option_copied device.entry))) }
{
    match device {
        Some(device) => Err(fault_at(alloc, number, device.path.as_slice())),
        None => Ok(()),
    }
}

/// Refuses by H1.
#[tactic(auto, unfolding(crate::specs::Hardware::h1))]
fn check_ranges(alloc: Global, memory: &[Range]) -> Result<(), Fault>
    ensures { MatchResult result (λ _. spec.h1 memory.now ≡ None) (λ fault. Says fault (spec.h1 memory.now)) }
{
    if memory.is_empty() {
        Err(fault_at(alloc, 1, b"/"))
    } else {
        Ok(())
    }
}

/// Refuses by H3.
#[tactic(auto, unfolding(crate::specs::Hardware::h3))]
fn check_counts(alloc: Global, devices: &[Device], memory: &[Range]) -> Result<(), Fault>
    ensures { MatchResult result
        (λ _. spec.h3 devices.now memory.now ≡ None)
        (λ fault. Says fault (spec.h3 devices.now memory.now)) }
{
    if 16 < memory.len() {
        Err(fault_at(alloc, 3, b"/"))
    } else if 32 < count_cpus(devices) {
        Err(fault_at(alloc, 3, b"/cpus"))
    } else {
        Ok(())
    }
}

/// Refuses where one of the four is broken: the least number first.
#[tactic(auto, unfolding(crate::specs::Hardware::first_broken_in, crate::specs::Hardware::h2, crate::specs::Hardware::h4))]
fn check(alloc: Global, devices: &[Device], memory: &[Range]) -> Result<(), Fault>
    ensures { MatchResult result
        (λ _. spec.first_broken_in devices.now memory.now ≡ None)
        (λ fault. Says fault (spec.first_broken_in devices.now memory.now)) }
{
    check_ranges(alloc, memory)?;
    refuse(alloc, 2, first_odd(devices))?;
    check_counts(alloc, devices, memory)?;
    refuse(alloc, 4, first_ill(alloc, devices)?)
}

/// The hardware that a tree says: the cpus under `/cpus` and the memory nodes under the root, by their `device_type`
/// (ePAPR 1.1, 3.4 and 3.7). It is refused by the least number of the rules H1 to H4 that it breaks, at the first node
/// in document order that breaks it.
#[tactic(auto, unfolding(crate::specs::Hardware::board_in))]
pub fn hardware(alloc: Global, tree: &Tree) -> Result<Board, Fault>
    ensures kept { OnOk result (spec.first_broken_hardware tree.now ≡ None) }
    ensures value { IfOk result (λ board. board ≡ spec.board_of tree.now) }
    ensures broken { IfErr result (λ fault. Says fault (spec.first_broken_hardware tree.now)) }
{
    let devices = devices_of(alloc, &tree.root)?;
    let memory = memory_in(alloc, &devices)?;
    check(alloc, &devices, memory.as_slice())?;
    Ok(Board {
        cpus: cpus_in(alloc, &devices)?,
        memory,
    })
}
