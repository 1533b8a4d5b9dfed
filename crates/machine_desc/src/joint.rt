//! Which descriptions are joined by a wiring.

ghost use Rattle.std.specs.Prelude.{◌≡◌};
ghost use Rattle.std.specs.List.{list_all};
ghost use Rattle.machine_desc.specs.Joined as spec;
ghost use Rattle.machine_desc.specs.Sound.{is_sound};

use crate::bells::{are_bells_joined, is_receiver, is_sender};
use crate::bounds::MOST_PARTITIONS;
use crate::cores::are_cores_apart;
use crate::desc::{Desc, Port};
use crate::extents::{are_extents_sound, are_regions_joined};
use crate::links::{are_links_joined, is_linked};
use crate::managers::{are_managers_joined, is_manage_joined};
use crate::soundness::sound;
use crate::wiring::Wiring;

/// Whether what the handle stands for is joined, once.
#[tactic(auto, unfolding(crate::specs::Joined::is_port_joined))]
fn is_port_joined(descs: &[Desc], wiring: &Wiring, part: usize, handle: usize, port: &Port) -> bool
    ensures { result ≡ spec.is_port_joined descs.now wiring.now (record { part = part; handle = handle }) port.now }
{
    match port {
        Port::Channel { .. } => is_linked(part, handle, wiring.links.as_slice()),
        Port::Send => is_sender(part, handle, wiring.bells.as_slice()),
        Port::Receive { .. } => is_receiver(part, handle, wiring.bells.as_slice()),
        Port::Manage {
            part: number,
            held,
            private,
        } => is_manage_joined(
            descs,
            wiring,
            part,
            handle,
            *number,
            *held,
            private.as_slice(),
        ),
    }
}

/// Whether each handle of the partition is.
fn are_handles_joined(descs: &[Desc], wiring: &Wiring, part: usize, ports: &[Port]) -> bool
    ensures { result ≡ spec.are_handles_joined descs.now wiring.now part 1 ports.now }
{
    for (i, port) in ports.iter().enumerate() {
        if !is_port_joined(descs, wiring, part, i + 1, port) {
            return false;
        }
    }
    true
}

/// Whether each handle is.
#[tactic(auto, unfolding(crate::specs::Joined::are_ports_joined))]
fn are_ports_joined(descs: &[Desc], wiring: &Wiring) -> bool
    ensures { result ≡ spec.are_ports_joined descs.now wiring.now }
{
    for (i, desc) in descs.iter().enumerate() {
        if !are_handles_joined(descs, wiring, i, desc.ports.as_slice()) {
            return false;
        }
    }
    true
}

/// Whether each description is sound.
fn are_sound(descs: &[Desc]) -> bool
    ensures { result ≡ list_all is_sound descs.now }
{
    descs.iter().all(|desc| sound(desc))
}

/// Whether the descriptions can run beside one another over one real memory: each is sound and has its own cores,
/// each region is an extent that is told as it is, and the wiring joins each handle and each console once.
#[tactic(auto, unfolding(crate::specs::Joined::are_joined))]
pub fn joined(descs: &[Desc], wiring: &Wiring) -> bool
    ensures { result ≡ spec.are_joined descs.now wiring.now }
{
    descs.len() <= MOST_PARTITIONS
        && are_sound(descs)
        && are_cores_apart(descs)
        && are_extents_sound(wiring)
        && are_regions_joined(descs, wiring)
        && are_links_joined(descs, wiring)
        && are_bells_joined(descs, wiring)
        && are_managers_joined(descs, wiring)
        && are_ports_joined(descs, wiring)
}
