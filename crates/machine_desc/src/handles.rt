//! Handles by their names.

ghost use Rattle.std.specs.Prelude.{◌≡◌, ◌==◌, slice_get};
ghost use Rattle.std.specs.List.{list_all};
ghost use Rattle.std.specs.Option.{option_copied};
ghost use Rattle.machine_desc.specs.Joined as spec;

use crate::desc::{Desc, Port};
use crate::wiring::PortRef;

/// Whether it names this handle of this partition.
pub fn is_named(part: usize, handle: usize, other: &PortRef) -> bool
    ensures { result ≡ spec.same_ref (record { part = part; handle = handle }) other.now }
{
    part == other.part && handle == other.handle as usize
}

/// What the handle stands for, where there is such a handle.
fn port_at<'a>(descs: &'a [Desc], at: &PortRef) -> Option<&'a Port>
    ensures { option_copied result ≡ spec.port_at descs.now at.now }
{
    if at.handle == 0 {
        return None;
    }
    match descs.get(at.part) {
        Some(desc) => desc.ports.as_slice().get(at.handle as usize - 1),
        None => None,
    }
}

/// Whether it stands for an end of a byte channel.
fn is_channel(port: &Port) -> bool
    ensures { result ≡ spec.is_channel port.now }
{
    matches!(port, Port::Channel { .. })
}

/// Whether it stands for a doorbell that is rung.
fn is_send(port: &Port) -> bool
    ensures { result ≡ spec.is_send port.now }
{
    matches!(port, Port::Send)
}

/// Whether it stands for a doorbell that is heard.
fn is_receive(port: &Port) -> bool
    ensures { result ≡ spec.is_receive port.now }
{
    matches!(port, Port::Receive { .. })
}

/// Whether it stands for the partition of this number.
fn is_manager(number: usize, port: &Port) -> bool
    ensures { result ≡ spec.is_manager number port.now }
{
    match port {
        Port::Manage { part, .. } => *part == number,
        _ => false,
    }
}

/// Whether it names an end of a byte channel.
pub fn names_channel(descs: &[Desc], at: &PortRef) -> bool
    ensures { result ≡ spec.names_port spec.is_channel descs.now at.now }
{
    match port_at(descs, at) {
        Some(port) => is_channel(port),
        None => false,
    }
}

/// Whether it names a doorbell that is rung.
pub fn names_send(descs: &[Desc], at: &PortRef) -> bool
    ensures { result ≡ spec.names_port spec.is_send descs.now at.now }
{
    match port_at(descs, at) {
        Some(port) => is_send(port),
        None => false,
    }
}

/// Whether it names a doorbell that is heard.
pub fn names_receive(descs: &[Desc], at: &PortRef) -> bool
    ensures { result ≡ spec.names_port spec.is_receive descs.now at.now }
{
    match port_at(descs, at) {
        Some(port) => is_receive(port),
        None => false,
    }
}

/// Whether it names a manager of the partition of this number.
pub fn names_manager(descs: &[Desc], number: usize, at: &PortRef) -> bool
    ensures { result ≡ spec.names_port (spec.is_manager number) descs.now at.now }
{
    match port_at(descs, at) {
        Some(port) => is_manager(number, port),
        None => false,
    }
}
