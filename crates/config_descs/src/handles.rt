//! What the handles of a partition stand for.

ghost use Rattle.std.specs.Prelude.{◌≡◌, ◌≤◌, ◌<◌, IfOk, length};
ghost use Rattle.machine_desc.specs.Limits.{most_handles};
ghost use Rattle.config_descs.specs.Desc as spec;

use crate::memory::private_spans;
use crate::numbered::{number_of, part_at};
use hv_config::{Config, HandleDef, Kind};
use machine_desc::Port;
use outside::{Listed, NoMemory};
use std::alloc::Global;

/// A handle that manages the partition with that name.
#[tactic(auto, unfolding(crate::specs::Desc::manage_port))]
fn manage_port(alloc: Global, config: &Config, name: &[u8]) -> Result<Port, NoMemory>
    ensures { IfOk result (λ port. port ≡ spec.manage_port config.now name.now) }
{
    let parts = config.parts.as_slice();
    let part = number_of(parts, name);
    match part_at(parts, name) {
        Some(found) => Ok(Port::Manage {
            part,
            held: found.held,
            private: private_spans(alloc, config, found)?,
        }),
        None => Ok(Port::Manage {
            part,
            held: false,
            private: Listed::new(alloc),
        }),
    }
}

/// What the handle stands for, where its first interrupt would be this one.
fn port_of(alloc: Global, config: &Config, next: u8, handle: &HandleDef) -> Result<Port, NoMemory>
    requires { next < 254 }
    ensures { IfOk result (λ port. port ≡ spec.port_of config.now next handle.now) }
{
    match handle.kind {
        Kind::Channel => Ok(Port::Channel {
            rx: next,
            tx: next + 1,
        }),
        Kind::Send => Ok(Port::Send),
        Kind::Receive => Ok(Port::Receive { irq: next }),
        Kind::Manage => manage_port(alloc, config, handle.target.as_slice()),
    }
}

/// How many interrupts a handle of the kind takes.
pub fn interrupts_of(kind: Kind) -> u8
    ensures value { result ≡ spec.interrupts_of kind }
    ensures few { result ≤ 2 }
{
    match kind {
        Kind::Channel => 2,
        Kind::Receive => 1,
        _ => 0,
    }
}

/// What these handles stand for.
pub fn ports_of(
    alloc: Global,
    config: &Config,
    handles: &[HandleDef],
) -> Result<Listed<Port>, NoMemory>
    requires { length handles.now ≤ most_handles }
    ensures { IfOk result (λ ports. ports ≡ spec.ports_from config.now 0 handles.now) }
{
    let mut ports = Listed::new(alloc);
    let mut next = 0u8;
    for handle in handles {
        ports.push(port_of(alloc, config, next, handle)?)?;
        next += interrupts_of(handle.kind);
    }
    Ok(ports)
}
