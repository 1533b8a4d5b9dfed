//! How the interrupts of handles are numbered.

ghost use Rattle.std.specs.Prelude.{◌≡◌, ◌+◌, ◌<◌, ◌≤◌, ◌^◌, length};
ghost use Rattle.machine_desc.specs.Sound as spec;

use crate::desc::Port;

/// Whether the interrupts of the handle count up from this number.
fn count_up(port: &Port, next: u64) -> bool
    requires { next + 1 < 2 ^ 64 }
    ensures { result ≡ spec.counts_up next (spec.interrupts_of port.now) }
{
    match port {
        Port::Channel { rx, tx } => u64::from(*rx) == next && u64::from(*tx) == next + 1,
        Port::Receive { irq } => u64::from(*irq) == next,
        Port::Send | Port::Manage { .. } => true,
    }
}

/// How many interrupts the handle takes.
fn interrupt_count(port: &Port) -> u64
    ensures exact { result ≡ length (spec.interrupts_of port.now) }
    ensures few { result ≤ 2 }
{
    match port {
        Port::Channel { .. } => 2,
        Port::Receive { .. } => 1,
        Port::Send | Port::Manage { .. } => 0,
    }
}

/// Whether the interrupts of all handles, in their order, are 0, 1, 2 and so on.
#[tactic(auto, unfolding(crate::specs::Sound::are_numbered), using(crate::proofs::Counting::counts_up_along))]
pub fn are_numbered(ports: &[Port]) -> bool
    ensures { result ≡ spec.are_numbered ports.now }
{
    let mut next = 0u64;
    for port in ports {
        if !count_up(port, next) {
            return false;
        }
        next += interrupt_count(port);
    }
    true
}
