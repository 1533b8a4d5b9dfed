//! Rings of doorbells.

ghost use Rattle.std.specs.Prelude.{◌≡◌, length};
ghost use Rattle.network.specs.Network as network;
ghost use Rattle.system.specs.Turning.{Rings, rung_if, rung_upto};

use crate::wiring::is_among;
use machine_desc::{Bell, PortRef};
use partition::Partition;

/// Whether a doorbell has the one handle among its senders and the other among its receivers.
fn hears(bells: &[Bell], sender: PortRef, receiver: PortRef) -> bool
    ensures { result ≡ network.hears bells.now sender receiver }
{
    bells.iter().any(|bell| {
        is_among(sender, bell.senders.as_slice()) && is_among(receiver, bell.receivers.as_slice())
    })
}

/// The handle rings, where it is said.
fn ring_if(part: &mut Partition, rings: bool, handle: u32)
    ensures { part.new ≡ rung_if rings handle part.old }
{
    if rings {
        part.ring(handle);
    }
}

/// Each handle of the partition with this number that hears the sender rings.
#[tactic(auto, using(crate::proofs::Rung::one_more, crate::proofs::Tied::few_of))]
fn ring_part(part: &mut Partition, bells: &[Bell], sender: PortRef, number: usize)
    ensures { part.new ≡ rung_upto bells.now sender number (length part.old.desc.ports) part.old }
{
    let count = part.desc().ports.as_slice().len();
    for place in 0..count {
        let handle = place as u32 + 1;
        let receiver = PortRef {
            part: number,
            handle,
        };
        ring_if(part, hears(bells, sender, receiver), handle);
    }
}

/// Each handle of each partition that hears the sender rings, in document order.
pub fn ring_all(parts: &mut Vec<Partition>, bells: &[Bell], sender: PortRef)
    ensures { Rings bells.now sender parts.old.items parts.new.items }
{
    for number in 0..parts.len() {
        ring_part(&mut parts[number], bells, sender, number);
    }
}
