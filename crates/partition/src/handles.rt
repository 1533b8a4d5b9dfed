//! What the handles of a description are.

ghost use Rattle.std.specs.Prelude.{◌≡◌, true, Some};
ghost use Rattle.partition.specs.Port as spec;
ghost use Rattle.partition.specs.Channels.{is_channel as is_channel_kind};
ghost use Rattle.partition.specs.Interrupts.{is_send as is_send_kind};

use crate::kind::Kind;
use machine_desc::Port;

/// What a port's handle is.
pub fn kind_of(port: &Port) -> Kind
    ensures { result ≡ spec.kind_of port.now }
{
    match port {
        Port::Channel { .. } => Kind::Channel,
        Port::Send => Kind::Send,
        Port::Receive { .. } => Kind::Receive,
        Port::Manage { .. } => Kind::Manage,
    }
}

/// What a handle is, and none where there is no such handle.
pub fn kind_at(ports: &[Port], handle: u32) -> Option<Kind>
    ensures { result ≡ spec.kind_at (spec.kinds_of ports.now) handle }
{
    if handle == 0 {
        return None;
    }
    let port = ports.get((handle - 1) as usize)?;
    Some(kind_of(port))
}

/// Whether a handle is a channel.
pub fn is_channel(ports: &[Port], handle: u32) -> bool
    ensures value { result ≡ is_channel_kind (spec.kind_at (spec.kinds_of ports.now) handle) }
    ensures channel { result ≡ true → spec.kind_at (spec.kinds_of ports.now) handle ≡ Some Kind.Channel }
{
    match kind_at(ports, handle) {
        Some(Kind::Channel) => true,
        _ => false,
    }
}

/// Whether a handle is a doorbell that the partition rings.
pub fn is_send(ports: &[Port], handle: u32) -> bool
    ensures value { result ≡ is_send_kind (spec.kind_at (spec.kinds_of ports.now) handle) }
    ensures send { result ≡ true → spec.kind_at (spec.kinds_of ports.now) handle ≡ Some Kind.Send }
{
    match kind_at(ports, handle) {
        Some(Kind::Send) => true,
        _ => false,
    }
}
