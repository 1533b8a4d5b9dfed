//! What the handles of partitions lead to, by their wiring.

ghost use Rattle.std.specs.Prelude.{◌≡◌, ◌≤◌, true, List, length, map, replicate, IfOk};
ghost use Rattle.std.specs.List.{list_all, list_any, position, range_with_len};
ghost use Rattle.byte_channel.specs.Waiting.{empty_channel};
ghost use Rattle.machine_desc.specs.Joined as joined;
ghost use Rattle.machine_desc.specs.Sound.{is_sound};
ghost use Rattle.network.specs.Network as network;
ghost use Rattle.system.specs.Wired as spec;

use crate::wire::{ChannelEnd, Wire};
use byte_channel::{Channel, Side};
use machine_desc::{Bell, Desc, End, Link, Port, PortRef, Wiring};
use memory_areas::AreaMap;
use outside::{Listed, NoMemory};
use std::alloc::Global;

/// Whether two name one handle.
fn is_same(handle: PortRef, other: &PortRef) -> bool
    ensures { result ≡ joined.same_ref handle other.now }
{
    handle.part == other.part && handle.handle == other.handle
}

/// Whether two are one end.
pub fn is_end(end: End, other: &End) -> bool
    ensures { result ≡ network.is_end end other.now }
{
    match (end, other) {
        (End::Part(handle), End::Part(it)) => is_same(handle, it),
        (End::Console(number), End::Console(it)) => number == *it,
        _ => false,
    }
}

/// The far end of the first channel that has this end.
#[tactic(auto, using(crate::proofs::Walks::far_here, crate::proofs::Walks::far_there, crate::proofs::Walks::no_far_left, crate::proofs::Walks::far_behind))]
pub fn far_end(links: &[Link], end: End) -> Option<End>
    ensures { result ≡ network.far_end links.now end }
{
    for number in 0..links.len() {
        let link = &links[number];
        if is_end(end, &link.a) {
            return Some(link.b);
        }
        if is_end(end, &link.b) {
            return Some(link.a);
        }
    }
    None
}

/// The side of a channel that is this end.
#[tactic(auto, using(crate::proofs::Walks::side_here, crate::proofs::Walks::side_there, crate::proofs::Walks::no_side_left, crate::proofs::Walks::side_behind))]
fn side_of(links: &[Link], end: End) -> ChannelEnd
    ensures { result ≡ spec.side_from 0 links.now end }
{
    for number in 0..links.len() {
        let link = &links[number];
        if is_end(end, &link.a) {
            return ChannelEnd {
                link: number,
                side: Side::A,
            };
        }
        if is_end(end, &link.b) {
            return ChannelEnd {
                link: number,
                side: Side::B,
            };
        }
    }
    ChannelEnd {
        link: links.len(),
        side: Side::A,
    }
}

/// The channel that a handle leads to.
fn channel_at(links: &[Link], handle: PortRef) -> Wire
    ensures { result ≡ spec.channel_wire (spec.side_from 0 links.now (End.Part handle)) }
{
    let ChannelEnd { link, side } = side_of(links, End::Part(handle));
    Wire::Channel { link, side }
}

/// Of each of so many consoles, its end of a channel.
#[tactic(auto, using(crate::proofs::Walks::one_more_console))]
pub fn console_sides(
    alloc: Global,
    links: &[Link],
    count: usize,
) -> Result<Vec<ChannelEnd>, NoMemory>
    ensures { IfOk result (λ consoles. consoles.items ≡ map (spec.console_side links.now) (range_with_len 0 count)) }
{
    let mut consoles = Vec::with_capacity(alloc, count)?;
    for console in 0..count {
        consoles.push(side_of(links, End::Console(console)))?;
    }
    Ok(consoles)
}

/// Whether the handle is among these.
pub fn is_among(handle: PortRef, refs: &[PortRef]) -> bool
    ensures { result ≡ list_any (joined.same_ref handle) refs.now }
{
    refs.iter().any(|other| is_same(handle, other))
}

/// The first doorbell that the handle rings, if any.
fn place_of_sender(bells: &[Bell], handle: PortRef) -> Option<usize>
    ensures { result ≡ position (spec.is_sender handle) bells.now }
{
    bells
        .iter()
        .position(|bell| is_among(handle, bell.senders.as_slice()))
}

/// The first doorbell that rings the handle, if any.
fn place_of_receiver(bells: &[Bell], handle: PortRef) -> Option<usize>
    ensures { result ≡ position (spec.is_receiver handle) bells.now }
{
    bells
        .iter()
        .position(|bell| is_among(handle, bell.receivers.as_slice()))
}

/// What a handle leads to.
fn wire_of(wiring: &Wiring, handle: PortRef, port: &Port) -> Wire
    ensures { result ≡ spec.wire_of wiring.now handle port.now }
{
    let bells = wiring.bells.as_slice();
    match port {
        Port::Channel { .. } => channel_at(wiring.links.as_slice(), handle),
        Port::Send => Wire::Send {
            bell: place_of_sender(bells, handle).unwrap_or(bells.len()),
        },
        Port::Receive { .. } => Wire::Receive {
            bell: place_of_receiver(bells, handle).unwrap_or(bells.len()),
        },
        Port::Manage { part, .. } => Wire::Manage { part: *part },
    }
}

/// What each handle of a partition leads to.
#[tactic(auto, using(crate::proofs::Walks::one_more_wire, crate::proofs::Walks::no_more_wires))]
fn wires_of(
    alloc: Global,
    wiring: &Wiring,
    part: usize,
    ports: &[Port],
) -> Result<Listed<Wire>, NoMemory>
    requires { length ports.now ≤ 64 }
    ensures { IfOk result (λ wires. wires ≡ spec.wires_from wiring.now part 1 ports.now) }
{
    let mut wires = Vec::with_capacity(alloc, ports.len())?;
    for place in 0..ports.len() {
        let handle = PortRef {
            part,
            handle: place as u32 + 1,
        };
        wires.push(wire_of(wiring, handle, &ports[place]))?;
    }
    Ok(Listed::from_vec(wires))
}

/// What each handle of each partition leads to.
#[tactic(auto, using(crate::proofs::Walks::one_more_part, crate::proofs::Walks::no_more_parts))]
pub fn all_wires(
    alloc: Global,
    wiring: &Wiring,
    descs: &[Desc],
) -> Result<Vec<Listed<Wire>>, NoMemory>
    requires { spec.HaveFewHandles descs.now }
    ensures { IfOk result (λ wires. wires.items ≡ spec.all_wires wiring.now 0 descs.now) }
{
    let mut wires = Vec::with_capacity(alloc, descs.len())?;
    for part in 0..descs.len() {
        wires.push(wires_of(alloc, wiring, part, descs[part].ports.as_slice())?)?;
    }
    Ok(wires)
}

/// So many channels in which nothing waits.
pub fn empty_channels(alloc: Global, count: usize) -> Result<Vec<Channel>, NoMemory>
    ensures { IfOk result (λ channels. channels.items ≡ replicate count empty_channel) }
{
    let mut channels = Vec::with_capacity(alloc, count)?;
    for _link in 0..count {
        channels.push(Channel::new(alloc)?)?;
    }
    Ok(channels)
}

/// Whether each partition begins running.
pub fn beginnings(alloc: Global, descs: &[Desc]) -> Result<Vec<bool>, NoMemory>
    ensures { IfOk result (λ running. running.items ≡ map spec.begins_running descs.now) }
{
    let mut running = Vec::with_capacity(alloc, descs.len())?;
    for desc in descs {
        running.push(!desc.held)?;
    }
    Ok(running)
}

/// The map of each partition's regions.
pub fn all_maps(alloc: Global, descs: &[Desc]) -> Result<Vec<AreaMap>, NoMemory>
    requires { list_all is_sound descs.now ≡ true }
    ensures { IfOk result (λ maps. maps.items ≡ map spec.regions_of descs.now) }
{
    let mut maps = Vec::with_capacity(alloc, descs.len())?;
    for desc in descs {
        maps.push(AreaMap::new(alloc, desc)?)?;
    }
    Ok(maps)
}
