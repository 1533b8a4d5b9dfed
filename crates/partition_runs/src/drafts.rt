//! Machines in short, and their steps.

ghost use Rattle.std.specs.Prelude.{◌≡◌, ◌-◌, ◌^◌, true, length, min, sum};
ghost use Rattle.ground.specs.Extents.{AreSmall};
ghost use Rattle.machine_desc.specs.Joined.{has_at};
ghost use Rattle.machine_desc.specs.Sound.{IsSound};
ghost use Rattle.partition.specs.Loading as spec;

use core_step::Wrote;
use guest_regs::Regs;
use machine_desc::{Act, Desc, Piece, Port, Region, Span, State, sound};
use outside::{Bytes, Listed, NoMemory};
use partition::{Acts, Kind, LoneMachine, kind_at};
use std::alloc::Global;
use std::test::Fail;

/// More steps than any machine may do.
const LIMIT: u64 = 1_000_000_000_000;

/// More bytes than a machine may have.
const MOST_BYTES: u64 = 0x4000_0000;

/// The place of a manager's tree.
pub const TREE_AT: u32 = 0x0123_4567;

/// A machine of one core in short: its regions, the bytes of each extent, the words of its image, which lies at 0, the
/// place of its tree, its entry, and whether it begins held. Handle 1 is a channel with the interrupts 0 and 1, handle 2
/// a doorbell that it rings, and handle 3 one that rings it by interrupt 2. Handle 4 is a partition that it manages, where
/// it is said whether that one begins held; else there is no handle 4.
#[derive(Clone, Copy)]
pub struct Draft<'a> {
    pub regions: &'a [Place],
    pub sizes: &'a [u32],
    pub image: &'a [u32],
    pub tree_at: u64,
    pub entry: u32,
    pub held: bool,
    pub managed: Option<bool>,
    pub private: &'a [(u64, u64)],
    pub feed: &'a [u8],
}

/// A region in short: its logical address, its size in bytes, its extent, and whether it is private.
pub type Place = (u64, u32, u32, bool);

/// The built-in machine with this image.
pub fn built_in(image: &[u32]) -> Draft<'_> {
    Draft {
        regions: &[(0, 65_536, 0, true)],
        sizes: &[65_536],
        image,
        tree_at: 0,
        entry: 0,
        held: false,
        managed: None,
        private: &[],
        feed: &[],
    }
}

/// A machine with this entry and image that manages a partition, which begins held or not. Beside its private page at 0 it
/// has a shared one at 0x1000, of extent 1.
pub fn manager(held: bool, entry: u32, image: &[u32]) -> Draft<'_> {
    Draft {
        regions: &[(0, 0x1000, 0, true), (0x1000, 0x1000, 1, false)],
        sizes: &[0x1000, 0x1000],
        tree_at: u64::from(TREE_AT),
        entry,
        managed: Some(held),
        ..built_in(image)
    }
}

/// Its image as a piece.
fn piece_of(alloc: Global, image: &[u32]) -> Result<Piece, NoMemory> {
    let mut bytes = Vec::new(alloc);
    for word in image {
        bytes.extend_from_slice(&word.to_be_bytes())?;
    }
    let len = u32::try_from(bytes.len()).unwrap_or(u32::MAX);
    Ok(Piece {
        at: 0,
        bytes: Bytes::from_vec(bytes),
        len,
    })
}

/// Its regions. Their real addresses mean nothing to a machine.
fn regions_of(alloc: Global, places: &[Place]) -> Result<Listed<Region>, NoMemory> {
    let mut regions = Listed::new(alloc);
    for &(logical, size, extent, private) in places {
        regions.push(Region {
            logical,
            size,
            extent,
            real: 0,
            private,
        })?;
    }
    Ok(regions)
}

/// Ranges of logical addresses, each by its first address and its size.
fn spans_of(alloc: Global, ranges: &[(u64, u64)]) -> Result<Listed<Span>, NoMemory> {
    let mut spans = Listed::new(alloc);
    for &(at, size) in ranges {
        spans.push(Span { at, size })?;
    }
    Ok(spans)
}

/// Its ports.
fn ports_of(alloc: Global, draft: &Draft) -> Result<Listed<Port>, NoMemory> {
    let mut ports = Listed::new(alloc);
    ports.push(Port::Channel { rx: 0, tx: 1 })?;
    ports.push(Port::Send)?;
    ports.push(Port::Receive { irq: 2 })?;
    if let Some(held) = draft.managed {
        ports.push(Port::Manage {
            part: 1,
            held,
            private: spans_of(alloc, draft.private)?,
        })?;
    }
    Ok(ports)
}

/// Its description.
fn desc_of(alloc: Global, draft: &Draft) -> Result<Desc, NoMemory> {
    let mut pieces = Listed::new(alloc);
    pieces.push(piece_of(alloc, draft.image)?)?;
    Ok(Desc {
        name: Bytes::of(alloc, b"guest")?,
        regions: regions_of(alloc, draft.regions)?,
        cores: Listed::from_vec(Vec::from_slice(alloc, &[0])?),
        ports: ports_of(alloc, draft)?,
        tree_at: draft.tree_at,
        tree_size: 0,
        entry: draft.entry,
        held: draft.held,
        pieces,
    })
}

/// The sum, or as much as a number can say.
fn sum_of(sizes: &[u32]) -> u64
    ensures { result ≡ min (sum sizes.now) (2 ^ 64 - 1) }
{
    let mut total = 0u64;
    for size in sizes {
        total = total.saturating_add(u64::from(*size));
    }
    total
}

/// Whether the region has an extent of its size.
fn has_extent(sizes: &[u32], region: &Region) -> bool
    ensures { result ≡ has_at sizes.now region.now.extent region.now.size }
{
    match sizes.get(region.extent as usize) {
        Some(size) => region.size == *size,
        None => false,
    }
}

/// Whether each region has an extent of its size.
fn have_extents(sizes: &[u32], regions: &[Region]) -> bool
    ensures { result ≡ spec.have_extents sizes.now regions.now }
{
    regions.iter().all(|region| has_extent(sizes, region))
}

/// Whether a machine can be made of it.
fn can_be_made(desc: &Desc, sizes: &[u32]) -> bool
    ensures sound { result ≡ true → IsSound desc.now }
    ensures core { result ≡ true → length desc.now.cores ≡ 1 }
    ensures small { result ≡ true → AreSmall sizes.now }
    ensures extents { result ≡ true → spec.have_extents sizes.now desc.now.regions ≡ true }
{
    sound(desc)
        && desc.cores.as_slice().len() == 1
        && sum_of(sizes) <= MOST_BYTES
        && have_extents(sizes, desc.regions.as_slice())
}

/// The machine before its first step.
pub fn machine_of(alloc: Global, draft: &Draft) -> Result<LoneMachine, Fail> {
    let desc = desc_of(alloc, draft)?;
    if !can_be_made(&desc, draft.sizes) {
        return Err("the machine can be made".into());
    }
    let feed = Bytes::of(alloc, draft.feed)?;
    Ok(
        LoneMachine::new(alloc, desc, draft.sizes, feed)
            .ok()
            .ok_or("there is memory")?,
    )
}

/// One step of the core, where the machine runs. Of the bytes that it sends the other end takes so many at once.
pub fn step(machine: &mut LoneMachine, most: usize) -> Result<Acts, Fail> {
    let core = machine.place_of(0).ok_or("there is a core")?;
    if !matches!(machine.state(), State::Running) || machine.steps() >= LIMIT {
        return Err("it runs".into());
    }
    let acts = machine.step(core);
    if let Act::Sent { h, bytes } = &acts.act {
        let mut taken = [0; 16];
        let count = bytes.len().min(most);
        machine.free(*h, &mut taken[..count]);
        if taken[..count] != bytes.as_slice()[..count] {
            return Err("what is taken was sent".into());
        }
    }
    Ok(acts)
}

/// Rings the doorbell of handle 3, where it is one.
pub fn try_ring(machine: &mut LoneMachine) -> Option<()> {
    match kind_at(machine.desc().ports.as_slice(), 3) {
        Some(Kind::Receive) => {
            machine.ring(3);
            Some(())
        }
        _ => None,
    }
}

/// Lets bytes come on handle 1, where it is a channel that has room for them.
pub fn try_give(machine: &mut LoneMachine, bytes: &[u8]) -> Option<()> {
    match kind_at(machine.desc().ports.as_slice(), 1) {
        Some(Kind::Channel) if machine.waiting(1) as usize + bytes.len() <= 256 => {
            machine.give(1, bytes);
            Some(())
        }
        _ => None,
    }
}

/// Tells it whether the partition of handle 4 runs, where that is one that it manages.
pub fn try_tell(machine: &mut LoneMachine, runs: bool) -> Option<()> {
    match kind_at(machine.desc().ports.as_slice(), 4) {
        Some(Kind::Manage) => {
            machine.tell(4, runs);
            Some(())
        }
        _ => None,
    }
}

/// Starts it at this entry, where an instruction can lie there, with its memory loaded anew or not.
pub fn try_start(machine: &mut LoneMachine, entry: u32, load: bool) -> Option<()> {
    if entry % 4 != 0 {
        return None;
    }
    machine.start(entry, load);
    Some(())
}

/// How many bytes wait on handle 1, where it is a channel.
pub fn waiting(machine: &LoneMachine) -> Option<u16> {
    match kind_at(machine.desc().ports.as_slice(), 1) {
        Some(Kind::Channel) => Some(machine.waiting(1)),
        _ => None,
    }
}

/// The registers of the core.
pub fn registers_of(machine: &LoneMachine) -> Result<&Regs, Fail> {
    let core = machine.place_of(0).ok_or("there is a core")?;
    Ok(machine.core(core).regs())
}

/// So many steps, of which others see no act; the ranges of shared extents that they wrote, in order.
pub fn quiet_steps(
    alloc: Global,
    machine: &mut LoneMachine,
    steps: u64,
) -> Result<Vec<Wrote>, Fail> {
    let mut shared = Vec::new(alloc);
    for _ in 0..steps {
        let acts = step(machine, 0)?;
        if !matches!(acts.act, Act::None) {
            return Err("the step is quiet".into());
        }
        shared.extend_from_slice(acts.shared.as_slice())?;
    }
    Ok(shared)
}

/// The first of the general registers that doesn't hold its value.
pub fn first_wrong(regs: &Regs, registers: &[(u8, u32)]) -> Option<(u8, u32)> {
    registers.iter().copied().find(|&(number, value)| number > 31 || regs.gpr(number) != value)
}
