//! A partition's machine by itself, given what comes to it in a run.

ghost use Rattle.std.specs.Prelude.{◌≡◌, true, length};
ghost use Rattle.machine_desc.specs.Joined.{has_at};
ghost use Rattle.machine_desc.specs.Sound.{IsSound};
ghost use Rattle.partition.specs.Loading as loading;

use machine_desc::{Act, Desc, Event, Piece, Port, Region, Span, State, is_private_range, sound};
use outside::{Bytes, Listed, MemSink, NoMemory};
use partition::{Acts, Kind, LoneMachine, kind_at};
use std::alloc::Global;
use std::test::Fail;
use trace_text::{act_line, end_line};

/// What a handle is.
#[derive(Clone, Copy)]
pub enum Handle<'a> {
    Channel,
    Send,
    Receive,
    /// A partition that begins held or not, and the sizes of its private regions, which lie side by side from 0 on.
    Manage(bool, &'a [u32]),
}

/// A partition in short: its name, the sizes of its private regions, which lie side by side from 0 on, its handles, the words
/// of its image, which lies at 0, whether it begins held, and what its copies bring out of the partitions that it manages.
#[derive(Clone, Copy)]
pub struct Lone<'a> {
    pub name: &'a str,
    pub regions: &'a [u32],
    pub handles: &'a [Handle<'a>],
    pub image: &'a [u32],
    pub held: bool,
    pub feed: &'a [u8],
}

/// Behind how many of its own steps something comes to it, and what.
pub type Coming = (u64, Event<'static>);

/// What is written, and the place among what comes of the first that can't come, where there is one. The end is behind all.
#[derive(Drop)]
pub struct Told {
    pub out: MemSink,
    pub refused: Option<usize>,
}

/// The extents of real memory, in bytes: for two regions in their order, and for a small one.
const EXTENTS: [u32; 3] = [0x1_0000, 0x1_0000, SMALL];

/// The size of a small region.
const SMALL: u32 = 0x1000;

/// More steps than any machine may do.
const LIMIT: u64 = 1_000_000_000_000;

/// Its image as a piece.
fn piece_of(alloc: Global, image: &[u32]) -> Result<Piece, NoMemory> {
    let mut bytes = Vec::new(alloc);
    for word in image {
        bytes.extend_from_slice(&word.to_be_bytes())?;
    }
    let len = u32::try_from(bytes.len()).unwrap_or(u32::MAX);
    Ok(Piece {
        at: 0,
        bytes: Bytes::from_vec(bytes),
        len,
    })
}

/// Its regions. Their real addresses mean nothing to a machine by itself.
fn regions_of(alloc: Global, sizes: &[u32]) -> Result<Listed<Region>, NoMemory> {
    let mut regions = Listed::new(alloc);
    let mut logical = 0u64;
    let mut next = 0u32;
    for &size in sizes {
        regions.push(Region {
            logical,
            size,
            extent: if size == SMALL { 2 } else { next },
            real: 0,
            private: true,
        })?;
        logical = logical.saturating_add(u64::from(size));
        next = next.saturating_add(1);
    }
    Ok(regions)
}

/// A partition that it manages.
fn managed_port(alloc: Global, held: bool, sizes: &[u32]) -> Result<Port, NoMemory> {
    let mut private = Listed::new(alloc);
    let mut at = 0u64;
    for &size in sizes {
        private.push(Span {
            at,
            size: u64::from(size),
        })?;
        at = at.saturating_add(u64::from(size));
    }
    Ok(Port::Manage {
        part: 1,
        held,
        private,
    })
}

/// Its ports, whose interrupts count from 0.
fn ports_of(alloc: Global, handles: &[Handle]) -> Result<Listed<Port>, NoMemory> {
    let mut ports = Listed::new(alloc);
    let mut next = 0u8;
    for handle in handles {
        match *handle {
            Handle::Channel => {
                let tx = next.saturating_add(1);
                ports.push(Port::Channel { rx: next, tx })?;
                next = next.saturating_add(2);
            }
            Handle::Send => ports.push(Port::Send)?,
            Handle::Receive => {
                ports.push(Port::Receive { irq: next })?;
                next = next.saturating_add(1);
            }
            Handle::Manage(held, sizes) => ports.push(managed_port(alloc, held, sizes)?)?,
        }
    }
    Ok(ports)
}

/// Its description, without a device tree, which its image doesn't read.
fn desc_of(alloc: Global, lone: &Lone) -> Result<Desc, NoMemory> {
    let mut pieces = Listed::new(alloc);
    pieces.push(piece_of(alloc, lone.image)?)?;
    Ok(Desc {
        name: Bytes::of(alloc, lone.name.as_bytes())?,
        regions: regions_of(alloc, lone.regions)?,
        cores: Listed::from_vec(Vec::from_slice(alloc, &[0])?),
        ports: ports_of(alloc, lone.handles)?,
        tree_at: 0x8000,
        tree_size: 0x4000,
        entry: 0,
        held: lone.held,
        pieces,
    })
}

/// Whether the region has an extent of its size.
fn has_extent(region: &Region) -> bool
    ensures { result ≡ has_at EXTENTS region.now.extent region.now.size }
{
    match EXTENTS.get(region.extent as usize) {
        Some(size) => region.size == *size,
        None => false,
    }
}

/// Whether each region has an extent of its size.
fn have_extents(regions: &[Region]) -> bool
    ensures { result ≡ loading.have_extents EXTENTS regions.now }
{
    regions.iter().all(has_extent)
}

/// Whether a machine can be made of it.
fn can_be_made(desc: &Desc) -> bool
    ensures sound { result ≡ true → IsSound desc.now }
    ensures core { result ≡ true → length desc.now.cores ≡ 1 }
    ensures extents { result ≡ true → loading.have_extents EXTENTS desc.now.regions ≡ true }
{
    sound(desc) && desc.cores.as_slice().len() == 1 && have_extents(desc.regions.as_slice())
}

/// The machine before its first step.
fn machine_of(alloc: Global, lone: &Lone) -> Result<LoneMachine, Fail> {
    let desc = desc_of(alloc, lone)?;
    if !can_be_made(&desc) {
        return Err("the machine can be made".into());
    }
    let feed = Bytes::of(alloc, lone.feed)?;
    Ok(LoneMachine::new(alloc, desc, &EXTENTS, feed)?)
}

/// Bytes come on a channel that has room for them.
fn give(machine: &mut LoneMachine, handle: u32, bytes: &[u8]) -> Option<()> {
    match kind_at(machine.desc().ports.as_slice(), handle) {
        Some(Kind::Channel) if machine.waiting(handle) as usize + bytes.len() <= 256 => {
            machine.give(handle, bytes);
            Some(())
        }
        _ => None,
    }
}

/// The other end of a channel took so many of the bytes that are outstanding there.
fn free(machine: &mut LoneMachine, handle: u32, count: u16) -> Option<()> {
    let mut taken = [0; 256];
    match kind_at(machine.desc().ports.as_slice(), handle) {
        Some(Kind::Channel) if count <= machine.outstanding(handle) && count <= 256 => {
            machine.free(handle, &mut taken[..count as usize]);
            Some(())
        }
        _ => None,
    }
}

/// A doorbell rings that the handle receives.
fn ring(machine: &mut LoneMachine, handle: u32) -> Option<()> {
    match kind_at(machine.desc().ports.as_slice(), handle) {
        Some(Kind::Receive) => {
            machine.ring(handle);
            Some(())
        }
        _ => None,
    }
}

/// The partition that a handle manages runs now, or doesn't.
fn tell(machine: &mut LoneMachine, handle: u32, running: bool) -> Option<()> {
    match kind_at(machine.desc().ports.as_slice(), handle) {
        Some(Kind::Manage) => {
            machine.tell(handle, running);
            Some(())
        }
        _ => None,
    }
}

/// Its manager starts it, where it doesn't run, at an entry that an instruction can lie at.
fn start(machine: &mut LoneMachine, entry: u32, load: bool) -> Option<()> {
    if runs(machine) || entry % 4 != 0 {
        return None;
    }
    machine.start(entry, load);
    Some(())
}

/// Its manager stops or restarts it, where it runs.
fn halt(machine: &mut LoneMachine, again: bool) -> Option<()> {
    if !runs(machine) {
        return None;
    }
    if again {
        machine.restart();
    } else {
        machine.stop();
    }
    Some(())
}

/// Its manager writes bytes into its private memory.
fn copy_in(machine: &mut LoneMachine, at: u64, bytes: &[u8]) -> Option<()> {
    if !is_private_range(machine.desc().regions.as_slice(), at, bytes.len() as u64) {
        return None;
    }
    machine.copy_in(at, bytes);
    Some(())
}

/// What comes to it between two steps, where it can come.
fn come(machine: &mut LoneMachine, event: Event) -> Option<()> {
    match event {
        Event::Bytes { h, bytes } => give(machine, h, bytes),
        Event::Room { h, count } => free(machine, h, count),
        Event::Ring { h } => ring(machine, h),
        Event::Start { entry, load } => start(machine, entry, load),
        Event::Stop => halt(machine, false),
        Event::Restart => halt(machine, true),
        Event::CopyIn { at, bytes } => copy_in(machine, at, bytes),
        Event::State { h, running } => tell(machine, h, running),
    }
}

/// Whether it does steps.
fn runs(machine: &LoneMachine) -> bool
    ensures { result ≡ true → machine.now.machine.inner.state ≡ State.Running }
{
    matches!(machine.state(), State::Running)
}

/// One step, where the machine runs. None where what it copies out of a partition isn't as long as what it is fed with.
fn step(machine: &mut LoneMachine, fed: usize) -> Option<Acts> {
    let core = machine.place_of(0)?;
    if !runs(machine) || machine.steps() >= LIMIT {
        return None;
    }
    let acts = machine.step(core);
    match acts.act {
        Act::CopyFrom { total, .. } if total as usize != fed => None,
        _ => Some(acts),
    }
}

/// Does its steps up to this number of them, and writes their lines. None where it does none, or has done more.
fn go_on(machine: &mut LoneMachine, out: &mut MemSink, lone: &Lone, number: u64) -> Option<()> {
    if machine.steps() > number {
        return None;
    }
    for _step in machine.steps()..number {
        let acts = step(machine, lone.feed.len())?;
        act_line(out, lone.name.as_bytes(), machine.steps(), &acts.act).ok()?;
    }
    Some(())
}

/// What is told of the machine by itself, along what comes to it and up to so many of its own steps.
pub fn follow(alloc: Global, lone: &Lone, comings: &[Coming], steps: u64) -> Result<Told, Fail> {
    let mut machine = machine_of(alloc, lone)?;
    let mut out = MemSink::new(alloc, 2000, Vec::new(alloc))?;
    for (place, &(number, event)) in comings.iter().enumerate() {
        let reached = go_on(&mut machine, &mut out, lone, number);
        if reached.is_none() || come(&mut machine, event).is_none() {
            return Ok(Told {
                out,
                refused: Some(place),
            });
        }
    }
    let mut refused = None;
    if go_on(&mut machine, &mut out, lone, steps).is_none() {
        refused = Some(comings.len());
    } else {
        end_line(
            &mut out,
            lone.name.as_bytes(),
            machine.state(),
            machine.steps(),
        )
        .ok()
        .ok_or("the line is written")?;
    }
    Ok(Told { out, refused })
}

/// The lines of the name in a report, those that tell of its deeds and of its end.
pub fn lines_of(alloc: Global, name: &str, report: &str) -> Result<String, NoMemory> {
    let mut own = String::new(alloc);
    for line in report.split('\n') {
        let told = line.strip_prefix("end ").unwrap_or(line);
        if let Some((first, _rest)) = told.split_once(' ') {
            if first == name {
                own.push_str(line)?;
                own.push('\n')?;
            }
        }
    }
    Ok(own)
}
