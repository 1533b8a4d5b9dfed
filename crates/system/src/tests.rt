//! What no clause says: that a board and a system are made where memory is ample, and that a turn is done where its line
//! isn't taken.

ghost use Rattle.std.specs.Prelude.{◌≡◌, ℕ, ◌<◌, length, IfOk, IfSome};
ghost use Rattle.partition.specs.Machine.{most_steps};
ghost use Rattle.network.specs.World.{machine_at};
ghost use Rattle.system.specs.System.{HaveOneCore};

use super::{Board, Show, System};
use machine_desc::{Desc, End, Link, Port, PortRef, Region, State, Wiring, joined};
use outside::{Bytes, Listed, MemSink, NoMemory};
use std::alloc::Global;
use std::test::Fail;

/// A partition with 4 KiB of memory, on the cpu of its number, whose handle 1 is a channel. Its program begins behind its
/// memory, so that its first step faults.
fn partition(alloc: Global, number: u32) -> Result<Desc, NoMemory>
    ensures { IfOk result (λ desc. length desc.cores ≡ 1) }
{
    let mut regions = Listed::new(alloc);
    regions.push(Region {
        logical: 0,
        size: 4096,
        extent: number,
        real: u64::from(number) * 4096,
        private: true,
    })?;
    let mut cores = Listed::new(alloc);
    cores.push(number)?;
    let mut ports = Listed::new(alloc);
    ports.push(Port::Channel { rx: 0, tx: 1 })?;
    Ok(Desc {
        name: Bytes::of(alloc, b"p")?,
        regions,
        cores,
        ports,
        tree_at: 0,
        tree_size: 0,
        entry: 4096,
        held: false,
        pieces: Listed::new(alloc),
    })
}

/// The end of a channel at handle 1 of a partition.
fn end_at(part: usize) -> End {
    End::Part(PortRef { part, handle: 1 })
}

/// The wiring of two such partitions, joined by one channel.
fn wiring(alloc: Global) -> Result<Wiring, NoMemory> {
    let mut sizes = Listed::new(alloc);
    let mut reals = Listed::new(alloc);
    let mut managers = Listed::new(alloc);
    for real in [0u64, 4096] {
        sizes.push(4096u32)?;
        reals.push(real)?;
        managers.push(None)?;
    }
    let mut links = Listed::new(alloc);
    links.push(Link {
        a: end_at(0),
        b: end_at(1),
    })?;
    Ok(Wiring {
        sizes,
        reals,
        links,
        bells: Listed::new(alloc),
        managers,
        consoles: Listed::new(alloc),
    })
}

#[test]
fn a_board_is_made_of_joined_partitions(rt: HostRuntime) -> Result<(), Fail> {
    let alloc = rt.alloc();
    let descs = [partition(alloc, 0)?, partition(alloc, 1)?];
    let wiring = wiring(alloc)?;
    if !joined(&descs, &wiring) {
        return Err("joined".into());
    }
    assert!(rt; Board::new(alloc, &descs, &wiring).is_ok());
    Ok(())
}

/// Two such partitions.
#[tactic(auto, using(crate::proofs::Tried::two_of_one))]
fn partitions(alloc: Global) -> Result<Vec<Desc>, NoMemory>
    ensures cores { IfOk result (λ descs. HaveOneCore descs.items) }
    ensures some { IfOk result (λ descs. 0 < length descs.items) }
{
    let first = partition(alloc, 0)?;
    let second = partition(alloc, 1)?;
    let mut descs = Vec::with_capacity(alloc, 2)?;
    descs.push(first)?;
    descs.push(second)?;
    Ok(descs)
}

/// The system of partitions of one core each, if they are joined.
#[tactic(auto, using(crate::proofs::Tried::opens_few))]
fn system(alloc: Global, descs: Vec<Desc>, wiring: Wiring) -> Result<Option<System>, NoMemory>
    requires cores { HaveOneCore descs.items }
    requires some { 0 < length descs.items }
    ensures some { IfOk result (λ made. IfSome made (λ system. 0 < length system.network.descs)) }
    ensures few { IfOk result (λ made. IfSome made (λ system. (part : ℕ) → (machine_at system.world.machines part).inner.steps < most_steps)) }
{
    if !joined(descs.as_slice(), &wiring) {
        return Ok(None);
    }
    let system = System::build(alloc, descs, wiring)?;
    Ok(Some(system))
}

/// What came of the first turn of the core 0.
#[derive(Drop)]
struct Outcome {
    done: bool,
    steps: u64,
    state: State,
}

/// Does the turn, if the system is there.
fn turned(system: &mut System, out: &mut MemSink) -> Outcome
    requires few { (part : ℕ) → (machine_at system.old.world.machines part).inner.steps < most_steps }
    requires part { 0 < length system.old.network.descs }
{
    let done = system.turn(0, Show::Acts, out).is_ok();
    let part = system.part(0);
    Outcome {
        done,
        steps: part.steps(),
        state: part.state(),
    }
}

/// What came of the turn, if the system is there.
fn first_turn(alloc: Global, out: &mut MemSink) -> Result<Option<Outcome>, NoMemory> {
    let descs = partitions(alloc)?;
    let wiring = wiring(alloc)?;
    let Some(mut system) = system(alloc, descs, wiring)? else {
        return Ok(None);
    };
    Ok(Some(turned(&mut system, out)))
}

#[test]
fn a_turn_writes_its_line(rt: HostRuntime) -> Result<(), Fail> {
    let mut out = MemSink::new(rt.alloc(), 100, Vec::new(rt.alloc()))?;
    let Some(turned) = first_turn(rt.alloc(), &mut out)? else {
        return Err("joined".into());
    };
    assert!(rt; turned.done && turned.steps == 1 && turned.state == State::Faulted);
    assert_eq!(rt; out.bytes(), b"p 1 faulted\n".as_slice());
    Ok(())
}

#[test]
fn a_turn_is_done_where_its_line_fails(rt: HostRuntime) -> Result<(), Fail> {
    let mut out = MemSink::new(rt.alloc(), 100, vec![in rt.alloc(); 3]?)?;
    let Some(turned) = first_turn(rt.alloc(), &mut out)? else {
        return Err("joined".into());
    };
    assert!(rt; !turned.done && turned.steps == 1 && turned.state == State::Faulted);
    assert_eq!(rt; out.bytes(), b"p ".as_slice());
    Ok(())
}
