//! The parts of a turn.

ghost use Rattle.std.specs.Prelude.{◌≡◌, ℕ, ◌%◌, ◌<◌, ◌≤◌, true, false, Some, length, slice_set};
ghost use Rattle.core_step.specs.declared.answer.Wrote.{Wrote as WroteValue};
ghost use Rattle.fresh_load.specs.Placed.{ArePlaced};
ghost use Rattle.partition.specs.Port.{kinds_of, kind_at};
ghost use Rattle.partition.specs.Event.{Start, Restart};
ghost use Rattle.network.specs.Network.{far_end};
ghost use Rattle.network.specs.World.{counts_at};
ghost use Rattle.network.specs.Effects.{count_printed};
ghost use Rattle.partition.specs.Lending.{AreTold};
ghost use Rattle.partition.specs.Machine.{most_steps};
ghost use Rattle.system.specs.Board.{emptied_lines, managed_by, own_kinds, own_wire, told_by};
ghost use Rattle.system.specs.System.{part_at, most_counted, IsSystem};
ghost use Rattle.system.specs.Turning.{AfterCopy, AreAllPlaced, Asks, Begins, Follows, Hears, HasConsole, Settles, Turns, copied_part, held_of, marked_lines, printed_lines, stopped_part};

use crate::board::Board;
use crate::counts::Counts;
use crate::ringing::ring_all;
use crate::wiring::far_end;
use core_step::Wrote;
use ground::Ground;
use machine_desc::{Act, End, Link, PortRef, State, Wiring};
use partition::{Acts, Kind, Partition};

/// A step of a core of the partition that the board is lent to.
pub fn step_part(
    parts: &mut Vec<Partition>,
    memory: &mut Ground,
    board: &mut Board,
    who: usize,
    core: usize,
) -> Acts
    requires lent { board.old.who ≡ who }
    requires who { who < length parts.old.items }
    requires core { core < length (part_at parts.old.items who).inner.cores }
    requires running { (part_at parts.old.items who).inner.state ≡ State.Running }
    requires few { (part_at parts.old.items who).inner.steps < most_steps }
    requires placed { ArePlaced memory.old (part_at parts.old.items who).desc.regions }
    requires kinds { own_kinds board.old ≡ kinds_of (part_at parts.old.items who).desc.ports }
    requires told { AreTold (told_by board.old) (part_at parts.old.items who).desc memory.old }
    ensures { AfterCopy parts.old.items parts.new.items memory.old memory.new board.old board.new core result.act result.shared.items }
{
    let part = &mut parts[who];
    part.step(core, memory, board)
}

/// Each partition but one hears what that one stored in shared areas. Goes over them only where it stored something there.
pub fn tell_stored(parts: &mut Vec<Partition>, who: usize, stored: &[Wrote])
    ensures { Hears who stored.now parts.old.items parts.new.items }
{
    if stored.is_empty() {
        return;
    }
    for part in 0..parts.len() {
        if part != who {
            parts[part].written(stored);
        }
    }
}

/// A console at the far end of a handle prints so many bytes at once, and counts them.
fn print(board: &mut Board, counts: &mut Vec<Counts>, links: &[Link], handle: PortRef, count: usize)
    requires lent { board.old.who ≡ handle.part }
    requires channel { kind_at (own_kinds board.old) handle.handle ≡ Some Kind.Channel }
    requires consoles { HasConsole (length counts.old.items) (far_end links.now (End.Part handle)) }
    requires few { (console : ℕ) → (counts_at counts.old.items console).printed < most_counted }
    requires bytes { count ≤ 16 }
    ensures board { board.new ≡ printed_lines (far_end links.now (End.Part handle)) handle.handle board.old }
    ensures counts { counts.new.items ≡ count_printed (far_end links.now (End.Part handle)) count counts.old.items }
{
    if let Some(End::Console(console)) = far_end(links, End::Part(handle)) {
        board.print(handle.handle);
        counts[console].print(count);
    }
}

/// The board knows that a partition began anew: it runs, and nothing that it received waits.
fn begin_anew(board: &mut Board, part: usize)
    requires { part < length board.old.wires }
    ensures { board.new ≡ emptied_lines (marked_lines board.old part true) part }
{
    board.mark(part, true);
    board.empty(part);
}

/// A partition starts that a handle manages, at an effective address; its memory is loaded anew or stays as it is.
fn start_managed(
    parts: &mut Vec<Partition>,
    memory: &mut Ground,
    board: &mut Board,
    handle: u32,
    entry: u32,
    load: bool,
)
    requires parts { length parts.old.items ≡ length board.old.wires }
    requires placed { AreAllPlaced parts.old.items memory.old }
    requires manages { kind_at (own_kinds board.old) handle ≡ Some Kind.Manage }
    requires entry { entry % 4 ≡ 0 }
    ensures begins { Begins (Start entry load) (managed_by (own_wire board.old handle)) parts.old.items parts.new.items memory.old memory.new }
    ensures board { board.new ≡ emptied_lines (marked_lines board.old (managed_by (own_wire board.old handle)) true) (managed_by (own_wire board.old handle)) }
{
    let managed = board.managed(handle);
    parts[managed].start(entry, load, memory);
    begin_anew(board, managed);
}

/// A partition restarts that a handle manages.
fn restart_managed(parts: &mut Vec<Partition>, memory: &mut Ground, board: &mut Board, handle: u32)
    requires parts { length parts.old.items ≡ length board.old.wires }
    requires placed { AreAllPlaced parts.old.items memory.old }
    requires manages { kind_at (own_kinds board.old) handle ≡ Some Kind.Manage }
    ensures begins { Begins Restart (managed_by (own_wire board.old handle)) parts.old.items parts.new.items memory.old memory.new }
    ensures board { board.new ≡ emptied_lines (marked_lines board.old (managed_by (own_wire board.old handle)) true) (managed_by (own_wire board.old handle)) }
{
    let managed = board.managed(handle);
    parts[managed].restart(memory);
    begin_anew(board, managed);
}

/// A partition stops that a handle manages.
fn stop_managed(parts: &mut Vec<Partition>, board: &mut Board, handle: u32)
    requires parts { length parts.old.items ≡ length board.old.wires }
    requires manages { kind_at (own_kinds board.old) handle ≡ Some Kind.Manage }
    ensures stopped { parts.new.items ≡ slice_set parts.old.items (managed_by (own_wire board.old handle)) (stopped_part (part_at parts.old.items (managed_by (own_wire board.old handle)))) }
    ensures board { board.new ≡ marked_lines board.old (managed_by (own_wire board.old handle)) false }
{
    let managed = board.managed(handle);
    parts[managed].stop();
    board.mark(managed, false);
}

/// A partition hears of what was copied last, which a handle manages.
fn tell_copied(parts: &mut Vec<Partition>, board: &Board, handle: u32)
    requires parts { length parts.old.items ≡ length board.now.wires }
    requires manages { kind_at (own_kinds board.now) handle ≡ Some Kind.Manage }
    ensures { parts.new.items ≡ slice_set parts.old.items (managed_by (own_wire board.now handle))
        (copied_part board.now.last.entries (part_at parts.old.items (managed_by (own_wire board.now handle)))) }
{
    let managed = board.managed(handle);
    parts[managed].copied(board.list());
}

/// What others than the stepping partition get of its act.
pub fn settle(
    parts: &mut Vec<Partition>,
    memory: &mut Ground,
    board: &mut Board,
    counts: &mut Vec<Counts>,
    wiring: &Wiring,
    act: &Act,
)
    requires asks { Asks wiring.now act.now parts.old.items memory.old board.old counts.old.items }
    ensures { Settles wiring.now board.old.who act.now parts.old.items parts.new.items memory.old memory.new board.old board.new counts.old.items counts.new.items }
{
    let part = board.who();
    match act {
        Act::Sent { h, bytes } => {
            let sender = PortRef { part, handle: *h };
            print(board, counts, wiring.links.as_slice(), sender, bytes.len());
        }
        Act::Rang { h } => {
            let sender = PortRef { part, handle: *h };
            ring_all(parts, wiring.bells.as_slice(), sender);
        }
        Act::Start { h, entry, load } => start_managed(parts, memory, board, *h, *entry, *load),
        Act::Stop { h } => stop_managed(parts, board, *h),
        Act::Restart { h } => restart_managed(parts, memory, board, *h),
        Act::CopyTo { h, .. } => tell_copied(parts, board, *h),
        Act::SelfRestart => board.empty(part),
        Act::SelfStop | Act::Faulted => board.mark(part, false),
        _ => {}
    }
}

/// The others hear of a step's stores and of its act.
fn follow(
    parts: &mut Vec<Partition>,
    memory: &mut Ground,
    board: &mut Board,
    counts: &mut Vec<Counts>,
    wiring: &Wiring,
    act: &Act,
    stored: &[Wrote],
)
    requires asks { Asks wiring.now act.now parts.old.items memory.old board.old counts.old.items }
    ensures { Follows wiring.now board.old.who act.now stored.now parts.old.items parts.new.items memory.old memory.new board.old board.new counts.old.items counts.new.items }
{
    tell_stored(parts, board.who(), stored);
    settle(parts, memory, board, counts, wiring, act);
}

/// A step of a core of the partition that the board is lent to, and all that it brings.
pub fn step_all(
    parts: &mut Vec<Partition>,
    memory: &mut Ground,
    board: &mut Board,
    counts: &mut Vec<Counts>,
    wiring: &Wiring,
    core: usize,
) -> Act
    requires system { IsSystem (held_of parts.old.items memory.old board.old wiring.now counts.old.items) }
    requires who { board.old.who < length parts.old.items }
    requires core { core < length (part_at parts.old.items board.old.who).inner.cores }
    requires running { (part_at parts.old.items board.old.who).inner.state ≡ State.Running }
    requires few { (part_at parts.old.items board.old.who).inner.steps < most_steps }
    ensures { Turns (held_of parts.old.items memory.old board.old wiring.now counts.old.items)
        (held_of parts.new.items memory.new board.new wiring.now counts.new.items) core result }
{
    let who = board.who();
    let Acts { act, shared } = step_part(parts, memory, board, who, core);
    follow(
        parts,
        memory,
        board,
        counts,
        wiring,
        &act,
        shared.as_slice(),
    );
    act
}
