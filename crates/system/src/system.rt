//! A system of partitions.

ghost use Rattle.std.specs.Prelude.{◌≡◌, ℕ, ◌+◌, ◌<◌, ◌≤◌, List, min, Some, length, take, IfOk};
ghost use Rattle.machine_desc.specs.Joined.{AreJoined};
ghost use Rattle.outside.specs.Pieces.{Writes};
ghost use Rattle.partition.specs.Act.{act_of};
ghost use Rattle.partition.specs.Machine.{most_steps};
ghost use Rattle.network.specs.Network.{desc_at};
ghost use Rattle.network.specs.World.{counts_at, machine_at, opening_world};
ghost use Rattle.network.specs.Turn.{core_turn, done_by, steps_in};
ghost use Rattle.network.specs.Entering.{count_entered, enter};
ghost use Rattle.network.specs.Laws.{are_at_rest};
ghost use Rattle.network.specs.Report.{act_lines, end_lines};
ghost use Rattle.network.specs.Tally.{after_lines, no_tally};
ghost use Rattle.system.specs.Board.{console_at, console_room, sent_by};
ghost use Rattle.system.specs.Wired.{channel_wire};
ghost use Rattle.system.specs.Shown.{IsDeedOf, Waits, deed_line, shown};
ghost use Rattle.system.specs.System.{HaveOneCore, most_counted};

use crate::beginning::{fresh_parts, loaded_memory};
use crate::board::Board;
use crate::counts::{Counts, opening_counts};
use crate::deed::{Deed, write_deed};
use crate::ends::{write_consoles, write_parts};
use crate::rest::all_rest;
use crate::seat::{Seat, find_seat, owners_of};
use crate::show::Show;
use crate::tally::Tally;
use crate::turning::step_all;
use ground::Ground;
use machine_desc::{Act, Desc, State, Wiring};
use outside::{Failed, NoMemory, Sink};
use partition::Partition;
use std::alloc::Global;
use std::marker::Model;

/// Partitions over one real memory, with the channels and consoles that join them. Contracts see the network that they are,
/// the world that it is in, and what its steps came to so far. Only `build` takes memory.
#[derive(Drop)]
pub struct System {
    parts: Vec<Partition>,
    memory: Ground,
    board: Board,
    wiring: Wiring,
    counts: Vec<Counts>,
    /// By physical number, the partition whose core it is.
    owners: Vec<Option<usize>>,
    tally: Tally,
}

impl Model for System {
    ghost use Rattle.system.specs.Seats.{AreOwners};
    ghost use Rattle.system.specs.System.{Snapshot, IsSystem, IsTallied, descs_of, snapshot_of};

    ghost Value = { Snapshot };

    ghost view = { λ system. snapshot_of system.tally (record {
      parts = system.parts.items;
      memory = system.memory;
      lines = system.board;
      wiring = system.wiring;
      counts = system.counts.items;
    }) };

    ghost invariant = { λ system. IsSystem (record {
      parts = system.parts.items;
      memory = system.memory;
      lines = system.board;
      wiring = system.wiring;
      counts = system.counts.items;
    }) × (AreOwners system.owners.items (descs_of system.parts.items) × IsTallied system.parts.items system.tally) };
}

impl System {
    /// The system of joined partitions of one core each, before the first turn. Takes all the memory here; fails only where
    /// memory runs out.
    #[tactic(auto, using(crate::proofs::Opened::opens, crate::proofs::Opened::joined_sound))]
    pub fn build(alloc: Global, descs: Vec<Desc>, wiring: Wiring) -> Result<System, NoMemory>
        requires joined { AreJoined descs.items wiring }
        requires cores { HaveOneCore descs.items }
        ensures opening { IfOk result (λ system. system ≡ record {
          network = record { descs = descs.items; wiring = wiring };
          world = opening_world (record { descs = descs.items; wiring = wiring });
          tally = no_tally;
        }) }
    {
        let board = Board::new(alloc, descs.as_slice(), &wiring)?;
        let memory = loaded_memory(alloc, descs.as_slice(), &wiring)?;
        let counts = opening_counts(alloc, wiring.consoles.as_slice().len())?;
        let parts = fresh_parts(alloc, descs)?;
        let owners = owners_of(alloc, parts.as_slice())?;
        Ok(System {
            parts,
            memory,
            board,
            wiring,
            counts,
            owners,
            tally: Tally::new(),
        })
    }

    /// Of these bytes, which wait at a console, as many enter as there is room for. Answers how many.
    #[tactic(auto, using(crate::proofs::Entered::consoles_long))]
    pub fn enter(&mut self, console: usize, bytes: &[u8]) -> usize
        requires console { console < length self.old.network.wiring.consoles }
        ensures entered { self.new ≡ record self.old { world = (enter self.old.network console bytes.now self.old.world).after } }
        ensures count { (counts_at self.new.world.consoles console).entered ≡ (counts_at self.old.world.consoles console).entered + result }
    {
        enter_at(&mut self.board, &mut self.counts, console, bytes)
    }

    /// The turn of a core, by its physical number: it does a step where it is a core of a running partition. What the step did
    /// is written, if it is to be shown. Fails only where the sink does, which then has taken a front of the line; the turn is
    /// done all the same.
    pub fn turn<S: Sink>(&mut self, core: u32, show: Show, out: &mut S) -> Result<(), Failed>
        requires few { (part : ℕ) → (machine_at self.old.world.machines part).inner.steps < most_steps }
        ensures network { self.new.network ≡ self.old.network }
        ensures world { self.new.world ≡ (core_turn self.old.network (Some core) self.old.world).after }
        ensures lines { Writes result (S.taken out.old) (S.taken out.new) (S.faults out.old) (S.faults out.new)
            (shown show self.old.network (core_turn self.old.network (Some core) self.old.world).lines) }
        ensures tally { self.new.tally ≡ after_lines (core_turn self.old.network (Some core) self.old.world).lines self.old.tally }
        ensures counted { (part : ℕ) → (machine_at self.new.world.machines part).inner.steps ≤ (machine_at self.old.world.machines part).inner.steps + 1 }
    {
        let deed = self.turn_of(core);
        write_deed(self.parts.as_slice(), show, &deed, out)
    }

    /// Writes the lines behind the last turn: one for each partition and one for each console, by how many bytes wait there.
    /// Fails only where the sink does, which then has taken a front of the lines.
    pub fn end_lines<S: Sink>(&self, waiting: &[u64], out: &mut S) -> Result<(), Failed>
        requires { length waiting.now ≡ length self.now.network.wiring.consoles }
        ensures { (given : ℕ → List ℕ) → Waits self.now.network given self.now.world waiting.now
            → Writes result (S.taken out.old) (S.taken out.new) (S.faults out.old) (S.faults out.new) (end_lines self.now.network given self.now.world) }
    {
        write_parts(self.parts.as_slice(), out)?;
        let names = self.wiring.consoles.as_slice();
        write_consoles(names, self.counts.as_slice(), waiting, out)
    }

    /// The partition of this number.
    pub fn part(&self, i: usize) -> &Partition
        requires { i < length self.now.network.descs }
        ensures desc { result.now.desc ≡ desc_at self.now.network i }
        ensures inner { result.now.inner ≡ (machine_at self.now.world.machines i).inner }
    {
        &self.parts[i]
    }

    /// How many bytes entered from a console since the first turn.
    pub fn entered(&self, console: usize) -> u64
        requires { console < length self.now.network.wiring.consoles }
        ensures { result ≡ (counts_at self.now.world.consoles console).entered }
    {
        self.counts[console].entered()
    }

    /// How many lines the steps since the first turn have, shown or not.
    pub fn lines(&self) -> u64
        ensures { result ≡ self.now.tally.lines }
    {
        self.tally.lines()
    }

    /// How many bytes partitions sent since the first turn, to one another and to consoles.
    pub fn sent(&self) -> u64
        ensures { result ≡ self.now.tally.sent }
    {
        self.tally.sent()
    }

    /// Whether no partition runs.
    pub fn is_at_rest(&self) -> bool
        ensures { result ≡ are_at_rest self.now.world.machines }
    {
        all_rest(self.parts.as_slice())
    }

    /// The turn of a core, as `turn` does it. Answers what the step did, if there was one.
    fn turn_of(&mut self, number: u32) -> Option<Deed>
        requires few { (part : ℕ) → (machine_at self.old.world.machines part).inner.steps < most_steps }
        ensures network { self.new.network ≡ self.old.network }
        ensures world { self.new.world ≡ (core_turn self.old.network (Some number) self.old.world).after }
        ensures deed { IsDeedOf (length self.old.network.descs) result }
        ensures line { deed_line self.old.network.descs result ≡ act_lines self.old.network (core_turn self.old.network (Some number) self.old.world).lines }
        ensures tally { self.new.tally ≡ after_lines (core_turn self.old.network (Some number) self.old.world).lines self.old.tally }
        ensures counted { (part : ℕ) → (machine_at self.new.world.machines part).inner.steps ≤ (machine_at self.old.world.machines part).inner.steps + 1 }
    {
        let Seat { part, core } = find_seat(self.parts.as_slice(), self.owners.as_slice(), number)?;
        match self.parts[part].state() {
            State::Running => Some(self.step(part, core)),
            _ => None,
        }
    }

    /// A step of a core of a running partition, by its place there, and all that it brings. Answers what it did.
    #[tactic(auto, using(crate::proofs::Owned::owners_kept))]
    fn step(&mut self, part: usize, core: usize) -> Deed
        requires part { part < length self.old.network.descs }
        requires running { (machine_at self.old.world.machines part).inner.state ≡ State.Running }
        requires core { core < length (machine_at self.old.world.machines part).inner.cores }
        requires few { (machine_at self.old.world.machines part).inner.steps < most_steps }
        ensures network { self.new.network ≡ self.old.network }
        ensures world { self.new.world ≡ (steps_in self.old.network part core self.old.world).after }
        ensures part { result.part ≡ part }
        ensures line { deed_line self.old.network.descs (Some result) ≡ act_lines self.old.network (steps_in self.old.network part core self.old.world).lines }
        ensures tally { self.new.tally ≡ after_lines (steps_in self.old.network part core self.old.world).lines self.old.tally }
        ensures counted { (part : ℕ) → (machine_at self.new.world.machines part).inner.steps ≤ (machine_at self.old.world.machines part).inner.steps + 1 }
    {
        let step = self.parts[part].steps() + 1;
        self.board.lend_to(part);
        let act = step_all(
            &mut self.parts,
            &mut self.memory,
            &mut self.board,
            &mut self.counts,
            &self.wiring,
            core,
        );
        self.tally.count(&act);
        Deed { part, step, act }
    }
}

/// Bytes of a console come to the far end of its channel, as many as there is room for, and are counted.
fn enter_at(board: &mut Board, counts: &mut Vec<Counts>, console: usize, bytes: &[u8]) -> usize
    requires console { console < length board.old.consoles }
    requires counts { console < length counts.old.items }
    requires few { (counts_at counts.old.items console).entered < most_counted }
    ensures count { result ≡ min (console_room board.old console) (length bytes.now) }
    ensures board { board.new ≡ record board.old {
      channels = sent_by board.old.channels (channel_wire (console_at board.old.consoles console)) (take result bytes.now);
    } }
    ensures counts { counts.new.items ≡ count_entered console result counts.old.items }
{
    let count = board.enter(console, bytes);
    counts[console].enter(count);
    count
}
