//! A partition: its machine but for its memory and for the ends of its channels, which it is lent.

ghost use Rattle.std.specs.Prelude.{◌≡◌, ℕ, ◌+◌, ◌%◌, ◌<◌, ◌≤◌, true, false, List, [], ◌∷◌, length, map, slice_set, IfOk, IfSome, IsTrue};
ghost use Rattle.std.specs.List.{range_with_len};
ghost use Rattle.ground.specs.Extents.{extent_at};
ghost use Rattle.ground.specs.Own.{own_of};
ghost use Rattle.core_step.specs.Access.{SameSizes};
ghost use Rattle.machine_desc.specs.Private.{is_private_range};
ghost use Rattle.machine_desc.specs.Sound.{IsSound};
ghost use Rattle.fresh_load.specs.Placed.{ArePlaced, extents_of, is_private_extent};
ghost use Rattle.copy_lists.specs.Moving.{put};
ghost use Rattle.copy_lists.specs.Pieces.{targets_of};
ghost use Rattle.partition.specs.Port.{End, emptied, kinds_of};
ghost use Rattle.partition.specs.Act.{act_of, settled, state_after};
ghost use Rattle.partition.specs.Machine.{most_steps, booted, fresh_inner, shape_of, core_at, place_in};
ghost use Rattle.partition.specs.Anew.{started_inner};
ghost use Rattle.partition.specs.Asking.{asks, next_copy};
ghost use Rattle.partition.specs.Event.{Ring, Start, Restart, apply, ends_after};
ghost use Rattle.partition.specs.Reservations.{with_kept, with_copied};
ghost use Rattle.partition.specs.Step as spec;
ghost use Rattle.partition.specs.Lending.{Part, machine_of, AreTold, EventFits, IsCoreStepped, IsLent, IsStepped, KeepsOthers, Reloads, event_of, inner_after, pieces_of, restarts};

use crate::acts::Acts;
use crate::copier::Copier;
use crate::cpu::Cpu;
use crate::interrupts::{bell_at, interrupt_count};
use crate::ports::Ports;
use copy_lists::{SgEntry, SgList};
use core_step::{Core, Wrote};
use fresh_load::reload;
use ground::Ground;
use machine_desc::{Act, Desc, Event, Region, State};
use outside::NoMemory;
use std::alloc::Global;
use std::marker::Model;
use vpic::Vpic;

/// A partition of a described machine. With the ports and the real memory that it is lent for a step it stands for one
/// lone machine: contracts see its description and what it holds by itself. Only `new` takes memory.
#[derive(Drop)]
pub struct Partition {
    desc: Desc,
    cores: Vec<Cpu>,
    copier: Copier,
    vpic: Vpic,
    state: State,
    steps: u64,
}

impl Model for Partition {
    ghost use Rattle.std.specs.Prelude.{◌≡◌, length};
    ghost use Rattle.machine_desc.specs.Sound.{IsSound};
    ghost use Rattle.partition.specs.Interrupts.{interrupt_count};
    ghost use Rattle.partition.specs.Lending.{Part};

    ghost Value = { Part };

    ghost view = { λ part. record {
      desc = part.desc;
      inner = record { cores = part.cores.items; interrupts = part.vpic; state = part.state; steps = part.steps };
    } };

    ghost invariant = { λ part.
        IsSound part.desc × (part.copier.map ≡ part.desc.regions) × (length part.cores.items ≡ length part.desc.cores) × (length part.vpic.sources ≡ interrupt_count part.desc.ports) };
}

impl Partition {
    /// The partition of a sound description of one core before its first step. Fails only where memory runs out.
    pub fn new(alloc: Global, desc: Desc) -> Result<Partition, NoMemory>
        requires sound { IsSound desc }
        requires core { length desc.cores ≡ 1 }
        ensures fresh { IfOk result (λ part. part ≡ record { desc = desc; inner = fresh_inner desc }) }
    {
        let cpu = Cpu::booted(alloc, desc.entry, desc.tree_at as u32, 0)?;
        let mut cores = Vec::with_capacity(alloc, 1)?;
        cores.push(cpu)?;
        let state = if desc.held {
            State::Stopped
        } else {
            State::Running
        };
        let vpic = Vpic::new(interrupt_count(&desc));
        let copier = Copier::new(alloc, &desc)?;
        Ok(Partition {
            desc,
            cores,
            copier,
            vpic,
            state,
            steps: 0,
        })
    }

    /// The description that it was made of.
    pub fn desc(&self) -> &Desc
        ensures value { result.now ≡ self.now.desc }
        ensures sound { IsSound result.now }
    {
        &self.desc
    }

    /// Whether it does steps.
    pub fn state(&self) -> State
        ensures { result ≡ self.now.inner.state }
    {
        self.state
    }

    /// How many steps its cores have done together.
    pub fn steps(&self) -> u64
        ensures { result ≡ self.now.inner.steps }
    {
        self.steps
    }

    /// The core at this place.
    pub fn core(&self, core: usize) -> &Core
        requires { core < length self.now.inner.cores }
        ensures { result.now.registers ≡ (core_at self.now.inner.cores core).registers }
    {
        self.cores[core].core()
    }

    /// The place of the core with this physical number, and none where it is no core of the partition.
    pub fn place_of(&self, number: u32) -> Option<usize>
        ensures value { result ≡ place_in self.now.desc.cores number }
        ensures there { IfSome result (λ place. place < length self.now.inner.cores) }
    {
        place_in(self.desc.cores.as_slice(), number)
    }

    /// Does one step of the core at this place, over the real memory and with the ends of the partition's channels. The
    /// machine does what is defined of it, and no byte outside the extents of its regions changes but what it copies into a
    /// partition that it manages, where the ports tell its memory. What it copies out of one the ports have.
    ///
    /// Of the ends of what its handles name it changes what it sends and takes. What its commands make of the partitions
    /// that it manages, and what it received before it restarted itself, is up to those who lend them.
    pub fn step<P: Ports>(&mut self, core: usize, ground: &mut Ground, ports: &mut P) -> Acts
        requires core { core < length self.old.inner.cores }
        requires running { self.old.inner.state ≡ State.Running }
        requires few { self.old.inner.steps < most_steps }
        requires placed { ArePlaced ground.old self.old.desc.regions }
        requires kinds { P.kinds ports.old ≡ kinds_of self.old.desc.ports }
        requires told { AreTold (P.told ports.old) self.old.desc ground.old }
        ensures stepped { let asked = asks self.old.desc (machine_of self.old (P.seen ports.old) ground.old) core in
            IsStepped (extents_of self.old.desc.regions) (pieces_of self.old.desc.regions ground.new (P.last ports.new))
            (spec.step self.old.desc (machine_of self.old (P.seen ports.old) ground.old) core (P.feed ports.old ground.old asked.handle asked.ranges))
            (machine_of self.new (settled (act_of [] result.act) (P.seen ports.new)) ground.new) result.act result.shared.items }
        // What else others know of a step.
        ensures desc { self.new.desc ≡ self.old.desc }
        ensures cores { length self.new.inner.cores ≡ length self.old.inner.cores }
        ensures state { self.new.inner.state ≡ state_after (act_of [] result.act) }
        ensures counted { self.new.inner.steps ≡ self.old.inner.steps + 1 }
        ensures others { KeepsOthers (P.told ports.old) self.old.desc.regions (P.last ports.new) result.act ground.old ground.new }
        ensures sizes { SameSizes ground.old ground.new }
        ensures placed { ArePlaced ground.new self.new.desc.regions }
        ensures lent { IsLent P.kinds P.seen P.sends P.takes P.copies P.told P.last (next_copy self.old.desc (machine_of self.old (P.seen ports.old) ground.old) core)
            ground.old result.act ports.old ports.new }
    {
        let acts = self.step_core(core, ground, ports);
        self.settle(&acts.act, ground);
        acts
    }

    /// Its manager starts it: it begins at an effective address, and its memory is loaded anew or stays as it is. Shared
    /// regions stay, and no byte outside its private ones changes. What it received is gone, which is up to those who lend
    /// its ends. Takes no memory.
    pub fn start(&mut self, entry: u32, load: bool, ground: &mut Ground)
        requires entry { entry % 4 ≡ 0 }
        requires placed { ArePlaced ground.old self.old.desc.regions }
        ensures started { (ends : List End) → machine_of self.new (emptied ends) ground.new
            ≡ apply self.old.desc (machine_of self.old ends ground.old) (Start entry load) }
        ensures desc { self.new.desc ≡ self.old.desc }
        ensures steps { self.new.inner.steps ≡ self.old.inner.steps }
        ensures cores { length self.new.inner.cores ≡ length self.old.inner.cores }
        ensures memory { Reloads load self.old.desc ground.old ground.new }
    {
        self.boot(entry);
        reload_if(&self.desc, load, ground);
    }

    /// Its manager restarts it: it begins where its description says, with its memory loaded anew. Shared regions stay, and
    /// no byte outside its private ones changes. What it received is gone, which is up to those who lend its ends. Takes no
    /// memory.
    pub fn restart(&mut self, ground: &mut Ground)
        requires placed { ArePlaced ground.old self.old.desc.regions }
        ensures restarted { (ends : List End) → machine_of self.new (emptied ends) ground.new
            ≡ apply self.old.desc (machine_of self.old ends ground.old) Restart }
        ensures desc { self.new.desc ≡ self.old.desc }
        ensures steps { self.new.inner.steps ≡ self.old.inner.steps }
        ensures cores { length self.new.inner.cores ≡ length self.old.inner.cores }
        ensures memory { Reloads true self.old.desc ground.old ground.new }
    {
        self.boot(self.desc.entry);
        reload_if(&self.desc, true, ground);
    }

    /// Its manager stops it.
    pub fn stop(&mut self)
        ensures { self.new ≡ record self.old { inner = record self.old.inner { state = State.Stopped } } }
    {
        self.state = State::Stopped;
    }

    /// The doorbell rings that a handle receives, and nothing happens where it receives none.
    #[tactic(auto, unfolding(crate::specs::Event::apply))]
    pub fn ring(&mut self, h: u32)
        ensures desc { self.new.desc ≡ self.old.desc }
        ensures steps { self.new.inner.steps ≡ self.old.inner.steps }
        ensures cores { length self.new.inner.cores ≡ length self.old.inner.cores }
        ensures rung { (ends : List End) (memory : List (List ℕ)) → machine_of self.new ends memory ≡ apply self.old.desc (machine_of self.old ends memory) (Ring h) }
    {
        if let Some(irq) = bell_at(self.desc.ports.as_slice(), h) {
            self.vpic.ring(irq);
        }
    }

    /// Another partition stored in these ranges of shared extents: a reservation whose granule has a byte of them is lost.
    pub fn written(&mut self, stored: &[Wrote])
        ensures { self.new ≡ record self.old {
          inner = record self.old.inner { cores = map (with_kept self.old.desc.regions stored.now) self.old.inner.cores };
        } }
    {
        written_all(&mut self.cores, self.desc.regions.as_slice(), stored);
    }

    /// A copy by the list wrote into its private memory: a reservation whose granule has a byte of that is lost.
    pub fn copied(&mut self, list: &SgList)
        ensures { self.new ≡ record self.old {
          inner = record self.old.inner { cores = map (with_copied (targets_of list.now)) self.old.inner.cores };
        } }
    {
        copied_all(&mut self.cores, list.as_slice());
    }

    /// Does its share of what happens to it between two steps, but for its ends: what comes on a channel, what is taken there
    /// and what becomes of a partition that it manages is up to those who lend them. Shared regions stay, and no byte outside
    /// its private ones changes. Takes no memory.
    #[tactic(auto, unfolding(crate::specs::Event::apply))]
    pub fn apply(&mut self, event: Event, ground: &mut Ground)
        requires fits { EventFits self.old.desc event }
        requires placed { ArePlaced ground.old self.old.desc.regions }
        ensures applied { (ends : List End) → machine_of self.new (ends_after (event_of event.entry) ends) ground.new
            ≡ apply self.old.desc (machine_of self.old ends ground.old) (event_of event.entry) }
        ensures desc { self.new.desc ≡ self.old.desc }
        ensures steps { self.new.inner.steps ≡ self.old.inner.steps }
        ensures cores { length self.new.inner.cores ≡ length self.old.inner.cores }
        ensures others { (extent : ℕ) → is_private_extent self.old.desc.regions extent ≡ false → extent_at ground.new extent ≡ extent_at ground.old extent }
        ensures placed { ArePlaced ground.new self.new.desc.regions }
    {
        match event {
            Event::Bytes { .. } | Event::Room { .. } | Event::State { .. } => {}
            Event::Ring { h } => self.ring(h),
            Event::Start { entry, load } => self.start(entry, load, ground),
            Event::Stop => self.stop(),
            Event::Restart => self.restart(ground),
            Event::CopyIn { at, bytes } => self.copy_in(at, bytes, ground),
        }
    }

    /// Its manager writes bytes into its private memory, from a logical address on.
    fn copy_in(&mut self, at: u64, bytes: &[u8], ground: &mut Ground)
        requires private { IsTrue (is_private_range self.old.desc.regions at (length bytes.now)) }
        requires placed { ArePlaced ground.old self.old.desc.regions }
        ensures inner { self.new ≡ record self.old {
          inner = record self.old.inner { cores = map (with_copied (record { at = at; size = length bytes.now } ∷ [])) self.old.inner.cores };
        } }
        ensures memory { ground.new ≡ put self.old.desc.regions ground.old at bytes.now }
        ensures sound { IsSound self.old.desc }
    {
        self.copier.write(ground, at, bytes);
        copied_at(&mut self.cores, at, bytes.len() as u64);
    }

    /// Does what the step is for its core.
    #[tactic(auto, unfolding(crate::specs::Asking::asks))]
    fn step_core<P: Ports>(&mut self, core: usize, ground: &mut Ground, ports: &mut P) -> Acts
        requires core { core < length self.old.inner.cores }
        requires placed { ArePlaced ground.old self.old.desc.regions }
        requires kinds { P.kinds ports.old ≡ kinds_of self.old.desc.ports }
        requires told { AreTold (P.told ports.old) self.old.desc ground.old }
        ensures stepped { let asked = asks self.old.desc (machine_of self.old (P.seen ports.old) ground.old) core in
            IsCoreStepped (extents_of self.old.desc.regions) (pieces_of self.old.desc.regions ground.new (P.last ports.new))
            (spec.core_step (shape_of self.old.desc) (core_at self.old.inner.cores core) self.old.inner.interrupts (P.seen ports.old)
            (own_of (extents_of self.old.desc.regions) ground.old) (P.feed ports.old ground.old asked.handle asked.ranges))
            (core_at self.new.inner.cores core) self.new.inner.interrupts ground.new result.act result.shared.items }
        ensures rest { self.new ≡ record self.old {
          inner = record self.old.inner {
            cores = slice_set self.old.inner.cores core (core_at self.new.inner.cores core);
            interrupts = self.new.inner.interrupts;
          };
        } }
        ensures others { KeepsOthers (P.told ports.old) self.old.desc.regions (P.last ports.new) result.act ground.old ground.new }
        ensures sizes { SameSizes ground.old ground.new }
        ensures lent { IsLent P.kinds P.seen P.sends P.takes P.copies P.told P.last (next_copy self.old.desc (machine_of self.old (P.seen ports.old) ground.old) core)
            ground.old result.act ports.old ports.new }
    {
        self.cores[core].step(&self.desc, &mut self.copier, &mut self.vpic, ground, ports)
    }

    /// Counts the step, and stops or restarts where it says so.
    fn settle(&mut self, act: &Act, ground: &mut Ground)
        requires running { self.old.inner.state ≡ State.Running }
        requires few { self.old.inner.steps < most_steps }
        requires placed { ArePlaced ground.old self.old.desc.regions }
        ensures inner { self.new ≡ record self.old { inner = inner_after self.old.desc (act_of [] act.now) self.old.inner } }
        ensures cores { length self.new.inner.cores ≡ length self.old.inner.cores }
        ensures memory { Reloads (restarts (act_of [] act.now)) self.old.desc ground.old ground.new }
    {
        self.steps += 1;
        match act {
            Act::Faulted => self.state = State::Faulted,
            Act::SelfStop => self.state = State::Stopped,
            Act::SelfRestart => self.restart(ground),
            _ => {}
        }
    }

    /// Its cores and its interrupts are as they begin, and it runs from the entry on.
    fn boot(&mut self, entry: u32)
        requires { entry % 4 ≡ 0 }
        ensures inner { self.new ≡ record self.old { inner = started_inner self.old.desc entry self.old.inner } }
        ensures cores { length self.new.inner.cores ≡ length self.old.inner.cores }
    {
        let tree_at = self.desc.tree_at as u32;
        reboot_all(&mut self.cores, entry, tree_at);
        self.vpic = Vpic::new(interrupt_count(&self.desc));
        self.state = State::Running;
    }
}

/// Loads the private memory of a partition anew, or lets it stand.
#[tactic(auto, using(crate::proofs::Anew::loads_anew, crate::proofs::Anew::stays_loaded))]
fn reload_if(desc: &Desc, load: bool, ground: &mut Ground)
    requires sound { IsSound desc.now }
    requires placed { ArePlaced ground.old desc.now.regions }
    ensures { Reloads load desc.now ground.old ground.new }
{
    if load {
        reload(desc, ground);
    }
}

/// Each core begins at the entry.
fn reboot_all(cores: &mut Vec<Cpu>, entry: u32, tree_at: u32)
    requires entry { entry % 4 ≡ 0 }
    requires few { length cores.old.items ≤ 8 }
    ensures { cores.new.items ≡ map (λ (number : ℕ). booted entry tree_at number) (range_with_len 0 (length cores.old.items)) }
{
    for core in 0..cores.len() {
        cores[core].reboot(entry, tree_at, core as u32);
    }
}

/// Each core, where another partition stored in these ranges.
#[tactic(auto, using(crate::proofs::Written::one_more, crate::proofs::Written::all_kept))]
fn written_all(cores: &mut Vec<Cpu>, regions: &[Region], stored: &[Wrote])
    ensures { cores.new.items ≡ map (with_kept regions.now stored.now) cores.old.items }
{
    for core in 0..cores.len() {
        cores[core].written(regions, stored);
    }
}

/// Each core, where a copy by these entries wrote into the partition's memory.
#[tactic(auto, using(crate::proofs::Written::one_more, crate::proofs::Written::all_kept))]
fn copied_all(cores: &mut Vec<Cpu>, entries: &[SgEntry])
    ensures { cores.new.items ≡ map (with_copied (targets_of entries.now)) cores.old.items }
{
    for core in 0..cores.len() {
        cores[core].copied(entries);
    }
}

/// Each core, where so many bytes were written from a logical address on.
fn copied_at(cores: &mut Vec<Cpu>, at: u64, size: u64)
    ensures { cores.new.items ≡ map (with_copied (record { at = at; size = size } ∷ [])) cores.old.items }
{
    copied_all(
        cores,
        &[SgEntry {
            source: 0,
            target: at,
            size,
        }],
    );
}

/// The place of a number in a list.
fn place_in(cores: &[u32], number: u32) -> Option<usize>
    ensures value { result ≡ place_in cores.now number }
    ensures there { IfSome result (λ place. place < length cores.now) }
{
    cores.iter().position(|core| *core == number)
}
