//! A lone machine: a partition with real memory of its own and with ports in memory.

ghost use Rattle.std.specs.Prelude.{◌≡◌, ℕ, ◌+◌, ◌%◌, ◌<◌, ◌≤◌, true, false, [], Some, length, map, IfOk, IfSome, IsTrue};
ghost use Rattle.std.specs.List.{list_all};
ghost use Rattle.ground.specs.Extents.{AreSmall};
ghost use Rattle.machine_desc.specs.Private.{is_private_range};
ghost use Rattle.machine_desc.specs.Sound.{IsSound};
ghost use Rattle.fresh_load.specs.Placed.{extents_of};
ghost use Rattle.partition.specs.Port.{kinds_of, kind_at, end_at};
ghost use Rattle.partition.specs.Act.{act_of, ports_after, state_after};
ghost use Rattle.partition.specs.Machine.{most_steps, fresh, core_at, place_in};
ghost use Rattle.partition.specs.Event as event;
ghost use Rattle.partition.specs.Event.{apply};
ghost use Rattle.partition.specs.Reservations.{with_kept};
ghost use Rattle.partition.specs.Step as spec;
ghost use Rattle.partition.specs.Lending.{HasBytes, HasEntry, HasHandle, IsOutstanding, IsStepped, pieces_of};
ghost use Rattle.partition.specs.Regions.{areas_of};
ghost use Rattle.partition.specs.Copying.{own_regions};
ghost use Rattle.partition.specs.Loading.{have_extents};

use crate::acts::Acts;
use crate::kind::Kind;
use crate::mem_ports::MemPorts;
use crate::partition::Partition;
use crate::ports::Ports;
use core_step::{Core, Wrote};
use fresh_load::load;
use ground::Ground;
use machine_desc::{Act, Desc, Event, State};
use memory_areas::AreaMap;
use outside::{Bytes, NoMemory};
use std::alloc::Global;
use std::marker::Model;

/// A described machine by itself. Contracts see its description and the machine of its definition. Only `new` takes memory.
#[derive(Drop)]
pub struct LoneMachine {
    part: Partition,
    memory: Ground,
    ports: MemPorts,
}

impl Model for LoneMachine {
    ghost use Rattle.std.specs.Prelude.{◌≡◌, length};
    ghost use Rattle.fresh_load.specs.Placed.{ArePlaced};
    ghost use Rattle.partition.specs.Port.{kinds_of};
    ghost use Rattle.partition.specs.MemPorts.{held_ends, held_kinds};
    ghost use Rattle.partition.specs.Lending.{machine_of};
    ghost use Rattle.partition.specs.Loading.{Lone};

    ghost Value = { Lone };

    ghost view = { λ lone. record {
      desc = lone.part.desc;
      machine = machine_of lone.part (held_ends lone.ports) lone.memory;
      feed = lone.ports.feed;
      last = lone.ports.last;
    } };

    ghost invariant = { λ lone. ArePlaced lone.memory lone.part.desc.regions × (held_kinds lone.ports ≡ kinds_of lone.part.desc.ports) };
}

impl LoneMachine {
    /// The machine of a sound description of one core before its first step, over extents of these sizes in bytes, among
    /// which are those of its regions; all of them together have a GiB at most. Fails only where memory runs out.
    #[tactic(auto, using(crate::proofs::Zeros::zeros_placed, crate::proofs::Zeros::zeros_shared), unfolding(crate::specs::Machine::fresh))]
    pub fn new(
        alloc: Global,
        desc: Desc,
        sizes: &[u32],
        feed: Bytes,
    ) -> Result<LoneMachine, NoMemory>
        requires sound { IsSound desc }
        requires core { length desc.cores ≡ 1 }
        requires small { AreSmall sizes.now }
        requires extents { have_extents sizes.now desc.regions ≡ true }
        ensures fresh { IfOk result (λ lone. lone ≡ record { desc = desc; machine = fresh desc; feed = feed; last = record { handle = 0; to_managed = false; entries = [] } }) }
    {
        let mut memory = Ground::new(alloc, sizes)?;
        let map = AreaMap::new(alloc, &desc)?;
        load(&desc, &map, &mut memory);
        let ports = MemPorts::new(alloc, desc.ports.as_slice(), feed)?;
        let part = Partition::new(alloc, desc)?;
        Ok(LoneMachine {
            part,
            memory,
            ports,
        })
    }

    /// Whether it does steps.
    pub fn state(&self) -> State
        ensures { result ≡ self.now.machine.inner.state }
    {
        self.part.state()
    }

    /// How many steps its cores have done together.
    pub fn steps(&self) -> u64
        ensures { result ≡ self.now.machine.inner.steps }
    {
        self.part.steps()
    }

    /// Its description.
    pub fn desc(&self) -> &Desc
        ensures { result.now ≡ self.now.desc }
    {
        self.part.desc()
    }

    /// The core at this place.
    pub fn core(&self, core: usize) -> &Core
        requires { core < length self.now.machine.inner.cores }
        ensures { result.now.registers ≡ (core_at self.now.machine.inner.cores core).registers }
    {
        self.part.core(core)
    }

    /// The place of the core with this physical number, and none where it is no core of the partition.
    pub fn place_of(&self, number: u32) -> Option<usize>
        ensures value { result ≡ place_in self.now.desc.cores number }
        ensures there { IfSome result (λ place. place < length self.now.machine.inner.cores) }
    {
        self.part.place_of(number)
    }

    /// Does one step of the core at this place. What it copies out of a partition that it manages is what the machine was
    /// made with.
    #[tactic(auto, using(crate::proofs::Ends::is_outstanding))]
    pub fn step(&mut self, core: usize) -> Acts
        requires core { core < length self.old.machine.inner.cores }
        requires running { self.old.machine.inner.state ≡ State.Running }
        requires few { self.old.machine.inner.steps < most_steps }
        ensures stepped { IsStepped (extents_of self.old.desc.regions)
            (pieces_of (own_regions (areas_of self.old.desc.regions)) self.new.machine.memory self.new.last) (spec.step self.old.desc self.old.machine core self.old.feed)
            self.new.machine result.act result.shared.items }
        ensures desc { self.new.desc ≡ self.old.desc }
        ensures feed { self.new.feed ≡ self.old.feed }
        ensures cores { length self.new.machine.inner.cores ≡ length self.old.machine.inner.cores }
        ensures state { self.new.machine.inner.state ≡ state_after (act_of [] result.act) }
        ensures counted { self.new.machine.inner.steps ≡ self.old.machine.inner.steps + 1 }
        ensures ports { self.new.machine.ports ≡ ports_after (act_of [] result.act) self.old.machine.ports }
        ensures outstanding { IsOutstanding result.act self.new.machine.ports }
        ensures bytes { HasBytes result.act }
        ensures entry { HasEntry result.act }
        ensures handle { HasHandle (kinds_of self.old.desc.ports) result.act }
    {
        let acts = self.part.step(core, &mut self.memory, &mut self.ports);
        self.ports.settle(&acts.act);
        acts
    }

    /// Its manager starts it at an effective address, and has its memory loaded anew or not.
    #[tactic(auto, unfolding(crate::specs::Event::apply))]
    pub fn start(&mut self, entry: u32, load: bool)
        requires { entry % 4 ≡ 0 }
        ensures { self.new ≡ record self.old { machine = apply self.old.desc self.old.machine (event.Start entry load) } }
    {
        self.part.start(entry, load, &mut self.memory);
        self.ports.empty();
    }

    /// Its manager restarts it.
    #[tactic(auto, unfolding(crate::specs::Event::apply))]
    pub fn restart(&mut self)
        ensures { self.new ≡ record self.old { machine = apply self.old.desc self.old.machine event.Restart } }
    {
        self.part.restart(&mut self.memory);
        self.ports.empty();
    }

    /// Its manager stops it.
    #[tactic(auto, unfolding(crate::specs::Event::apply))]
    pub fn stop(&mut self)
        ensures { self.new ≡ record self.old { machine = apply self.old.desc self.old.machine event.Stop } }
    {
        self.part.stop();
    }

    /// Its manager writes bytes into its private memory, from a logical address on.
    pub fn copy_in(&mut self, at: u64, bytes: &[u8])
        requires { IsTrue (is_private_range self.old.desc.regions at (length bytes.now)) }
        ensures { self.new ≡ record self.old { machine = apply self.old.desc self.old.machine (event.CopyIn (record { at = at; bytes = bytes.now })) } }
    {
        self.part
            .apply(Event::CopyIn { at, bytes }, &mut self.memory);
    }

    /// The partition that a handle manages runs now, or doesn't.
    #[tactic(auto, unfolding(crate::specs::Event::apply))]
    pub fn tell(&mut self, h: u32, runs: bool)
        requires { kind_at (kinds_of self.old.desc.ports) h ≡ Some Kind.Manage }
        ensures { self.new ≡ record self.old { machine = apply self.old.desc self.old.machine (event.Tells h runs) } }
    {
        self.ports.tell(h, runs);
    }

    /// The doorbell rings that a handle receives.
    pub fn ring(&mut self, h: u32)
        requires { kind_at (kinds_of self.old.desc.ports) h ≡ Some Kind.Receive }
        ensures { self.new ≡ record self.old { machine = apply self.old.desc self.old.machine (event.Ring h) } }
    {
        self.part.ring(h);
    }

    /// Another partition stored in these ranges of shared extents: a reservation whose granule has a byte of them is lost.
    pub fn written(&mut self, stored: &[Wrote])
        ensures { self.new ≡ record self.old {
          machine = record self.old.machine {
            inner = record self.old.machine.inner { cores = map (with_kept self.old.desc.regions stored.now) self.old.machine.inner.cores };
          };
        } }
    {
        self.part.written(stored);
    }

    /// How many received bytes wait on a channel.
    pub fn waiting(&self, h: u32) -> u16
        requires { kind_at (kinds_of self.now.desc.ports) h ≡ Some Kind.Channel }
        ensures { result ≡ length (end_at self.now.machine.ports h).received }
    {
        self.ports.waiting(h)
    }

    /// How many bytes were sent on a channel that nobody has taken.
    pub fn outstanding(&self, h: u32) -> u16
        requires { kind_at (kinds_of self.now.desc.ports) h ≡ Some Kind.Channel }
        ensures { result ≡ (end_at self.now.machine.ports h).outstanding }
    {
        self.ports.outstanding(h)
    }

    /// Bytes come on a channel, which has room for them.
    #[tactic(auto, unfolding(crate::specs::Event::apply))]
    pub fn give(&mut self, h: u32, bytes: &[u8])
        requires channel { kind_at (kinds_of self.old.desc.ports) h ≡ Some Kind.Channel }
        requires room { length (end_at self.old.machine.ports h).received + length bytes.now ≤ 256 }
        ensures { self.new ≡ record self.old { machine = apply self.old.desc self.old.machine (event.Bytes h bytes.now) } }
    {
        self.ports.give(h, bytes);
    }

    /// The other end of a channel takes the first of the bytes that were sent there, as many as fit into the slice, which
    /// so many wait for.
    #[tactic(auto, unfolding(crate::specs::Event::apply))]
    pub fn free(&mut self, h: u32, into: &mut [u8])
        requires channel { kind_at (kinds_of self.old.desc.ports) h ≡ Some Kind.Channel }
        requires sent { length into.old ≤ (end_at self.old.machine.ports h).outstanding }
        ensures { self.new ≡ record self.old { machine = apply self.old.desc self.old.machine (event.Room h (length into.old)) } }
    {
        self.ports.free(h, into);
    }
}
