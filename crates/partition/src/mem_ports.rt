//! Ports in memory.

ghost use Rattle.std.specs.Prelude.{◌≡◌, ◌+◌, ◌≤◌, false, [], length, map, take, Some, IfOk};
ghost use Rattle.partition.specs.Port.{kinds_of, kind_of, kind_at, end_at, come_on, freed_on, told_on, emptied, fresh_end};
ghost use Rattle.partition.specs.Act.{act_of, settled};
ghost use Rattle.partition.specs.Lending.{HasHandle};
ghost use Rattle.partition.specs.MemPorts as spec;

use crate::handles::kind_of;
use crate::kind::Kind;
use crate::mem_end::MemEnd;
use crate::ports::Ports;
use byte_channel::{Channel, Side};
use copy_lists::{SgList, sg_put};
use ground::Ground;
use machine_desc::{Act, Port};
use memory_areas::AreaMap;
use outside::{Bytes, NoMemory};
use std::alloc::Global;
use std::marker::Model;

/// The ends of a partition whose channels lead to nobody else: whoever holds them gives the bytes that come and takes
/// those that were sent. Only `new` takes memory.
#[derive(Drop)]
pub struct MemPorts {
    ends: Vec<MemEnd>,
    feed: Bytes,
    handle: u32,
    to_managed: bool,
    list: SgList,
}

impl Model for MemPorts {
    ghost use Rattle.partition.specs.MemPorts.{Held};

    ghost Value = { Held };

    ghost view = { λ ports. record {
      ends = ports.ends.items;
      feed = ports.feed;
      last = record { handle = ports.handle; to_managed = ports.to_managed; entries = ports.list };
    } };
}

/// How a handle's end begins.
fn fresh_mem_end(alloc: Global, port: &Port) -> Result<MemEnd, NoMemory>
    ensures kind { IfOk result (λ it. it.kind ≡ kind_of port.now) }
    ensures end { IfOk result (λ it. spec.end_of it ≡ fresh_end port.now) }
{
    Ok(MemEnd {
        kind: kind_of(port),
        channel: Channel::new(alloc)?,
        runs: match port {
            Port::Manage { held, .. } => !*held,
            _ => false,
        },
    })
}

impl MemPorts {
    /// The ends of a partition with these handles before its first step, and what copies out of managed partitions bring.
    /// Fails only where memory runs out.
    pub fn new(alloc: Global, ports: &[Port], feed: Bytes) -> Result<MemPorts, NoMemory>
        ensures kinds { IfOk result (λ it. spec.held_kinds it ≡ kinds_of ports.now) }
        ensures fresh { IfOk result (λ it. spec.held_ends it ≡ map fresh_end ports.now) }
        ensures feed { IfOk result (λ it. it.feed ≡ feed) }
        ensures last { IfOk result (λ it. it.last ≡ record { handle = 0; to_managed = false; entries = [] }) }
    {
        let mut ends = Vec::with_capacity(alloc, ports.len())?;
        for port in ports {
            ends.push(fresh_mem_end(alloc, port)?)?;
        }
        let list = SgList::new(alloc)?;
        Ok(MemPorts {
            ends,
            feed,
            handle: 0,
            to_managed: false,
            list,
        })
    }

    /// Lets bytes come on a channel, which has room for them.
    #[tactic(auto, using(crate::proofs::Ends::ends_put, crate::proofs::Ends::sorts_put, crate::proofs::Ends::end_there, crate::proofs::Ends::is_there))]
    pub fn give(&mut self, h: u32, bytes: &[u8])
        requires channel { kind_at (spec.held_kinds self.old) h ≡ Some Kind.Channel }
        requires room { length (end_at (spec.held_ends self.old) h).received + length bytes.now ≤ 256 }
        ensures ends { spec.held_ends self.new ≡ come_on (spec.held_ends self.old) h bytes.now }
        ensures kinds { spec.held_kinds self.new ≡ spec.held_kinds self.old }
        ensures rest { self.new ≡ record self.old { ends = self.new.ends } }
    {
        self.ends[(h - 1) as usize].channel.send(Side::B, bytes);
    }

    /// How many bytes were sent on a channel that nobody has taken.
    #[tactic(auto, using(crate::proofs::Ends::end_there, crate::proofs::Ends::is_there))]
    pub fn outstanding(&self, h: u32) -> u16
        requires { kind_at (spec.held_kinds self.now) h ≡ Some Kind.Channel }
        ensures { result ≡ (end_at (spec.held_ends self.now) h).outstanding }
    {
        self.ends[(h - 1) as usize].channel.waiting(Side::B)
    }

    /// Takes the first of the bytes that were sent on a channel, as many as fit into the slice, which so many wait for.
    #[tactic(auto, using(crate::proofs::Ends::freed_end, crate::proofs::Ends::ends_put, crate::proofs::Ends::sorts_put, crate::proofs::Ends::end_there, crate::proofs::Ends::is_there))]
    pub fn free(&mut self, h: u32, into: &mut [u8])
        requires channel { kind_at (spec.held_kinds self.old) h ≡ Some Kind.Channel }
        requires sent { length into.old ≤ (end_at (spec.held_ends self.old) h).outstanding }
        ensures bytes { into.new ≡ take (length into.old) (spec.mem_end_at self.old.ends h).channel.at_b }
        ensures ends { spec.held_ends self.new ≡ freed_on (spec.held_ends self.old) h (length into.old) }
        ensures kinds { spec.held_kinds self.new ≡ spec.held_kinds self.old }
        ensures rest { self.new ≡ record self.old { ends = self.new.ends } }
    {
        self.ends[(h - 1) as usize].channel.receive(Side::B, into);
    }
}

impl MemPorts {
    /// Notes whether the partition runs that a handle manages.
    #[tactic(auto, using(crate::proofs::Ends::ends_told, crate::proofs::Ends::sorts_told, crate::proofs::Ends::is_there))]
    pub fn tell(&mut self, h: u32, runs: bool)
        requires manage { kind_at (spec.held_kinds self.old) h ≡ Some Kind.Manage }
        ensures ends { spec.held_ends self.new ≡ told_on (spec.held_ends self.old) h runs }
        ensures kinds { spec.held_kinds self.new ≡ spec.held_kinds self.old }
        ensures rest { self.new ≡ record self.old { ends = self.new.ends } }
    {
        self.ends[(h - 1) as usize].runs = runs;
    }

    /// Drops what was received and not taken.
    #[tactic(auto, using(crate::proofs::Ends::ends_emptied, crate::proofs::Ends::sorts_emptied))]
    pub fn empty(&mut self)
        ensures ends { spec.held_ends self.new ≡ emptied (spec.held_ends self.old) }
        ensures kinds { spec.held_kinds self.new ≡ spec.held_kinds self.old }
        ensures rest { self.new ≡ record self.old { ends = self.new.ends } }
    {
        empty_all(&mut self.ends);
    }

    /// Does what an act of the partition leaves to those who lend its ends.
    pub fn settle(&mut self, act: &Act)
        requires { HasHandle (spec.held_kinds self.old) act.now }
        ensures ends { spec.held_ends self.new ≡ settled (act_of [] act.now) (spec.held_ends self.old) }
        ensures kinds { spec.held_kinds self.new ≡ spec.held_kinds self.old }
        ensures rest { self.new ≡ record self.old { ends = self.new.ends } }
    {
        match act {
            Act::Start { h, .. } | Act::Restart { h } => self.tell(*h, true),
            Act::Stop { h } => self.tell(*h, false),
            Act::SelfRestart => self.empty(),
            _ => {}
        }
    }
}

/// Drops what each end received.
#[tactic(auto, using(crate::proofs::Written::one_more, crate::proofs::Written::all_kept))]
fn empty_all(ends: &mut Vec<MemEnd>)
    ensures { ends.new.items ≡ map spec.emptied_end ends.old.items }
{
    for place in 0..ends.len() {
        let _count = ends[place].channel.clear_side(Side::A);
    }
}

impl Ports for MemPorts {
    ghost kinds = { spec.held_kinds };

    ghost seen = { spec.held_ends };

    ghost sends = { spec.Sends };

    ghost takes = { spec.Takes };

    ghost copies = { spec.Copies };

    ghost told = { spec.tells_none };

    ghost feed = { spec.held_feed };

    ghost last = { spec.held_last };

    #[tactic(auto, using(crate::proofs::Ends::end_there, crate::proofs::Ends::is_there))]
    fn waiting(&self, h: u32) -> u16 {
        self.ends[(h - 1) as usize].channel.waiting(Side::A)
    }

    #[tactic(auto, using(crate::proofs::Ends::end_there, crate::proofs::Ends::is_there))]
    fn room(&self, h: u32) -> u16 {
        self.ends[(h - 1) as usize].channel.room(Side::A)
    }

    #[tactic(auto, using(crate::proofs::Ends::end_there, crate::proofs::Ends::is_there))]
    fn running(&self, h: u32) -> bool {
        self.ends[(h - 1) as usize].runs
    }

    #[tactic(auto, using(crate::proofs::Ends::sent_end, crate::proofs::Ends::ends_put, crate::proofs::Ends::sorts_put, crate::proofs::Ends::end_there, crate::proofs::Ends::is_there))]
    fn send(&mut self, h: u32, piece: &[u8]) {
        self.ends[(h - 1) as usize].channel.send(Side::A, piece);
    }

    #[tactic(auto, using(crate::proofs::Ends::ends_put, crate::proofs::Ends::sorts_put, crate::proofs::Ends::end_there, crate::proofs::Ends::is_there))]
    fn receive(&mut self, h: u32, into: &mut [u8]) {
        self.ends[(h - 1) as usize].channel.receive(Side::A, into);
    }

    fn copy(
        &mut self,
        ground: &mut Ground,
        own: &AreaMap,
        h: u32,
        to_managed: bool,
        list: &SgList,
    ) {
        if !to_managed {
            sg_put(ground, own, list, self.feed.as_slice());
        }
        self.handle = h;
        self.to_managed = to_managed;
        self.list.set(list);
    }
}
