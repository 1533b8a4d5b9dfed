//! What partitions share but for memory, lent to one of them at a time.

ghost use Rattle.std.specs.Prelude.{◌≡◌, ◌+◌, ◌-◌, ◌<◌, ◌≤◌, min, Some, length, slice_index_or, slice_set, take, IfOk};
ghost use Rattle.machine_desc.specs.Joined.{AreJoined};
ghost use Rattle.system.specs.Wired.{channel_wire, opening_lines};
ghost use Rattle.byte_channel.specs.Waiting.{after_clear, other_side, waiting_at};
ghost use Rattle.partition.specs.Port.{kind_at};
ghost use Rattle.system.specs.Board as spec;

use crate::wire::{ChannelEnd, Wire};
use crate::wiring::{all_maps, all_wires, beginnings, console_sides, empty_channels};
use byte_channel::{Channel, Side};
use copy_lists::{SgList, sg_copy};
use ground::Ground;
use machine_desc::{Desc, Wiring};
use memory_areas::AreaMap;
use outside::{Listed, NoMemory};
use partition::{Kind, Ports};
use std::alloc::Global;
use std::marker::Model;

/// What the handles of all partitions lead to: one channel for its two ends, whether each partition runs, and where its
/// memory lies. It is lent to one partition at a time, which knows its own handles alone. It keeps what was copied last. Only
/// `new` takes memory.
#[derive(Drop)]
pub struct Board {
    who: usize,
    wires: Vec<Listed<Wire>>,
    channels: Vec<Channel>,
    running: Vec<bool>,
    consoles: Vec<ChannelEnd>,
    /// By partition.
    maps: Vec<AreaMap>,
    handle: u32,
    to_managed: bool,
    list: SgList,
}

impl Model for Board {
    ghost use Rattle.system.specs.Board.{Lines, AreLines};

    ghost Value = { Lines };

    ghost view = { λ board. record {
      who = board.who;
      wires = board.wires.items;
      channels = board.channels.items;
      running = board.running.items;
      consoles = board.consoles.items;
      maps = board.maps.items;
      last = record { handle = board.handle; to_managed = board.to_managed; entries = board.list };
    } };

    ghost invariant = { λ board. AreLines (record {
      who = board.who;
      wires = board.wires.items;
      channels = board.channels.items;
      running = board.running.items;
      consoles = board.consoles.items;
      maps = board.maps.items;
      last = record { handle = board.handle; to_managed = board.to_managed; entries = board.list };
    }) };
}

impl Board {
    /// What the handles of joined partitions lead to before the first turn. Fails only where memory runs out.
    #[tactic(auto, using(crate::proofs::Tied::opening_kept, crate::proofs::Tied::few_handles, crate::proofs::Opened::joined_sound), unfolding(crate::specs::Wired::opening_lines))]
    pub fn new(alloc: Global, descs: &[Desc], wiring: &Wiring) -> Result<Board, NoMemory>
        requires joined { AreJoined descs.now wiring.now }
        ensures opening { IfOk result (λ board. board ≡ opening_lines descs.now wiring.now) }
    {
        let wires = all_wires(alloc, wiring, descs)?;
        let maps = all_maps(alloc, descs)?;
        let list = SgList::new(alloc)?;
        let channels = empty_channels(alloc, wiring.links.as_slice().len())?;
        let running = beginnings(alloc, descs)?;
        let consoles = console_sides(
            alloc,
            wiring.links.as_slice(),
            wiring.consoles.as_slice().len(),
        )?;
        Ok(Board {
            who: 0,
            wires,
            channels,
            running,
            consoles,
            maps,
            handle: 0,
            to_managed: false,
            list,
        })
    }

    /// The partition that it is lent to.
    pub fn who(&self) -> usize
        ensures { result ≡ self.now.who }
    {
        self.who
    }

    /// Lends to the partition of this number from now on.
    pub fn lend_to(&mut self, who: usize)
        ensures { self.new ≡ record self.old { who = who } }
    {
        self.who = who;
    }

    /// What a handle of the partition leads to.
    #[tactic(auto, using(crate::proofs::Handles::is_there, crate::proofs::Handles::is_lent))]
    fn wire(&self, h: u32, kind: Kind) -> Wire
        requires { kind_at (spec.own_kinds self.now) h ≡ Some kind }
        ensures wire { result ≡ spec.own_wire self.now h }
        ensures kind { spec.kind_of result ≡ kind }
        ensures some { 0 < h }
        ensures there { h - 1 < length (spec.own_wires self.now) }
        ensures wires { spec.AreWires (length self.now.channels) (length self.now.wires) (spec.own_wires self.now) }
    {
        self.wires[self.who].as_slice()[(h - 1) as usize]
    }

    /// Sends at an end of a channel.
    fn send_at(&mut self, link: usize, side: Side, piece: &[u8])
        requires link { link < length self.old.channels }
        requires room { length (waiting_at (other_side side) (spec.channel_at self.old.channels link)) + length piece.now ≤ 256 }
        ensures { self.new ≡ record self.old { channels = spec.sent_by self.old.channels (Wire.Channel link side) piece.now } }
    {
        self.channels[link].send(side, piece);
    }

    /// Takes what waits at an end of a channel.
    fn take_at(&mut self, link: usize, side: Side, into: &mut [u8])
        requires link { link < length self.old.channels }
        requires waiting { length into.old ≤ length (waiting_at side (spec.channel_at self.old.channels link)) }
        ensures bytes { into.new ≡ take (length into.old) (waiting_at side (spec.channel_at self.old.channels link)) }
        ensures left { self.new ≡ record self.old { channels = spec.taken_by self.old.channels (Wire.Channel link side) (length into.old) } }
    {
        self.channels[link].receive(side, into);
    }

    /// As many of these bytes from a console as there is room for come to the other end of its channel. Answers how many.
    pub fn enter(&mut self, console: usize, bytes: &[u8]) -> usize
        requires { console < length self.old.consoles }
        ensures count { result ≡ min (spec.console_room self.old console) (length bytes.now) }
        ensures entered { self.new ≡ record self.old {
          channels = spec.sent_by self.old.channels (channel_wire (spec.console_at self.old.consoles console)) (take result bytes.now);
        } }
    {
        let ChannelEnd { link, side } = self.consoles[console];
        let room = self.channels[link].room(side) as usize;
        let count = bytes.len().min(room);
        self.send_at(link, side, &bytes[..count]);
        count
    }

    /// Drops what waits at an end of a channel.
    fn clear_at(&mut self, link: usize, side: Side)
        requires { link < length self.old.channels }
        ensures { self.new ≡ record self.old { channels = slice_set self.old.channels link (after_clear side (spec.channel_at self.old.channels link)) } }
    {
        let _count = self.channels[link].clear_side(side);
    }

    /// The console at the far end of a channel takes all that waits there.
    #[tactic(auto, using(crate::proofs::Seen::end_here))]
    pub fn print(&mut self, h: u32)
        requires { kind_at (spec.own_kinds self.old) h ≡ Some Kind.Channel }
        ensures { self.new ≡ record self.old { channels = spec.printed_by self.old.channels (spec.own_wire self.old h) } }
    {
        match self.wire(h, Kind::Channel) {
            Wire::Channel { link, side } => self.clear_at(link, other(side)),
            _ => unreachable!(),
        }
    }

    /// Drops what waits at the end of a channel that a handle of the partition is, by the handle's place; another handle has no
    /// such end.
    fn clear_wire(&mut self, part: usize, place: usize)
        requires part { part < length self.old.wires }
        requires place { place < length (spec.wires_at self.old.wires part) }
        ensures { self.new ≡ record self.old {
          channels = spec.cleared_by self.old.channels (slice_index_or (spec.wires_at self.old.wires part) place spec.no_wire);
        } }
    {
        if let Wire::Channel { link, side } = self.wires[part].as_slice()[place] {
            self.clear_at(link, side);
        }
    }

    /// Drops what waits at each channel end of a partition.
    #[tactic(auto, using(crate::proofs::Cleared::one_more_cleared, crate::proofs::Cleared::no_more_cleared))]
    pub fn empty(&mut self, part: usize)
        requires { part < length self.old.wires }
        ensures { self.new ≡ spec.emptied_lines self.old part }
    {
        for place in 0..self.wires[part].as_slice().len() {
            self.clear_wire(part, place);
        }
    }

    /// The partition that a handle manages.
    pub fn managed(&self, h: u32) -> usize
        requires { kind_at (spec.own_kinds self.now) h ≡ Some Kind.Manage }
        ensures managed { spec.own_wire self.now h ≡ Wire.Manage result }
        ensures there { result < length self.now.wires }
    {
        match self.wire(h, Kind::Manage) {
            Wire::Manage { part } => part,
            _ => unreachable!(),
        }
    }

    /// Notes what was copied.
    fn note(&mut self, h: u32, to_managed: bool, list: &SgList)
        ensures { self.new ≡ record self.old { last = record { handle = h; to_managed = to_managed; entries = list.now } } }
    {
        self.handle = h;
        self.to_managed = to_managed;
        self.list.set(list);
    }

    /// The list of the last copy.
    pub fn list(&self) -> &SgList
        ensures { result.now ≡ self.now.last.entries }
    {
        &self.list
    }

    /// Notes whether a partition runs.
    pub fn mark(&mut self, part: usize, running: bool)
        requires { part < length self.old.wires }
        ensures { self.new ≡ record self.old { running = slice_set self.old.running part running } }
    {
        self.running[part] = running;
    }
}

/// The other side of a channel.
fn other(side: Side) -> Side
    ensures { result ≡ other_side side }
{
    match side {
        Side::A => Side::B,
        Side::B => Side::A,
    }
}

impl Ports for Board {
    ghost kinds = { spec.own_kinds };

    ghost seen = { spec.own_ends };

    ghost sends = { spec.Sends };

    ghost takes = { spec.Takes };

    ghost copies = { spec.Copies };

    ghost told = { spec.told_by };

    ghost feed = { spec.fed_by };

    ghost last = { spec.last_of };

    #[tactic(auto, using(crate::proofs::Seen::end_here))]
    fn waiting(&self, h: u32) -> u16 {
        match self.wire(h, Kind::Channel) {
            Wire::Channel { link, side } => self.channels[link].waiting(side),
            _ => unreachable!(),
        }
    }

    #[tactic(auto, using(crate::proofs::Seen::end_here))]
    fn room(&self, h: u32) -> u16 {
        match self.wire(h, Kind::Channel) {
            Wire::Channel { link, side } => self.channels[link].room(side),
            _ => unreachable!(),
        }
    }

    #[tactic(auto, using(crate::proofs::Seen::end_here))]
    fn running(&self, h: u32) -> bool {
        match self.wire(h, Kind::Manage) {
            Wire::Manage { part } => self.running[part],
            _ => unreachable!(),
        }
    }

    #[tactic(auto, using(crate::proofs::Seen::seen_sent, crate::proofs::Seen::end_here))]
    fn send(&mut self, h: u32, piece: &[u8]) {
        match self.wire(h, Kind::Channel) {
            Wire::Channel { link, side } => self.send_at(link, side, piece),
            _ => unreachable!(),
        }
    }

    #[tactic(auto, using(crate::proofs::Seen::seen_taken, crate::proofs::Seen::end_here))]
    fn receive(&mut self, h: u32, into: &mut [u8]) {
        match self.wire(h, Kind::Channel) {
            Wire::Channel { link, side } => self.take_at(link, side, into),
            _ => unreachable!(),
        }
    }

    fn copy(
        &mut self,
        ground: &mut Ground,
        own: &AreaMap,
        h: u32,
        to_managed: bool,
        list: &SgList,
    ) {
        let managed = &self.maps[self.managed(h)];
        if to_managed {
            sg_copy(ground, own, managed, list);
        } else {
            sg_copy(ground, managed, own, list);
        }
        self.note(h, to_managed, list);
    }
}
