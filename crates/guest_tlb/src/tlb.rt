//! The slots, and what software and the machine do with them.

ghost use Rattle.std.specs.Prelude.{◌≡◌, ◌<◌, length, IfOk, IfSome, IsTrue};
ghost use Rattle.mas.specs.Translation.{Fits};
ghost use Rattle.guest_tlb.specs.Translation.{IsSound, IsMatch};
ghost use Rattle.guest_tlb.specs.Slots.{entry_at, initial_slots, search_of, lookup_of};
ghost use Rattle.guest_tlb.specs.Invalidation.{invalidated, ended_slots, ends_all, ends_pid, ends_address, ends_write, with_entry, after_write, ended_by_write};
ghost use Rattle.guest_tlb.specs.Ending.{test_of};
ghost use Rattle.guest_tlb.specs.Kept.{IsKept, AreKept};

use crate::ending::Ending;
use crate::invalidation::{Dead, invalidate};
use crate::matching::matches;
use crate::slot::{
    BLANK, FIRST_OF_TLB1, SLOTS, WAYS, initial_entry, set_of, slot_of, written_entry,
};
use arrayvec::ArrayVec;
use mas::{Entry, Mas};
use outside::NoMemory;
use std::alloc::Global;
use std::marker::Model;

/// The two TLBs of a guest's core (Power ISA 2.06, Book III-E, chapter 6). Contracts see the list of the 576 slots:
/// 0 to 511 are TLB0, its set times 4 plus its way, and 512 to 575 are TLB1.
///
/// No two live translations meet, so at most one translates an access. Only `new` takes memory. A change answers
/// the slots whose translations it overwrote or invalidated, in rising order.
#[derive(Drop)]
pub struct GuestTlb {
    slots: Vec<Entry>,
}

impl Model for GuestTlb {
    ghost use Rattle.std.specs.Prelude.{List};
    ghost use Rattle.mas.specs.declared.entry.Entry.{Entry};
    ghost use Rattle.guest_tlb.specs.Kept.{AreKept};

    ghost Value = { List Entry };

    ghost view = { λ tlb. tlb.slots.items };

    ghost invariant = { λ tlb. AreKept tlb.slots.items };
}

/// The place of the first of some translations that translates an access.
fn first_match(slots: &[Entry], ts: bool, pid: u16, ea: u32) -> Option<usize>
    ensures slot { result ≡ search_of ts pid ea slots.now }
    ensures bound { IfSome result (λ slot. slot < length slots.now) }
{
    slots.iter().position(|entry| matches(entry, ts, pid, ea))
}

/// The slot whose translation translates an access. Of TLB0 it is in the set of the page, so that the other sets aren't
/// looked at.
fn slot_for(slots: &[Entry], ts: bool, pid: u16, ea: u32) -> Option<usize>
    requires { AreKept slots.now }
    ensures slot { result ≡ search_of ts pid ea slots.now }
    ensures bound { IfSome result (λ slot. slot < 576) }
{
    let set = set_of(ea);
    if let Some(way) = first_match(&slots[set..set + WAYS as usize], ts, pid, ea) {
        return Some(set + way);
    }
    let large = first_match(&slots[FIRST_OF_TLB1 as usize..], ts, pid, ea)?;
    Some(FIRST_OF_TLB1 as usize + large)
}

/// Gives each slot what it has after a reset.
fn clear(slots: &mut [Entry])
    requires { length slots.old ≡ 576 }
    ensures { slots.new ≡ initial_slots }
{
    for slot in 0..slots.len() {
        slots[slot] = initial_entry(slot as u16);
    }
}

impl GuestTlb {
    /// The slots after a reset. Takes all the memory here; fails only where memory runs out.
    pub fn new(alloc: Global) -> Result<GuestTlb, NoMemory>
        ensures { IfOk result (λ tlb. tlb ≡ initial_slots) }
    {
        let mut slots = vec![in alloc; BLANK; SLOTS]?;
        clear(&mut slots);
        Ok(GuestTlb { slots })
    }

    /// Leaves the initial area alone: slot 512 maps 64 MiB from address 0, protected, and every other slot is dead and
    /// zero, but for TSIZE 1 in TLB0.
    pub fn reset(&mut self)
        ensures { self.new ≡ initial_slots }
    {
        clear(&mut self.slots);
    }

    /// Writes the translation of the registers into the slot that they name (`tlbwe`). It is dead where V is clear,
    /// and in TLB1 where TSIZE isn't 1 to 11; a live one invalidates each other live one that it meets,
    /// protected or not. Answers the slot, whatever it had, and those that were invalidated. Without effect where no slot is named.
    #[tactic(auto, using(crate::proofs::Upkeep::after_write_nowhere, crate::proofs::Upkeep::after_write_there, crate::proofs::Upkeep::ended_nowhere, crate::proofs::Upkeep::ended_there))]
    pub fn write(&mut self, mas: &Mas) -> Dead
        ensures slots { self.new ≡ after_write mas.now self.old }
        ensures dead { result.items ≡ ended_by_write mas.now self.old }
    {
        let Some(slot) = slot_of(mas) else {
            return ArrayVec::new();
        };
        self.write_entry(slot, written_entry(slot, mas))
    }

    /// Writes a translation into a slot.
    fn write_entry(&mut self, slot: u16, entry: Entry) -> Dead
        requires bound { slot < 576 }
        requires kept { IsKept slot entry }
        ensures slots { self.new ≡ with_entry slot entry self.old }
        ensures dead { result.items ≡ ended_slots (ends_write slot entry) self.old }
    {
        let dead = invalidate(&mut self.slots, &Ending::Write { slot, entry });
        self.slots[slot as usize] = entry;
        dead
    }

    /// Invalidates what an invalidation ends.
    fn invalidate(&mut self, ending: &Ending) -> Dead
        ensures slots { self.new ≡ invalidated (test_of ending.now) self.old }
        ensures dead { result.items ≡ ended_slots (test_of ending.now) self.old }
    {
        invalidate(&mut self.slots, ending)
    }

    /// What a slot has (`tlbre`); a dead one has its last fields, with `valid` false.
    pub fn read(&self, slot: u16) -> Entry
        requires { slot < 576 }
        ensures entry { result ≡ entry_at self.now slot }
        ensures fits { Fits result }
        ensures sound { IsTrue result.valid → IsSound result }
    {
        self.slots[slot as usize]
    }

    /// The slot whose translation an access has: for `pid`, in the address space `ts`, at the effective address `ea`.
    /// None exactly where there is none (`tlbsx`).
    pub fn search(&self, ts: bool, pid: u16, ea: u32) -> Option<u16>
        ensures slot { result ≡ search_of ts pid ea self.now }
        ensures bound { IfSome result (λ slot. slot < 576) }
        ensures found { IfSome result (λ slot. IsMatch ts pid ea (entry_at self.now slot)) }
        ensures kept { AreKept self.now }
    {
        let slot = slot_for(&self.slots, ts, pid, ea)?;
        Some(slot as u16)
    }

    /// The translation that an access has. None exactly where there is none.
    #[tactic(auto, using(crate::proofs::Found::lookup_found, crate::proofs::Found::lookup_none))]
    pub fn lookup(&self, ts: bool, pid: u16, ea: u32) -> Option<Entry>
        ensures entry { result ≡ lookup_of ts pid ea self.now }
        ensures found { IfSome result (IsMatch ts pid ea) }
    {
        let slot = self.search(ts, pid, ea)?;
        Some(self.read(slot))
    }

    /// Does nothing. By its contract layers above know what the slots keep at all times.
    pub fn are_kept(&self)
        ensures { AreKept self.now }
    {
        let _slots = &self.slots;
    }

    /// Invalidates all that isn't protected, of the chosen TLBs (`tlbilx` and `tlbivax`: Power ISA 2.06, Book III-E, chapter 6,
    /// TLB management).
    pub fn inval_all(&mut self, tlb0: bool, tlb1: bool) -> Dead
        ensures slots { self.new ≡ invalidated (ends_all tlb0 tlb1) self.old }
        ensures dead { result.items ≡ ended_slots (ends_all tlb0 tlb1) self.old }
    {
        self.invalidate(&Ending::All { tlb0, tlb1 })
    }

    /// Invalidates what isn't protected and has exactly this TID, in both TLBs (`tlbilx` of a PID).
    pub fn inval_pid(&mut self, pid: u16) -> Dead
        ensures slots { self.new ≡ invalidated (ends_pid pid) self.old }
        ensures dead { result.items ≡ ended_slots (ends_pid pid) self.old }
    {
        self.invalidate(&Ending::Pid(pid))
    }

    /// Invalidates what isn't protected and has an effective address in its page, in either address space, of the chosen
    /// TLBs, and of exactly the TID that is given, if one is (`tlbilx` and `tlbivax` of an address).
    pub fn inval_ea(&mut self, ea: u32, pid: Option<u16>, tlb0: bool, tlb1: bool) -> Dead
        ensures slots { self.new ≡ invalidated (ends_address ea pid tlb0 tlb1) self.old }
        ensures dead { result.items ≡ ended_slots (ends_address ea pid tlb0 tlb1) self.old }
    {
        self.invalidate(&Ending::Address {
            ea,
            pid,
            tlb0,
            tlb1,
        })
    }
}
