//! The writes and invalidations that end translations, each with its test of a slot.

ghost use Rattle.std.specs.Prelude.{◌≡◌};
ghost use Rattle.guest_tlb.specs.Invalidation.{is_chosen, is_exposed, has_tid, ends_all, ends_pid, ends_address, ends_write};
ghost use Rattle.guest_tlb.specs.Ending.{test_of};

use crate::matching::{has_address, meet};
use crate::slot::is_in_tlb0;
use mas::Entry;

/// A write or an invalidation, which ends translations.
#[derive(Clone, Copy)]
pub enum Ending {
    /// All of the chosen TLBs.
    All {
        tlb0: bool,
        tlb1: bool,
    },
    /// All of one TID.
    Pid(u16),
    /// Those of the chosen TLBs that have an effective address in their page, and a TID if one is given.
    Address {
        ea: u32,
        pid: Option<u16>,
        tlb0: bool,
        tlb1: bool,
    },
    /// What was in a slot that a translation is written into, and what that meets.
    Write {
        slot: u16,
        entry: Entry,
    },
}

/// Whether a slot is of one of the chosen TLBs.
fn is_chosen(slot: u16, tlb0: bool, tlb1: bool) -> bool
    ensures { result ≡ is_chosen tlb0 tlb1 slot }
{
    if is_in_tlb0(slot) { tlb0 } else { tlb1 }
}

/// Whether invalidations end a translation: it is live and not protected.
fn is_exposed(entry: &Entry) -> bool
    ensures { result ≡ is_exposed entry.now }
{
    entry.valid && !entry.iprot
}

/// Whether a translation has the TID that is given, if one is.
fn has_tid(entry: &Entry, pid: Option<u16>) -> bool
    ensures { result ≡ has_tid pid entry.now }
{
    match pid {
        None => true,
        Some(pid) => entry.tid == pid,
    }
}

/// Whether an invalidation of all of the chosen TLBs ends what a slot has.
#[tactic(auto, unfolding(crate::specs::Invalidation::ends_all))]
fn ends_all(tlb0: bool, tlb1: bool, slot: u16, entry: &Entry) -> bool
    ensures { result ≡ ends_all tlb0 tlb1 slot entry.now }
{
    is_exposed(entry) && is_chosen(slot, tlb0, tlb1)
}

/// Whether an invalidation of a PID ends what a slot has.
#[tactic(auto, unfolding(crate::specs::Invalidation::ends_pid))]
fn ends_pid(pid: u16, slot: u16, entry: &Entry) -> bool
    ensures { result ≡ ends_pid pid slot entry.now }
{
    is_exposed(entry) && entry.tid == pid
}

/// Whether an invalidation of an address ends what a slot has.
#[tactic(auto, unfolding(crate::specs::Invalidation::ends_address))]
fn ends_address(ea: u32, pid: Option<u16>, tlb0: bool, tlb1: bool, slot: u16, entry: &Entry) -> bool
    ensures { result ≡ ends_address ea pid tlb0 tlb1 slot entry.now }
{
    is_exposed(entry)
        && is_chosen(slot, tlb0, tlb1)
        && has_tid(entry, pid)
        && has_address(entry, ea)
}

/// Whether a write of a translation into the slot `at` ends what a slot has.
#[tactic(auto, unfolding(crate::specs::Invalidation::ends_write))]
fn ends_write(at: u16, new: &Entry, slot: u16, entry: &Entry) -> bool
    ensures { result ≡ ends_write at new.now slot entry.now }
{
    slot == at || (new.valid && entry.valid && meet(new, entry))
}

impl Ending {
    /// Whether this change ends what a slot has.
    pub fn ends(&self, slot: u16, entry: &Entry) -> bool
        ensures { result ≡ test_of self.now slot entry.now }
    {
        match self {
            Ending::All { tlb0, tlb1 } => ends_all(*tlb0, *tlb1, slot, entry),
            Ending::Pid(pid) => ends_pid(*pid, slot, entry),
            Ending::Address {
                ea,
                pid,
                tlb0,
                tlb1,
            } => ends_address(*ea, *pid, *tlb0, *tlb1, slot, entry),
            Ending::Write {
                slot: at,
                entry: new,
            } => ends_write(*at, new, slot, entry),
        }
    }
}
