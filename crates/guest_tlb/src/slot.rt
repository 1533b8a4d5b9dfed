//! Which slot the registers name, and what a reset and a write leave in it.

ghost use Rattle.std.specs.Prelude.{◌≡◌, ◌*◌, ◌/◌, ◌%◌, ◌^◌, ◌<◌, ◌≤◌, Some, IfSome};
ghost use Rattle.guest_tlb.specs.Slots.{is_in_tlb0, named_slot, naming, tlb0_form, has_size, tlb1_form, written_entry, initial_area, initial_entry};
ghost use Rattle.guest_tlb.specs.Kept.{IsKept};

use mas::{Entry, Mas, from_mas, page_size};

/// The slots of both TLBs.
pub const SLOTS: usize = 576;

/// The sets of TLB0.
const SETS: u32 = 128;

/// The ways of each set of TLB0.
pub const WAYS: u16 = 4;

/// The slots of TLB1.
const TLB1_SLOTS: u16 = 64;

/// TLB1's largest page is of 4 to this power KiB, 4 GiB.
const LARGEST: u8 = 11;

/// The first slot of TLB1.
pub const FIRST_OF_TLB1: u16 = 512;

/// A slot of TLB1 that was never written.
pub const BLANK: Entry = Entry {
    valid: false,
    iprot: false,
    tid: 0,
    ts: false,
    tsize: 0,
    epn: 0,
    wimge: 0,
    rpn: 0,
    perms: 0,
};

/// A slot of TLB0 that was never written.
const TLB0_BLANK: Entry = Entry { tsize: 1, ..BLANK };

/// The registers that hold the initial area.
const INITIAL_AREA: Mas = Mas {
    m0: 0,
    m1: 0xC000_0800,
    m2: 0x4,
    m3: 0x15,
    m4: 0,
    m6: 0,
    m7: 0,
};

/// Whether a slot is of TLB0.
pub fn is_in_tlb0(slot: u16) -> bool
    ensures { result ≡ is_in_tlb0 slot }
{
    slot < FIRST_OF_TLB1
}

/// The first slot of the set of TLB0 that takes the page of an effective address.
pub fn set_of(ea: u32) -> usize
    ensures set { result ≡ ea / 2 ^ 12 % 128 * 4 }
    ensures bound { result ≤ 508 }
{
    ((ea >> 12) % SETS) as usize * WAYS as usize
}

/// The slot that TLBSEL, ESEL and EPN name, below 576: slots 0 to 511 are TLB0, its set times 4 plus its way, and 512
/// to 575 are TLB1. None exactly where TLBSEL is above 1 (Power ISA 2.06, Book III-E, chapter 6, TLB management).
#[tactic(auto, unfolding(crate::specs::Slots::named_slot))]
pub fn slot_of(mas: &Mas) -> Option<u16>
    ensures slot { result ≡ named_slot mas.now }
    ensures bound { IfSome result (λ slot. slot < 576) }
{
    match mas.tlbsel() {
        0 => Some(set_of(mas.m2) as u16 + mas.esel() % WAYS),
        1 => Some(FIRST_OF_TLB1 + mas.esel() % TLB1_SLOTS),
        _ => None,
    }
}

/// The registers with TLBSEL and ESEL of a slot. The set of a slot of TLB0 is by the page in MAS2, which stays.
pub fn name_slot(slot: u16, mas: &Mas) -> Mas
    requires { slot < 576 }
    ensures { result ≡ naming slot mas.now }
{
    if is_in_tlb0(slot) {
        mas.with_tlbsel_esel(0, slot % WAYS)
    } else {
        mas.with_tlbsel_esel(1, slot - FIRST_OF_TLB1)
    }
}

/// A translation as TLB0 takes it.
fn tlb0_form(entry: Entry) -> Entry
    ensures { result ≡ tlb0_form entry }
{
    Entry {
        iprot: false,
        tsize: 1,
        ..entry
    }
}

/// Whether TLB1 has pages of a translation's size.
fn has_size(entry: &Entry) -> bool
    ensures { result ≡ has_size entry.now }
{
    (1..=LARGEST).contains(&entry.tsize)
}

/// A translation as TLB1 takes it.
fn tlb1_form(entry: Entry) -> Entry
    ensures { result ≡ tlb1_form entry }
{
    if !has_size(&entry) {
        return Entry {
            valid: false,
            ..entry
        };
    }
    let size = page_size(entry.tsize);
    Entry {
        epn: entry.epn - (entry.epn as u64 % size) as u32,
        rpn: entry.rpn - entry.rpn % size,
        ..entry
    }
}

/// What a write of these registers leaves in the slot that they name.
#[tactic(auto, using(crate::proofs::Upkeep::written_kept_as), unfolding(crate::specs::Slots::written_entry))]
pub fn written_entry(slot: u16, mas: &Mas) -> Entry
    requires { named_slot mas.now ≡ Some slot }
    ensures entry { result ≡ written_entry slot mas.now }
    ensures kept { IsKept slot result }
{
    if is_in_tlb0(slot) {
        tlb0_form(from_mas(mas))
    } else {
        tlb1_form(from_mas(mas))
    }
}

/// The area that is mapped when a program starts.
#[tactic(auto, unfolding(crate::specs::Slots::initial_area))]
fn initial_area() -> Entry
    ensures { result ≡ initial_area }
{
    from_mas(&INITIAL_AREA)
}

/// What a slot has after a reset: the first of TLB1 the initial area, and every other nothing.
pub fn initial_entry(slot: u16) -> Entry
    ensures { result ≡ initial_entry slot }
{
    if is_in_tlb0(slot) {
        TLB0_BLANK
    } else if slot == FIRST_OF_TLB1 {
        initial_area()
    } else {
        BLANK
    }
}
