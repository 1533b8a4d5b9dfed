//! From the registers to a translation, back, and what a TLB error leaves in the registers.

ghost use Rattle.std.specs.Prelude.{◌≡◌, ◌<◌, ◌≤◌};
ghost use Rattle.mas.specs.Fields.{epn_field, rpn_field};
ghost use Rattle.mas.specs.Translation.{Fits, entry_of, reporting, mas1_of, victim, missed};

use crate::entry::Entry;
use crate::registers::Mas;

/// The address of a page in MAS2 or MAS3, without its upper bits.
fn page_address(word: u32) -> u32
    ensures { result ≡ epn_field word }
{
    word - word % 0x1000
}

/// The logical address in the upper RPN of MAS7 and the lower RPN of MAS3.
fn logical_address(m7: u32, m3: u32) -> u64
    ensures { result ≡ rpn_field m7 m3 }
{
    (m7 % 16) as u64 * 0x1_0000_0000 + page_address(m3) as u64
}

/// The translation that the registers hold.
#[tactic(auto, using(crate::proofs::Held::held_fits_at), unfolding(crate::specs::Translation::entry_of))]
pub fn from_mas(mas: &Mas) -> Entry
    ensures entry { result ≡ entry_of mas.now }
    ensures fits { Fits result }
{
    Entry {
        valid: (mas.m1 >> 31) % 2 == 1,
        iprot: (mas.m1 >> 30) % 2 == 1,
        tid: ((mas.m1 >> 16) % 0x4000) as u16,
        ts: (mas.m1 >> 12) % 2 == 1,
        tsize: ((mas.m1 >> 8) % 16) as u8,
        epn: page_address(mas.m2),
        wimge: (mas.m2 % 32) as u8,
        rpn: logical_address(mas.m7, mas.m3),
        perms: (mas.m3 % 0x400) as u16,
    }
}

/// MAS1 of a translation.
fn mas1(entry: &Entry) -> u32
    requires { Fits entry.now }
    ensures { result ≡ mas1_of entry.now.valid entry.now.iprot entry.now.tid entry.now.ts entry.now.tsize }
{
    let marks = entry.valid as u32 * 0x8000_0000 + entry.iprot as u32 * 0x4000_0000;
    marks + entry.tid as u32 * 0x1_0000 + entry.ts as u32 * 0x1000 + entry.tsize as u32 * 0x100
}

/// The registers when they report a translation, in MAS1, MAS2, MAS3 and MAS7. The others stay.
#[tactic(auto, unfolding(crate::specs::Translation::reporting))]
pub fn to_mas(entry: &Entry, mas: &Mas) -> Mas
    requires { Fits entry.now }
    ensures { result ≡ reporting entry.now mas.now }
{
    Mas {
        m1: mas1(entry),
        m2: entry.epn + entry.wimge as u32,
        m3: (entry.rpn % 0x1_0000_0000) as u32 + entry.perms as u32,
        m7: (entry.rpn / 0x1_0000_0000) as u32,
        ..*mas
    }
}

/// MAS0 after a TLB error: where its translation is to be put.
fn place_for_miss(tlb: u32, nv: u8) -> u32
    requires { tlb < 4 }
    ensures { result ≡ victim tlb nv }
{
    if tlb == 0 {
        nv as u32 * 0x1_0000 + (nv as u32 + 1) % 4
    } else {
        tlb * 0x1000_0000
    }
}

/// The registers after a TLB error, of an access for `pid` in the address space `ts` at the effective address
/// `ea`, while `nv` counts the ways of TLB0.
#[tactic(auto, unfolding(crate::specs::Translation::missed))]
pub fn miss_mas(mas: &Mas, pid: u16, ts: bool, ea: u32, nv: u8) -> Mas
    requires { pid ≤ 0x3FFF }
    ensures { result ≡ missed mas.now pid ts ea nv }
{
    let size = (mas.m4 >> 8) % 16;
    Mas {
        m0: place_for_miss((mas.m4 >> 28) % 4, nv),
        m1: 0x8000_0000 + pid as u32 * 0x1_0000 + ts as u32 * 0x1000 + size * 0x100,
        m2: ea - ea % 0x1000 + mas.m4 % 32,
        m3: 0,
        m4: mas.m4,
        m6: pid as u32 * 0x1_0000 + ts as u32,
        m7: 0,
    }
}
