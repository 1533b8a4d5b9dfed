//! Which access a translation translates, and when two translations meet.

ghost use Rattle.std.specs.Prelude.{◌≡◌};
ghost use Rattle.guest_tlb.specs.Translation.{has_address, is_for, overlap, share_pid, matches, meets};

use mas::{Entry, is_below_end, is_in_page};

/// Whether an effective address lies in a translation's page.
pub fn has_address(entry: &Entry, ea: u32) -> bool
    ensures { result ≡ has_address entry.now ea }
{
    is_in_page(entry.epn, entry.tsize, ea)
}

/// Whether a translation is everyone's, or this PID's.
fn is_for(pid: u16, entry: &Entry) -> bool
    ensures { result ≡ is_for pid entry.now }
{
    entry.tid == 0 || entry.tid == pid
}

/// Whether a translation translates an access.
#[tactic(auto, unfolding(crate::specs::Translation::matches))]
pub fn matches(entry: &Entry, ts: bool, pid: u16, ea: u32) -> bool
    ensures { result ≡ matches ts pid ea entry.now }
{
    entry.valid && entry.ts == ts && is_for(pid, entry) && has_address(entry, ea)
}

/// Whether an address lies in the pages of both.
fn overlap(a: &Entry, b: &Entry) -> bool
    ensures { result ≡ overlap a.now b.now }
{
    is_below_end(b.epn, b.tsize, a.epn) && is_below_end(a.epn, a.tsize, b.epn)
}

/// Whether both are for one PID.
fn share_pid(a: &Entry, b: &Entry) -> bool
    ensures { result ≡ share_pid a.now b.now }
{
    a.tid == b.tid || a.tid == 0 || b.tid == 0
}

/// Whether two translations meet, so that both would translate one access.
#[tactic(auto, unfolding(crate::specs::Translation::meets))]
pub fn meet(a: &Entry, b: &Entry) -> bool
    ensures { result ≡ meets a.now b.now }
{
    overlap(a, b) && a.ts == b.ts && share_pid(a, b)
}
