//! What a core translates addresses by.

ghost use Rattle.std.specs.Prelude.{◌<◌};

use guest_tlb::GuestTlb;

/// What a core translates addresses by: its translations, and the way of TLB0 that the next miss is to replace
/// (Power ISA 2.06, Book III-E, chapter 6). The MAS registers stand among its registers.
#[derive(Drop)]
pub struct Mmu {
    /// The slots of both TLBs.
    pub tlb: GuestTlb,
    /// The next-victim counter, 0 to 3.
    pub nv: u8,
    ghost nv_in_range: { nv < 4 },
}
