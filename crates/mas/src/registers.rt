//! The registers, with the fields that say which entry is meant and what a search looks for.

/// The MMU assist registers MAS0 to MAS4, MAS6 and MAS7 (Power ISA 2.06, Book III-E, chapter 6), with the
/// fields of the e500mc core.
#[derive(Clone, Copy, Debug, PartialEq, Eq)]
pub struct Mas {
    /// MAS0: TLBSEL 0x30000000, ESEL 0x0FFF0000, NV 0xFFF.
    pub m0: u32,
    /// MAS1: V 0x80000000, IPROT 0x40000000, TID 0x3FFF0000, TS 0x1000, TSIZE 0xF00.
    pub m1: u32,
    /// MAS2: EPN 0xFFFFF000, W 16, I 8, M 4, G 2, E 1.
    pub m2: u32,
    /// MAS3: the lower RPN 0xFFFFF000, user bits 0x3C0, UX 0x20, SX 0x10, UW 8, SW 4, UR 2, SR 1.
    pub m3: u32,
    /// MAS4, the defaults: TLBSEL 0x30000000, TSIZE 0xF00, W, I, M, G and E 0x1F.
    pub m4: u32,
    /// MAS6, the search: SPID 0x3FFF0000, SAS 1.
    pub m6: u32,
    /// MAS7: the upper RPN 0xF.
    pub m7: u32,
}

impl Mas {
    ghost use Rattle.std.specs.Prelude.{◌≡◌, ◌<◌, ◌^◌};
    ghost use Rattle.mas.specs.Fields.{tlbsel_field, esel_field, nv_field, spid_field, sas_bit, with_nv, with_tlbsel_esel};

    /// TLBSEL: which TLB is meant, 0 or 1; 2 and 3 are none of this core's.
    pub fn tlbsel(&self) -> u8
        ensures field { result ≡ tlbsel_field self.now.m0 }
        ensures bound { result < 4 }
    {
        ((self.m0 >> 28) % 4) as u8
    }

    /// ESEL: which entry is meant, a way of a set of TLB0 or a slot of TLB1.
    pub fn esel(&self) -> u16
        ensures field { result ≡ esel_field self.now.m0 }
        ensures bound { result < 2 ^ 12 }
    {
        ((self.m0 >> 16) % 0x1000) as u16
    }

    /// NV: the way of TLB0 that the next miss is to replace.
    pub fn nv(&self) -> u16
        ensures field { result ≡ nv_field self.now.m0 }
        ensures bound { result < 2 ^ 12 }
    {
        (self.m0 % 0x1000) as u16
    }

    /// SPID: the PID that a search is for.
    pub fn spid(&self) -> u16
        ensures field { result ≡ spid_field self.now.m6 }
        ensures bound { result < 2 ^ 14 }
    {
        ((self.m6 >> 16) % 0x4000) as u16
    }

    /// SAS: the address space that a search is for.
    pub fn sas(&self) -> bool
        ensures { result ≡ sas_bit self.now.m6 }
    {
        self.m6 % 2 == 1
    }

    /// The registers with another NV.
    pub fn with_nv(&self, nv: u8) -> Mas
        ensures { result ≡ record self.now { m0 = with_nv nv self.now.m0 } }
    {
        Mas {
            m0: self.m0 - self.m0 % 0x1000 + nv as u32,
            ..*self
        }
    }

    /// The registers with another TLBSEL and another ESEL, each cut to its field: 2 and 12 bits.
    pub fn with_tlbsel_esel(&self, tlb: u8, entry: u16) -> Mas
        ensures { result ≡ record self.now { m0 = with_tlbsel_esel tlb entry self.now.m0 } }
    {
        let above = self.m0 / 0x4000_0000 * 0x4000_0000;
        let place = (tlb % 4) as u32 * 0x1000_0000 + (entry % 0x1000) as u32 * 0x1_0000;
        Mas {
            m0: above + place + self.m0 % 0x1_0000,
            ..*self
        }
    }
}
