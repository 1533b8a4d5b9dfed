//! The operands that a word names.

ghost use Rattle.std.specs.Prelude.{◌≡◌, ℕ, ◌<◌, ◌^◌, ◌==◌};
ghost use Rattle.insn.specs.Fields.{rt_field, ra_field, rb_field, immediate, signed_immediate, branch_displacement, conditional_displacement, absolute_bit, link_bit, overflow_bit, record_bit, bf_field, bfa_field, mask_begin, mask_end, fxm_field, spr_field, enable_bit, invalidate_kind};

use crate::instruction::Insn;

/// Fields of the word, as Power ISA 2.06, Book I, section 1.6 names them. Which of them an instruction
/// has depends on its format; each can be read of any word.
impl Insn {
    /// RT, and RS in the same place: the general register that takes the result, or gives the value.
    pub fn rt(self) -> u8
        ensures field { result ≡ rt_field self.word }
        ensures register { result < 32 }
    {
        (self.word >> 21 & 31) as u8
    }

    /// RA: a general register.
    pub fn ra(self) -> u8
        ensures field { result ≡ ra_field self.word }
        ensures register { result < 32 }
    {
        (self.word >> 16 & 31) as u8
    }

    /// RB: a general register.
    pub fn rb(self) -> u8
        ensures field { result ≡ rb_field self.word }
        ensures register { result < 32 }
    {
        (self.word >> 11 & 31) as u8
    }

    /// UI: the immediate without a sign.
    pub fn immediate(self) -> u32
        ensures field { result ≡ immediate self.word }
        ensures half { result < 2 ^ 16 }
    {
        self.word & 0xFFFF
    }

    /// D, and SI in the same place: the immediate with its sign.
    pub fn signed_immediate(self) -> i32
        ensures { result ≡ signed_immediate self.word }
    {
        let field = self.immediate() as i32;
        if field < 0x8000 {
            field
        } else {
            field - 0x1_0000
        }
    }

    /// LI with two zero bits joined: the bytes that a branch goes forward, or from 0 where it is absolute.
    pub fn branch_displacement(self) -> i32
        ensures { result ≡ branch_displacement self.word }
    {
        let words = (self.word >> 2 & 0x00FF_FFFF) as i32;
        if words < 0x80_0000 {
            words * 4
        } else {
            (words - 0x100_0000) * 4
        }
    }

    /// BD with two zero bits joined: the bytes that a conditional branch goes forward, or from 0 where it
    /// is absolute.
    pub fn conditional_displacement(self) -> i32
        ensures { result ≡ conditional_displacement self.word }
    {
        let words = (self.word >> 2 & 0x3FFF) as i32;
        if words < 0x2000 {
            words * 4
        } else {
            (words - 0x4000) * 4
        }
    }

    /// AA: whether a branch's displacement is itself the target.
    pub fn is_absolute(self) -> bool
        ensures { result ≡ (absolute_bit self.word == 1) }
    {
        self.word >> 1 & 1 == 1
    }

    /// LK: whether a branch sets the link register.
    pub fn is_linked(self) -> bool
        ensures { result ≡ (link_bit self.word == 1) }
    {
        self.word & 1 == 1
    }

    /// Rc: whether the instruction also sets a condition field.
    pub fn records(self) -> bool
        ensures { result ≡ (record_bit self.word == 1) }
    {
        self.word & 1 == 1
    }

    /// OE: whether an arithmetic instruction also tells of overflow.
    pub fn tells_overflow(self) -> bool
        ensures { result ≡ (overflow_bit self.word == 1) }
    {
        self.word >> 10 & 1 == 1
    }

    /// BF: the condition field that takes the result.
    pub fn bf(self) -> u32
        ensures field { result ≡ bf_field self.word }
        ensures condition { result < 8 }
    {
        self.word >> 23 & 7
    }

    /// BFA: the condition field that gives the value.
    pub fn bfa(self) -> u32
        ensures field { result ≡ bfa_field self.word }
        ensures condition { result < 8 }
    {
        self.word >> 18 & 7
    }

    /// MB: the first bit of a rotation's mask; in `isel`, BC, the bit of the condition register that chooses.
    pub fn mask_begin(self) -> u32
        ensures field { result ≡ mask_begin self.word }
        ensures bit { result < 32 }
    {
        self.word >> 6 & 31
    }

    /// ME: the last bit of a rotation's mask.
    pub fn mask_end(self) -> u32
        ensures field { result ≡ mask_end self.word }
        ensures bit { result < 32 }
    {
        self.word >> 1 & 31
    }

    /// FXM: which condition fields are written, field 0 by the most significant of eight bits.
    pub fn fxm(self) -> u32
        ensures field { result ≡ fxm_field self.word }
        ensures byte { result < 256 }
    {
        self.word >> 12 & 0xFF
    }

    /// The number of a special register, or of a time base register.
    pub fn spr(self) -> u32
        ensures field { result ≡ spr_field self.word }
        ensures number { result < 1024 }
    {
        (self.word >> 11 & 31) * 32 + (self.word >> 16 & 31)
    }

    /// E: whether `wrteei` enables external interrupts.
    pub fn is_enabling(self) -> bool
        ensures { result ≡ (enable_bit self.word == 1) }
    {
        self.word >> 15 & 1 == 1
    }

    /// T: which translations `tlbilx` ends, from 0 to 3.
    pub fn invalidate_kind(self) -> u32
        ensures { result ≡ invalidate_kind self.word }
    {
        self.word >> 21 & 3
    }
}
