//! Instructions: what a word asks for, beside the word.

/// What an instruction word asks for, by the mnemonic of Power ISA 2.06. Each is a row of the table, but for
/// `FloatingPoint`, which has one row per opcode, and `Illegal`, which has none.
#[derive(Clone, Copy, Debug, PartialEq, Eq)]
pub enum Op {
    /// Trap word immediate (Book I, section 3.3.10).
    Twi,
    /// Multiply low immediate (Book I, section 3.3.8).
    Mulli,
    /// Subtract from immediate carrying (Book I, section 3.3.8).
    Subfic,
    /// Compare logical immediate (Book I, section 3.3.9).
    Cmpli,
    /// Compare immediate (Book I, section 3.3.9).
    Cmpi,
    /// Add immediate carrying (Book I, section 3.3.8).
    Addic,
    /// Add immediate carrying and record, `addic.` (Book I, section 3.3.8).
    AddicRecord,
    /// Add immediate (Book I, section 3.3.8).
    Addi,
    /// Add immediate shifted (Book I, section 3.3.8).
    Addis,
    /// Branch conditional, relative or absolute, with or without link (Book I, section 2.4).
    Bc,
    /// System call with LEV = 0, which calls the guest's own system (Book I, section 2.6).
    Sc,
    /// System call with LEV = 1, which calls the hypervisor (Book III-E, chapter 4).
    Hypercall,
    /// Branch, relative or absolute, with or without link (Book I, section 2.4).
    B,
    /// Rotate left word immediate, then mask insert (Book I, section 3.3.13).
    Rlwimi,
    /// Rotate left word immediate, then AND with mask (Book I, section 3.3.13).
    Rlwinm,
    /// Rotate left word, then AND with mask (Book I, section 3.3.13).
    Rlwnm,
    /// OR immediate (Book I, section 3.3.12).
    Ori,
    /// OR immediate shifted (Book I, section 3.3.12).
    Oris,
    /// XOR immediate (Book I, section 3.3.12).
    Xori,
    /// XOR immediate shifted (Book I, section 3.3.12).
    Xoris,
    /// AND immediate, `andi.`, which always records (Book I, section 3.3.12).
    Andi,
    /// AND immediate shifted, `andis.`, which always records (Book I, section 3.3.12).
    Andis,
    /// Load word and zero (Book I, section 3.3.2).
    Lwz,
    /// Load word and zero with update (Book I, section 3.3.2).
    Lwzu,
    /// Load byte and zero (Book I, section 3.3.2).
    Lbz,
    /// Load byte and zero with update (Book I, section 3.3.2).
    Lbzu,
    /// Store word (Book I, section 3.3.3).
    Stw,
    /// Store word with update (Book I, section 3.3.3).
    Stwu,
    /// Store byte (Book I, section 3.3.3).
    Stb,
    /// Store byte with update (Book I, section 3.3.3).
    Stbu,
    /// Load halfword and zero (Book I, section 3.3.2).
    Lhz,
    /// Load halfword and zero with update (Book I, section 3.3.2).
    Lhzu,
    /// Load halfword algebraic (Book I, section 3.3.2).
    Lha,
    /// Load halfword algebraic with update (Book I, section 3.3.2).
    Lhau,
    /// Store halfword (Book I, section 3.3.3).
    Sth,
    /// Store halfword with update (Book I, section 3.3.3).
    Sthu,
    /// Load multiple word (Book I, section 3.3.5).
    Lmw,
    /// Store multiple word (Book I, section 3.3.5).
    Stmw,
    /// Any floating-point load, store or operation (Book I, chapter 4). A guest's core has no
    /// floating point.
    FloatingPoint,
    /// Move condition register field (Book I, section 2.5).
    Mcrf,
    /// Condition register NOR (Book I, section 2.5).
    Crnor,
    /// Condition register AND with complement (Book I, section 2.5).
    Crandc,
    /// Condition register XOR (Book I, section 2.5).
    Crxor,
    /// Condition register NAND (Book I, section 2.5).
    Crnand,
    /// Condition register AND (Book I, section 2.5).
    Crand,
    /// Condition register equivalent (Book I, section 2.5).
    Creqv,
    /// Condition register OR with complement (Book I, section 2.5).
    Crorc,
    /// Condition register OR (Book I, section 2.5).
    Cror,
    /// Return from machine check interrupt (Book III-E, chapter 4).
    Rfmci,
    /// Branch conditional to the link register (Book I, section 2.4).
    Bclr,
    /// Branch conditional to the count register (Book I, section 2.4).
    Bcctr,
    /// Return from interrupt (Book III-E, chapter 4).
    Rfi,
    /// Return from critical interrupt (Book III-E, chapter 4).
    Rfci,
    /// Instruction synchronize (Book II, chapter 4).
    Isync,
    /// Compare (Book I, section 3.3.9).
    Cmp,
    /// Compare logical (Book I, section 3.3.9).
    Cmpl,
    /// Write MSR external enable (Book III-E, chapter 5).
    Wrtee,
    /// Write MSR external enable immediate (Book III-E, chapter 5).
    Wrteei,
    /// Trap word (Book I, section 3.3.10).
    Tw,
    /// Subtract from carrying (Book I, section 3.3.8).
    Subfc,
    /// Subtract from (Book I, section 3.3.8).
    Subf,
    /// Negate (Book I, section 3.3.8).
    Neg,
    /// Subtract from extended (Book I, section 3.3.8).
    Subfe,
    /// Subtract from zero extended (Book I, section 3.3.8).
    Subfze,
    /// Subtract from minus one extended (Book I, section 3.3.8).
    Subfme,
    /// Add carrying (Book I, section 3.3.8).
    Addc,
    /// Add extended (Book I, section 3.3.8).
    Adde,
    /// Add to zero extended (Book I, section 3.3.8).
    Addze,
    /// Add to minus one extended (Book I, section 3.3.8).
    Addme,
    /// Add (Book I, section 3.3.8).
    Add,
    /// Multiply high word unsigned (Book I, section 3.3.8).
    Mulhwu,
    /// Multiply high word (Book I, section 3.3.8).
    Mulhw,
    /// Multiply low word (Book I, section 3.3.8).
    Mullw,
    /// Divide word unsigned (Book I, section 3.3.8).
    Divwu,
    /// Divide word (Book I, section 3.3.8).
    Divw,
    /// Integer select (Book I, section 3.3.11).
    Isel,
    /// Move to condition register fields (Book I, section 3.3.15).
    Mtcrf,
    /// TLB invalidate local (Book III-E, chapter 6).
    Tlbilx,
    /// Move to machine state register (Book III-E, chapter 5).
    Mtmsr,
    /// TLB invalidate by virtual address (Book III-E, chapter 6).
    Tlbivax,
    /// TLB search (Book III-E, chapter 6).
    Tlbsx,
    /// TLB read entry (Book III-E, chapter 6).
    Tlbre,
    /// TLB write entry (Book III-E, chapter 6).
    Tlbwe,
    /// Move from condition register (Book I, section 3.3.15).
    Mfcr,
    /// Move from machine state register (Book III-E, chapter 5).
    Mfmsr,
    /// Move from special purpose register (Book I, section 3.3.15).
    Mfspr,
    /// Move from time base (Book II, chapter 5).
    Mftb,
    /// Move to special purpose register (Book I, section 3.3.15).
    Mtspr,
    /// Load word and reserve (Book II, chapter 4).
    Lwarx,
    /// Instruction cache block touch (Book II, chapter 4).
    Icbt,
    /// Data cache block store (Book II, chapter 4).
    Dcbst,
    /// Data cache block flush (Book II, chapter 4).
    Dcbf,
    /// Store word conditional, `stwcx.`, whose Rc is 1 (Book II, chapter 4).
    Stwcx,
    /// Data cache block touch for store (Book II, chapter 4).
    Dcbtst,
    /// Data cache block touch (Book II, chapter 4).
    Dcbt,
    /// Data cache block invalidate (Book III-E, chapter 6).
    Dcbi,
    /// Load word byte-reverse indexed (Book I, section 3.3.4).
    Lwbrx,
    /// TLB synchronize (Book III-E, chapter 6).
    Tlbsync,
    /// Synchronize (Book II, chapter 4).
    Sync,
    /// Store word byte-reverse indexed (Book I, section 3.3.4).
    Stwbrx,
    /// Data cache block allocate (Book II, chapter 4).
    Dcba,
    /// Load halfword byte-reverse indexed (Book I, section 3.3.4).
    Lhbrx,
    /// Memory barrier (Book II, chapter 4).
    Mbar,
    /// Store halfword byte-reverse indexed (Book I, section 3.3.4).
    Sthbrx,
    /// Instruction cache block invalidate (Book II, chapter 4).
    Icbi,
    /// Data cache block set to zero (Book II, chapter 4).
    Dcbz,
    /// Load word and zero indexed (Book I, section 3.3.2).
    Lwzx,
    /// Load word and zero with update indexed (Book I, section 3.3.2).
    Lwzux,
    /// Load byte and zero indexed (Book I, section 3.3.2).
    Lbzx,
    /// Load byte and zero with update indexed (Book I, section 3.3.2).
    Lbzux,
    /// Store word indexed (Book I, section 3.3.3).
    Stwx,
    /// Store word with update indexed (Book I, section 3.3.3).
    Stwux,
    /// Store byte indexed (Book I, section 3.3.3).
    Stbx,
    /// Store byte with update indexed (Book I, section 3.3.3).
    Stbux,
    /// Load halfword and zero indexed (Book I, section 3.3.2).
    Lhzx,
    /// Load halfword and zero with update indexed (Book I, section 3.3.2).
    Lhzux,
    /// Load halfword algebraic indexed (Book I, section 3.3.2).
    Lhax,
    /// Load halfword algebraic with update indexed (Book I, section 3.3.2).
    Lhaux,
    /// Store halfword indexed (Book I, section 3.3.3).
    Sthx,
    /// Store halfword with update indexed (Book I, section 3.3.3).
    Sthux,
    /// Shift left word (Book I, section 3.3.13).
    Slw,
    /// Shift right word (Book I, section 3.3.13).
    Srw,
    /// Shift right algebraic word (Book I, section 3.3.13).
    Sraw,
    /// Shift right algebraic word immediate (Book I, section 3.3.13).
    Srawi,
    /// Count leading zeros word (Book I, section 3.3.12).
    Cntlzw,
    /// Extend sign halfword (Book I, section 3.3.12).
    Extsh,
    /// Extend sign byte (Book I, section 3.3.12).
    Extsb,
    /// AND (Book I, section 3.3.12).
    And,
    /// AND with complement (Book I, section 3.3.12).
    Andc,
    /// NOR (Book I, section 3.3.12).
    Nor,
    /// Equivalent (Book I, section 3.3.12).
    Eqv,
    /// XOR (Book I, section 3.3.12).
    Xor,
    /// OR with complement (Book I, section 3.3.12).
    Orc,
    /// OR (Book I, section 3.3.12).
    Or,
    /// NAND (Book I, section 3.3.12).
    Nand,
    /// Wait for interrupt (Book II, chapter 4).
    Wait,
    /// A word that fits no row of the table.
    Illegal,
}

/// A decoded word. The word stays beside the operation, since its fields name the operands.
#[derive(Clone, Copy, Debug, PartialEq, Eq)]
pub struct Insn {
    /// The operation, or `Op::Illegal`.
    pub op: Op,
    /// The 32 bits, the first byte the most significant.
    pub word: u32,
}
