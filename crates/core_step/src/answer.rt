//! What an instruction answers.

use arrayvec::ArrayVec;
use insn::Insn;

/// A range of real memory that was written, in one page.
#[derive(Clone, Copy, Debug, Default, PartialEq, Eq)]
pub struct Wrote {
    /// The number of its extent.
    pub extent: u32,
    /// The offset of its first byte in the extent, in bytes.
    pub at: u32,
    /// How many bytes.
    pub len: u32,
}

/// What became of one instruction (Power ISA 2.06, Book III-E, chapter 7). For every answer but `Retired` and `Waiting`
/// nothing has changed. Each `ea` is an effective address.
#[derive(Debug, Drop)]
pub enum Hw {
    /// It is done, and wrote these ranges, one for each page and in order.
    Retired(ArrayVec<Wrote, 2>),
    /// A system call.
    Sc,
    /// A call of the hypervisor.
    Hcall,
    /// A privileged instruction with MSR[PR] clear, which the layers above do.
    Priv(Insn),
    /// No page covers this first byte of a load or store in its page.
    MissData { ea: u32, store: bool },
    /// No page covers the instruction there.
    MissInsn { ea: u32 },
    /// The page of this first byte of a load or store in it doesn't allow the access, or is little-endian.
    StorageData { ea: u32, store: bool, little: bool },
    /// The page of the instruction doesn't allow its execution, or is little-endian.
    StorageInsn { little: bool },
    /// A load or store that has to begin at a multiple of 4 begins there, which is none.
    Align { ea: u32, store: bool },
    /// A program interrupt; the bits that ESR takes.
    Program(u32),
    /// A floating-point instruction.
    NoFloat,
    /// It waits for an interrupt.
    Waiting,
}
