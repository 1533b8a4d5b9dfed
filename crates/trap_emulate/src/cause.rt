//! Why a core enters an interrupt.

/// Why a core enters an interrupt (Power ISA 2.06, Book III-E, chapter 7).
///
/// `ea` is an effective address: of the first byte that a load or store has in the page, or with `Align` at all, which DEAR
/// takes, and with `MissInsn` of the instruction. `esr` is what the exception syndrome register takes, and `store` whether
/// the access was a store.
#[derive(Clone, Copy, Debug, PartialEq, Eq)]
pub enum Cause {
    /// An access to storage that isn't there.
    MachineCheck,
    /// A load or store that its page doesn't permit, or whose page is little-endian.
    StorageData { ea: u32, esr: u32 },
    /// A fetch that its page doesn't permit, or whose page is little-endian.
    StorageInsn { esr: u32 },
    /// The external line is up.
    External,
    /// A load or store whose address must be aligned and isn't.
    Align { ea: u32, esr: u32 },
    /// A trap, or an instruction that is illegal or privileged.
    Program { esr: u32 },
    /// A floating-point instruction, of which a guest's core has none.
    NoFloat,
    /// The instruction `sc`.
    Syscall,
    /// The decrementer has expired.
    Decrementer,
    /// A load or store that no translation matches.
    MissData { ea: u32, store: bool },
    /// A fetch that no translation matches.
    MissInsn { ea: u32 },
}
