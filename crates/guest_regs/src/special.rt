//! The special registers by name.

/// A special register.
#[derive(Clone, Copy, Debug, PartialEq, Eq)]
pub enum Special {
    Xer,
    Lr,
    Ctr,
    Dec,
    Decar,
    Srr0,
    Srr1,
    Dear,
    Esr,
    Pid,
    Csrr0,
    Csrr1,
    Mcsrr0,
    Mcsrr1,
    Ivpr,
    /// One of IVOR0 to IVOR15.
    Ivor(u8),
    /// One of SPRG0 to SPRG7.
    Sprg(u8),
    /// One of SPRG3 to SPRG7, by a number that user programs may read.
    UserSprg(u8),
    /// The lower half of the time base.
    TimeLower,
    /// The upper half of the time base.
    TimeUpper,
    Pir,
    Pvr,
    Tsr,
    Tcr,
    Mas0,
    Mas1,
    Mas2,
    Mas3,
    Mas4,
    Mas6,
    Mas7,
    Tlb0cfg,
    Tlb1cfg,
    Hid0,
    L1csr0,
    L1csr1,
    Bucsr,
    /// No register has the number.
    Unlisted,
}
