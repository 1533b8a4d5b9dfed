//! What `mfspr` and `mtspr` come to.

/// What reading a special register by its number gives.
#[derive(Clone, Copy, Debug, PartialEq, Eq)]
pub enum ReadAnswer {
    /// The value.
    Value(u32),
    /// User programs have no such register, and the system has none either.
    Illegal,
    /// The register is the system's, and MSR[PR] is set.
    Privileged,
}

/// How writing a special register by its number ended.
#[derive(Clone, Copy, Debug, PartialEq, Eq)]
pub enum WriteAnswer {
    /// It is done, which may have had no effect.
    Done,
    /// User programs have no such register, or can only read it.
    Illegal,
    /// The register is the system's, and MSR[PR] is set.
    Privileged,
}
