//! What an instruction asks for beside the registers.

/// What kind of access an instruction makes.
#[derive(Clone, Copy, Debug, PartialEq, Eq)]
pub enum Form {
    /// A load into one register.
    Load,
    /// A store of one register.
    Store,
    /// A load that reserves its block, `lwarx` (Power ISA 2.06, Book II, section 4.4).
    Reserve,
    /// A store that is made only under a reservation, `stwcx.` (Power ISA 2.06, Book II, section 4.4).
    Conditional,
    /// A load or store of several registers (Power ISA 2.06, Book I, section 3.3.5).
    Many,
    /// A store of zeros into a block, `dcbz` (Power ISA 2.06, Book II, section 4.3).
    Zero,
}

/// An access to storage.
#[derive(Clone, Copy, Debug, PartialEq, Eq)]
pub struct Access {
    /// The effective address of the first byte.
    pub ea: u32,
    /// How many bytes, at most 128.
    pub len: u8,
    /// Its kind.
    pub form: Form,
    /// Whether it is a store.
    pub store: bool,
}

/// What an instruction asks for.
#[derive(Clone, Copy, Debug, PartialEq, Eq)]
pub enum Effect {
    /// Nothing more: the registers have changed.
    Done,
    /// An access, which `finish_load` completes.
    Memory(Access),
    /// What only the system may do. With MSR[PR] clear the layers above do it, else it is a privileged instruction
    /// exception.
    Priv,
    /// A trap exception (Power ISA 2.06, Book I, section 3.3.10).
    Trap,
    /// An illegal instruction exception.
    Illegal,
    /// A floating-point unavailable interrupt.
    NoFloat,
    /// A system call interrupt (Power ISA 2.06, Book I, section 2.6).
    Syscall,
    /// A call of the hypervisor.
    Hcall,
    /// To wait for an interrupt (Power ISA 2.06, Book II, section 4.4).
    Wait,
}
