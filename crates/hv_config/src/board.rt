//! The types of the hardware.

use outside::Listed;

/// A cpu of the hardware.
#[derive(Clone, Copy, Debug)]
pub struct Cpu {
    /// Its number, at most 31 (ePAPR 1.1, 3.7.1).
    pub number: u32,
    /// Whether a partition may name it: its `status` is absent, or says that it runs or waits (ePAPR 1.1, 2.3.4).
    pub usable: bool,
}

/// A range of real memory.
#[derive(Clone, Copy, Debug)]
pub struct Range {
    /// Its first real address.
    pub at: u64,
    /// Its size in bytes, at least 1.
    pub size: u64,
}

/// What the hardware has, in document order.
#[derive(Debug, Drop)]
pub struct Board {
    pub cpus: Listed<Cpu>,
    pub memory: Listed<Range>,
}
