//! The numbers of places at the start; `machine_desc`'s `specs/Limits.antt` has them too.

/// Where the area ends that is mapped as a partition starts.
pub const MAPPED_END: u64 = 0x0400_0000;

/// How many bytes at the end of the tree's window are for spin entries.
pub const SPIN_ROOM: u128 = 512;

/// How many bytes there are from one spin entry to the next.
pub const SPIN_STEP: u128 = 64;

/// How many bytes a spin entry has.
pub const SPIN_SIZE: u32 = 24;
