//! The limits that descriptions keep; `specs/Limits.antt` has them too.

/// How many regions a partition may have.
pub const MOST_REGIONS: usize = 16;

/// How many handles a partition may have.
pub const MOST_HANDLES: usize = 64;

/// How many cores a partition may have.
pub const MOST_CORES: usize = 8;

/// How many partitions there may be.
pub const MOST_PARTITIONS: usize = 16;

/// How many bytes all extents together may have.
pub const MOST_BYTES: u64 = 1_073_741_824;

/// How many bytes a page has.
pub const PAGE_SIZE: u64 = 4096;

/// Where logical and real addresses end.
pub const ADDRESS_END: u128 = 0x10_0000_0000;

/// Where the area ends that is mapped as a partition starts.
pub const MAPPED_END: u64 = 0x0400_0000;

/// How many bytes at the end of the tree's window are for spin entries.
pub const SPIN_ROOM: u128 = 512;

/// How many bytes there are from one spin entry to the next.
pub const SPIN_STEP: u128 = 64;

/// How many bytes a spin entry has.
pub const SPIN_SIZE: u64 = 24;
