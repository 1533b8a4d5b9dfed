//! The limits that a configuration keeps; `specs/Limits.antt` here and in `machine_desc` has them too.

/// How many characters a name may have.
pub const LONGEST_NAME: usize = 31;

/// How many areas of real memory there may be.
pub const MOST_AREAS: usize = 64;

/// How many byte channels there may be.
pub const MOST_CHANNELS: usize = 64;

/// How many doorbells there may be.
pub const MOST_BELLS: usize = 64;

/// How many partitions there may be.
pub const MOST_PARTITIONS: usize = 16;

/// How many areas a partition may have in its memory.
pub const MOST_REGIONS: usize = 16;

/// How many handles a partition may have.
pub const MOST_HANDLES: usize = 64;

/// How many bytes all areas of real memory together may have: 1 GiB.
pub const MOST_BYTES: u64 = 1_073_741_824;

/// How many bytes a page has.
pub const PAGE_SIZE: u64 = 4096;

/// Where logical and real addresses end.
pub const ADDRESS_END: u128 = 0x10_0000_0000;

/// Where the area ends that is mapped as a partition starts: 64 MiB.
pub const MAPPED_END: u128 = 0x0400_0000;

/// How many bytes the window for a device tree may have: 1 MiB.
pub const LARGEST_WINDOW: u64 = 1_048_576;
