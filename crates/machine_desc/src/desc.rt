//! The description of a partition.

use outside::{Bytes, Listed};

/// A part of a partition's memory: a range of logical addresses over the whole of one extent of real memory.
#[derive(Clone, Copy, Debug, PartialEq, Eq)]
pub struct Region {
    /// The logical address (ePAPR 1.1, chapter 7: guest physical) of its first byte.
    pub logical: u64,
    /// In bytes.
    pub size: u32,
    /// The number of its extent.
    pub extent: u32,
    /// The real address of its first byte.
    pub real: u64,
    /// Whether no other partition has its extent.
    pub private: bool,
}

/// A range of addresses: logical ones, where a handle names it.
#[derive(Clone, Copy, Debug, PartialEq, Eq)]
pub struct Span {
    /// The address of its first byte.
    pub at: u64,
    /// In bytes.
    pub size: u64,
}

/// What a handle stands for (ePAPR 1.1, 7.2). Interrupts are numbers of the virtual interrupt controller.
#[derive(Debug, Drop)]
pub enum Port {
    /// An end of a byte channel: the interrupt of received bytes, and that of room to send.
    Channel {
        rx: u8,
        tx: u8,
    },
    /// A doorbell that the partition rings.
    Send,
    /// A doorbell that rings the partition, by this interrupt.
    Receive {
        irq: u8,
    },
    /// A partition that this one manages: its number, whether it begins stopped, and its private ranges, region after
    /// region.
    Manage {
        part: usize,
        held: bool,
        private: Listed<Span>,
    },
}

/// What a range of a partition's memory begins with.
#[derive(Debug, Drop)]
pub struct Piece {
    /// The logical address of its first byte.
    pub at: u64,
    /// The first `len` of these, and zeros where there are fewer.
    pub bytes: Bytes,
    /// In bytes.
    pub len: u32,
}

/// A partition. Handle h is the port at h - 1.
#[derive(Debug, Drop)]
pub struct Desc {
    /// The partition's name.
    pub name: Bytes,
    /// Its memory, in document order.
    pub regions: Listed<Region>,
    /// The physical numbers of its cores, the one that boots first.
    pub cores: Listed<u32>,
    /// What its handles stand for.
    pub ports: Listed<Port>,
    /// The logical address of the window that holds the device tree.
    pub tree_at: u64,
    /// The size of that window, in bytes.
    pub tree_size: u64,
    /// The address of the first instruction, logical and effective alike.
    pub entry: u32,
    /// Whether it begins stopped.
    pub held: bool,
    /// What its memory begins with; later pieces cover earlier ones.
    pub pieces: Listed<Piece>,
}
