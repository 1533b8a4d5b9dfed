//! What joins partitions.

use outside::{Bytes, Listed};

/// A handle of a partition.
#[derive(Clone, Copy, Debug, PartialEq, Eq)]
pub struct PortRef {
    /// The partition's number.
    pub part: usize,
    /// From 1 on.
    pub handle: u32,
}

/// An end of a byte channel.
#[derive(Clone, Copy, Debug)]
pub enum End {
    /// At a handle of a partition.
    Part(PortRef),
    /// At the console with this number.
    Console(usize),
}

/// A byte channel, by its two ends.
#[derive(Clone, Copy, Debug)]
pub struct Link {
    pub a: End,
    pub b: End,
}

/// A doorbell, by who rings it and who hears it.
#[derive(Debug, Drop)]
pub struct Bell {
    pub senders: Listed<PortRef>,
    pub receivers: Listed<PortRef>,
}

/// What joins the partitions, and the real memory under them.
#[derive(Debug, Drop)]
pub struct Wiring {
    /// The size of each extent, in bytes.
    pub sizes: Listed<u32>,
    /// The real address of the first byte of each extent.
    pub reals: Listed<u64>,
    /// The byte channels.
    pub links: Listed<Link>,
    /// The doorbells.
    pub bells: Listed<Bell>,
    /// The handle that manages each partition, where there is one.
    pub managers: Listed<Option<PortRef>>,
    /// The name of each console.
    pub consoles: Listed<Bytes>,
}
