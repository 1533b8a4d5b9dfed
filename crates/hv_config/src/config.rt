//! The types of a configuration. Addresses and sizes are in bytes.

use crate::form::Kind;
use outside::{Bytes, Listed};

/// An area of real memory.
#[derive(Debug, Drop)]
pub struct AreaDef {
    pub name: Bytes,
    /// Its first real address.
    pub base: u64,
    pub size: u64,
}

/// A byte channel.
#[derive(Debug, Drop)]
pub struct ChannelDef {
    pub name: Bytes,
    /// The name of the console at one of its ends, if there is one.
    pub console: Option<Bytes>,
}

/// A doorbell.
#[derive(Debug, Drop)]
pub struct BellDef {
    pub name: Bytes,
}

/// An area in a partition's memory.
#[derive(Debug, Drop)]
pub struct GuestAreaDef {
    pub name: Bytes,
    /// The name of the area that is mapped.
    pub area: Bytes,
    /// Its first logical (guest physical) address.
    pub at: u64,
}

/// A handle of a partition, by which its guest calls the hypervisor.
#[derive(Debug, Drop)]
pub struct HandleDef {
    pub name: Bytes,
    pub kind: Kind,
    /// The name of the channel, the doorbell or the partition that it stands for.
    pub target: Bytes,
}

/// A partition.
#[derive(Debug, Drop)]
pub struct PartDef {
    pub name: Bytes,
    /// The numbers of the cpus that it runs on.
    pub cpus: Listed<u32>,
    /// The name of the file of its image.
    pub image: Bytes,
    /// The logical address of an image that doesn't say its own.
    pub image_at: u64,
    /// The logical address of the window for its device tree.
    pub tree_at: u64,
    /// The window's size.
    pub tree_size: u64,
    /// Whether it waits until its manager starts it.
    pub held: bool,
    /// What its device tree says as boot arguments.
    pub bootargs: Option<Bytes>,
    /// Where the list of its guest areas stands among its children.
    pub areas_at: usize,
    pub areas: Listed<GuestAreaDef>,
    /// Where the list of its handles stands among its children; 0 where there is none.
    pub handles_at: usize,
    pub handles: Listed<HandleDef>,
}

/// A configuration. Each list is in document order, and document order across lists is that of their places.
#[derive(Debug, Drop)]
pub struct Config {
    /// Where the list of areas stands among the root's children.
    pub areas_at: usize,
    pub areas: Listed<AreaDef>,
    /// Likewise of channels; 0 where there is none.
    pub channels_at: usize,
    pub channels: Listed<ChannelDef>,
    /// Likewise of doorbells; 0 where there is none.
    pub bells_at: usize,
    pub bells: Listed<BellDef>,
    /// Likewise of partitions.
    pub parts_at: usize,
    pub parts: Listed<PartDef>,
}
