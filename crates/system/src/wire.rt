//! What handles lead to.

use byte_channel::Side;

/// What a handle leads to.
#[derive(Clone, Copy, Debug, PartialEq, Eq)]
pub enum Wire {
    /// The doorbell with this number, which rings the partition.
    Receive { bell: usize },
    /// The doorbell with this number, which the partition rings.
    Send { bell: usize },
    /// An end of the channel with this number.
    Channel { link: usize, side: Side },
    /// The partition with this number, which the handle manages.
    Manage { part: usize },
}

/// An end of the channel with this number.
#[derive(Clone, Copy, Debug, PartialEq, Eq)]
pub struct ChannelEnd {
    pub link: usize,
    pub side: Side,
}
