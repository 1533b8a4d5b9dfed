//! What handles are.

/// What a handle is (ePAPR 1.1, 7.2, and partitions that are managed).
#[derive(Clone, Copy, Debug, PartialEq, Eq)]
pub enum Kind {
    /// An end of a byte channel.
    Channel,
    /// A doorbell that the partition rings.
    Send,
    /// A doorbell that rings the partition.
    Receive,
    /// A partition that this one manages.
    Manage,
}
