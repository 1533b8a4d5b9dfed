//! One end of the ports in memory.

use crate::kind::Kind;
use byte_channel::Channel;

/// What a handle is, its channel, whose end A is the partition's, and whether the partition that it manages runs. Only a
/// channel handle uses its channel.
#[derive(Drop)]
pub struct MemEnd {
    pub kind: Kind,
    pub channel: Channel,
    pub runs: bool,
}
