//! What a step of a partition did, what happens to it between two steps, and whether it does steps.

use arrayvec::ArrayVec;

/// Whether a partition does steps.
#[derive(Clone, Copy, Debug, PartialEq, Eq)]
pub enum State {
    /// It does steps.
    Running,
    /// It was stopped, or was never started.
    Stopped,
    /// It met a machine check that it couldn't take.
    Faulted,
}

/// What one step did that others see. Each `h` is a handle of the partition whose step it is.
#[derive(Debug, Drop)]
pub enum Act {
    /// Nothing.
    None,
    /// It sent these bytes, at least one, on a channel.
    Sent { h: u32, bytes: ArrayVec<u8, 16> },
    /// It took so many bytes, at least one, that had come on a channel.
    Took { h: u32, count: u16 },
    /// It rang a doorbell.
    Rang { h: u32 },
    /// It started the partition that the handle manages, at an effective address, and had its memory loaded anew or not.
    Start { h: u32, entry: u32, load: bool },
    /// It stopped the partition that the handle manages.
    Stop { h: u32 },
    /// It restarted the partition that the handle manages.
    Restart { h: u32 },
    /// It copied so many bytes, at least one, into the partition that the handle manages.
    CopyTo { h: u32, total: u32 },
    /// It copied so many bytes, at least one, out of the partition that the handle manages.
    CopyFrom { h: u32, total: u32 },
    /// It stopped its own partition.
    SelfStop,
    /// It restarted its own partition.
    SelfRestart,
    /// It met a machine check with MSR[ME] clear, and the partition has stopped.
    Faulted,
}

/// What happens to a partition between two steps. Each `h` is a handle of that partition.
#[derive(Clone, Copy, Debug)]
pub enum Event<'a> {
    /// These bytes came on a channel.
    Bytes { h: u32, bytes: &'a [u8] },
    /// The other end of a channel took so many of the bytes that the partition sent there.
    Room { h: u32, count: u16 },
    /// A doorbell that the handle receives was rung.
    Ring { h: u32 },
    /// Its manager started it at an effective address, and had its memory loaded anew or not.
    Start { entry: u32, load: bool },
    /// Its manager stopped it.
    Stop,
    /// Its manager restarted it.
    Restart,
    /// Its manager wrote these bytes at a logical address.
    CopyIn { at: u64, bytes: &'a [u8] },
    /// The partition that the handle manages runs now, or doesn't.
    State { h: u32, running: bool },
}
