//! The statuses of a hypercall, and the handle of the caller itself.

ghost use Rattle.std.specs.Prelude.{◌≡◌, ◌==◌};
ghost use Rattle.hcall_abi.specs.Status.{code_of, own_handle};

/// How a hypercall ended (ePAPR 1.1, chapter 7, return codes).
#[derive(Clone, Copy, Debug, PartialEq, Eq)]
pub enum Status {
    /// SUCCESS: it is done.
    Success,
    /// EAGAIN: it is done in part, for want of room, and the caller may ask again.
    TryAgain,
    /// EFAULT: an address is not the caller's, or not the managed partition's.
    Fault,
    /// EINVAL: an argument is out of its range.
    InvalidArgument,
    /// INVALID_STATE: the partition is in a state in which this can't be asked.
    InvalidState,
    /// UNIMPLEMENTED: no service has the token.
    Unimplemented,
}

impl Status {
    /// Its number, as the caller finds it in r3.
    pub fn code(self) -> u32
        ensures { result ≡ code_of self }
    {
        match self {
            Status::Success => 0,
            Status::TryAgain => 4,
            Status::Fault => 6,
            Status::InvalidArgument => 8,
            Status::InvalidState => 11,
            Status::Unimplemented => 12,
        }
    }
}

/// Whether a handle names the calling partition itself.
pub fn is_own(handle: u32) -> bool
    ensures { result ≡ (handle == own_handle) }
{
    handle == 0xFFFF_FFFF
}
