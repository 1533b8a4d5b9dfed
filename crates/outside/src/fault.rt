//! Why a call outside failed.

use crate::memory::NoMemory;
use thiserror::Error;

/// A call on a file or a sink failed. The count of faults of that object rose in the call.
#[derive(Clone, Copy, Debug, PartialEq, Eq, Error)]
#[error("input or output failed")]
pub struct Failed;

/// Why a file was not opened.
#[derive(Clone, Copy, Debug, PartialEq, Eq, Error)]
pub enum OpenFault {
    /// The files refused the name; their count of faults rose.
    #[error("the file can't be opened")]
    Failed,
    /// There was no memory to open it with; no count rose.
    #[error("out of memory")]
    NoMemory,
}

/// Why a file was not read whole.
#[derive(Clone, Copy, Debug, PartialEq, Eq, Error)]
pub enum FileFault {
    /// Opening or reading failed; the files' count of faults rose.
    #[error("the file can't be read")]
    Fault,
    /// The file has more than 67,108,864 bytes.
    #[error("the file is too long")]
    TooLong,
    /// There was no memory for the bytes.
    #[error("out of memory")]
    NoMemory,
}

impl From<NoMemory> for FileFault {
    ghost use Rattle.std.specs.Prelude.{◌≡◌};
    ghost use Rattle.outside.specs.declared.fault.FileFault.TheVariants.{NoMemory as no_memory};

    ghost from_gives = { λ _ fault. fault ≡ no_memory };

    fn from(_error: NoMemory) -> FileFault {
        FileFault::NoMemory
    }
}
