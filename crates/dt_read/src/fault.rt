//! Why a blob is refused.

ghost use Rattle.std.specs.Prelude.{◌≡◌};
ghost use Rattle.dt_read.specs.declared.fault.BlobFault.TheVariants as variant;

use outside::NoMemory;
use std::alloc::{AllocError, AllocFailed};
use thiserror::Error;

/// Why a blob is refused.
#[derive(Clone, Copy, Debug, PartialEq, Eq, Error)]
pub enum BlobFault {
    /// The first rule that the bytes break, in reading order: 1 to 14 for B1 to B14.
    #[error("rule B{0} is broken")]
    Rule(u8),
    /// A growth of memory was refused.
    #[error("out of memory")]
    NoMemory,
}

impl From<AllocError> for BlobFault {
    ghost from_gives = { λ _ fault. fault ≡ variant.NoMemory };

    fn from(_error: AllocError) -> BlobFault {
        BlobFault::NoMemory
    }
}

impl<T: Drop> From<AllocFailed<T>> for BlobFault {
    ghost from_gives = { λ _ fault. fault ≡ variant.NoMemory };

    fn from(_error: AllocFailed<T>) -> BlobFault {
        BlobFault::NoMemory
    }
}

impl From<NoMemory> for BlobFault {
    ghost from_gives = { λ _ fault. fault ≡ variant.NoMemory };

    fn from(_error: NoMemory) -> BlobFault {
        BlobFault::NoMemory
    }
}
