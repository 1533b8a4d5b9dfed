//! Why an image is refused.

ghost use Rattle.std.specs.Prelude.{◌≡◌};
ghost use Rattle.elf_image.specs.declared.fault.ImageFault.TheVariants as variant;

use outside::NoMemory;
use std::alloc::{AllocError, AllocFailed};

/// Why an image is refused.
#[derive(Clone, Copy, Debug, PartialEq, Eq)]
pub enum ImageFault {
    /// The least of the rules that is broken: 1 to 7 for I1 to I7.
    Rule(u8),
    /// There was no memory.
    NoMemory,
}

impl From<AllocError> for ImageFault {
    ghost from_gives = { λ _ fault. fault ≡ variant.NoMemory };

    fn from(_error: AllocError) -> ImageFault {
        ImageFault::NoMemory
    }
}

impl<T: Drop> From<AllocFailed<T>> for ImageFault {
    ghost from_gives = { λ _ fault. fault ≡ variant.NoMemory };

    fn from(_error: AllocFailed<T>) -> ImageFault {
        ImageFault::NoMemory
    }
}

impl From<NoMemory> for ImageFault {
    ghost from_gives = { λ _ fault. fault ≡ variant.NoMemory };

    fn from(_error: NoMemory) -> ImageFault {
        ImageFault::NoMemory
    }
}
