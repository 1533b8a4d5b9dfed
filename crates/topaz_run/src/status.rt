//! How calls end.

use outside::{Bytes, Failed, NoMemory};

/// How a call of `topaz` ended.
#[derive(Clone, Copy, Debug, PartialEq, Eq)]
pub enum Status {
    /// Done: all that was asked for is written and flushed.
    Ok,
    /// The words are of no form; nothing is written.
    Usage,
    /// A rule is broken; the text that ends with its line is written and flushed.
    Refused,
    /// A file can't be opened or read; nothing is written.
    ReadFault,
    /// The sink failed; it took a front of the text.
    WriteFault,
    /// There was no memory; nothing is written.
    NoMemory,
}

/// Why a command ends early.
#[derive(Drop)]
pub enum Stop {
    /// A rule is broken; the text ends with its line.
    Refused(Bytes),
    /// A file can't be opened or read.
    ReadFault,
    /// There was no memory.
    NoMemory,
}

impl From<NoMemory> for Stop {
    ghost use Rattle.std.specs.Prelude.{◌≡◌};
    ghost use Rattle.topaz_run.specs.declared.status.Stop.TheVariants.{NoMemory as no_memory};

    ghost from_gives = { λ _ stop. stop ≡ no_memory };

    fn from(_error: NoMemory) -> Stop {
        Stop::NoMemory
    }
}

/// Text is gathered in memory, so that a sink that fails has none left.
impl From<Failed> for Stop {
    ghost use Rattle.std.specs.Prelude.{◌≡◌};
    ghost use Rattle.topaz_run.specs.declared.status.Stop.TheVariants.{NoMemory as no_memory};

    ghost from_gives = { λ _ stop. stop ≡ no_memory };

    fn from(_error: Failed) -> Stop {
        Stop::NoMemory
    }
}
