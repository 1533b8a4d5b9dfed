//! Why there is no configuration or no board.

use outside::Bytes;

/// A rule of the product, by its letter as ASCII has it and its number: C1 to C22 for configurations, H1 to H4 for
/// hardware.
#[derive(Clone, Copy, Debug, PartialEq, Eq)]
pub struct Rule {
    pub letter: u8,
    pub number: u8,
}

/// Why a tree is refused.
#[derive(Debug, Drop)]
pub enum Fault {
    /// The broken rule with the least number, and the path of the first node that breaks it.
    Broken { rule: Rule, at: Bytes },
    /// A growth of memory was refused.
    NoMemory,
}

impl From<outside::NoMemory> for Fault {
    ghost use Rattle.std.specs.Prelude.{◌≡◌};
    ghost use Rattle.hv_config.specs.declared.fault.Fault.TheVariants.{NoMemory};

    ghost from_gives = { λ _ fault. fault ≡ NoMemory };

    fn from(_error: outside::NoMemory) -> Fault {
        Fault::NoMemory
    }
}
