//! The names of the properties or of the children of one node.

ghost use Rattle.std.specs.Prelude.{◌≡◌, ◌||◌, not, [], List, ℕ, MatchResult, map};
ghost use Rattle.std.specs.Str.{bytes_eq};
ghost use Rattle.dt_model.specs.Name.{has};

use crate::fault::BlobFault;
use std::alloc::Global;
use std::collections::BTreeSet;
use std::marker::Model;

/// Names that are told apart in about the logarithm of their count. Contracts see a list of them.
#[derive(Drop)]
pub struct Names<'a> {
    set: BTreeSet<&'a [u8]>,
}

impl<'a> Model for Names<'a> {
    ghost Value = { List (List ℕ) };

    ghost view = { λ names. map (λ name. name.now) names.set.keys };
}

impl<'a> Names<'a> {
    /// No names.
    pub fn new(alloc: Global) -> Names<'a>
        ensures { result ≡ [] }
    {
        Names {
            set: BTreeSet::new(alloc),
        }
    }

    /// Adds the name, and says whether it is new.
    pub fn add(&mut self, name: &'a [u8]) -> Result<bool, BlobFault>
        ensures { MatchResult result
            (λ new. (new ≡ not (has self.old name.now)) × ((other : List ℕ) → has self.new other ≡ (bytes_eq name.now other || has self.old other)))
            (λ fault. fault ≡ BlobFault.NoMemory) }
    {
        let added = self.set.insert(name)?;
        Ok(added)
    }
}
