//! Names of files, cut and kept without memory.

ghost use Rattle.std.specs.Prelude.{◌≡◌, ◌≤◌, List, ℕ, [], length};
ghost use Rattle.outside.specs.Content.{cut};

use arrayvec::ArrayVec;
use std::marker::Model;

/// How many bytes of a file's name are kept.
pub const NAME_LIMIT: usize = 4096;

/// A file's name, cut to its first 4,096 bytes and kept without memory. Contracts see the bytes.
#[derive(Drop)]
pub struct Name {
    kept: ArrayVec<u8, 4096>,
}

impl Model for Name {
    ghost Value = { List ℕ };

    ghost view = { λ n. n.kept.items };

    ghost invariant = { λ n. length n.kept.items ≤ 4096 };
}

impl Name {
    /// The empty name.
    pub fn empty() -> Name
        ensures { result ≡ [] }
    {
        Name {
            kept: ArrayVec::new(),
        }
    }

    /// The front of the name.
    pub fn cut(name: &[u8]) -> Name
        ensures { result ≡ cut name.now }
    {
        let mut kept = ArrayVec::new();
        let count = name.len().min(NAME_LIMIT);
        let _ = kept.try_extend_from_slice(&name[..count]);
        Name { kept }
    }

    /// The same name again.
    pub fn copy(&self) -> Name
        ensures { result ≡ self.now }
    {
        let mut kept = ArrayVec::new();
        let _ = kept.try_extend_from_slice(self.kept.as_slice());
        Name { kept }
    }

    /// The bytes that were kept.
    pub fn as_slice(&self) -> &[u8]
        ensures { result.now ≡ self.now }
    {
        self.kept.as_slice()
    }
}
