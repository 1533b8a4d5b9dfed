//! The names of the strings block.

ghost use Rattle.std.specs.Prelude.{◌≡◌, ◌<◌, ◌≤◌, ◌+◌, false, [], ◌∷◌, ◌++◌, length, Some, None, IfOk, OnOk, IsErrOf, if◌then◌else◌};
ghost use Rattle.dt_model.specs.Name.{has};
ghost use Rattle.dt_model.specs.Canonical.{with_name, offset_of, strings_of, most_bytes};

use crate::fault::WriteFault;
use indexmap::IndexMap;
use std::alloc::{AllocError, Global};
use std::marker::Model;

/// The most bytes that a blob has.
pub const MOST_BYTES: usize = 16_777_216;

/// The names of the strings block, each once and in order of first use. Contracts see the names.
#[derive(Drop)]
pub struct Names<'a> {
    places: IndexMap<&'a [u8], u32>,
    // How many bytes the names and their NULs have.
    end: usize,
}

impl<'a> Model for Names<'a> {
    ghost use Rattle.std.specs.Prelude.{List, ℕ};
    ghost use Rattle.dt_write.specs.Names.{names_in, AreLaidOut};

    ghost Value = { List (List ℕ) };

    ghost view = { λ n. names_in n.places.entries };

    ghost invariant = { λ n. AreLaidOut n.places.entries n.end };
}

impl<'a> Names<'a> {
    /// No names.
    pub fn new(alloc: Global) -> Names<'a>
        ensures { result ≡ [] }
    {
        Names {
            places: IndexMap::new(alloc),
            end: 0,
        }
    }

    /// The place of the name in the strings block, where it is put unless it is there.
    pub fn place(&mut self, name: &'a [u8]) -> Result<u32, WriteFault>
        ensures names { OnOk result (self.new ≡ with_name self.old name.now) }
        ensures place { IfOk result (λ place. place ≡ offset_of (with_name self.old name.now) name.now) }
        ensures too_large { IsErrOf result WriteFault.TooLarge → most_bytes < length (strings_of (with_name self.old name.now)) }
    {
        match self.known_place(name) {
            Some(place) => Ok(place),
            None => self.add(name),
        }
    }

    /// The place of a name that is there.
    fn known_place(&self, name: &'a [u8]) -> Option<u32>
        ensures { result ≡ (if has self.now name.now then Some (offset_of self.now name.now) else None) }
    {
        self.places.get(&name).copied()
    }

    /// Puts a new name behind the others.
    fn add(&mut self, name: &'a [u8]) -> Result<u32, WriteFault>
        requires { has self.old name.now ≡ false }
        ensures names { OnOk result (self.new ≡ self.old ++ name.now ∷ []) }
        ensures place { IfOk result (λ place. place ≡ length (strings_of self.old)) }
        ensures too_large { IsErrOf result WriteFault.TooLarge → most_bytes < length (strings_of self.old) + (length name.now + 1) }
    {
        if name.len() >= MOST_BYTES - self.end {
            return Err(WriteFault::TooLarge);
        }
        let place = self.end as u32;
        self.places.insert(name, place)?;
        self.end += name.len() + 1;
        Ok(place)
    }

    /// How many bytes the strings block has.
    pub fn strings_len(&self) -> usize
        ensures size { result ≡ length (strings_of self.now) }
        ensures few { result ≤ most_bytes }
    {
        self.end
    }

    /// Appends the strings block: each name and its NUL.
    pub fn push_strings(&self, out: &mut Vec<u8>) -> Result<(), AllocError>
        ensures { OnOk result (out.new.items ≡ out.old.items ++ strings_of self.now) }
    {
        for name in self.places.keys() {
            out.extend_from_slice(name)?;
            out.push(0)?;
        }
        Ok(())
    }
}
