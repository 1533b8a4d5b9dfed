//! The list of what is to be copied.

ghost use Rattle.std.specs.Prelude.{◌≡◌, ◌-◌, ◌^◌, [], ◌∷◌, ◌++◌, ◌<◌, ◌≤◌, Some, IfOk, length, min, slice_get};
ghost use Rattle.copy_lists.specs.Lists.{most_entries};
ghost use Rattle.copy_lists.specs.Lists as spec;

use outside::NoMemory;
use std::alloc::Global;
use std::marker::Model;

/// How many entries a list has at most.
pub const MOST_ENTRIES: usize = 1024;

/// What is copied from one partition to another: so many bytes side by side. Both addresses are logical (ePAPR 1.1,
/// chapter 7: guest physical), each of its own partition.
#[derive(Clone, Copy, Debug, PartialEq, Eq)]
pub struct SgEntry {
    /// The address of the first byte that is read, in the source partition.
    pub source: u64,
    /// The address of the first byte that is written, in the target partition.
    pub target: u64,
    /// In bytes.
    pub size: u64,
}

/// How many bytes the entries copy together, or as many as a number can say.
pub(crate) fn total(entries: &[SgEntry]) -> u64
    ensures { result ≡ min (spec.total entries.now) (2 ^ 64 - 1) }
{
    let mut bytes = 0u64;
    for entry in entries {
        bytes = bytes.saturating_add(entry.size);
    }
    bytes
}

/// An entry that copies nothing.
const NOTHING: SgEntry = SgEntry {
    source: 0,
    target: 0,
    size: 0,
};

/// The entries of a memory copy, 1,024 at most. Contracts see the list of them.
#[derive(Drop)]
pub struct SgList {
    room: Vec<SgEntry>,
    count: usize,
}

impl Model for SgList {
    ghost use Rattle.std.specs.Prelude.{◌≡◌, ◌≤◌, List, length, take};
    ghost use Rattle.copy_lists.specs.declared.list.SgEntry.{SgEntry};
    ghost use Rattle.copy_lists.specs.Lists.{most_entries};

    ghost Value = { List SgEntry };

    ghost view = { λ list. take list.count list.room.items };

    ghost invariant = { λ list. (length list.room.items ≡ most_entries) × (list.count ≤ most_entries) };
}

impl SgList {
    /// A list without entries, with room for 1,024. This is the only call that takes memory, and it fails only where
    /// memory runs out.
    pub fn new(alloc: Global) -> Result<SgList, NoMemory>
        ensures { IfOk result (λ list. list ≡ []) }
    {
        let room = vec![in alloc; NOTHING; MOST_ENTRIES]?;
        Ok(SgList { room, count: 0 })
    }

    /// How many entries it has.
    pub fn len(&self) -> usize
        ensures count { result ≡ length self.now }
        ensures most { result ≤ most_entries }
    {
        self.count
    }

    /// How many bytes the entries copy together, or as many as a number can say.
    pub fn total(&self) -> u64
        ensures { result ≡ min (spec.total self.now) (2 ^ 64 - 1) }
    {
        total(self.as_slice())
    }

    /// The entry at a place, counted from 0.
    pub fn entry(&self, i: usize) -> SgEntry
        requires { i < length self.now }
        ensures { slice_get self.now i ≡ Some result }
    {
        self.room[i]
    }

    /// The entries as a slice.
    pub fn as_slice(&self) -> &[SgEntry]
        ensures { result.now ≡ self.now }
    {
        &self.room[..self.count]
    }

    /// Takes over the other's entries in place of its own.
    pub fn set(&mut self, other: &SgList)
        ensures { self.new ≡ other.now }
    {
        self.room.copy_from_slice(other.room.as_slice());
        self.count = other.count;
    }

    /// Leaves no entry.
    pub(crate) fn clear(&mut self)
        ensures { self.new ≡ [] }
    {
        self.count = 0;
    }

    /// The list grows by the entry at its end.
    pub(crate) fn push(&mut self, entry: SgEntry)
        requires { length self.old < most_entries }
        ensures { self.new ≡ self.old ++ entry ∷ [] }
    {
        self.room[self.count] = entry;
        self.count += 1;
    }
}
