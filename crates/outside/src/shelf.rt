//! Files kept in memory, of which one may be open: what the files in memory stand on.

ghost use Rattle.std.specs.Prelude.{◌≡◌, ◌≤◌, ℕ, ◌<◌, false, [], ◌++◌, Some, length, take, drop, min, find, position, is_some};
ghost use Rattle.std.specs.Bool.{OnTrue, OnFalse};
ghost use Rattle.std.specs.List.{slice_get};
ghost use Rattle.std.specs.Str.{bytes_eq};
ghost use Rattle.outside.specs.Content.{first_of};

use crate::named_file::NamedFile;
use std::marker::Model;

/// Files in memory, of which one may be open at a place in it.
#[derive(Drop)]
pub struct Shelf {
    files: Vec<NamedFile>,
    // The index of the open file, or the number of files where none is open.
    index: usize,
    place: usize,
}

impl Model for Shelf {
    ghost use Rattle.std.specs.Prelude.{length, nat_lt};
    ghost use Rattle.outside.specs.Shelf.{Shelved, left_at};

    ghost Value = { Shelved };

    ghost view = { λ s. record {
      files = s.files.items;
      is_open = nat_lt s.index (length s.files.items);
      left = left_at s.files.items s.index s.place;
    } };
}

impl Shelf {
    /// The files with none of them open.
    pub fn new(files: Vec<NamedFile>) -> Shelf
        ensures { result ≡ record { files = files.items; is_open = false; left = [] } }
    {
        let index = files.len();
        Shelf {
            files,
            index,
            place: 0,
        }
    }

    /// Closes the open file.
    pub fn close(&mut self)
        ensures { self.new ≡ record self.old { is_open = false; left = [] } }
    {
        self.index = self.files.len();
        self.place = 0;
    }

    /// Opens the first file of that name at its start. Where there is none, no file is open.
    pub fn open(&mut self, name: &[u8]) -> bool
        ensures files { self.new.files ≡ self.old.files }
        ensures found { OnTrue result (first_of self.old.files name.now ≡ Some self.new.left) }
        ensures absent { OnFalse result (self.new.left ≡ []) }
        ensures open { self.new.is_open ≡ result }
        ensures known { result ≡ is_some (first_of self.old.files name.now) }
    {
        self.index = index_of(&self.files, name);
        self.place = 0;
        self.index < self.files.len()
    }

    /// Gives the next bytes of the open file, as many as there are and fit.
    pub fn read(&mut self, buf: &mut [u8]) -> usize
        ensures count { result ≡ min (length buf.old) (length self.old.left) }
        ensures given { take result buf.new ≡ take result self.old.left }
        ensures rest { self.new ≡ record self.old { left = drop result self.old.left } }
    {
        if self.index >= self.files.len() {
            return 0;
        }
        let count = copy_from(self.files[self.index].bytes.as_slice(), self.place, buf);
        self.place += count;
        count
    }
}

/// The index of the first file of that name, or the number of files where there is none.
fn index_of(files: &[NamedFile], name: &[u8]) -> usize
    ensures bound { result ≤ length files.now }
    ensures first { find (λ f. bytes_eq f.name name.now) files.now ≡ slice_get files.now result }
{
    position_of(files, name).unwrap_or(files.len())
}

/// The index of the first file of that name, if there is one.
fn position_of(files: &[NamedFile], name: &[u8]) -> Option<usize>
    ensures { result ≡ position (λ f. bytes_eq f.name name.now) files.now }
{
    files.iter().position(|f| f.name.as_slice() == name)
}

/// Copies the bytes from that place on, as many as there are and fit.
fn copy_from(bytes: &[u8], place: usize, buf: &mut [u8]) -> usize
    ensures count { result ≡ min (length buf.old) (length (drop place bytes.now)) }
    ensures given { take result buf.new ≡ take result (drop place bytes.now) }
{
    let rest = &bytes[place.min(bytes.len())..];
    let count = rest.len().min(buf.len());
    buf[..count].copy_from_slice(&rest[..count]);
    count
}
