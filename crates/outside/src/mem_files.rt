//! Files in memory.

ghost use Rattle.std.specs.Prelude.{◌≡◌, ℕ, ◌≤◌, Bool, true, false, List, [], min, length, Option, Some, IsErrOf, IfOk, IfErr, OnOk, OnErr, is_err};
ghost use Rattle.std.specs.Result.{result_unwrap_or};
ghost use Rattle.std.specs.Io.{ReadsAtMost};
ghost use Rattle.std.specs.Io.KnownBytes.{ReadConsumes};
ghost use Rattle.outside.specs.Fault.{raised, Rose, BlamesNone};
ghost use Rattle.outside.specs.Content.{Content, cut, StandsAt};
ghost use Rattle.outside.specs.MemFiles.{FilesInMemory, content_of, fails_to_open, fails_to_read, after_open, after_read};

use crate::count::{is_listed, raised};
use crate::fault::{Failed, OpenFault};
use crate::files::Files;
use crate::name::Name;
use crate::named_file::NamedFile;
use crate::shelf::Shelf;
use std::marker::Model;

/// Files in memory, for tests. A call fails exactly where its number, counted from 1 over both calls, is
/// among those that were given, or where no file has the opened name. Of two files of one name the first
/// counts.
#[derive(Drop)]
pub struct MemFiles {
    shelf: Shelf,
    fail: Vec<u64>,
    calls: u64,
    faults: u64,
    asked: Name,
    blamed: Name,
}

impl Model for MemFiles {
    ghost use Rattle.outside.specs.MemFiles.{FilesInMemory};

    ghost Value = { FilesInMemory };

    ghost view = { λ m. record {
      files = m.shelf.files;
      fail = m.fail.items;
      calls = m.calls;
      faults = m.faults;
      asked = m.asked;
      blamed = m.blamed;
      is_open = m.shelf.is_open;
      left = m.shelf.left;
    } };
}

impl MemFiles {
    /// The files of the list, with the numbers of the calls that are to fail.
    pub fn new(list: Vec<NamedFile>, fail: Vec<u64>) -> MemFiles
        ensures { result ≡ record {
          files = list.items;
          fail = fail.items;
          calls = 0;
          faults = 0;
          asked = [];
          blamed = [];
          is_open = false;
          left = [];
        } }
    {
        MemFiles {
            shelf: Shelf::new(list),
            fail,
            calls: 0,
            faults: 0,
            asked: Name::empty(),
            blamed: Name::empty(),
        }
    }

    /// Counts a call, and says whether it is to fail.
    fn count_call(&mut self) -> bool
        ensures fails { result ≡ fails_to_read self.old }
        ensures counted { self.new ≡ record self.old { calls = raised self.old.calls } }
    {
        self.calls = raised(self.calls);
        is_listed(&self.fail, self.calls)
    }

    /// Counts a fault, at the name last asked for.
    fn count_fault(&mut self)
        ensures counted { self.new ≡ record self.old { faults = raised self.old.faults; blamed = self.old.asked } }
        ensures rises { self.old.faults ≤ self.new.faults }
    {
        self.faults = raised(self.faults);
        self.blamed = self.asked.copy();
    }
}

impl Files for MemFiles {
    ghost faults = { λ m. m.faults };

    ghost asked = { λ m. m.asked };

    ghost blamed = { λ m. m.blamed };

    ghost content = { λ m. Some (content_of m) };

    ghost is_open = { λ m. m.is_open };

    ghost left = { λ m. Some m.left };

    fn open_file(&mut self, name: &str) -> Result<(), OpenFault>
        ensures counted { self.old.faults ≤ self.new.faults }
        ensures failed { IsErrOf result OpenFault.Failed → Rose self.old.faults self.new.faults }
        ensures no_memory { IsErrOf result OpenFault.NoMemory → self.new.faults ≡ self.old.faults }
        ensures asked { self.new.asked ≡ cut name.now }
        ensures blamed { IsErrOf result OpenFault.Failed → self.new.blamed ≡ cut name.now }
        ensures unblamed { BlamesNone result self.old.blamed self.new.blamed }
        ensures content { Some (content_of self.new) ≡ Some (content_of self.old) }
        ensures opened { OnOk result (self.new.is_open ≡ true) }
        ensures placed { OnOk result (StandsAt (Some (content_of self.old)) name.now (Some self.new.left)) }
        ensures closed { OnErr result (self.new.is_open ≡ false) }
        ensures nothing_left { OnErr result (Some self.new.left ≡ Some []) }

        // Exactly when it fails, and what it leaves.
        ensures fails { is_err result ≡ fails_to_open self.old name.now }
        ensures fault { IfErr result (λ fault. fault ≡ OpenFault.Failed) }
        ensures after { self.new ≡ after_open self.old name.now }
    {
        self.asked = Name::cut(name.as_bytes());
        let fails = self.count_call();
        self.shelf.close();
        if fails || !self.shelf.open(name.as_bytes()) {
            self.count_fault();
            return Err(OpenFault::Failed);
        }
        Ok(())
    }

    fn read(&mut self, buf: &mut [u8]) -> Result<usize, Failed>
        ensures bound { ReadsAtMost result buf.new }
        ensures bytes { ReadConsumes (Some self.old.left) (Some self.new.left) result buf.new }
        ensures open { self.new.is_open ≡ self.old.is_open }
        ensures counted { self.old.faults ≤ self.new.faults }
        ensures failed { OnErr result (Rose self.old.faults self.new.faults) }
        ensures asked { self.new.asked ≡ self.old.asked }
        ensures blamed { OnErr result (self.new.blamed ≡ self.old.asked) }
        ensures unblamed { OnOk result (self.new.blamed ≡ self.old.blamed) }
        ensures content { Some (content_of self.new) ≡ Some (content_of self.old) }

        // Exactly when it fails, how much it gives else, and what it leaves.
        ensures fails { is_err result ≡ fails_to_read self.old }
        ensures count { IfOk result (λ n. n ≡ min (length buf.old) (length self.old.left)) }
        ensures after { self.new ≡ after_read self.old (result_unwrap_or result 0) }
    {
        if self.count_call() {
            self.count_fault();
            return Err(Failed);
        }
        Ok(self.shelf.read(buf))
    }
}
