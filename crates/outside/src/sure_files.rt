//! Files in memory of which no call fails.

ghost use Rattle.std.specs.Prelude.{◌≡◌, ℕ, ◌≤◌, Bool, true, false, List, [], min, length, Option, Ok, Some, IsErrOf, IsOk, OnOk, OnErr};
ghost use Rattle.std.specs.Result.{result_unwrap_or};
ghost use Rattle.std.specs.Io.{ReadsAtMost};
ghost use Rattle.std.specs.Io.KnownBytes.{ReadConsumes};
ghost use Rattle.outside.specs.Fault.{Rose, BlamesNone};
ghost use Rattle.outside.specs.Content.{Content, cut, StandsAt};
ghost use Rattle.outside.specs.SureFiles.{faults_of, blamed_of, sure_content, after_open, after_read};

use crate::fault::{Failed, OpenFault};
use crate::files::Files;
use crate::name::Name;
use crate::named_file::NamedFile;
use crate::shelf::Shelf;
use std::marker::Model;

/// Files in memory of which no call fails: a name that the list lacks opens as an empty file. Of two files
/// of one name the first counts.
#[derive(Drop)]
pub struct SureFiles {
    shelf: Shelf,
    asked: Name,
    // The shelf has no file open where the name is unknown; here an empty one is.
    is_open: bool,
}

impl Model for SureFiles {
    ghost use Rattle.outside.specs.SureFiles.{FilesForSure};

    ghost Value = { FilesForSure };

    ghost view = { λ s. record { files = s.shelf.files; asked = s.asked; is_open = s.is_open; left = s.shelf.left } };
}

impl SureFiles {
    /// The files of the list.
    pub fn new(list: Vec<NamedFile>) -> SureFiles
        ensures { result ≡ record { files = list.items; asked = []; is_open = false; left = [] } }
    {
        SureFiles {
            shelf: Shelf::new(list),
            asked: Name::empty(),
            is_open: false,
        }
    }
}

impl Files for SureFiles {
    ghost faults = { faults_of };

    ghost asked = { λ s. s.asked };

    ghost blamed = { blamed_of };

    ghost content = { λ s. Some (sure_content s) };

    ghost is_open = { λ s. s.is_open };

    ghost left = { λ s. Some s.left };

    fn open_file(&mut self, name: &str) -> Result<(), OpenFault>
        ensures counted { faults_of self.old ≤ faults_of self.new }
        ensures failed { IsErrOf result OpenFault.Failed → Rose (faults_of self.old) (faults_of self.new) }
        ensures no_memory { IsErrOf result OpenFault.NoMemory → faults_of self.new ≡ faults_of self.old }
        ensures asked { self.new.asked ≡ cut name.now }
        ensures blamed { IsErrOf result OpenFault.Failed → blamed_of self.new ≡ cut name.now }
        ensures unblamed { BlamesNone result (blamed_of self.old) (blamed_of self.new) }
        ensures content { Some (sure_content self.new) ≡ Some (sure_content self.old) }
        ensures opened { OnOk result (self.new.is_open ≡ true) }
        ensures placed { OnOk result (StandsAt (Some (sure_content self.old)) name.now (Some self.new.left)) }
        ensures closed { OnErr result (self.new.is_open ≡ false) }
        ensures nothing_left { OnErr result (Some self.new.left ≡ Some []) }

        // It never fails, and this is what it leaves.
        ensures succeeds { IsOk result }
        ensures after { self.new ≡ after_open self.old name.now }
    {
        self.asked = Name::cut(name.as_bytes());
        let _is_known = self.shelf.open(name.as_bytes());
        self.is_open = true;
        Ok(())
    }

    fn read(&mut self, buf: &mut [u8]) -> Result<usize, Failed>
        ensures bound { ReadsAtMost result buf.new }
        ensures bytes { ReadConsumes (Some self.old.left) (Some self.new.left) result buf.new }
        ensures open { self.new.is_open ≡ self.old.is_open }
        ensures counted { faults_of self.old ≤ faults_of self.new }
        ensures failed { OnErr result (Rose (faults_of self.old) (faults_of self.new)) }
        ensures asked { self.new.asked ≡ self.old.asked }
        ensures blamed { OnErr result (blamed_of self.new ≡ self.old.asked) }
        ensures unblamed { OnOk result (blamed_of self.new ≡ blamed_of self.old) }
        ensures content { Some (sure_content self.new) ≡ Some (sure_content self.old) }

        // It never fails, and this is how much it gives and what it leaves.
        ensures count { result ≡ Ok (min (length buf.old) (length self.old.left)) }
        ensures after { self.new ≡ after_read self.old (result_unwrap_or result 0) }
    {
        Ok(self.shelf.read(buf))
    }
}
