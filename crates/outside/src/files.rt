//! Files to read, as a trait.

ghost use Rattle.std.specs.Prelude.{◌≡◌, ℕ, ◌≤◌, Bool, true, false, List, [], Option, Some, IsErrOf, OnOk, OnErr};
ghost use Rattle.std.specs.Io.{ReadsAtMost};
ghost use Rattle.std.specs.Io.KnownBytes.{ReadConsumes};
ghost use Rattle.outside.specs.Fault.{Rose, BlamesNone};
ghost use Rattle.outside.specs.Content.{Content, cut, StandsAt};

use crate::fault::{Failed, OpenFault};

/// Files that are opened by name and read one at a time, from their start.
pub trait Files {
    /// How many faults there were. It stands still at 2^64 - 1.
    ghost faults: { Self → ℕ };

    /// The name last asked for, cut to its first 4,096 bytes; empty at first.
    ghost asked: { Self → List ℕ };

    /// The name last asked for at the last fault; empty at first.
    ghost blamed: { Self → List ℕ };

    /// What the files contain, where that is told.
    ghost content: { Self → Option Content };

    /// Whether a file is open.
    ghost is_open: { Self → Bool };

    /// What is left of the open file, where that is told. Of no open file nothing is left.
    ghost left: { Self → Option (List ℕ) };

    /// Opens the file of that name at its start, and closes the one that was open. After an answer
    /// that isn't Ok no file is open.
    fn open_file(&mut self, name: &str) -> Result<(), OpenFault>
        ensures counted { faults self.old ≤ faults self.new }
        ensures failed { IsErrOf result OpenFault.Failed → Rose (faults self.old) (faults self.new) }
        ensures no_memory { IsErrOf result OpenFault.NoMemory → faults self.new ≡ faults self.old }
        ensures asked { asked self.new ≡ cut name.now }
        ensures blamed { IsErrOf result OpenFault.Failed → blamed self.new ≡ cut name.now }
        ensures unblamed { BlamesNone result (blamed self.old) (blamed self.new) }
        ensures content { content self.new ≡ content self.old }
        ensures opened { OnOk result (is_open self.new ≡ true) }
        ensures placed { OnOk result (StandsAt (content self.old) name.now (left self.new)) }
        ensures closed { OnErr result (is_open self.new ≡ false) }
        ensures nothing_left { OnErr result (left self.new ≡ Some []) };

    /// Gives the next bytes of the open file: 0 for a buffer that isn't empty means its end, or that no
    /// file is open. A failed read keeps its place.
    fn read(&mut self, buf: &mut [u8]) -> Result<usize, Failed>
        ensures bound { ReadsAtMost result buf.new }
        ensures bytes { ReadConsumes (left self.old) (left self.new) result buf.new }
        ensures open { is_open self.new ≡ is_open self.old }
        ensures counted { faults self.old ≤ faults self.new }
        ensures failed { OnErr result (Rose (faults self.old) (faults self.new)) }
        ensures asked { asked self.new ≡ asked self.old }
        ensures blamed { OnErr result (blamed self.new ≡ asked self.old) }
        ensures unblamed { OnOk result (blamed self.new ≡ blamed self.old) }
        ensures content { content self.new ≡ content self.old };
}
