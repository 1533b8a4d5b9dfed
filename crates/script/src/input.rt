//! What a console is given.

ghost use Rattle.std.specs.Prelude.{◌≡◌, ◌≤◌, ◌∷◌, [], ◌++◌, ℕ, true, false, nat_le, length, take, OnOk};
ghost use Rattle.std.specs.List.Sorted.{IsNonDecreasingBy, IsPartitionPoint};
ghost use Rattle.script.specs.Course as spec;
ghost use Rattle.script.specs.Steps.{is_up_to};
ghost use Rattle.script.specs.Marked.{given_by_marks, AreMarks};

use outside::NoMemory;
use std::alloc::Global;
use std::marker::Model;

/// Where the bytes of a line begin among all bytes of its console.
#[derive(Clone, Copy)]
pub struct Mark {
    /// From this turn on they are there.
    pub turn: u64,
    /// The place of their first byte.
    pub start: usize,
}

/// All that a console is given, its bytes joined. Contracts see the list of what it is given, each with its turn.
#[derive(Drop)]
pub struct Input {
    bytes: Vec<u8>,
    marks: Vec<Mark>,
}

impl Model for Input {
    ghost use Rattle.std.specs.Prelude.{List, length};
    ghost use Rattle.script.specs.Course.{Given};
    ghost use Rattle.script.specs.Marked.{given_by_marks, AreMarks};

    ghost Value = { List Given };

    ghost view = { λ input. given_by_marks input.marks.items input.bytes.items };

    ghost invariant = { λ input. AreMarks input.marks.items (length input.bytes.items) };
}

/// How many of the marks are of that turn or an earlier one.
fn count_up_to(marks: &[Mark], turn: u64) -> usize
    requires { IsNonDecreasingBy (λ mark. mark.turn) marks.now }
    ensures { IsPartitionPoint (λ mark. nat_le mark.turn turn ≡ true) (λ mark. nat_le mark.turn turn ≡ false) marks.now result }
{
    marks.partition_point(|mark| mark.turn <= turn)
}

/// The bytes of the marks of that turn or an earlier one.
fn bytes_up_to<'a>(marks: &[Mark], bytes: &'a [u8], turn: u64) -> &'a [u8]
    requires { AreMarks marks.now (length bytes.now) }
    ensures { result.now ≡ spec.bytes_up_to turn (given_by_marks marks.now bytes.now) }
{
    let count = count_up_to(marks, turn);
    if count < marks.len() {
        &bytes[..marks[count].start]
    } else {
        bytes
    }
}

impl Input {
    /// Nothing is given.
    pub fn new(alloc: Global) -> Input
        ensures { result ≡ [] }
    {
        Input {
            bytes: Vec::new(alloc),
            marks: Vec::new(alloc),
        }
    }

    /// Gives the bytes at the turn, which no earlier one is above.
    pub fn give(&mut self, turn: u64, bytes: &[u8]) -> Result<(), NoMemory>
        requires { is_up_to turn self.old ≡ true }
        ensures { OnOk result (self.new ≡ self.old ++ record { turn = turn; bytes = bytes.now } ∷ []) }
    {
        let start = self.bytes.as_slice().len();
        self.marks.push(Mark { turn, start })?;
        self.bytes.extend_from_slice(bytes)?;
        Ok(())
    }

    /// All bytes up to that turn.
    pub fn up_to(&self, turn: u64) -> &[u8]
        ensures value { result.now ≡ spec.bytes_up_to turn self.now }
        ensures front { (later : ℕ) → turn ≤ later → result.now ≡ take (length result.now) (spec.bytes_up_to later self.now) }
    {
        bytes_up_to(self.marks.as_slice(), self.bytes.as_slice(), turn)
    }
}
