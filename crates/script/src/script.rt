//! Scripts.

ghost use Rattle.std.specs.Prelude.{◌≡◌, ◌<◌, ◌≤◌, [], ◌↔◌, ℕ, None, length, take, OnOk, IfOk, IfErr, IsNone};
ghost use Rattle.script.specs.Text.{lines_of};
ghost use Rattle.script.specs.Course.{course_of, core_in, given_at, bytes_up_to};
ghost use Rattle.script.specs.Fault.{first_broken, Says};

use crate::fault::ScriptFault;
use crate::input::Input;
use crate::names::Names;
use crate::reading::read_lines;
use std::alloc::Global;
use std::marker::Model;

/// In which order the cores have their turns, and which bytes are given to the consoles at which turn.
#[derive(Drop)]
pub struct Script {
    cores: Vec<u32>,
    consoles: Vec<Input>,
}

impl Model for Script {
    ghost use Rattle.script.specs.Course.{Course};

    ghost Value = { Course };

    ghost view = { λ script. record { schedule = script.cores.items; inputs = script.consoles.items } };
}

impl Script {
    /// The script of this schedule, and of what each console is given.
    pub(crate) fn of(cores: Vec<u32>, consoles: Vec<Input>) -> Script
        ensures { result ≡ record { schedule = cores.items; inputs = consoles.items } }
    {
        Script { cores, consoles }
    }

    /// Reads a script. Its text has lines of three forms: an empty one or a comment, `order` and the numbers of cores, and
    /// `at`, a turn, a console's name and bytes in hexadecimal.
    ///
    /// It is refused at the first line that breaks a rule, by the least that it breaks: S1, no such form; S2, no console has
    /// the name; S3, an `order` behind another or behind an `at`; S4, a turn below an earlier one; S5, more than 65,536 lines,
    /// or more than 1,048,576 cores; S6, a core above 31.
    pub fn read(alloc: Global, text: &[u8], names: &Names) -> Result<Script, ScriptFault>
        ensures kept { OnOk result (first_broken names.now (lines_of text.now) ≡ None) }
        ensures said { IfOk result (λ script. script ≡ course_of names.now (lines_of text.now)) }
        ensures refused { IfErr result (λ fault. Says fault (first_broken names.now (lines_of text.now))) }
        ensures consoles { IfOk result (λ script. length script.inputs ≡ length names.now.consoles) }
    {
        let reading = read_lines(alloc, text, names)?;
        let script = reading.into_script(alloc, names)?;
        Ok(script)
    }

    /// The number of the core whose turn it is, counted from 1: the schedule goes round. There is none where the schedule is
    /// empty. Takes the same time for every turn.
    pub fn core_at(&self, turn: u64) -> Option<u32>
        requires { 1 ≤ turn }
        ensures value { result ≡ core_in self.now.schedule turn }
        ensures none { IsNone result ↔ (self.now.schedule ≡ []) }
    {
        let cores = self.cores.as_slice();
        if cores.is_empty() {
            return None;
        }
        Some(cores[((turn - 1) % cores.len() as u64) as usize])
    }

    /// All bytes that the console of this place among the names is given up to that turn, in the order of the lines. They are
    /// a front of what it is given up to a later one.
    pub fn inputs(&self, console: usize, turn: u64) -> &[u8]
        requires { console < length self.now.inputs }
        ensures value { result.now ≡ bytes_up_to turn (given_at console self.now.inputs) }
        ensures front { (later : ℕ) → turn ≤ later
            → result.now ≡ take (length result.now) (bytes_up_to later (given_at console self.now.inputs)) }
    {
        self.consoles[console].up_to(turn)
    }
}
