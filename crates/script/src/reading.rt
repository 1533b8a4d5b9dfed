//! Reading one line after another.

ghost use Rattle.std.specs.Prelude.{◌≡◌, ◌<◌, [], None, true, length, IfOk, IfErr, OnOk};
ghost use Rattle.script.specs.Text.{lines_of};
ghost use Rattle.script.specs.Course.{given_by_lines, given_at};
ghost use Rattle.script.specs.Kept.{kept_of};
ghost use Rattle.script.specs.Steps.{with_given, after_skipped, after_order, after_input, after_line, script_of, is_up_to, CanBeKept, IsKept};
ghost use Rattle.script.specs.Fault as spec;
ghost use Rattle.script.specs.Meaning as meaning;

use crate::fault::ScriptFault;
use crate::form::LAST_CORE;
use crate::input::Input;
use crate::line::Line;
use crate::lines::Lines;
use crate::meaning::meaning_of;
use crate::names::Names;
use crate::script::Script;
use outside::{Listed, NoMemory};
use std::alloc::Global;
use std::marker::Model;

/// How many lines a script may have.
const MOST_LINES: u32 = 65_536;

/// How many cores an `order` may have.
const MOST_CORES: usize = 1_048_576;

/// What is kept of the lines that were read.
#[derive(Drop)]
pub struct Reading {
    place: u32,
    latest: u64,
    order: Option<Listed<u32>>,
    inputs: Vec<Input>,
}

impl Model for Reading {
    ghost use Rattle.std.specs.Prelude.{◌≤◌};
    ghost use Rattle.script.specs.Kept.{Kept};

    ghost Value = { Kept };

    ghost view = { λ r. record { place = r.place; latest = r.latest; order = r.order; inputs = r.inputs.items } };

    ghost invariant = { λ r. r.place ≤ 65536 };
}

/// So many consoles that are given nothing.
#[tactic(auto, unfolding(crate::specs::Course::given_by_lines))]
fn no_inputs(alloc: Global, consoles: usize) -> Result<Vec<Input>, NoMemory>
    ensures { IfOk result (λ inputs. inputs.items ≡ given_by_lines consoles []) }
{
    let mut inputs = Vec::new(alloc);
    for _console in 0..consoles {
        inputs.push(Input::new(alloc))?;
    }
    Ok(inputs)
}

/// Gives the bytes to the console of that place.
fn give(inputs: &mut [Input], place: usize, turn: u64, bytes: &[u8]) -> Result<(), NoMemory>
    requires within { place < length inputs.old }
    requires turns { is_up_to turn (given_at place inputs.old) ≡ true }
    ensures { OnOk result (inputs.new ≡ with_given place (record { turn = turn; bytes = bytes.now }) inputs.old) }
{
    inputs[place].give(turn, bytes)
}

/// Whether one of the cores has too high a number.
fn is_above(cores: &[u32]) -> bool
    ensures { result ≡ spec.is_above cores.now }
{
    cores.iter().any(|core| LAST_CORE < *core)
}

impl Reading {
    /// Nothing was read yet.
    #[tactic(auto, unfolding(crate::specs::Kept::kept_of))]
    fn new(alloc: Global, names: &Names) -> Result<Reading, NoMemory>
        ensures { IfOk result (λ reading. reading ≡ kept_of names.now []) }
    {
        let inputs = no_inputs(alloc, names.consoles.as_slice().len())?;
        Ok(Reading {
            place: 0,
            latest: 0,
            order: None,
            inputs,
        })
    }

    /// The least rule that the line breaks by what it says.
    #[tactic(auto, unfolding(crate::specs::Fault::fault_of))]
    fn fault_of(&self, line: &Option<Line>) -> Option<u8>
        ensures { result ≡ spec.fault_of self.now line.now }
    {
        match line {
            None => Some(1),
            Some(Line::Skipped) => self.late_fault(),
            Some(Line::Order(cores)) => self.order_fault(cores.as_slice()),
            Some(
                Line::At {
                    turn,
                    console,
                    bytes: _,
                },
            ) => self.input_fault(*turn, *console),
        }
    }

    /// The rule that any line breaks here.
    fn late_fault(&self) -> Option<u8>
        ensures { result ≡ spec.late_fault self.now }
    {
        if MOST_LINES <= self.place {
            Some(5)
        } else {
            None
        }
    }

    /// The least rule that an `order` breaks.
    fn order_fault(&self, cores: &[u32]) -> Option<u8>
        ensures { result ≡ spec.order_fault self.now cores.now }
    {
        if self.order.is_some() || 0 < self.latest {
            Some(3)
        } else if MOST_LINES <= self.place || MOST_CORES < cores.len() {
            Some(5)
        } else if is_above(cores) {
            Some(6)
        } else {
            None
        }
    }

    /// The least rule that an `at` breaks.
    fn input_fault(&self, turn: u64, console: Option<usize>) -> Option<u8>
        ensures { result ≡ spec.input_fault self.now turn console }
    {
        if console.is_none() {
            Some(2)
        } else if turn < self.latest {
            Some(4)
        } else {
            self.late_fault()
        }
    }

    /// Keeps a line that says nothing.
    fn skip(&mut self)
        requires { self.old.place < 65536 }
        ensures { self.new ≡ after_skipped self.old }
    {
        self.place += 1;
    }

    /// Keeps an `order`.
    fn take_order(&mut self, cores: Listed<u32>)
        requires { self.old.place < 65536 }
        ensures { self.new ≡ after_order self.old cores }
    {
        self.place += 1;
        self.order = Some(cores);
    }

    /// Keeps an `at`.
    fn take_input(&mut self, turn: u64, place: usize, bytes: &[u8]) -> Result<(), NoMemory>
        requires few { self.old.place < 65536 }
        requires within { place < length self.old.inputs }
        requires turns { is_up_to turn (given_at place self.old.inputs) ≡ true }
        ensures { OnOk result (self.new ≡ after_input self.old turn place bytes.now) }
    {
        give(&mut self.inputs, place, turn, bytes)?;
        self.place += 1;
        self.latest = turn;
        Ok(())
    }

    /// Keeps what a line says that breaks no rule.
    #[tactic(auto, unfolding(crate::specs::Steps::after_line))]
    fn take(&mut self, line: Option<Line>) -> Result<(), NoMemory>
        requires { CanBeKept self.old line }
        ensures { OnOk result (self.new ≡ after_line self.old line) }
    {
        match line {
            None => Ok(()),
            Some(Line::Skipped) => {
                self.skip();
                Ok(())
            }
            Some(Line::Order(cores)) => {
                self.take_order(cores);
                Ok(())
            }
            Some(
                Line::At {
                    turn,
                    console,
                    bytes,
                },
            ) => match console {
                Some(place) => self.take_input(turn, place, bytes.as_slice()),
                None => Ok(()),
            },
        }
    }

    /// Reads one line more, of a script that may name these.
    fn read_line(&mut self, alloc: Global, names: &Names, line: &[u8]) -> Result<(), ScriptFault>
        requires { IsKept (length names.now.consoles) self.old }
        ensures fine { OnOk result (spec.broken_by self.old (meaning.meaning_of names.now line.now) ≡ None) }
        ensures after { OnOk result (self.new ≡ after_line self.old (meaning.meaning_of names.now line.now)) }
        ensures broken { IfErr result (λ fault. spec.Says fault (spec.broken_by self.old (meaning.meaning_of names.now line.now))) }
    {
        let said = meaning_of(alloc, names, line)?;
        if let Some(number) = self.fault_of(&said) {
            return Err(ScriptFault::Rule {
                number,
                line: self.place + 1,
            });
        }
        self.take(said)?;
        Ok(())
    }

    /// The script that was read.
    pub fn into_script(self, alloc: Global, names: &Names) -> Result<Script, NoMemory>
        ensures { IfOk result (λ script. script ≡ script_of names.now self) }
    {
        let Reading {
            place: _,
            latest: _,
            order,
            inputs,
        } = self;
        let schedule = match order {
            Some(cores) => cores.into_vec(),
            None => names.cpus.as_slice().to_vec(alloc)?,
        };
        Ok(Script::of(schedule, inputs))
    }
}

/// Reads all lines of the text.
pub fn read_lines(alloc: Global, text: &[u8], names: &Names) -> Result<Reading, ScriptFault>
    ensures kept { OnOk result (spec.first_broken names.now (lines_of text.now) ≡ None) }
    ensures value { IfOk result (λ reading. reading ≡ kept_of names.now (lines_of text.now)) }
    ensures broken { IfErr result (λ fault. spec.Says fault (spec.first_broken names.now (lines_of text.now))) }
{
    let mut reading = Reading::new(alloc, names)?;
    let mut lines = Lines::of(text);
    while let Some(line) = lines.next() {
        reading.read_line(alloc, names, line)?;
    }
    Ok(reading)
}
