//! Reading what a line says.

ghost use Rattle.std.specs.Prelude.{◌≡◌, IfOk};
ghost use Rattle.script.specs.Meaning as spec;

use crate::form::{bytes_of, core_of, turn_of};
use crate::line::Line;
use crate::names::Names;
use crate::words::Words;
use outside::{Listed, NoMemory};
use std::alloc::Global;

/// The place of the first console of that name.
fn console_of(names: &Names, word: &[u8]) -> Option<usize>
    ensures { result ≡ spec.console_of names.now word.now }
{
    let consoles = names.consoles.as_slice();
    consoles.iter().position(|name| name.as_slice() == word)
}

/// The cores that all of the words name.
fn cores_of(alloc: Global, mut words: Words) -> Result<Option<Listed<u32>>, NoMemory>
    ensures { IfOk result (λ found. found ≡ spec.cores_of words.entry) }
{
    let mut cores = Listed::new(alloc);
    while let Some(word) = words.next() {
        match core_of(word) {
            Some(core) => cores.push(core)?,
            None => return Ok(None),
        }
    }
    Ok(Some(cores))
}

/// What a line says whose first word is `order`, by its other words.
#[tactic(auto, unfolding(crate::specs::Meaning::order_of))]
fn order_of(alloc: Global, words: Words) -> Result<Option<Line>, NoMemory>
    ensures { IfOk result (λ found. found ≡ spec.order_of words.entry) }
{
    if words.are_none() {
        return Ok(None);
    }
    match cores_of(alloc, words)? {
        Some(cores) => Ok(Some(Line::Order(cores))),
        None => Ok(None),
    }
}

/// What a line says whose first word is `at`, by its other words.
#[tactic(auto, unfolding(crate::specs::Meaning::at_of))]
fn at_of(alloc: Global, names: &Names, mut words: Words) -> Result<Option<Line>, NoMemory>
    ensures { IfOk result (λ found. found ≡ spec.at_of names.now words.entry) }
{
    let Some(turn) = words.next() else {
        return Ok(None);
    };
    let Some(console) = words.next() else {
        return Ok(None);
    };
    let Some(bytes) = words.next() else {
        return Ok(None);
    };
    if !words.are_none() || console.is_empty() {
        return Ok(None);
    }
    input_of(alloc, names, turn, console, bytes)
}

/// What the three words of an `at` say.
fn input_of(
    alloc: Global,
    names: &Names,
    turn: &[u8],
    console: &[u8],
    bytes: &[u8],
) -> Result<Option<Line>, NoMemory>
    ensures { IfOk result (λ found. found ≡ spec.input_of names.now turn.now console.now bytes.now) }
{
    let Some(turn) = turn_of(turn) else {
        return Ok(None);
    };
    match bytes_of(alloc, bytes)? {
        Some(bytes) => Ok(Some(Line::At {
            turn,
            console: console_of(names, console),
            bytes,
        })),
        None => Ok(None),
    }
}

/// What a line of these words says.
#[tactic(auto, unfolding(crate::specs::Meaning::said_by))]
fn said_by(alloc: Global, names: &Names, mut words: Words) -> Result<Option<Line>, NoMemory>
    ensures { IfOk result (λ found. found ≡ spec.said_by names.now words.entry) }
{
    let Some(word) = words.next() else {
        return Ok(None);
    };
    if word == b"order".as_slice() {
        order_of(alloc, words)
    } else if word == b"at".as_slice() {
        at_of(alloc, names, words)
    } else {
        Ok(None)
    }
}

/// Whether the line says nothing.
fn is_skipped(line: &[u8]) -> bool
    ensures { result ≡ spec.is_skipped line.now }
{
    line.is_empty() || line[0] == b'#'
}

/// What the line says, if it has a form.
#[tactic(auto, unfolding(crate::specs::Meaning::meaning_of))]
pub fn meaning_of(alloc: Global, names: &Names, line: &[u8]) -> Result<Option<Line>, NoMemory>
    ensures { IfOk result (λ found. found ≡ spec.meaning_of names.now line.now) }
{
    if is_skipped(line) {
        return Ok(Some(Line::Skipped));
    }
    said_by(alloc, names, Words::of(line))
}
