//! Refusals, as early ends of a command.

ghost use Rattle.std.specs.Prelude.{◌≡◌, ◌≢◌};
ghost use Rattle.topaz_run.specs.Plan.{refusal};
ghost use Rattle.topaz_run.specs.Outcome.{blob_rule, rule_text, script_rule};
ghost use Rattle.topaz_run.specs.Text.{line_place};
ghost use Rattle.topaz_run.specs.Answers.{RefusesFault, RefusesImage, RefusesMisread, RefusesScript, Stops};

use crate::gathered::Gathered;
use crate::status::Stop;
use crate::text::{write_refused_blob, write_refused_rule, write_refused_script};
use elf_image::ImageFault;
use hv_config::{Fault, Rule};
use hv_read::Misread;
use outside::Failed;
use script::ScriptFault;
use std::alloc::Global;
use trace_text::refused_line;

/// The rule is broken at the word.
pub fn refused(alloc: Global, rule: &str, word: &str) -> Stop
    ensures refusal { Stops result (refusal rule.now word.now) }
    ensures no_fault { result ≢ Stop.ReadFault }
{
    refused_at(alloc, rule, word.as_bytes())
}

/// The rule is broken at the place.
pub fn refused_at(alloc: Global, rule: &str, place: &[u8]) -> Stop
    ensures refusal { Stops result (refusal rule.now place.now) }
    ensures no_fault { result ≢ Stop.ReadFault }
{
    let mut text = Gathered::new(alloc);
    match refused_line(&mut text, rule.as_bytes(), place) {
        Ok(()) => Stop::Refused(text.into_bytes()),
        Err(Failed) => Stop::NoMemory,
    }
}

/// The blob in the file breaks its rule of that number.
pub fn refused_blob(alloc: Global, rule: u8, file: &str) -> Stop
    ensures refusal { Stops result (refusal (blob_rule rule) file.now) }
    ensures no_fault { result ≢ Stop.ReadFault }
{
    let mut text = Gathered::new(alloc);
    match write_refused_blob(&mut text, rule, file.as_bytes()) {
        Ok(()) => Stop::Refused(text.into_bytes()),
        Err(Failed) => Stop::NoMemory,
    }
}

/// The rule is broken at the node with the path.
fn refused_rule(alloc: Global, rule: Rule, at: &[u8]) -> Stop
    ensures refusal { Stops result (refusal (rule_text rule) at.now) }
    ensures no_fault { result ≢ Stop.ReadFault }
{
    let mut text = Gathered::new(alloc);
    match write_refused_rule(&mut text, rule, at) {
        Ok(()) => Stop::Refused(text.into_bytes()),
        Err(Failed) => Stop::NoMemory,
    }
}

/// The configuration is refused by the fault.
pub fn refused_fault(alloc: Global, fault: Fault) -> Stop
    ensures refusal { RefusesFault fault result }
    ensures no_fault { result ≢ Stop.ReadFault }
{
    match fault {
        Fault::Broken { rule, at } => refused_rule(alloc, rule, at.as_slice()),
        Fault::NoMemory => Stop::NoMemory,
    }
}

/// The image is refused by the fault, at the place of its partition.
pub fn refused_image(alloc: Global, fault: ImageFault, place: &[u8]) -> Stop
    ensures refusal { RefusesImage place.now fault result }
    ensures no_fault { result ≢ Stop.ReadFault }
{
    match fault {
        ImageFault::Rule(number) => refused_rule(
            alloc,
            Rule {
                letter: b'I',
                number,
            },
            place,
        ),
        ImageFault::NoMemory => Stop::NoMemory,
    }
}

/// The script is refused by the fault.
pub fn refused_script(alloc: Global, fault: ScriptFault) -> Stop
    ensures refusal { RefusesScript fault result }
    ensures no_fault { result ≢ Stop.ReadFault }
{
    match fault {
        ScriptFault::Rule { number, line } => refused_line_of(alloc, number, line),
        ScriptFault::NoMemory => Stop::NoMemory,
    }
}

/// The script breaks its rule of that number at the line.
fn refused_line_of(alloc: Global, rule: u8, line: u32) -> Stop
    ensures refusal { Stops result (refusal (script_rule rule) (line_place line)) }
    ensures no_fault { result ≢ Stop.ReadFault }
{
    let mut text = Gathered::new(alloc);
    match write_refused_script(&mut text, rule, line) {
        Ok(()) => Stop::Refused(text.into_bytes()),
        Err(Failed) => Stop::NoMemory,
    }
}

/// The file with that name isn't read.
pub fn refused_misread(alloc: Global, misread: Misread, file: &str) -> Stop
    ensures refusal { RefusesMisread file.now misread result }
    ensures no_fault { result ≢ Stop.ReadFault }
{
    match misread {
        Misread::Blob(rule) => refused_blob(alloc, rule, file),
        Misread::Broken { rule, at } => refused_rule(alloc, rule, at.as_slice()),
        Misread::NoMemory => Stop::NoMemory,
    }
}
