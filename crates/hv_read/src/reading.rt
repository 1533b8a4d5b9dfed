//! Reading.

ghost use Rattle.std.specs.Prelude.{◌≡◌, None, IfErr, IfOk, OnOk};
ghost use Rattle.hv_config.specs.Plain.{IsPlain};
ghost use Rattle.hv_config.specs.Rule.{first_broken};
ghost use Rattle.hv_config.specs.Meaning.{config_of as config_word};
ghost use Rattle.hv_config.specs.Hardware.{first_broken_hardware, board_of as board_word};
ghost use Rattle.dt_model.specs.Blob.{IsBlobOf};
ghost use Rattle.dt_model.specs.Fit.{Fits};
ghost use Rattle.dt_model.specs.Fault.{first_fault};
ghost use Rattle.hv_read.specs.Read as spec;

use crate::misread::Misread;
use dt_model::Tree;
use dt_read::{BlobFault, read};
use hv_config::{Board, Config, Fault, hardware, parse};
use std::alloc::Global;

/// The tree that the bytes are a blob of.
fn read_tree(alloc: Global, blob: &[u8]) -> Result<Tree, Misread>
    ensures tree { IfOk result (λ tree. IsBlobOf blob.now tree) }
    ensures sound { OnOk result (first_fault blob.now ≡ None) }
    ensures broken { IfErr result (λ misread. spec.TellsBlob misread (first_fault blob.now)) }
{
    match read(alloc, blob) {
        Ok(tree) => Ok(tree),
        Err(BlobFault::Rule(rule)) => Err(Misread::Blob(rule)),
        Err(BlobFault::NoMemory) => Err(Misread::NoMemory),
    }
}

/// Why a tree that breaks a rule isn't read.
fn misread_of(fault: Fault) -> Misread
    ensures { spec.SameFault fault result }
{
    match fault {
        Fault::Broken { rule, at } => Misread::Broken { rule, at },
        Fault::NoMemory => Misread::NoMemory,
    }
}

/// The configuration that the tree says.
fn config_of(alloc: Global, tree: &Tree) -> Result<Config, Misread>
    ensures kept { OnOk result (first_broken tree.now ≡ None) }
    ensures value { IfOk result (λ config. config ≡ config_word tree.now) }
    ensures plain { Fits tree.now → IfOk result (λ config. IsPlain config) }
    ensures broken { IfErr result (λ misread. spec.TellsTree misread (first_broken tree.now)) }
{
    match parse(alloc, tree) {
        Ok(config) => Ok(config),
        Err(fault) => Err(misread_of(fault)),
    }
}

/// The hardware that the tree says.
fn board_of(alloc: Global, tree: &Tree) -> Result<Board, Misread>
    ensures kept { OnOk result (first_broken_hardware tree.now ≡ None) }
    ensures value { IfOk result (λ board. board ≡ board_word tree.now) }
    ensures broken { IfErr result (λ misread. spec.TellsTree misread (first_broken_hardware tree.now)) }
{
    match hardware(alloc, tree) {
        Ok(board) => Ok(board),
        Err(fault) => Err(misread_of(fault)),
    }
}

/// The configuration that the tree in a blob says. It is refused by the first of the rules B1 to B14 that the bytes
/// break, in reading order, or else by the least number of C1 to C4, at the first node in document order that breaks
/// it.
pub fn read_config(alloc: Global, blob: &[u8]) -> Result<Config, Misread>
    ensures kept { OnOk result (spec.config_flaw blob.now ≡ None) }
    ensures value { IfOk result (λ config. config ≡ spec.config_said blob.now) }
    ensures plain { IfOk result (λ config. IsPlain config) }
    ensures broken { IfErr result (λ misread. spec.Tells misread (spec.config_flaw blob.now)) }
{
    match read_tree(alloc, blob) {
        Ok(tree) => config_of(alloc, &tree),
        Err(misread) => Err(misread),
    }
}

/// The hardware that the tree in a blob says. It is refused by the first of the rules B1 to B14 that the bytes break,
/// in reading order, or else by the least number of H1 to H4, at the first node in document order that breaks it.
pub fn read_hardware(alloc: Global, blob: &[u8]) -> Result<Board, Misread>
    ensures kept { OnOk result (spec.hardware_flaw blob.now ≡ None) }
    ensures value { IfOk result (λ board. board ≡ spec.board_said blob.now) }
    ensures broken { IfErr result (λ misread. spec.Tells misread (spec.hardware_flaw blob.now)) }
{
    match read_tree(alloc, blob) {
        Ok(tree) => board_of(alloc, &tree),
        Err(misread) => Err(misread),
    }
}
