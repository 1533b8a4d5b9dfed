//! The command `dtb`.

ghost use Rattle.std.specs.Prelude.{◌≡◌, ◌≢◌, ◌≤◌, IfErr, IfSome, IsErrOf, Contains};
ghost use Rattle.outside.specs.Fault.{Rose};
ghost use Rattle.dt_model.specs.Fit.{Fits};
ghost use Rattle.dt_model.specs.Canonical.{canonical};
ghost use Rattle.topaz_run.specs.Words.{Dtb};
ghost use Rattle.topaz_run.specs.Plan.{outcome_of, needs_of};
ghost use Rattle.topaz_run.specs.Outcome.{dtb, writing, plan_of};
ghost use Rattle.topaz_run.specs.Answers.{Meets};

use crate::read::read_word;
use crate::refuse::refused_blob;
use crate::status::Stop;
use dt_model::Tree;
use dt_read::{BlobFault, read};
use dt_write::{WriteFault, write};
use outside::{Bytes, Files};
use std::alloc::Global;

/// The rule of a blob that is too large.
const TOO_LARGE: u8 = 4;

/// Reads the blob in the file of that name, and answers the canonical blob of its tree.
pub fn dtb<F: Files>(alloc: Global, files: &mut F, file: &str) -> Result<Bytes, Stop>
    ensures answer { IfSome (F.content files.old) (λ content. Meets result (outcome_of content (plan_of (Dtb file.now)))) }
    ensures read_fault { IsErrOf result Stop.ReadFault → Rose (F.faults files.old) (F.faults files.new) }
    ensures needed { IsErrOf result Stop.ReadFault → IfSome (F.content files.old) (λ content.
        Contains (needs_of content (plan_of (Dtb file.now))) (F.blamed files.new)) }
    ensures counted { F.faults files.old ≤ F.faults files.new }
{
    let bytes = read_word(alloc, files, file)?;
    rewrite(alloc, file, bytes.as_slice())
}

/// The canonical blob of the tree that a blob holds.
fn rewrite(alloc: Global, name: &str, blob: &[u8]) -> Result<Bytes, Stop>
    ensures answer { Meets result (dtb name.now blob.now) }
    ensures no_fault { IfErr result (λ stop. stop ≢ Stop.ReadFault) }
{
    match read(alloc, blob) {
        Ok(tree) => write_tree(alloc, name, &tree),
        Err(BlobFault::Rule(rule)) => Err(refused_blob(alloc, rule, name)),
        Err(BlobFault::NoMemory) => Err(Stop::NoMemory),
    }
}

/// The canonical blob of a tree.
fn write_tree(alloc: Global, name: &str, tree: &Tree) -> Result<Bytes, Stop>
    requires { Fits tree.now }
    ensures answer { Meets result (writing name.now (canonical tree.now)) }
    ensures no_fault { IfErr result (λ stop. stop ≢ Stop.ReadFault) }
{
    match write(alloc, tree) {
        Ok(blob) => Ok(Bytes::from_vec(blob)),
        Err(WriteFault::TooLarge) => Err(refused_blob(alloc, TOO_LARGE, name)),
        Err(WriteFault::NoMemory) => Err(Stop::NoMemory),
    }
}
