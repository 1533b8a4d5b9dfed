//! Reading a file that a command needs.

ghost use Rattle.std.specs.Prelude.{◌≡◌, ℕ, ◌≤◌, List, length, IfOk, IfErr, IfSome, IsErrOf};
ghost use Rattle.outside.specs.Fault.{Rose};
ghost use Rattle.outside.specs.Content.{cut};
ghost use Rattle.outside.specs.Limit.{file_limit};
ghost use Rattle.topaz_run.specs.Plan.{Plan, Opens, outcome_of};
ghost use Rattle.topaz_run.specs.Answers.{Stops, IsRead};

use crate::refuse::refused_at;
use crate::status::Stop;
use outside::{Bytes, FileFault, Files, read_all};
use std::alloc::Global;

/// The bytes of the file of that name. Where it is too long, F1 is broken at the place. However a plan goes on that opens the
/// file, an early end here is one of the plan.
pub fn read_file<F: Files>(
    alloc: Global,
    files: &mut F,
    name: &str,
    place: &[u8],
) -> Result<Bytes, Stop>
    ensures read { IfOk result (λ bytes. IfSome (F.content files.old) (λ content. IsRead content name.now bytes)) }
    ensures short { IfOk result (λ bytes. length bytes ≤ file_limit) }
    ensures stopped { IfErr result (λ stop. IfSome (F.content files.old) (λ content.
        (next : List ℕ → Plan) → Stops stop (outcome_of content (Opens name.now place.now next)))) }
    ensures read_fault { IsErrOf result Stop.ReadFault → Rose (F.faults files.old) (F.faults files.new) }
    ensures blamed { IsErrOf result Stop.ReadFault → F.blamed files.new ≡ cut name.now }
    ensures counted { F.faults files.old ≤ F.faults files.new }
    ensures content { F.content files.new ≡ F.content files.old }
{
    match read_all(alloc, files, name) {
        Ok(bytes) => Ok(Bytes::from_vec(bytes)),
        Err(FileFault::TooLong) => Err(refused_at(alloc, "F1", place)),
        Err(FileFault::Fault) => Err(Stop::ReadFault),
        Err(FileFault::NoMemory) => Err(Stop::NoMemory),
    }
}

/// The bytes of the file that a word of the command line names, which is its place.
pub fn read_word<F: Files>(alloc: Global, files: &mut F, word: &str) -> Result<Bytes, Stop>
    ensures read { IfOk result (λ bytes. IfSome (F.content files.old) (λ content. IsRead content word.now bytes)) }
    ensures stopped { IfErr result (λ stop. IfSome (F.content files.old) (λ content.
        (next : List ℕ → Plan) → Stops stop (outcome_of content (Opens word.now word.now next)))) }
    ensures read_fault { IsErrOf result Stop.ReadFault → Rose (F.faults files.old) (F.faults files.new) }
    ensures blamed { IsErrOf result Stop.ReadFault → F.blamed files.new ≡ cut word.now }
    ensures counted { F.faults files.old ≤ F.faults files.new }
    ensures content { F.content files.new ≡ F.content files.old }
{
    read_file(alloc, files, word, word.as_bytes())
}
