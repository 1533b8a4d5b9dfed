//! The command `bare`.

ghost use Rattle.std.specs.Prelude.{◌≡◌, ◌≢◌, ◌≤◌, IfErr, IfSome, IsErrOf, Contains};
ghost use Rattle.outside.specs.Fault.{Rose};
ghost use Rattle.topaz_run.specs.Words.{Bare, most_turns};
ghost use Rattle.topaz_run.specs.Plan.{outcome_of, needs_of};
ghost use Rattle.topaz_run.specs.Outcome.{bare, plan_of};
ghost use Rattle.topaz_run.specs.Answers.{Meets};

use crate::built_in::{MEMORY_SIZE, description, names, one, wiring};
use crate::read::read_word;
use crate::refuse::refused;
use crate::report::report;
use crate::status::Stop;
use crate::telling::Telling;
use outside::{Bytes, Files};
use script::Script;
use std::alloc::Global;

/// Reads the image of that name, and answers what its run writes.
pub fn bare<F: Files>(alloc: Global, files: &mut F, image: &str, turns: u64) -> Result<Bytes, Stop>
    requires { turns ≤ most_turns }
    ensures answer { IfSome (F.content files.old) (λ content. Meets result (outcome_of content (plan_of (Bare image.now turns)))) }
    ensures read_fault { IsErrOf result Stop.ReadFault → Rose (F.faults files.old) (F.faults files.new) }
    ensures needed { IsErrOf result Stop.ReadFault → IfSome (F.content files.old) (λ content.
        Contains (needs_of content (plan_of (Bare image.now turns))) (F.blamed files.new)) }
    ensures counted { F.faults files.old ≤ F.faults files.new }
{
    let bytes = read_word(alloc, files, image)?;
    run_image(alloc, image, bytes.as_slice(), turns)
}

/// What the run of an image writes.
#[tactic(auto, unfolding(crate::specs::Outcome::bare))]
fn run_image(alloc: Global, name: &str, image: &[u8], turns: u64) -> Result<Bytes, Stop>
    requires { turns ≤ most_turns }
    ensures answer { Meets result (bare name.now turns image.now) }
    ensures no_fault { IfErr result (λ stop. stop ≢ Stop.ReadFault) }
{
    if image.len() > MEMORY_SIZE as usize {
        return Err(refused(alloc, "I4", name));
    }
    let descs = one(alloc, description(alloc, image)?)?;
    let wiring = wiring(alloc)?;
    let names = names(alloc)?;
    match Script::read(alloc, b"", &names) {
        Ok(script) => report(
            alloc,
            Telling::Report,
            descs.into_vec(),
            wiring,
            &script,
            turns,
        ),
        // No line of an empty script breaks a rule.
        Err(_fault) => Err(Stop::NoMemory),
    }
}
