//! The command `check`.

ghost use Rattle.std.specs.Prelude.{◌≡◌, ◌≢◌, ◌≤◌, IfErr, IfSome, IsErrOf, Contains};
ghost use Rattle.outside.specs.Fault.{Rose};
ghost use Rattle.topaz_run.specs.Plan.{outcome_of, needs_of};
ghost use Rattle.topaz_run.specs.Outcome as spec;
ghost use Rattle.topaz_run.specs.Answers.{Meets};

use crate::accepting::read_accepted;
use crate::gathered::Gathered;
use crate::status::Stop;
use crate::text::write_accepted;
use hv_config::Config;
use outside::{Bytes, Files};
use std::alloc::Global;

/// Reads the configuration and the hardware in the files of those names, and answers whether the one is accepted on
/// the other.
pub fn check<F: Files>(alloc: Global, files: &mut F, config: &str, hw: &str) -> Result<Bytes, Stop>
    ensures answer { IfSome (F.content files.old) (λ content. Meets result (outcome_of content (spec.checking config.now hw.now))) }
    ensures read_fault { IsErrOf result Stop.ReadFault → Rose (F.faults files.old) (F.faults files.new) }
    ensures needed { IsErrOf result Stop.ReadFault → IfSome (F.content files.old) (λ content.
        Contains (needs_of content (spec.checking config.now hw.now)) (F.blamed files.new)) }
    ensures counted { F.faults files.old ≤ F.faults files.new }
{
    let setup = read_accepted(alloc, files, config, hw)?;
    numbers(alloc, setup.accepted.config())
}

/// The numbers of an accepted configuration.
fn numbers(alloc: Global, config: &Config) -> Result<Bytes, Stop>
    ensures answer { Meets result (spec.numbers config.now) }
    ensures no_fault { IfErr result (λ stop. stop ≢ Stop.ReadFault) }
{
    let mut text = Gathered::new(alloc);
    let parts = config.parts.as_slice().len();
    let areas = config.areas.as_slice().len();
    let channels = config.channels.as_slice().len();
    let bells = config.bells.as_slice().len();
    write_accepted(&mut text, parts, areas, channels, bells)?;
    Ok(text.into_bytes())
}
