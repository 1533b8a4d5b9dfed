//! The command `gen`.

ghost use Rattle.std.specs.Prelude.{◌≡◌, ◌≢◌, ◌≤◌, IfErr, IfOk};
ghost use Rattle.gen_load.specs.Bundle.{IsBundleOf};
ghost use Rattle.gen_load.specs.Draws.{count_of};
ghost use Rattle.gen_load.specs.Files.{images_of, script_text};
ghost use Rattle.outside.specs.Content.{Content};
ghost use Rattle.topaz_run.specs.declared.setup.Setup.{Setup as SetupValue};
ghost use Rattle.topaz_run.specs.Words.{most_turns};
ghost use Rattle.topaz_run.specs.Plan.{Plan, outcome_of};
ghost use Rattle.topaz_run.specs.Outcome as spec;
ghost use Rattle.topaz_run.specs.Answers.{Meets, Stops};

use crate::accepting::accept_rules;
use crate::imaging::read_images;
use crate::run::run_script;
use crate::setup::Setup;
use crate::status::Stop;
use crate::telling::Telling;
use gen_load::{Bundle, generate};
use hv_config::{hardware, parse};
use outside::{Bytes, Listed, NamedFile, SureFiles};
use std::alloc::Global;

/// Makes the bundle of the number, takes it through what the files of a run go through, and answers the summary of its run
/// for so many turns.
pub fn generated(alloc: Global, number: u64, turns: u64) -> Result<Bytes, Stop>
    requires { turns ≤ most_turns }
    ensures answer { Meets result (spec.generated number turns) }
    ensures no_fault { IfErr result (λ stop. stop ≢ Stop.ReadFault) }
{
    let bundle = generate(alloc, number)?;
    let setup = accept_bundle(alloc, number, &bundle)?;
    let Bundle { images, script, .. } = bundle;
    run_bundle(alloc, number, turns, &setup, images, script.as_slice())
}

/// Accepts the bundle's configuration on its hardware.
fn accept_bundle(alloc: Global, number: u64, bundle: &Bundle) -> Result<Setup, Stop>
    requires { IsBundleOf number bundle.now }
    ensures goes_on { IfOk result (λ setup. (next : SetupValue → Plan) → spec.ruling (count_of number) next ≡ next setup) }
    ensures stopped { IfErr result (λ stop. (content : Content) (next : SetupValue → Plan) →
        Stops stop (outcome_of content (spec.ruling (count_of number) next))) }
    ensures no_fault { IfErr result (λ stop. stop ≢ Stop.ReadFault) }
{
    match (
        parse(alloc, &bundle.config),
        hardware(alloc, &bundle.hardware),
    ) {
        (Ok(config), Ok(board)) => accept_rules(alloc, config, board),
        // Neither tree breaks a rule.
        _ => Err(Stop::NoMemory),
    }
}

/// Reads the bundle's images by their names, and answers the summary of the run on its script.
fn run_bundle(
    alloc: Global,
    number: u64,
    turns: u64,
    setup: &Setup,
    images: Listed<NamedFile>,
    script: &[u8],
) -> Result<Bytes, Stop>
    requires few { turns ≤ most_turns }
    requires images { images ≡ images_of number }
    requires script { script.now ≡ script_text number }
    ensures answer { Meets result (outcome_of (spec.files_of number) (spec.supplied number turns setup.now)) }
    ensures no_fault { IfErr result (λ stop. stop ≢ Stop.ReadFault) }
{
    let mut files = SureFiles::new(images.into_vec());
    let descs = read_images(alloc, &mut files, &setup.accepted)?;
    run_script(alloc, Telling::Summary(number), turns, setup, descs, script)
}
