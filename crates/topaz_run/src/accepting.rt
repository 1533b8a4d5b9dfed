//! Accepting a configuration: what each command begins with that has one.

ghost use Rattle.std.specs.Prelude.{◌≡◌, ◌≢◌, ◌≤◌, IfErr, IfOk, IfSome, IsErrOf, OnOk, Contains};
ghost use Rattle.hv_config.specs.Plain.{IsPlain};
ghost use Rattle.hv_read.specs.Read.{config_flaw, config_said, hardware_flaw};
ghost use Rattle.outside.specs.Fault.{Rose};
ghost use Rattle.outside.specs.Content.{Content};
ghost use Rattle.config_checks.specs.Rules.{first_broken};
ghost use Rattle.topaz_run.specs.declared.setup.Setup.{Setup as SetupValue};
ghost use Rattle.topaz_run.specs.Plan.{Plan, outcome_of, needs_of};
ghost use Rattle.topaz_run.specs.Outcome as spec;
ghost use Rattle.topaz_run.specs.Runs.{bytes_in};
ghost use Rattle.topaz_run.specs.Answers.{GoesOn, Stops};

use crate::read::read_word;
use crate::refuse::{refused_fault, refused_misread};
use crate::setup::Setup;
use crate::status::Stop;
use config_rules::accept;
use hv_config::{Board, Config};
use hv_read::{read_config, read_hardware};
use outside::Files;
use std::alloc::Global;

/// Reads the configuration and the hardware in the files of those names, and accepts the one on the other. However a
/// plan goes on with the two, an early end here is one of the plan.
pub fn read_accepted<F: Files>(
    alloc: Global,
    files: &mut F,
    config: &str,
    hw: &str,
) -> Result<Setup, Stop>
    ensures goes_on { IfOk result (λ setup. IfSome (F.content files.old) (λ content.
        (next : SetupValue → Plan) → GoesOn content (spec.accepting config.now hw.now next) (next setup))) }
    ensures stopped { IfErr result (λ stop. IfSome (F.content files.old) (λ content.
        (next : SetupValue → Plan) → Stops stop (outcome_of content (spec.accepting config.now hw.now next)))) }
    ensures read_fault { IsErrOf result Stop.ReadFault → Rose (F.faults files.old) (F.faults files.new) }
    ensures needed { IsErrOf result Stop.ReadFault → IfSome (F.content files.old) (λ content.
        (next : SetupValue → Plan) → Contains (needs_of content (spec.accepting config.now hw.now next)) (F.blamed files.new)) }
    ensures counted { F.faults files.old ≤ F.faults files.new }
    ensures plain { OnOk result (IfSome (F.content files.old) (λ content. IsPlain (config_said (bytes_in content config.now)))) }
    ensures content { F.content files.new ≡ F.content files.old }
{
    let bytes = read_word(alloc, files, config)?;
    accept_bytes(alloc, files, config, hw, bytes.as_slice())
}

/// Reads the hardware where the configuration's bytes are right, and accepts the configuration.
fn accept_bytes<F: Files>(
    alloc: Global,
    files: &mut F,
    config: &str,
    hw: &str,
    bytes: &[u8],
) -> Result<Setup, Stop>
    ensures goes_on { IfOk result (λ setup. IfSome (F.content files.old) (λ content.
        (next : SetupValue → Plan) → GoesOn content (spec.configured config.now hw.now next bytes.now (config_flaw bytes.now)) (next setup))) }
    ensures stopped { IfErr result (λ stop. IfSome (F.content files.old) (λ content.
        (next : SetupValue → Plan) → Stops stop (outcome_of content (spec.configured config.now hw.now next bytes.now (config_flaw bytes.now))))) }
    ensures read_fault { IsErrOf result Stop.ReadFault → Rose (F.faults files.old) (F.faults files.new) }
    ensures needed { IsErrOf result Stop.ReadFault → IfSome (F.content files.old) (λ content.
        (next : SetupValue → Plan) → Contains (needs_of content (spec.configured config.now hw.now next bytes.now (config_flaw bytes.now))) (F.blamed files.new)) }
    ensures counted { F.faults files.old ≤ F.faults files.new }
    ensures plain { OnOk result (IsPlain (config_said bytes.now)) }
    ensures content { F.content files.new ≡ F.content files.old }
{
    match read_config(alloc, bytes) {
        Ok(said) => accept_config(alloc, files, hw, said),
        Err(misread) => Err(refused_misread(alloc, misread, config)),
    }
}

/// Reads the hardware in the file of that name, and accepts the configuration on it.
fn accept_config<F: Files>(
    alloc: Global,
    files: &mut F,
    hw: &str,
    config: Config,
) -> Result<Setup, Stop>
    requires { IsPlain config }
    ensures goes_on { IfOk result (λ setup. IfSome (F.content files.old) (λ content.
        (next : SetupValue → Plan) → GoesOn content (spec.equipping hw.now next config) (next setup))) }
    ensures stopped { IfErr result (λ stop. IfSome (F.content files.old) (λ content.
        (next : SetupValue → Plan) → Stops stop (outcome_of content (spec.equipping hw.now next config)))) }
    ensures read_fault { IsErrOf result Stop.ReadFault → Rose (F.faults files.old) (F.faults files.new) }
    ensures needed { IsErrOf result Stop.ReadFault → IfSome (F.content files.old) (λ content.
        (next : SetupValue → Plan) → Contains (needs_of content (spec.equipping hw.now next config)) (F.blamed files.new)) }
    ensures counted { F.faults files.old ≤ F.faults files.new }
    ensures content { F.content files.new ≡ F.content files.old }
{
    let bytes = read_word(alloc, files, hw)?;
    accept_on(alloc, hw, config, bytes.as_slice())
}

/// Accepts the configuration on the hardware that the bytes say.
fn accept_on(alloc: Global, hw: &str, config: Config, bytes: &[u8]) -> Result<Setup, Stop>
    requires { IsPlain config }
    ensures goes_on { IfOk result (λ setup.
        (next : SetupValue → Plan) → spec.equipped hw.now next config bytes.now (hardware_flaw bytes.now) ≡ next setup) }
    ensures stopped { IfErr result (λ stop. (content : Content) (next : SetupValue → Plan) →
        Stops stop (outcome_of content (spec.equipped hw.now next config bytes.now (hardware_flaw bytes.now)))) }
    ensures no_fault { IfErr result (λ stop. stop ≢ Stop.ReadFault) }
{
    match read_hardware(alloc, bytes) {
        Ok(board) => accept_rules(alloc, config, board),
        Err(misread) => Err(refused_misread(alloc, misread, hw)),
    }
}

/// Accepts the configuration on the hardware.
pub fn accept_rules(alloc: Global, config: Config, board: Board) -> Result<Setup, Stop>
    requires { IsPlain config }
    ensures goes_on { IfOk result (λ setup.
        (next : SetupValue → Plan) → spec.ruled next config board (first_broken config board) ≡ next setup) }
    ensures stopped { IfErr result (λ stop. (content : Content) (next : SetupValue → Plan) →
        Stops stop (outcome_of content (spec.ruled next config board (first_broken config board)))) }
    ensures no_fault { IfErr result (λ stop. stop ≢ Stop.ReadFault) }
{
    match accept(alloc, config, &board) {
        Ok(accepted) => Ok(Setup { accepted, board }),
        Err(fault) => Err(refused_fault(alloc, fault)),
    }
}
