//! The command `run`.

ghost use Rattle.std.specs.Prelude.{◌≡◌, ◌≢◌, ◌≤◌, map, IfErr, IfOk, IfSome, IsErrOf, OnOk, Contains};
ghost use Rattle.outside.specs.Fault.{Rose};
ghost use Rattle.hv_config.specs.declared.board.Cpu.{Cpu as CpuValue};
ghost use Rattle.hv_config.specs.Plain.{IsPlain};
ghost use Rattle.script.specs.Text.{lines_of};
ghost use Rattle.topaz_run.specs.Words.{most_turns};
ghost use Rattle.topaz_run.specs.Plan.{outcome_of, needs_of};
ghost use Rattle.topaz_run.specs.Outcome as spec;
ghost use Rattle.topaz_run.specs.Runs.{setup_in};
ghost use Rattle.topaz_run.specs.Laws.{AreDescribed};
ghost use Rattle.topaz_run.specs.Answers.{Meets};

use crate::accepting::read_accepted;
use crate::imaging::read_images;
use crate::laws::described_partitions_are_joined;
use crate::read::read_word;
use crate::refuse::refused_script;
use crate::report::report;
use crate::setup::Setup;
use crate::status::Stop;
use crate::telling::Telling;
use config_rules::accepted_keep_parts;
use hv_config::{Board, Cpu};
use machine_desc::{Desc, Wiring};
use outside::{Bytes, Files, Listed, NoMemory};
use script::{Names, Script};
use std::alloc::Global;

/// Accepts the configuration on the hardware as `check` does, reads the images and the script, and answers what the run of
/// so many turns writes.
pub fn run<F: Files>(
    alloc: Global,
    files: &mut F,
    config: &str,
    hw: &str,
    script: &str,
    turns: u64,
) -> Result<Bytes, Stop>
    requires { turns ≤ most_turns }
    ensures answer { IfSome (F.content files.old) (λ content. Meets result (outcome_of content (spec.running config.now hw.now script.now turns))) }
    ensures read_fault { IsErrOf result Stop.ReadFault → Rose (F.faults files.old) (F.faults files.new) }
    ensures needed { IsErrOf result Stop.ReadFault → IfSome (F.content files.old) (λ content.
        Contains (needs_of content (spec.running config.now hw.now script.now turns)) (F.blamed files.new)) }
    ensures plain { OnOk result (IfSome (F.content files.old) (λ content. IsPlain (setup_in content config.now hw.now).accepted)) }
    ensures counted { F.faults files.old ≤ F.faults files.new }
{
    let setup = read_accepted(alloc, files, config, hw)?;
    run_accepted(alloc, files, script, turns, &setup)
}

/// Reads the images and the script, and answers what the run writes.
fn run_accepted<F: Files>(
    alloc: Global,
    files: &mut F,
    script: &str,
    turns: u64,
    setup: &Setup,
) -> Result<Bytes, Stop>
    requires { turns ≤ most_turns }
    ensures answer { IfSome (F.content files.old) (λ content. Meets result (outcome_of content (spec.imaged script.now turns setup.now))) }
    ensures read_fault { IsErrOf result Stop.ReadFault → Rose (F.faults files.old) (F.faults files.new) }
    ensures needed { IsErrOf result Stop.ReadFault → IfSome (F.content files.old) (λ content.
        Contains (needs_of content (spec.imaged script.now turns setup.now)) (F.blamed files.new)) }
    ensures counted { F.faults files.old ≤ F.faults files.new }
{
    let descs = read_images(alloc, files, &setup.accepted)?;
    run_described(alloc, files, script, turns, setup, descs)
}

/// Reads the script, and answers what the run of the described partitions writes.
fn run_described<F: Files>(
    alloc: Global,
    files: &mut F,
    script: &str,
    turns: u64,
    setup: &Setup,
    descs: Listed<Desc>,
) -> Result<Bytes, Stop>
    requires few { turns ≤ most_turns }
    requires described { AreDescribed setup.now.accepted setup.now.accepted.parts descs }
    ensures answer { IfSome (F.content files.old) (λ content. Meets result (outcome_of content (spec.scripted script.now turns setup.now descs))) }
    ensures read_fault { IsErrOf result Stop.ReadFault → Rose (F.faults files.old) (F.faults files.new) }
    ensures needed { IsErrOf result Stop.ReadFault → IfSome (F.content files.old) (λ content.
        Contains (needs_of content (spec.scripted script.now turns setup.now descs)) (F.blamed files.new)) }
    ensures counted { F.faults files.old ≤ F.faults files.new }
{
    let text = read_word(alloc, files, script)?;
    run_script(alloc, Telling::Report, turns, setup, descs, text.as_slice())
}

/// What is written of the run of the described partitions on the script of this text.
pub fn run_script(
    alloc: Global,
    telling: Telling,
    turns: u64,
    setup: &Setup,
    descs: Listed<Desc>,
    text: &[u8],
) -> Result<Bytes, Stop>
    requires few { turns ≤ most_turns }
    requires described { AreDescribed setup.now.accepted setup.now.accepted.parts descs }
    ensures answer { Meets result (spec.reporting telling turns setup.now descs (lines_of text.now)) }
    ensures no_fault { IfErr result (λ stop. stop ≢ Stop.ReadFault) }
{
    described_partitions_are_joined();
    accepted_keep_parts();
    let _config = setup.accepted.config();
    let wiring = setup.accepted.wiring(alloc)?;
    let names = names_for(alloc, &wiring, &setup.board)?;
    match Script::read(alloc, text, &names) {
        Ok(script) => report(alloc, telling, descs.into_vec(), wiring, &script, turns),
        Err(fault) => Err(refused_script(alloc, fault)),
    }
}

/// What a script may name.
fn names_for(alloc: Global, wiring: &Wiring, board: &Board) -> Result<Names, NoMemory>
    ensures { IfOk result (λ names. names ≡ record {
      consoles = wiring.now.consoles;
      cpus = map (λ (cpu : CpuValue). cpu.number) board.now.cpus;
    }) }
{
    Ok(Names {
        consoles: copied(alloc, wiring.consoles.as_slice())?,
        cpus: numbers_of(alloc, board.cpus.as_slice())?,
    })
}

/// The same names.
fn copied(alloc: Global, names: &[Bytes]) -> Result<Listed<Bytes>, NoMemory>
    ensures { IfOk result (λ copies. copies ≡ names.now) }
{
    let mut copies = Listed::new(alloc);
    for name in names {
        copies.push(name.copy(alloc)?)?;
    }
    Ok(copies)
}

/// The numbers of cpus.
fn numbers_of(alloc: Global, cpus: &[Cpu]) -> Result<Listed<u32>, NoMemory>
    ensures { IfOk result (λ numbers. numbers ≡ map (λ (cpu : CpuValue). cpu.number) cpus.now) }
{
    let mut numbers = Listed::new(alloc);
    for cpu in cpus {
        numbers.push(cpu.number)?;
    }
    Ok(numbers)
}
