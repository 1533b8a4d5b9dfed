//! The report of a run, or its summary.

ghost use Rattle.std.specs.Prelude.{◌≡◌, ◌≢◌, ℕ, ◌≤◌, List, ◌++◌, length, IfErr, IfOk, OnOk};
ghost use Rattle.machine_desc.specs.Joined.{AreJoined};
ghost use Rattle.network.specs.Turn.{run};
ghost use Rattle.network.specs.Report.{end_lines};
ghost use Rattle.system.specs.System.{HaveOneCore};
ghost use Rattle.system.specs.Shown.{Waits};
ghost use Rattle.topaz_run.specs.Words.{most_turns};
ghost use Rattle.topaz_run.specs.Reported.{given_by, head_behind, head_of, told};
ghost use Rattle.topaz_run.specs.Answers.{Meets};

use crate::gathered::Gathered;
use crate::status::Stop;
use crate::telling::Telling;
use crate::text::write_gen;
use crate::turns::{run_turns, waiting_at};
use machine_desc::{Desc, Wiring};
use outside::{Bytes, Failed};
use script::Script;
use std::alloc::Global;
use system::System;

/// Runs the partitions of these descriptions for so many turns, and answers all that is written of them.
pub fn report(
    alloc: Global,
    telling: Telling,
    descs: Vec<Desc>,
    wiring: Wiring,
    script: &Script,
    turns: u64,
) -> Result<Bytes, Stop>
    requires joined { AreJoined descs.items wiring }
    requires cores { HaveOneCore descs.items }
    requires inputs { length script.now.inputs ≡ length wiring.consoles }
    requires few { turns ≤ most_turns }
    ensures answer { Meets result (told telling (record { descs = descs.items; wiring = wiring }) (given_by script.now) turns) }
    ensures no_fault { IfErr result (λ stop. stop ≢ Stop.ReadFault) }
{
    let consoles = wiring.consoles.as_slice().len();
    let mut system = System::build(alloc, descs, wiring)?;
    let mut text = Gathered::new(alloc);
    run_turns(
        &mut system,
        script,
        consoles,
        turns,
        telling.show(),
        &mut text,
    )?;
    count(telling, &system, turns, &mut text)?;
    ended(alloc, telling, &system, script, consoles, turns, text)
}

/// Behind the last turn, the line of a summary.
fn count(telling: Telling, system: &System, turns: u64, text: &mut Gathered) -> Result<(), Failed>
    ensures { OnOk result (text.new.text ≡ head_behind telling turns system.now.tally text.old.text) }
{
    match telling {
        Telling::Report => Ok(()),
        Telling::Summary(number) => write_gen(text, number, turns, system.lines(), system.sent()),
    }
}

/// What is written of a run, of which this text stands before the lines of its end.
fn ended(
    alloc: Global,
    telling: Telling,
    system: &System,
    script: &Script,
    consoles: usize,
    turns: u64,
    text: Gathered,
) -> Result<Bytes, Stop>
    requires system { length system.now.network.wiring.consoles ≡ consoles }
    requires script { length script.now.inputs ≡ consoles }
    requires world { system.now.world ≡ (run system.now.network (given_by script.now) turns).after }
    requires head { text.text ≡ head_of telling system.now.network turns (run system.now.network (given_by script.now) turns).lines }
    ensures answer { Meets result (told telling system.now.network (given_by script.now) turns) }
    ensures no_fault { IfErr result (λ stop. stop ≢ Stop.ReadFault) }
{
    let waiting = waiting_at(alloc, system, script, consoles, turns)?;
    end_text(system, &waiting, text)
}

/// The text, and behind it the lines of the end.
fn end_text(system: &System, waiting: &[u64], text: Gathered) -> Result<Bytes, Stop>
    requires { length waiting.now ≡ length system.now.network.wiring.consoles }
    ensures text { IfOk result (λ bytes. (given : ℕ → List ℕ) → Waits system.now.network given system.now.world waiting.now
        → bytes ≡ text.text ++ end_lines system.now.network given system.now.world) }
    ensures no_fault { IfErr result (λ stop. stop ≡ Stop.NoMemory) }
{
    let mut text = text;
    match system.end_lines(waiting, &mut text) {
        Ok(()) => Ok(text.into_bytes()),
        Err(Failed) => Err(Stop::NoMemory),
    }
}
