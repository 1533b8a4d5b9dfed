//! The turns of a run.

ghost use Rattle.std.specs.Prelude.{◌≡◌, ℕ, ◌≤◌, ◌<◌, ◌+◌, ◌-◌, true, [], length, IfOk, OnOk};
ghost use Rattle.outside.specs.Pieces.{Writes};
ghost use Rattle.partition.specs.Machine.{most_steps};
ghost use Rattle.network.specs.World.{opening_world};
ghost use Rattle.network.specs.Entering.{enter, enter_all, waiting};
ghost use Rattle.network.specs.Turn.{given_at, run, turn};
ghost use Rattle.network.specs.Laws.{are_at_rest};
ghost use Rattle.network.specs.Tally.{after_lines, no_tally, tally_of};
ghost use Rattle.system.specs.Shown.{Waits, shown};
ghost use Rattle.topaz_run.specs.Words.{most_turns};
ghost use Rattle.topaz_run.specs.Reported.{given_by};
ghost use Rattle.topaz_run.specs.Turns.{AllEntered, StepsAtMost};

use crate::gathered::Gathered;
use network::resting_networks_stay;
use outside::{Failed, NoMemory, Sink};
use script::Script;
use std::alloc::Global;
use system::{Show, System};

/// How many turns pass from one look to the next at whether anything can still happen.
const LOOK: u64 = 4096;

/// How many bytes wait at a console: of all that it is given up to a turn, those that haven't entered.
fn waiting_bytes<'a>(system: &System, script: &'a Script, console: usize, turn: u64) -> &'a [u8]
    requires system { console < length system.now.network.wiring.consoles }
    requires script { console < length script.now.inputs }
    ensures { result.now ≡ waiting (given_at (given_by script.now) turn console) system.now.world.consoles console }
{
    let given = script.inputs(console, turn);
    let entered = system.entered(console);
    if entered < given.len() as u64 {
        &given[entered as usize..]
    } else {
        &[]
    }
}

/// Of the bytes that wait at a console at a turn as many enter as there is room for.
fn enter_at(system: &mut System, script: &Script, console: usize, turn: u64)
    requires system { console < length system.old.network.wiring.consoles }
    requires script { console < length script.now.inputs }
    ensures { system.new ≡ record system.old {
      world = (enter system.old.network console (waiting (given_at (given_by script.now) turn console) system.old.world.consoles console) system.old.world).after;
    } }
{
    let bytes = waiting_bytes(system, script, console, turn);
    if !bytes.is_empty() {
        system.enter(console, bytes);
    }
}

/// The same at each of the consoles, in their order.
fn enter_everywhere(system: &mut System, script: &Script, consoles: usize, turn: u64)
    requires system { length system.old.network.wiring.consoles ≡ consoles }
    requires script { length script.now.inputs ≡ consoles }
    ensures { system.new ≡ record system.old {
      world = (enter_all system.old.network (given_at (given_by script.now) turn) 0 consoles system.old.world).after;
    } }
{
    for console in 0..consoles {
        enter_at(system, script, console, turn);
    }
}

/// Does the turn of this number, and writes the line of what was done in it, if it is to be shown.
fn do_turn<S: Sink>(
    system: &mut System,
    script: &Script,
    consoles: usize,
    number: u64,
    show: Show,
    out: &mut S,
) -> Result<(), Failed>
    requires system { length system.old.network.wiring.consoles ≡ consoles }
    requires script { length script.now.inputs ≡ consoles }
    requires counted { 1 ≤ number }
    requires few { StepsAtMost (number - 1) system.old.world }
    requires small { number ≤ most_turns }
    ensures network { system.new.network ≡ system.old.network }
    ensures world { system.new.world ≡ (turn system.old.network (given_by script.now) number system.old.world).after }
    ensures lines { Writes result (S.taken out.old) (S.taken out.new) (S.faults out.old) (S.faults out.new)
        (shown show system.old.network (turn system.old.network (given_by script.now) number system.old.world).lines) }
    ensures tally { system.new.tally ≡ after_lines (turn system.old.network (given_by script.now) number system.old.world).lines system.old.tally }
    ensures steps { StepsAtMost number system.new.world }
{
    enter_everywhere(system, script, consoles, number);
    match script.core_at(number) {
        Some(core) => system.turn(core, show, out),
        None => Ok(()),
    }
}

/// Whether nothing can happen any more: no partition runs, and all that is given up to the last turn has entered.
fn rests(system: &System, script: &Script, consoles: usize, turns: u64) -> bool
    requires system { length system.now.network.wiring.consoles ≡ consoles }
    requires script { length script.now.inputs ≡ consoles }
    ensures rest { result ≡ true → are_at_rest system.now.world.machines ≡ true }
    ensures entered { result ≡ true → AllEntered (given_at (given_by script.now) turns) system.now.world consoles }
{
    if !system.is_at_rest() {
        return false;
    }
    for console in 0..consoles {
        if !waiting_bytes(system, script, console, turns).is_empty() {
            return false;
        }
    }
    true
}

/// Does so many turns, from the first on, and gathers the lines of what was done in them, if they are to be shown.
pub fn run_turns(
    system: &mut System,
    script: &Script,
    consoles: usize,
    turns: u64,
    show: Show,
    text: &mut Gathered,
) -> Result<(), Failed>
    requires opening { system.old.world ≡ opening_world system.old.network }
    requires tally { system.old.tally ≡ no_tally }
    requires empty { text.old.text ≡ [] }
    requires system { length system.old.network.wiring.consoles ≡ consoles }
    requires script { length script.now.inputs ≡ consoles }
    requires few { turns ≤ most_turns }
    ensures network { system.new.network ≡ system.old.network }
    ensures world { OnOk result (system.new.world ≡ (run system.old.network (given_by script.now) turns).after) }
    ensures lines { OnOk result (text.new.text ≡ shown show system.old.network (run system.old.network (given_by script.now) turns).lines) }
    ensures tally { OnOk result (system.new.tally ≡ tally_of (run system.old.network (given_by script.now) turns).lines) }
{
    resting_networks_stay();
    for done in 0..turns {
        if done % LOOK == 0 && rests(system, script, consoles, turns) {
            break;
        }
        do_turn(system, script, consoles, done + 1, show, text)?;
    }
    Ok(())
}

/// How many bytes wait at each console behind the last turn.
pub fn waiting_at(
    alloc: Global,
    system: &System,
    script: &Script,
    consoles: usize,
    turns: u64,
) -> Result<Vec<u64>, NoMemory>
    requires system { length system.now.network.wiring.consoles ≡ consoles }
    requires script { length script.now.inputs ≡ consoles }
    ensures count { IfOk result (λ waiting. length waiting.items ≡ consoles) }
    ensures waiting { IfOk result (λ waiting. Waits system.now.network (given_at (given_by script.now) turns) system.now.world waiting.items) }
{
    let mut waiting = Vec::with_capacity(alloc, consoles)?;
    for console in 0..consoles {
        waiting.push(waiting_bytes(system, script, console, turns).len() as u64)?;
    }
    Ok(waiting)
}
