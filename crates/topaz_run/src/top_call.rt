//! The top call.

ghost use Rattle.std.specs.Prelude.{◌≡◌, ◌≢◌, ℕ, ◌≤◌, ◌↔◌, ◌⊎◌, List, map, length, None, IsErrOf, IfOk, OnOk, IfSome, MatchResult, string_bytes, Contains};
ghost use Rattle.outside.specs.Fault.{Rose};
ghost use Rattle.outside.specs.Taken.{AppendsFront};
ghost use Rattle.topaz_run.specs.Words.{KeepsLimits, command_of};
ghost use Rattle.topaz_run.specs.Plan.{Done, outcome_of, needs_of};
ghost use Rattle.topaz_run.specs.Outcome.{plan_of, outcome, needs, text_of};
ghost use Rattle.topaz_run.specs.Answers.{IsAnswerTo, Flushes, LeavesSink, Meets};
ghost use Rattle.topaz_run.specs.Runs.{WritesRun, ReadsPlain};
ghost use Rattle.topaz_run.specs.Meant.{meant};

use crate::bare::bare;
use crate::check::check;
use crate::command::Command;
use crate::deliver::deliver;
use crate::dtb::dtb;
use crate::generated::generated;
use crate::guest::guest;
use crate::laws::done_runs_print_alone;
use crate::run::run;
use crate::status::{Status, Stop};
use crate::words::command;
use outside::{Bytes, Failed, Files, Sink};
use std::alloc::Global;

/// Does what the words ask for.
pub fn topaz<F: Files, S: Sink>(
    alloc: Global,
    words: &[String],
    files: &mut F,
    out: &mut S,
) -> Status
    // The status and the bytes written are those of the outcome.
    ensures answer { IfSome (F.content files.old) (λ content.
        IsAnswerTo result (S.taken out.old) (S.taken out.new) (outcome (map string_bytes words.now) content)) }
    ensures flushed { Flushes result (S.is_flushed out.new) }

    // A run that is done writes its report, in which each partition without shared areas prints what its lone machine does.
    ensures run { result ≡ Status.Ok → IfSome (F.content files.old) (λ content.
        WritesRun (command_of (map string_bytes words.now)) content (S.taken out.old) (S.taken out.new)) }

    // The causes of the other answers.
    ensures usage { result ≡ Status.Usage ↔ (command_of (map string_bytes words.now) ≡ None) }
    ensures untouched { LeavesSink result out.old out.new }
    ensures read_fault { result ≡ Status.ReadFault → Rose (F.faults files.old) (F.faults files.new) }
    ensures needed { result ≡ Status.ReadFault → IfSome (F.content files.old) (λ content.
        Contains (needs (map string_bytes words.now) content) (F.blamed files.new)) }
    ensures write_fault { result ≡ Status.WriteFault → Rose (S.faults out.old) (S.faults out.new) }
    ensures front { result ≡ Status.WriteFault → IfSome (F.content files.old) (λ content.
        AppendsFront (S.taken out.old) (S.taken out.new) (text_of (outcome (map string_bytes words.now) content))) }
    ensures files_counted { F.faults files.old ≤ F.faults files.new }
    ensures sink_counted { S.faults out.old ≤ S.faults out.new }

    // What breaks no rule is done, unless a count rose or memory ran out.
    ensures complete { IfSome (F.content files.old) (λ content. (text : List ℕ) → outcome (map string_bytes words.now) content ≡ Done text
        → ¬ Rose (F.faults files.old) (F.faults files.new) → ¬ Rose (S.faults out.old) (S.faults out.new)
        → (result ≡ Status.Ok) ⊎ (result ≡ Status.NoMemory)) }
    ensures sure { IfSome (F.content files.old) (λ content. (n : ℕ) → length (text_of (outcome (map string_bytes words.now) content)) ≤ n
        → S.SurelyTakes out.old n → (S.faults out.new ≡ S.faults out.old) × (result ≢ Status.WriteFault)) }
{
    done_runs_print_alone();
    let Some(command) = command(words) else {
        return Status::Usage;
    };
    match answer(alloc, command, files) {
        Ok(text) => status_of(deliver(out, text.as_slice()), Status::Ok),
        Err(Stop::Refused(text)) => status_of(deliver(out, text.as_slice()), Status::Refused),
        Err(Stop::ReadFault) => Status::ReadFault,
        Err(Stop::NoMemory) => Status::NoMemory,
    }
}

/// Does the command, up to the writing.
fn answer<F: Files>(alloc: Global, command: Command<'_>, files: &mut F) -> Result<Bytes, Stop>
    requires { KeepsLimits (meant command) }
    ensures answer { IfSome (F.content files.old) (λ content. Meets result (outcome_of content (plan_of (meant command.entry)))) }
    ensures read_fault { IsErrOf result Stop.ReadFault → Rose (F.faults files.old) (F.faults files.new) }
    ensures needed { IsErrOf result Stop.ReadFault → IfSome (F.content files.old) (λ content.
        Contains (needs_of content (plan_of (meant command.entry))) (F.blamed files.new)) }
    ensures plain { OnOk result (IfSome (F.content files.old) (λ content. ReadsPlain (meant command.entry) content)) }
    ensures counted { F.faults files.old ≤ F.faults files.new }
{
    match command {
        Command::Bare { image, turns } => bare(alloc, files, image, turns),
        Command::Dtb { file } => dtb(alloc, files, file),
        Command::Check { config, hw } => check(alloc, files, config, hw),
        Command::Guest { config, hw, name } => guest(alloc, files, config, hw, name),
        Command::Run {
            config,
            hw,
            script,
            turns,
        } => run(alloc, files, config, hw, script, turns),
        Command::Gen { number, turns } => generated(alloc, number, turns),
    }
}

/// What a delivery makes of the status.
fn status_of(delivered: Result<(), Failed>, status: Status) -> Status
    ensures { MatchResult delivered (λ _. result ≡ status) (λ _. result ≡ Status.WriteFault) }
{
    match delivered {
        Ok(()) => status,
        Err(Failed) => Status::WriteFault,
    }
}
