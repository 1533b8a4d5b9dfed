//! The lines behind the last turn.

ghost use Rattle.std.specs.Prelude.{◌≡◌};
ghost use Rattle.outside.specs.Pieces.{Writes};
ghost use Rattle.trace_text.specs.Ends as spec;

use itoa::Buffer;
use machine_desc::State;
use outside::{Failed, Sink, write_pieces};

/// Appends the line of a partition's state after so many own steps.
///
/// Fails only where the sink does, which then has taken a front of the line.
pub fn end_line<S: Sink>(out: &mut S, name: &[u8], state: State, step: u64) -> Result<(), Failed>
    ensures { Writes result (S.taken out.old) (S.taken out.new) (S.faults out.old) (S.faults out.new)
        (spec.end_line name.now (spec.state_word state) step) }
{
    end_line_of(out, name, state_word(state), step)
}

/// The line of the state of that word.
fn end_line_of<S: Sink>(out: &mut S, name: &[u8], state: &[u8], step: u64) -> Result<(), Failed>
    ensures { Writes result (S.taken out.old) (S.taken out.new) (S.faults out.old) (S.faults out.new)
        (spec.end_line name.now state.now step) }
{
    let mut digits = Buffer::new();
    write_pieces(
        out,
        &[
            b"end ",
            name,
            b" ",
            state,
            b" ",
            digits.format(step).as_bytes(),
            b"\n",
        ],
    )
}

/// The word for whether a partition does steps.
fn state_word(state: State) -> &'static [u8]
    ensures { result.now ≡ spec.state_word state }
{
    match state {
        State::Running => b"running",
        State::Stopped => b"stopped",
        State::Faulted => b"faulted",
    }
}

/// Appends the line of a console: how many bytes it printed, how many entered it and how many wait.
///
/// Fails only where the sink does, which then has taken a front of the line.
pub fn console_line<S: Sink>(
    out: &mut S,
    name: &[u8],
    printed: u64,
    entered: u64,
    waiting: u64,
) -> Result<(), Failed>
    ensures { Writes result (S.taken out.old) (S.taken out.new) (S.faults out.old) (S.faults out.new)
        (spec.console_line name.now printed entered waiting) }
{
    let mut printed_digits = Buffer::new();
    let mut entered_digits = Buffer::new();
    let mut waiting_digits = Buffer::new();
    write_pieces(
        out,
        &[
            b"console ",
            name,
            b" ",
            printed_digits.format(printed).as_bytes(),
            b" ",
            entered_digits.format(entered).as_bytes(),
            b" ",
            waiting_digits.format(waiting).as_bytes(),
            b"\n",
        ],
    )
}
