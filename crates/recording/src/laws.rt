//! Laws of the definitions. Each is a function with nothing to do, whose contract is the law.

ghost use Rattle.recording.specs.Laws.{AllowedMovesFit, RecordingsGrow, RecordingsTellMoves, ReplaysAreWhole};
ghost use Rattle.recording.specs.Example.{EventsAreKnown, OrderIsKnown};

/// The lone run along the recording of a machine's steps and events makes just these, where each step could be done.
pub fn recordings_tell_moves()
    ensures { RecordingsTellMoves }
{}

/// A recording fits, where each step could be done and each event could be given at its time.
pub fn allowed_moves_fit()
    ensures { AllowedMovesFit }
{}

/// What more moves add to a recording doesn't change what is listed already.
pub fn recordings_grow()
    ensures { RecordingsGrow }
{}

/// A replay of a recording that fits comes to what the lone run along it is, and one is refused exactly where it doesn't
/// fit.
pub fn replays_are_whole()
    ensures { ReplaysAreWhole }
{}

/// Small recordings fit or don't, as they should.
pub fn small_cases_are_known()
    ensures events { EventsAreKnown }
    ensures order { OrderIsKnown }
{}
