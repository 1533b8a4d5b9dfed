//! The isolation theorem. Each law is a function with nothing to do, whose contract is the law.

ghost use Rattle.isolation.specs.Laws.{LinesAreItsOwn, PartitionsAreAlone, RecordingsFit};
ghost use Rattle.isolation.specs.Agreement.{PartitionsAgree};
ghost use Rattle.isolation.specs.Example.{SmallPrintIsKnown, SmallRecordingIsKnown};

/// A partition without shared areas does in the network what its machine does alone along its recording: the machine and
/// what its steps did are the same, on every wiring, with every schedule and all input.
pub fn partitions_are_alone()
    ensures { PartitionsAreAlone }
{}

/// The lines of such a partition in the report, found by its name alone, are what its lone run prints.
pub fn lines_are_its_own()
    ensures { LinesAreItsOwn }
{}

/// Nothing in the recording of such a partition is what its machine could not be given, where the descriptions are joined
/// by their wiring: bytes for which there is no room, a command that its state doesn't allow, and the like.
pub fn recordings_fit()
    ensures { RecordingsFit }
{}

/// After each turn what is outstanding at one end of a channel is what waits at the other, and a manager knows whether its
/// partition runs, where the descriptions are joined.
pub fn partitions_agree()
    ensures { PartitionsAgree }
{}

/// A small run is recorded, and printed, as it should be.
pub fn small_case_is_known()
    ensures recording { SmallRecordingIsKnown }
    ensures print { SmallPrintIsKnown }
{}
