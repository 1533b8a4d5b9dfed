//! Laws of the definitions. Each is a function with nothing to do, whose contract is the law.

ghost use Rattle.network.specs.Laws.{ActLinesAgree, LinesAreOwn, OthersLeaveAlone, PartitionsFollowMoves, RestingNetworksStay};
ghost use Rattle.network.specs.Example.{ReceiversAreKnown, ReservationsAreKnown, SharedBytesAreKnown, SmallRunIsKnown};

/// The machine and the trace of a partition without shared areas are those of its own steps and events, on every wiring,
/// schedule and input. What others do to areas leaves its machine as it is.
pub fn partitions_follow_their_own_moves()
    ensures own { PartitionsFollowMoves }
    ensures others { OthersLeaveAlone }
{}

/// The lines of such a partition in the report, found by its name alone, are the text of its own steps and of its end.
pub fn lines_are_of_own_moves()
    ensures { LinesAreOwn }
{}

/// Where no partition runs and nothing waits that could enter, so many further turns pass.
pub fn resting_networks_stay()
    ensures { RestingNetworksStay }
{}

/// The line that the program writes of an act is the one that is defined here.
pub fn act_lines_are_those_of_the_definition()
    ensures { ActLinesAgree }
{}

/// Small cases come out as they should: a run, the receivers of a ring, the bytes and the reservations of a shared area.
pub fn small_cases_are_known()
    ensures run { SmallRunIsKnown }
    ensures receivers { ReceiversAreKnown }
    ensures bytes { SharedBytesAreKnown }
    ensures reservations { ReservationsAreKnown }
{}
