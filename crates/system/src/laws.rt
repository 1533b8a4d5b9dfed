//! Laws of the definitions. Each is a function with nothing to do, whose contract is the law.

ghost use Rattle.system.specs.Channels.{EnteredBytesCome, SentBytesCome, TakenBytesAreFreed};
ghost use Rattle.system.specs.Opening.{PartitionsOpenFresh};

/// One channel is one for its two ends: what the one sends comes to the other, what the one takes is no longer outstanding
/// at the other, and no third handle sees anything of it.
pub fn channels_have_two_ends()
    ensures sent { SentBytesCome }
    ensures taken { TakenBytesAreFreed }
    ensures entered { EnteredBytesCome }
{}

/// Before the first turn each partition's handles are those of its description, and nothing waits or is outstanding.
pub fn partitions_open_fresh()
    ensures { PartitionsOpenFresh }
{}
