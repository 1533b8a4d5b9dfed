//! Laws of the definitions. Each is a function with nothing to do, whose contract is the law.

ghost use Rattle.config_rules.specs.Laws.{AcceptedKeepLimits, AcceptedKeepNames, AcceptedKeepParts, BasesAreJoined, CompletedAreJoined};

/// The descriptions of an accepted configuration are joined with its wiring, before and after images and device trees
/// complete them.
pub fn descriptions_are_joined()
    ensures bases { BasesAreJoined }
    ensures completed { CompletedAreJoined }
{}

/// An accepted configuration keeps the limits that its descriptions rest on.
pub fn accepted_keep_limits()
    ensures { AcceptedKeepLimits }
{}

/// Each partition of an accepted configuration keeps its limits, and has a private window for its device tree.
pub fn accepted_keep_parts()
    ensures { AcceptedKeepParts }
{}

/// No partition of an accepted configuration has a name that a line of the program begins with, and no console's name has
/// a blank.
pub fn accepted_keep_names()
    ensures { AcceptedKeepNames }
{}
