//! Laws of the definitions. Each is a function with nothing to do, whose contract is the law.

ghost use Rattle.hv_read.specs.Laws.{BlobsSayTheirTree};

/// A blob says the configuration and the hardware that its tree says, and breaks the same rules.
pub fn blobs_say_their_tree()
    ensures { BlobsSayTheirTree }
{}
