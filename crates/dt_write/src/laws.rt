//! Laws of the definitions. Each is a function with nothing to do, whose contract is the law.

ghost use Rattle.dt_write.specs.Law.{CanonicalIsBlob};

/// What is written is read again: the canonical blob of a tree is a blob of that tree.
pub fn canonical_is_a_blob()
    ensures { CanonicalIsBlob }
{}
