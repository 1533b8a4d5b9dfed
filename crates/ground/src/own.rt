//! Laws of some extents of a memory: facts on the definitions alone, each the contract of a function that does nothing.

ghost use Rattle.std.specs.Prelude.{◌≡◌, ℕ, ◌<◌, ◌≤◌, List, length, map};
ghost use Rattle.ground.specs.Extents.{extent_at, after_write};
ghost use Rattle.ground.specs.Own.{name_of, own_of, AreExtents, IsForeign, KeepsForeign};

/// The bytes of a region are those of its extent.
pub fn regions_are_read_in_their_extents()
    ensures { (names : List ℕ) (memory : List (List ℕ)) (region : ℕ) → region < length names
        → extent_at (own_of names memory) region ≡ extent_at memory (name_of names region) }
{}

/// A write into a region's extent is that write into the region, and no other extent changes.
pub fn regions_are_written_in_their_extents()
    ensures own { (names : List ℕ) (memory : List (List ℕ)) (region at : ℕ) (bytes : List ℕ) → AreExtents names memory → region < length names
        → own_of names (after_write memory (name_of names region) at bytes) ≡ after_write (own_of names memory) region at bytes }
    ensures foreign { (names : List ℕ) (memory : List (List ℕ)) (region at : ℕ) (bytes : List ℕ) → region < length names
        → KeepsForeign names memory (after_write memory (name_of names region) at bytes) }
{}

/// Where foreign extents alone change, and where all sizes stay.
pub fn regions_stay()
    ensures bytes { (names others : List ℕ) (before after : List (List ℕ))
        → ((region : ℕ) → region < length others → IsForeign names (name_of others region)) → KeepsForeign names before after
        → own_of others after ≡ own_of others before }
    ensures sizes { (names : List ℕ) (before after : List (List ℕ)) → map length after ≡ map length before
        → map length (own_of names after) ≡ map length (own_of names before) }
    ensures extents { (names : List ℕ) (before after : List (List ℕ)) → map length after ≡ map length before
        → AreExtents names before → AreExtents names after }
{}
