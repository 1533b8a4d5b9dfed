//! Laws of writes: facts on the definitions alone, each the contract of a function that does nothing.

ghost use Rattle.std.specs.Prelude.{◌≡◌, ◌≢◌, ℕ, ◌+◌, ◌^◌, ◌<◌, ◌≤◌, List, [], ◌∷◌, length, slice_index};
ghost use Rattle.ground.specs.Extents.{extent_at, bytes_at, number_at, after_write, after_store, HasRange};

/// A write changes neither how many extents there are nor the size of any of them.
pub fn lengths_stay()
    ensures count { (extents : List (List ℕ)) (extent at : ℕ) (bytes : List ℕ)
        → length (after_write extents extent at bytes) ≡ length extents }
    ensures sizes { (extents : List (List ℕ)) (extent at other : ℕ) (bytes : List ℕ) → HasRange extents extent at (length bytes)
        → length (extent_at (after_write extents extent at bytes) other) ≡ length (extent_at extents other) }
{}

/// A write into one extent changes no other.
pub fn other_extents_stay()
    ensures { (extents : List (List ℕ)) (extent at other : ℕ) (bytes : List ℕ) → other ≢ extent
        → extent_at (after_write extents extent at bytes) other ≡ extent_at extents other }
{}

/// A write changes no byte of its extent below its range or above it.
pub fn other_bytes_stay()
    ensures below { (extents : List (List ℕ)) (extent at place count : ℕ) (bytes : List ℕ) → HasRange extents extent at (length bytes)
        → place + count ≤ at
        → bytes_at (after_write extents extent at bytes) extent place count ≡ bytes_at extents extent place count }
    ensures above { (extents : List (List ℕ)) (extent at place count : ℕ) (bytes : List ℕ) → HasRange extents extent at (length bytes)
        → at + length bytes ≤ place
        → bytes_at (after_write extents extent at bytes) extent place count ≡ bytes_at extents extent place count }
{}

/// What was put is read back.
pub fn put_is_read_back()
    ensures { (extents : List (List ℕ)) (extent at : ℕ) (bytes : List ℕ) → HasRange extents extent at (length bytes)
        → bytes_at (after_write extents extent at bytes) extent at (length bytes) ≡ bytes }
{}

/// A number that was stored in so many bytes is loaded from them.
pub fn store_is_loaded_back()
    ensures { (extents : List (List ℕ)) (extent at width value : ℕ) → HasRange extents extent at width → value < 256 ^ width
        → number_at (after_store extents extent at width value) extent at width ≡ value }
{}

/// The number in one byte is that byte, where it is loaded and where it is stored.
pub fn one_byte_is_its_number()
    ensures load { (extents : List (List ℕ)) (extent at : ℕ)
        → number_at extents extent at 1 ≡ slice_index (extent_at extents extent) at }
    ensures store { (extents : List (List ℕ)) (extent at value : ℕ) → value < 256
        → after_store extents extent at 1 value ≡ after_write extents extent at (value ∷ []) }
{}
