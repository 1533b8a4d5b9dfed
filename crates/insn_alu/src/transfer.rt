//! Loads and stores as data.

/// How the address of a load or store is found.
#[derive(Clone, Copy, Debug, PartialEq, Eq)]
pub enum Addressing {
    /// (RA|0) and D.
    Displaced,
    /// (RA) and D, and the address goes to RA.
    DisplacedUpdate,
    /// (RA|0) and (RB).
    Indexed,
    /// (RA) and (RB), and the address goes to RA.
    IndexedUpdate,
}

/// What a load or store moves.
#[derive(Clone, Copy, Debug, PartialEq, Eq)]
pub enum Kind {
    Byte,
    Half,
    /// A halfword that is loaded with its sign.
    SignedHalf,
    Word,
    /// A halfword, its least significant byte first.
    ReversedHalf,
    /// A word, its least significant byte first.
    ReversedWord,
    /// A word for each register from RT to 31.
    Words,
    /// A word under a reservation.
    Exclusive,
    /// A block of 64 zeros.
    Block,
}

/// A load or store.
#[derive(Clone, Copy, Debug, PartialEq, Eq)]
pub struct Transfer {
    pub addressing: Addressing,
    pub kind: Kind,
    pub store: bool,
}
