//! What is written of a turn.

/// What is written of a turn: the lines of acts, or nothing.
#[derive(Clone, Copy, Debug, PartialEq, Eq)]
pub enum Show {
    /// The line of what a step did, where it has one.
    Acts,
    /// Nothing.
    Quiet,
}
