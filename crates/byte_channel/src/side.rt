//! The ends of a channel.

/// One of the two ends of a channel (ePAPR 1.1, chapter 7). Which of them is A is the choice of whoever joins them.
#[derive(Clone, Copy, Debug, PartialEq, Eq)]
pub enum Side {
    /// The one end.
    A,
    /// The other end.
    B,
}
