//! How a request is decided.

/// How a partition's request about itself or about one that it manages is decided.
#[derive(Clone, Copy, Debug, PartialEq, Eq)]
pub enum Decision {
    /// It is done.
    Go,
    /// It isn't done, and the caller is told the status of this number.
    Refuse(u32),
}
