//! What a line says.

use outside::{Bytes, Listed};

/// What a line of a script says.
#[derive(Debug, Drop)]
pub enum Line {
    /// Nothing: it is empty, or a comment.
    Skipped,
    /// The cores of the schedule; one whose number is above 31 stands as 32.
    Order(Listed<u32>),
    /// At the turn these bytes are given to the console of that place, if there is one of the name.
    At {
        /// From 1 on.
        turn: u64,
        /// Its place among the names.
        console: Option<usize>,
        /// 1 to 64 bytes.
        bytes: Bytes,
    },
}
