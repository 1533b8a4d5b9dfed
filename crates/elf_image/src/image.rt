//! What a file of an image says.

use outside::Listed;

/// A range of a partition's memory that an image fills.
#[derive(Clone, Copy, Debug, PartialEq, Eq)]
pub struct PlanPiece {
    /// The logical address (ePAPR 1.1, chapter 7: guest physical) of its first byte.
    pub at: u64,
    /// Where its bytes begin in the file.
    pub from: usize,
    /// How many bytes come from the file.
    pub len: usize,
    /// How many bytes there are in all; those behind the file's are zero.
    pub total: u64,
}

/// The pieces of an image in the order of the file, and where it begins to run.
#[derive(Debug, Drop)]
pub struct Image {
    pub pieces: Listed<PlanPiece>,
    /// The logical address of the first instruction.
    pub entry: u64,
}
