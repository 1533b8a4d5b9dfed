//! What the file of an image says: its pieces and its entry.
//!
//! It stands on `outside` for lists and on `byteorder` for numbers. `specs/Image.antt` says which image a file is and which
//! rule it breaks first, over the headers of `specs/Header.antt` and `specs/Segment.antt`; `specs/Piece.antt` says what
//! the pieces keep.
#![tactic(auto)]

mod fault;
mod header;
mod image;
#[cfg(test)]
mod images;
mod planning;
mod segment;
#[cfg(test)]
mod tests;

pub use fault::ImageFault;
pub use image::{Image, PlanPiece};
pub use planning::plan;
