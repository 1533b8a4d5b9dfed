//! What the memory of a partition begins with: its description completed by its image and its device tree, and its
//! memory filled.
//!
//! It stands on `outside` for lists, on `machine_desc` and `elf_image` for descriptions and images, on `memory_areas` for
//! the map of its regions, and on `ground` for real memory. `specs/Described.antt` says what a completed description is and
//! which images and trees are refused, `specs/Fresh.antt` which byte each address begins with, and `specs/Placed.antt`
//! what the real memory under the regions is; the contracts are these definitions.
#![tactic(auto)]

mod bounds;
mod checking;
mod describing;
mod loading;
mod pieces;
mod putting;

pub use describing::describe;
pub use loading::{load, reload};

#[cfg(test)]
mod tests;
