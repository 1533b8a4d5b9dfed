//! The instruction table of the guest's processor, and the decoder that meets it.
//!
//! It stands on the kit's libraries alone. `specs/Table.antt` has the table, a row per instruction in
//! the order of the opcode map, and the contract of `decode` is the first row that fits the word.
//! `specs/Fields.antt` names the fields of a word for the layers that give an instruction its effect;
//! the methods of `Insn` read them.
#![tactic(auto)]

mod decoder;
mod instruction;
mod operands;

pub use decoder::{at_most_one_row_fits, decode};
pub use instruction::{Insn, Op};

#[cfg(test)]
mod tests;
