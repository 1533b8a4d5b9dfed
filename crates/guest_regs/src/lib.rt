//! The registers of a guest's core, each with the bits that it has, and the special registers by their numbers.
//!
//! It stands on `arrayvec` for the bytes of words. Contracts see `Regs` as the record `Registers` of
//! `specs/Registers.antt`, which also says what a core starts with; `specs/Kept.antt` says what the registers
//! keep at all times. `specs/State.antt` names the bits of the MSR and of the ESR, as the modules `msr` and `esr` do.
//! `specs/Special.antt` has the special registers in two stages: the register that a number names, then what
//! reading and writing it does.
#![tactic(auto)]

mod answer;
pub mod esr;
mod laws;
pub mod msr;
mod numbers;
mod registers;
mod special;
mod widths;
mod words;

pub use answer::{ReadAnswer, WriteAnswer};
pub use esr::{order_syndrome, store_syndrome};
pub use laws::changes_keep_the_registers;
pub use numbers::{spr_read, spr_write};
pub use registers::{Regs, boot};
pub use words::{is_set, push_word};

#[cfg(test)]
mod tests;
