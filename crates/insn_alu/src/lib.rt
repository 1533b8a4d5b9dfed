//! What each instruction does to the registers, and the access that it makes.
//!
//! It stands on `insn` for the table and the fields of a word, on `guest_regs` for the registers, and on
//! `arrayvec` for the bytes of a store. It meets `specs/Exec.antt`, whose tables have a row for each instruction in
//! the manual's order, over the words of `specs/Numbers.antt` (whole numbers as 32 bits), `specs/Fields.antt` (the
//! condition register and XER) and `specs/Rows.antt` (rows that several instructions share). Loads and stores are in
//! `specs/Transfers.antt`: `exec` answers their access, and `finish_load` and `stored` complete it.
#![tactic(auto)]

mod access;
mod branches;
mod effect;
mod execution;
mod fields;
mod moves;
mod numbers;
mod rows;
mod system;
mod transfer;

pub use access::{finish_load, stored};
pub use effect::{Access, Effect, Form};
pub use execution::exec;

#[cfg(test)]
mod arithmetic_tests;
#[cfg(test)]
mod branch_tests;
#[cfg(test)]
mod condition_tests;
#[cfg(test)]
mod logic_tests;
#[cfg(test)]
mod rotation_tests;
#[cfg(test)]
mod samples;
#[cfg(test)]
mod system_tests;
#[cfg(test)]
mod transfer_tests;
