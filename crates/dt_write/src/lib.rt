//! Writes the canonical blob of a device tree.
//!
//! It stands on `dt_model`, and its tests on `outside`. `write` gives `canonical`, of `dt_model`'s
//! `specs/Canonical.antt`: version 17, no NOP, each property name once in order of first use.
#![tactic(auto)]

mod fault;
mod laws;
mod layout;
mod names;
mod node;
mod words;
mod writer;

pub use fault::WriteFault;
pub use laws::canonical_is_a_blob;
pub use writer::write;

#[cfg(test)]
mod tests;
