//! Device trees that are made: values, properties and nodes.
//!
//! It stands on `dt_model` for trees and on `byteorder` for numbers. `specs/Values.antt` says which bytes a value has,
//! and `specs/Nodes.antt` what a node comes to.
#![tactic(auto)]

mod nodes;
#[cfg(test)]
mod tests;
mod values;

pub use nodes::{leaf, node};
pub use values::{
    push, push_address, push_cell, push_double, push_empty, push_number, push_numbers, push_text,
};
