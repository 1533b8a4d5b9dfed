//! The device tree that a partition's guest is given.
//!
//! It stands on `config_rules` for accepted configurations, on `config_descs` for their descriptions, and on `dt_make`
//! for trees. `specs/Properties.antt` says what each node has, `specs/Rows.antt` which nodes there are, as the rows of
//! the tree, `specs/Tokens.antt` the same as tokens of a structure block, `specs/Guest.antt` which tree and which blob
//! that is, and `specs/Laws.antt` what holds of it.
#![tactic(auto)]

mod chosen;
mod cpus;
mod handles;
mod laws;
mod nodes;
#[cfg(test)]
mod tests;
mod tree;

pub use laws::{blobs_are_those_of_the_trees, guest_trees_fit, rows_are_those_of_the_tokens};
pub use tree::derive;
