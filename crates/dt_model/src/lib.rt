//! Device trees as values: what a tree is, which trees a blob can hold, and how nodes and values are found.
//!
//! It stands on `outside` for byte lists and on `byteorder` for numbers. Its definitions say what a flattened device
//! tree is, for the reader and the writer above: `specs/Blob.antt` (the bytes are a blob of the tree),
//! `specs/Fault.antt` (the first fault of any bytes), `specs/Canonical.antt` (the one blob that is written of a tree),
//! `specs/Fit.antt` (which trees fit) and `specs/Node.antt` (a tree's tokens, paths and rows).
#![tactic(auto)]

mod fitting;
mod law;
mod lookup;
mod name;
#[cfg(test)]
mod tests;
mod tree;
mod value;

pub use fitting::fits;
pub use law::{
    blobs_have_no_fault, blobs_have_one_tree, bytes_without_a_fault_have_a_tree,
    fitting_trees_keep_names_apart, rewritten_is_canonical, rows_are_those_of_the_tokens,
};
pub use lookup::{find_phandle, node_at, prop};
pub use name::{is_node_name, is_property_name};
pub use tree::{Node, Property, Reserve, Tree};
pub use value::{text_of, u32_of, u64_of};
