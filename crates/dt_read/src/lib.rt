//! Reading a flattened device tree: any bytes give either their one tree or the number of the first rule that they break.
//!
//! It stands on `outside` for byte lists and on `dt_model`, whose definitions it meets: `specs/Blob.antt` (the bytes are
//! a blob of the tree) and `specs/Fault.antt` (the first fault of any bytes).
#![tactic(auto)]

mod builder;
mod fault;
mod header;
mod names;
mod reading;
mod reserve;
#[cfg(test)]
mod tests;
mod token;

pub use fault::BlobFault;
pub use reading::read;
