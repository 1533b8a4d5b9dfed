//! Configurations and hardware, read from the bytes of blobs.
//!
//! It stands on `dt_read` for trees and on `hv_config` for what trees say. `specs/Said.antt` has the tree that bytes
//! say, as a function of the bytes, and `specs/Read.antt` what they say as a configuration and as hardware and which
//! rule they break first; that these are what the tree says that the bytes are a blob of, is a law.
#![tactic(auto)]

mod laws;
mod misread;
mod reading;

pub use misread::Misread;
pub use reading::{read_config, read_hardware};

#[cfg(test)]
mod tests;
