//! Real memory: extents of bytes, read and written in place.
//!
//! The layer stands on `outside`, whose `NoMemory` it gives, and on the kit's `byteorder` for numbers. Only
//! `Ground::new` takes memory.
//! `specs/Extents.antt` says what an extent, a range in it and a write are; no contract says more of how
//! the bytes are kept.
#![tactic(auto)]

mod extent;
mod law;
mod memory;
mod own;

pub use law::{
    lengths_stay, one_byte_is_its_number, other_bytes_stay, other_extents_stay, put_is_read_back,
    store_is_loaded_back,
};
pub use memory::Ground;
pub use own::{
    regions_are_read_in_their_extents, regions_are_written_in_their_extents, regions_stay,
};

#[cfg(test)]
mod tests;
