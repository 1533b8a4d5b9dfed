//! Where the logical addresses of a partition lie in real memory.
//!
//! It stands on `outside`, whose `NoMemory` it gives, and on `machine_desc`, whose descriptions it takes. Contracts see
//! `AreaMap` as the list of the description's regions. `specs/Place.antt` says where an address lies and what is sure of
//! its place, `specs/Kept.antt` what the regions keep, and `specs/Laws.antt` what holds of all places of a sound
//! description; which ranges are private is `machine_desc`'s definition.
#![tactic(auto)]

mod area_map;
mod laws;
mod place;

pub use area_map::AreaMap;
pub use laws::{
    each_byte_has_one_address, one_region_has_an_address, places_are_those_of_regions,
    private_bytes_have_places, runs_go_on_in_their_extent,
};
pub use place::Place;

#[cfg(test)]
mod tests;
