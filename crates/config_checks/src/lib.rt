//! The rules C5 to C22 that a configuration keeps on hardware.
//!
//! It stands on `hv_config` for what a tree says and on `machine_desc` for the limits that it shares with descriptions
//! and for when ranges meet. `specs/Rules.antt` says which rule is broken first and where, each rule's own file of
//! `specs/` what breaks it, `specs/First.antt` which node of a list is the first, and `specs/Spot.antt` which path it
//! has and which of two nodes of different lists stands first. `specs/Found.antt` says what a name names, and what is
//! private to a partition.
#![tactic(auto)]

mod areas;
mod bounds;
mod channels;
mod cores;
mod counts;
mod found;
mod guests;
mod managers;
mod names;
mod path;
mod rules;
mod spot;
#[cfg(test)]
mod tests;
mod window;

pub use found::{area_named, is_private, part_named, size_of};
pub use rules::check;
