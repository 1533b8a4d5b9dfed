//! Configurations that are accepted on hardware.
//!
//! It stands on `config_checks` for the rules C5 to C22 and on `config_descs` for descriptions and wiring.
//! `specs/Accepted.antt` says which configurations are accepted, `specs/Completed.antt` what becomes of their
//! descriptions, `specs/Parts.antt` what each partition keeps, and `specs/Laws.antt` what holds of them all.
#![tactic(auto)]

mod accepting;
mod laws;
#[cfg(test)]
mod tests;

pub use accepting::{Accepted, accept};
pub use laws::{
    accepted_keep_limits, accepted_keep_names, accepted_keep_parts, descriptions_are_joined,
};
