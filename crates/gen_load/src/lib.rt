//! Bundles made of a number: a configuration, hardware, an image for each partition, and a script.
//!
//! It stands on `dt_make` for trees and on `hv_config` for what they say. `specs/Draws.antt` says what the number decides,
//! `specs/Meant.antt` which configuration and which hardware the trees say, `specs/Files.antt` what the images and the
//! script are, and `specs/Bundle.antt` what a bundle is. `specs/Tokens.antt` has the trees themselves.
#![tactic(auto)]

mod bundle;
mod config;
mod draws;
mod files;
mod hardware;
mod laws;
mod names;
mod partition;
#[cfg(test)]
mod tests;

pub use bundle::{Bundle, generate};
pub use laws::{counts_are_few, orders_name_cpus, starts_are_small};
