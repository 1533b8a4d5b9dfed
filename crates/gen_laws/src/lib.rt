//! Bundles that are made of numbers are accepted.
//!
//! It stands on `gen_load` for bundles, on `config_rules` for configurations, on `fresh_load` for images and on `script` for
//! scripts. `specs/Laws.antt` says what holds of each bundle: nothing in it breaks a rule, so whoever runs it refuses
//! nothing.
#![tactic(auto)]

mod laws;

pub use laws::{configurations_are_accepted, images_are_sound, scripts_are_sound};
