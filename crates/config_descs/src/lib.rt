//! Descriptions of the partitions of a configuration, and the wiring that joins them.
//!
//! It stands on `outside` for lists, on `hv_config` for configurations, on `machine_desc` for descriptions and on
//! `config_checks` for what names name. `specs/Desc.antt` says what a partition is described as, and
//! `specs/Wired.antt` what the wiring is; the contracts are these definitions.
#![tactic(auto)]

mod handles;
mod memory;
mod numbered;
mod parts;
mod refs;
#[cfg(test)]
mod tests;
mod wired;

pub use handles::interrupts_of;
pub use memory::shares;
pub use parts::desc_of;
pub use wired::wiring_of;
