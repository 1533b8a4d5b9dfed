//! The configuration and the hardware, read from trees.
//!
//! It stands on `outside` for lists and on `dt_model` for trees. `specs/Role.antt` and `specs/Form.antt` are the grammar
//! of a configuration, `specs/Rule.antt` says which of the rules C1 to C4 is broken first, `specs/Meaning.antt` what a
//! tree says, and `specs/Plain.antt` what stands of each configuration that was read. `specs/Hardware.antt` says which
//! of the rules H1 to H4 is broken first, and what hardware a tree says.
#![tactic(auto)]

mod board;
mod cells;
mod config;
mod cpus;
mod device;
mod fault;
mod form;
mod meaning;
mod memory;
mod probe;
mod reading;
mod role;
mod rule;
mod seat;
#[cfg(test)]
mod tests;

pub use board::{Board, Cpu, Range};
pub use config::{AreaDef, BellDef, ChannelDef, Config, GuestAreaDef, HandleDef, PartDef};
pub use fault::{Fault, Rule};
pub use form::Kind;
pub use probe::hardware;
pub use reading::parse;
