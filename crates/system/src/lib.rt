//! A system of partitions: what they share, how it begins, its turns, and what is written of them.
//!
//! It stands on `byte_channel` for what waits in channels, on `copy_lists` and `memory_areas` for copies between memories, on
//! `partition` for the machines of partitions and for the ports that they are lent, on `ground` and `fresh_load` for their
//! memory, on `core_step` for what a step stores, on `machine_desc` for what joins them, on `network` for the far ends of
//! channels, on `trace_text` for lines, and on `outside` for lists and sinks. `specs/Board.antt` says what the handles of
//! all partitions lead to, what a partition's machine has of its own and what is copied, `specs/Wired.antt` what they lead
//! to by a wiring, `specs/Channels.antt` what the two ends of a channel see of each other, `specs/Opening.antt` what the
//! board shows before the first turn, `specs/System.antt` what a system holds and what callers see of it,
//! `specs/Beginning.antt` how its memory is loaded, `specs/Turning.antt` what the parts of a turn leave, `specs/Seats.antt`
//! whose core a number is, and `specs/Shown.antt` what is written.
#![tactic(auto)]

mod beginning;
mod board;
mod counts;
mod deed;
mod ends;
mod laws;
mod rest;
mod ringing;
mod seat;
mod show;
mod system;
mod tally;
mod turning;
mod wire;
mod wiring;

pub use board::Board;
pub use laws::{channels_have_two_ends, partitions_open_fresh};
pub use show::Show;
pub use system::System;
pub use wire::{ChannelEnd, Wire};

#[cfg(test)]
mod tests;
