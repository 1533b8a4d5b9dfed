//! A byte channel: bytes on their way between two ends.
//!
//! It stands on `outside` for want of memory and on the kit's `circular_buffer` for the rings. `specs/Waiting.antt` says what
//! waits at each end and what each call does to it. That bytes move at once and that 256 of them wait in each direction are
//! this project's own; ePAPR 1.1 leaves both open.
#![tactic(auto)]

mod channel;
mod side;
#[cfg(test)]
mod tests;

pub use channel::Channel;
pub use side::Side;
