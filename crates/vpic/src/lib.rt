//! The interrupt controller of a partition, with at most 128 interrupt sources.
//!
//! It stands on `arrayvec` alone. What it keeps is the record of `specs/Controller.antt`, with sets of sources as
//! `specs/Numbers.antt` reads them. `specs/Choice.antt` says which interrupt is chosen, and `specs/Calls.antt` what
//! the calls of a guest do; the hypercalls that make them are those of ePAPR 1.1, chapter 7, on interrupts. The
//! order of interrupts, the start values and the numbers are our own. `specs/Kept.antt` says what a controller keeps
//! at all times.
#![tactic(auto)]

mod controller;
mod laws;
mod numbers;
mod source;

pub use controller::Vpic;
pub use laws::{calls_keep_the_controller, numbers_are_put_and_taken, one_is_chosen};
pub use numbers::{has, without_number};
pub use source::Source;

#[cfg(test)]
mod tests;
