//! Runs that were worked out by hand: their images and what is written of them, for the crates whose tests do these runs.
//!
//! Its own tests look at single partitions of such runs: the machine of one by itself is given what came to it in the run, and
//! prints its lines of the report. That is what the main theorem comes to, and needs no network: it stands on `partition`
//! for the machine, on `machine_desc` for descriptions and events, on `trace_text` for lines, and on `outside`.
#![tactic(auto)]

#[cfg(test)]
mod changes;
#[cfg(test)]
mod control;
pub mod control_images;
#[cfg(test)]
mod copies;
pub mod guests;
pub mod images;
#[cfg(test)]
mod lone;
pub mod manager_images;
#[cfg(test)]
mod partitions;
#[cfg(test)]
mod refusals;
pub mod reports;
#[cfg(test)]
mod rows;
#[cfg(test)]
mod tests;
