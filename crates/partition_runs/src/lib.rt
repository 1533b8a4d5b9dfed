//! Runs of a partition's machine that were worked out by hand, as tests: what no clause says of `partition`.
//!
//! They stand in a crate of their own, since a crate with tests is proved twice. A run is turns, each with what others and
//! the guest should see of it. The machine is one alone: what a manager does to others is seen by its acts, what it copies out
//! of them is a feed, and what its own manager does to it are events.
#![tactic(auto)]

#[cfg(test)]
mod copies;
#[cfg(test)]
mod courses;
#[cfg(test)]
mod drafts;
#[cfg(test)]
mod guests;
#[cfg(test)]
mod images;
#[cfg(test)]
mod managers;
#[cfg(test)]
mod tests;
#[cfg(test)]
mod turns;
