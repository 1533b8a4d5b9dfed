//! Calls of `topaz` whose answers were worked out by hand, as tests: what no clause says of it.
//!
//! They stand in a crate of their own, since a crate with tests is proved twice. Each test makes its files in memory: blobs
//! of trees in a short form, images of words, scripts as text. The images and the reports that single partitions are looked
//! at by too are those of `lone_runs`.
#![tactic(auto)]

#[cfg(test)]
mod blob_tests;
#[cfg(test)]
mod bundles;
#[cfg(test)]
mod check_blobs;
#[cfg(test)]
mod check_tests;
#[cfg(test)]
mod control_tests;
#[cfg(test)]
mod copy_tests;
#[cfg(test)]
mod gen_tests;
#[cfg(test)]
mod manager_tests;
#[cfg(test)]
mod run_tests;
#[cfg(test)]
mod tests;
