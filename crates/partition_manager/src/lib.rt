//! What a partition may ask of the partitions that it manages: whether a request goes, or by which status it is refused.
//!
//! It stands on `machine_desc` for the description of the caller, whose handles say what it manages, and on `hcall_abi`
//! for statuses and the handle of the caller itself. It touches no memory and no partition: whether the named partition
//! runs is told by the caller, and what a request does is up to the caller too. The contracts are the definitions of
//! `specs/Decisions.antt`, which read the handles of the description and nothing else of it.
#![tactic(auto)]

mod decision;
mod decisions;
mod naming;

pub use decision::Decision;
pub use decisions::{decide_restart, decide_start, decide_status, decide_stop};
pub use naming::is_manage;

#[cfg(test)]
mod tests;
