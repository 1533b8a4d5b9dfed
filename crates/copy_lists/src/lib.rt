//! The lists by which a manager copies memory between itself and a partition that it manages: their checks, and the moving
//! of the bytes.
//!
//! It stands on `partition_manager` for decisions and on `hcall_abi` for statuses, on `guest_regs` for the caller's
//! registers, on `machine_desc` for descriptions, on `memory_areas` for the map of their regions, on `ground` for real
//! memory, on `fresh_load` for what it is under the regions, and on `outside`, whose `NoMemory` it gives.
//! `specs/Lists.antt` says what a list is and which are refused, over memory and privacy of any form; `specs/Spans.antt`
//! says what is private to a managed partition by its handle, and `specs/Moving.antt` which byte an address has and what a
//! copy leaves. The contracts are these definitions.
#![tactic(auto)]

mod asked;
mod bringing;
mod checking;
mod laws;
mod list;
mod moving;
mod reading;
mod spans;

pub use asked::{is_to_managed, managed_handle};
pub use bringing::{put_bytes, sg_put};
pub use checking::sg_check;
pub use laws::{
    bytes_put_are_read, copies_are_pieces, spans_hold_what_is_private, the_source_stays,
    what_goes_may_be_copied,
};
pub use list::{SgEntry, SgList};
pub use moving::sg_copy;

#[cfg(test)]
mod tests;
