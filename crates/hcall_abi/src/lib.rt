//! The registers of a hypercall: which service a caller asks for, how it is answered, and the bytes that travel.
//!
//! It stands on `guest_regs` for the registers of a core, and on `arrayvec` for values without memory. Which token
//! asks for which service is the table of `specs/Call.antt`, the numbers of the statuses are that of
//! `specs/Status.antt`, and `specs/Reply.antt` says what a reply leaves in the registers; the bytes that travel in
//! r5 to r8 are in `specs/Payload.antt`. The registers and most services are those of ePAPR 1.1, chapter 7, the
//! services of partitions our own.
#![tactic(auto)]

mod call;
mod laws;
mod payload;
mod reply;
mod status;

pub use call::Call;
pub use laws::{replies_are_read, words_spell_their_bytes};
pub use payload::{sent_bytes, words_of};
pub use reply::{Reply, set_reply};
pub use status::{Status, is_own};

#[cfg(test)]
mod tests;
