//! The two TLBs of a guest, as a list of 576 translations of which no two live ones meet.
//!
//! It stands on `outside`, whose `NoMemory` it gives, on `mas`, whose registers and translations it takes,
//! and on the kit's `arrayvec`. Contracts see `GuestTlb` as the list of its slots. `specs/Translation.antt`
//! says which access a translation translates and when two meet, `specs/Slots.antt` which slot registers
//! name and what a write leaves there, `specs/Invalidation.antt` which translations a write or an invalidation ends, and `specs/Kept.antt`
//! what the slots keep.
#![tactic(auto)]

mod ending;
mod invalidation;
mod laws;
mod matching;
mod slot;
mod tlb;

pub use invalidation::Dead;
pub use laws::{
    answers_are_what_ended, changes_keep_the_slots, changes_keep_translations_apart,
    one_translation_matches, other_slots_stay, places_name_slots, search_finds_the_lookup,
};
pub use slot::{WAYS, name_slot, slot_of};
pub use tlb::GuestTlb;

#[cfg(test)]
mod tests;
