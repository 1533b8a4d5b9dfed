//! The MMU assist registers, through which software reads, writes and searches translations.
//!
//! It stands on the kit's libraries alone. `specs/Fields.antt` names the fields of the registers,
//! `specs/Translation.antt` says which translation the registers hold, which registers report a
//! translation, and what a TLB error leaves in them, and `specs/Page.antt` how large a page is and which
//! addresses it has; the contracts are these definitions.
#![tactic(auto)]

mod entry;
mod laws;
mod page;
mod registers;
mod translation;

pub use entry::Entry;
pub use laws::{held_translations_fit, misses_report_their_page, reported_is_held};
pub use page::{is_below_end, is_in_page, page_size};
pub use registers::Mas;
pub use translation::{from_mas, miss_mas, to_mas};

#[cfg(test)]
mod tests;
