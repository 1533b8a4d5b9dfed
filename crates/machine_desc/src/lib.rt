//! The description of a partition, and what joins partitions.
//!
//! Plain data that the machine and its definition both read, with what a step did and what happens between two steps. It
//! stands on `outside`, and on `arrayvec` for bytes that are sent. `specs/Limits.antt` has the counts and sizes that
//! descriptions keep, `specs/Ranges.antt` says when ranges are apart, `specs/Private.antt` what is private,
//! `specs/Sound.antt` which descriptions are sound, and `specs/Joined.antt` which are joined by a wiring; the contracts are
//! these definitions.
#![tactic(auto)]

mod act;
mod bells;
mod bounds;
mod cores;
mod desc;
mod extents;
mod handles;
mod joint;
mod links;
mod managers;
mod numbering;
mod private;
mod ranges;
mod soundness;
mod spin;
mod wiring;

pub use act::{Act, Event, State};
pub use desc::{Desc, Piece, Port, Region, Span};
pub use joint::joined;
pub use private::is_private_range;
pub use ranges::ranges_meet;
pub use soundness::sound;
pub use wiring::{Bell, End, Link, PortRef, Wiring};

#[cfg(test)]
mod tests;
