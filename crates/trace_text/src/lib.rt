//! The lines of the report: what partitions did, how they ended, what consoles printed, and what is refused.
//!
//! It stands on `outside` for sinks, on `machine_desc` for acts and states, and on `hex` and `itoa` for digits without
//! memory. `specs/Acts.antt` has the line of each act, `specs/Ends.antt` those behind the last turn, and
//! `specs/Refusals.antt` that of a refusal; each writer appends exactly its line to a sink, or where the sink failed a
//! front of it, and takes no memory.
#![tactic(auto)]

mod acts;
mod ends;
mod refusals;

pub use acts::act_line;
pub use ends::{console_line, end_line};
pub use refusals::refused_line;

#[cfg(test)]
mod tests;
