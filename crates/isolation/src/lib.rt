//! Isolation: what a partition does in the network is what its machine does alone.
//!
//! Definitions alone, and what holds of them. It stands on `network` for the run of all partitions together, and on
//! `recording` for what came to one of them and for its lone run along that.
//!
//! `specs/Isolation.antt` says what a run records of a partition and what a lone run prints, `specs/Laws.antt` is the
//! theorem, `specs/Agreement.antt` what partitions know of one another after each turn, and `specs/Example.antt` a small
//! case.
#![tactic(auto)]

mod laws;

pub use laws::{
    lines_are_its_own, partitions_agree, partitions_are_alone, recordings_fit, small_case_is_known,
};
