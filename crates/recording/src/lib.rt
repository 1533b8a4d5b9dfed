//! Recordings of one partition: what came to it from outside and when, from which it can be run again by itself.
//!
//! Definitions alone, and what holds of them. It stands on `machine_desc` for descriptions and on `partition` for the
//! machine of one partition, its steps and its events, and knows no other partition and no network.
//!
//! `specs/Recording.antt` says what a recording lists, `specs/Alone.antt` what the lone run along it is,
//! `specs/Fits.antt` which recordings a machine can follow, `specs/Replay.antt` how far it follows others,
//! `specs/Laws.antt` what holds of recordings of moves, and `specs/Example.antt` small cases.
#![tactic(auto)]

mod laws;

pub use laws::{
    allowed_moves_fit, recordings_grow, recordings_tell_moves, replays_are_whole,
    small_cases_are_known,
};
