//! The network: the lone machines of partitions, joined turn by turn.
//!
//! Definitions alone, and what holds of them; the program that does what they say stands above. It stands on
//! `machine_desc` for descriptions and wiring, on `partition` for the machine of one partition, its steps and its events,
//! and on `trace_text` for the lines of the report.
//!
//! `specs/Network.antt` says what the wiring joins, `specs/Change.antt` what happens to one machine, `specs/World.antt`
//! what a network holds and how a log of changes is told, `specs/Entering.antt` how bytes come from consoles,
//! `specs/Effects.antt` what an act brings others, `specs/Turn.antt` what a turn and a run are, `specs/Report.antt` what
//! is written of a run, `specs/Lines.antt` how lines are read from a text, `specs/Laws.antt` what holds of each partition
//! without shared areas, and `specs/Example.antt` small cases.
#![tactic(auto)]

mod laws;

pub use laws::{
    act_lines_are_those_of_the_definition, lines_are_of_own_moves,
    partitions_follow_their_own_moves, resting_networks_stay, small_cases_are_known,
};
