//! What can't come.

use crate::partitions::*;
use crate::rows::Row;
use machine_desc::Event::{self, *};

/// What `p` sends.
const SENT: &str = "p 6 sent 1 4869\n";

/// The place of what can't come, and what is told up to it.
static REFUSED: [(usize, Row<'static>); 28] = [
    // more room than was sent, room on a handle that there isn't, room twice, and room before
    (0, (P, &[(6, Room { h: 1, count: 3 })], 6, SENT)),
    (0, (P, &[(6, Room { h: 2, count: 2 })], 6, SENT)),
    (
        1,
        (
            P,
            &[(6, Room { h: 1, count: 2 }), (6, Room { h: 1, count: 1 })],
            6,
            SENT,
        ),
    ),
    (0, (P, &[(5, Room { h: 1, count: 1 })], 6, "")),
    // what comes behind the end, and before what came
    (1, (P, &[(7, Room { h: 1, count: 2 })], 6, SENT)),
    (1, (P, &[(6, Room { h: 1, count: 2 }), (5, Stop)], 6, SENT)),
    // a byte more than a channel has, at once, and one by one
    (
        0,
        (
            Q,
            &[(
                0,
                Bytes {
                    h: 1,
                    bytes: &[7; 257],
                },
            )],
            6,
            "",
        ),
    ),
    (
        1,
        (Q, &[(0, FULL), (0, Bytes { h: 1, bytes: &[7] })], 6, ""),
    ),
    (
        16,
        (
            Q,
            &[(
                0,
                Bytes {
                    h: 1,
                    bytes: &[7; 16],
                },
            ); 17],
            6,
            "",
        ),
    ),
    // each kind of event on each other kind of handle
    (0, (HEARER, &[(0, Bytes { h: 2, bytes: &[7] })], 6, "")),
    (0, (STOPPER, &[(0, Bytes { h: 2, bytes: &[7] })], 6, "")),
    (0, (RINGER, &[(0, Bytes { h: 2, bytes: &[7] })], 6, "")),
    (0, (RINGER, &[(0, Bytes { h: 0, bytes: &[7] })], 6, "")),
    (0, (HEARER, &[(0, Room { h: 2, count: 0 })], 6, "")),
    (0, (STOPPER, &[(0, Room { h: 2, count: 0 })], 6, "")),
    (0, (RINGER, &[(0, Ring { h: 1 })], 6, "")),
    (0, (RINGER, &[(0, Ring { h: 2 })], 6, "")),
    (0, (STOPPER, &[(0, Ring { h: 2 })], 6, "")),
    (0, (HEARER, &[(0, HALTED)], 6, "")),
    (0, (RINGER, &[(0, HALTED)], 6, "")),
    (0, (P, &[(0, HALTED)], 6, "")),
    // a start of what runs, a stop and a restart of what doesn't, and steps of it
    (0, (Q, &[(0, START)], 6, "")),
    (0, (HELD, &[(0, Stop)], 0, "")),
    (1, (Q, &[(3, Stop), (3, Restart)], 3, "")),
    (1, (Q, &[(3, Stop), (4, Stop)], 4, "")),
    (0, (FAULTS, &[], 3, "q 2 faulted\n")),
    // bytes over the end of its memory
    (
        0,
        (
            Q,
            &[(
                0,
                CopyIn {
                    at: 0xFFFC,
                    bytes: &[7; 5],
                },
            )],
            6,
            "",
        ),
    ),
    (
        0,
        (
            Q,
            &[(
                0,
                CopyIn {
                    at: 0x1_0000,
                    bytes: &[7],
                },
            )],
            6,
            "",
        ),
    ),
];

/// As many bytes as a channel has.
const FULL: Event = Bytes {
    h: 1,
    bytes: &[7; 256],
};

/// What can't come.
pub fn refused() -> &'static [(usize, Row<'static>)] {
    &REFUSED
}
