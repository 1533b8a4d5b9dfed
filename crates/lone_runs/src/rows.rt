//! What came to partitions in runs, by their own steps.
//!
//! A console takes what is printed at once, so its room comes back right behind the step that sent. Where cores take turns,
//! that of `p` first, what `p` does in its step K comes to `q` behind `q`'s step K - 1, and what `q` does in its step K
//! comes to `p` behind `p`'s step K.

use crate::lone::{Coming, Lone};
use crate::partitions::*;
use crate::reports::{
    BOTH_SEND, CHAINED, ECHOED, FILLED, HEARD, LATCH_LOST, ONE_SENDS, RESTARTED, RESTARTS_ITSELF,
    ROOM_AGAIN, SEEN_FAULTED, SEEN_STOPPED, STARTED, STOPPED, STOPPED_TWICE, UNHEARD,
};
use machine_desc::Event::*;

/// A partition, what comes to it and when, how many steps it does, and a report that has its lines.
pub type Row<'a> = (Lone<'a>, &'a [Coming], u64, &'a str);

/// What came to partitions in runs.
static RUNS: [Row<'static>; 28] = [
    (P, &[(6, Room { h: 1, count: 2 })], 6, BOTH_SEND),
    (Q, &[(6, Room { h: 1, count: 2 })], 6, BOTH_SEND),
    // eight turns and four
    (P, &[(6, Room { h: 1, count: 2 })], 8, ONE_SENDS),
    (Q, &[], 4, ONE_SENDS),
    // Five bytes are typed before the first turn.
    (
        ECHOER,
        &[
            (
                0,
                Bytes {
                    h: 1,
                    bytes: b"ABCDE",
                },
            ),
            (12, Room { h: 1, count: 4 }),
            (25, Room { h: 1, count: 1 }),
        ],
        100,
        ECHOED,
    ),
    // All of `q`'s five turns lie between `p`'s steps 80 and 81: it takes five bytes.
    (
        FILLER,
        &[
            (80, Room { h: 2, count: 8 }),
            (80, Room { h: 1, count: 5 }),
            (88, Room { h: 2, count: 4 }),
        ],
        88,
        FILLED,
    ),
    // `p` rings in its step 4.
    (RINGER, &[], 15, HEARD),
    (
        HEARER,
        &[(3, Ring { h: 2 }), (14, Room { h: 1, count: 4 })],
        15,
        HEARD,
    ),
    (HEARER, &[(14, Room { h: 1, count: 4 })], 15, UNHEARD),
    // A stop and a restart in `p`'s step 4: what a manager does is none of its own events.
    (STOPPER, &[], 6, STOPPED),
    (Q, &[(3, Stop)], 3, STOPPED),
    (RESTARTER, &[], 9, RESTARTED),
    (
        Q,
        &[(3, Restart), (9, Room { h: 1, count: 2 })],
        9,
        RESTARTED,
    ),
    // `q` is held, and does no step before `p`'s step 6.
    (STARTER, &[], 11, STARTED),
    (
        HELD,
        &[(0, START), (6, Room { h: 1, count: 2 })],
        6,
        STARTED,
    ),
    // `q` stops itself in its step 6, or faults in its step 2.
    (
        ASKER,
        &[(6, HALTED), (13, Room { h: 1, count: 8 })],
        13,
        SEEN_STOPPED,
    ),
    (ENDS, &[], 6, SEEN_STOPPED),
    (
        ASKER,
        &[(2, HALTED), (13, Room { h: 1, count: 8 })],
        13,
        SEEN_FAULTED,
    ),
    (FAULTS, &[], 2, SEEN_FAULTED),
    (
        STOPS_TWICE,
        &[(12, Room { h: 1, count: 4 })],
        12,
        STOPPED_TWICE,
    ),
    (BEGINS_AGAIN, &[], 9, RESTARTS_ITSELF),
    // `p` has eight turns before the first of `q`: its ring in step 4, its restart in step 8.
    (DISTURBER, &[], 8, LATCH_LOST),
    (
        HEARER,
        &[
            (0, Ring { h: 2 }),
            (0, Restart),
            (14, Room { h: 1, count: 4 }),
        ],
        14,
        LATCH_LOST,
    ),
    // `q` has no turn, so what it received is dropped by its start in `p`'s step 15.
    (
        SENDER,
        &[(15, Room { h: 1, count: 4 }), (26, Room { h: 2, count: 8 })],
        26,
        ROOM_AGAIN,
    ),
    (
        HELD,
        &[
            (
                0,
                Bytes {
                    h: 1,
                    bytes: &[0; 4],
                },
            ),
            (0, START_AS_IT_STANDS),
        ],
        0,
        ROOM_AGAIN,
    ),
    // `q` stops `r` in its step 4, and `p` stops `q` in its step 8.
    (TOP, &[], 8, CHAINED),
    (LINK, &[(7, Stop)], 7, CHAINED),
    (BOTTOM, &[(3, Stop)], 3, CHAINED),
];

/// What came to partitions in runs.
pub fn runs() -> &'static [Row<'static>] {
    &RUNS
}
