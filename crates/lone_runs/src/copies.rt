//! Copies: what came to the partitions of runs in which a manager copies memory, and something else. Their images are those of
//! guests.

use crate::guests::{
    AT_GRANULE, BEHIND_GRANULE, EDGE, Guest, HOLDER, INTO, OUT_OF, SHOWS, STORES, THREE_ENTRIES,
    TWELVE_LISTS, TWO_ENTRIES,
};
use crate::lone::{Coming, Lone};
use crate::partitions::{COPIED, COPIER, FED};
use crate::reports::{
    COPIED_BEFORE, COPIED_IN, COPIED_OUT, LISTS_LOOKED_AT, NOT_COPIED, RESERVATION_KEPT,
    RESERVATION_LOST,
};
use crate::rows::Row;
use machine_desc::Event::{self, *};

/// Eight bytes come to it over the edge of its regions.
const LETTERS: Event = CopyIn {
    at: 0xFFFC,
    bytes: b"ABCDEFGH",
};

/// A word comes to it, the last one of the granule that it reserves in its step 3 and stores to in step 4.
const WORD: Event = CopyIn {
    at: 0x27C,
    bytes: &[0; 4],
};

/// Its console takes a status in each nineteenth step.
const STATUSES: [Coming; 12] = [
    (19, STATUS),
    (38, STATUS),
    (57, STATUS),
    (76, STATUS),
    (95, STATUS),
    (114, STATUS),
    (133, STATUS),
    (152, STATUS),
    (171, STATUS),
    (190, STATUS),
    (209, STATUS),
    (228, STATUS),
];

/// Its console takes a status.
const STATUS: Event = Room { h: 1, count: 4 };

/// Its console takes eight bytes.
const EIGHT: Event = Room { h: 1, count: 8 };

/// A copy comes entry by entry, behind the last step of the copied one before the manager's. What a manager copies out is fed
/// to it.
static COPIES: [(Guest, Row<'static>); 17] = [
    (INTO, (COPIER, &[(29, STATUS)], 29, COPIED_IN)),
    (EDGE, (COPIED, &[(0, LETTERS), (9, EIGHT)], 9, COPIED_IN)),
    (OUT_OF, (FED, &[(19, STATUS), (28, EIGHT)], 28, COPIED_OUT)),
    (STORES, (COPIED, &[], 10, COPIED_OUT)),
    (THREE_ENTRIES, (COPIER, &[(24, STATUS)], 24, NOT_COPIED)),
    (SHOWS, (COPIED, &[(9, EIGHT)], 9, NOT_COPIED)),
    (TWO_ENTRIES, (COPIER, &[(24, STATUS)], 24, COPIED_BEFORE)),
    (
        SHOWS,
        (
            COPIED,
            &[
                (
                    0,
                    CopyIn {
                        at: 0x300,
                        bytes: b"AAAA",
                    },
                ),
                (
                    0,
                    CopyIn {
                        at: 0x304,
                        bytes: &[0; 4],
                    },
                ),
                (9, EIGHT),
            ],
            9,
            COPIED_BEFORE,
        ),
    ),
    (TWELVE_LISTS, (COPIER, &STATUSES, 228, LISTS_LOOKED_AT)),
    (AT_GRANULE, (COPIER, &[], 13, RESERVATION_LOST)),
    (
        HOLDER,
        (COPIED, &[(3, WORD), (10, STATUS)], 10, RESERVATION_LOST),
    ),
    (BEHIND_GRANULE, (COPIER, &[], 13, RESERVATION_KEPT)),
    (
        HOLDER,
        (
            COPIED,
            &[
                (
                    3,
                    CopyIn {
                        at: 0x280,
                        bytes: &[0; 4],
                    },
                ),
                (10, STATUS),
            ],
            10,
            RESERVATION_KEPT,
        ),
    ),
    // behind the store
    (
        HOLDER,
        (
            COPIED,
            &[(4, WORD), (10, STATUS)],
            10,
            "q 10 sent 1 20000000\nend q running 10\n",
        ),
    ),
    // between its two loads
    (
        EDGE,
        (
            COPIED,
            &[(3, LETTERS), (9, EIGHT)],
            9,
            "q 9 sent 1 0000000045464748\nend q running 9\n",
        ),
    ),
    // another last byte comes in, and out
    (
        EDGE,
        (
            COPIED,
            &[
                (
                    0,
                    CopyIn {
                        at: 0xFFFC,
                        bytes: b"ABCDEFGI",
                    },
                ),
                (9, EIGHT),
            ],
            9,
            "q 9 sent 1 4142434445464749\nend q running 9\n",
        ),
    ),
    (
        OUT_OF,
        (
            Lone {
                feed: b"ABCDEFGI",
                ..COPIER
            },
            &[(19, STATUS), (28, EIGHT)],
            28,
            "p 13 copy from 2 8\np 19 sent 1 00000000\np 28 sent 1 4142434445464749\nend p running 28\n",
        ),
    ),
];

/// Copies that don't have what they bring: it is too short, too long, or none.
static UNFED: [(Guest, Row<'static>); 3] = [
    (
        OUT_OF,
        (
            Lone {
                feed: b"ABCDEFG",
                ..COPIER
            },
            &[(19, STATUS)],
            19,
            "",
        ),
    ),
    (
        OUT_OF,
        (
            Lone {
                feed: b"ABCDEFGHI",
                ..COPIER
            },
            &[(13, STATUS)],
            19,
            "",
        ),
    ),
    (OUT_OF, (COPIER, &[], 13, "")),
];

/// Copies that are done.
pub fn copies() -> &'static [(Guest, Row<'static>)] {
    &COPIES
}

/// Copies that don't have what they bring.
pub fn unfed() -> &'static [(Guest, Row<'static>)] {
    &UNFED
}
