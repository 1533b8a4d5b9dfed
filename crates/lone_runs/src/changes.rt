//! The runs of `rows`, where something else comes, or comes later; and what restarts forget.

use crate::lone::Coming;
use crate::partitions::*;
use crate::rows::Row;
use machine_desc::Event::{self, *};

/// Something else comes, or it comes later.
static CHANGED: [Row<'static>; 18] = [
    // another byte; and all of them a step too late for the first look
    (
        ECHOER,
        &[
            (
                0,
                Bytes {
                    h: 1,
                    bytes: b"ABCDF",
                },
            ),
            (12, Room { h: 1, count: 4 }),
            (25, Room { h: 1, count: 1 }),
        ],
        100,
        "p 12 sent 1 41424344\np 25 sent 1 46\nend p running 100\n",
    ),
    (
        ECHOER,
        &[
            (
                6,
                Bytes {
                    h: 1,
                    bytes: b"ABCDE",
                },
            ),
            (20, Room { h: 1, count: 4 }),
            (33, Room { h: 1, count: 1 }),
        ],
        100,
        "p 20 sent 1 41424344\np 33 sent 1 45\nend p running 100\n",
    ),
    // before and behind the question
    (
        HEARER,
        &[(7, Ring { h: 2 }), (14, Room { h: 1, count: 4 })],
        15,
        "q 14 sent 1 00000002\nend q running 15\n",
    ),
    (
        HEARER,
        &[(8, Ring { h: 2 }), (14, Room { h: 1, count: 4 })],
        15,
        "q 14 sent 1 0000ffff\nend q running 15\n",
    ),
    // a ring behind the restart is latched
    (
        HEARER,
        &[
            (0, Restart),
            (0, Ring { h: 2 }),
            (14, Room { h: 1, count: 4 }),
        ],
        14,
        "q 14 sent 1 00000002\nend q running 14\n",
    ),
    // three steps later, and one
    (
        Q,
        &[(6, Room { h: 1, count: 2 }), (6, Stop)],
        6,
        "q 6 sent 1 4869\nend q stopped 6\n",
    ),
    (
        Q,
        &[(4, Restart), (10, Room { h: 1, count: 2 })],
        10,
        "q 10 sent 1 4869\nend q running 10\n",
    ),
    // behind the instruction that begins the call's token: no call has the token 1
    (
        HELD,
        &[(
            0,
            Start {
                entry: 4,
                load: true,
            },
        )],
        6,
        "end q running 6\n",
    ),
    // "AB" in place of "Hi", where its memory stays, and where it is loaded anew
    (
        HELD,
        &[
            (0, OTHER_TEXT),
            (0, START_AS_IT_STANDS),
            (6, Room { h: 1, count: 2 }),
        ],
        6,
        "q 6 sent 1 4142\nend q running 6\n",
    ),
    (
        HELD,
        &[(0, OTHER_TEXT), (0, START), (6, Room { h: 1, count: 2 })],
        6,
        "q 6 sent 1 4869\nend q running 6\n",
    ),
    // behind both questions, and before both
    (
        ASKER,
        &[(7, HALTED), (13, Room { h: 1, count: 8 })],
        13,
        "p 13 sent 1 0000000100000001\nend p running 13\n",
    ),
    (
        ASKER,
        &[(3, HALTED), (13, Room { h: 1, count: 8 })],
        13,
        "p 13 sent 1 0000000000000000\nend p running 13\n",
    ),
    // it runs again before the second stop
    (
        STOPS_TWICE,
        &[
            (
                5,
                State {
                    h: 2,
                    running: true,
                },
            ),
            (12, Room { h: 1, count: 4 }),
        ],
        12,
        "p 4 stop 2\np 6 stop 2\np 12 sent 1 00000000\nend p running 12\n",
    ),
    // a byte less, behind both polls, between them, and before both
    (
        SENDER,
        &[(15, Room { h: 1, count: 3 }), (26, Room { h: 2, count: 8 })],
        26,
        "p 5 sent 1 00000000\np 15 start 3 00000000 0\np 26 sent 2 000000fc000000ff\nend p running 26\n",
    ),
    (
        SENDER,
        &[(19, Room { h: 1, count: 4 }), (26, Room { h: 2, count: 8 })],
        26,
        "p 5 sent 1 00000000\np 15 start 3 00000000 0\np 26 sent 2 000000fc000000fc\nend p running 26\n",
    ),
    (
        SENDER,
        &[(18, Room { h: 1, count: 4 }), (26, Room { h: 2, count: 8 })],
        26,
        "p 5 sent 1 00000000\np 15 start 3 00000000 0\np 26 sent 2 000000fc00000100\nend p running 26\n",
    ),
    (
        SENDER,
        &[(7, Room { h: 1, count: 4 }), (26, Room { h: 2, count: 8 })],
        26,
        "p 5 sent 1 00000000\np 15 start 3 00000000 0\np 26 sent 2 0000010000000100\nend p running 26\n",
    ),
    // Without the restart the ring ends the wait: the branch is its step 31, and its second round begins with step 32.
    (
        SLEEPER,
        &[
            (23, Room { h: 1, count: 16 }),
            (30, LETTERS),
            (30, Ring { h: 2 }),
            (54, Room { h: 1, count: 16 }),
        ],
        54,
        "q 23 sent 1 0000ffff000000000000000000000100\nq 54 sent 1 00000002000000032000000000000100\nend q running 54\n",
    ),
];

/// Its fifth instruction is `lis r5,0x4142`.
const OTHER_TEXT: Event = CopyIn {
    at: 0x10,
    bytes: &[0x3C, 0xA0, 0x41, 0x42],
};

/// Three bytes come.
const LETTERS: Event = Bytes {
    h: 1,
    bytes: b"ABC",
};

/// Unlike pasts, each with a restart behind its step 30 or 3. What is sent behind it is the same, where as much is outstanding
/// then, and the managed partition runs or doesn't in the same way.
static RESTARTED: [Row<'static>; 8] = [
    // It waits, and three bytes, a ring and a reservation are there: none of it outlives the restart.
    (
        SLEEPER,
        &[
            (23, Room { h: 1, count: 16 }),
            (30, LETTERS),
            (30, Ring { h: 2 }),
            (30, Restart),
            (53, Room { h: 1, count: 16 }),
        ],
        53,
        "q 23 sent 1 0000ffff000000000000000000000100\nq 53 sent 1 0000ffff000000000000000000000100\nend q running 53\n",
    ),
    // the ring's interrupt is in service
    (
        SLEEPER,
        &[
            (10, Ring { h: 2 }),
            (23, Room { h: 1, count: 16 }),
            (30, Restart),
            (53, Room { h: 1, count: 16 }),
        ],
        53,
        "q 23 sent 1 00000002000000000000000000000100\nq 53 sent 1 0000ffff000000000000000000000100\nend q running 53\n",
    ),
    // it was started in between, and is about to send
    (
        SLEEPER,
        &[
            (10, Stop),
            (10, START_AS_IT_STANDS),
            (30, Restart),
            (53, Room { h: 1, count: 16 }),
        ],
        53,
        "q 53 sent 1 0000ffff000000000000000000000100\nend q running 53\n",
    ),
    // a `nop` lies where it sends
    (
        SLEEPER,
        &[
            (
                10,
                CopyIn {
                    at: 0x58,
                    bytes: &[0x60, 0, 0, 0],
                },
            ),
            (30, Restart),
            (53, Room { h: 1, count: 16 }),
        ],
        53,
        "q 53 sent 1 0000ffff000000000000000000000100\nend q running 53\n",
    ),
    // sixteen bytes are outstanding
    (
        SLEEPER,
        &[(30, Restart), (53, Room { h: 1, count: 32 })],
        53,
        "q 23 sent 1 0000ffff000000000000000000000100\nq 53 sent 1 0000ffff0000000000000000000000f0\nend q running 53\n",
    ),
    // the managed partition doesn't run, as is known in two ways, and runs
    (
        ASKER,
        &[(2, HALTED), (3, Restart), (16, Room { h: 1, count: 8 })],
        16,
        "p 16 sent 1 0000000000000000\nend p running 16\n",
    ),
    (
        ASKER,
        &[
            (0, HALTED),
            (1, Stop),
            (1, START),
            (3, Restart),
            (16, Room { h: 1, count: 8 }),
        ],
        16,
        "p 16 sent 1 0000000000000000\nend p running 16\n",
    ),
    (
        ASKER,
        &[(3, Restart), (16, Room { h: 1, count: 8 })],
        16,
        "p 16 sent 1 0000000100000001\nend p running 16\n",
    ),
];

/// Something else comes, or it comes later.
pub fn changed() -> &'static [Row<'static>] {
    &CHANGED
}

/// Unlike pasts before a restart.
pub fn restarted() -> &'static [Row<'static>] {
    &RESTARTED
}
