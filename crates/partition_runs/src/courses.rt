//! Images, and how their runs were worked out.

use crate::drafts::Place;
use crate::images::*;
use crate::turns::Seen::*;
use crate::turns::Turn;
use crate::turns::Turn::*;
use core_step::Wrote;
use machine_desc::State;

/// A run of the built-in machine: the words of its image, and its turns.
pub type Course = (&'static [u32], &'static [Turn]);

static COURSES: [Course; 25] = [
    // runs that send
    (&HELLO, &[Quiet(5), Sends(b"Hi"), Quiet(1), See(Steps(7))]),
    (&HELLO, &[See(Steps(0))]),
    (&SEVENTEEN, &[Quiet(8), Sends(&[0, 0, 0, 8]), See(Steps(9))]),
    (
        &UNLISTED,
        &[Quiet(7), Sends(&[0, 0, 0, 12]), Quiet(1), See(Steps(9))],
    ),
    // A send of no bytes is no act.
    (
        &[
            0x3D60_0001,
            0x616B_0001,
            0x3860_0001,
            0x3880_0000,
            0x4400_0022,
        ],
        &[Quiet(5), See(Steps(5))],
    ),
    // sixteen bytes in each fourth step from step 5 on, of which five are taken at last; so there is room for five more, and
    // then for none, and the caller is told to try again
    (
        &FLOOD,
        &[
            Quiet(1),
            Floods(15),
            Quiet(3),
            Gives(16, 5),
            Quiet(3),
            Gives(5, 0),
            Quiet(4),
            See(Steps(73)),
            See(Registers(&[(3, 4), (4, 0)])),
        ],
    ),
    // a machine check stops where it is not enabled: lis r3,1; lwz r4,0(r3)
    (
        &[0x3C60_0001, 0x8083_0000],
        &[Quiet(1), Faults, See(Is(State::Faulted)), See(At(2, 4))],
    ),
    // tlbilx with T of 2 is no instruction: its program interrupt goes to 0
    (&[0x7C40_0024], &[Quiet(1), See(Esr(0x0800_0000))]),
    // tlbre of a slot of TLB0 that was never written, and mfspr r24,MAS1
    (
        &[0x7C00_0764, 0x7F11_9AA6],
        &[Quiet(2), See(Registers(&[(24, 0x100)]))],
    ),
    (
        &CLOCK,
        &[
            Quiet(17),
            See(Registers(&[
                (24, 0x0800_0000),
                (25, 0x0800_0000),
                (26, 0x30),
                (27, 0x1000_0000),
                (28, 0x1000_8000),
                (29, 1),
                (30, 0),
            ])),
        ],
    ),
    (
        &BOTH,
        &[
            Quiet(24),
            See(Registers(&[(24, 0x38), (25, 1), (26, 0x38), (27, 24), (30, 0)])),
        ],
    ),
    (
        &NESTED,
        &[
            Quiet(35),
            See(Registers(&[
                (16, 0x1000_1000),
                (20, 0x24),
                (21, 0x0800_0000),
                (22, 0x70),
                (23, 0x1000_1000),
                (24, 0x48),
                (25, 0x1000_1000),
                (26, 0x1000_0000),
                (29, 0x55),
                (30, 0x77),
                (31, 0),
            ])),
        ],
    ),
    (
        &IDLE,
        &[
            Quiet(21),
            See(Registers(&[(24, 8), (25, 0x0800_0000), (26, 20), (27, 0x3C), (30, 0)])),
        ],
    ),
    (
        &RESERVE,
        &[
            Quiet(16),
            See(Registers(&[
                (5, 0x77),
                (20, 0x2000_0000),
                (21, 0x77),
                (22, 0x2000_0000),
                (23, 0x66),
                (24, 0),
                (25, 0x66),
            ])),
        ],
    ),
    (
        &CROSS,
        &[
            Quiet(12),
            See(Registers(&[(24, 0x20), (25, 0x1234_5678), (26, 0x5678)])),
        ],
    ),
    (
        &CROSSING,
        &[
            Quiet(171),
            See(Registers(&[
                (3, 0),
                (4, 0),
                (5, 0),
                (6, 0),
                (16, 0x0400_1000),
                (17, 0x0400_1000),
                (18, 0x0080_0000),
                (19, 2),
                (20, 0x0402_1000),
                (21, 0x0080_0000),
                (22, 1),
                (23, 0),
                (24, 0),
                (25, 2),
                (26, 0x0404_1000),
                (27, 0x0082_0000),
                (28, 0),
            ])),
        ],
    ),
    (
        &PERMISSIONS,
        &[
            Quiet(131),
            See(Registers(&[
                (20, 0x0401_0000),
                (21, 0),
                (22, 0x0402_0000),
                (23, 0x0002_0000),
                (24, 0x0403_0000),
                (25, 0),
                (26, 0x0403_0000),
                (27, 0),
                (28, 0x0403_0004),
                (29, 0x0080_0000),
                (30, 0),
            ])),
        ],
    ),
    (
        &WRAP,
        &[
            Quiet(19),
            See(Registers(&[(24, 0x5678_1001), (25, 0x1234_1234), (26, 0x1234_1234)])),
        ],
    ),
    (
        &PROCESSES,
        &[
            Quiet(42),
            See(Registers(&[
                (24, 0x8007_0100),
                (25, 0x0002_0003),
                (26, 7),
                (27, 0x0000_0C00),
                (28, 0x1001_0002),
                (29, 1),
            ])),
        ],
    ),
    // a doorbell
    // rung before it is unmasked, and never
    (
        &BELL,
        &[
            Quiet(3),
            Ring,
            Quiet(6),
            See(Registers(&[(3, 0), (4, 2), (5, 2)])),
        ],
    ),
    (
        &BELL,
        &[
            Quiet(3),
            Quiet(6),
            See(Registers(&[(3, 0), (4, 0xFFFF), (5, 0xFFFF)])),
        ],
    ),
    // it ends a wait in the next step, whether MSR[EE] lets it in or not
    (
        &WAITS,
        &[
            Quiet(10),
            Ring,
            Quiet(2),
            See(Registers(&[(3, 0), (24, 11)])),
        ],
    ),
    (
        &WAITS,
        &[Quiet(10), Quiet(2), See(Registers(&[(3, 0), (24, 0)]))],
    ),
    (
        &WOKEN,
        &[
            Quiet(13),
            Ring,
            Quiet(5),
            See(Registers(&[
                (24, 15),
                (25, 0),
                (26, 0x2C),
                (27, 0x1000_8000),
                (28, 0x1000_0000),
            ])),
        ],
    ),
    // a copy, where there is no managed partition
    (
        &[0x3D60_0002, 0x616B_0008, 0x4400_0022],
        &[
            Quiet(3),
            See(Clocks(3, 0, false)),
            See(Registers(&[(3, 8)])),
        ],
    ),
];

/// Runs of the built-in machine.
pub fn courses() -> &'static [Course] {
    &COURSES
}

/// What `stwcx.` stores where the reservation holds.
pub const STORE: [Wrote; 1] = [Wrote {
    extent: 1,
    at: 0x40,
    len: 4,
}];

/// CR where `stwcx.` stored nothing.
pub const LOST: u32 = 0;

/// CR where it stored.
pub const KEPT: u32 = 0x2000_0000;

/// A run of a machine of several regions: they, the bytes of each extent, the words of its image, and its turns.
pub type Layout = (
    &'static [Place],
    &'static [u32],
    &'static [u32],
    &'static [Turn],
);

static LAYOUTS: [Layout; 7] = [
    // two private regions side by side
    (
        &[(0, 0x1000, 0, true), (0x1000, 0x1000, 1, true)],
        &[0x1000, 0x1000],
        &SIDES,
        &[
            Shares(7, &[]),
            See(Registers(&[(24, 0x1234), (25, 0x5678), (26, 0x1234_5678), (27, 0x3CA0)])),
        ],
    ),
    // their extents in the other order, and the second one shared
    (
        &[(0, 0x1000, 2, true), (0x1000, 0x2000, 0, false)],
        &[0x2000, 0x3000, 0x1000],
        &SIDES,
        &[
            Shares(
                7,
                &[Wrote {
                    extent: 0,
                    at: 0,
                    len: 2,
                }],
            ),
            See(Registers(&[(24, 0x1234), (25, 0x5678), (26, 0x1234_5678), (27, 0x3CA0)])),
        ],
    ),
    // The machine check comes at the second page, and no byte moves.
    // a gap between two regions
    (
        &[(0, 0x1000, 0, true), (0x2000, 0x1000, 1, false)],
        &[0x1000, 0x1000],
        &GAP,
        &[
            Shares(11, &[]),
            See(Registers(&[(24, 0x18), (25, 0), (26, 0), (27, 0)])),
        ],
    ),
    // a region above 4 GiB
    (
        &[(0, 0x1000, 0, true), (0x3_0000_0000, 0x2000, 1, false)],
        &[0x1000, 0x2000],
        &ABOVE,
        &[
            Shares(
                17,
                &[Wrote {
                    extent: 1,
                    at: 0x1008,
                    len: 4,
                }],
            ),
            See(Registers(&[(24, 0x1234_5678), (25, 0x3C60_8000)])),
        ],
    ),
    // a translation over the ends of regions
    (
        &[
            (0x1_0000_3000, 0x1000, 2, false),
            (0, 0x1000, 1, true),
            (0x1_0000_0000, 0x2000, 0, false),
        ],
        &[0x2000, 0x1000, 0x1000],
        &OVER,
        &[
            Shares(
                25,
                &[
                    Wrote {
                        extent: 0,
                        at: 0x1FFC,
                        len: 4,
                    },
                    Wrote {
                        extent: 2,
                        at: 0,
                        len: 4,
                    },
                ],
            ),
            See(Registers(&[(24, 0x70), (25, 0x1234_5678), (26, 0x1234_5678)])),
        ],
    ),
    // a cleared block, and several words, at the edge of two regions
    (
        &[
            (0, 0x1000, 2, true),
            (0x1000, 0x1000, 1, false),
            (0x2000, 0x1000, 0, false),
        ],
        &[0x1000, 0x1000, 0x1000],
        &EDGE,
        &[
            Shares(
                16,
                &[
                    Wrote {
                        extent: 1,
                        at: 0xFBC,
                        len: 4,
                    },
                    Wrote {
                        extent: 1,
                        at: 0xFC0,
                        len: 4,
                    },
                    Wrote {
                        extent: 1,
                        at: 0xFFC,
                        len: 4,
                    },
                    Wrote {
                        extent: 0,
                        at: 0,
                        len: 4,
                    },
                    Wrote {
                        extent: 1,
                        at: 0xFC0,
                        len: 64,
                    },
                    Wrote {
                        extent: 1,
                        at: 0xFFC,
                        len: 4,
                    },
                    Wrote {
                        extent: 0,
                        at: 0,
                        len: 4,
                    },
                ],
            ),
            See(Registers(&[
                (20, 0x1234_5678),
                (21, 0),
                (22, 0),
                (23, 0x1234_5678),
                (28, 0),
                (29, 30),
                (30, 31),
                (31, 0),
            ])),
        ],
    ),
    // What another partition stores between a `lwarx` at 0x1040 and its `stwcx.` ends the reservation, where it is in its block:
    // extent 1 is shared and lies at 0x1000, extent 0 is private.
    (
        &[(0, 0x1000, 0, true), (0x1000, 0x1000, 1, false)],
        &[0x1000, 0x1000],
        &STORES,
        &[
            Quiet(2),
            Stored(1, 0x40, 4),
            Quiet(2),
            See(Registers(&[(6, LOST)])),
            Quiet(3),
            Stored(1, 0x7F, 1),
            Quiet(2),
            See(Registers(&[(6, LOST)])),
            Quiet(3),
            Stored(1, 0x3E, 4),
            Quiet(2),
            See(Registers(&[(6, LOST)])),
            Quiet(3),
            Stored(1, 0x3C, 4),
            Shares(2, &STORE),
            See(Registers(&[(6, KEPT)])),
            Quiet(3),
            Stored(1, 0x80, 64),
            Shares(2, &STORE),
            See(Registers(&[(6, KEPT)])),
            Quiet(3),
            Stored(1, 0x50, 0),
            Shares(2, &STORE),
            See(Registers(&[(6, KEPT)])),
            Quiet(3),
            Stored(0, 0x40, 4),
            Shares(2, &STORE),
            See(Registers(&[(6, KEPT)])),
            Quiet(3),
            Stored(2, 0x40, 4),
            Shares(2, &STORE),
            See(Registers(&[(6, KEPT)])),
            Quiet(1),
        ],
    ),
];

/// Runs of machines of several regions.
pub fn layouts() -> &'static [Layout] {
    &LAYOUTS
}

/// What a machine begins with: the place of its tree, its entry, whether it is held, and what is seen then.
pub type Start = (u64, u32, bool, &'static [Turn]);

static STARTS: [Start; 2] = [
    (
        0,
        0,
        false,
        &[
            See(Is(State::Running)),
            See(Held(false)),
            See(At(0, 0)),
            See(Registers(&[(3, 0)])),
            See(Msr(0x1000_0000)),
        ],
    ),
    (
        0x0123_4567,
        0x20,
        true,
        &[
            See(Is(State::Stopped)),
            See(Held(true)),
            See(At(0, 0x20)),
            See(Registers(&[(3, 0x0123_4567)])),
            See(Msr(0x1000_0000)),
        ],
    ),
];

/// What machines begin with.
pub fn starts() -> &'static [Start] {
    &STARTS
}
