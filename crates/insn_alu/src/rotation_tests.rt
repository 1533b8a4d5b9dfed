//! Rotations and shifts (Power ISA 2.06, Book I, section 3.3.13).

use crate::samples::{CA, Case, GT, Instruction, PLAIN, check};
use std::test::*;

/// Rotations under a mask, which may wrap.
const ROTATIONS: [Instruction; 8] = [
    Instruction {
        text: "slwi r5, r3, 4",
        word: 0x5465_2036,
        cases: &[Case {
            a: 0xF000_000F,
            result: 0xF0,
            ..PLAIN
        }],
    },
    Instruction {
        text: "rlwinm r5, r3, 0, 28, 3",
        word: 0x5465_0706,
        cases: &[Case {
            a: 0x1234_5678,
            result: 0x1000_0008,
            ..PLAIN
        }],
    },
    Instruction {
        text: "rlwinm r5, r3, 0, 16, 15",
        word: 0x5465_041E,
        cases: &[Case {
            a: 0x1234_5678,
            result: 0x1234_5678,
            ..PLAIN
        }],
    },
    Instruction {
        text: "rlwinm r5, r3, 0, 0, 0",
        word: 0x5465_0000,
        cases: &[Case {
            a: 0xFFFF_FFFF,
            result: 0x8000_0000,
            ..PLAIN
        }],
    },
    Instruction {
        text: "rlwinm r5, r3, 0, 31, 31",
        word: 0x5465_07FE,
        cases: &[Case {
            a: 0xFFFF_FFFF,
            result: 0x1,
            ..PLAIN
        }],
    },
    Instruction {
        text: "rlwinm. r5, r3, 0, 31, 31",
        word: 0x5465_07FF,
        cases: &[Case {
            a: 0xFFFF_FFFF,
            result: 0x1,
            cr: GT,
            ..PLAIN
        }],
    },
    Instruction {
        text: "rotlw r5, r3, r4",
        word: 0x5C65_203E,
        cases: &[Case {
            a: 0x8000_0001,
            b: 0x21,
            result: 0x3,
            ..PLAIN
        }],
    },
    Instruction {
        text: "rlwimi r5, r3, 8, 16, 23",
        word: 0x5065_442E,
        cases: &[Case {
            a: 0xAA,
            result: 0x1111_AA11,
            ..PLAIN
        }],
    },
];

/// Shifts, by up to 63 places.
const SHIFTS: [Instruction; 7] = [
    Instruction {
        text: "slw r5, r3, r4",
        word: 0x7C65_2030,
        cases: &[
            Case {
                a: 0x8000_0001,
                b: 0x1,
                result: 0x2,
                ..PLAIN
            },
            Case {
                a: 0x1,
                b: 0x1F,
                result: 0x8000_0000,
                ..PLAIN
            },
            Case {
                a: 0x1,
                b: 0x20,
                ..PLAIN
            },
            Case {
                a: 0x1,
                b: 0x3F,
                ..PLAIN
            },
            Case {
                a: 0x1,
                b: 0x40,
                result: 0x1,
                ..PLAIN
            },
        ],
    },
    Instruction {
        text: "srw r5, r3, r4",
        word: 0x7C65_2430,
        cases: &[
            Case {
                a: 0x8000_0001,
                b: 0x1,
                result: 0x4000_0000,
                ..PLAIN
            },
            Case {
                a: 0x8000_0000,
                b: 0x1F,
                result: 0x1,
                ..PLAIN
            },
            Case {
                a: 0x8000_0000,
                b: 0x20,
                ..PLAIN
            },
            Case {
                a: 0xFFFF_FFFF,
                b: 0x3F,
                ..PLAIN
            },
        ],
    },
    Instruction {
        text: "sraw r5, r3, r4",
        word: 0x7C65_2630,
        cases: &[
            Case {
                a: 0x8000_0001,
                b: 0x1,
                result: 0xC000_0000,
                xer_after: CA,
                ..PLAIN
            },
            Case {
                a: 0x8000_0000,
                b: 0x1,
                xer: CA,
                result: 0xC000_0000,
                ..PLAIN
            },
            Case {
                a: 0x8000_0000,
                b: 0x1F,
                result: 0xFFFF_FFFF,
                ..PLAIN
            },
            Case {
                a: 0x8000_0001,
                b: 0x1F,
                result: 0xFFFF_FFFF,
                xer_after: CA,
                ..PLAIN
            },
            Case {
                a: 0x8000_0000,
                b: 0x20,
                result: 0xFFFF_FFFF,
                xer_after: CA,
                ..PLAIN
            },
            Case {
                a: 0x7FFF_FFFF,
                b: 0x3F,
                xer: CA,
                ..PLAIN
            },
            Case {
                a: 0x5,
                b: 0x0,
                xer: CA,
                result: 0x5,
                ..PLAIN
            },
        ],
    },
    Instruction {
        text: "srawi r5, r3, 1",
        word: 0x7C65_0E70,
        cases: &[
            Case {
                a: 0xFFFF_FFFF,
                result: 0xFFFF_FFFF,
                xer_after: CA,
                ..PLAIN
            },
            Case {
                a: 0xFFFF_FFFE,
                xer: CA,
                result: 0xFFFF_FFFF,
                ..PLAIN
            },
        ],
    },
    Instruction {
        text: "srawi r5, r3, 0",
        word: 0x7C65_0670,
        cases: &[Case {
            a: 0xFFFF_FFFF,
            xer: CA,
            result: 0xFFFF_FFFF,
            ..PLAIN
        }],
    },
    Instruction {
        text: "srawi r5, r3, 31",
        word: 0x7C65_FE70,
        cases: &[Case {
            a: 0x8000_0000,
            result: 0xFFFF_FFFF,
            ..PLAIN
        }],
    },
    Instruction {
        text: "srawi. r5, r3, 1",
        word: 0x7C65_0E71,
        cases: &[Case {
            a: 0x2,
            result: 0x1,
            cr: GT,
            ..PLAIN
        }],
    },
];

#[test]
fn rotations_and_shifts(rt: HostRuntime) {
    check(&rt, &ROTATIONS);
    check(&rt, &SHIFTS);
}
