//! Logic (Power ISA 2.06, Book I, section 3.3.12).

use crate::samples::{Case, EQ, Instruction, LT, PLAIN, SO, SUMMARY, check};
use std::test::*;

/// Logic, signs and leading zeros.
const LOGIC: [Instruction; 20] = [
    Instruction {
        text: "ori r5, r3, 0x8001",
        word: 0x6065_8001,
        cases: &[Case {
            a: 0x1,
            result: 0x8001,
            ..PLAIN
        }],
    },
    Instruction {
        text: "oris r5, r3, 0x8001",
        word: 0x6465_8001,
        cases: &[Case {
            a: 0x1,
            result: 0x8001_0001,
            ..PLAIN
        }],
    },
    Instruction {
        text: "xori r5, r3, 0xFFFF",
        word: 0x6865_FFFF,
        cases: &[Case {
            a: 0xFFFF_0F0F,
            result: 0xFFFF_F0F0,
            ..PLAIN
        }],
    },
    Instruction {
        text: "xoris r5, r3, 0xFFFF",
        word: 0x6C65_FFFF,
        cases: &[Case {
            a: 0xFFFF_0F0F,
            result: 0xF0F,
            ..PLAIN
        }],
    },
    Instruction {
        text: "andi. r5, r3, 0xFFFF",
        word: 0x7065_FFFF,
        cases: &[Case {
            a: 0x8000_0000,
            cr: EQ,
            ..PLAIN
        }],
    },
    Instruction {
        text: "andis. r5, r3, 0x8000",
        word: 0x7465_8000,
        cases: &[Case {
            a: 0x8000_0001,
            result: 0x8000_0000,
            cr: LT,
            ..PLAIN
        }],
    },
    Instruction {
        text: "and r5, r3, r4",
        word: 0x7C65_2038,
        cases: &[Case {
            a: 0xF0F0_F0F0,
            b: 0xFF00_FF00,
            result: 0xF000_F000,
            ..PLAIN
        }],
    },
    Instruction {
        text: "andc r5, r3, r4",
        word: 0x7C65_2078,
        cases: &[Case {
            a: 0xF0F0_F0F0,
            b: 0xFF00_FF00,
            result: 0x00F0_00F0,
            ..PLAIN
        }],
    },
    Instruction {
        text: "nor r5, r3, r4",
        word: 0x7C65_20F8,
        cases: &[Case {
            a: 0xF0F0_F0F0,
            b: 0xFF00_FF00,
            result: 0x000F_000F,
            ..PLAIN
        }],
    },
    Instruction {
        text: "eqv r5, r3, r4",
        word: 0x7C65_2238,
        cases: &[Case {
            a: 0xF0F0_F0F0,
            b: 0xFF00_FF00,
            result: 0xF00F_F00F,
            ..PLAIN
        }],
    },
    Instruction {
        text: "xor r5, r3, r4",
        word: 0x7C65_2278,
        cases: &[Case {
            a: 0xF0F0_F0F0,
            b: 0xFF00_FF00,
            result: 0x0FF0_0FF0,
            ..PLAIN
        }],
    },
    Instruction {
        text: "orc r5, r3, r4",
        word: 0x7C65_2338,
        cases: &[Case {
            a: 0xF0F0_F0F0,
            b: 0xFF00_FF00,
            result: 0xF0FF_F0FF,
            ..PLAIN
        }],
    },
    Instruction {
        text: "or r5, r3, r4",
        word: 0x7C65_2378,
        cases: &[Case {
            a: 0xF0F0_F0F0,
            b: 0xFF00_FF00,
            result: 0xFFF0_FFF0,
            ..PLAIN
        }],
    },
    Instruction {
        text: "nand r5, r3, r4",
        word: 0x7C65_23B8,
        cases: &[Case {
            a: 0xF0F0_F0F0,
            b: 0xFF00_FF00,
            result: 0x0FFF_0FFF,
            ..PLAIN
        }],
    },
    Instruction {
        text: "and. r5, r3, r4",
        word: 0x7C65_2039,
        cases: &[Case {
            a: 0xF0F0_F0F0,
            b: 0xFF00_FF00,
            result: 0xF000_F000,
            cr: LT,
            ..PLAIN
        }],
    },
    Instruction {
        text: "or. r5, r3, r4",
        word: 0x7C65_2379,
        cases: &[Case {
            b: 0x0,
            xer: SO,
            cr: EQ | SUMMARY,
            xer_after: SO,
            ..PLAIN
        }],
    },
    Instruction {
        text: "cntlzw r5, r3",
        word: 0x7C65_0034,
        cases: &[
            Case {
                result: 0x20,
                ..PLAIN
            },
            Case {
                a: 0x1,
                result: 0x1F,
                ..PLAIN
            },
        ],
    },
    Instruction {
        text: "cntlzw. r5, r3",
        word: 0x7C65_0035,
        cases: &[Case {
            a: 0x8000_0000,
            cr: EQ,
            ..PLAIN
        }],
    },
    Instruction {
        text: "extsb r5, r3",
        word: 0x7C65_0774,
        cases: &[
            Case {
                a: 0x80,
                result: 0xFFFF_FF80,
                ..PLAIN
            },
            Case {
                a: 0x17F,
                result: 0x7F,
                ..PLAIN
            },
        ],
    },
    Instruction {
        text: "extsh r5, r3",
        word: 0x7C65_0734,
        cases: &[
            Case {
                a: 0x8000,
                result: 0xFFFF_8000,
                ..PLAIN
            },
            Case {
                a: 0x0001_7FFF,
                result: 0x7FFF,
                ..PLAIN
            },
        ],
    },
];

#[test]
fn logic(rt: HostRuntime) {
    check(&rt, &LOGIC);
}
