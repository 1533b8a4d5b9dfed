//! Arithmetic (Power ISA 2.06, Book I, section 3.3.8).

use crate::samples::{CA, Case, EQ, GT, Instruction, LT, OV, PLAIN, SO, SUMMARY, check};
use std::test::*;

/// Sums.
const SUMS: [Instruction; 15] = [
    Instruction {
        text: "add r5, r3, r4",
        word: 0x7CA3_2214,
        cases: &[
            Case {
                a: 0x1,
                b: 0x2,
                result: 0x3,
                ..PLAIN
            },
            // add leaves CA
            Case {
                a: 0xFFFF_FFFF,
                b: 0x1,
                xer: CA,
                xer_after: CA,
                ..PLAIN
            },
        ],
    },
    Instruction {
        text: "add. r5, r3, r4",
        word: 0x7CA3_2215,
        cases: &[
            Case {
                a: 0xFFFF_FFFF,
                b: 0x1,
                cr: EQ,
                ..PLAIN
            },
            Case {
                a: 0x8000_0000,
                b: 0x0,
                result: 0x8000_0000,
                cr: LT,
                ..PLAIN
            },
            // CR0 has SO
            Case {
                a: 0x1,
                b: 0x1,
                xer: SO,
                result: 0x2,
                cr: GT | SUMMARY,
                xer_after: SO,
                ..PLAIN
            },
        ],
    },
    Instruction {
        text: "addo r5, r3, r4",
        word: 0x7CA3_2614,
        cases: &[
            Case {
                a: 0x7FFF_FFFF,
                b: 0x1,
                result: 0x8000_0000,
                xer_after: SO | OV,
                ..PLAIN
            },
            // OV falls, SO stays
            Case {
                a: 0x1,
                b: 0x1,
                xer: SO | OV,
                result: 0x2,
                xer_after: SO,
                ..PLAIN
            },
            Case {
                a: 0x8000_0000,
                b: 0x8000_0000,
                xer_after: SO | OV,
                ..PLAIN
            },
        ],
    },
    Instruction {
        text: "addo. r5, r3, r4",
        word: 0x7CA3_2615,
        cases: &[Case {
            a: 0x7FFF_FFFF,
            b: 0x1,
            result: 0x8000_0000,
            cr: LT | SUMMARY,
            xer_after: SO | OV,
            ..PLAIN
        }],
    },
    Instruction {
        text: "addc r5, r3, r4",
        word: 0x7CA3_2014,
        cases: &[
            Case {
                a: 0xFFFF_FFFF,
                b: 0x1,
                xer_after: CA,
                ..PLAIN
            },
            Case {
                a: 0x1,
                b: 0x1,
                xer: CA,
                result: 0x2,
                ..PLAIN
            },
        ],
    },
    Instruction {
        text: "adde r5, r3, r4",
        word: 0x7CA3_2114,
        cases: &[
            Case {
                a: 0x1,
                b: 0x1,
                xer: CA,
                result: 0x3,
                ..PLAIN
            },
            Case {
                a: 0xFFFF_FFFF,
                b: 0x0,
                xer: CA,
                xer_after: CA,
                ..PLAIN
            },
            Case {
                a: 0xFFFF_FFFF,
                b: 0xFFFF_FFFF,
                xer: CA,
                result: 0xFFFF_FFFF,
                xer_after: CA,
                ..PLAIN
            },
        ],
    },
    Instruction {
        text: "addze r5, r3",
        word: 0x7CA3_0194,
        cases: &[
            Case {
                a: 0xFFFF_FFFF,
                xer: CA,
                xer_after: CA,
                ..PLAIN
            },
            Case {
                a: 0x5,
                result: 0x5,
                ..PLAIN
            },
        ],
    },
    Instruction {
        text: "addme r5, r3",
        word: 0x7CA3_01D4,
        cases: &[
            Case {
                result: 0xFFFF_FFFF,
                ..PLAIN
            },
            Case {
                xer: CA,
                xer_after: CA,
                ..PLAIN
            },
            Case {
                a: 0x5,
                result: 0x4,
                xer_after: CA,
                ..PLAIN
            },
        ],
    },
    Instruction {
        text: "addmeo r5, r3",
        word: 0x7CA3_05D4,
        cases: &[Case {
            a: 0x8000_0000,
            result: 0x7FFF_FFFF,
            xer_after: SO | OV | CA,
            ..PLAIN
        }],
    },
    Instruction {
        text: "addic r5, r3, -1",
        word: 0x30A3_FFFF,
        cases: &[
            Case {
                a: 0x1,
                xer_after: CA,
                ..PLAIN
            },
            Case {
                xer: CA,
                result: 0xFFFF_FFFF,
                ..PLAIN
            },
        ],
    },
    Instruction {
        text: "addic. r5, r3, -1",
        word: 0x34A3_FFFF,
        cases: &[Case {
            a: 0x1,
            cr: EQ,
            xer_after: CA,
            ..PLAIN
        }],
    },
    Instruction {
        text: "addi r5, r3, -1",
        word: 0x38A3_FFFF,
        cases: &[Case {
            a: 0x1,
            xer: CA,
            xer_after: CA,
            ..PLAIN
        }],
    },
    Instruction {
        text: "li r5, -32768",
        word: 0x38A0_8000,
        cases: &[Case {
            a: 0x1,
            result: 0xFFFF_8000,
            ..PLAIN
        }],
    },
    Instruction {
        text: "addis r5, r3, 0x8000",
        word: 0x3CA3_8000,
        cases: &[Case {
            a: 0x8000_0001,
            result: 0x1,
            ..PLAIN
        }],
    },
    Instruction {
        text: "lis r5, 0x1234",
        word: 0x3CA0_1234,
        cases: &[Case {
            a: 0x1,
            result: 0x1234_0000,
            ..PLAIN
        }],
    },
];

/// Differences.
const DIFFERENCES: [Instruction; 10] = [
    Instruction {
        text: "subf r5, r3, r4",
        word: 0x7CA3_2050,
        cases: &[
            Case {
                a: 0x1,
                b: 0x3,
                result: 0x2,
                ..PLAIN
            },
            Case {
                a: 0x3,
                b: 0x1,
                xer: CA,
                result: 0xFFFF_FFFE,
                xer_after: CA,
                ..PLAIN
            },
        ],
    },
    Instruction {
        text: "subfo r5, r3, r4",
        word: 0x7CA3_2450,
        cases: &[Case {
            a: 0x1,
            b: 0x8000_0000,
            result: 0x7FFF_FFFF,
            xer_after: SO | OV,
            ..PLAIN
        }],
    },
    Instruction {
        text: "subfc r5, r3, r4",
        word: 0x7CA3_2010,
        cases: &[
            Case {
                a: 0x1,
                b: 0x3,
                result: 0x2,
                xer_after: CA,
                ..PLAIN
            },
            Case {
                a: 0x3,
                b: 0x1,
                xer: CA,
                result: 0xFFFF_FFFE,
                ..PLAIN
            },
            Case {
                b: 0x0,
                xer_after: CA,
                ..PLAIN
            },
        ],
    },
    Instruction {
        text: "subfe r5, r3, r4",
        word: 0x7CA3_2110,
        cases: &[
            Case {
                a: 0x1,
                b: 0x3,
                result: 0x1,
                xer_after: CA,
                ..PLAIN
            },
            Case {
                a: 0x1,
                b: 0x3,
                xer: CA,
                result: 0x2,
                xer_after: CA,
                ..PLAIN
            },
            Case {
                a: 0x3,
                b: 0x1,
                result: 0xFFFF_FFFD,
                ..PLAIN
            },
        ],
    },
    Instruction {
        text: "subfze r5, r3",
        word: 0x7CA3_0190,
        cases: &[
            Case {
                xer: CA,
                xer_after: CA,
                ..PLAIN
            },
            Case {
                result: 0xFFFF_FFFF,
                ..PLAIN
            },
            Case {
                a: 0x1,
                xer: CA,
                result: 0xFFFF_FFFF,
                ..PLAIN
            },
        ],
    },
    Instruction {
        text: "subfme r5, r3",
        word: 0x7CA3_01D0,
        cases: &[
            Case {
                result: 0xFFFF_FFFE,
                xer_after: CA,
                ..PLAIN
            },
            Case {
                a: 0xFFFF_FFFF,
                result: 0xFFFF_FFFF,
                ..PLAIN
            },
            Case {
                a: 0xFFFF_FFFF,
                xer: CA,
                xer_after: CA,
                ..PLAIN
            },
        ],
    },
    Instruction {
        text: "neg r5, r3",
        word: 0x7CA3_00D0,
        cases: &[
            Case {
                a: 0x1,
                result: 0xFFFF_FFFF,
                ..PLAIN
            },
            PLAIN,
            Case {
                a: 0x8000_0000,
                result: 0x8000_0000,
                ..PLAIN
            },
        ],
    },
    Instruction {
        text: "nego r5, r3",
        word: 0x7CA3_04D0,
        cases: &[
            Case {
                a: 0x8000_0000,
                result: 0x8000_0000,
                xer_after: SO | OV,
                ..PLAIN
            },
            Case {
                a: 0x1,
                xer: SO | OV,
                result: 0xFFFF_FFFF,
                xer_after: SO,
                ..PLAIN
            },
        ],
    },
    Instruction {
        text: "subfic r5, r3, 5",
        word: 0x20A3_0005,
        cases: &[
            Case {
                a: 0x3,
                result: 0x2,
                xer_after: CA,
                ..PLAIN
            },
            Case {
                a: 0x7,
                xer: CA,
                result: 0xFFFF_FFFE,
                ..PLAIN
            },
        ],
    },
    Instruction {
        text: "subfic r5, r3, -1",
        word: 0x20A3_FFFF,
        cases: &[Case {
            result: 0xFFFF_FFFF,
            xer_after: CA,
            ..PLAIN
        }],
    },
];

/// Products.
const PRODUCTS: [Instruction; 6] = [
    Instruction {
        text: "mullw r5, r3, r4",
        word: 0x7CA3_21D6,
        cases: &[Case {
            a: 0xFFFF_FFFF,
            b: 0x5,
            result: 0xFFFF_FFFB,
            ..PLAIN
        }],
    },
    Instruction {
        text: "mullwo r5, r3, r4",
        word: 0x7CA3_25D6,
        cases: &[
            Case {
                a: 0x0001_0000,
                b: 0x0001_0000,
                xer_after: SO | OV,
                ..PLAIN
            },
            Case {
                a: 0xFFFF_FFFF,
                b: 0x8000_0000,
                result: 0x8000_0000,
                xer_after: SO | OV,
                ..PLAIN
            },
            Case {
                a: 0x8000,
                b: 0xFFFF_0000,
                result: 0x8000_0000,
                ..PLAIN
            },
        ],
    },
    Instruction {
        text: "mulhw r5, r3, r4",
        word: 0x7CA3_2096,
        cases: &[
            Case {
                a: 0xFFFF_FFFF,
                b: 0xFFFF_FFFF,
                ..PLAIN
            },
            Case {
                a: 0x8000_0000,
                b: 0x2,
                result: 0xFFFF_FFFF,
                ..PLAIN
            },
            Case {
                a: 0x4000_0000,
                b: 0x4,
                result: 0x1,
                ..PLAIN
            },
        ],
    },
    Instruction {
        text: "mulhw. r5, r3, r4",
        word: 0x7CA3_2097,
        cases: &[Case {
            a: 0x8000_0000,
            b: 0x2,
            result: 0xFFFF_FFFF,
            cr: LT,
            ..PLAIN
        }],
    },
    Instruction {
        text: "mulhwu r5, r3, r4",
        word: 0x7CA3_2016,
        cases: &[
            Case {
                a: 0xFFFF_FFFF,
                b: 0xFFFF_FFFF,
                result: 0xFFFF_FFFE,
                ..PLAIN
            },
            Case {
                a: 0x8000_0000,
                b: 0x2,
                result: 0x1,
                ..PLAIN
            },
        ],
    },
    Instruction {
        text: "mulli r5, r3, -1",
        word: 0x1CA3_FFFF,
        cases: &[Case {
            a: 0x5,
            result: 0xFFFF_FFFB,
            ..PLAIN
        }],
    },
];

/// Quotients, which are 0 where there is none.
const QUOTIENTS: [Instruction; 4] = [
    Instruction {
        text: "divw r5, r3, r4",
        word: 0x7CA3_23D6,
        cases: &[
            Case {
                a: 0xFFFF_FFF9,
                b: 0x2,
                result: 0xFFFF_FFFD,
                ..PLAIN
            },
            Case {
                a: 0x7,
                b: 0xFFFF_FFFE,
                result: 0xFFFF_FFFD,
                ..PLAIN
            },
            Case {
                a: 0x5,
                b: 0x0,
                ..PLAIN
            },
            Case {
                a: 0x8000_0000,
                b: 0xFFFF_FFFF,
                ..PLAIN
            },
        ],
    },
    Instruction {
        text: "divwo r5, r3, r4",
        word: 0x7CA3_27D6,
        cases: &[
            Case {
                a: 0x5,
                b: 0x0,
                xer_after: SO | OV,
                ..PLAIN
            },
            Case {
                a: 0x8000_0000,
                b: 0xFFFF_FFFF,
                xer_after: SO | OV,
                ..PLAIN
            },
            Case {
                a: 0x6,
                b: 0x3,
                xer: SO | OV,
                result: 0x2,
                xer_after: SO,
                ..PLAIN
            },
        ],
    },
    Instruction {
        text: "divwu r5, r3, r4",
        word: 0x7CA3_2396,
        cases: &[
            Case {
                a: 0xFFFF_FFF9,
                b: 0x2,
                result: 0x7FFF_FFFC,
                ..PLAIN
            },
            Case {
                a: 0x5,
                b: 0x0,
                ..PLAIN
            },
        ],
    },
    Instruction {
        text: "divwuo r5, r3, r4",
        word: 0x7CA3_2796,
        cases: &[
            Case {
                a: 0x8000_0000,
                b: 0xFFFF_FFFF,
                ..PLAIN
            },
            Case {
                a: 0x5,
                b: 0x0,
                xer_after: SO | OV,
                ..PLAIN
            },
        ],
    },
];

#[test]
fn arithmetic(rt: HostRuntime) {
    check(&rt, &SUMS);
    check(&rt, &DIFFERENCES);
    check(&rt, &PRODUCTS);
    check(&rt, &QUOTIENTS);
}
