//! The condition register (Power ISA 2.06, Book I, section 2.5), comparisons (3.3.9) and traps (3.3.10).

use super::*;
use crate::samples::{SO, registers};
use insn::decode;
use std::process::Abort;
use std::test::*;

/// An instruction that changes CR alone, as an assembler writes it, and its cases.
struct Instruction {
    text: &'static str,
    word: u32,
    cases: &'static [Case],
}

/// What it finds, and CR after it.
#[derive(Clone, Copy)]
struct Case {
    /// (r3)
    a: u32,
    /// (r4)
    b: u32,
    cr: u32,
    xer: u32,
    cr_after: u32,
}

const PLAIN: Case = Case {
    a: 0,
    b: 0,
    cr: 0,
    xer: 0,
    cr_after: 0,
};

/// Bits of CR from bits 1 and 2.
const BITS: [Instruction; 9] = [
    Instruction {
        text: "crand 0, 1, 2",
        word: 0x4C01_1202,
        cases: &[
            Case {
                cr: 0x4000_0000,
                cr_after: 0x4000_0000,
                ..PLAIN
            },
            Case {
                cr: 0x6000_0000,
                cr_after: 0xE000_0000,
                ..PLAIN
            },
            Case {
                cr: 0x2000_0000,
                cr_after: 0x2000_0000,
                ..PLAIN
            },
            PLAIN,
        ],
    },
    Instruction {
        text: "cror 0, 1, 2",
        word: 0x4C01_1382,
        cases: &[
            Case {
                cr: 0x4000_0000,
                cr_after: 0xC000_0000,
                ..PLAIN
            },
            Case {
                cr: 0x6000_0000,
                cr_after: 0xE000_0000,
                ..PLAIN
            },
            Case {
                cr: 0x2000_0000,
                cr_after: 0xA000_0000,
                ..PLAIN
            },
            PLAIN,
        ],
    },
    Instruction {
        text: "crxor 0, 1, 2",
        word: 0x4C01_1182,
        cases: &[
            Case {
                cr: 0x4000_0000,
                cr_after: 0xC000_0000,
                ..PLAIN
            },
            Case {
                cr: 0x6000_0000,
                cr_after: 0x6000_0000,
                ..PLAIN
            },
            Case {
                cr: 0x2000_0000,
                cr_after: 0xA000_0000,
                ..PLAIN
            },
            PLAIN,
        ],
    },
    Instruction {
        text: "crnand 0, 1, 2",
        word: 0x4C01_11C2,
        cases: &[
            Case {
                cr: 0x4000_0000,
                cr_after: 0xC000_0000,
                ..PLAIN
            },
            Case {
                cr: 0x6000_0000,
                cr_after: 0x6000_0000,
                ..PLAIN
            },
            Case {
                cr: 0x2000_0000,
                cr_after: 0xA000_0000,
                ..PLAIN
            },
            Case {
                cr_after: 0x8000_0000,
                ..PLAIN
            },
        ],
    },
    Instruction {
        text: "crnor 0, 1, 2",
        word: 0x4C01_1042,
        cases: &[
            Case {
                cr: 0x4000_0000,
                cr_after: 0x4000_0000,
                ..PLAIN
            },
            Case {
                cr: 0x6000_0000,
                cr_after: 0x6000_0000,
                ..PLAIN
            },
            Case {
                cr: 0x2000_0000,
                cr_after: 0x2000_0000,
                ..PLAIN
            },
            Case {
                cr_after: 0x8000_0000,
                ..PLAIN
            },
        ],
    },
    Instruction {
        text: "crandc 0, 1, 2",
        word: 0x4C01_1102,
        cases: &[
            Case {
                cr: 0x4000_0000,
                cr_after: 0xC000_0000,
                ..PLAIN
            },
            Case {
                cr: 0x6000_0000,
                cr_after: 0x6000_0000,
                ..PLAIN
            },
            Case {
                cr: 0x2000_0000,
                cr_after: 0x2000_0000,
                ..PLAIN
            },
            PLAIN,
        ],
    },
    Instruction {
        text: "creqv 0, 1, 2",
        word: 0x4C01_1242,
        cases: &[
            Case {
                cr: 0x4000_0000,
                cr_after: 0x4000_0000,
                ..PLAIN
            },
            Case {
                cr: 0x6000_0000,
                cr_after: 0xE000_0000,
                ..PLAIN
            },
            Case {
                cr: 0x2000_0000,
                cr_after: 0x2000_0000,
                ..PLAIN
            },
            Case {
                cr_after: 0x8000_0000,
                ..PLAIN
            },
        ],
    },
    Instruction {
        text: "crorc 0, 1, 2",
        word: 0x4C01_1342,
        cases: &[
            Case {
                cr: 0x4000_0000,
                cr_after: 0xC000_0000,
                ..PLAIN
            },
            Case {
                cr: 0x6000_0000,
                cr_after: 0xE000_0000,
                ..PLAIN
            },
            Case {
                cr: 0x2000_0000,
                cr_after: 0x2000_0000,
                ..PLAIN
            },
            Case {
                cr_after: 0x8000_0000,
                ..PLAIN
            },
        ],
    },
    Instruction {
        text: "cror 31, 1, 2",
        word: 0x4FE1_1382,
        cases: &[Case {
            cr: 0x2000_0000,
            cr_after: 0x2000_0001,
            ..PLAIN
        }],
    },
];

/// Fields of CR.
const FIELDS: [Instruction; 5] = [
    Instruction {
        text: "mcrf cr2, cr6",
        word: 0x4D18_0000,
        cases: &[Case {
            cr: 0xA0,
            cr_after: 0x00A0_00A0,
            ..PLAIN
        }],
    },
    Instruction {
        text: "mtcrf 0x81, r3",
        word: 0x7C68_1120,
        cases: &[Case {
            a: 0x1234_5678,
            cr_after: 0x1000_0008,
            ..PLAIN
        }],
    },
    Instruction {
        text: "mtcrf 0x80, r3",
        word: 0x7C68_0120,
        cases: &[Case {
            a: 0x1234_5678,
            cr: 0xFFFF_FFFF,
            cr_after: 0x1FFF_FFFF,
            ..PLAIN
        }],
    },
    Instruction {
        text: "mtcr r3",
        word: 0x7C6F_F120,
        cases: &[Case {
            a: 0x1234_5678,
            cr: 0xFFFF_FFFF,
            cr_after: 0x1234_5678,
            ..PLAIN
        }],
    },
    Instruction {
        text: "mtocrf 0, r3",
        word: 0x7C70_0120,
        cases: &[Case {
            a: 0x1234_5678,
            ..PLAIN
        }],
    },
];

/// Comparisons.
const COMPARISONS: [Instruction; 5] = [
    Instruction {
        text: "cmpw r3, r4",
        word: 0x7C03_2000,
        cases: &[Case {
            a: 0xFFFF_FFFF,
            b: 0x1,
            cr_after: 0x8000_0000,
            ..PLAIN
        }],
    },
    Instruction {
        text: "cmplw r3, r4",
        word: 0x7C03_2040,
        cases: &[Case {
            a: 0xFFFF_FFFF,
            b: 0x1,
            cr_after: 0x4000_0000,
            ..PLAIN
        }],
    },
    Instruction {
        text: "cmpw cr7, r3, r4",
        word: 0x7F83_2000,
        cases: &[Case {
            a: 0x5,
            b: 0x5,
            cr: 0xF000_0000,
            xer: SO,
            cr_after: 0xF000_0003,
            ..PLAIN
        }],
    },
    Instruction {
        text: "cmpwi r3, -1",
        word: 0x2C03_FFFF,
        cases: &[Case {
            b: 0x9,
            cr_after: 0x4000_0000,
            ..PLAIN
        }],
    },
    Instruction {
        text: "cmplwi r3, 0xFFFF",
        word: 0x2803_FFFF,
        cases: &[Case {
            b: 0x9,
            cr_after: 0x8000_0000,
            ..PLAIN
        }],
    },
];

/// Does each case of some instructions.
fn check(rt: &impl Abort, instructions: &[Instruction]) {
    for instruction in instructions {
        let text = instruction.text;
        for case in instruction.cases {
            let mut regs = registers(case.a, case.b);
            regs.set_cr(case.cr);
            regs.set_xer(case.xer);
            let effect = exec(&decode(instruction.word), &mut regs);
            assert_eq!(rt; effect, Effect::Done, "{text}");
            assert_eq!(rt;
                (regs.cr(), regs.xer(), regs.pc()),
                (case.cr_after, case.xer, 0x104),
                "{text} at {:x}",
                case.cr
            );
        }
    }
}

#[test]
fn conditions(rt: HostRuntime) {
    check(&rt, &BITS);
    check(&rt, &FIELDS);
    check(&rt, &COMPARISONS);
}

/// A trap, as an assembler writes it, and its cases.
struct Trap {
    text: &'static str,
    word: u32,
    cases: &'static [TrapCase],
}

/// What it finds, and whether it traps.
#[derive(Clone, Copy)]
struct TrapCase {
    /// (r3)
    a: u32,
    /// (r4)
    b: u32,
    traps: bool,
}

const TRAPS: [Trap; 9] = [
    Trap {
        text: "twlt r3, r4",
        word: 0x7E03_2008,
        cases: &[
            TrapCase {
                a: 0xFFFF_FFFF,
                b: 0x1,
                traps: true,
            },
            TrapCase {
                a: 0x1,
                b: 0xFFFF_FFFF,
                traps: false,
            },
        ],
    },
    Trap {
        text: "twgt r3, r4",
        word: 0x7D03_2008,
        cases: &[
            TrapCase {
                a: 0x1,
                b: 0xFFFF_FFFF,
                traps: true,
            },
            TrapCase {
                a: 0xFFFF_FFFF,
                b: 0x1,
                traps: false,
            },
        ],
    },
    Trap {
        text: "tweq r3, r4",
        word: 0x7C83_2008,
        cases: &[
            TrapCase {
                a: 0x5,
                b: 0x5,
                traps: true,
            },
            TrapCase {
                a: 0x5,
                b: 0x6,
                traps: false,
            },
        ],
    },
    Trap {
        text: "twllt r3, r4",
        word: 0x7C43_2008,
        cases: &[
            TrapCase {
                a: 0x1,
                b: 0xFFFF_FFFF,
                traps: true,
            },
            TrapCase {
                a: 0xFFFF_FFFF,
                b: 0x1,
                traps: false,
            },
        ],
    },
    Trap {
        text: "twlgt r3, r4",
        word: 0x7C23_2008,
        cases: &[
            TrapCase {
                a: 0xFFFF_FFFF,
                b: 0x1,
                traps: true,
            },
            TrapCase {
                a: 0x1,
                b: 0xFFFF_FFFF,
                traps: false,
            },
        ],
    },
    Trap {
        text: "tweqi r3, -1",
        word: 0x0C83_FFFF,
        cases: &[TrapCase {
            a: 0xFFFF_FFFF,
            b: 0x0,
            traps: true,
        }],
    },
    Trap {
        text: "tweqi r3, 5",
        word: 0x0C83_0005,
        cases: &[TrapCase {
            a: 0xFFFF_FFFF,
            b: 0x0,
            traps: false,
        }],
    },
    Trap {
        text: "twlti r3, 0",
        word: 0x0E03_0000,
        cases: &[TrapCase {
            a: 0xFFFF_FFFF,
            b: 0x0,
            traps: true,
        }],
    },
    Trap {
        text: "twllti r3, 0",
        word: 0x0C43_0000,
        cases: &[TrapCase {
            a: 0xFFFF_FFFF,
            b: 0x0,
            traps: false,
        }],
    },
];

#[test]
fn traps(rt: HostRuntime) {
    for trap in TRAPS.iter() {
        let text = trap.text;
        for case in trap.cases {
            let effect = exec(&decode(trap.word), &mut registers(case.a, case.b));
            let expected = if case.traps {
                Effect::Trap
            } else {
                Effect::Done
            };
            assert_eq!(rt; effect, expected, "{text} of {:x} and {:x}", case.a, case.b);
        }
    }
}
