//! Branches (Power ISA 2.06, Book I, section 2.4).

use super::*;
use crate::samples::{EQ, registers};
use insn::decode;
use std::test::*;

/// A branch at 0x100, as an assembler writes it, and its cases.
struct Branch {
    text: &'static str,
    word: u32,
    cases: &'static [Case],
}

/// What a branch finds, and what it leaves.
#[derive(Clone, Copy)]
struct Case {
    cr: u32,
    ctr: u32,
    lr: u32,
    pc: u32,
    ctr_after: u32,
    lr_after: u32,
}

/// A branch that goes on.
const PLAIN: Case = Case {
    cr: 0,
    ctr: 0,
    lr: 0,
    pc: 0x104,
    ctr_after: 0,
    lr_after: 0,
};

const BRANCHES: [Branch; 19] = [
    Branch {
        text: "b .+8",
        word: 0x4800_0008,
        cases: &[Case { pc: 0x108, ..PLAIN }],
    },
    Branch {
        text: "bl .-4",
        word: 0x4BFF_FFFD,
        cases: &[Case {
            pc: 0xFC,
            lr_after: 0x104,
            ..PLAIN
        }],
    },
    Branch {
        text: "ba 0x40",
        word: 0x4800_0042,
        cases: &[Case { pc: 0x40, ..PLAIN }],
    },
    Branch {
        text: "bla 0x40",
        word: 0x4800_0043,
        cases: &[Case {
            pc: 0x40,
            lr_after: 0x104,
            ..PLAIN
        }],
    },
    Branch {
        text: "bdnz .-4",
        word: 0x4200_FFFC,
        cases: &[
            Case {
                ctr: 0x2,
                pc: 0xFC,
                ctr_after: 0x1,
                ..PLAIN
            },
            Case { ctr: 0x1, ..PLAIN },
            Case {
                pc: 0xFC,
                ctr_after: 0xFFFF_FFFF,
                ..PLAIN
            },
        ],
    },
    Branch {
        text: "bdz .+8",
        word: 0x4240_0008,
        cases: &[
            Case {
                ctr: 0x1,
                pc: 0x108,
                ..PLAIN
            },
            Case {
                ctr: 0x2,
                ctr_after: 0x1,
                ..PLAIN
            },
        ],
    },
    Branch {
        text: "beq .+8",
        word: 0x4182_0008,
        cases: &[
            Case {
                cr: EQ,
                ctr: 0x5,
                pc: 0x108,
                ctr_after: 0x5,
                ..PLAIN
            },
            Case {
                ctr: 0x5,
                ctr_after: 0x5,
                ..PLAIN
            },
        ],
    },
    Branch {
        text: "bne .+8",
        word: 0x4082_0008,
        cases: &[
            Case {
                cr: EQ,
                ctr: 0x5,
                ctr_after: 0x5,
                ..PLAIN
            },
            Case {
                ctr: 0x5,
                pc: 0x108,
                ctr_after: 0x5,
                ..PLAIN
            },
        ],
    },
    Branch {
        text: "bdnzt eq, .+8",
        word: 0x4102_0008,
        cases: &[
            Case {
                cr: EQ,
                ctr: 0x2,
                pc: 0x108,
                ctr_after: 0x1,
                ..PLAIN
            },
            Case {
                cr: EQ,
                ctr: 0x1,
                ..PLAIN
            },
            Case {
                ctr: 0x2,
                ctr_after: 0x1,
                ..PLAIN
            },
        ],
    },
    Branch {
        text: "beql .+8",
        word: 0x4182_0009,
        cases: &[
            // not taken
            Case {
                ctr: 0x5,
                ctr_after: 0x5,
                lr_after: 0x104,
                ..PLAIN
            },
        ],
    },
    Branch {
        text: "beqa 8",
        word: 0x4182_000A,
        cases: &[Case {
            cr: EQ,
            ctr: 0x5,
            pc: 0x8,
            ctr_after: 0x5,
            ..PLAIN
        }],
    },
    Branch {
        text: "blr",
        word: 0x4E80_0020,
        cases: &[Case {
            ctr: 0x5,
            lr: 0x203,
            pc: 0x200,
            ctr_after: 0x5,
            lr_after: 0x203,
            ..PLAIN
        }],
    },
    Branch {
        text: "blrl",
        word: 0x4E80_0021,
        cases: &[Case {
            ctr: 0x5,
            lr: 0x200,
            pc: 0x200,
            ctr_after: 0x5,
            lr_after: 0x104,
            ..PLAIN
        }],
    },
    Branch {
        text: "bdnzlr",
        word: 0x4E00_0020,
        cases: &[
            Case {
                ctr: 0x2,
                lr: 0x200,
                pc: 0x200,
                ctr_after: 0x1,
                lr_after: 0x200,
                ..PLAIN
            },
            Case {
                ctr: 0x1,
                lr: 0x200,
                lr_after: 0x200,
                ..PLAIN
            },
        ],
    },
    Branch {
        text: "beqlrl",
        word: 0x4D82_0021,
        cases: &[
            // not taken
            Case {
                ctr: 0x5,
                lr: 0x200,
                ctr_after: 0x5,
                lr_after: 0x104,
                ..PLAIN
            },
        ],
    },
    Branch {
        text: "bctr",
        word: 0x4E80_0420,
        cases: &[Case {
            ctr: 0x301,
            pc: 0x300,
            ctr_after: 0x301,
            ..PLAIN
        }],
    },
    Branch {
        text: "bctrl",
        word: 0x4E80_0421,
        cases: &[Case {
            ctr: 0x300,
            pc: 0x300,
            ctr_after: 0x300,
            lr_after: 0x104,
            ..PLAIN
        }],
    },
    Branch {
        text: "beqctr",
        word: 0x4D82_0420,
        cases: &[Case {
            ctr: 0x300,
            ctr_after: 0x300,
            ..PLAIN
        }],
    },
    Branch {
        text: "bdnzctr",
        word: 0x4E00_0420,
        cases: &[
            // the count doesn't matter to bcctr
            Case { pc: 0x0, ..PLAIN },
        ],
    },
];

#[test]
fn branches(rt: HostRuntime) {
    for branch in BRANCHES.iter() {
        let text = branch.text;
        for case in branch.cases {
            let mut regs = registers(0, 0);
            regs.set_cr(case.cr);
            regs.set_ctr(case.ctr);
            regs.set_lr(case.lr);
            let effect = exec(&decode(branch.word), &mut regs);
            assert_eq!(rt; effect, Effect::Done, "{text}");
            assert_eq!(rt;
                (regs.pc(), regs.ctr(), regs.lr()),
                (case.pc, case.ctr_after, case.lr_after),
                "{text} at {:x} and {:x}",
                case.cr,
                case.ctr
            );
        }
    }
}
