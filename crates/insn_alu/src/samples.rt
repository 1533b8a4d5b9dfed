//! What the tests share: an instruction with its cases, and the registers that it finds.

use super::*;
use guest_regs::{Regs, boot};
use insn::decode;
use std::process::Abort;
use std::test::*;

/// The bits of XER.
pub const SO: u32 = 0x8000_0000;

pub const OV: u32 = 0x4000_0000;

pub const CA: u32 = 0x2000_0000;

/// The bits of condition field 0.
pub const LT: u32 = 0x8000_0000;

pub const GT: u32 = 0x4000_0000;

pub const EQ: u32 = 0x2000_0000;

pub const SUMMARY: u32 = 0x1000_0000;

/// An instruction from r3 and r4 to r5, as an assembler writes it, and its cases.
pub struct Instruction {
    pub text: &'static str,
    pub word: u32,
    pub cases: &'static [Case],
}

/// What an instruction finds, and what it leaves. It finds 0 in CR, and 0x11111111 in r5.
#[derive(Clone, Copy)]
pub struct Case {
    /// (r3)
    pub a: u32,
    /// (r4)
    pub b: u32,
    pub xer: u32,
    /// (r5) after it.
    pub result: u32,
    pub cr: u32,
    pub xer_after: u32,
}

/// Zeros, but for (r4), at which an instruction without RB is not to look.
pub const PLAIN: Case = Case {
    a: 0,
    b: 9,
    xer: 0,
    result: 0,
    cr: 0,
    xer_after: 0,
};

/// The registers at 0x100, with r0 77, r3 and r4 as given and r5 0x11111111.
pub fn registers(a: u32, b: u32) -> Regs {
    let mut regs = boot(0x100, 0, 0);
    regs.set_gpr(0, 77);
    regs.set_gpr(3, a);
    regs.set_gpr(4, b);
    regs.set_gpr(5, 0x1111_1111);
    regs
}

/// Does each case of some instructions.
pub fn check(rt: &impl Abort, instructions: &[Instruction]) {
    for instruction in instructions {
        let text = instruction.text;
        for case in instruction.cases {
            let mut regs = registers(case.a, case.b);
            regs.set_xer(case.xer);
            let effect = exec(&decode(instruction.word), &mut regs);
            assert_eq!(rt; effect, Effect::Done, "{text}");
            assert_eq!(rt;
                regs.gpr(5),
                case.result,
                "{text} of {:x} and {:x}",
                case.a,
                case.b
            );
            assert_eq!(rt;
                (regs.cr(), regs.xer()),
                (case.cr, case.xer_after),
                "{text} of {:x} and {:x}",
                case.a,
                case.b
            );
            assert_eq!(rt; (regs.pc(), regs.gpr(3)), (0x104, case.a), "{text}");
        }
    }
}
