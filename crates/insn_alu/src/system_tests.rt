//! What instructions answer by the machine state, special registers, and selection.

use super::*;
use crate::samples::registers;
use guest_regs::msr;
use insn::decode;
use std::test::*;

/// An instruction, as an assembler writes it, with its effect for the system and for a user program.
struct Answer {
    text: &'static str,
    word: u32,
    system: Effect,
    user: Effect,
}

const ANSWERS: [Answer; 40] = [
    Answer {
        text: "sc",
        word: 0x4400_0002,
        system: Effect::Syscall,
        user: Effect::Syscall,
    },
    Answer {
        text: "sc 1",
        word: 0x4400_0022,
        system: Effect::Hcall,
        user: Effect::Priv,
    },
    Answer {
        text: "sc 2",
        word: 0x4400_0042,
        system: Effect::Illegal,
        user: Effect::Illegal,
    },
    Answer {
        text: "wait",
        word: 0x7C00_007C,
        system: Effect::Wait,
        user: Effect::Wait,
    },
    Answer {
        text: "fmr f1, f1",
        word: 0xFC20_0890,
        system: Effect::NoFloat,
        user: Effect::NoFloat,
    },
    Answer {
        text: ".long 0",
        word: 0,
        system: Effect::Illegal,
        user: Effect::Illegal,
    },
    Answer {
        text: "tlbilxlpid",
        word: 0x7C00_0024,
        system: Effect::Priv,
        user: Effect::Priv,
    },
    Answer {
        text: "tlbilx 2, 0, r0",
        word: 0x7C40_0024,
        system: Effect::Illegal,
        user: Effect::Priv,
    },
    Answer {
        text: "tlbilxva 0, r0",
        word: 0x7C60_0024,
        system: Effect::Priv,
        user: Effect::Priv,
    },
    Answer {
        text: "rfi",
        word: 0x4C00_0064,
        system: Effect::Priv,
        user: Effect::Priv,
    },
    Answer {
        text: "rfci",
        word: 0x4C00_0066,
        system: Effect::Priv,
        user: Effect::Priv,
    },
    Answer {
        text: "rfmci",
        word: 0x4C00_004C,
        system: Effect::Priv,
        user: Effect::Priv,
    },
    Answer {
        text: "mfmsr r3",
        word: 0x7C60_00A6,
        system: Effect::Priv,
        user: Effect::Priv,
    },
    Answer {
        text: "mtmsr r3",
        word: 0x7C60_0124,
        system: Effect::Priv,
        user: Effect::Priv,
    },
    Answer {
        text: "wrtee r3",
        word: 0x7C60_0106,
        system: Effect::Priv,
        user: Effect::Priv,
    },
    Answer {
        text: "wrteei 1",
        word: 0x7C00_8146,
        system: Effect::Priv,
        user: Effect::Priv,
    },
    Answer {
        text: "tlbivax 0, r3",
        word: 0x7C00_1E24,
        system: Effect::Priv,
        user: Effect::Priv,
    },
    Answer {
        text: "tlbsx 0, r3",
        word: 0x7C00_1F24,
        system: Effect::Priv,
        user: Effect::Priv,
    },
    Answer {
        text: "tlbre",
        word: 0x7C00_0764,
        system: Effect::Priv,
        user: Effect::Priv,
    },
    Answer {
        text: "tlbwe",
        word: 0x7C00_07A4,
        system: Effect::Priv,
        user: Effect::Priv,
    },
    Answer {
        text: "tlbsync",
        word: 0x7C00_046C,
        system: Effect::Priv,
        user: Effect::Priv,
    },
    Answer {
        text: "dcbi 0, r3",
        word: 0x7C00_1BAC,
        system: Effect::Priv,
        user: Effect::Priv,
    },
    Answer {
        text: "isync",
        word: 0x4C00_012C,
        system: Effect::Done,
        user: Effect::Done,
    },
    Answer {
        text: "sync",
        word: 0x7C00_04AC,
        system: Effect::Done,
        user: Effect::Done,
    },
    Answer {
        text: "mbar",
        word: 0x7C00_06AC,
        system: Effect::Done,
        user: Effect::Done,
    },
    Answer {
        text: "dcbt 0, r3",
        word: 0x7C00_1A2C,
        system: Effect::Done,
        user: Effect::Done,
    },
    Answer {
        text: "dcbtst 0, r3",
        word: 0x7C00_19EC,
        system: Effect::Done,
        user: Effect::Done,
    },
    Answer {
        text: "dcbst 0, r3",
        word: 0x7C00_186C,
        system: Effect::Done,
        user: Effect::Done,
    },
    Answer {
        text: "dcbf 0, r3",
        word: 0x7C00_18AC,
        system: Effect::Done,
        user: Effect::Done,
    },
    Answer {
        text: "dcba 0, r3",
        word: 0x7C00_1DEC,
        system: Effect::Done,
        user: Effect::Done,
    },
    Answer {
        text: "icbi 0, r3",
        word: 0x7C00_1FAC,
        system: Effect::Done,
        user: Effect::Done,
    },
    Answer {
        text: "icbt 0, 0, r3",
        word: 0x7C00_182C,
        system: Effect::Done,
        user: Effect::Done,
    },
    Answer {
        text: "mfdec r5",
        word: 0x7CB6_02A6,
        system: Effect::Done,
        user: Effect::Priv,
    },
    Answer {
        text: "mtdec r3",
        word: 0x7C76_03A6,
        system: Effect::Done,
        user: Effect::Priv,
    },
    Answer {
        text: "mfspr r5, 512",
        word: 0x7CA0_82A6,
        system: Effect::Illegal,
        user: Effect::Illegal,
    },
    Answer {
        text: "mtspr 268, r3",
        word: 0x7C6C_43A6,
        system: Effect::Illegal,
        user: Effect::Illegal,
    },
    Answer {
        text: "mftb r5, 270",
        word: 0x7CAE_42E6,
        system: Effect::Illegal,
        user: Effect::Illegal,
    },
    Answer {
        text: "mftb r5",
        word: 0x7CAC_42E6,
        system: Effect::Done,
        user: Effect::Done,
    },
    Answer {
        text: "trap",
        word: 0x7FE0_0008,
        system: Effect::Trap,
        user: Effect::Trap,
    },
    Answer {
        text: "tw 0, r3, r4",
        word: 0x7C03_2008,
        system: Effect::Done,
        user: Effect::Done,
    },
];

#[test]
fn answers_by_the_machine_state(rt: HostRuntime) {
    for answer in ANSWERS.iter() {
        let text = answer.text;
        let mut regs = registers(0, 0);
        assert_eq!(rt;
            exec(&decode(answer.word), &mut regs),
            answer.system,
            "{text}"
        );
        let mut regs = registers(0, 0);
        regs.set_msr(msr::PROBLEM_STATE);
        assert_eq!(rt;
            exec(&decode(answer.word), &mut regs),
            answer.user,
            "{text}"
        );
        let pc = if answer.user == Effect::Done {
            0x104
        } else {
            0x100
        };
        assert_eq!(rt; regs.pc(), pc, "{text}");
    }
}

#[test]
fn special_registers_and_selection(rt: HostRuntime) {
    // mtxer r3 and mfxer r5
    let mut regs = registers(0xFFFF_FFFF, 7);
    assert_eq!(rt; exec(&decode(0x7C61_03A6), &mut regs), Effect::Done);
    assert_eq!(rt; exec(&decode(0x7CA1_02A6), &mut regs), Effect::Done);
    assert_eq!(rt; (regs.xer(), regs.gpr(5)), (0xE000_007F, 0xE000_007F));
    // mftb r5 and mftbu r5
    regs.set_time(0x1234_5678_9ABC_DEF0);
    assert_eq!(rt; exec(&decode(0x7CAC_42E6), &mut regs), Effect::Done);
    assert_eq!(rt; regs.gpr(5), 0x9ABC_DEF0);
    assert_eq!(rt; exec(&decode(0x7CAD_42E6), &mut regs), Effect::Done);
    assert_eq!(rt; regs.gpr(5), 0x1234_5678);
    // isel r5, r3, r4, eq, and with r0 as a base, and mfcr r5
    assert_eq!(rt; exec(&decode(0x7CA3_209E), &mut regs), Effect::Done);
    assert_eq!(rt; regs.gpr(5), 7);
    regs.set_cr(0x2000_0000);
    assert_eq!(rt; exec(&decode(0x7CA3_209E), &mut regs), Effect::Done);
    assert_eq!(rt; regs.gpr(5), 0xFFFF_FFFF);
    assert_eq!(rt; exec(&decode(0x7CA0_209E), &mut regs), Effect::Done);
    assert_eq!(rt; regs.gpr(5), 0);
    assert_eq!(rt; exec(&decode(0x7CA0_0026), &mut regs), Effect::Done);
    assert_eq!(rt; (regs.gpr(5), regs.pc()), (0x2000_0000, 0x120));
}
