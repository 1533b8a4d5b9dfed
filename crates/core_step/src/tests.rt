//! What no clause says: that instructions whose effect was worked out by hand do what they should, over
//! one page of 16 KiB.

ghost use Rattle.std.specs.Prelude.{◌≡◌, ◌∷◌, [], IfOk, length, map};

use super::{Core, Hw, Look, Page, Wrote};
use ground::Ground;
use guest_regs::{boot, esr, msr};
use outside::NoMemory;
use std::alloc::Global;
use std::test::Fail;

/// The page at 0x4000, of logical address 0x10000, with these permissions. In space 1 it is always little-endian.
#[derive(Drop)]
struct OnePage {
    perms: u16,
    little: bool,
}

impl Look for OnePage {
    ghost use Rattle.std.specs.Prelude.{◌&&◌, ◌||◌, nat_le, nat_lt, None, Some, if◌then◌else◌};

    ghost lookup = { λ look space pid ea. if nat_le 16384 ea && nat_lt ea 32768
        then Some (record { ea = 16384; tsize = 2; perms = look.perms; little = look.little || space; extent = 0; at = 0; logical = 65536 })
        else None };

    fn hit(&self, ts: bool, _pid: u16, ea: u32) -> Option<Page> {
        if 0x4000 <= ea && ea < 0x8000 {
            Some(Page {
                ea: 0x4000,
                tsize: 2,
                perms: self.perms,
                little: self.little || ts,
                extent: 0,
                at: 0,
                logical: 0x1_0000,
            })
        } else {
            None
        }
    }
}

/// All permissions of the system, and of user programs.
const SYSTEM: u16 = 0x15;

const USER: u16 = 0x2A;

/// One extent of 16 KiB whose first word is an instruction.
#[tactic(auto, using(crate::proofs::Stay::first_page, crate::proofs::Stay::same_sizes))]
fn memory(alloc: Global, word: u32) -> Result<Ground, NoMemory>
    ensures { IfOk result (λ memory. map length memory ≡ 16384 ∷ []) }
{
    let mut ground = Ground::new(alloc, &[0x4000])?;
    ground.store32(0, 0, word);
    Ok(ground)
}

/// A core at the page's first byte, with (r3) and (r4).
fn core(msr: u32, r3: u32, r4: u32) -> Core {
    let mut regs = boot(0x4000, 0, 0);
    regs.set_msr(msr);
    regs.set_gpr(3, r3);
    regs.set_gpr(4, r4);
    Core::new(regs)
}

/// What one instruction answers, and the core and the memory after it.
fn run(
    alloc: Global,
    look: &OnePage,
    word: u32,
    msr: u32,
    r3: u32,
    r4: u32,
) -> Result<(Hw, Core, Ground), NoMemory>
    ensures { IfOk result (λ done. map length done.2 ≡ 16384 ∷ []) }
{
    let mut ground = memory(alloc, word)?;
    let mut core = core(msr, r3, r4);
    let answer = step(look, &mut core, &mut ground);
    Ok((answer, core, ground))
}

/// One instruction over the page.
fn step(look: &OnePage, core: &mut Core, ground: &mut Ground) -> Hw
    requires { map length ground.old ≡ 16384 ∷ [] }
    ensures { map length ground.new ≡ 16384 ∷ [] }
{
    core.step(look, ground)
}

/// An answer other than that the instruction is done or waits.
#[derive(Clone, Copy, Debug, PartialEq, Eq)]
enum Answer {
    MissData { ea: u32, store: bool },
    StorageData { ea: u32, store: bool, little: bool },
    StorageInsn { little: bool },
    Align { ea: u32, store: bool },
    Program(u32),
    Sc,
    Hcall,
    NoFloat,
    Another,
}

/// The answer, to be compared.
fn answer_of(hw: &Hw) -> Answer {
    match hw {
        Hw::MissData { ea, store } => Answer::MissData {
            ea: *ea,
            store: *store,
        },
        Hw::StorageData { ea, store, little } => Answer::StorageData {
            ea: *ea,
            store: *store,
            little: *little,
        },
        Hw::StorageInsn { little } => Answer::StorageInsn { little: *little },
        Hw::Align { ea, store } => Answer::Align {
            ea: *ea,
            store: *store,
        },
        Hw::Program(esr) => Answer::Program(*esr),
        Hw::Sc => Answer::Sc,
        Hw::Hcall => Answer::Hcall,
        Hw::NoFloat => Answer::NoFloat,
        Hw::Retired(_) | Hw::Waiting | Hw::Priv(_) | Hw::MissInsn { .. } => Answer::Another,
    }
}

/// An instruction that isn't done: its word, the page that it meets, the machine state and (r3) before it, and its answer.
#[derive(Clone, Copy)]
struct Case {
    text: &'static str,
    word: u32,
    perms: u16,
    little: bool,
    msr: u32,
    r3: u32,
    answer: Answer,
}

/// By the system, in a big-endian page that allows everything.
const PLAIN: Case = Case {
    text: "",
    word: 0,
    perms: SYSTEM | USER,
    little: false,
    msr: 0,
    r3: 0,
    answer: Answer::Another,
};

const NOT_DONE: [Case; 22] = [
    Case {
        text: "stw r4,0(r3), past the end of the page: its first byte there",
        word: 0x9083_0000,
        r3: 0x7FFE,
        answer: Answer::MissData {
            ea: 0x8000,
            store: true,
        },
        ..PLAIN
    },
    Case {
        text: "lwz r4,0(r3), before the page",
        word: 0x8083_0000,
        r3: 0x3FFE,
        answer: Answer::MissData {
            ea: 0x3FFE,
            store: false,
        },
        ..PLAIN
    },
    Case {
        text: "stw r4,0(r3), by the system without SW",
        word: 0x9083_0000,
        perms: 0x11,
        r3: 0x4100,
        answer: Answer::StorageData {
            ea: 0x4100,
            store: true,
            little: false,
        },
        ..PLAIN
    },
    Case {
        text: "lwz r4,0(r3), by the system without SR",
        word: 0x8083_0000,
        perms: 0x14,
        r3: 0x4100,
        answer: Answer::StorageData {
            ea: 0x4100,
            store: false,
            little: false,
        },
        ..PLAIN
    },
    Case {
        text: "lwz r4,0(r3), fetched by a user program without UX",
        word: 0x8083_0000,
        perms: SYSTEM,
        msr: msr::PROBLEM_STATE,
        r3: 0x4100,
        answer: Answer::StorageInsn { little: false },
        ..PLAIN
    },
    Case {
        text: "lwz r4,0(r3), fetched by the system without SX",
        word: 0x8083_0000,
        perms: USER,
        r3: 0x4100,
        answer: Answer::StorageInsn { little: false },
        ..PLAIN
    },
    Case {
        text: "lwz r4,0(r3), fetched from a little-endian page",
        word: 0x8083_0000,
        little: true,
        r3: 0x4100,
        answer: Answer::StorageInsn { little: true },
        ..PLAIN
    },
    Case {
        text: "lwz r4,0(r3), by a user program with UX alone",
        word: 0x8083_0000,
        perms: 0x20,
        msr: msr::PROBLEM_STATE,
        r3: 0x4100,
        answer: Answer::StorageData {
            ea: 0x4100,
            store: false,
            little: false,
        },
        ..PLAIN
    },
    Case {
        text: "stw r4,0(r3), by a user program with UX and UR",
        word: 0x9083_0000,
        perms: 0x22,
        msr: msr::PROBLEM_STATE,
        r3: 0x4100,
        answer: Answer::StorageData {
            ea: 0x4100,
            store: true,
            little: false,
        },
        ..PLAIN
    },
    Case {
        text: "lwz r4,0(r3), by a user program with UX and UW",
        word: 0x8083_0000,
        perms: 0x28,
        msr: msr::PROBLEM_STATE,
        r3: 0x4100,
        answer: Answer::StorageData {
            ea: 0x4100,
            store: false,
            little: false,
        },
        ..PLAIN
    },
    Case {
        text: "lwz r4,0(r3), of a little-endian page of data",
        word: 0x8083_0000,
        msr: msr::DATA_ADDRESS_SPACE,
        r3: 0x4100,
        answer: Answer::StorageData {
            ea: 0x4100,
            store: false,
            little: true,
        },
        ..PLAIN
    },
    Case {
        text: "stw r4,0(r3), of a little-endian page of data",
        word: 0x9083_0000,
        msr: msr::DATA_ADDRESS_SPACE,
        r3: 0x4100,
        answer: Answer::StorageData {
            ea: 0x4100,
            store: true,
            little: true,
        },
        ..PLAIN
    },
    Case {
        text: "stw r4,0(r3), of such a page without SW: the permission comes first",
        word: 0x9083_0000,
        perms: 0x11,
        msr: msr::DATA_ADDRESS_SPACE,
        r3: 0x4100,
        answer: Answer::StorageData {
            ea: 0x4100,
            store: true,
            little: false,
        },
        ..PLAIN
    },
    Case {
        text: "lmw r30,0(r3)",
        word: 0xBBC3_0000,
        r3: 0x4102,
        answer: Answer::Align {
            ea: 0x4102,
            store: false,
        },
        ..PLAIN
    },
    Case {
        text: "lwarx r4,0,r3",
        word: 0x7C80_1828,
        r3: 0x4102,
        answer: Answer::Align {
            ea: 0x4102,
            store: false,
        },
        ..PLAIN
    },
    Case {
        text: "stwcx. r4,0,r3",
        word: 0x7C80_192D,
        r3: 0x4102,
        answer: Answer::Align {
            ea: 0x4102,
            store: true,
        },
        ..PLAIN
    },
    Case {
        text: "stmw r30,0(r3), where no page is: the alignment comes first",
        word: 0xBFC3_0000,
        r3: 0x9002,
        answer: Answer::Align {
            ea: 0x9002,
            store: true,
        },
        ..PLAIN
    },
    Case {
        text: "sc",
        word: 0x4400_0002,
        answer: Answer::Sc,
        ..PLAIN
    },
    Case {
        text: "sc 1",
        word: 0x4400_0022,
        answer: Answer::Hcall,
        ..PLAIN
    },
    Case {
        text: "no instruction",
        word: 0x0000_0000,
        answer: Answer::Program(esr::ILLEGAL),
        ..PLAIN
    },
    Case {
        text: "tw 31,r0,r0",
        word: 0x7FE0_0008,
        answer: Answer::Program(esr::TRAP),
        ..PLAIN
    },
    Case {
        text: "lfd f0,0(r3)",
        word: 0xC803_0000,
        answer: Answer::NoFloat,
        ..PLAIN
    },
];

#[test]
#[tactic(auto, using(crate::proofs::Stay::first_page))]
fn instructions_that_are_not_done(rt: HostRuntime) -> Result<(), Fail> {
    for case in &NOT_DONE {
        let look = OnePage {
            perms: case.perms,
            little: case.little,
        };
        let (hw, core, ground) = run(rt.alloc(), &look, case.word, case.msr, case.r3, 0x1234_5678)?;
        assert_eq!(rt; answer_of(&hw), case.answer, "{}", case.text);
        assert_eq!(rt; core.regs().pc(), 0x4000, "{}", case.text);
        assert_eq!(rt; ground.load32(0, 0), case.word, "{}", case.text);
        assert_eq!(rt; ground.load32(0, 0x3FFC), 0, "{}", case.text);
    }
    Ok(())
}

/// What user programs may not do: returns, the machine state, translations, dcbi, a special register of the
/// system, and hypercalls.
const PRIVILEGED: [u32; 18] = [
    0x4C00_0064, // rfi
    0x4C00_0066, // rfci
    0x4C00_004C, // rfmci
    0x7C60_00A6, // mfmsr r3
    0x7C60_0124, // mtmsr r3
    0x7C60_0106, // wrtee r3
    0x7C00_8146, // wrteei 1
    0x7C00_0024, // tlbilx 0,0,0
    0x7C40_0024, // tlbilx 2,0,0
    0x7C00_1E24, // tlbivax 0,r3
    0x7C00_1F24, // tlbsx 0,r3
    0x7C00_0764, // tlbre
    0x7C00_07A4, // tlbwe
    0x7C00_046C, // tlbsync
    0x7C00_1BAC, // dcbi 0,r3
    0x7C7A_02A6, // mfspr r3,SRR0
    0x7C7A_03A6, // mtspr SRR0,r3
    0x4400_0022, // sc 1
];

#[test]
fn users_are_refused_what_is_privileged(rt: HostRuntime) -> Result<(), Fail> {
    let alloc = rt.alloc();
    let look = OnePage {
        perms: USER,
        little: false,
    };
    for &word in PRIVILEGED.iter() {
        let (hw, core, _ground) = run(alloc, &look, word, msr::PROBLEM_STATE, 0x4100, 0)?;
        assert_eq!(rt;
            answer_of(&hw),
            Answer::Program(esr::PRIVILEGED),
            "{word:x}"
        );
        assert_eq!(rt;
            (core.regs().pc(), core.regs().gpr(3)),
            (0x4000, 0x4100),
            "{word:x}"
        );
    }
    Ok(())
}

#[test]
#[tactic(auto, using(crate::proofs::Stay::first_page))]
fn stores_and_reservations(rt: HostRuntime) -> Result<(), Fail> {
    let alloc = rt.alloc();
    let look = OnePage {
        perms: SYSTEM,
        little: false,
    };
    // stwu r4,0x7FD(r3) at no multiple of 4: one range, and the address goes to r3
    let (hw, core, ground) = run(alloc, &look, 0x9483_07FD, 0, 0x4001, 0x1234_5678)?;
    let Hw::Retired(ranges) = hw else {
        return Err(Fail::from("not retired"));
    };
    assert_eq!(rt;
        ranges.as_slice(),
        [Wrote {
            extent: 0,
            at: 0x7FE,
            len: 4
        }]
        .as_slice()
    );
    assert_eq!(rt; (core.regs().gpr(3), core.regs().pc()), (0x47FE, 0x4004));
    assert_eq!(rt;
        (ground.load32(0, 0x7FE), ground.load16(0, 0x7FC)),
        (0x1234_5678, 0)
    );
    // stw r4,0(r3) over the end of a 4 KiB page: a range for each
    let (hw, _core, ground) = run(alloc, &look, 0x9083_0000, 0, 0x4FFE, 0x1234_5678)?;
    let Hw::Retired(ranges) = hw else {
        return Err(Fail::from("not retired"));
    };
    assert_eq!(rt;
        ranges.as_slice(),
        [
            Wrote {
                extent: 0,
                at: 0xFFE,
                len: 2
            },
            Wrote {
                extent: 0,
                at: 0x1000,
                len: 2
            }
        ]
        .as_slice()
    );
    assert_eq!(rt; ground.load32(0, 0xFFE), 0x1234_5678);
    // dcbz 0,r3 in the block of the instruction
    let (hw, _core, ground) = run(alloc, &look, 0x7C00_1FEC, 0, 0x403F, 0)?;
    let Hw::Retired(ranges) = hw else {
        return Err(Fail::from("not retired"));
    };
    assert_eq!(rt;
        ranges.as_slice(),
        [Wrote {
            extent: 0,
            at: 0,
            len: 64
        }]
        .as_slice()
    );
    assert_eq!(rt; ground.load32(0, 0), 0);
    // stwcx. r4,0,r3 with its block reserved, with another, and with none
    for (reserved, cr, word) in [
        (Some(0x1_0040), 0x2000_0000, 0x1234_5678),
        (Some(0x1_0080), 0, 0),
        (None, 0, 0),
    ] {
        let mut ground = memory(alloc, 0x7C80_192D)?;
        let mut core = core_with(reserved);
        let hw = step(&look, &mut core, &mut ground);
        let Hw::Retired(ranges) = hw else {
            return Err(Fail::from("not retired"));
        };
        assert_eq!(rt;
            ranges.len(),
            if reserved == Some(0x1_0040) { 1 } else { 0 }
        );
        assert_eq!(rt; (core.regs().cr(), core.regs().reserved()), (cr, None));
        assert_eq!(rt; ground.load32(0, 0x44), word);
    }
    // lwarx r4,0,r3 keeps the block of the logical address
    let (hw, core, _ground) = run(alloc, &look, 0x7C80_1828, 0, 0x4044, 0)?;
    assert!(rt; matches!(hw, Hw::Retired(_)));
    assert_eq!(rt; core.regs().reserved(), Some(0x1_0040));
    // wait
    let (hw, core, _ground) = run(alloc, &look, 0x7C00_007C, 0, 0, 0)?;
    assert!(rt; matches!(hw, Hw::Waiting));
    assert_eq!(rt; (core.regs().idle(), core.regs().pc()), (true, 0x4004));
    Ok(())
}

/// A core about to store under this reservation.
fn core_with(reserved: Option<u64>) -> Core {
    let mut regs = boot(0x4000, 0, 0);
    regs.set_gpr(3, 0x4044);
    regs.set_gpr(4, 0x1234_5678);
    regs.set_reserved(reserved);
    Core::new(regs)
}
