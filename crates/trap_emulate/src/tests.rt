//! Values that were worked out by hand.

ghost use Rattle.std.specs.Prelude.{◌<◌};

use super::*;
use guest_regs::{Regs, boot};
use guest_tlb::GuestTlb;
use insn::decode;
use outside::NoMemory;
use std::alloc::Global;
use std::test::*;

/// Time base, DEC, DECAR, TCR and TSR before a step, and time base, DEC and TSR after it.
const STEPS: [(u64, u32, u32, u32, u32, u64, u32, u32); 14] = [
    (0, 0, 0, 0, 0, 1, 0, 0),
    (0, 0, 7, 0x0440_0000, 0, 1, 0, 0), // at 0 nothing is reloaded
    (0, 0, 7, 0, 0x0800_0000, 1, 0, 0x0800_0000),
    (5, 2, 7, 0x0440_0000, 0, 6, 1, 0), // at 2 DIS isn't set yet
    (6, 1, 7, 0x0440_0000, 0, 7, 7, 0x0800_0000), // ARE and DIE
    (6, 1, 7, 0x0400_0000, 0, 7, 0, 0x0800_0000), // DIE alone
    (6, 1, 7, 0xFFBF_FFFF, 0, 7, 0, 0x0800_0000), // all but ARE
    (6, 1, 1, 0x0040_0000, 0, 7, 1, 0x0800_0000), // ARE alone, and 1 again
    (6, 1, 0, 0x0040_0000, 0, 7, 0, 0x0800_0000),
    (6, 1, 0, 0, 0xF7FF_FFFF, 7, 0, 0xFFFF_FFFF), // the other bits of TSR stay
    (
        6,
        1,
        0xFFFF_FFFF,
        0x0040_0000,
        0x0800_0000,
        7,
        0xFFFF_FFFF,
        0x0800_0000,
    ),
    (6, 0xFFFF_FFFF, 0, 0, 0, 7, 0xFFFF_FFFE, 0),
    (
        0xFFFF_FFFF,
        0x8000_0000,
        0,
        0,
        0,
        0x1_0000_0000,
        0x7FFF_FFFF,
        0,
    ), // into the upper half
    (0xFFFF_FFFF_FFFF_FFFF, 0, 0, 0, 0, 0, 0, 0),
];

#[test]
fn a_step_passes_time(rt: HostRuntime) {
    for &(time, dec, decar, tcr, tsr, later, left, status) in STEPS.iter() {
        let mut regs = boot(0x100, 0x8000, 2);
        regs.set_time(time);
        regs.set_dec(dec);
        regs.set_decar(decar);
        regs.set_tcr(tcr);
        regs.set_tsr(tsr);
        tick(&mut regs);
        assert_eq!(rt;
            (regs.time(), regs.dec(), regs.tsr()),
            (later, left, status),
            "{time} {dec} {tcr:x}"
        );
        assert_eq!(rt; (regs.decar(), regs.tcr(), regs.pc()), (decar, tcr, 0x100));
    }
}

#[test]
fn a_decrementer_is_reloaded_again_and_again(rt: HostRuntime) {
    let mut regs = boot(0, 0, 0);
    regs.set_dec(2);
    regs.set_decar(3);
    regs.set_tcr(0x0040_0000);
    for &(left, expired) in [
        (1, false),
        (3, true),
        (2, false),
        (1, false),
        (3, true),
        (2, false),
    ]
    .iter()
    {
        regs.set_tsr(0);
        tick(&mut regs);
        assert_eq!(rt; (regs.dec(), regs.tsr() == 0x0800_0000), (left, expired));
    }
    assert_eq!(rt; regs.time(), 6);
}

/// Causes with the number of their IVOR, DEAR, ESR and the address that they go back to. Each comes at 0x2000, with
/// DEAR 0xD and ESR 0xE.
const CAUSES: [(Cause, u32, u32, u32, u32); 12] = [
    (
        Cause::StorageData {
            ea: 0x3004,
            esr: 0x0082_0000,
        },
        2,
        0x3004,
        0x0082_0000,
        0x2000,
    ),
    (
        Cause::StorageData {
            ea: 0xFFFF_FFFF,
            esr: 0,
        },
        2,
        0xFFFF_FFFF,
        0,
        0x2000,
    ),
    (
        Cause::StorageInsn { esr: 0x0002_0000 },
        3,
        0xD,
        0x0002_0000,
        0x2000,
    ),
    (Cause::External, 4, 0xD, 0xE, 0x2000),
    (
        Cause::Align {
            ea: 0x3002,
            esr: 0x0080_0000,
        },
        5,
        0x3002,
        0x0080_0000,
        0x2000,
    ),
    (Cause::Align { ea: 0x3001, esr: 0 }, 5, 0x3001, 0, 0x2000),
    (
        Cause::Program { esr: 0x0800_0000 },
        6,
        0xD,
        0x0800_0000,
        0x2000,
    ),
    (
        Cause::Program { esr: 0x0400_0000 },
        6,
        0xD,
        0x0400_0000,
        0x2000,
    ),
    (
        Cause::Program { esr: 0x0200_0000 },
        6,
        0xD,
        0x0200_0000,
        0x2000,
    ),
    (Cause::NoFloat, 7, 0xD, 0xE, 0x2000),
    (Cause::Syscall, 8, 0xD, 0xE, 0x2004),
    (Cause::Decrementer, 10, 0xD, 0xE, 0x2000),
];

/// A core at an address, with a machine state. The handler of kind n is at 0x1234_0000 + 0x100 n, and all that is
/// saved has values of its own.
fn core_at(pc: u32, state: u32) -> Regs {
    let mut regs = boot(0, 0, 0);
    regs.set_pc(pc);
    regs.set_msr(state);
    regs.set_ivpr(0x1234_5678);
    for n in 0..16 {
        regs.set_ivor(n, 0xABC0_0005 + 0x100 * n as u32);
    }
    regs.set_dear(0xD);
    regs.set_esr(0xE);
    regs.set_srr0(0xA0);
    regs.set_srr1(0xA1);
    regs.set_csrr0(0xB0);
    regs.set_csrr1(0xB1);
    regs.set_mcsrr0(0xC0);
    regs.set_mcsrr1(0xC1);
    regs
}

/// Translations after a reset, with a next victim.
fn mmu_with(alloc: Global, nv: u8) -> Result<Mmu, NoMemory>
    requires { nv < 4 }
{
    Ok(Mmu {
        tlb: GuestTlb::new(alloc)?,
        nv,
    })
}

#[test]
fn each_cause_goes_to_its_handler(rt: HostRuntime) -> Result<(), Fail> {
    let mut mmu = mmu_with(rt.alloc(), 0)?;
    for &(cause, kind, dear, esr, back) in CAUSES.iter() {
        for &(state, inside) in [
            (0x1002_D030, 0x1002_1000), // all bits: GS, CE and ME stay
            (0x1000_C030, 0x1000_0000),
            (0x1000_9000, 0x1000_1000),
            (0x1002_4000, 0x1002_0000),
            (0x1000_0000, 0x1000_0000),
        ]
        .iter()
        {
            let mut regs = core_at(0x2000, state);
            assert!(rt; may_enter(&regs, cause));
            deliver(&mut regs, &mut mmu, cause);
            assert_eq!(rt;
                (regs.pc(), regs.msr()),
                (0x1234_0000 + 0x100 * kind, inside),
                "{kind} {state:x}"
            );
            assert_eq!(rt; (regs.srr0(), regs.srr1()), (back, state), "{kind}");
            assert_eq!(rt; (regs.dear(), regs.esr()), (dear, esr), "{kind}");
            assert_eq!(rt; (regs.csrr0(), regs.csrr1()), (0xB0, 0xB1));
            assert_eq!(rt; (regs.mcsrr0(), regs.mcsrr1()), (0xC0, 0xC1));
        }
    }
    let mut regs = core_at(0xFFFF_FFFC, 0x1000_0000);
    deliver(&mut regs, &mut mmu, Cause::Syscall);
    assert_eq!(rt; regs.srr0(), 0);
    Ok(())
}

#[test]
fn a_machine_check_has_registers_of_its_own(rt: HostRuntime) -> Result<(), Fail> {
    let mut mmu = mmu_with(rt.alloc(), 0)?;
    for &state in [0x1000_1000, 0x1002_D030, 0x1000_5000].iter() {
        let mut regs = core_at(0x2000, state);
        assert!(rt; may_enter(&regs, Cause::MachineCheck));
        deliver(&mut regs, &mut mmu, Cause::MachineCheck);
        assert_eq!(rt; (regs.pc(), regs.msr()), (0x1234_0100, 0x1000_0000));
        assert_eq!(rt; (regs.mcsrr0(), regs.mcsrr1()), (0x2000, state));
        assert_eq!(rt; (regs.srr0(), regs.srr1()), (0xA0, 0xA1));
        assert_eq!(rt; (regs.csrr0(), regs.csrr1()), (0xB0, 0xB1));
        assert_eq!(rt; (regs.dear(), regs.esr()), (0xD, 0xE));
        emulate(&decode(0x4C00_004C), &mut regs, &mut mmu); // rfmci
        assert_eq!(rt; (regs.pc(), regs.msr()), (0x2000, state));
    }
    Ok(())
}

/// Words with MSR and (r3) before, at 0x2000, and the PC, MSR and r3 after.
const ROWS: [(u32, u32, u32, u32, u32, u32); 22] = [
    (0x4C00_0064, 0x1000_0000, 1, 0xA0, 0x1002_0020, 1), // rfi
    (0x4C00_0066, 0x1000_0000, 1, 0xB0, 0x1000_0030, 1), // rfci
    (0x4C00_004C, 0x1000_0000, 1, 0xC0, 0x1000_1000, 1), // rfmci
    (
        0x7C60_00A6,
        0x1002_9030,
        1,
        0x2004,
        0x1002_9030,
        0x1002_9030,
    ), // mfmsr r3
    (0x7C80_00A6, 0x1002_9030, 1, 0x2004, 0x1002_9030, 1), // mfmsr r4
    (0x7C60_0124, 0x1000_0000, 0, 0x2004, 0x1000_0000, 0), // mtmsr r3 keeps GS
    (0x7C60_0124, 0x1002_9030, 0, 0x2004, 0x1000_0000, 0),
    (
        0x7C60_0124,
        0x1000_0000,
        0xFFFF_FFFF,
        0x2004,
        0x1002_D030,
        0xFFFF_FFFF,
    ),
    (
        0x7C60_0124,
        0x1000_0000,
        0x4000,
        0x2004,
        0x1000_4000,
        0x4000,
    ), // to a user program
    (
        0x7C60_0106,
        0x1002_1030,
        0x8000,
        0x2004,
        0x1002_9030,
        0x8000,
    ), // wrtee r3
    (
        0x7C60_0106,
        0x1002_9030,
        0x8000,
        0x2004,
        0x1002_9030,
        0x8000,
    ),
    (
        0x7C60_0106,
        0x1002_9030,
        0xFFFF_7FFF,
        0x2004,
        0x1002_1030,
        0xFFFF_7FFF,
    ),
    (
        0x7C60_0106,
        0x1000_0000,
        0xFFFF_FFFF,
        0x2004,
        0x1000_8000,
        0xFFFF_FFFF,
    ),
    (0x7C60_0106, 0x1000_0000, 0, 0x2004, 0x1000_0000, 0),
    (0x7C00_8146, 0x1000_0000, 0, 0x2004, 0x1000_8000, 0), // wrteei 1
    (0x7C00_8146, 0x1002_9030, 0, 0x2004, 0x1002_9030, 0),
    (
        0x7C00_0146,
        0x1002_9030,
        0x8000,
        0x2004,
        0x1002_1030,
        0x8000,
    ), // wrteei 0
    (
        0x7C60_0146,
        0x1002_9030,
        0x8000,
        0x2004,
        0x1002_1030,
        0x8000,
    ),
    (
        0x7C00_0146,
        0x1000_0000,
        0xFFFF_FFFF,
        0x2004,
        0x1000_0000,
        0xFFFF_FFFF,
    ),
    (0x7C00_046C, 0x1002_9030, 9, 0x2004, 0x1002_9030, 9), // tlbsync
    (0x7C00_1BAC, 0x1002_9030, 9, 0x2004, 0x1002_9030, 9), // dcbi 0, r3
    (0x7C04_1BAC, 0x1000_0000, 9, 0x2004, 0x1000_0000, 9), // dcbi r4, r3
];

#[test]
fn privileged_rows(rt: HostRuntime) -> Result<(), Fail> {
    let mut mmu = mmu_with(rt.alloc(), 0)?;
    for &(word, state, given, pc, after, left) in ROWS.iter() {
        let mut regs = core_at(0x2000, state);
        regs.set_srr1(0x0FFF_2F20);
        regs.set_csrr1(0x30);
        regs.set_mcsrr1(0x1000);
        regs.set_gpr(3, given);
        emulate(&decode(word), &mut regs, &mut mmu);
        assert_eq!(rt;
            (regs.pc(), regs.msr(), regs.gpr(3)),
            (pc, after, left),
            "{word:x} {state:x} {given:x}"
        );
        assert_eq!(rt;
            (regs.srr0(), regs.csrr0(), regs.mcsrr0()),
            (0xA0, 0xB0, 0xC0)
        );
    }
    assert!(rt; !may_enter(&core_at(0, 0x0002_C030), Cause::MachineCheck));
    // a return clears the low two bits of its address
    let mut regs = core_at(0xFFFF_FFFC, 0);
    emulate(&decode(0x7C00_046C), &mut regs, &mut mmu);
    assert_eq!(rt; regs.pc(), 0);
    regs.set_srr0(0xFFFF_FFFF);
    emulate(&decode(0x4C00_0064), &mut regs, &mut mmu);
    assert_eq!(rt; regs.pc(), 0xFFFF_FFFC);
    Ok(())
}

/// tlbwe
const TLBWE: u32 = 0x7C00_07A4;

/// tlbre
const TLBRE: u32 = 0x7C00_0764;

/// tlbsx 0,r3
const TLBSX: u32 = 0x7C00_1F24;

/// Gives a core MAS0 to 4 and MAS6 and 7.
fn set_all(regs: &mut Regs, values: [u32; 7]) {
    let [m0, m1, m2, m3, m4, m6, m7] = values;
    regs.set_mas0(m0);
    regs.set_mas1(m1);
    regs.set_mas2(m2);
    regs.set_mas3(m3);
    regs.set_mas4(m4);
    regs.set_mas6(m6);
    regs.set_mas7(m7);
}

/// MAS0 to 4 and MAS6 and 7 of a core.
fn all_of(regs: &Regs) -> [u32; 7] {
    [
        regs.mas0(),
        regs.mas1(),
        regs.mas2(),
        regs.mas3(),
        regs.mas4(),
        regs.mas6(),
        regs.mas7(),
    ]
}

/// 64 KiB from 0x40010000 in space 1 for PID 7, to 0xA80030000, in slot 517.
const PAGE: [u32; 7] = [
    0x1005_0000,
    0x8007_1300,
    0x4001_2006,
    0x8003_33F5,
    0,
    0,
    0xA,
];

/// Instructions with (r3) and the MAS registers before, and the MAS registers after.
const REPORTS: [(u32, u32, [u32; 7], [u32; 7]); 8] = [
    // the slot is read as TLB1 keeps it, and the other bits of MAS0 stay
    (
        TLBRE,
        0,
        [0xD005_F003, 0, 0, 0, 9, 8, 0],
        [
            0xD005_F002,
            0x8007_1300,
            0x4001_0006,
            0x8003_03F5,
            9,
            8,
            0xA,
        ],
    ),
    // no slot is named
    (
        TLBRE,
        0,
        [0x2005_0003, 1, 2, 3, 4, 6, 7],
        [0x2005_0002, 0, 0, 0, 4, 6, 0],
    ),
    // slots that were never written, of TLB0 and of TLB1
    (
        TLBRE,
        0,
        [0x0003_0001, 1, 0x0400_5000, 3, 4, 6, 7],
        [0x0003_0002, 0x0000_0100, 0, 0, 4, 6, 0],
    ),
    (
        TLBRE,
        0,
        [0x1006_0001, 1, 0x0400_5000, 3, 4, 6, 7],
        [0x1006_0002, 0, 0, 0, 4, 6, 0],
    ),
    // found at the last byte of its page
    (
        TLBSX,
        0x4001_FFFF,
        [0xCFFF_FFFF, 0, 0, 0, 9, 0x0007_0001, 0],
        [
            0xD005_F002,
            0x8007_1300,
            0x4001_0006,
            0x8003_03F5,
            9,
            0x0007_0001,
            0xA,
        ],
    ),
    // behind its page, in the other space, and of another PID
    (
        TLBSX,
        0x4002_0000,
        [0xFFFF_FFFF, 1, 2, 3, 0x0000_0A1D, 0xC007_0FF1, 7],
        [
            0x0002_0003,
            0x0007_1A00,
            0x4002_001D,
            0,
            0x0000_0A1D,
            0xC007_0FF1,
            0,
        ],
    ),
    (
        TLBSX,
        0x4001_0000,
        [0xFFFF_FFFF, 1, 2, 3, 0x1000_0000, 0x0007_0000, 7],
        [
            0x1000_0000,
            0x0007_0000,
            0x4001_0000,
            0,
            0x1000_0000,
            0x0007_0000,
            0,
        ],
    ),
    (
        TLBSX,
        0x4001_0000,
        [0, 1, 2, 3, 0x3000_0000, 0x0008_0001, 7],
        [
            0x3000_0000,
            0x0008_1000,
            0x4001_0000,
            0,
            0x3000_0000,
            0x0008_0001,
            0,
        ],
    ),
];

#[test]
fn reads_and_searches_report_in_the_registers(rt: HostRuntime) -> Result<(), Fail> {
    for &(word, r3, before, after) in REPORTS.iter() {
        let mut mmu = mmu_with(rt.alloc(), 2)?;
        let mut regs = core_at(0x2000, 0);
        set_all(&mut regs, PAGE);
        let dead = emulate(&decode(TLBWE), &mut regs, &mut mmu);
        assert_eq!(rt; dead.as_slice(), [517].as_slice());
        assert_eq!(rt; (regs.pc(), mmu.nv), (0x2004, 2));
        regs.set_gpr(3, r3);
        set_all(&mut regs, before);
        let dead = emulate(&decode(word), &mut regs, &mut mmu);
        assert_eq!(rt; (dead.len(), regs.pc(), mmu.nv), (0, 0x2008, 2));
        assert_eq!(rt; all_of(&regs), after, "{word:x} {r3:x}");
    }
    Ok(())
}

/// Invalidations of that page with (r3) and MAS6, and whether they end it: tlbilx with T of 0, 1 and 3, and tlbivax.
const ENDINGS: [(u32, u32, u32, bool); 14] = [
    (0x7C00_1824, 0, 0, true),
    (0x7C20_1824, 0, 0x0007_0000, true),
    (0x7C20_1824, 0, 0x0008_0001, false),
    (0x7C20_1824, 0, 0, false), // the initial area's TID, and then its addresses
    (0x7C60_1824, 0x1000, 0, false),
    (0x7C00_1E24, 0x1008, 0, false),
    (0x7C60_1824, 0x4001_8000, 0x0007_0000, true),
    (0x7C60_1824, 0x4002_0000, 0x0007_0000, false),
    (0x7C60_1824, 0x4001_8000, 0x0000_0000, false),
    (0x7C00_1E24, 0x4001_8008, 0, true),
    (0x7C00_1E24, 0x4001_8000, 0, false), // of TLB0
    (0x7C00_1E24, 0x4002_0008, 0, false),
    (0x7C00_1E24, 0xC, 0, true), // all of TLB1
    (0x7C00_1E24, 4, 0, false),
];

#[test]
fn invalidations_end_what_they_name(rt: HostRuntime) -> Result<(), Fail> {
    for &(word, r3, mas6, ends) in ENDINGS.iter() {
        let mut mmu = mmu_with(rt.alloc(), 2)?;
        let mut regs = core_at(0x2000, 0);
        set_all(&mut regs, PAGE);
        emulate(&decode(TLBWE), &mut regs, &mut mmu);
        regs.set_gpr(3, r3);
        regs.set_mas6(mas6);
        let dead = emulate(&decode(word), &mut regs, &mut mmu);
        assert_eq!(rt;
            dead.as_slice() == [517].as_slice(),
            ends,
            "{word:x} {r3:x}"
        );
        assert_eq!(rt; (dead.is_empty(), mmu.tlb.read(517).valid), (!ends, !ends));
        assert!(rt; mmu.tlb.read(512).valid);
        assert_eq!(rt; regs.pc(), 0x2008);
    }
    Ok(())
}

/// Writes of the page 0x04085000 with MAS0 and MAS1, the slots that they answer, and the next victim, which was 2.
const WRITES: [(u32, u32, &[u16], u8); 5] = [
    (0x0006_0FFD, 0x8000_0000, &[22], 1), // the way of ESEL, and the next victim of NV
    (0x0006_0FFF, 0, &[22], 3), // a dead one
    (0x1006_0FFD, 0x8000_0000, &[518], 2), // of TLB1, and of no size
    (0x2006_0FFD, 0x8000_0000, &[], 2), // of no TLB
    (0x3006_0FFD, 0x8000_0000, &[], 2),
];

#[test]
fn writes_answer_their_slots(rt: HostRuntime) -> Result<(), Fail> {
    for &(m0, m1, slots, nv) in WRITES.iter() {
        let mut mmu = mmu_with(rt.alloc(), 2)?;
        let mut regs = core_at(0x2000, 0);
        set_all(&mut regs, [m0, m1, 0x0408_5000, 0x15, 0, 0, 0]);
        let dead = emulate(&decode(TLBWE), &mut regs, &mut mmu);
        assert_eq!(rt; (dead.as_slice(), mmu.nv), (slots, nv), "{m0:x}");
        assert_eq!(rt; regs.pc(), 0x2004);
    }
    Ok(())
}

#[test]
fn tlb_errors_report_in_the_registers(rt: HostRuntime) -> Result<(), Fail> {
    let mut mmu = mmu_with(rt.alloc(), 3)?;
    let mut regs = core_at(0x2000, 0x1000_0010);
    regs.set_pid(9);
    set_all(&mut regs, [0xFFFF_FFFF, 1, 2, 3, 0x0000_0206, 6, 7]);
    deliver(
        &mut regs,
        &mut mmu,
        Cause::MissData {
            ea: 0x0403_1234,
            store: true,
        },
    );
    assert_eq!(rt;
        all_of(&regs),
        [
            0x0003_0000,
            0x8009_1200,
            0x0403_1006,
            0,
            0x0000_0206,
            0x0009_0001,
            0
        ]
    );
    assert_eq!(rt; (regs.dear(), regs.esr()), (0x0403_1234, 0x0080_0000));
    assert_eq!(rt;
        (regs.pc(), regs.srr0(), regs.srr1()),
        (0x1234_0D00, 0x2000, 0x1000_0010)
    );
    // a fetch, in the space of instructions
    let mut regs = core_at(0x0403_1234, 0x1000_0010);
    set_all(&mut regs, [0, 1, 2, 3, 0x1000_0100, 6, 7]);
    deliver(&mut regs, &mut mmu, Cause::MissInsn { ea: 0x0403_1234 });
    assert_eq!(rt;
        all_of(&regs),
        [0x1000_0000, 0x8000_0100, 0x0403_1000, 0, 0x1000_0100, 0, 0]
    );
    assert_eq!(rt;
        (regs.dear(), regs.esr(), regs.pc()),
        (0xD, 0xE, 0x1234_0E00)
    );
    assert_eq!(rt; mmu.nv, 3);
    Ok(())
}
