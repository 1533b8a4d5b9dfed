//! The registers by name and by number.

use super::*;
use arrayvec::ArrayVec;
use std::test::*;

/// Numbers with what reads back after all ones were written by the system, on core 5.
const KEPT: [(u32, u32); 63] = [
    (1, 0xE000_007F), // XER
    (8, 0xFFFF_FFFF), // LR
    (9, 0xFFFF_FFFF), // CTR
    (22, 0xFFFF_FFFF), // DEC
    (26, 0xFFFF_FFFF), // SRR0
    (27, 0xFFFF_FFFF), // SRR1
    (48, 0x0000_3FFF), // PID
    (54, 0xFFFF_FFFF), // DECAR
    (58, 0xFFFF_FFFF), // CSRR0
    (59, 0xFFFF_FFFF), // CSRR1
    (61, 0xFFFF_FFFF), // DEAR
    (62, 0xFFFF_FFFF), // ESR
    (63, 0xFFFF_0000), // IVPR
    (272, 0xFFFF_FFFF), // SPRG0
    (273, 0xFFFF_FFFF),
    (274, 0xFFFF_FFFF),
    (275, 0xFFFF_FFFF),
    (276, 0xFFFF_FFFF),
    (277, 0xFFFF_FFFF),
    (278, 0xFFFF_FFFF),
    (279, 0xFFFF_FFFF),
    (286, 5), // PIR
    (287, 0x8023_0020), // PVR
    (336, 0), // TSR, where ones clear
    (340, 0xFFFF_FFFF), // TCR
    (400, 0xFFF0), // IVOR0
    (401, 0xFFF0),
    (402, 0xFFF0),
    (403, 0xFFF0),
    (404, 0xFFF0),
    (405, 0xFFF0),
    (406, 0xFFF0),
    (407, 0xFFF0),
    (408, 0xFFF0),
    (409, 0xFFF0),
    (410, 0xFFF0),
    (411, 0xFFF0),
    (412, 0xFFF0),
    (413, 0xFFF0),
    (414, 0xFFF0),
    (415, 0xFFF0), // IVOR15
    (570, 0xFFFF_FFFF), // MCSRR0
    (571, 0xFFFF_FFFF), // MCSRR1
    (624, 0xFFFF_FFFF), // MAS0
    (625, 0xFFFF_FFFF),
    (626, 0xFFFF_FFFF),
    (627, 0xFFFF_FFFF),
    (628, 0xFFFF_FFFF), // MAS4
    (629, 0), // no MAS5
    (630, 0xFFFF_FFFF), // MAS6
    (688, 0x0411_0200), // TLB0CFG
    (689, 0x401B_C040), // TLB1CFG
    (944, 0xF), // MAS7
    (1008, 0xFFFF_FFFF), // HID0
    (1009, 0), // no HID1
    (1010, 0xFFFF_FEFD), // L1CSR0
    (1011, 0xFFFF_FEFD), // L1CSR1
    (1012, 0), // no MMUCSR0
    (1013, 0xFFFF_FDFF), // BUCSR
    (16, 0),
    (280, 0),
    (432, 0),
    (1023, 0),
];

#[test]
fn special_registers_keep_their_bits(rt: HostRuntime) {
    for &(number, kept) in KEPT.iter() {
        let mut regs = boot(0x100, 0x8000, 5);
        regs.set_tsr(0xFFFF_FFFF);
        assert_eq!(rt;
            spr_write(&mut regs, number, 0xFFFF_FFFF),
            WriteAnswer::Done,
            "{number}"
        );
        assert_eq!(rt;
            spr_read(&regs, number),
            ReadAnswer::Value(kept),
            "{number}"
        );
        if number == 336 {
            assert_eq!(rt; regs.tsr(), 0);
        }
    }
    let mut regs = boot(0, 0, 0);
    regs.set_tsr(0x0C00_0000);
    assert_eq!(rt; spr_write(&mut regs, 336, 0x0800_0001), WriteAnswer::Done);
    assert_eq!(rt; regs.tsr(), 0x0400_0000);
    regs.set_time(0x1234_5678_9ABC_DEF0);
    assert_eq!(rt; spr_read(&regs, 268), ReadAnswer::Value(0x9ABC_DEF0));
    assert_eq!(rt; spr_read(&regs, 269), ReadAnswer::Value(0x1234_5678));
    regs.set_sprg(4, 77);
    assert_eq!(rt; spr_read(&regs, 260), ReadAnswer::Value(77));
}

/// Numbers with whether a user program may read and write them, and whether the number is the system's.
const USERS: [(u32, bool, bool, bool); 20] = [
    (1, true, true, false),
    (8, true, true, false),
    (9, true, true, false),
    (22, false, false, true),
    (26, false, false, true),
    (48, false, false, true),
    (256, false, false, false),
    (258, false, false, false),
    (259, true, false, false),
    (263, true, false, false),
    (264, false, false, false),
    (268, true, false, false),
    (269, true, false, false),
    (272, false, false, true),
    (286, false, false, true),
    (400, false, false, true),
    (416, false, false, false),
    (0, false, false, false),
    (512, false, false, false),
    (1023, false, false, true),
];

#[test]
fn user_programs_have_their_numbers_alone(rt: HostRuntime) {
    for &(number, reads, writes, is_systems) in USERS.iter() {
        for state in [0, 0x4000] {
            let mut regs = boot(0, 0, 0);
            regs.set_msr(state);
            let read = spr_read(&regs, number);
            let write = spr_write(&mut regs, number, 0);
            if is_systems {
                let user = state == 0x4000;
                assert_eq!(rt; read == ReadAnswer::Privileged, user, "{number}");
                assert_eq!(rt; write == WriteAnswer::Privileged, user, "{number}");
            } else {
                assert_eq!(rt; read == ReadAnswer::Value(0), reads, "{number}");
                assert_eq!(rt; read == ReadAnswer::Illegal, !reads, "{number}");
                assert_eq!(rt; write == WriteAnswer::Done, writes, "{number}");
                assert_eq!(rt; write == WriteAnswer::Illegal, !writes, "{number}");
            }
        }
    }
}

#[test]
fn a_core_starts_as_a_client_program_expects(rt: HostRuntime) {
    let mut regs = boot(0x40, 0x8000, 3);
    for n in 0..32 {
        let expected = match n {
            3 => 0x8000,
            6 => 0x4550_4150,
            7 => 0x0400_0000,
            _ => 0,
        };
        assert_eq!(rt; regs.gpr(n), expected);
    }
    assert_eq!(rt; (regs.pc(), regs.msr(), regs.pir()), (0x40, 0x1000_0000, 3));
    assert_eq!(rt;
        (regs.cr(), regs.xer(), regs.lr(), regs.ctr()),
        (0, 0, 0, 0)
    );
    assert_eq!(rt; (regs.ivpr(), regs.ivor(15), regs.sprg(7)), (0, 0, 0));
    assert_eq!(rt; (regs.time(), regs.dec(), regs.tsr()), (0, 0, 0));
    assert_eq!(rt; (regs.mas0(), regs.mas7()), (0, 0));
    assert!(rt; regs.reserved().is_none() && !regs.idle());
    regs.set_msr(0xFFFF_FFFF);
    assert_eq!(rt; regs.msr(), 0x1002_D030);
    regs.set_pc(0xFFFF_FFFF);
    assert_eq!(rt; regs.pc(), 0xFFFF_FFFC);
    regs.set_gpr(31, 9);
    assert_eq!(rt; (regs.gpr(31), regs.gpr(30)), (9, 0));
    regs.set_reserved(Some(64));
    regs.set_idle(true);
    assert!(rt; regs.reserved() == Some(64) && regs.idle());
}

#[test]
fn addresses_and_bits(rt: HostRuntime) {
    let mut regs = boot(0x40, 0x8000, 3);
    regs.set_gpr(0, 0x100);
    regs.set_gpr(9, 0xFFFF_FFF8);
    assert_eq!(rt;
        (regs.gpr_or_zero(0), regs.gpr_or_zero(9)),
        (0, 0xFFFF_FFF8)
    );
    assert_eq!(rt;
        (regs.indexed_address(0, 0), regs.indexed_address(9, 0)),
        (0x100, 0xF8)
    );
    assert!(rt; !regs.is_user() && !regs.instruction_space() && !regs.data_space());
    regs.set_msr(msr::PROBLEM_STATE | msr::INSTRUCTION_ADDRESS_SPACE | msr::DATA_ADDRESS_SPACE);
    assert!(rt; regs.is_user() && regs.instruction_space() && regs.data_space());
    assert_eq!(rt; msr::STATE_BITS & msr::GUEST_STATE, 0);
    assert!(rt; is_set(regs.msr(), msr::GUEST_STATE) && !is_set(regs.msr(), msr::EXTERNAL_ENABLE));
    regs.set_msr(msr::CRITICAL_ENABLE | msr::EXTERNAL_ENABLE | msr::MACHINE_CHECK_ENABLE);
    assert_eq!(rt; regs.msr(), 0x1002_9000);
    regs.set_pid(0xFFFF_FFFF);
    assert_eq!(rt; regs.pid(), 0x3FFF);
    regs.are_kept();
    changes_keep_the_registers();
}

#[test]
fn syndromes_and_bytes(rt: HostRuntime) {
    assert_eq!(rt;
        (store_syndrome(true), store_syndrome(false)),
        (0x0080_0000, 0)
    );
    assert_eq!(rt;
        (order_syndrome(true), order_syndrome(false)),
        (0x0002_0000, 0)
    );
    assert_eq!(rt; esr::ILLEGAL | esr::PRIVILEGED | esr::TRAP, 0x0E00_0000);
    let mut bytes: ArrayVec<u8, 8> = ArrayVec::new();
    push_word(&mut bytes, 0x0102_0304);
    push_word(&mut bytes, 0xFFFE_FDFC);
    assert_eq!(rt;
        bytes.as_slice(),
        [1, 2, 3, 4, 0xFF, 0xFE, 0xFD, 0xFC].as_slice()
    );
}
