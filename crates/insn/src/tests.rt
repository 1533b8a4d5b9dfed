//! Words as an assembler writes them.

use super::*;
use std::test::*;

/// Encodings as an assembler writes them, with their neighbours that are no row's.
const WORDS: [(u32, Op); 167] = [
    (0x0C83_0010, Op::Twi), // twi 4, r3, 16
    (0x1C63_000A, Op::Mulli), // mulli r3, r3, 10
    (0x2063_0000, Op::Subfic), // subfic r3, r3, 0
    (0x2803_0000, Op::Cmpli), // cmplwi r3, 0
    (0x2C03_0000, Op::Cmpi), // cmpwi r3, 0
    (0x3063_0001, Op::Addic), // addic r3, r3, 1
    (0x3463_FFFF, Op::AddicRecord), // addic. r3, r3, -1
    (0x3860_0001, Op::Addi), // li r3, 1
    (0x39CE_FFFF, Op::Addi), // addi r14, r14, -1
    (0x3D60_0001, Op::Addis), // lis r11, 1
    (0x4182_0008, Op::Bc), // beq .+8
    (0x4200_FFFC, Op::Bc), // bdnz .-4
    (0x4400_0002, Op::Sc), // sc
    (0x4400_0003, Op::Sc), // bit 31 of sc is ignored
    (0x4400_0022, Op::Hypercall), // sc 1
    (0x4400_0023, Op::Hypercall), // and so it is here
    (0x4400_0020, Op::Illegal), // without bit 30
    (0x4400_0062, Op::Illegal), // sc 3
    (0x4800_0000, Op::B), // b .
    (0x4BFF_FFB4, Op::B), // b .-76
    (0x4800_0103, Op::B), // bla 0x100
    (0x5064_442E, Op::Rlwimi), // rlwimi r4, r3, 8, 16, 23
    (0x5463_103A, Op::Rlwinm), // slwi r3, r3, 2
    (0x5463_103B, Op::Rlwinm), // slwi. r3, r3, 2
    (0x5C63_203E, Op::Rlwnm), // rotlw r3, r3, r4
    (0x616B_0001, Op::Ori), // ori r11, r11, 1
    (0x6000_0000, Op::Ori), // nop
    (0x656B_8000, Op::Oris), // oris r11, r11, 0x8000
    (0x6863_00FF, Op::Xori), // xori r3, r3, 255
    (0x6C63_00FF, Op::Xoris), // xoris r3, r3, 255
    (0x7063_00FF, Op::Andi), // andi. r3, r3, 255
    (0x7463_00FF, Op::Andis), // andis. r3, r3, 255
    (0x8063_0000, Op::Lwz), // lwz r3, 0(r3)
    (0x8463_0004, Op::Lwzu), // lwzu r3, 4(r3)
    (0x8863_0000, Op::Lbz), // lbz r3, 0(r3)
    (0x8C83_0001, Op::Lbzu), // lbzu r4, 1(r3)
    (0x9001_0014, Op::Stw), // stw r0, 20(r1)
    (0x9421_FFF0, Op::Stwu), // stwu r1, -16(r1)
    (0x9863_0000, Op::Stb), // stb r3, 0(r3)
    (0x9C83_0001, Op::Stbu), // stbu r4, 1(r3)
    (0xA063_0000, Op::Lhz), // lhz r3, 0(r3)
    (0xA483_0002, Op::Lhzu), // lhzu r4, 2(r3)
    (0xA863_0000, Op::Lha), // lha r3, 0(r3)
    (0xAC83_0002, Op::Lhau), // lhau r4, 2(r3)
    (0xB063_0000, Op::Sth), // sth r3, 0(r3)
    (0xB483_0002, Op::Sthu), // sthu r4, 2(r3)
    (0xB9C1_0008, Op::Lmw), // lmw r14, 8(r1)
    (0xBDC1_0008, Op::Stmw), // stmw r14, 8(r1)
    (0xC023_0000, Op::FloatingPoint), // lfs f1, 0(r3)
    (0xDC23_0008, Op::FloatingPoint), // stfdu f1, 8(r3)
    (0xEC21_102A, Op::FloatingPoint), // fadds f1, f1, f2
    (0xFC20_0890, Op::FloatingPoint), // fmr f1, f1
    (0x7C20_1C2E, Op::FloatingPoint), // lfsx f1, 0, r3
    (0x7C20_1FAE, Op::FloatingPoint), // stfiwx f1, 0, r3
    (0x4C04_0000, Op::Mcrf), // mcrf cr0, cr1
    (0x4E80_0020, Op::Bclr), // blr
    (0x4D82_0021, Op::Bclr), // beqlrl
    (0x4E80_0420, Op::Bcctr), // bctr
    (0x4E80_0421, Op::Bcctr), // bctrl
    (0x4C42_1042, Op::Crnor), // crnot eq, eq
    (0x4C42_1102, Op::Crandc), // crandc eq, eq, eq
    (0x4CC6_3182, Op::Crxor), // crclr 6
    (0x4C42_11C2, Op::Crnand), // crnand eq, eq, eq
    (0x4C42_1202, Op::Crand), // crand eq, eq, eq
    (0x4CC6_3242, Op::Creqv), // crset 6
    (0x4C42_1342, Op::Crorc), // crorc eq, eq, eq
    (0x4C42_1382, Op::Cror), // cror eq, eq, eq
    (0x4C00_004C, Op::Rfmci), // rfmci
    (0x4C00_0064, Op::Rfi), // rfi
    (0x4C00_0066, Op::Rfci), // rfci
    (0x4C00_012C, Op::Isync), // isync
    (0x7C03_2000, Op::Cmp), // cmpw r3, r4
    (0x7C03_2040, Op::Cmpl), // cmplw r3, r4
    (0x7FE0_0008, Op::Tw), // trap
    (0x7C60_0106, Op::Wrtee), // wrtee r3
    (0x7C00_8146, Op::Wrteei), // wrteei 1
    (0x7C63_2010, Op::Subfc), // subfc r3, r3, r4
    (0x7C63_2050, Op::Subf), // subf r3, r3, r4
    (0x7C63_2451, Op::Subf), // subfo. r3, r3, r4
    (0x7C63_00D0, Op::Neg), // neg r3, r3
    (0x7C63_2110, Op::Subfe), // subfe r3, r3, r4
    (0x7C63_0190, Op::Subfze), // subfze r3, r3
    (0x7C63_01D0, Op::Subfme), // subfme r3, r3
    (0x7C63_2014, Op::Addc), // addc r3, r3, r4
    (0x7C63_2114, Op::Adde), // adde r3, r3, r4
    (0x7C63_0194, Op::Addze), // addze r3, r3
    (0x7C63_01D4, Op::Addme), // addme r3, r3
    (0x7DEF_2A14, Op::Add), // add r15, r15, r5
    (0x7DEF_2A15, Op::Add), // add. r15, r15, r5
    (0x7DEF_2E14, Op::Add), // addo r15, r15, r5
    (0x7C63_2016, Op::Mulhwu), // mulhwu r3, r3, r4
    (0x7C63_2096, Op::Mulhw), // mulhw r3, r3, r4
    (0x7C63_2416, Op::Illegal), // mulhwu has no OE form
    (0x7C63_21D6, Op::Mullw), // mullw r3, r3, r4
    (0x7C63_25D6, Op::Mullw), // mullwo r3, r3, r4
    (0x7C63_2396, Op::Divwu), // divwu r3, r3, r4
    (0x7C63_23D6, Op::Divw), // divw r3, r3, r4
    (0x7C65_201E, Op::Isel), // isel r3, r5, r4, lt
    (0x7C65_27DE, Op::Isel), // isel r3, r5, r4, 31
    (0x7C0F_F120, Op::Mtcrf), // mtcrf 0xFF, r0
    (0x7C00_0024, Op::Tlbilx), // tlbilxlpid
    (0x7C60_0124, Op::Mtmsr), // mtmsr r3
    (0x7C00_1E24, Op::Tlbivax), // tlbivax 0, r3
    (0x7C00_1F24, Op::Tlbsx), // tlbsx 0, r3
    (0x7C00_0764, Op::Tlbre), // tlbre
    (0x7C00_07A4, Op::Tlbwe), // tlbwe
    (0x7C00_0026, Op::Mfcr), // mfcr r0
    (0x7C60_00A6, Op::Mfmsr), // mfmsr r3
    (0x7C08_02A6, Op::Mfspr), // mflr r0
    (0x7C6C_42E6, Op::Mftb), // mftb r3
    (0x7C08_03A6, Op::Mtspr), // mtlr r0
    (0x7C60_1828, Op::Lwarx), // lwarx r3, 0, r3
    (0x7C00_182C, Op::Icbt), // icbt 0, 0, r3
    (0x7C00_186C, Op::Dcbst), // dcbst 0, r3
    (0x7C00_18AC, Op::Dcbf), // dcbf 0, r3
    (0x7C60_192D, Op::Stwcx), // stwcx. r3, 0, r3
    (0x7C60_192C, Op::Illegal), // the same without Rc
    (0x7C00_19EC, Op::Dcbtst), // dcbtst 0, r3
    (0x7C00_1A2C, Op::Dcbt), // dcbt 0, r3
    (0x7C00_1BAC, Op::Dcbi), // dcbi 0, r3
    (0x7C60_1C2C, Op::Lwbrx), // lwbrx r3, 0, r3
    (0x7C00_046C, Op::Tlbsync), // tlbsync
    (0x7C00_04AC, Op::Sync), // sync
    (0x7C60_1D2C, Op::Stwbrx), // stwbrx r3, 0, r3
    (0x7C00_1DEC, Op::Dcba), // dcba 0, r3
    (0x7C60_1E2C, Op::Lhbrx), // lhbrx r3, 0, r3
    (0x7C00_06AC, Op::Mbar), // mbar
    (0x7C60_1F2C, Op::Sthbrx), // sthbrx r3, 0, r3
    (0x7C00_1FAC, Op::Icbi), // icbi 0, r3
    (0x7C00_1FEC, Op::Dcbz), // dcbz 0, r3
    (0x7C60_182E, Op::Lwzx), // lwzx r3, 0, r3
    (0x7C83_286E, Op::Lwzux), // lwzux r4, r3, r5
    (0x7C60_18AE, Op::Lbzx), // lbzx r3, 0, r3
    (0x7C83_28EE, Op::Lbzux), // lbzux r4, r3, r5
    (0x7C60_192E, Op::Stwx), // stwx r3, 0, r3
    (0x7C83_296E, Op::Stwux), // stwux r4, r3, r5
    (0x7C60_19AE, Op::Stbx), // stbx r3, 0, r3
    (0x7C83_29EE, Op::Stbux), // stbux r4, r3, r5
    (0x7C60_1A2E, Op::Lhzx), // lhzx r3, 0, r3
    (0x7C83_2A6E, Op::Lhzux), // lhzux r4, r3, r5
    (0x7C60_1AAE, Op::Lhax), // lhax r3, 0, r3
    (0x7C83_2AEE, Op::Lhaux), // lhaux r4, r3, r5
    (0x7C60_1B2E, Op::Sthx), // sthx r3, 0, r3
    (0x7C83_2B6E, Op::Sthux), // sthux r4, r3, r5
    (0x7C63_2030, Op::Slw), // slw r3, r3, r4
    (0x7C63_2430, Op::Srw), // srw r3, r3, r4
    (0x7C63_2630, Op::Sraw), // sraw r3, r3, r4
    (0x7C63_0E70, Op::Srawi), // srawi r3, r3, 1
    (0x7C63_0034, Op::Cntlzw), // cntlzw r3, r3
    (0x7C63_0734, Op::Extsh), // extsh r3, r3
    (0x7C63_0774, Op::Extsb), // extsb r3, r3
    (0x7C63_2038, Op::And), // and r3, r3, r4
    (0x7C63_2078, Op::Andc), // andc r3, r3, r4
    (0x7C63_20F8, Op::Nor), // nor r3, r3, r4
    (0x7C63_2238, Op::Eqv), // eqv r3, r3, r4
    (0x7C63_1A78, Op::Xor), // xor r3, r3, r3
    (0x7C63_2338, Op::Orc), // orc r3, r3, r4
    (0x7DE5_7B78, Op::Or), // mr r5, r15
    (0x7DE5_7B79, Op::Or), // mr. r5, r15
    (0x7C63_23B8, Op::Nand), // nand r3, r3, r4
    (0x7C00_007C, Op::Wait), // wait
    (0x7C60_1C2A, Op::Illegal), // lswx, which the processor leaves out
    (0x7C00_0448, Op::Illegal),
    (0x4C00_0002, Op::Illegal),
    (0x0000_0000, Op::Illegal),
    (0x0400_0000, Op::Illegal),
    (0xFFFF_FFFE, Op::FloatingPoint),
];

#[test]
fn words_of_the_table_and_their_neighbours(rt: HostRuntime) {
    for &(word, op) in WORDS.iter() {
        assert_eq!(rt; decode(word), Insn { op, word }, "at {word:x}");
    }
    at_most_one_row_fits();
}

#[test]
fn operands_of_words(rt: HostRuntime) {
    // addi r14, r15, -1
    let decrement = decode(0x39CF_FFFF);
    assert_eq!(rt; decrement.rt(), 14);
    assert_eq!(rt; decrement.ra(), 15);
    assert_eq!(rt; decrement.immediate(), 0xFFFF);
    assert_eq!(rt; decrement.signed_immediate(), -1);
    // add r8, r7, r5
    assert_eq!(rt; decode(0x7D07_2A14).rb(), 5);
    // b .-76, b .+8 and bla 0x100
    let back = decode(0x4BFF_FFB4);
    assert_eq!(rt; back.branch_displacement(), -76);
    assert!(rt; !back.is_absolute());
    assert!(rt; !back.is_linked());
    assert_eq!(rt; decode(0x4800_0008).branch_displacement(), 8);
    let routine = decode(0x4800_0103);
    assert_eq!(rt; routine.branch_displacement(), 0x100);
    assert!(rt; routine.is_absolute());
    assert!(rt; routine.is_linked());
    // bdnz .-4 and beql- .+8
    assert_eq!(rt; decode(0x4200_FFFC).conditional_displacement(), -4);
    assert_eq!(rt; decode(0x4182_0009).conditional_displacement(), 8);
    // addo. r3, r3, r4
    let sum = decode(0x7C63_2615);
    assert!(rt; sum.records() && sum.tells_overflow());
    assert!(rt; !decode(0x7C63_2214).records() && !decode(0x7C63_2215).tells_overflow());
    // cmpwi cr7, r3, 0 and mcrf cr2, cr6
    assert_eq!(rt; decode(0x2F83_0000).bf(), 7);
    assert_eq!(rt;
        (decode(0x4D18_0000).bf(), decode(0x4D18_0000).bfa()),
        (2, 6)
    );
    // rlwinm r3, r3, 2, 28, 5: the mask wraps
    let rotate = decode(0x5463_170A);
    assert_eq!(rt;
        (rotate.rb(), rotate.mask_begin(), rotate.mask_end()),
        (2, 28, 5)
    );
    // mtcrf 0x81, r0
    assert_eq!(rt; decode(0x7C08_1120).fxm(), 0x81);
    // mfspr r3, 570 and mflr r0
    assert_eq!(rt; decode(0x7C7A_8AA6).spr(), 570);
    assert_eq!(rt; decode(0x7C08_02A6).spr(), 8);
    // wrteei 1 and wrteei 0, and tlbilxva 0, r3
    assert!(rt; decode(0x7C00_8146).is_enabling() && !decode(0x7C00_0146).is_enabling());
    assert_eq!(rt; decode(0x7C60_1824).invalidate_kind(), 3);
}
