//! Images of the tests, each word with its instruction.

/// Sends two bytes, and goes round for good.
pub const HELLO: [u32; 7] = [
    0x3D60_0001, // lis r11, 1
    0x616B_0001, // ori r11, r11, 1
    0x3860_0001, // li r3, 1
    0x3880_0002, // li r4, 2
    0x3CA0_4869, // lis r5, 0x4869
    0x4400_0022, // sc 1
    0x4800_0000, // b .
];

/// Asks to send 17 bytes, and sends the status of that.
pub const SEVENTEEN: [u32; 10] = [
    0x3D60_0001, // lis r11, 1
    0x616B_0001, // ori r11, r11, 1
    0x3860_0001, // li r3, 1
    0x3880_0011, // li r4, 17
    0x4400_0022, // sc 1
    0x7C65_1B78, // mr r5, r3
    0x3860_0001, // li r3, 1
    0x3880_0004, // li r4, 4
    0x4400_0022, // sc 1
    0x4800_0000, // b .
];

/// Calls by a token that no service has, and sends the status of that.
pub const UNLISTED: [u32; 9] = [
    0x3D60_0002, // lis r11, 2
    0x4400_0022, // sc 1
    0x7C65_1B78, // mr r5, r3
    0x3D60_0001, // lis r11, 1
    0x616B_0001, // ori r11, r11, 1
    0x3860_0001, // li r3, 1
    0x3880_0004, // li r4, 4
    0x4400_0022, // sc 1
    0x4800_0000, // b .
];

/// An expired decrementer that MSR[EE] holds back, and then lets in.
pub const CLOCK: [u32; 21] = [
    0x3860_0040, // li r3,64
    0x7C7A_63A6, // mtivor10 r3
    0x3860_0001, // li r3,1
    0x7C76_0BA6, // mtdecar r3
    0x3C80_0440, // lis r4,1088
    0x7C94_53A6, // mttcr r4
    0x7C76_03A6, // mtdec r3
    0x7F10_52A6, // mftsr r24
    0x3CA0_0800, // lis r5,2048
    0x7CB0_53A6, // mttsr r5
    0x7F30_52A6, // mftsr r25
    0x7C00_8146, // wrteei 1
    0x3BC0_0001, // li r30,1
    0x6000_0000, // nop
    0x6000_0000, // nop
    0x6000_0000, // nop
    0x7F5A_02A6, // mfsrr0 r26
    0x7F60_00A6, // mfmsr r27
    0x7F9B_02A6, // mfsrr1 r28
    0x7FB6_02A6, // mfdec r29
    0x4800_0000, // b 50
];

/// A system call in the handler of an illegal instruction, a critical return, and a machine check.
pub const NESTED: [u32; 42] = [
    0x3860_0060, // li r3,96
    0x7C76_63A6, // mtivor6 r3
    0x3860_0080, // li r3,128
    0x7C78_63A6, // mtivor8 r3
    0x3860_0090, // li r3,144
    0x7C71_63A6, // mtivor1 r3
    0x3860_1000, // li r3,4096
    0x7C60_0124, // mtmsr r3
    0x0000_0000, // no instruction
    0x3BC0_0077, // li r30,119
    0x3860_0040, // li r3,64
    0x7C7A_0BA6, // mtcsrr0 r3
    0x3860_1000, // li r3,4096
    0x7C7B_0BA6, // mtcsrr1 r3
    0x4C00_0066, // rfci
    0x3BE0_0001, // li r31,1
    0x7EE0_00A6, // mfmsr r23
    0x3C60_0001, // lis r3,1
    0x8083_0000, // lwz r4,0(r3)
    0x3BA0_0055, // li r29,85
    0x4800_0000, // b 50
    0x6000_0000, // nop
    0x6000_0000, // nop
    0x6000_0000, // nop
    0x7E9A_02A6, // mfsrr0 r20
    0x7E1B_02A6, // mfsrr1 r16
    0x7EBE_0AA6, // mfesr r21
    0x4400_0002, // sc
    0x3A94_0004, // addi r20,r20,4
    0x7E9A_03A6, // mtsrr0 r20
    0x7E1B_03A6, // mtsrr1 r16
    0x4C00_0064, // rfi
    0x7EDA_02A6, // mfsrr0 r22
    0x4C00_0064, // rfi
    0x6000_0000, // nop
    0x6000_0000, // nop
    0x7F1A_8AA6, // mfmcsrr0 r24
    0x7F3B_8AA6, // mfmcsrr1 r25
    0x7F40_00A6, // mfmsr r26
    0x3B78_0004, // addi r27,r24,4
    0x7F7A_8BA6, // mtmcsrr0 r27
    0x4C00_004C, // rfmci
];

/// Waits for the decrementer with MSR[EE] clear, and then with it set.
pub const IDLE: [u32; 19] = [
    0x3C80_0400, // lis r4,1024
    0x7C94_53A6, // mttcr r4
    0x3860_0004, // li r3,4
    0x7C76_03A6, // mtdec r3
    0x7C00_007C, // wait
    0x7F0C_42A6, // mftb r24
    0x7F30_52A6, // mftsr r25
    0x3860_0040, // li r3,64
    0x7C7A_63A6, // mtivor10 r3
    0x3CA0_0800, // lis r5,2048
    0x7CB0_53A6, // mttsr r5
    0x7C00_8146, // wrteei 1
    0x3860_0003, // li r3,3
    0x7C76_03A6, // mtdec r3
    0x7C00_007C, // wait
    0x3BC0_0001, // li r30,1
    0x7F4C_42A6, // mftb r26
    0x7F7A_02A6, // mfsrr0 r27
    0x4800_0000, // b 48
];

/// A plain store between lwarx and stwcx., another word of the block, and no reservation.
pub const RESERVE: [u32; 17] = [
    0x3860_1000, // li r3,4096
    0x3900_0004, // li r8,4
    0x38C0_0066, // li r6,102
    0x38E0_0077, // li r7,119
    0x7CA0_1828, // lwarx r5,0,r3
    0x90C3_0000, // stw r6,0(r3)
    0x7CE0_192D, // stwcx. r7,0,r3
    0x7E80_0026, // mfcr r20
    0x82A3_0000, // lwz r21,0(r3)
    0x7CA0_1828, // lwarx r5,0,r3
    0x7CC3_412D, // stwcx. r6,r3,r8
    0x7EC0_0026, // mfcr r22
    0x82E3_0004, // lwz r23,4(r3)
    0x7CE3_412D, // stwcx. r7,r3,r8
    0x7F00_0026, // mfcr r24
    0x8323_0004, // lwz r25,4(r3)
    0x4800_0000, // b 40
];

/// A store across the end of the memory.
pub const CROSS: [u32; 16] = [
    0x3860_0030, // li r3,48
    0x7C71_63A6, // mtivor1 r3
    0x3860_1000, // li r3,4096
    0x7C60_0124, // mtmsr r3
    0x3C60_0001, // lis r3,1
    0x3CA0_1234, // lis r5,4660
    0x60A5_5678, // ori r5,r5,22136
    0x90A3_FFFC, // stw r5,-4(r3)
    0x90A3_FFFE, // stw r5,-2(r3)
    0x4800_0000, // b 24
    0x6000_0000, // nop
    0x6000_0000, // nop
    0x7F1A_8AA6, // mfmcsrr0 r24
    0x8323_FFFC, // lwz r25,-4(r3)
    0xA343_FFFE, // lhz r26,-2(r3)
    0x4800_0000, // b 3c
];

/// Stores across two pages, of which the second is missing, may not be stored to, is without memory, where it may not
/// be stored to either, and is little-endian.
pub const CROSSING: [u32; 91] = [
    0x4800_0098, // b 98
    0x6000_0000, // nop
    0x6000_0000, // nop
    0x6000_0000, // nop
    0x7D52_9AA6, // mfspr r10,626
    0x4800_0010, // b 24
    0x6000_0000, // nop
    0x6000_0000, // nop
    0x3940_0002, // li r10,2
    0x7D7D_0AA6, // mfdear r11
    0x7D9E_0AA6, // mfesr r12
    0x915F_0000, // stw r10,0(r31)
    0x917F_0004, // stw r11,4(r31)
    0x919F_0008, // stw r12,8(r31)
    0x3BFF_000C, // addi r31,r31,12
    0x7D5A_02A6, // mfsrr0 r10
    0x394A_0004, // addi r10,r10,4
    0x7D5A_03A6, // mtsrr0 r10
    0x4C00_0064, // rfi
    0x6000_0000, // nop
    0x3940_0001, // li r10,1
    0x915F_0000, // stw r10,0(r31)
    0x3BFF_000C, // addi r31,r31,12
    0x7D5A_8AA6, // mfmcsrr0 r10
    0x394A_0004, // addi r10,r10,4
    0x7D5A_8BA6, // mtmcsrr0 r10
    0x4C00_004C, // rfmci
    0x3C60_1000, // lis r3,4096
    0x7C63_3378, // or r3,r3,r6
    0x7C70_9BA6, // mtspr 624,r3
    0x3C60_8000, // lis r3,-32768
    0x6063_0100, // ori r3,r3,256
    0x7C71_9BA6, // mtspr 625,r3
    0x7CF2_9BA6, // mtspr 626,r7
    0x7D13_9BA6, // mtspr 627,r8
    0x7C00_07A4, // tlbwe
    0x3CC6_0001, // addis r6,r6,1
    0x4E80_0020, // blr
    0x3860_0010, // li r3,16
    0x7C7D_63A6, // mtivor13 r3
    0x3860_0020, // li r3,32
    0x7C72_63A6, // mtivor2 r3
    0x3860_0050, // li r3,80
    0x7C71_63A6, // mtivor1 r3
    0x3860_1000, // li r3,4096
    0x7C60_0124, // mtmsr r3
    0x3BE0_2000, // li r31,8192
    0x3CC0_0001, // lis r6,1
    0x3CE0_0400, // lis r7,1024
    0x6008_8015, // ori r8,r0,32789
    0x4BFF_FFA5, // bl 6c
    0x3CE0_0402, // lis r7,1026
    0x6008_9015, // ori r8,r0,36885
    0x4BFF_FF99, // bl 6c
    0x3CE0_0402, // lis r7,1026
    0x60E7_1000, // ori r7,r7,4096
    0x6008_D011, // ori r8,r0,53265
    0x4BFF_FF89, // bl 6c
    0x3CE0_0403, // lis r7,1027
    0x6008_A015, // ori r8,r0,40981
    0x4BFF_FF7D, // bl 6c
    0x3CE0_0403, // lis r7,1027
    0x60E7_1000, // ori r7,r7,4096
    0x3D00_0002, // lis r8,2
    0x6108_0011, // ori r8,r8,17
    0x4BFF_FF69, // bl 6c
    0x3CE0_0404, // lis r7,1028
    0x6008_C015, // ori r8,r0,49173
    0x4BFF_FF5D, // bl 6c
    0x3CE0_0404, // lis r7,1028
    0x60E7_1001, // ori r7,r7,4097
    0x6008_B015, // ori r8,r0,45077
    0x4BFF_FF4D, // bl 6c
    0x3CA0_1234, // lis r5,4660
    0x60A5_5678, // ori r5,r5,22136
    0x3C80_0400, // lis r4,1024
    0x90A4_0FFE, // stw r5,4094(r4)
    0x3C80_0402, // lis r4,1026
    0x90A4_0FFE, // stw r5,4094(r4)
    0x3C80_0403, // lis r4,1027
    0x90A4_0FFE, // stw r5,4094(r4)
    0x3C80_0404, // lis r4,1028
    0x90A4_0FFE, // stw r5,4094(r4)
    0x6009_8FFE, // ori r9,r0,36862
    0xA069_0000, // lhz r3,0(r9)
    0xA089_1000, // lhz r4,4096(r9)
    0xA0A9_2000, // lhz r5,8192(r9)
    0xA0C9_4000, // lhz r6,16384(r9)
    0x3820_2000, // li r1,8192
    0xBA01_0000, // lmw r16,0(r1)
    0x4800_0000, // b 168
];

/// Fetches from a page that may not be executed and a little-endian one, and what a user program may not do
/// with a page of the system.
pub const PERMISSIONS: [u32; 78] = [
    0x4800_0098, // b 98
    0x6000_0000, // nop
    0x6000_0000, // nop
    0x6000_0000, // nop
    0x7D5A_02A6, // mfsrr0 r10
    0x7D7E_0AA6, // mfesr r11
    0x915F_0000, // stw r10,0(r31)
    0x917F_0004, // stw r11,4(r31)
    0x3BFF_0008, // addi r31,r31,8
    0x7D48_02A6, // mflr r10
    0x7D5A_03A6, // mtsrr0 r10
    0x4C00_0064, // rfi
    0x7D5D_0AA6, // mfdear r10
    0x7D7E_0AA6, // mfesr r11
    0x915F_0000, // stw r10,0(r31)
    0x917F_0004, // stw r11,4(r31)
    0x3BFF_0008, // addi r31,r31,8
    0x7D5A_02A6, // mfsrr0 r10
    0x394A_0004, // addi r10,r10,4
    0x7D5A_03A6, // mtsrr0 r10
    0x4C00_0064, // rfi
    0x6000_0000, // nop
    0x6000_0000, // nop
    0x6000_0000, // nop
    0x3820_2000, // li r1,8192
    0xBA81_0000, // lmw r20,0(r1)
    0x4800_0000, // b 68
    0x3C60_1000, // lis r3,4096
    0x7C63_3378, // or r3,r3,r6
    0x7C70_9BA6, // mtspr 624,r3
    0x3C60_8000, // lis r3,-32768
    0x6063_0100, // ori r3,r3,256
    0x7C71_9BA6, // mtspr 625,r3
    0x7CF2_9BA6, // mtspr 626,r7
    0x7D13_9BA6, // mtspr 627,r8
    0x7C00_07A4, // tlbwe
    0x3CC6_0001, // addis r6,r6,1
    0x4E80_0020, // blr
    0x3860_0010, // li r3,16
    0x7C73_63A6, // mtivor3 r3
    0x3860_0030, // li r3,48
    0x7C72_63A6, // mtivor2 r3
    0x3860_0060, // li r3,96
    0x7C78_63A6, // mtivor8 r3
    0x3BE0_2000, // li r31,8192
    0x3CC0_0001, // lis r6,1
    0x3CE0_0401, // lis r7,1025
    0x6008_8005, // ori r8,r0,32773
    0x4BFF_FFAD, // bl 6c
    0x3CE0_0402, // lis r7,1026
    0x60E7_0001, // ori r7,r7,1
    0x6008_9015, // ori r8,r0,36885
    0x4BFF_FF9D, // bl 6c
    0x3CE0_0403, // lis r7,1027
    0x6008_A015, // ori r8,r0,40981
    0x4BFF_FF91, // bl 6c
    0x3CE0_1000, // lis r7,4096
    0x6008_003F, // ori r8,r0,63
    0x4BFF_FF85, // bl 6c
    0x3D20_0401, // lis r9,1025
    0x7D29_03A6, // mtctr r9
    0x4E80_0421, // bctrl
    0x3D20_0402, // lis r9,1026
    0x7D29_03A6, // mtctr r9
    0x4E80_0421, // bctrl
    0x3C60_1000, // lis r3,4096
    0x6063_011C, // ori r3,r3,284
    0x7C7A_03A6, // mtsrr0 r3
    0x3860_4000, // li r3,16384
    0x7C7B_03A6, // mtsrr1 r3
    0x4C00_0064, // rfi
    0x3D20_0403, // lis r9,1027
    0x7D29_03A6, // mtctr r9
    0x4E80_0421, // bctrl
    0x8069_0000, // lwz r3,0(r9)
    0x9069_0004, // stw r3,4(r9)
    0x4400_0002, // sc
    0x4800_0000, // b 134
];

/// A page that ends where the address space does, and a store across that end.
pub const WRAP: [u32; 20] = [
    0x3C60_1001, // lis r3,4097
    0x7C70_9BA6, // mtspr 624,r3
    0x3C60_8000, // lis r3,-32768
    0x6063_0100, // ori r3,r3,256
    0x7C71_9BA6, // mtspr 625,r3
    0x3C60_FFFF, // lis r3,-1
    0x6063_F000, // ori r3,r3,61440
    0x7C72_9BA6, // mtspr 626,r3
    0x6008_8015, // ori r8,r0,32789
    0x7D13_9BA6, // mtspr 627,r8
    0x7C00_07A4, // tlbwe
    0x3CA0_1234, // lis r5,4660
    0x60A5_5678, // ori r5,r5,22136
    0x90A0_FFFC, // stw r5,-4(0)
    0x90A0_FFFE, // stw r5,-2(0)
    0x8300_0000, // lwz r24,0(0)
    0x8320_FFFC, // lwz r25,-4(0)
    0x6009_8FFC, // ori r9,r0,36860
    0x8349_0000, // lwz r26,0(r9)
    0x4800_0000, // b 4c
];

/// A page of every process, then of one; a page of 16 GiB, which is dead; an invalidation of all that isn't
/// protected.
pub const PROCESSES: [u32; 45] = [
    0x4800_0024, // b 24
    0x6000_0000, // nop
    0x6000_0000, // nop
    0x6000_0000, // nop
    0x7F11_9AA6, // mfspr r24,625
    0x7F30_9AA6, // mfspr r25,624
    0x3940_0005, // li r10,5
    0x7D50_0BA6, // mtpid r10
    0x4C00_0064, // rfi
    0x3860_0010, // li r3,16
    0x7C7D_63A6, // mtivor13 r3
    0x3860_0100, // li r3,256
    0x7C74_9BA6, // mtspr 628,r3
    0x3860_0000, // li r3,0
    0x7C70_9BA6, // mtspr 624,r3
    0x3C60_8000, // lis r3,-32768
    0x7C71_9BA6, // mtspr 625,r3
    0x3C80_0400, // lis r4,1024
    0x7C92_9BA6, // mtspr 626,r4
    0x6008_8015, // ori r8,r0,32789
    0x7D13_9BA6, // mtspr 627,r8
    0x7C00_07A4, // tlbwe
    0x3860_0007, // li r3,7
    0x7C70_0BA6, // mtpid r3
    0x9064_0000, // stw r3,0(r4)
    0x3C60_0001, // lis r3,1
    0x6063_0002, // ori r3,r3,2
    0x7C70_9BA6, // mtspr 624,r3
    0x3C60_8005, // lis r3,-32763
    0x7C71_9BA6, // mtspr 625,r3
    0x7C00_07A4, // tlbwe
    0x8344_0000, // lwz r26,0(r4)
    0x3C60_1001, // lis r3,4097
    0x7C70_9BA6, // mtspr 624,r3
    0x3C60_8000, // lis r3,-32768
    0x6063_0C00, // ori r3,r3,3072
    0x7C71_9BA6, // mtspr 625,r3
    0x7C00_07A4, // tlbwe
    0x7C00_0764, // tlbre
    0x7F71_9AA6, // mfspr r27,625
    0x7F90_9AA6, // mfspr r28,624
    0x3860_000C, // li r3,12
    0x7C00_1E24, // tlbivax 0,r3
    0x3BA0_0001, // li r29,1
    0x4800_0000, // b b0
];

/// Sends 16 bytes again and again, from step 5 on each fourth step.
pub const FLOOD: [u32; 6] = [
    0x3D60_0001, // lis r11, 1
    0x616B_0001, // ori r11, r11, 1
    0x3860_0001, // li r3, 1
    0x3880_0010, // li r4, 16
    0x4400_0022, // sc 1
    0x4BFF_FFF4, // b .-12
];

/// A store across the edge of two regions, what lies on both sides of it, and the first word of the memory.
pub const SIDES: [u32; 7] = [
    0x3CA0_1234, // lis r5,4660
    0x60A5_5678, // ori r5,r5,22136
    0x90A0_0FFE, // stw r5,4094(0)
    0xA300_0FFE, // lhz r24,4094(0)
    0xA320_1000, // lhz r25,4096(0)
    0x8340_0FFE, // lwz r26,4094(0)
    0xA360_0000, // lhz r27,0(0)
];

/// A store across the end of a region behind which there is none, and its machine check.
pub const GAP: [u32; 12] = [
    0x3860_0020, // li r3,32
    0x7C71_63A6, // mtivor1 r3
    0x3860_1000, // li r3,4096
    0x7C60_0124, // mtmsr r3
    0x3CA0_1234, // lis r5,4660
    0x60A5_5678, // ori r5,r5,22136
    0x90A0_0FFE, // stw r5,4094(0)
    0x4800_0000, // b 1c
    0x7F1A_8AA6, // mfmcsrr0 r24
    0xA320_0FFE, // lhz r25,4094(0)
    0xA340_2000, // lhz r26,8192(0)
    0x7F7D_0AA6, // mfdear r27
];

/// A page of TLB1 whose logical address is 0x3_0000_1000, by MAS7, and a store into it.
pub const ABOVE: [u32; 17] = [
    0x3C60_1001, // lis r3,4097
    0x7C70_9BA6, // mtspr 624,r3
    0x3C60_8000, // lis r3,-32768
    0x6063_0100, // ori r3,r3,256
    0x7C71_9BA6, // mtspr 625,r3
    0x3D20_0400, // lis r9,1024
    0x7D32_9BA6, // mtspr 626,r9
    0x3860_1015, // li r3,4117
    0x7C73_9BA6, // mtspr 627,r3
    0x3860_0003, // li r3,3
    0x7C70_EBA6, // mtspr 944,r3
    0x7C00_07A4, // tlbwe
    0x3CA0_1234, // lis r5,4660
    0x60A5_5678, // ori r5,r5,22136
    0x90A9_0008, // stw r5,8(r9)
    0x8309_0008, // lwz r24,8(r9)
    0x8320_0008, // lwz r25,8(0)
];

/// A page of 16 KiB over two regions with a page between them that none has: stores into both, and one across the end of
/// the first.
pub const OVER: [u32; 29] = [
    0x4800_0024, // b 24
    0x6000_0000, // nop
    0x6000_0000, // nop
    0x6000_0000, // nop
    0x7F1A_8AA6, // mfmcsrr0 r24
    0x8329_1FFC, // lwz r25,8188(r9)
    0x90A9_3000, // stw r5,12288(r9)
    0x8349_3000, // lwz r26,12288(r9)
    0x4800_0000, // b 20
    0x3860_0010, // li r3,16
    0x7C71_63A6, // mtivor1 r3
    0x3C60_1001, // lis r3,4097
    0x7C70_9BA6, // mtspr 624,r3
    0x3C60_8000, // lis r3,-32768
    0x6063_0200, // ori r3,r3,512
    0x7C71_9BA6, // mtspr 625,r3
    0x3D20_0400, // lis r9,1024
    0x7D32_9BA6, // mtspr 626,r9
    0x3860_0015, // li r3,21
    0x7C73_9BA6, // mtspr 627,r3
    0x3860_0001, // li r3,1
    0x7C70_EBA6, // mtspr 944,r3
    0x7C00_07A4, // tlbwe
    0x3860_1000, // li r3,4096
    0x7C60_0124, // mtmsr r3
    0x3CA0_1234, // lis r5,4660
    0x60A5_5678, // ori r5,r5,22136
    0x90A9_1FFC, // stw r5,8188(r9)
    0x90A9_1FFE, // stw r5,8190(r9)
];

/// What `dcbz` clears in the last block of a region, and `stmw` and `lmw` across its end.
pub const EDGE: [u32; 16] = [
    0x3CA0_1234, // lis r5,4660
    0x60A5_5678, // ori r5,r5,22136
    0x3BC0_001E, // li r30,30
    0x3BE0_001F, // li r31,31
    0x90A0_1FBC, // stw r5,8124(0)
    0x90A0_1FC0, // stw r5,8128(0)
    0x90A0_1FFC, // stw r5,8188(0)
    0x90A0_2000, // stw r5,8192(0)
    0x38C0_1FE0, // li r6,8160
    0x7C00_37EC, // dcbz 0,r6
    0x8280_1FBC, // lwz r20,8124(0)
    0x82A0_1FC0, // lwz r21,8128(0)
    0x82C0_1FFC, // lwz r22,8188(0)
    0x82E0_2000, // lwz r23,8192(0)
    0xBFC0_1FFC, // stmw r30,8188(0)
    0xBB80_1FF8, // lmw r28,8184(0)
];

/// Unmasks interrupt 2, and asks which interrupt there is.
pub const BELL: [u32; 10] = [
    0x3D60_0001, // lis r11,1
    0x616B_0006, // ori r11,r11,6
    0x3860_0002, // li r3,2
    0x3880_0000, // li r4,0
    0x4400_0022, // sc 1
    0x3D60_0001, // lis r11,1
    0x616B_0009, // ori r11,r11,9
    0x4400_0022, // sc 1
    0x7C85_2378, // mr r5,r4
    0x4800_0000, // b 36
];

/// Unmasks interrupt 2, and waits for it with MSR[EE] clear.
pub const WAITS: [u32; 10] = [
    0x3D60_0001, // lis r11,1
    0x616B_0006, // ori r11,r11,6
    0x3860_0002, // li r3,2
    0x3880_0000, // li r4,0
    0x4400_0022, // sc 1
    0x3D60_0001, // lis r11,1
    0x616B_0010, // ori r11,r11,16
    0x4400_0022, // sc 1
    0x7F0C_42A6, // mftb r24
    0x4800_0000, // b 36
];

/// Unmasks interrupt 2, and waits for it with MSR[EE] set; its handler is at 64.
pub const WOKEN: [u32; 21] = [
    0x3860_0040, // li r3,64
    0x7C74_63A6, // mtivor4 r3
    0x7C00_8146, // wrteei 1
    0x3D60_0001, // lis r11,1
    0x616B_0006, // ori r11,r11,6
    0x3860_0002, // li r3,2
    0x3880_0000, // li r4,0
    0x4400_0022, // sc 1
    0x3D60_0001, // lis r11,1
    0x616B_0010, // ori r11,r11,16
    0x4400_0022, // sc 1
    0x3B20_0001, // li r25,1
    0x6000_0000, // nop
    0x6000_0000, // nop
    0x6000_0000, // nop
    0x6000_0000, // nop
    0x7F0C_42A6, // mftb r24
    0x7F5A_02A6, // mfsrr0 r26
    0x7F7B_02A6, // mfsrr1 r27
    0x7F80_00A6, // mfmsr r28
    0x4800_0000, // b 80
];

/// Holds an expired decrementer and the interrupt of room back, and lets both in; the handlers are at 192 and 128.
pub const BOTH: [u32; 51] = [
    0x3860_0080, // li r3,128
    0x7C74_63A6, // mtivor4 r3
    0x3860_00C0, // li r3,192
    0x7C7A_63A6, // mtivor10 r3
    0x3860_0001, // li r3,1
    0x7C76_0BA6, // mtdecar r3
    0x3C80_0440, // lis r4,1088
    0x7C94_53A6, // mttcr r4
    0x7C76_03A6, // mtdec r3
    0x3D60_0001, // lis r11,1
    0x616B_0006, // ori r11,r11,6
    0x3880_0000, // li r4,0
    0x4400_0022, // sc 1
    0x7C00_8146, // wrteei 1
    0x3BC0_0001, // li r30,1
    0x6000_0000, // nop
    0x6000_0000, // nop
    0x6000_0000, // nop
    0x6000_0000, // nop
    0x6000_0000, // nop
    0x6000_0000, // nop
    0x6000_0000, // nop
    0x6000_0000, // nop
    0x6000_0000, // nop
    0x6000_0000, // nop
    0x6000_0000, // nop
    0x6000_0000, // nop
    0x6000_0000, // nop
    0x6000_0000, // nop
    0x6000_0000, // nop
    0x6000_0000, // nop
    0x6000_0000, // nop
    0x7F1A_02A6, // mfsrr0 r24
    0x3D60_0001, // lis r11,1
    0x616B_0009, // ori r11,r11,9
    0x4400_0022, // sc 1
    0x7C99_2378, // mr r25,r4
    0x4C00_0064, // rfi
    0x6000_0000, // nop
    0x6000_0000, // nop
    0x6000_0000, // nop
    0x6000_0000, // nop
    0x6000_0000, // nop
    0x6000_0000, // nop
    0x6000_0000, // nop
    0x6000_0000, // nop
    0x6000_0000, // nop
    0x6000_0000, // nop
    0x7F5A_02A6, // mfsrr0 r26
    0x7F6C_42A6, // mftb r27
    0x4800_0000, // b 200
];

/// Reserves the block at 0x1040, and stores there where the reservation still holds, for good.
pub const STORES: [u32; 5] = [
    0x3860_1040, // li r3, 0x1040
    0x7C80_1828, // lwarx r4, 0, r3
    0x7CA0_192D, // stwcx. r5, 0, r3
    0x7CC0_0026, // mfcr r6
    0x4BFF_FFF0, // b .-16
];

/// Loads a private and a shared word, asks how channel 1 and interrupt 2 stand, changes all of that, and restarts itself.
/// It begins at 32, and its first word is its private one.
pub const SELF_RESTART: [u32; 39] = [
    0x1234_5678, // no instruction
    0x6000_0000, // nop
    0x6000_0000, // nop
    0x6000_0000, // nop
    0x6000_0000, // nop
    0x6000_0000, // nop
    0x6000_0000, // nop
    0x6000_0000, // nop
    0x8280_0000, // lwz r20,0(0)
    0x82A0_1000, // lwz r21,4096(0)
    0x7ECC_42A6, // mftb r22
    0x3860_0001, // li r3,1
    0x3D60_0001, // lis r11,1
    0x616B_0003, // ori r11,r11,3
    0x4400_0022, // sc 1
    0x7C97_2378, // mr r23,r4
    0x7CB8_2B78, // mr r24,r5
    0x3D60_0001, // lis r11,1
    0x616B_0007, // ori r11,r11,7
    0x3860_0002, // li r3,2
    0x4400_0022, // sc 1
    0x7C99_2378, // mr r25,r4
    0x38A0_0055, // li r5,85
    0x90A0_0000, // stw r5,0(0)
    0x90A0_1000, // stw r5,4096(0)
    0x3D60_0001, // lis r11,1
    0x616B_0006, // ori r11,r11,6
    0x3860_0002, // li r3,2
    0x3880_0000, // li r4,0
    0x4400_0022, // sc 1
    0x3D60_0001, // lis r11,1
    0x616B_0001, // ori r11,r11,1
    0x3860_0001, // li r3,1
    0x3880_0002, // li r4,2
    0x4400_0022, // sc 1
    0x3D60_0002, // lis r11,2
    0x616B_0004, // ori r11,r11,4
    0x3860_FFFF, // li r3,-1
    0x4400_0022, // sc 1
];

/// Asks whether interrupt 2 is masked, ends its service, unmasks it, and acknowledges one.
pub const SERVICE: [u32; 20] = [
    0x3D60_0001, // lis r11,1
    0x616B_0007, // ori r11,r11,7
    0x3860_0002, // li r3,2
    0x4400_0022, // sc 1
    0x7C94_2378, // mr r20,r4
    0x3D60_0001, // lis r11,1
    0x616B_000A, // ori r11,r11,10
    0x3860_0002, // li r3,2
    0x4400_0022, // sc 1
    0x7C75_1B78, // mr r21,r3
    0x3D60_0001, // lis r11,1
    0x616B_0006, // ori r11,r11,6
    0x3860_0002, // li r3,2
    0x3880_0000, // li r4,0
    0x4400_0022, // sc 1
    0x3D60_0001, // lis r11,1
    0x616B_0009, // ori r11,r11,9
    0x4400_0022, // sc 1
    0x7C96_2378, // mr r22,r4
    0x4800_0000, // b 4c
];

/// Stores where a reservation holds, and then reserves the block at 0x1040, again and again.
pub const RESERVED: [u32; 5] = [
    0x3860_1040, // li r3,0x1040
    0x7CA0_192D, // stwcx. r5,0,r3
    0x7CC0_0026, // mfcr r6
    0x7C80_1828, // lwarx r4,0,r3
    0x4BFF_FFF4, // b .-12
];

/// Sets the decrementer, and stores to its last word; what stands at 16 loads that word.
pub const STORED: [u32; 7] = [
    0x38A0_0055, // li r5,85
    0x7CB6_03A6, // mtdec r5
    0x90A0_0018, // stw r5,24(0)
    0x4800_0000, // b c
    0x8280_0018, // lwz r20,24(0)
    0x4800_0000, // b 14
    0x1234_5678, // no instruction
];
