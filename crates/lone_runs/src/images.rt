//! Images of the tests, each word with its instruction where the listing is not in `examples/`.

/// Seven words: send "Hi" on handle 1, then stay.
pub const HELLO: [u32; 7] = [
    0x3D60_0001,
    0x616B_0001,
    0x3860_0001,
    0x3880_0002,
    0x3CA0_4869,
    0x4400_0022,
    0x4800_0000,
];

/// Sends seventeen bytes, which is refused with status 8, and then the status.
pub const TOO_MANY: [u32; 10] = [
    0x3D60_0001,
    0x616B_0001,
    0x3860_0001,
    0x3880_0011,
    0x4400_0022,
    0x7C65_1B78,
    0x3860_0001,
    0x3880_0004,
    0x4400_0022,
    0x4800_0000,
];

/// Calls by a token that no service has, which is refused with status 12, and then sends the status.
pub const UNLISTED: [u32; 9] = [
    0x3D60_0002,
    0x4400_0022,
    0x7C65_1B78,
    0x3D60_0001,
    0x616B_0001,
    0x3860_0001,
    0x3880_0004,
    0x4400_0022,
    0x4800_0000,
];

/// Divides 7 by 0, and sends the quotient.
pub const DIVISION: [u32; 9] = [
    0x3D60_0001,
    0x616B_0001,
    0x3860_0001,
    0x3880_0004,
    0x38A0_0007,
    0x38C0_0000,
    0x7CA5_33D6,
    0x4400_0022,
    0x4800_0000,
];

/// Sends the time base, which it reads in its fifth step.
pub const CLOCK: [u32; 7] = [
    0x3D60_0001,
    0x616B_0001,
    0x3860_0001,
    0x3880_0004,
    0x7CAC_42E6,
    0x4400_0022,
    0x4800_0000,
];

/// Loads from behind the memory.
pub const UNBACKED: [u32; 2] = [0x3C60_0001, 0x8083_0000];

/// Asks how much the channel takes, and sends the answer.
pub const POLL: [u32; 10] = [
    0x3D60_0001, // lis r11,1
    0x616B_0003, // ori r11,r11,3
    0x3860_0001, // li r3,1
    0x4400_0022, // sc 1
    0x3D60_0001, // lis r11,1
    0x616B_0001, // ori r11,r11,1
    0x3860_0001, // li r3,1
    0x3880_0004, // li r4,4
    0x4400_0022, // sc 1
    0x4800_0000, // b .
];

/// Receives four bytes where none wait, and sends how many came and what r5 to r7 then hold.
pub const RECEIVE: [u32; 15] = [
    0x3D60_0001, // lis r11,1
    0x616B_0002, // ori r11,r11,2
    0x3860_0001, // li r3,1
    0x3880_0004, // li r4,4
    0x38A0_0055, // li r5,0x55
    0x4400_0022, // sc 1
    0x7CA6_2B78, // mr r6,r5
    0x7C87_2378, // mr r7,r4
    0x7C65_1B78, // mr r5,r3
    0x3D60_0001, // lis r11,1
    0x616B_0001, // ori r11,r11,1
    0x3860_0001, // li r3,1
    0x3880_000C, // li r4,12
    0x4400_0022, // sc 1
    0x4800_0000, // b .
];

/// Asks to copy memory where it manages no partition, and sends the status.
pub const COPY: [u32; 10] = [
    0x3D60_0002, // lis r11,2
    0x616B_0008, // ori r11,r11,8
    0x4400_0022, // sc 1
    0x7C65_1B78, // mr r5,r3
    0x3D60_0001, // lis r11,1
    0x616B_0001, // ori r11,r11,1
    0x3860_0001, // li r3,1
    0x3880_0004, // li r4,4
    0x4400_0022, // sc 1
    0x4800_0000, // b .
];

/// Has a user program try all that is privileged, and sends how often it was refused and which bits ESR had but that of
/// privilege.
pub const REFUSED: [u32; 63] = [
    0x4800_0060, // b 60
    0x6000_0000, // nop
    0x6000_0000, // nop
    0x6000_0000, // nop
    0x7D5E_0AA6, // mfesr r10
    0x3D60_0400, // lis r11,1024
    0x7D4A_5A78, // xor r10,r10,r11
    0x7FBD_5378, // or r29,r29,r10
    0x3BDE_0001, // addi r30,r30,1
    0x7D5A_02A6, // mfsrr0 r10
    0x394A_0004, // addi r10,r10,4
    0x7D5A_03A6, // mtsrr0 r10
    0x4C00_0064, // rfi
    0x6000_0000, // nop
    0x6000_0000, // nop
    0x6000_0000, // nop
    0x7FC5_F378, // mr r5,r30
    0x7FA6_EB78, // mr r6,r29
    0x3860_0001, // li r3,1
    0x3880_0008, // li r4,8
    0x3D60_0001, // lis r11,1
    0x616B_0001, // ori r11,r11,1
    0x4400_0022, // sc 1
    0x4800_0000, // b 5c
    0x3860_0010, // li r3,16
    0x7C76_63A6, // mtivor6 r3
    0x3860_0040, // li r3,64
    0x7C78_63A6, // mtivor8 r3
    0x3C60_1001, // lis r3,4097
    0x7C70_9BA6, // mtspr 624,r3
    0x3C60_8000, // lis r3,-32768
    0x6063_0100, // ori r3,r3,256
    0x7C71_9BA6, // mtspr 625,r3
    0x3C60_1000, // lis r3,4096
    0x7C72_9BA6, // mtspr 626,r3
    0x3860_003F, // li r3,63
    0x7C73_9BA6, // mtspr 627,r3
    0x7C00_07A4, // tlbwe
    0x3C60_1000, // lis r3,4096
    0x6063_00B0, // ori r3,r3,176
    0x7C7A_03A6, // mtsrr0 r3
    0x3860_4000, // li r3,16384
    0x7C7B_03A6, // mtsrr1 r3
    0x4C00_0064, // rfi
    0x4C00_0064, // rfi
    0x4C00_0066, // rfci
    0x4C00_004C, // rfmci
    0x7C60_00A6, // mfmsr r3
    0x7C60_0124, // mtmsr r3
    0x7C60_0106, // wrtee r3
    0x7C00_8146, // wrteei 1
    0x7C00_0024, // tlbilxlpid
    0x7C40_0024, // tlbilx 2,0,r0
    0x7C00_1E24, // tlbivax 0,r3
    0x7C00_1F24, // tlbsx 0,r3
    0x7C00_0764, // tlbre
    0x7C00_07A4, // tlbwe
    0x7C00_046C, // tlbsync
    0x7C00_1BAC, // dcbi 0,r3
    0x7C7A_02A6, // mfsrr0 r3
    0x7C7A_03A6, // mtsrr0 r3
    0x4400_0022, // sc 1
    0x4400_0002, // sc
];

/// Runs a user program in pages that are translated as they are missed, and sends "Hi" for it: examples/user.
pub const USER: [u32; 36] = [
    0x3860_0040, // li r3,64
    0x7C7D_63A6, // mtivor13 r3
    0x7C7E_63A6, // mtivor14 r3
    0x3860_0060, // li r3,96
    0x7C78_63A6, // mtivor8 r3
    0x3860_0100, // li r3,256
    0x7C74_9BA6, // mtspr 628,r3
    0x3860_0005, // li r3,5
    0x7C70_0BA6, // mtpid r3
    0x3C60_1000, // lis r3,4096
    0x6063_0074, // ori r3,r3,116
    0x7C7A_03A6, // mtsrr0 r3
    0x3860_4030, // li r3,16432
    0x7C7B_03A6, // mtsrr1 r3
    0x4C00_0064, // rfi
    0x6000_0000, // nop
    0x7D50_43A6, // mtsprg 0,r10
    0x7D52_9AA6, // mfspr r10,626
    0x554A_0426, // rlwinm r10,r10,0,16,19
    0x614A_003F, // ori r10,r10,63
    0x7D53_9BA6, // mtspr 627,r10
    0x7C00_07A4, // tlbwe
    0x7D50_42A6, // mfsprg r10,0
    0x4C00_0064, // rfi
    0x3D60_0001, // lis r11,1
    0x616B_0001, // ori r11,r11,1
    0x3860_0001, // li r3,1
    0x4400_0022, // sc 1
    0x4C00_0064, // rfi
    0x3CC0_2000, // lis r6,8192
    0x60C6_008C, // ori r6,r6,140
    0x80A6_0000, // lwz r5,0(r6)
    0x3880_0002, // li r4,2
    0x4400_0002, // sc
    0x4800_0000, // b 88
    0x4869_0000, // "Hi"
];

/// Sends sixteen bytes sixteen times on handle 1, and then one more. On handle 2 it sends the status and the count of the last
/// call, and then how many bytes handle 1 takes.
pub const FILL: [u32; 29] = [
    0x38A0_0000,
    0x38C0_0000,
    0x38E0_0000,
    0x3900_0000,
    0x3D60_0001,
    0x616B_0001,
    0x3A80_0010,
    0x7E89_03A6,
    0x3860_0001,
    0x3880_0010,
    0x4400_0022,
    0x4200_FFF4,
    0x3860_0001,
    0x3880_0001,
    0x4400_0022,
    0x7C65_1B78,
    0x7C86_2378,
    0x3860_0002,
    0x3880_0008,
    0x4400_0022,
    0x616B_0003,
    0x3860_0001,
    0x4400_0022,
    0x3D60_0001,
    0x616B_0001,
    0x3860_0002,
    0x3880_0004,
    0x4400_0022,
    0x4800_0000,
];

/// Takes five bytes from handle 1.
pub const TAKE: [u32; 6] = [
    0x3D60_0001,
    0x616B_0002,
    0x3860_0001,
    0x3880_0005,
    0x4400_0022,
    0x4800_0000,
];

/// Sends a byte on handle 2, and then goes on as `PASS` does.
pub const START: [u32; 22] = [
    0x3D60_0001,
    0x616B_0001,
    0x3860_0002,
    0x3880_0001,
    0x3CA0_4100,
    0x4400_0022,
    0x3D60_0001,
    0x616C_0002,
    0x7D8B_6378,
    0x3860_0001,
    0x3880_0001,
    0x4400_0022,
    0x3D60_0001,
    0x2804_0000,
    0x4182_FFE4,
    0x3CA5_0100,
    0x616B_0001,
    0x3860_0002,
    0x3880_0001,
    0x4400_0022,
    0x3D60_0001,
    0x4BFF_FFC8,
];

/// Takes a byte from handle 1, adds one, and sends it on handle 2, for ever.
pub const PASS: [u32; 16] = [
    0x3D60_0001,
    0x616C_0002,
    0x7D8B_6378,
    0x3860_0001,
    0x3880_0001,
    0x4400_0022,
    0x3D60_0001,
    0x2804_0000,
    0x4182_FFE4,
    0x3CA5_0100,
    0x616B_0001,
    0x3860_0002,
    0x3880_0001,
    0x4400_0022,
    0x3D60_0001,
    0x4BFF_FFC8,
];

/// Takes up to four bytes from handle 1, and sends them on it, for ever.
pub const ECHO: [u32; 14] = [
    0x3D60_0001,
    0x616C_0002,
    0x7D8B_6378,
    0x3860_0001,
    0x3880_0004,
    0x4400_0022,
    0x3D60_0001,
    0x2804_0000,
    0x4182_FFE4,
    0x616B_0001,
    0x3860_0001,
    0x4400_0022,
    0x3D60_0001,
    0x4BFF_FFD0,
];

/// Reserves 0x20040, stores there by condition, and sends the condition register on handle 1.
pub const HOLD: [u32; 11] = [
    0x3D20_0002,
    0x6129_0040,
    0x7D40_4828,
    0x7D40_492D,
    0x7CA0_0026,
    0x3D60_0001,
    0x616B_0001,
    0x3860_0001,
    0x3880_0004,
    0x4400_0022,
    0x4800_0000,
];

/// Looks at 0x50044 until it isn't zero, and sends it on handle 1.
pub const LOOK: [u32; 10] = [
    0x3D20_0005,
    0x80A9_0044,
    0x2805_0000,
    0x4182_FFF8,
    0x3D60_0001,
    0x616B_0001,
    0x3860_0001,
    0x3880_0004,
    0x4400_0022,
    0x4800_0000,
];

/// Rings the doorbell of handle 2.
pub const RING: [u32; 5] = [
    0x3D60_0001,
    0x616B_000E,
    0x3860_0002,
    0x4400_0022,
    0x4800_0000,
];

/// Unmasks interrupt 2, asks which one is chosen, and sends its number on handle 1.
pub const HEAR: [u32; 15] = [
    0x3D60_0001,
    0x616B_0006,
    0x3860_0002,
    0x3880_0000,
    0x4400_0022,
    0x3D60_0001,
    0x616B_0009,
    0x4400_0022,
    0x7C85_2378,
    0x3D60_0001,
    0x616B_0001,
    0x3860_0001,
    0x3880_0004,
    0x4400_0022,
    0x4800_0000,
];
