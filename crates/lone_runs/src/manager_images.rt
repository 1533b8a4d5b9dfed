//! Images of managers, and of partitions that are managed.

/// Stops the partition of handle 2 in its fourth step.
pub const STOP: [u32; 5] = [
    0x3D60_0002, // lis r11,2
    0x616B_0007, // ori r11,r11,7
    0x3860_0002, // li r3,2
    0x4400_0022, // sc 1
    0x4800_0000, // b .
];

/// Restarts it in its fourth step.
pub const RESTART: [u32; 5] = [
    0x3D60_0002, // lis r11,2
    0x616B_0004, // ori r11,r11,4
    0x3860_0002, // li r3,2
    0x4400_0022, // sc 1
    0x4800_0000, // b .
];

/// Starts it at 0 in its sixth step, with its memory loaded anew.
pub const START: [u32; 7] = [
    0x3D60_0002, // lis r11,2
    0x616B_0006, // ori r11,r11,6
    0x3860_0002, // li r3,2
    0x3880_0000, // li r4,0
    0x38A0_0001, // li r5,1
    0x4400_0022, // sc 1
    0x4800_0000, // b .
];

/// Asks in its fourth and in its seventh step whether it runs, and sends both answers on handle 1 in its thirteenth.
pub const ASK: [u32; 14] = [
    0x3D60_0002, // lis r11,2
    0x616B_0005, // ori r11,r11,5
    0x3860_0002, // li r3,2
    0x4400_0022, // sc 1
    0x7C85_2378, // mr r5,r4
    0x3860_0002, // li r3,2
    0x4400_0022, // sc 1
    0x7C86_2378, // mr r6,r4
    0x3D60_0001, // lis r11,1
    0x616B_0001, // ori r11,r11,1
    0x3860_0001, // li r3,1
    0x3880_0008, // li r4,8
    0x4400_0022, // sc 1
    0x4800_0000, // b .
];

/// Stops it twice, and sends the second status on handle 1 in its twelfth step.
pub const TWICE: [u32; 13] = [
    0x3D60_0002, // lis r11,2
    0x616B_0007, // ori r11,r11,7
    0x3860_0002, // li r3,2
    0x4400_0022, // sc 1
    0x3860_0002, // li r3,2
    0x4400_0022, // sc 1
    0x7C65_1B78, // mr r5,r3
    0x3D60_0001, // lis r11,1
    0x616B_0001, // ori r11,r11,1
    0x3860_0001, // li r3,1
    0x3880_0004, // li r4,4
    0x4400_0022, // sc 1
    0x4800_0000, // b .
];

/// Stops itself in its sixth step.
pub const END: [u32; 6] = [
    0x6000_0000, // nop
    0x6000_0000, // nop
    0x3D60_0002, // lis r11,2
    0x616B_0007, // ori r11,r11,7
    0x3860_FFFF, // li r3,-1
    0x4400_0022, // sc 1
];

/// Restarts itself in each fourth step.
pub const AGAIN: [u32; 4] = [
    0x3D60_0002, // lis r11,2
    0x616B_0004, // ori r11,r11,4
    0x3860_FFFF, // li r3,-1
    0x4400_0022, // sc 1
];

/// Rings the doorbell of handle 2 in its fourth step, and restarts the partition of handle 3 in its eighth.
pub const DISTURB: [u32; 9] = [
    0x3D60_0001, // lis r11,1
    0x616B_000E, // ori r11,r11,14
    0x3860_0002, // li r3,2
    0x4400_0022, // sc 1
    0x3D60_0002, // lis r11,2
    0x616B_0004, // ori r11,r11,4
    0x3860_0003, // li r3,3
    0x4400_0022, // sc 1
    0x4800_0000, // b .
];

/// Sends four bytes on handle 1, polls it, starts the partition of handle 3 without loading it, polls again, and sends on
/// handle 2 how much room there was before and after.
pub const ROOM: [u32; 27] = [
    0x3D60_0001, // lis r11,1
    0x616B_0001, // ori r11,r11,1
    0x3860_0001, // li r3,1
    0x3880_0004, // li r4,4
    0x4400_0022, // sc 1
    0x616B_0003, // ori r11,r11,3
    0x3860_0001, // li r3,1
    0x4400_0022, // sc 1
    0x7CA9_2B78, // mr r9,r5
    0x3D60_0002, // lis r11,2
    0x616B_0006, // ori r11,r11,6
    0x3860_0003, // li r3,3
    0x3880_0000, // li r4,0
    0x38A0_0000, // li r5,0
    0x4400_0022, // sc 1
    0x3D60_0001, // lis r11,1
    0x616B_0003, // ori r11,r11,3
    0x3860_0001, // li r3,1
    0x4400_0022, // sc 1
    0x7CA6_2B78, // mr r6,r5
    0x7D25_4B78, // mr r5,r9
    0x3D60_0001, // lis r11,1
    0x616B_0001, // ori r11,r11,1
    0x3860_0002, // li r3,2
    0x3880_0008, // li r4,8
    0x4400_0022, // sc 1
    0x4800_0000, // b .
];

/// Does nothing four times, and stops the partition of handle 1 in its eighth step.
pub const LATE: [u32; 9] = [
    0x6000_0000, // nop
    0x6000_0000, // nop
    0x6000_0000, // nop
    0x6000_0000, // nop
    0x3D60_0002, // lis r11,2
    0x616B_0007, // ori r11,r11,7
    0x3860_0001, // li r3,1
    0x4400_0022, // sc 1
    0x4800_0000, // b .
];

/// Stops the partition of handle 1 in its fourth step.
pub const FIRST: [u32; 5] = [
    0x3D60_0002, // lis r11,2
    0x616B_0007, // ori r11,r11,7
    0x3860_0001, // li r3,1
    0x4400_0022, // sc 1
    0x4800_0000, // b .
];
