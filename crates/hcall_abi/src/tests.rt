//! Hypercalls by their registers.

use super::*;
use guest_regs::{Regs, boot};
use std::test::*;

/// Tokens and what they ask for, with those between and beside them.
const TOKENS: [(u32, Call); 30] = [
    (0x1_0000, Call::Unlisted),
    (0x1_0001, Call::Send),
    (0x1_0002, Call::Receive),
    (0x1_0003, Call::Poll),
    (0x1_0004, Call::SetConfig),
    (0x1_0005, Call::GetConfig),
    (0x1_0006, Call::SetMask),
    (0x1_0007, Call::GetMask),
    (0x1_0008, Call::Unlisted),
    (0x1_0009, Call::Iack),
    (0x1_000A, Call::Eoi),
    (0x1_000B, Call::Unlisted),
    (0x1_000C, Call::SetTaskPriority),
    (0x1_000D, Call::GetTaskPriority),
    (0x1_000E, Call::DoorbellSend),
    (0x1_000F, Call::Unlisted),
    (0x1_0010, Call::Idle),
    (0x1_0011, Call::Unlisted),
    (0x2_0002, Call::Unlisted),
    (0x2_0003, Call::Unlisted),
    (0x2_0004, Call::Restart),
    (0x2_0005, Call::GetStatus),
    (0x2_0006, Call::Start),
    (0x2_0007, Call::Stop),
    (0x2_0008, Call::Memcpy),
    (0x2_0009, Call::Unlisted),
    (0, Call::Unlisted),
    (1, Call::Unlisted),
    (0x3_0001, Call::Unlisted),
    (0xFFFF_FFFF, Call::Unlisted),
];

#[test]
fn tokens_ask_for_services(rt: HostRuntime) {
    for &(token, call) in TOKENS.iter() {
        let mut regs = boot(0, 0, 0);
        regs.set_gpr(11, token);
        assert_eq!(rt; Call::of(&regs), call);
    }
}

#[test]
fn statuses_have_their_numbers(rt: HostRuntime) {
    let numbers = [
        (Status::Success, 0),
        (Status::TryAgain, 4),
        (Status::Fault, 6),
        (Status::InvalidArgument, 8),
        (Status::InvalidState, 11),
        (Status::Unimplemented, 12),
    ];
    for &(status, number) in numbers.iter() {
        assert_eq!(rt; status.code(), number);
    }
    assert!(rt; is_own(0xFFFF_FFFF) && !is_own(0) && !is_own(0xFFFF_FFFE));
}

/// Registers of which each general one holds its own number and 0x100.
fn numbered() -> Regs {
    let mut regs = boot(0x40, 0, 0);
    for n in 0..32u8 {
        regs.set_gpr(n, n as u32 + 0x100);
    }
    regs
}

#[test]
fn replies_reach_their_registers_alone(rt: HostRuntime) {
    let replies = [
        (
            Reply::new(Status::InvalidState),
            [11, 0x104, 0x105, 0x106, 0x107, 0x108],
        ),
        (
            Reply::with(Status::TryAgain, &[9]),
            [4, 9, 0x105, 0x106, 0x107, 0x108],
        ),
        (
            Reply::with(Status::Success, &[5, 6, 7, 8, 9]),
            [0, 5, 6, 7, 8, 9],
        ),
    ];
    for (reply, expected) in replies {
        let mut regs = numbered();
        set_reply(&mut regs, &reply);
        for n in 0..32u8 {
            let value = if n < 3 || n > 8 {
                n as u32 + 0x100
            } else {
                expected[n as usize - 3]
            };
            assert_eq!(rt; regs.gpr(n), value);
        }
        assert_eq!(rt; regs.pc(), 0x40);
    }
}

#[test]
fn bytes_travel_in_four_registers(rt: HostRuntime) {
    let mut regs = numbered();
    regs.set_gpr(5, 0x4869_2C20);
    regs.set_gpr(8, 0x0102_03FF);
    assert!(rt; sent_bytes(&regs, 0).is_empty());
    assert_eq!(rt;
        sent_bytes(&regs, 3).as_slice(),
        [0x48, 0x69, 0x2C].as_slice()
    );
    assert_eq!(rt;
        sent_bytes(&regs, 16).as_slice(),
        [
            0x48, 0x69, 0x2C, 0x20, 0, 0, 1, 6, 0, 0, 1, 7, 1, 2, 3, 0xFF
        ]
        .as_slice()
    );
    assert_eq!(rt; words_of(&[]), [0, 0, 0, 0]);
    assert_eq!(rt;
        words_of(&[0x48, 0x69, 0x2C, 0x20, 0xFF]),
        [0x4869_2C20, 0xFF00_0000, 0, 0]
    );
    assert_eq!(rt;
        words_of(&[1, 2, 3, 4, 5, 6, 7, 8, 9, 10, 11, 12, 13, 14, 15, 16]),
        [0x0102_0304, 0x0506_0708, 0x090A_0B0C, 0x0D0E_0F10]
    );
}
