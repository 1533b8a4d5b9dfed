//! Guests that call the interrupt controller and channels, and what they are answered, worked out by hand.

use crate::turns::Seen::*;
use crate::turns::Turn;
use crate::turns::Turn::*;

const RECEIVE: u32 = 0x1_0002;

const POLL: u32 = 0x1_0003;

const SET_CONFIG: u32 = 0x1_0004;

const GET_CONFIG: u32 = 0x1_0005;

const SET_MASK: u32 = 0x1_0006;

const GET_MASK: u32 = 0x1_0007;

const IACK: u32 = 0x1_0009;

const EOI: u32 = 0x1_000A;

const SET_TASK_PRIORITY: u32 = 0x1_000C;

const GET_TASK_PRIORITY: u32 = 0x1_000D;

const DOORBELL_SEND: u32 = 0x1_000E;

/// The status of an argument that is out of its range.
const EINVAL: u32 = 8;

/// What iack answers where there is no interrupt.
const NONE: u32 = 0xFFFF;

const TWENTY: [u8; 20] = [
    0, 1, 2, 3, 4, 5, 6, 7, 8, 9, 10, 11, 12, 13, 14, 15, 16, 17, 18, 19,
];

static GUESTS: [&[Turn]; 10] = [
    // receipts of none, of all that wait, and where nothing waits
    &[
        Give(b"ABC"),
        Call(RECEIVE, [1, 0, 0, 0], 0, &[0, 0, 0, 0, 0]),
        See(Waits(3)),
        Call(RECEIVE, [1, 16, 0, 0], 0, &[3, 0x4142_4300, 0, 0, 0]),
        See(Waits(0)),
        Call(RECEIVE, [1, 16, 0, 0], 0, &[0, 0, 0, 0, 0]),
    ],
    // receipts of some, of as many as there can be and of one more, on a doorbell, and on no handle at all
    &[
        Give(&TWENTY),
        Call(RECEIVE, [1, 17, 0, 0], EINVAL, &[]),
        Call(RECEIVE, [2, 1, 0, 0], EINVAL, &[]),
        Call(RECEIVE, [0, 1, 0, 0], EINVAL, &[]),
        See(Waits(20)),
        Call(
            RECEIVE,
            [1, 5, 0, 0],
            0,
            &[5, 0x0001_0203, 0x0400_0000, 0, 0],
        ),
        See(Waits(15)),
    ],
    &[
        Give(&TWENTY),
        Call(
            RECEIVE,
            [1, 16, 0, 0],
            0,
            &[16, 0x0001_0203, 0x0405_0607, 0x0809_0A0B, 0x0C0D_0E0F],
        ),
        See(Waits(4)),
    ],
    // a poll tells what waits and what is taken
    &[
        Give(b"ABC"),
        Call(POLL, [1, 0, 0, 0], 0, &[3, 256]),
        Call(POLL, [2, 0, 0, 0], EINVAL, &[]),
        Call(POLL, [3, 0, 0, 0], EINVAL, &[]),
        Call(POLL, [4, 0, 0, 0], EINVAL, &[]),
    ],
    // what a controller begins with, what it takes, and what is out of range; there are the interrupts 0 to 2
    &[
        Call(GET_CONFIG, [2, 0, 0, 0], 0, &[0, 8, 0]),
        Call(GET_CONFIG, [3, 0, 0, 0], EINVAL, &[]),
        Call(GET_MASK, [2, 0, 0, 0], 0, &[1]),
        Call(GET_MASK, [3, 0, 0, 0], EINVAL, &[]),
        Call(GET_TASK_PRIORITY, [0, 9, 0, 0], 0, &[0]),
        Call(SET_CONFIG, [2, 3, 15, 0], 0, &[]),
        Call(SET_CONFIG, [2, 4, 9, 0], EINVAL, &[]),
        Call(SET_CONFIG, [2, 1, 16, 0], EINVAL, &[]),
        Call(SET_CONFIG, [2, 1, 9, 1], EINVAL, &[]),
        Call(SET_CONFIG, [3, 1, 9, 0], EINVAL, &[]),
        Call(GET_CONFIG, [2, 0, 0, 0], 0, &[3, 15, 0]),
        Call(SET_MASK, [2, 0, 0, 0], 0, &[]),
        Call(GET_MASK, [2, 0, 0, 0], 0, &[0]),
        Call(SET_MASK, [2, 7, 0, 0], 0, &[]),
        Call(GET_MASK, [2, 0, 0, 0], 0, &[1]),
        Call(SET_MASK, [3, 0, 0, 0], EINVAL, &[]),
        Call(SET_TASK_PRIORITY, [15, 0, 0, 0], 0, &[]),
        Call(SET_TASK_PRIORITY, [16, 0, 0, 0], EINVAL, &[]),
        Call(GET_TASK_PRIORITY, [0, 0, 0, 0], 0, &[15]),
        Call(EOI, [2, 0, 0, 0], EINVAL, &[]),
        Call(IACK, [99, 0, 0, 0], 0, &[NONE]),
    ],
    // received bytes and a doorbell of a higher priority; bytes that still wait are up again once their service has ended
    &[
        Give(b"A"),
        Ring,
        Call(SET_CONFIG, [0, 0, 5, 0], 0, &[]),
        Call(SET_CONFIG, [2, 0, 9, 0], 0, &[]),
        Call(SET_MASK, [0, 0, 0, 0], 0, &[]),
        Call(SET_MASK, [2, 0, 0, 0], 0, &[]),
        Call(IACK, [0, 0, 0, 0], 0, &[2]),
        Call(IACK, [0, 0, 0, 0], 0, &[NONE]),
        Call(EOI, [0, 0, 0, 0], EINVAL, &[]),
        Call(EOI, [2, 0, 0, 0], 0, &[]),
        Call(IACK, [0, 0, 0, 0], 0, &[0]),
        Call(IACK, [0, 0, 0, 0], 0, &[NONE]),
        Call(EOI, [0, 0, 0, 0], 0, &[]),
        Call(IACK, [0, 0, 0, 0], 0, &[0]),
    ],
    // the same with equal priorities: the lower number first, and the latch stays
    &[
        Give(b"A"),
        Ring,
        Call(SET_MASK, [0, 0, 0, 0], 0, &[]),
        Call(SET_MASK, [2, 0, 0, 0], 0, &[]),
        Call(IACK, [0, 0, 0, 0], 0, &[0]),
        Call(EOI, [0, 0, 0, 0], 0, &[]),
        Call(SET_MASK, [0, 1, 0, 0], 0, &[]),
        Call(IACK, [0, 0, 0, 0], 0, &[2]),
    ],
    // services in one another, which end out of order, and a ring in the service of its own interrupt
    &[
        Give(b"A"),
        Call(SET_CONFIG, [0, 0, 3, 0], 0, &[]),
        Call(SET_CONFIG, [1, 0, 7, 0], 0, &[]),
        Call(SET_CONFIG, [2, 0, 15, 0], 0, &[]),
        Call(SET_MASK, [0, 0, 0, 0], 0, &[]),
        Call(SET_MASK, [1, 0, 0, 0], 0, &[]),
        Call(SET_MASK, [2, 0, 0, 0], 0, &[]),
        Call(IACK, [0, 0, 0, 0], 0, &[1]),
        Call(IACK, [0, 0, 0, 0], 0, &[NONE]),
        Ring,
        Call(IACK, [0, 0, 0, 0], 0, &[2]),
        Ring,
        Call(IACK, [0, 0, 0, 0], 0, &[NONE]),
        Call(EOI, [1, 0, 0, 0], 0, &[]),
        Call(IACK, [0, 0, 0, 0], 0, &[NONE]),
        Call(EOI, [1, 0, 0, 0], EINVAL, &[]),
        Call(EOI, [2, 0, 0, 0], 0, &[]),
        Call(IACK, [0, 0, 0, 0], 0, &[2]),
        Call(EOI, [2, 0, 0, 0], 0, &[]),
        Call(IACK, [0, 0, 0, 0], 0, &[1]),
    ],
    // a task priority that holds all back, and one that doesn't
    &[
        Call(SET_MASK, [1, 0, 0, 0], 0, &[]),
        Call(SET_TASK_PRIORITY, [8, 0, 0, 0], 0, &[]),
        Call(IACK, [0, 0, 0, 0], 0, &[NONE]),
        Call(SET_TASK_PRIORITY, [7, 0, 0, 0], 0, &[]),
        Call(IACK, [0, 0, 0, 0], 0, &[1]),
    ],
    // a doorbell, and handles that aren't one to send on
    &[
        Send(2, 0, Some(2)),
        Send(1, EINVAL, None),
        Send(3, EINVAL, None),
        Send(0, EINVAL, None),
        Send(4, EINVAL, None),
    ],
];

/// What guests call for.
pub fn guests() -> &'static [&'static [Turn]] {
    &GUESTS
}
