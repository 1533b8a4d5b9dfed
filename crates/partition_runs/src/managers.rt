//! Managers and what they do to partitions, and what is done to a partition by its own manager, worked out by hand.

use crate::courses::{KEPT, LOST, STORE};
use crate::images::{RESERVED, SELF_RESTART, SERVICE, STORED, WAITS};
use crate::turns::Seen::*;
use crate::turns::Turn::*;
use crate::turns::{Command, Turn};
use core_step::Wrote;
use machine_desc::State;

const POLL: u32 = 0x1_0003;

const SET_MASK: u32 = 0x1_0006;

const IACK: u32 = 0x1_0009;

const RESTART: u32 = 0x2_0004;

const GET_STATUS: u32 = 0x2_0005;

const START: u32 = 0x2_0006;

const STOP: u32 = 0x2_0007;

/// The handle of the caller itself.
const SELF: u32 = 0xFFFF_FFFF;

/// The status of an argument that is out of its range.
const EINVAL: u32 = 8;

/// The status of a partition that is not in the state that the call wants.
const STATE: u32 = 11;

/// What iack answers where there is no interrupt.
const NONE: u32 = 0xFFFF;

/// A run of a manager: whether the partition of its handle 4 begins held, its entry, the words of its image, or none where
/// they are those of its turns' calls, and its turns. A call takes 11 steps and 44 bytes.
pub type Run = (bool, u32, &'static [u32], &'static [Turn]);

static MANAGERS: [Run; 18] = [
    // the status of a managed partition, of oneself, and of what is no partition
    (
        false,
        0,
        &[],
        &[
            Call(GET_STATUS, [4, 0, 0, 0], 0, &[1]),
            Told(false),
            Call(GET_STATUS, [4, 9, 0, 0], 0, &[0]),
            Told(true),
            Call(GET_STATUS, [4, 0, 0, 0], 0, &[1]),
            Call(GET_STATUS, [SELF, 0, 0, 0], 0, &[1]),
            Call(GET_STATUS, [1, 7, 0, 0], EINVAL, &[7]),
            Call(GET_STATUS, [2, 0, 0, 0], EINVAL, &[]),
            Call(GET_STATUS, [3, 0, 0, 0], EINVAL, &[]),
            Call(GET_STATUS, [5, 0, 0, 0], EINVAL, &[]),
            Call(GET_STATUS, [0, 0, 0, 0], EINVAL, &[]),
            Call(GET_STATUS, [0xFFFF_FFFE, 0, 0, 0], EINVAL, &[]),
        ],
    ),
    // one that begins held, and is started
    (
        true,
        0,
        &[],
        &[
            Call(GET_STATUS, [4, 0, 0, 0], 0, &[0]),
            Commands(START, [4, 0, 0, 0], 0, Command::Start(4, 0, false)),
            Call(GET_STATUS, [4, 0, 0, 0], 0, &[1]),
        ],
    ),
    // no start of one that runs, nor of oneself; its entry is looked at first
    (
        false,
        0,
        &[],
        &[
            Call(START, [4, 0, 1, 0], STATE, &[0, 1]),
            Call(START, [4, 2, 1, 0], EINVAL, &[2, 1]),
            Call(START, [4, 0x0400_0000, 0, 0], EINVAL, &[]),
            Call(START, [SELF, 0, 1, 0], STATE, &[]),
            Call(START, [SELF, 2, 1, 0], EINVAL, &[]),
            Call(START, [1, 0, 1, 0], EINVAL, &[]),
            Call(START, [5, 0, 1, 0], EINVAL, &[]),
        ],
    ),
    // entries of one that doesn't run
    (
        false,
        0,
        &[],
        &[
            Told(false),
            Call(START, [4, 2, 1, 0], EINVAL, &[]),
            Call(START, [4, 1, 1, 0], EINVAL, &[]),
            Call(START, [4, 0x0400_0000, 1, 0], EINVAL, &[]),
            Call(START, [4, 0xFFFF_FFFC, 1, 0], EINVAL, &[]),
            Call(START, [3, 0, 1, 0], EINVAL, &[]),
            Call(GET_STATUS, [4, 0, 0, 0], 0, &[0]),
            Commands(
                START,
                [4, 0x03FF_FFFC, 0, 0],
                0,
                Command::Start(4, 0x03FF_FFFC, false),
            ),
            Call(GET_STATUS, [4, 0, 0, 0], 0, &[1]),
            Call(START, [4, 0x03FF_FFFC, 0, 0], STATE, &[]),
        ],
    ),
    // its memory is loaded anew unless r5 is 0
    (
        true,
        0,
        &[],
        &[
            Commands(START, [4, 8, 1, 0], 0, Command::Start(4, 8, true)),
            Told(false),
            Commands(START, [4, 8, 0x8000_0000, 0], 0, Command::Start(4, 8, true)),
            Told(false),
            Commands(START, [4, 8, 0, 1], 0, Command::Start(4, 8, false)),
        ],
    ),
    // a stop of one that runs, and none of one that doesn't, nor of what is no partition
    (
        false,
        0,
        &[],
        &[
            Commands(STOP, [4, 0, 0, 0], 0, Command::Stop(4)),
            Call(GET_STATUS, [4, 0, 0, 0], 0, &[0]),
            Call(STOP, [4, 0, 0, 0], STATE, &[]),
            Call(STOP, [1, 0, 0, 0], EINVAL, &[]),
            Call(STOP, [0, 0, 0, 0], EINVAL, &[]),
            Call(STOP, [5, 0, 0, 0], EINVAL, &[]),
            Commands(START, [4, 0, 0, 0], 0, Command::Start(4, 0, false)),
            Commands(STOP, [4, 0, 0, 0], 0, Command::Stop(4)),
        ],
    ),
    // the same of restarts, behind which the partition runs
    (
        false,
        0,
        &[],
        &[
            Commands(RESTART, [4, 0, 0, 0], 0, Command::Restart(4)),
            Call(GET_STATUS, [4, 0, 0, 0], 0, &[1]),
            Told(false),
            Call(RESTART, [4, 0, 0, 0], STATE, &[]),
            Call(GET_STATUS, [4, 0, 0, 0], 0, &[0]),
            Call(RESTART, [2, 0, 0, 0], EINVAL, &[]),
            Call(RESTART, [0, 0, 0, 0], EINVAL, &[]),
            Call(RESTART, [5, 0, 0, 0], EINVAL, &[]),
        ],
    ),
    // one that stops itself stands behind its call, without a reply; its manager starts it there
    (
        false,
        0,
        &[],
        &[
            Commands(STOP, [SELF, 1, 2, 3], SELF, Command::SelfStop),
            See(Is(State::Stopped)),
            See(At(11, 44)),
            See(Registers(&[(4, 1), (5, 2), (6, 3)])),
            Started(44, false),
            See(Is(State::Running)),
            See(Fresh(11, 44)),
            Call(GET_STATUS, [SELF, 0, 0, 0], 0, &[1]),
        ],
    ),
    // One that restarts itself has its private memory as at first, the shared word that it stored, no received byte, the two
    // bytes outstanding that it sent, and all masked. It counts on from 31 steps, and its time begins again. A start that loads
    // keeps as much.
    (
        false,
        32,
        &SELF_RESTART,
        &[
            See(Fresh(0, 32)),
            Give(b"ABC"),
            Quiet(14),
            See(Registers(&[
                (20, 0x1234_5678),
                (21, 0),
                (22, 3),
                (23, 3),
                (24, 256),
                (25, 1),
            ])),
            Shares(
                3,
                &[Wrote {
                    extent: 1,
                    at: 0,
                    len: 4,
                }],
            ),
            Quiet(9),
            Gives(2, 0),
            Quiet(3),
            Does(Command::SelfRestart),
            See(Is(State::Running)),
            See(Fresh(31, 32)),
            See(Waits(0)),
            Quiet(14),
            See(Steps(45)),
            See(Registers(&[
                (20, 0x1234_5678),
                (21, 0x55),
                (22, 3),
                (23, 0),
                (24, 254),
                (25, 1),
            ])),
            Started(32, true),
            Quiet(14),
            See(Steps(59)),
            See(Registers(&[(21, 0x55), (24, 254)])),
        ],
    ),
    // A restart by the manager, in the service of interrupt 2, whose doorbell has rung again: it is masked again, and neither
    // in service nor latched.
    (
        false,
        0,
        &SERVICE,
        &[
            Ring,
            Quiet(19),
            See(Registers(&[(20, 1), (21, EINVAL), (22, 2)])),
            Ring,
            Restarted,
            See(Fresh(19, 0)),
            Quiet(19),
            See(Registers(&[(20, 1), (21, EINVAL), (22, NONE)])),
            See(Steps(38)),
        ],
    ),
    // a restart ends a reservation, which holds in the next round
    (
        false,
        0,
        &RESERVED,
        &[
            Quiet(4),
            See(Registers(&[(6, LOST)])),
            Restarted,
            See(Fresh(4, 0)),
            Quiet(3),
            See(Registers(&[(6, LOST)])),
            Quiet(2),
            Shares(2, &STORE),
            See(Registers(&[(6, KEPT)])),
        ],
    ),
    // a restart keeps what is known of the managed partition, and the first call comes again
    (
        false,
        0,
        &[],
        &[
            Call(GET_STATUS, [4, 0, 0, 0], 0, &[1]),
            Told(false),
            Restarted,
            See(Fresh(11, 0)),
            Call(GET_STATUS, [4, 0, 0, 0], 0, &[0]),
        ],
    ),
    // A restart ends a wait, and drops a ring and three bytes; then the core waits until a ring of step 11.
    (
        false,
        0,
        &WAITS,
        &[
            Give(b"ABC"),
            Quiet(8),
            See(Clocks(8, 0, true)),
            See(Waits(3)),
            Ring,
            Restarted,
            See(Fresh(8, 0)),
            See(Waits(0)),
            Quiet(10),
            See(Idle(true)),
            Ring,
            Quiet(1),
            See(Idle(false)),
            See(Registers(&[(24, 11)])),
            See(Steps(19)),
        ],
    ),
    // a start at another entry keeps what was stored, and one that loads doesn't
    (
        false,
        0,
        &STORED,
        &[
            Quiet(4),
            Stopped,
            See(Is(State::Stopped)),
            See(At(4, 12)),
            Started(16, false),
            See(Is(State::Running)),
            See(Fresh(4, 16)),
            Quiet(1),
            See(Registers(&[(20, 0x55)])),
            Stopped,
            Started(16, true),
            See(Fresh(5, 16)),
            Quiet(1),
            See(Registers(&[(20, 0x1234_5678)])),
        ],
    ),
    // a restart begins at the entry of the description, wherever it was started before
    (
        false,
        0,
        &STORED,
        &[
            Started(16, true),
            See(Fresh(0, 16)),
            Stopped,
            Restarted,
            See(Is(State::Running)),
            See(Fresh(0, 0)),
        ],
    ),
    // What happens to a stopped machine: its start drops what came and the ring, and knows of the partition that it manages.
    (
        false,
        0,
        &[],
        &[
            Stopped,
            Give(b"AB"),
            Ring,
            Told(false),
            Give(b"C"),
            See(Is(State::Stopped)),
            See(Waits(3)),
            Started(0, false),
            See(Fresh(0, 0)),
            See(Waits(0)),
            Call(GET_STATUS, [4, 0, 0, 0], 0, &[0]),
            Call(POLL, [1, 0, 0, 0], 0, &[0, 256]),
            Call(SET_MASK, [2, 0, 0, 0], 0, &[]),
            Call(IACK, [0, 0, 0, 0], 0, &[NONE]),
        ],
    ),
    // the same without a start: it still has all of it
    (
        false,
        0,
        &[],
        &[
            Call(SET_MASK, [2, 0, 0, 0], 0, &[]),
            Stopped,
            Give(b"ABC"),
            See(Is(State::Stopped)),
            See(Waits(3)),
            See(At(11, 44)),
        ],
    ),
    // a machine that met a machine check runs again: lis r3,1; lwz r4,0(r3)
    (
        false,
        0,
        &[0x3C60_0001, 0x8083_0000],
        &[
            Quiet(1),
            Faults,
            See(Is(State::Faulted)),
            Restarted,
            See(Is(State::Running)),
            See(Fresh(2, 0)),
            Quiet(1),
            Faults,
            See(Steps(4)),
        ],
    ),
];

/// Runs of managers, and of what their own managers do to them.
pub fn managers() -> &'static [Run] {
    &MANAGERS
}
