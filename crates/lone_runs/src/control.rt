//! What came to `control` and to `worker` in `examples/control`.
//!
//! The cpus take turns, that of `control` first: what `control` does in its step K comes to `worker` behind `worker`'s step
//! K - 1, and what `worker` does in its step K comes to `control` behind `control`'s step K. `worker` is stopped before its step
//! 197 and started in `control`'s step 217, so from there on its steps are twenty fewer.

use crate::control_images::{CONTROL, WORKER};
use crate::lone::{Coming, Handle, Lone};
use crate::partitions::{P, START};
use crate::reports::CONTROL_REPORT;
use crate::rows::Row;
use machine_desc::Event::{self, *};

/// `control`, whose image is behind the headers of its file. Its copy brings the worker's note of the letters `a`, `b` and `c`,
/// the last one first.
fn control() -> Lone<'static> {
    Lone {
        name: "control",
        handles: &[
            Handle::Channel,
            Handle::Channel,
            Handle::Receive,
            Handle::Manage(false, &[0x1_0000]),
        ],
        image: &CONTROL[21..101],
        feed: b"cba\0",
        ..P
    }
}

/// `worker`, in the same way.
fn worker() -> Lone<'static> {
    Lone {
        name: "worker",
        handles: &[Handle::Channel, Handle::Send],
        image: &WORKER[21..86],
        ..P
    }
}

/// A letter is taken.
const TAKEN: Event = Room { h: 1, count: 1 };

/// The console takes a letter.
const PRINTED: Event = Room { h: 2, count: 1 };

/// The doorbell of `control` rings.
const RUNG: Event = Ring { h: 3 };

/// Four letters are typed before its first step.
const TYPED: Event = Bytes {
    h: 2,
    bytes: b"abcd",
};

/// The worker looks for a letter in each seventh step, takes `a`, `b` and `c` in its steps 21, 74 and 127 and `d` in its step 210,
/// and answers fifteen steps later by a letter, and then a ring.
static THREE_ANSWERS: [Coming; 15] = [
    (0, TYPED),
    (21, TAKEN),
    (36, Bytes { h: 1, bytes: b"A" }),
    (40, RUNG),
    (59, PRINTED),
    (74, TAKEN),
    (89, Bytes { h: 1, bytes: b"B" }),
    (93, RUNG),
    (112, PRINTED),
    (127, TAKEN),
    (211, Room { h: 2, count: 4 }),
    (230, TAKEN),
    (245, Bytes { h: 1, bytes: b"D" }),
    (249, RUNG),
    (268, PRINTED),
];

/// `control` sends the letters in its steps 19, 72, 125 and 230, and takes the answers in its steps 54, 107 and 263.
static FOUR_LETTERS: [Coming; 9] = [
    (18, Bytes { h: 1, bytes: b"a" }),
    (53, TAKEN),
    (71, Bytes { h: 1, bytes: b"b" }),
    (106, TAKEN),
    (124, Bytes { h: 1, bytes: b"c" }),
    (196, Stop),
    (196, START),
    (209, Bytes { h: 1, bytes: b"d" }),
    (242, TAKEN),
];

/// The worker answers `c` too, as late as it did the others.
static NO_GAP: [Coming; 12] = [
    (0, TYPED),
    (21, TAKEN),
    (36, Bytes { h: 1, bytes: b"A" }),
    (40, RUNG),
    (59, PRINTED),
    (74, TAKEN),
    (89, Bytes { h: 1, bytes: b"B" }),
    (93, RUNG),
    (112, PRINTED),
    (127, TAKEN),
    (142, Bytes { h: 1, bytes: b"C" }),
    (146, RUNG),
];

/// `control` prints an answer nineteen steps behind the ring, and asks again thirteen steps later.
const NO_GAP_LINES: &str = "control 19 sent 1 61
control 59 sent 2 41
control 72 sent 1 62
control 112 sent 2 42
control 125 sent 1 63
control 165 sent 2 43
control 178 sent 1 64
end control running 179
";

/// What came to both, and to `control` with a worker that doesn't hang.
pub fn rows() -> [Row<'static>; 3] {
    [
        (control(), &THREE_ANSWERS, 270, CONTROL_REPORT),
        (worker(), &FOUR_LETTERS, 250, CONTROL_REPORT),
        (control(), &NO_GAP, 179, NO_GAP_LINES),
    ]
}
