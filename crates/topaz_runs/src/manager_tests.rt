//! What no clause says of managers: what is written of runs in which partitions start, stop and restart.

use crate::run_tests::{order, short_bundle, writes};
use lone_runs::images::{HEAR, HELLO, UNBACKED};
use lone_runs::manager_images::{
    AGAIN, ASK, DISTURB, END, FIRST, LATE, RESTART, ROOM, START, STOP, TWICE,
};
use lone_runs::reports::{
    CHAINED, LATCH_LOST, RESTARTED, RESTARTS_ITSELF, ROOM_AGAIN, SEEN_FAULTED, SEEN_STOPPED,
    STARTED, STOPPED, STOPPED_TWICE,
};
use std::test::Fail;

/// `p` manages `q`; each has a console on handle 1.
const MANAGED: &str = ".channels
..x console=cp
..y console=cq
.partitions
..p cpus:0 image=a tree-at:0,8000 tree-size:0,4000
...areas
....m area=a at:0,0
...handles
....c kind=channel target=x
....w kind=manage target=q
..q cpus:1 image=b tree-at:0,8000 tree-size:0,4000
...areas
....m area=b at:0,0
...handles
....c kind=channel target=y";

/// The same, where `q` begins held.
const HELD: &str = ".channels
..x console=cp
..y console=cq
.partitions
..p cpus:0 image=a tree-at:0,8000 tree-size:0,4000
...areas
....m area=a at:0,0
...handles
....c kind=channel target=x
....w kind=manage target=q
..q cpus:1 image=b tree-at:0,8000 tree-size:0,4000 held
...areas
....m area=b at:0,0
...handles
....c kind=channel target=y";

/// `p` has a channel to `q`, a console on handle 2, and manages `q`, which begins held.
const SENT: &str = ".channels
..x
..y console=cp
.partitions
..p cpus:0 image=a tree-at:0,8000 tree-size:0,4000
...areas
....m area=a at:0,0
...handles
....c kind=channel target=x
....d kind=channel target=y
....w kind=manage target=q
..q cpus:1 image=b tree-at:0,8000 tree-size:0,4000 held
...areas
....m area=b at:0,0
...handles
....c kind=channel target=x";

/// `p` rings a doorbell that `q` hears, and manages `q`; each has a console on handle 1.
const RUNG: &str = ".channels
..x console=cp
..y console=cq
.doorbells
..d
.partitions
..p cpus:0 image=a tree-at:0,8000 tree-size:0,4000
...areas
....m area=a at:0,0
...handles
....c kind=channel target=x
....s kind=send target=d
....w kind=manage target=q
..q cpus:1 image=b tree-at:0,8000 tree-size:0,4000
...areas
....m area=b at:0,0
...handles
....c kind=channel target=y
....r kind=receive target=d";

/// `p` manages `q`, and `q` manages `r`.
const CHAIN: &str = ".partitions
..p cpus:0 image=a tree-at:0,8000 tree-size:0,4000
...areas
....m area=a at:0,0
...handles
....w kind=manage target=q
..q cpus:1 image=b tree-at:0,8000 tree-size:0,4000
...areas
....m area=b at:0,0
...handles
....w kind=manage target=r
..r cpus:2 image=c tree-at:0,8000 tree-size:0,4000
...areas
....m area=c at:0,0";

/// One turn a core, and so on.
const BOTH: &[(u8, usize)] = &[(b'0', 1), (b'1', 1)];

#[test]
fn managers_command_partitions(rt: HostRuntime) -> Result<(), Fail> {
    let alloc = rt.alloc();
    for (config, images, turns, total, text) in [
        (MANAGED, [STOP.as_slice(), &HELLO, &[]], BOTH, "12", STOPPED),
        // The count of its steps goes on.
        (MANAGED, [&RESTART, &HELLO, &[]], BOTH, "18", RESTARTED),
        (HELD, [&START, &HELLO, &[]], BOTH, "22", STARTED),
        // Its stop in the turn before the second question is known then.
        (MANAGED, [&ASK, &END, &[]], BOTH, "26", SEEN_STOPPED),
        // So is its fault, before the first.
        (MANAGED, [&ASK, &UNBACKED, &[]], BOTH, "26", SEEN_FAULTED),
        // A stop of a stopped partition is no act.
        (MANAGED, [&TWICE, &HELLO, &[]], BOTH, "24", STOPPED_TWICE),
        (
            MANAGED,
            [&STOP, &AGAIN, &[]],
            &[(b'1', 1)],
            "9",
            RESTARTS_ITSELF,
        ),
        // A latched doorbell doesn't outlive a restart.
        (
            RUNG,
            [&DISTURB, &HEAR, &[]],
            &[(b'0', 8), (b'1', 14)],
            "22",
            LATCH_LOST,
        ),
        // Bytes that were received and not taken are room again.
        (SENT, [&ROOM, &HELLO, &[]], &[(b'0', 1)], "26", ROOM_AGAIN),
        // a manager that is managed
        (
            CHAIN,
            [&LATE, &FIRST, &HELLO],
            &[(b'0', 1), (b'1', 1), (b'2', 1)],
            "24",
            CHAINED,
        ),
    ] {
        let list = short_bundle(alloc, config, images, order(alloc, turns)?)?;
        assert!(rt; writes(alloc, "config", list, total, text)?, "{text}");
    }
    Ok(())
}
