//! What no clause says of a control task beside a general system: what is written of `examples/control`.

use crate::run_tests::{short_bundle, writes};
use lone_runs::control_images::{CONTROL, WILD, WORKER};
use lone_runs::reports::CONTROL_REPORT;
use outside::Bytes;
use std::test::Fail;

/// `control` has a channel to `worker` and a console, hears a doorbell that `worker` rings, and manages `worker`; `wild` has
/// a console.
const CONFIG: &str = ".channels
..orders
..said console=log
..shouted console=noise
.doorbells
..answered
.partitions
..control cpus:0 image=a tree-at:0,8000 tree-size:0,4000
...areas
....memory area=a at:0,0
...handles
....worker kind=channel target=orders
....log kind=channel target=said
....bell kind=receive target=answered
....manage kind=manage target=worker
..worker cpus:1 image=b tree-at:0,8000 tree-size:0,4000
...areas
....memory area=b at:0,0
...handles
....orders kind=channel target=orders
....bell kind=send target=answered
..wild cpus:2 image=c tree-at:0,8000 tree-size:0,4000
...areas
....memory area=c at:0,0
...handles
....noise kind=channel target=shouted";

#[test]
fn a_worker_is_watched_and_begins_anew(rt: HostRuntime) -> Result<(), Fail> {
    let alloc = rt.alloc();
    let images = [CONTROL.as_slice(), &WORKER, &WILD];
    let list = short_bundle(
        alloc,
        CONFIG,
        images,
        Bytes::of(alloc, b"at 1 log 61626364\n")?,
    )?;
    assert!(rt; writes(alloc, "config", list, "810", CONTROL_REPORT)?);
    Ok(())
}
