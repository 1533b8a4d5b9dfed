//! Decisions by handle, entry and state.

use super::*;
use machine_desc::{Desc, Port};
use outside::{Bytes, Listed, NoMemory};
use std::alloc::Global;
use std::test::*;

/// It is done.
const GO: Decision = Decision::Go;

/// EINVAL, by the number that the caller finds.
const EINVAL: Decision = Decision::Refuse(8);

/// INVALID_STATE, by the number that the caller finds.
const STATE: Decision = Decision::Refuse(11);

/// A handle, an entry, and whether the partition runs; then the decisions on its start, stop, restart and status.
const ROWS: [(u32, u32, bool, [Decision; 4]); 24] = [
    // Handles: none, one of each kind, and none again.
    (0, 0, true, [EINVAL, EINVAL, EINVAL, EINVAL]),
    (0, 0, false, [EINVAL, EINVAL, EINVAL, EINVAL]),
    (1, 0, true, [STATE, GO, GO, GO]),
    (1, 0, false, [GO, STATE, STATE, GO]),
    (2, 0, true, [EINVAL, EINVAL, EINVAL, EINVAL]),
    (3, 0, true, [EINVAL, EINVAL, EINVAL, EINVAL]),
    (4, 0, true, [EINVAL, EINVAL, EINVAL, EINVAL]),
    (5, 0, true, [STATE, GO, GO, GO]),
    (5, 0, false, [GO, STATE, STATE, GO]),
    (6, 0, true, [EINVAL, EINVAL, EINVAL, EINVAL]),
    (6, 0, false, [EINVAL, EINVAL, EINVAL, EINVAL]),
    (0xFFFF_FFFE, 0, false, [EINVAL, EINVAL, EINVAL, EINVAL]),
    (0xFFFF_FFFF, 0, true, [STATE, GO, GO, GO]),
    (0xFFFF_FFFF, 0, false, [GO, STATE, STATE, GO]),
    // Entries of a partition that is stopped.
    (5, 2, false, [EINVAL, STATE, STATE, GO]),
    (5, 3, false, [EINVAL, STATE, STATE, GO]),
    (5, 0x03FF_FFFC, false, [GO, STATE, STATE, GO]),
    (5, 0x0400_0000, false, [EINVAL, STATE, STATE, GO]),
    (5, 0x0400_0004, false, [EINVAL, STATE, STATE, GO]),
    (5, 0xFFFF_FFFC, false, [EINVAL, STATE, STATE, GO]),
    // An argument comes before the state.
    (5, 2, true, [EINVAL, GO, GO, GO]),
    (5, 0x0400_0000, true, [EINVAL, GO, GO, GO]),
    (0xFFFF_FFFF, 3, true, [EINVAL, GO, GO, GO]),
    (2, 2, false, [EINVAL, EINVAL, EINVAL, EINVAL]),
];

/// A handle of a managed partition, of this number.
fn managed(alloc: Global, part: usize) -> Port {
    Port::Manage {
        part,
        held: true,
        private: Listed::new(alloc),
    }
}

/// A description whose handles are a managed partition, a channel, a doorbell of each kind, and a managed partition.
fn desc(alloc: Global) -> Result<Desc, NoMemory> {
    let mut ports = Listed::new(alloc);
    ports.push(managed(alloc, 1))?;
    ports.push(Port::Channel { rx: 0, tx: 1 })?;
    ports.push(Port::Send)?;
    ports.push(Port::Receive { irq: 2 })?;
    ports.push(managed(alloc, 2))?;
    Ok(Desc {
        name: Bytes::of(alloc, b"manager")?,
        regions: Listed::new(alloc),
        cores: Listed::from_vec(Vec::from_slice(alloc, &[0])?),
        ports,
        tree_at: 0,
        tree_size: 0x1000,
        entry: 0,
        held: false,
        pieces: Listed::new(alloc),
    })
}

#[test]
fn requests_are_decided(rt: HostRuntime) -> Result<(), Fail> {
    let desc = desc(rt.alloc())?;
    for &(handle, entry, running, wanted) in ROWS.iter() {
        let decided = [
            decide_start(&desc, handle, entry, running),
            decide_stop(&desc, handle, running),
            decide_restart(&desc, handle, running),
            decide_status(&desc, handle),
        ];
        assert_eq!(rt;
            decided,
            wanted,
            "handle {handle}, entry {entry}, running {running}"
        );
        let manages = handle == 1 || handle == 5;
        assert_eq!(rt;
            is_manage(desc.ports.as_slice(), handle),
            manages,
            "handle {handle}"
        );
    }
    Ok(())
}
