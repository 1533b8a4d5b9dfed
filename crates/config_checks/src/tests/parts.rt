//! Guest areas, cores and windows of partitions.

use crate::tests::drafts::{A, Area, B, BOTH, Draft, GUEST, Guest, P, Part, Q, is_right};
use std::test::Fail;

/// A page of real memory beside the two areas.
const PAGE: Area = ("x", 0x2_0000, 0x1000);

/// Guest areas of the first partition, the number of the rule that they break, and where.
const GUESTS: [(&[Guest], u8, &str); 11] = [
    (&[GUEST, ("n", "x", 0x1_0000)], 0, ""),
    (&[GUEST, ("n", "x", 0x1_0800)], 12, "/partitions/p/areas/n"),
    (&[GUEST, ("n", "x", 0xf_ffff_f000)], 0, ""),
    (
        &[GUEST, ("n", "x", 0x10_0000_0000)],
        12,
        "/partitions/p/areas/n",
    ),
    (
        &[GUEST, ("n", "b", 0xf_ffff_f000)],
        12,
        "/partitions/p/areas/n",
    ),
    (
        &[GUEST, ("n", "x", 0xffff_ffff_ffff_f000)],
        12,
        "/partitions/p/areas/n",
    ),
    (&[GUEST, ("n", "x", 0xf000)], 13, "/partitions/p/areas/n"),
    (&[("n", "x", 0xf000), GUEST], 13, "/partitions/p/areas/m"),
    (
        &[GUEST, ("n", "x", 0x3_0000), ("o", "b", 0x2_1000)],
        13,
        "/partitions/p/areas/o",
    ),
    (&[GUEST, ("n", "x", 0x3_0000), ("o", "b", 0x2_0000)], 0, ""),
    (
        &[GUEST, ("n", "x", 0x3_0000), ("o", "a", 0x2_0000)],
        14,
        "/partitions/p/areas/o",
    ),
];

#[test]
fn guest_areas_begin_at_pages_and_are_apart(rt: HostRuntime) -> Result<(), Fail> {
    for (guests, number, place) in &GUESTS {
        let part = Part {
            guests: *guests,
            ..P
        };
        let other = Part {
            tree: (0x2_0000, 0x1000),
            guests: &[("m", "b", 0), ("n", "y", 0x2_0000)],
            ..Q
        };
        let draft = Draft {
            areas: &[A, B, PAGE, ("y", 0x2_1000, 0x1000)],
            parts: &[part, other],
            ..BOTH
        };
        assert!(rt; is_right(rt.alloc(), &draft, *number, place)?, "{guests:?}");
    }
    Ok(())
}

/// The cpus of two partitions, the number of the rule that they break, and where.
const CORES: [(&[u32], &[u32], u8, &str); 9] = [
    (&[0], &[3], 0, ""),
    (&[], &[3], 15, "/partitions/p"),
    (&[0], &[3, 1], 15, "/partitions/q"),
    (&[0], &[1, 1], 15, "/partitions/q"),
    (&[4], &[3], 16, "/partitions/p"),
    (&[0], &[0xffff_ffff], 16, "/partitions/q"),
    (&[0], &[2], 16, "/partitions/q"),
    (&[2], &[2], 16, "/partitions/p"),
    (&[3], &[3], 17, "/partitions/q"),
];

#[test]
fn a_partition_has_one_usable_cpu_of_its_own(rt: HostRuntime) -> Result<(), Fail> {
    for (cpus, others, number, place) in &CORES {
        let part = Part { cpus: *cpus, ..P };
        let other = Part { cpus: *others, ..Q };
        let draft = Draft {
            parts: &[part, other],
            ..BOTH
        };
        assert!(rt;
            is_right(rt.alloc(), &draft, *number, place)?,
            "{cpus:?} {others:?}"
        );
    }
    Ok(())
}

/// Areas of 2 MiB, 2 MiB, 2 MiB and 64 KiB.
const LARGE: [Area; 4] = [
    ("a", 0, 0x20_0000),
    ("x", 0x20_0000, 0x20_0000),
    ("y", 0x40_0000, 0x20_0000),
    ("b", 0x60_0000, 0x1_0000),
];

/// Two private areas side by side, one over the end of what is mapped at the start, and a shared one.
const OWN: [Guest; 4] = [
    GUEST,
    ("x", "x", 0x20_0000),
    ("y", "y", 0x3f0_0000),
    ("b", "b", 0x100_0000),
];

/// Where the window of the first partition is, its size, and whether it may be there.
const WINDOWS: [(u64, u64, bool); 21] = [
    (0x8000, 0x1000, true),
    (0x8800, 0x1000, false),
    (0x8000, 0x1800, false),
    (0x8000, 0, false),
    (0, 0x1000, true),
    (0, 0x10_0000, true),
    (0, 0x10_1000, false),
    (0x1f_f000, 0x1000, true),
    (0x20_0000, 0x1000, true),
    (0x1f_f000, 0x2000, false),
    (0x3f_f000, 0x1000, true),
    (0x3f_f000, 0x2000, false),
    (0x40_0000, 0x1000, false),
    (0x3ef_f000, 0x2000, false),
    (0x3ff_f000, 0x1000, true),
    (0x3ff_f000, 0x2000, false),
    (0x400_0000, 0x1000, false),
    (0x100_0000, 0x1000, false),
    (0xff_f000, 0x2000, false),
    (0x1_0000_0000, 0x1000, false),
    (0xffff_ffff_ffff_f000, 0x2000, false),
];

#[test]
fn a_window_is_in_one_private_area_that_is_mapped_at_the_start(
    rt: HostRuntime,
) -> Result<(), Fail> {
    for (at, size, fits) in &WINDOWS {
        let part = Part {
            tree: (*at, *size),
            guests: &OWN,
            ..P
        };
        let other = Part {
            tree: (0x2_0000, 0x1000),
            guests: &[("m", "b", 0), ("n", "z", 0x2_0000)],
            ..Q
        };
        let draft = Draft {
            areas: &[
                LARGE[0],
                LARGE[1],
                LARGE[2],
                LARGE[3],
                ("z", 0x61_0000, 0x1000),
            ],
            parts: &[part, other],
            ..BOTH
        };
        let (number, place) = if *fits {
            (0, "")
        } else {
            (18, "/partitions/p")
        };
        assert!(rt; is_right(rt.alloc(), &draft, number, place)?, "{at} {size}");
    }
    Ok(())
}
