//! Areas of real memory.

use crate::tests::drafts::{A, Area, B, BOTH, Draft, is_right};
use std::test::Fail;

/// Areas, the number of the rule that they break, and where.
const CASES: [(&[Area], u8, &str); 23] = [
    (&[A, B, ("x", 0x2_0800, 0x1000)], 7, "/areas/x"),
    (&[A, B, ("x", 0x2_0000, 0x800)], 7, "/areas/x"),
    (&[A, B, ("x", 0x2_0000, 0)], 7, "/areas/x"),
    (&[A, B, ("x", 0x2_0000, 0x1000)], 0, ""),
    (&[A, B, ("x", 0xf_ffff_f000, 0x1000)], 0, ""),
    (&[A, B, ("x", 0xf_ffff_f000, 0x2000)], 8, "/areas/x"),
    (&[A, B, ("x", 0x10_0000_0000, 0x1000)], 8, "/areas/x"),
    (
        &[A, B, ("x", 0xffff_ffff_ffff_f000, 0xffff_ffff_ffff_f000)],
        8,
        "/areas/x",
    ),
    (&[A, B, ("x", 0x4fff_f000, 0x1000)], 0, ""),
    (&[A, B, ("x", 0x4fff_f000, 0x2000)], 9, "/areas/x"),
    (&[A, B, ("x", 0x5000_0000, 0x1000)], 9, "/areas/x"),
    (&[A, B, ("x", 0x4000_0000, 0x1000)], 0, ""),
    (&[A, B, ("x", 0x3fff_f000, 0x1000)], 0, ""),
    (&[A, B, ("x", 0x3fff_f000, 0x2000)], 9, "/areas/x"),
    (&[A, B, ("x", 0x1_f000, 0x1000)], 10, "/areas/x"),
    (&[A, B, ("x", 0x1_f000, 0x2000)], 10, "/areas/x"),
    (&[("x", 0x1_f000, 0x1000), A, B], 10, "/areas/b"),
    (&[A, B, ("x", 0, 0x3000_0000)], 10, "/areas/x"),
    (&[A, B, A], 10, "/areas/a"),
    (&[A, B, ("x", 0x2_0000, 0x3ffe_0000)], 0, ""),
    (
        &[
            A,
            B,
            ("x", 0x2_0000, 0x3ffe_0000),
            ("y", 0x4000_0000, 0x1000),
        ],
        11,
        "/areas",
    ),
    (
        &[
            A,
            B,
            ("x", 0x4000_0000, 0x1000_0000),
            ("y", 0x1_0000_0000, 0x1000),
        ],
        9,
        "/areas/y",
    ),
    (
        &[
            ("x", 0x2_0000, 0x3ffe_0000),
            ("y", 0x4000_0000, 0x1000_0000),
            B,
            A,
        ],
        11,
        "/areas",
    ),
];

#[test]
fn areas_are_whole_pages_of_memory_apart_and_of_1_gib_at_most(rt: HostRuntime) -> Result<(), Fail> {
    for (areas, number, place) in &CASES {
        let draft = Draft {
            areas: *areas,
            ..BOTH
        };
        assert!(rt;
            is_right(rt.alloc(), &draft, *number, place)?,
            "{number} {place}"
        );
    }
    Ok(())
}
