//! Which of two broken rules is told, and at which of two nodes.

use crate::tests::drafts::{A, B, BOTH, Draft, GUEST, JOINED, P, Part, Q, Row, is_right};
use hv_config::Kind;
use std::test::Fail;

/// A name of 32 characters.
const LONG: &str = "abcdefghijklmnopqrstuvwxyz012345";

/// A partition with a guest area and a handle that name nothing.
const BAD: Part<'static> = Part {
    guests: &[GUEST, ("n", "x", 0x1_0000)],
    handles: &[("h", Kind::Send, "y"), ("i", Kind::Send, "y")],
    ..P
};

/// Three lists with a name that is too long, and a partition with one that is reserved.
const LISTS: Draft<'static> = Draft {
    areas: &[A, B, (LONG, 0x2_0000, 0x1000)],
    channels: &[(LONG, "")],
    bells: &[LONG],
    parts: &[P, Part { name: "end", ..Q }],
    ..BOTH
};

/// The least number goes first.
const NUMBERS: [Row; 10] = [
    (
        Draft {
            areas: &[("a", 0, 0x1_0800), B],
            parts: &[
                P,
                Part {
                    handles: &[("h", Kind::Send, "y")],
                    ..Q
                },
            ],
            ..BOTH
        },
        5,
        "/partitions/q/handles/h",
    ),
    (
        Draft {
            areas: &[A, ("b", 0x10_0000_0000, 0x1000), ("x", 0, 0x800)],
            ..BOTH
        },
        7,
        "/areas/x",
    ),
    (
        Draft {
            areas: &[A, ("b", 0x8000_0000, 0x1000), ("x", 0x10_0000_0000, 0x1000)],
            ..BOTH
        },
        8,
        "/areas/x",
    ),
    (
        Draft {
            areas: &[A, ("b", 0x8000, 0x1_0000), ("x", 0x8000_0000, 0x1000)],
            ..BOTH
        },
        9,
        "/areas/x",
    ),
    (
        Draft {
            areas: &[A, B, ("x", 0, 0x4000_0000)],
            ..BOTH
        },
        10,
        "/areas/x",
    ),
    (
        Draft {
            parts: &[
                Part {
                    guests: &[GUEST, ("n", "b", 0x8000)],
                    ..P
                },
                Part {
                    guests: &[("m", "b", 0x800)],
                    ..Q
                },
            ],
            ..BOTH
        },
        12,
        "/partitions/q/areas/m",
    ),
    (
        Draft {
            parts: &[
                Part {
                    guests: &[GUEST, ("n", "a", 0x2_0000)],
                    ..P
                },
                Part {
                    guests: &[("m", "b", 0), ("n", "b", 0x8000)],
                    ..Q
                },
            ],
            ..BOTH
        },
        13,
        "/partitions/q/areas/n",
    ),
    (
        Draft {
            parts: &[
                Part {
                    tree: (0x8000, 0),
                    ..P
                },
                Part { cpus: &[0, 1], ..Q },
            ],
            ..BOTH
        },
        15,
        "/partitions/q",
    ),
    (
        Draft {
            channels: &[("x", "")],
            parts: &[P, Part { cpus: &[0], ..Q }],
            ..BOTH
        },
        17,
        "/partitions/q",
    ),
    (
        Draft {
            channels: &[("x", "A"), ("y", "")],
            parts: &[
                Part {
                    handles: &[("x", Kind::Channel, "x"), ("p", Kind::Manage, "p")],
                    ..P
                },
                Q,
            ],
            ..BOTH
        },
        19,
        "/channels/y",
    ),
];

/// Of one rule the first node in document order goes first, and names and counts look at all lists.
const NODES: [Row; 11] = [
    (LISTS, 5, "/areas/abcdefghijklmnopqrstuvwxyz012345"),
    (
        Draft {
            places: (3, 0, 1, 2),
            ..LISTS
        },
        5,
        "/channels/abcdefghijklmnopqrstuvwxyz012345",
    ),
    (
        Draft {
            places: (3, 2, 0, 1),
            ..LISTS
        },
        5,
        "/doorbells/abcdefghijklmnopqrstuvwxyz012345",
    ),
    (
        Draft {
            places: (1, 2, 3, 0),
            ..LISTS
        },
        5,
        "/partitions/end",
    ),
    (
        Draft {
            parts: &[BAD, Part { name: "end", ..Q }],
            ..JOINED
        },
        5,
        "/partitions/p/areas/n",
    ),
    (
        Draft {
            parts: &[
                Part {
                    places: (1, 0),
                    ..BAD
                },
                Q,
            ],
            ..JOINED
        },
        5,
        "/partitions/p/handles/h",
    ),
    (
        Draft {
            parts: &[P, Part { name: "end", ..BAD }],
            ..JOINED
        },
        5,
        "/partitions/end",
    ),
    (
        Draft {
            areas: &[("b", 0x800, 0x1000), ("a", 0, 0x800)],
            ..BOTH
        },
        7,
        "/areas/b",
    ),
    (
        Draft {
            parts: &[Part { tree: (0, 0), ..P }, Part { tree: (0, 0), ..Q }],
            ..BOTH
        },
        18,
        "/partitions/p",
    ),
    (
        Draft {
            channels: &[("y", ""), ("x", "")],
            ..BOTH
        },
        19,
        "/channels/y",
    ),
    (
        Draft {
            parts: &[
                Part {
                    handles: &[("h", Kind::Manage, "q"), ("i", Kind::Manage, "p")],
                    ..P
                },
                Part {
                    handles: &[("h", Kind::Manage, "q")],
                    ..Q
                },
            ],
            ..BOTH
        },
        21,
        "/partitions/p/handles/i",
    ),
];

#[test]
fn the_least_number_is_told(rt: HostRuntime) -> Result<(), Fail> {
    for (draft, number, place) in &NUMBERS {
        assert!(rt;
            is_right(rt.alloc(), draft, *number, place)?,
            "{number} {place}"
        );
    }
    Ok(())
}

#[test]
fn the_first_node_is_told(rt: HostRuntime) -> Result<(), Fail> {
    for (draft, number, place) in &NODES {
        assert!(rt;
            is_right(rt.alloc(), draft, *number, place)?,
            "{number} {place}"
        );
    }
    Ok(())
}
