//! Names of nodes, and what names name.

use crate::tests::drafts::{
    A, B, BOTH, Draft, END, GUEST, Guest, Handle, JOINED, P, Part, Q, Row, is_right,
};
use hv_config::Kind;
use std::test::Fail;

/// The longest name.
const NAME: &str = "abcdefghijklmnopqrstuvwxyz01234";

/// One character more.
const LONG: &str = "abcdefghijklmnopqrstuvwxyz012345";

/// Names that are as long as they may be.
const LONGEST: Draft<'static> = Draft {
    areas: &[A, B, (NAME, 0x2_0000, 0x1000)],
    channels: &[(NAME, "c")],
    bells: &[NAME],
    parts: &[
        Part {
            name: NAME,
            guests: &[GUEST, (NAME, NAME, 0x1_0000)],
            handles: &[(NAME, Kind::Channel, NAME), ("s", Kind::Send, NAME)],
            ..P
        },
        Part {
            handles: &[("m", Kind::Manage, NAME)],
            ..Q
        },
    ],
    ..BOTH
};

const LISTS: [Row; 5] = [
    (LONGEST, 0, ""),
    (
        Draft {
            areas: &[A, B, (LONG, 0x2_0000, 0x1000)],
            ..BOTH
        },
        5,
        "/areas/abcdefghijklmnopqrstuvwxyz012345",
    ),
    (
        Draft {
            channels: &[("x", "c"), (LONG, "d")],
            ..BOTH
        },
        5,
        "/channels/abcdefghijklmnopqrstuvwxyz012345",
    ),
    (
        Draft {
            bells: &["d", LONG],
            ..BOTH
        },
        5,
        "/doorbells/abcdefghijklmnopqrstuvwxyz012345",
    ),
    (
        Draft {
            parts: &[P, Part { name: LONG, ..Q }],
            ..BOTH
        },
        5,
        "/partitions/abcdefghijklmnopqrstuvwxyz012345",
    ),
];

/// Guest areas and handles of the first partition, the number of the rule that they break, and where.
const INNER: [(&[Guest], &[Handle], u8, &str); 9] = [
    (
        &[GUEST],
        &[
            END,
            ("s", Kind::Send, "d"),
            ("r", Kind::Receive, "d"),
            ("m", Kind::Manage, "q"),
        ],
        0,
        "",
    ),
    (
        &[GUEST, (LONG, "b", 0x1_0000)],
        &[END],
        5,
        "/partitions/p/areas/abcdefghijklmnopqrstuvwxyz012345",
    ),
    (
        &[GUEST],
        &[(LONG, Kind::Channel, "x")],
        5,
        "/partitions/p/handles/abcdefghijklmnopqrstuvwxyz012345",
    ),
    (
        &[GUEST, ("n", "x", 0x1_0000)],
        &[END],
        5,
        "/partitions/p/areas/n",
    ),
    (
        &[GUEST],
        &[END, ("e", Kind::Channel, "d")],
        5,
        "/partitions/p/handles/e",
    ),
    (
        &[GUEST],
        &[END, ("s", Kind::Send, "x")],
        5,
        "/partitions/p/handles/s",
    ),
    (
        &[GUEST],
        &[END, ("r", Kind::Receive, "q")],
        5,
        "/partitions/p/handles/r",
    ),
    (
        &[GUEST],
        &[END, ("m", Kind::Manage, "a")],
        5,
        "/partitions/p/handles/m",
    ),
    (
        &[GUEST],
        &[END, ("m", Kind::Manage, "r")],
        5,
        "/partitions/p/handles/m",
    ),
];

#[test]
fn names_have_31_characters_at_most_and_name_something_of_their_kind(
    rt: HostRuntime,
) -> Result<(), Fail> {
    let alloc = rt.alloc();
    for (draft, number, place) in &LISTS {
        assert!(rt; is_right(alloc, draft, *number, place)?, "{place}");
    }
    for (guests, handles, number, place) in &INNER {
        let part = Part {
            guests: *guests,
            handles: *handles,
            ..P
        };
        let draft = Draft {
            parts: &[part, Q],
            ..JOINED
        };
        assert!(rt; is_right(alloc, &draft, *number, place)?, "{place}");
    }
    Ok(())
}

/// A partition's name, the number of the rule that it breaks, and where.
const WORDS: [(&str, u8, &str); 11] = [
    ("end", 5, "/partitions/end"),
    ("console", 5, "/partitions/console"),
    ("refused", 5, "/partitions/refused"),
    ("core", 5, "/partitions/core"),
    ("page", 5, "/partitions/page"),
    ("gen", 5, "/partitions/gen"),
    ("accepted", 5, "/partitions/accepted"),
    ("self", 5, "/partitions/self"),
    ("End", 0, ""),
    ("ends", 0, ""),
    ("sel", 0, ""),
];

#[test]
fn partitions_have_no_reserved_name_and_areas_may(rt: HostRuntime) -> Result<(), Fail> {
    let alloc = rt.alloc();
    for (name, number, place) in &WORDS {
        let part = Part { name: *name, ..Q };
        let draft = Draft {
            parts: &[P, part],
            ..BOTH
        };
        assert!(rt; is_right(alloc, &draft, *number, place)?, "{name}");
        let draft = Draft {
            areas: &[A, B, (*name, 0x2_0000, 0x1000)],
            ..BOTH
        };
        assert!(rt; is_right(alloc, &draft, 0, "")?, "area {name}");
    }
    Ok(())
}
