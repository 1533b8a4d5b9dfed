//! Channels, consoles and managers.

use crate::tests::drafts::{BOTH, Channel, Draft, Handle, P, Part, Q, is_right};
use hv_config::Kind;
use std::test::Fail;

/// An end of the channel `x`, and a second handle for one.
const X: Handle = ("x", Kind::Channel, "x");

const X_AGAIN: Handle = ("x2", Kind::Channel, "x");

/// Handles of the doorbell, which bear the same name as the channel.
const SEND: Handle = ("s", Kind::Send, "x");

const RECEIVE: Handle = ("r", Kind::Receive, "x");

/// The console of the channel (none where empty), handles of two partitions, the number of the rule that they break,
/// and where.
const ENDS: [(&str, &[Handle], &[Handle], u8, &str); 13] = [
    ("", &[X], &[X], 0, ""),
    ("", &[], &[], 19, "/channels/x"),
    ("", &[X], &[], 19, "/channels/x"),
    ("", &[X, X_AGAIN], &[], 19, "/channels/x"),
    ("", &[], &[X, X_AGAIN], 19, "/channels/x"),
    ("", &[X, X_AGAIN], &[X], 19, "/channels/x"),
    ("", &[X, SEND], &[RECEIVE], 19, "/channels/x"),
    ("", &[X, SEND], &[RECEIVE, X], 0, ""),
    ("c", &[], &[], 19, "/channels/x"),
    ("c", &[X], &[], 0, ""),
    ("c", &[], &[X], 0, ""),
    ("c", &[X], &[X], 19, "/channels/x"),
    ("c", &[X, X_AGAIN], &[], 19, "/channels/x"),
];

#[test]
fn a_channel_has_two_ends_in_different_places(rt: HostRuntime) -> Result<(), Fail> {
    for (console, handles, others, number, place) in &ENDS {
        let part = Part {
            handles: *handles,
            ..P
        };
        let other = Part {
            handles: *others,
            ..Q
        };
        let draft = Draft {
            channels: &[("x", *console)],
            bells: &["x"],
            parts: &[part, other],
            ..BOTH
        };
        assert!(rt;
            is_right(rt.alloc(), &draft, *number, place)?,
            "{handles:?} {others:?}"
        );
    }
    Ok(())
}

/// The consoles of two channels, the number of the rule that they break, and where.
const CONSOLES: [(&str, &str, u8, &str); 13] = [
    ("az09_-", "c", 0, ""),
    ("abcdefghijklmnopqrstuvwxyz01234", "c", 0, ""),
    ("abcdefghijklmnopqrstuvwxyz012345", "c", 20, "/channels/x"),
    ("A", "c", 20, "/channels/x"),
    ("a`", "c", 20, "/channels/x"),
    ("a{", "c", 20, "/channels/x"),
    ("/0", "c", 20, "/channels/x"),
    ("0:", "c", 20, "/channels/x"),
    ("a.b", "c", 20, "/channels/x"),
    ("c", "d e", 20, "/channels/y"),
    ("c", "c", 20, "/channels/y"),
    ("c", "cc", 0, ""),
    ("self", "end", 0, ""),
];

#[test]
fn consoles_have_different_names_of_small_letters(rt: HostRuntime) -> Result<(), Fail> {
    for (console, other, number, place) in &CONSOLES {
        let channels: [Channel; 2] = [("x", *console), ("y", *other)];
        let part = Part {
            handles: &[X, ("y", Kind::Channel, "y")],
            ..P
        };
        let draft = Draft {
            channels: &channels,
            parts: &[part, Q],
            ..BOTH
        };
        assert!(rt;
            is_right(rt.alloc(), &draft, *number, place)?,
            "{console} {other}"
        );
    }
    Ok(())
}

/// Handles that manage the three partitions, by what they are named.
const TO_P: Handle = ("p", Kind::Manage, "p");

const TO_Q: Handle = ("q", Kind::Manage, "q");

const TO_Q_AGAIN: Handle = ("q2", Kind::Manage, "q");

const TO_R: Handle = ("r", Kind::Manage, "r");

/// Handles of the partitions p, q and r, the number of the rule that they break, and where.
const MANAGERS: [(&[Handle], &[Handle], &[Handle], u8, &str); 11] = [
    (&[TO_Q, TO_R], &[TO_P], &[], 0, ""),
    (&[TO_Q], &[TO_R], &[TO_P], 0, ""),
    (&[TO_P], &[], &[], 21, "/partitions/p/handles/p"),
    (&[TO_R], &[TO_P, TO_Q], &[], 21, "/partitions/q/handles/q"),
    (
        &[TO_Q, TO_Q_AGAIN],
        &[],
        &[],
        22,
        "/partitions/p/handles/q2",
    ),
    (&[TO_R], &[TO_P, TO_R], &[], 22, "/partitions/q/handles/r"),
    (&[TO_Q], &[TO_P], &[TO_Q], 22, "/partitions/r/handles/q"),
    (&[], &[TO_P], &[TO_Q, TO_P], 22, "/partitions/r/handles/p"),
    (
        &[TO_R],
        &[TO_R],
        &[TO_P, TO_P],
        22,
        "/partitions/q/handles/r",
    ),
    (&[("r", Kind::Send, "r")], &[TO_R], &[], 0, ""),
    (&[TO_R], &[("r", Kind::Send, "r")], &[], 0, ""),
];

#[test]
fn a_partition_has_one_manager_and_not_itself(rt: HostRuntime) -> Result<(), Fail> {
    for (first, second, third, number, place) in &MANAGERS {
        let p = Part {
            handles: *first,
            ..P
        };
        let q = Part {
            handles: *second,
            ..Q
        };
        let r = Part {
            name: "r",
            cpus: &[3],
            guests: &[("m", "c", 0)],
            handles: *third,
            ..P
        };
        let draft = Draft {
            areas: &[
                ("a", 0, 0x1_0000),
                ("b", 0x1_0000, 0x1_0000),
                ("c", 0x2_0000, 0x1_0000),
            ],
            bells: &["r"],
            parts: &[p, q, r],
            ..BOTH
        };
        assert!(rt;
            is_right(rt.alloc(), &draft, *number, place)?,
            "{first:?} {second:?} {third:?}"
        );
    }
    Ok(())
}
