//! A configuration that is accepted, and others beside it that are refused.

use super::builder::{Change, Row, board, configuration};
use crate::{Accepted, accept};
use hv_config::{Fault, Rule};
use machine_desc::{Region, joined};
use outside::{Listed, NoMemory};
use std::alloc::Global;
use std::test::Fail;

/// Three partitions. The first manages the second, rings it and shares an area with it; the third is alone.
const THREE: [Row; 27] = [
    ("/", "areas", &[]),
    (
        "/areas",
        "a",
        &[
            ("base", b"\0\0\0\0\0\0\0\0"),
            ("size", b"\0\0\0\0\0\x01\0\0"),
        ],
    ),
    (
        "/areas",
        "b",
        &[
            ("base", b"\0\0\0\0\0\x02\0\0"),
            ("size", b"\0\0\0\0\0\x02\0\0"),
        ],
    ),
    (
        "/areas",
        "c",
        &[
            ("base", b"\0\0\0\0\0\x10\0\0"),
            ("size", b"\0\0\0\0\0\x03\0\0"),
        ],
    ),
    (
        "/areas",
        "s",
        &[
            ("base", b"\0\0\0\0\0\x20\0\0"),
            ("size", b"\0\0\0\0\0\0\x10\0"),
        ],
    ),
    ("/", "channels", &[]),
    ("/channels", "x", &[("console", b"left\0")]),
    ("/", "doorbells", &[]),
    ("/doorbells", "d", &[]),
    ("/", "partitions", &[]),
    (
        "/partitions",
        "p",
        &[
            ("cpus", b"\0\0\0\0"),
            ("image", b"hi\0"),
            ("tree-at", b"\0\0\0\0\0\0\x80\0"),
            ("tree-size", b"\0\0\0\0\0\0\x10\0"),
        ],
    ),
    ("/partitions/p", "areas", &[]),
    (
        "/partitions/p/areas",
        "m",
        &[("area", b"a\0"), ("at", b"\0\0\0\0\0\0\0\0")],
    ),
    (
        "/partitions/p/areas",
        "n",
        &[("area", b"s\0"), ("at", b"\0\0\0\0\0\x40\0\0")],
    ),
    ("/partitions/p", "handles", &[]),
    (
        "/partitions/p/handles",
        "c",
        &[("kind", b"channel\0"), ("target", b"x\0")],
    ),
    (
        "/partitions/p/handles",
        "s",
        &[("kind", b"send\0"), ("target", b"d\0")],
    ),
    (
        "/partitions/p/handles",
        "w",
        &[("kind", b"manage\0"), ("target", b"q\0")],
    ),
    (
        "/partitions",
        "q",
        &[
            ("cpus", b"\0\0\0\x01"),
            ("image", b"hi\0"),
            ("tree-at", b"\0\0\0\0\0\0\x80\0"),
            ("tree-size", b"\0\0\0\0\0\0\x10\0"),
            ("held", b""),
        ],
    ),
    ("/partitions/q", "areas", &[]),
    (
        "/partitions/q/areas",
        "m",
        &[("area", b"b\0"), ("at", b"\0\0\0\0\0\0\0\0")],
    ),
    (
        "/partitions/q/areas",
        "n",
        &[("area", b"s\0"), ("at", b"\0\0\0\0\0\x40\0\0")],
    ),
    ("/partitions/q", "handles", &[]),
    (
        "/partitions/q/handles",
        "r",
        &[("kind", b"receive\0"), ("target", b"d\0")],
    ),
    (
        "/partitions",
        "r",
        &[
            ("cpus", b"\0\0\0\x03"),
            ("image", b"hi\0"),
            ("tree-at", b"\0\0\0\0\0\0\x80\0"),
            ("tree-size", b"\0\0\0\0\0\0\x10\0"),
        ],
    ),
    ("/partitions/r", "areas", &[]),
    (
        "/partitions/r/areas",
        "m",
        &[("area", b"c\0"), ("at", b"\0\0\0\0\0\0\0\0")],
    ),
];

/// What each partition is, in short: its name, the real address of its first region, how many handles it has, whether
/// it begins stopped, and whether it shares an area.
const PARTS: [(&str, u64, usize, bool, bool); 3] = [
    ("p", 0, 3, false, true),
    ("q", 0x2_0000, 1, true, true),
    ("r", 0x10_0000, 0, false, false),
];

/// What is changed, the number of the rule that is broken by it, and where.
const REFUSED: [(Change, u8, &str); 2] = [
    (("/partitions/q", "cpus", b"\0\0\0\0"), 17, "/partitions/q"),
    (
        ("/partitions/p/handles/w", "target", b"s\0"),
        5,
        "/partitions/p/handles/w",
    ),
];

/// The configuration, accepted.
fn accepted(alloc: Global) -> Result<Accepted, Fail> {
    let config = configuration(alloc, &THREE, &[])?;
    Ok(accept(alloc, config, &board(alloc)?)?)
}

/// The regions, the first with that size.
fn resized(alloc: Global, regions: &[Region], size: u32) -> Result<Listed<Region>, NoMemory> {
    let mut made = Listed::new(alloc);
    for (i, region) in regions.iter().enumerate() {
        let size = if i == 0 { size } else { region.size };
        made.push(Region { size, ..*region })?;
    }
    Ok(made)
}

/// Whether the descriptions are joined with the wiring, where the third partition's region has that size.
fn are_joined(alloc: Global, accepted: &Accepted, size: u32) -> Result<bool, NoMemory> {
    let mut descs = Vec::new(alloc);
    for part in 0..accepted.config().parts.as_slice().len() {
        let mut desc = accepted.base(alloc, part)?;
        if part == 2 {
            desc.regions = resized(alloc, desc.regions.as_slice(), size)?;
        }
        descs.push(desc)?;
    }
    Ok(joined(descs.as_slice(), &accepted.wiring(alloc)?))
}

/// Whether the answer is that the rule of that number is broken at the place.
fn is_refused(answer: &Result<Accepted, Fault>, number: u8, place: &str) -> bool {
    match answer {
        Err(Fault::Broken { rule, at }) => {
            *rule
                == Rule {
                    letter: b'C',
                    number,
                }
                && at.as_slice() == place.as_bytes()
        }
        _ => false,
    }
}

#[test]
fn partitions_have_numbers_and_descriptions(rt: HostRuntime) -> Result<(), Fail> {
    let accepted = accepted(rt.alloc())?;
    for (i, (name, real, handles, held, shares)) in PARTS.iter().enumerate() {
        assert_eq!(rt; accepted.part_named(name.as_bytes()), Some(i));
        assert!(rt; i < accepted.config().parts.as_slice().len());
        let desc = accepted.base(rt.alloc(), i)?;
        assert_eq!(rt; desc.name.as_slice(), name.as_bytes());
        assert_eq!(rt;
            desc.regions.as_slice().first().map(|region| region.real),
            Some(*real)
        );
        assert_eq!(rt; desc.ports.as_slice().len(), *handles);
        assert_eq!(rt; (desc.held, accepted.shares(i)), (*held, *shares));
    }
    assert_eq!(rt; accepted.part_named(b""), None);
    assert_eq!(rt; accepted.part_named(b"pq"), None);
    Ok(())
}

#[test]
fn descriptions_and_wiring_are_joined(rt: HostRuntime) -> Result<(), Fail> {
    let accepted = accepted(rt.alloc())?;
    assert!(rt; are_joined(rt.alloc(), &accepted, 0x3_0000)?);
    assert!(rt; !are_joined(rt.alloc(), &accepted, 0x2_f000)?);
    Ok(())
}

#[test]
fn broken_rules_are_told(rt: HostRuntime) -> Result<(), Fail> {
    for (change, number, place) in REFUSED {
        let config = configuration(rt.alloc(), &THREE, &[change])?;
        let answer = accept(rt.alloc(), config, &board(rt.alloc())?);
        assert!(rt; is_refused(&answer, number, place), "{place}");
    }
    Ok(())
}
