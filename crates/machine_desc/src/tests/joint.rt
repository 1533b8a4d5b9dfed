//! Joined descriptions, and those beside them that aren't.

use crate::tests::drafts::{Draft, Sort, desc_of, draft_of, region};
use crate::*;
use outside::{Bytes, Listed, NoMemory};
use std::alloc::Global;
use std::test::Fail;

/// In the tables an end or a handle is the partition's number with the handle's; consoles stand in this place.
const CONSOLE: usize = 9;

type At = (usize, u32);

/// What joins two partitions, in short: one bell at most, consoles by how many.
#[derive(Clone, Copy)]
struct Joint<'a> {
    sizes: &'a [u32],
    reals: &'a [u64],
    links: &'a [(At, At)],
    senders: &'a [At],
    receivers: &'a [At],
    managers: &'a [At],
    consoles: u32,
}

/// No links, bells, managers and consoles.
fn joint_of<'a>() -> Joint<'a> {
    Joint {
        sizes: &[0x1_0000, 0x1000, 0x2000],
        reals: &[0, 0x10_0000, 0x20_0000],
        links: &[],
        senders: &[],
        receivers: &[],
        managers: &[(0, 0), (0, 0)],
        consoles: 0,
    }
}

/// The handle.
fn ref_of(at: At) -> PortRef {
    PortRef {
        part: at.0,
        handle: at.1,
    }
}

/// The end.
fn end_of(at: At) -> End {
    if at.0 == CONSOLE {
        End::Console(at.1 as usize)
    } else {
        End::Part(ref_of(at))
    }
}

/// The handles.
fn refs_of(alloc: Global, all: &[At]) -> Result<Listed<PortRef>, NoMemory> {
    let mut made = Vec::new(alloc);
    for at in all {
        made.push(ref_of(*at))?;
    }
    Ok(Listed::from_vec(made))
}

/// The links.
fn links_of(alloc: Global, all: &[(At, At)]) -> Result<Listed<Link>, NoMemory> {
    let mut made = Vec::new(alloc);
    for (a, b) in all {
        made.push(Link {
            a: end_of(*a),
            b: end_of(*b),
        })?;
    }
    Ok(Listed::from_vec(made))
}

/// The managers; none where the handle is 0.
fn managers_of(alloc: Global, all: &[At]) -> Result<Listed<Option<PortRef>>, NoMemory> {
    let mut made = Vec::new(alloc);
    for at in all {
        made.push(if at.1 == 0 { None } else { Some(ref_of(*at)) })?;
    }
    Ok(Listed::from_vec(made))
}

/// The consoles.
fn consoles_of(alloc: Global, count: u32) -> Result<Listed<Bytes>, NoMemory> {
    let mut made = Vec::new(alloc);
    for _ in 0..count {
        made.push(Bytes::of(alloc, b"c")?)?;
    }
    Ok(Listed::from_vec(made))
}

/// The wiring.
fn wiring_of(alloc: Global, joint: &Joint) -> Result<Wiring, NoMemory> {
    let mut bells = Vec::new(alloc);
    bells.push(Bell {
        senders: refs_of(alloc, joint.senders)?,
        receivers: refs_of(alloc, joint.receivers)?,
    })?;
    Ok(Wiring {
        sizes: Listed::from_vec(Vec::from_slice(alloc, joint.sizes)?),
        reals: Listed::from_vec(Vec::from_slice(alloc, joint.reals)?),
        links: links_of(alloc, joint.links)?,
        bells: Listed::from_vec(bells),
        managers: managers_of(alloc, joint.managers)?,
        consoles: consoles_of(alloc, joint.consoles)?,
    })
}

/// Whether the two descriptions are joined.
fn are_joined(
    alloc: Global,
    first: &Draft,
    second: &Draft,
    joint: &Joint,
) -> Result<bool, NoMemory> {
    let mut descs = Vec::new(alloc);
    descs.push(desc_of(alloc, first)?)?;
    descs.push(desc_of(alloc, second)?)?;
    let wiring = wiring_of(alloc, joint)?;
    Ok(joined(descs.as_slice(), &wiring))
}

/// A private region, and one that the other has too.
fn first_regions() -> [Region; 2] {
    [
        region(0, 0x1_0000, 0, true),
        region(0x2_0000, 0x1000, 1, false),
    ]
}

/// The shared region elsewhere, and a private one.
fn second_regions() -> [Region; 2] {
    [region(0x7000, 0x1000, 1, false), region(0, 0x2000, 2, true)]
}

#[test]
fn regions_and_cores(rt: HostRuntime) -> Result<(), Fail> {
    let one = first_regions();
    for (shared, size, extent, private, real, first, second, want) in [
        (false, 0x2000, 2, true, 0x20_0000, (0, 1), (1, 2), true),
        (true, 0x2000, 2, true, 0x20_0000, (0, 1), (1, 2), false),
        (false, 0x2000, 2, false, 0x20_0000, (0, 1), (1, 2), false),
        (false, 0x1000, 2, true, 0x20_0000, (0, 1), (1, 2), false),
        (false, 0x2000, 2, true, 0x20_1000, (0, 1), (1, 2), false),
        (false, 0x2000, 3, true, 0x20_0000, (0, 1), (1, 2), false),
        (false, 0x2000, 2, true, 0x20_0000, (2, 4), (1, 2), true),
        (false, 0x2000, 2, true, 0x20_0000, (0, 2), (1, 2), false),
    ] {
        let private_one = region(0, size, extent, private);
        let other = [
            region(0x7000, 0x1000, 1, shared),
            Region {
                real,
                ..private_one
            },
        ];
        let first = Draft {
            cores: first,
            ..draft_of(&one)
        };
        let second = Draft {
            cores: second,
            ..draft_of(&other)
        };
        let found = are_joined(rt.alloc(), &first, &second, &joint_of())?;
        assert_eq!(rt;
            found,
            want,
            "{shared} {size:#x} {extent} {private} {real:#x}"
        );
    }
    Ok(())
}

#[test]
fn extents(rt: HostRuntime) -> Result<(), Fail> {
    let (one, other) = (first_regions(), second_regions());
    let second = Draft {
        cores: (1, 2),
        ..draft_of(&other)
    };
    for (size, real, want) in [
        // a GiB in all, and a byte more
        (0x3ffe_d000, 0x1000_0000, true),
        (0x3ffe_d001, 0x1000_0000, false),
        // beside the extent before, over its last byte, and empty within it
        (8, 0x20_2000, true),
        (8, 0x20_1fff, false),
        (0, 0x20_1000, true),
    ] {
        let joint = Joint {
            sizes: &[0x1_0000, 0x1000, 0x2000, size],
            reals: &[0, 0x10_0000, 0x20_0000, real],
            ..joint_of()
        };
        let found = are_joined(rt.alloc(), &draft_of(&one), &second, &joint)?;
        assert_eq!(rt; found, want, "{size:#x} {real:#x}");
    }
    let joint = Joint {
        sizes: &[0x1_0000, 0x1000, 0x2000, 1],
        ..joint_of()
    };
    assert!(rt; !are_joined(rt.alloc(), &draft_of(&one), &second, &joint)?);
    Ok(())
}

#[test]
fn links(rt: HostRuntime) -> Result<(), Fail> {
    let (one, other) = (first_regions(), second_regions());
    let ports = [Sort::Channel(0, 1), Sort::Channel(2, 3), Sort::Send];
    let first = Draft {
        ports: &ports,
        ..draft_of(&one)
    };
    let second = Draft {
        cores: (1, 2),
        ports: &[Sort::Channel(0, 1)],
        ..draft_of(&other)
    };
    let cases: [(&str, bool, u32, &[(At, At)]); 13] = [
        (
            "as told",
            true,
            1,
            &[((0, 1), (1, 1)), ((CONSOLE, 0), (0, 2))],
        ),
        (
            "a console unlinked",
            false,
            2,
            &[((0, 1), (1, 1)), ((CONSOLE, 0), (0, 2))],
        ),
        (
            "no such console",
            false,
            0,
            &[((0, 1), (1, 1)), ((CONSOLE, 0), (0, 2))],
        ),
        ("a handle unlinked", false, 0, &[((0, 1), (1, 1))]),
        (
            "a link twice",
            false,
            1,
            &[((0, 1), (1, 1)), ((1, 1), (0, 1)), ((CONSOLE, 0), (0, 2))],
        ),
        (
            "a handle twice",
            false,
            2,
            &[
                ((0, 1), (1, 1)),
                ((CONSOLE, 0), (0, 2)),
                ((CONSOLE, 1), (0, 2)),
            ],
        ),
        (
            "a console twice",
            false,
            2,
            &[
                ((CONSOLE, 0), (0, 1)),
                ((1, 1), (CONSOLE, 0)),
                ((CONSOLE, 1), (0, 2)),
            ],
        ),
        (
            "a console each",
            true,
            3,
            &[
                ((CONSOLE, 2), (0, 1)),
                ((1, 1), (CONSOLE, 0)),
                ((CONSOLE, 1), (0, 2)),
            ],
        ),
        (
            "no channel",
            false,
            2,
            &[
                ((0, 1), (1, 1)),
                ((CONSOLE, 0), (0, 2)),
                ((CONSOLE, 1), (0, 3)),
            ],
        ),
        (
            "handle 0",
            false,
            2,
            &[
                ((0, 1), (1, 1)),
                ((CONSOLE, 0), (0, 2)),
                ((CONSOLE, 1), (0, 0)),
            ],
        ),
        (
            "no such partition",
            false,
            2,
            &[
                ((0, 1), (1, 1)),
                ((CONSOLE, 0), (0, 2)),
                ((CONSOLE, 1), (2, 1)),
            ],
        ),
        (
            "one partition",
            false,
            1,
            &[((0, 1), (0, 2)), ((CONSOLE, 0), (1, 1))],
        ),
        (
            "two consoles",
            false,
            3,
            &[
                ((0, 1), (1, 1)),
                ((CONSOLE, 0), (0, 2)),
                ((CONSOLE, 1), (CONSOLE, 2)),
            ],
        ),
    ];
    for (what, want, consoles, links) in &cases {
        let joint = Joint {
            links: *links,
            senders: &[(0, 3)],
            consoles: *consoles,
            ..joint_of()
        };
        let found = are_joined(rt.alloc(), &first, &second, &joint)?;
        assert_eq!(rt; found, *want, "{what}");
    }
    Ok(())
}

#[test]
fn bells(rt: HostRuntime) -> Result<(), Fail> {
    let (one, other) = (first_regions(), second_regions());
    let first = Draft {
        ports: &[Sort::Send, Sort::Receive(0)],
        ..draft_of(&one)
    };
    let second = Draft {
        cores: (1, 2),
        ports: &[Sort::Receive(0)],
        ..draft_of(&other)
    };
    let cases: [(&str, bool, &[At], &[At]); 8] = [
        ("as told", true, &[(0, 1)], &[(1, 1), (0, 2)]),
        ("no sender", false, &[], &[(1, 1), (0, 2)]),
        (
            "a sender twice",
            false,
            &[(0, 1), (0, 1)],
            &[(1, 1), (0, 2)],
        ),
        (
            "a receiver twice",
            false,
            &[(0, 1)],
            &[(1, 1), (0, 2), (1, 1)],
        ),
        ("a receiver left out", false, &[(0, 1)], &[(1, 1)]),
        (
            "a receiver that sends",
            false,
            &[(0, 1)],
            &[(1, 1), (0, 2), (0, 1)],
        ),
        (
            "a sender that receives",
            false,
            &[(0, 1), (0, 2)],
            &[(1, 1), (0, 2)],
        ),
        (
            "no such handle",
            false,
            &[(0, 1), (1, 2)],
            &[(1, 1), (0, 2)],
        ),
    ];
    for (what, want, senders, receivers) in &cases {
        let joint = Joint {
            senders: *senders,
            receivers: *receivers,
            ..joint_of()
        };
        let found = are_joined(rt.alloc(), &first, &second, &joint)?;
        assert_eq!(rt; found, *want, "{what}");
    }
    Ok(())
}

#[test]
fn managers(rt: HostRuntime) -> Result<(), Fail> {
    let (one, other) = (first_regions(), second_regions());
    let held = [Sort::Manage(1, true)];
    let running = [Sort::Manage(1, false)];
    let itself = [Sort::Manage(0, false)];
    let two = [Sort::Manage(1, true), Sort::Manage(1, true)];
    let beyond = [Sort::Manage(2, true)];
    let cases: [(&str, bool, &[Sort], bool, u64, u64, &[At]); 13] = [
        ("as told", true, &held, true, 0, 0x2000, &[(0, 0), (0, 1)]),
        (
            "told and running",
            true,
            &running,
            false,
            0,
            0x2000,
            &[(0, 0), (0, 1)],
        ),
        (
            "told as held",
            false,
            &held,
            false,
            0,
            0x2000,
            &[(0, 0), (0, 1)],
        ),
        (
            "told as running",
            false,
            &running,
            true,
            0,
            0x2000,
            &[(0, 0), (0, 1)],
        ),
        (
            "the shared region",
            false,
            &held,
            true,
            0x7000,
            0x1000,
            &[(0, 0), (0, 1)],
        ),
        (
            "another size",
            false,
            &held,
            true,
            0,
            0x1000,
            &[(0, 0), (0, 1)],
        ),
        (
            "itself",
            false,
            &itself,
            true,
            0,
            0x1_0000,
            &[(0, 1), (0, 0)],
        ),
        (
            "two managers of one",
            false,
            &two,
            true,
            0,
            0x2000,
            &[(0, 0), (0, 1)],
        ),
        (
            "no such partition",
            false,
            &beyond,
            true,
            0,
            0x2000,
            &[(0, 0), (0, 1)],
        ),
        (
            "no manager named",
            false,
            &held,
            true,
            0,
            0x2000,
            &[(0, 0), (0, 0)],
        ),
        (
            "one too many named",
            false,
            &held,
            true,
            0,
            0x2000,
            &[(0, 1), (0, 1)],
        ),
        ("an entry too few", false, &held, true, 0, 0x2000, &[(0, 0)]),
        (
            "an entry too many",
            false,
            &held,
            true,
            0,
            0x2000,
            &[(0, 0), (0, 1), (0, 0)],
        ),
    ];
    for (what, want, ports, own, at, size, managers) in &cases {
        let spans = [Span {
            at: *at,
            size: *size,
        }];
        let first = Draft {
            ports: *ports,
            spans: &spans,
            ..draft_of(&one)
        };
        let second = Draft {
            cores: (1, 2),
            held: *own,
            ..draft_of(&other)
        };
        let joint = Joint {
            managers: *managers,
            ..joint_of()
        };
        let found = are_joined(rt.alloc(), &first, &second, &joint)?;
        assert_eq!(rt; found, *want, "{what}");
    }
    Ok(())
}

#[test]
fn partitions(rt: HostRuntime) -> Result<(), Fail> {
    let alloc = rt.alloc();
    for (count, want) in [(0, true), (16, true), (17, false)] {
        let managers = vec![in alloc; (0, 0); count as usize]?;
        let mut descs = Vec::new(alloc);
        for core in 0..count {
            let one = Draft {
                cores: (core, core + 1),
                ..draft_of(&[])
            };
            descs.push(desc_of(alloc, &one)?)?;
        }
        let joint = Joint {
            managers: managers.as_slice(),
            ..joint_of()
        };
        let wiring = wiring_of(alloc, &joint)?;
        assert_eq!(rt; joined(descs.as_slice(), &wiring), want, "{count}");
    }
    Ok(())
}
