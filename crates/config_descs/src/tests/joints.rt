//! What joins the partitions.

use super::drafts::{configuration, keeps_limits};
use crate::wiring_of;
use machine_desc::{End, PortRef};
use std::test::Fail;

/// A handle: the partition's number with its own.
type At = (usize, u32);

/// The ends of a channel: a handle, and another one or the console of that number.
type Ends = (At, Result<At, usize>);

/// Those who ring a doorbell, and those who hear it.
type Heard = (&'static [At], &'static [At]);

/// The handle.
fn at_of(port: PortRef) -> At {
    (port.part, port.handle)
}

/// Whether these are the handles.
fn are_refs(refs: &[PortRef], all: &[At]) -> bool {
    refs.len() == all.len() && refs.iter().zip(all).all(|(port, at)| at_of(*port) == *at)
}

/// The handle or the console of that end.
fn end_of(end: End) -> Result<At, usize> {
    match end {
        End::Part(port) => Ok(at_of(port)),
        End::Console(number) => Err(number),
    }
}

const LINKS: [Ends; 3] = [((0, 5), Err(0)), ((0, 2), Ok((1, 4))), ((1, 2), Err(1))];

const BELLS: [Heard; 2] = [
    (&[(0, 1), (0, 7), (1, 3)], &[(0, 4), (1, 1)]),
    (&[], &[(2, 1)]),
];

const MANAGERS: [Option<At>; 3] = [None, Some((0, 6)), Some((0, 3))];

#[test]
fn partitions_are_wired(rt: HostRuntime) -> Result<(), Fail> {
    let config = configuration(rt.alloc())?;
    assert!(rt; keeps_limits(&config));
    let wiring = wiring_of(rt.alloc(), &config)?;
    assert_eq!(rt;
        wiring.sizes.as_slice(),
        [0x1_0000, 0x2_0000, 0x3_0000, 0x4_0000, 0x5_0000].as_slice()
    );
    assert_eq!(rt;
        wiring.reals.as_slice(),
        [
            0x1000_0000,
            0x2000_0000,
            0x3000_0000,
            0x3003_0000,
            0x0800_0000
        ]
        .as_slice()
    );
    let links = wiring.links.as_slice();
    assert_eq!(rt; links.len(), LINKS.len());
    for (link, (a, b)) in links.iter().zip(&LINKS) {
        assert!(rt;
            end_of(link.a) == Ok(*a) && end_of(link.b) == *b,
            "{:?}",
            *a
        );
    }
    let bells = wiring.bells.as_slice();
    assert_eq!(rt; bells.len(), BELLS.len());
    for (bell, (senders, receivers)) in bells.iter().zip(&BELLS) {
        assert!(rt; are_refs(bell.senders.as_slice(), senders));
        assert!(rt; are_refs(bell.receivers.as_slice(), receivers));
    }
    let managers = wiring.managers.as_slice();
    assert_eq!(rt; managers.len(), MANAGERS.len());
    for (manager, want) in managers.iter().zip(&MANAGERS) {
        assert_eq!(rt; manager.map(at_of), *want);
    }
    let consoles = wiring.consoles.as_slice();
    assert_eq!(rt; consoles.len(), 2);
    for (console, want) in consoles.iter().zip(["left", "right"]) {
        assert_eq!(rt; console.as_slice(), want.as_bytes());
    }
    Ok(())
}
