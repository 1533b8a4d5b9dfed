//! Descriptions of partitions.

use super::drafts::{configuration, keeps_limits};
use crate::{desc_of, shares};
use machine_desc::{Port, Region, Span};
use std::test::Fail;

/// A range of addresses: the first, and how many.
type Range = (u64, u64);

/// A region: its logical address and size, its extent and the real address of that, and whether it is private.
type Whole = (u64, u32, u32, u64, bool);

/// What a handle stands for, in short.
#[derive(Clone, Copy)]
enum Stands {
    Channel(u8, u8),
    Send,
    Receive(u8),
    Manage(usize, bool, &'static [Range]),
}

/// What a partition is.
#[derive(Clone, Copy)]
struct Want {
    name: &'static str,
    regions: &'static [Whole],
    cores: &'static [u32],
    ports: &'static [Stands],
    tree: Range,
    held: bool,
    shares: bool,
}

/// The private ranges of the second partition: that of the later area ends where the other begins.
const OF_TWO: [Range; 2] = [(0x4_0000, 0x3_0000), (0, 0x4_0000)];

const OF_THREE: [Range; 1] = [(0x20_0000, 0x5_0000)];

const WANTED: [Want; 3] = [
    Want {
        name: "one",
        regions: &[
            (0, 0x1_0000, 0, 0x1000_0000, true),
            (0x10_0000, 0x2_0000, 1, 0x2000_0000, false),
        ],
        cores: &[3, 1],
        ports: &[
            Stands::Send,
            Stands::Channel(0, 1),
            Stands::Manage(2, false, &OF_THREE),
            Stands::Receive(2),
            Stands::Channel(3, 4),
            Stands::Manage(1, true, &OF_TWO),
            Stands::Send,
        ],
        tree: (0x8000, 0x1000),
        held: false,
        shares: true,
    },
    Want {
        name: "two",
        regions: &[
            (0x4_0000, 0x3_0000, 2, 0x3000_0000, true),
            (0x20_0000, 0x2_0000, 1, 0x2000_0000, false),
            (0, 0x4_0000, 3, 0x3003_0000, true),
        ],
        cores: &[0],
        ports: &[
            Stands::Receive(0),
            Stands::Channel(1, 2),
            Stands::Send,
            Stands::Channel(3, 4),
        ],
        tree: (0x4_8000, 0x2000),
        held: true,
        shares: true,
    },
    Want {
        name: "three",
        regions: &[(0x20_0000, 0x5_0000, 4, 0x0800_0000, true)],
        cores: &[2],
        ports: &[Stands::Receive(0)],
        tree: (0x20_0000, 0x4000),
        held: false,
        shares: false,
    },
];

/// Whether these are the regions.
fn are_regions(regions: &[Region], all: &[Whole]) -> bool {
    regions.len() == all.len()
        && regions.iter().zip(all).all(|(region, whole)| {
            (
                region.logical,
                region.size,
                region.extent,
                region.real,
                region.private,
            ) == *whole
        })
}

/// Whether these are the ranges.
fn are_spans(spans: &[Span], all: &[Range]) -> bool {
    spans.len() == all.len()
        && spans
            .iter()
            .zip(all)
            .all(|(span, range)| (span.at, span.size) == *range)
}

/// Whether the handle stands for that.
fn is_port(port: &Port, stands: Stands) -> bool {
    match (port, stands) {
        (Port::Channel { rx, tx }, Stands::Channel(first, second)) => {
            *rx == first && *tx == second
        }
        (Port::Send, Stands::Send) => true,
        (Port::Receive { irq }, Stands::Receive(number)) => *irq == number,
        (
            Port::Manage {
                part,
                held,
                private,
            },
            Stands::Manage(number, stopped, spans),
        ) => *part == number && *held == stopped && are_spans(private.as_slice(), spans),
        _ => false,
    }
}

/// Whether the handles stand for these.
fn are_ports(ports: &[Port], all: &[Stands]) -> bool {
    ports.len() == all.len()
        && ports
            .iter()
            .zip(all)
            .all(|(port, stands)| is_port(port, *stands))
}

#[test]
fn each_partition_is_described(rt: HostRuntime) -> Result<(), Fail> {
    let config = configuration(rt.alloc())?;
    assert!(rt; keeps_limits(&config));
    let parts = config.parts.as_slice();
    assert_eq!(rt; parts.len(), WANTED.len());
    for (part, want) in parts.iter().zip(&WANTED) {
        assert!(rt; part.handles.as_slice().len() <= 64);
        let desc = desc_of(rt.alloc(), &config, part)?;
        assert_eq!(rt; desc.name.as_slice(), want.name.as_bytes());
        assert!(rt;
            are_regions(desc.regions.as_slice(), want.regions),
            "{}",
            want.name
        );
        assert_eq!(rt; desc.cores.as_slice(), want.cores, "{}", want.name);
        assert!(rt;
            are_ports(desc.ports.as_slice(), want.ports),
            "{}",
            want.name
        );
        assert_eq!(rt; (desc.tree_at, desc.tree_size), want.tree, "{}", want.name);
        assert_eq!(rt;
            (desc.held, desc.entry, desc.pieces.as_slice().len()),
            (want.held, 0, 0),
            "{}",
            want.name
        );
        assert_eq!(rt; shares(&config, part), want.shares, "{}", want.name);
    }
    Ok(())
}
