//! The largest counts, and one more of each.

use crate::check;
use crate::tests::drafts::is_answer;
use hv_config::{
    AreaDef, BellDef, Board, ChannelDef, Config, Cpu, GuestAreaDef, HandleDef, Kind, PartDef, Range,
};
use outside::{Bytes, Listed, NoMemory};
use std::alloc::Global;
use std::test::Fail;

/// How many nodes each list has: the first partition has the guest areas and the handles.
#[derive(Clone, Copy)]
struct Counts {
    areas: u8,
    channels: u8,
    bells: u8,
    parts: u8,
    guests: u8,
    handles: u8,
    /// Where the lists of areas, channels, doorbells and partitions stand, and of the first partition those of guest
    /// areas and handles.
    places: (usize, usize, usize, usize, usize, usize),
}

const MOST: Counts = Counts {
    areas: 64,
    channels: 64,
    bells: 64,
    parts: 16,
    guests: 16,
    handles: 64,
    places: (0, 1, 2, 3, 0, 1),
};

/// The names `aa`, `ab` and so on.
fn name_of(alloc: Global, i: u8) -> Result<Bytes, NoMemory> {
    Bytes::of(alloc, &[b'a' + i / 16, b'a' + i % 16])
}

/// Areas of a page each, one behind the other.
fn areas_of(alloc: Global, count: u8) -> Result<Listed<AreaDef>, NoMemory> {
    let mut made = Vec::new(alloc);
    for i in 0..count {
        made.push(AreaDef {
            name: name_of(alloc, i)?,
            base: u64::from(i) * 0x1000,
            size: 0x1000,
        })?;
    }
    Ok(Listed::from_vec(made))
}

/// Channels, each with a console of its own.
fn channels_of(alloc: Global, count: u8) -> Result<Listed<ChannelDef>, NoMemory> {
    let mut made = Vec::new(alloc);
    for i in 0..count {
        let name = name_of(alloc, i)?;
        let console = Some(name_of(alloc, i)?);
        made.push(ChannelDef { name, console })?;
    }
    Ok(Listed::from_vec(made))
}

/// Doorbells.
fn bells_of(alloc: Global, count: u8) -> Result<Listed<BellDef>, NoMemory> {
    let mut made = Vec::new(alloc);
    for i in 0..count {
        let name = name_of(alloc, i)?;
        made.push(BellDef { name })?;
    }
    Ok(Listed::from_vec(made))
}

/// The areas from the first of these to before the last, one behind the other from 0 on.
fn guests_of(alloc: Global, from: u8, to: u8) -> Result<Listed<GuestAreaDef>, NoMemory> {
    let mut made = Vec::new(alloc);
    let mut at = 0u64;
    for i in from..to {
        let name = name_of(alloc, i)?;
        let area = name_of(alloc, i)?;
        made.push(GuestAreaDef { name, area, at })?;
        at = at.saturating_add(0x1000);
    }
    Ok(Listed::from_vec(made))
}

/// Ends of 64 channels, and what is more sends.
fn handles_of(alloc: Global, count: u8) -> Result<Listed<HandleDef>, NoMemory> {
    let mut made = Vec::new(alloc);
    for i in 0..count {
        let name = name_of(alloc, i)?;
        let target = name_of(alloc, i % 64)?;
        let kind = if i < 64 { Kind::Channel } else { Kind::Send };
        made.push(HandleDef { name, kind, target })?;
    }
    Ok(Listed::from_vec(made))
}

/// A partition with these lists.
fn part_of(
    alloc: Global,
    number: u8,
    guests: Listed<GuestAreaDef>,
    handles: Listed<HandleDef>,
    places: (usize, usize),
) -> Result<PartDef, NoMemory> {
    let cpus = Vec::from_slice(alloc, &[u32::from(number)])?;
    Ok(PartDef {
        name: name_of(alloc, number)?,
        cpus: Listed::from_vec(cpus),
        image: Bytes::of(alloc, b"hi")?,
        image_at: 0,
        tree_at: 0,
        tree_size: 0x1000,
        held: false,
        bootargs: None,
        areas_at: places.0,
        areas: guests,
        handles_at: places.1,
        handles,
    })
}

/// The partitions: the others have an area each behind those of the first.
fn parts_of(alloc: Global, counts: &Counts) -> Result<Listed<PartDef>, NoMemory> {
    let mut made = Vec::new(alloc);
    let places = (counts.places.4, counts.places.5);
    let guests = guests_of(alloc, 0, counts.guests)?;
    let handles = handles_of(alloc, counts.handles)?;
    made.push(part_of(alloc, 0, guests, handles, places)?)?;
    for i in 1..counts.parts.min(32) {
        let guests = guests_of(alloc, i + 16, i + 17)?;
        let handles = handles_of(alloc, 0)?;
        made.push(part_of(alloc, i, guests, handles, places)?)?;
    }
    Ok(Listed::from_vec(made))
}

/// The configuration.
fn config_of(alloc: Global, counts: &Counts) -> Result<Config, NoMemory> {
    Ok(Config {
        areas_at: counts.places.0,
        areas: areas_of(alloc, counts.areas)?,
        channels_at: counts.places.1,
        channels: channels_of(alloc, counts.channels)?,
        bells_at: counts.places.2,
        bells: bells_of(alloc, counts.bells)?,
        parts_at: counts.places.3,
        parts: parts_of(alloc, counts)?,
    })
}

/// 32 cpus, and a MiB.
fn board(alloc: Global) -> Result<Board, NoMemory> {
    let mut cpus = Vec::new(alloc);
    for number in 0..32 {
        cpus.push(Cpu {
            number,
            usable: true,
        })?;
    }
    let memory = Vec::from_slice(
        alloc,
        &[Range {
            at: 0,
            size: 0x10_0000,
        }],
    )?;
    Ok(Board {
        cpus: Listed::from_vec(cpus),
        memory: Listed::from_vec(memory),
    })
}

/// Counts, whether they are taken, and which list isn't.
const CASES: [(Counts, u8, &str); 11] = [
    (MOST, 0, ""),
    (Counts { areas: 65, ..MOST }, 6, "/areas"),
    (
        Counts {
            channels: 65,
            ..MOST
        },
        6,
        "/channels",
    ),
    (Counts { bells: 65, ..MOST }, 6, "/doorbells"),
    (Counts { parts: 17, ..MOST }, 6, "/partitions"),
    (Counts { guests: 17, ..MOST }, 6, "/partitions/aa/areas"),
    (
        Counts {
            handles: 65,
            ..MOST
        },
        6,
        "/partitions/aa/handles",
    ),
    (
        Counts {
            areas: 65,
            channels: 65,
            bells: 65,
            parts: 17,
            places: (3, 2, 0, 1, 0, 1),
            ..MOST
        },
        6,
        "/doorbells",
    ),
    (
        Counts {
            areas: 65,
            guests: 17,
            places: (1, 2, 3, 0, 0, 1),
            ..MOST
        },
        6,
        "/partitions/aa/areas",
    ),
    (
        Counts {
            guests: 17,
            handles: 65,
            places: (0, 1, 2, 3, 1, 0),
            ..MOST
        },
        6,
        "/partitions/aa/handles",
    ),
    (
        Counts {
            parts: 17,
            guests: 17,
            handles: 65,
            ..MOST
        },
        6,
        "/partitions",
    ),
];

#[test]
fn the_largest_counts_are_taken_and_one_more_is_refused(rt: HostRuntime) -> Result<(), Fail> {
    let alloc = rt.alloc();
    for (counts, number, place) in &CASES {
        let config = config_of(alloc, counts)?;
        let answer = check(alloc, &config, &board(alloc)?);
        assert!(rt; is_answer(&answer, *number, place), "{place}");
    }
    Ok(())
}
