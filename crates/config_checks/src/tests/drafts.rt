//! Configurations in short.

use crate::check;
use hv_config::{
    AreaDef, BellDef, Board, ChannelDef, Config, Cpu, Fault, GuestAreaDef, HandleDef, Kind,
    PartDef, Range, Rule,
};
use outside::{Bytes, Listed, NoMemory};
use std::alloc::Global;

/// An area's name, base and size.
pub type Area = (&'static str, u64, u64);

/// The name of a channel and that of its console; none where it is empty.
pub type Channel = (&'static str, &'static str);

/// A guest area's name, the area that it maps, and where.
pub type Guest = (&'static str, &'static str, u64);

/// A handle's name, its kind and its target.
pub type Handle = (&'static str, Kind, &'static str);

/// A partition in short.
#[derive(Clone, Copy)]
pub struct Part<'a> {
    pub name: &'a str,
    pub cpus: &'a [u32],
    /// Where the window for the device tree is, and its size.
    pub tree: (u64, u64),
    pub guests: &'a [Guest],
    pub handles: &'a [Handle],
    /// Where its lists of guest areas and of handles stand.
    pub places: (usize, usize),
}

/// A configuration in short.
#[derive(Clone, Copy)]
pub struct Draft<'a> {
    pub areas: &'a [Area],
    pub channels: &'a [Channel],
    pub bells: &'a [&'a str],
    pub parts: &'a [Part<'a>],
    /// Where its lists of areas, channels, doorbells and partitions stand.
    pub places: (usize, usize, usize, usize),
}

/// A draft, the number of the rule that it breaks (0 for none), and where.
pub type Row = (Draft<'static>, u8, &'static str);

/// Two areas of 64 KiB, one behind the other.
pub const A: Area = ("a", 0, 0x1_0000);

pub const B: Area = ("b", 0x1_0000, 0x1_0000);

/// The first area at 0.
pub const GUEST: Guest = ("m", "a", 0);

/// A partition in the first area.
pub const P: Part<'static> = Part {
    name: "p",
    cpus: &[0],
    tree: (0x8000, 0x1000),
    guests: &[GUEST],
    handles: &[],
    places: (0, 1),
};

/// A partition in the second area.
pub const Q: Part<'static> = Part {
    name: "q",
    cpus: &[1],
    guests: &[("m", "b", 0)],
    ..P
};

/// Two partitions that nothing joins.
pub const BOTH: Draft<'static> = Draft {
    areas: &[A, B],
    channels: &[],
    bells: &[],
    parts: &[P, Q],
    places: (0, 1, 2, 3),
};

/// A channel with a console, and a doorbell, beside the two.
pub const JOINED: Draft<'static> = Draft {
    channels: &[("x", "c")],
    bells: &["d"],
    ..BOTH
};

/// The end of the channel that isn't the console.
pub const END: Handle = ("c", Kind::Channel, "x");

/// Cpus 0, 1 and 3, and 2 that can't be used; 1 GiB and 256 MiB side by side, and the last page of all addresses.
pub fn board(alloc: Global) -> Result<Board, NoMemory> {
    let mut cpus = Vec::new(alloc);
    for (number, usable) in [(0, true), (1, true), (2, false), (3, true)] {
        cpus.push(Cpu { number, usable })?;
    }
    let mut memory = Vec::new(alloc);
    for (at, size) in [
        (0, 0x4000_0000),
        (0x4000_0000, 0x1000_0000),
        (0xf_ffff_f000, 0x1000),
    ] {
        memory.push(Range { at, size })?;
    }
    Ok(Board {
        cpus: Listed::from_vec(cpus),
        memory: Listed::from_vec(memory),
    })
}

/// The text's bytes.
fn text(alloc: Global, text: &str) -> Result<Bytes, NoMemory> {
    Bytes::of(alloc, text.as_bytes())
}

/// The areas.
fn areas_of(alloc: Global, areas: &[Area]) -> Result<Listed<AreaDef>, NoMemory> {
    let mut made = Vec::new(alloc);
    for (name, base, size) in areas {
        let name = text(alloc, name)?;
        made.push(AreaDef {
            name,
            base: *base,
            size: *size,
        })?;
    }
    Ok(Listed::from_vec(made))
}

/// The channels.
fn channels_of(alloc: Global, channels: &[Channel]) -> Result<Listed<ChannelDef>, NoMemory> {
    let mut made = Vec::new(alloc);
    for (name, console) in channels {
        let name = text(alloc, name)?;
        let console = if console.is_empty() {
            None
        } else {
            Some(text(alloc, console)?)
        };
        made.push(ChannelDef { name, console })?;
    }
    Ok(Listed::from_vec(made))
}

/// The doorbells.
fn bells_of(alloc: Global, bells: &[&str]) -> Result<Listed<BellDef>, NoMemory> {
    let mut made = Vec::new(alloc);
    for name in bells {
        let name = text(alloc, name)?;
        made.push(BellDef { name })?;
    }
    Ok(Listed::from_vec(made))
}

/// The guest areas.
fn guests_of(alloc: Global, guests: &[Guest]) -> Result<Listed<GuestAreaDef>, NoMemory> {
    let mut made = Vec::new(alloc);
    for (name, area, at) in guests {
        let name = text(alloc, name)?;
        let area = text(alloc, area)?;
        made.push(GuestAreaDef {
            name,
            area,
            at: *at,
        })?;
    }
    Ok(Listed::from_vec(made))
}

/// The handles.
fn handles_of(alloc: Global, handles: &[Handle]) -> Result<Listed<HandleDef>, NoMemory> {
    let mut made = Vec::new(alloc);
    for (name, kind, target) in handles {
        let name = text(alloc, name)?;
        let target = text(alloc, target)?;
        made.push(HandleDef {
            name,
            kind: *kind,
            target,
        })?;
    }
    Ok(Listed::from_vec(made))
}

/// The partition.
fn part_of(alloc: Global, part: &Part) -> Result<PartDef, NoMemory> {
    Ok(PartDef {
        name: text(alloc, part.name)?,
        cpus: Listed::from_vec(Vec::from_slice(alloc, part.cpus)?),
        image: text(alloc, "hi")?,
        image_at: 0,
        tree_at: part.tree.0,
        tree_size: part.tree.1,
        held: false,
        bootargs: None,
        areas_at: part.places.0,
        areas: guests_of(alloc, part.guests)?,
        handles_at: part.places.1,
        handles: handles_of(alloc, part.handles)?,
    })
}

/// The configuration.
pub fn config_of(alloc: Global, draft: &Draft) -> Result<Config, NoMemory> {
    let mut parts = Vec::new(alloc);
    for part in draft.parts {
        parts.push(part_of(alloc, part)?)?;
    }
    Ok(Config {
        areas_at: draft.places.0,
        areas: areas_of(alloc, draft.areas)?,
        channels_at: draft.places.1,
        channels: channels_of(alloc, draft.channels)?,
        bells_at: draft.places.2,
        bells: bells_of(alloc, draft.bells)?,
        parts_at: draft.places.3,
        parts: Listed::from_vec(parts),
    })
}

/// Whether the answer is that the rule of that number is broken at the place, or for 0 that none is.
pub fn is_answer(answer: &Result<(), Fault>, number: u8, place: &str) -> bool {
    match answer {
        Ok(()) => number == 0,
        Err(Fault::Broken { rule, at }) => {
            *rule
                == Rule {
                    letter: b'C',
                    number,
                }
                && at.as_slice() == place.as_bytes()
        }
        Err(Fault::NoMemory) => false,
    }
}

/// Whether the configuration has the answer.
pub fn is_right(alloc: Global, draft: &Draft, number: u8, place: &str) -> Result<bool, NoMemory> {
    let config = config_of(alloc, draft)?;
    let answer = check(alloc, &config, &board(alloc)?);
    Ok(is_answer(&answer, number, place))
}
