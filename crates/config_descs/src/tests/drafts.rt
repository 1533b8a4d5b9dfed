//! Configurations in short.

ghost use Rattle.std.specs.Prelude.{◌≤◌, IsTrue, sum_by};
ghost use Rattle.machine_desc.specs.Limits.{most_bytes};
ghost use Rattle.config_descs.specs.Limits.{KeepsLimits};

use hv_config::{AreaDef, BellDef, ChannelDef, Config, GuestAreaDef, HandleDef, Kind, PartDef};
use outside::{Bytes, Listed, NoMemory};
use std::alloc::Global;

/// An area's name, base and size.
pub type Area = (&'static str, u64, u64);

/// The name of a channel and that of its console; none where it is empty.
pub type Channel = (&'static str, &'static str);

/// The area that a guest area maps, and where.
pub type Guest = (&'static str, u64);

/// A handle's kind and its target.
pub type Handle = (Kind, &'static str);

/// A partition in short.
#[derive(Clone, Copy)]
pub struct Part {
    pub name: &'static str,
    pub cpus: &'static [u32],
    /// Where the window for the device tree is, and its size.
    pub tree: (u64, u64),
    pub held: bool,
    pub guests: &'static [Guest],
    pub handles: &'static [Handle],
}

const AREAS: [Area; 5] = [
    ("a", 0x1000_0000, 0x1_0000),
    ("b", 0x2000_0000, 0x2_0000),
    ("c", 0x3000_0000, 0x3_0000),
    ("d", 0x3003_0000, 0x4_0000),
    ("e", 0x0800_0000, 0x5_0000),
];

const CHANNELS: [Channel; 3] = [("y", "left"), ("x", ""), ("z", "right")];

const BELLS: [&str; 2] = ["bell", "quiet"];

/// The first manages the others, and shares an area with the second.
const PARTS: [Part; 3] = [
    Part {
        name: "one",
        cpus: &[3, 1],
        tree: (0x8000, 0x1000),
        held: false,
        guests: &[("a", 0), ("b", 0x10_0000)],
        handles: &[
            (Kind::Send, "bell"),
            (Kind::Channel, "x"),
            (Kind::Manage, "three"),
            (Kind::Receive, "bell"),
            (Kind::Channel, "y"),
            (Kind::Manage, "two"),
            (Kind::Send, "bell"),
        ],
    },
    Part {
        name: "two",
        cpus: &[0],
        tree: (0x4_8000, 0x2000),
        held: true,
        guests: &[("c", 0x4_0000), ("b", 0x20_0000), ("d", 0)],
        handles: &[
            (Kind::Receive, "bell"),
            (Kind::Channel, "z"),
            (Kind::Send, "bell"),
            (Kind::Channel, "x"),
        ],
    },
    Part {
        name: "three",
        cpus: &[2],
        tree: (0x20_0000, 0x4000),
        held: false,
        guests: &[("e", 0x20_0000)],
        handles: &[(Kind::Receive, "quiet")],
    },
];

/// The text's bytes.
fn text(alloc: Global, text: &str) -> Result<Bytes, NoMemory> {
    Bytes::of(alloc, text.as_bytes())
}

/// The areas.
fn areas_of(alloc: Global, areas: &[Area]) -> Result<Listed<AreaDef>, NoMemory> {
    let mut made = Vec::new(alloc);
    for (name, base, size) in areas {
        let name = text(alloc, name)?;
        made.push(AreaDef {
            name,
            base: *base,
            size: *size,
        })?;
    }
    Ok(Listed::from_vec(made))
}

/// The channels.
fn channels_of(alloc: Global, channels: &[Channel]) -> Result<Listed<ChannelDef>, NoMemory> {
    let mut made = Vec::new(alloc);
    for (name, console) in channels {
        let name = text(alloc, name)?;
        let console = if console.is_empty() {
            None
        } else {
            Some(text(alloc, console)?)
        };
        made.push(ChannelDef { name, console })?;
    }
    Ok(Listed::from_vec(made))
}

/// The doorbells.
fn bells_of(alloc: Global, bells: &[&str]) -> Result<Listed<BellDef>, NoMemory> {
    let mut made = Vec::new(alloc);
    for name in bells {
        let name = text(alloc, name)?;
        made.push(BellDef { name })?;
    }
    Ok(Listed::from_vec(made))
}

/// The guest areas.
fn guests_of(alloc: Global, guests: &[Guest]) -> Result<Listed<GuestAreaDef>, NoMemory> {
    let mut made = Vec::new(alloc);
    for (area, at) in guests {
        let name = text(alloc, area)?;
        let area = text(alloc, area)?;
        made.push(GuestAreaDef {
            name,
            area,
            at: *at,
        })?;
    }
    Ok(Listed::from_vec(made))
}

/// The handles.
fn handles_of(alloc: Global, handles: &[Handle]) -> Result<Listed<HandleDef>, NoMemory> {
    let mut made = Vec::new(alloc);
    for (kind, target) in handles {
        let name = text(alloc, "h")?;
        let target = text(alloc, target)?;
        made.push(HandleDef {
            name,
            kind: *kind,
            target,
        })?;
    }
    Ok(Listed::from_vec(made))
}

/// The partition.
fn part_of(alloc: Global, part: &Part) -> Result<PartDef, NoMemory> {
    Ok(PartDef {
        name: text(alloc, part.name)?,
        cpus: Listed::from_vec(Vec::from_slice(alloc, part.cpus)?),
        image: text(alloc, "hi")?,
        image_at: 0,
        tree_at: part.tree.0,
        tree_size: part.tree.1,
        held: part.held,
        bootargs: None,
        areas_at: 0,
        areas: guests_of(alloc, part.guests)?,
        handles_at: 1,
        handles: handles_of(alloc, part.handles)?,
    })
}

/// The configuration of all that stands above.
pub fn configuration(alloc: Global) -> Result<Config, NoMemory> {
    let mut parts = Vec::new(alloc);
    for part in &PARTS {
        parts.push(part_of(alloc, part)?)?;
    }
    Ok(Config {
        areas_at: 0,
        areas: areas_of(alloc, &AREAS)?,
        channels_at: 1,
        channels: channels_of(alloc, &CHANNELS)?,
        bells_at: 2,
        bells: bells_of(alloc, &BELLS)?,
        parts_at: 3,
        parts: Listed::from_vec(parts),
    })
}

/// Whether the areas have 1 GiB together at most.
fn sizes_fit(areas: &[AreaDef]) -> bool
    ensures { IsTrue result → sum_by (λ area. area.size) areas.now ≤ most_bytes }
{
    let mut left = 0x4000_0000u64;
    for area in areas {
        if left < area.size {
            return false;
        }
        left -= area.size;
    }
    true
}

/// Whether the configuration keeps the limits that descriptions rest on.
pub fn keeps_limits(config: &Config) -> bool
    ensures { IsTrue result → KeepsLimits config.now }
{
    config.areas.as_slice().len() <= 64
        && sizes_fit(config.areas.as_slice())
        && config
            .parts
            .as_slice()
            .iter()
            .all(|part| part.handles.as_slice().len() <= 64)
}
