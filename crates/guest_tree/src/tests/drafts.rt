//! Partitions in short.

ghost use Rattle.std.specs.Prelude.{IfOk, ◌≡◌, ◌≤◌, length};
ghost use Rattle.machine_desc.specs.Limits.{most_cores, most_handles};
ghost use Rattle.guest_tree.specs.Guest.{HasSpinRoom};

use hv_config::{AreaDef, Config, GuestAreaDef, HandleDef, Kind, PartDef};
use outside::{Bytes, Listed, NoMemory};
use std::alloc::Global;

/// An area's name and its size.
pub type Area = (&'static str, u64);

/// The area that a guest area maps, and where.
pub type Guest = (&'static str, u64);

/// A handle's name, its kind and its target.
pub type Handle = (&'static str, Kind, &'static str);

/// A partition in short.
#[derive(Clone, Copy)]
pub struct Part {
    pub name: &'static str,
    pub cores: u32,
    /// Where the window for the device tree is.
    pub tree_at: u64,
    /// Empty where there are none.
    pub bootargs: &'static str,
    pub guests: &'static [Guest],
    pub handles: &'static [Handle],
}

/// The text's bytes.
fn text(alloc: Global, text: &str) -> Result<Bytes, NoMemory> {
    Bytes::of(alloc, text.as_bytes())
}

/// A configuration with these areas and nothing else.
pub fn config_of(alloc: Global, areas: &[Area]) -> Result<Config, NoMemory> {
    let mut made = Vec::new(alloc);
    for (name, size) in areas {
        let name = text(alloc, name)?;
        made.push(AreaDef {
            name,
            base: 0,
            size: *size,
        })?;
    }
    Ok(Config {
        areas_at: 0,
        areas: Listed::from_vec(made),
        channels_at: 0,
        channels: Listed::new(alloc),
        bells_at: 0,
        bells: Listed::new(alloc),
        parts_at: 0,
        parts: Listed::new(alloc),
    })
}

/// So many cores.
fn cpus_of(alloc: Global, count: u32) -> Result<Listed<u32>, NoMemory> {
    let mut made = Vec::new(alloc);
    for number in 0..count {
        made.push(number)?;
    }
    Ok(Listed::from_vec(made))
}

/// The guest areas.
fn guests_of(alloc: Global, guests: &[Guest]) -> Result<Listed<GuestAreaDef>, NoMemory> {
    let mut made = Vec::new(alloc);
    for (area, at) in guests {
        let name = text(alloc, "m")?;
        let area = text(alloc, area)?;
        made.push(GuestAreaDef {
            name,
            area,
            at: *at,
        })?;
    }
    Ok(Listed::from_vec(made))
}

/// The handles.
fn handles_of(alloc: Global, handles: &[Handle]) -> Result<Listed<HandleDef>, NoMemory> {
    let mut made = Vec::new(alloc);
    for (name, kind, target) in handles {
        let name = text(alloc, name)?;
        let target = text(alloc, target)?;
        made.push(HandleDef {
            name,
            kind: *kind,
            target,
        })?;
    }
    Ok(Listed::from_vec(made))
}

/// The partition. Its window is a page long.
pub fn part_of(alloc: Global, part: &Part) -> Result<PartDef, NoMemory> {
    let bootargs = if part.bootargs.is_empty() {
        None
    } else {
        Some(text(alloc, part.bootargs)?)
    };
    Ok(PartDef {
        name: text(alloc, part.name)?,
        cpus: cpus_of(alloc, part.cores)?,
        image: text(alloc, "i")?,
        image_at: 0,
        tree_at: part.tree_at,
        tree_size: 0x1000,
        held: false,
        bootargs,
        areas_at: 0,
        areas: guests_of(alloc, part.guests)?,
        handles_at: 0,
        handles: handles_of(alloc, part.handles)?,
    })
}
