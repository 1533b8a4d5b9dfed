//! Descriptions in short.

use crate::*;
use outside::{Bytes, Listed, NoMemory};
use std::alloc::Global;

/// What a handle stands for, in short.
#[derive(Clone, Copy)]
pub enum Sort {
    Channel(u8, u8),
    Send,
    Receive(u8),
    Manage(usize, bool),
}

/// A description in short: cores by the first and the one behind the last, pieces by their ranges, and the private
/// ranges of whatever it manages.
#[derive(Clone, Copy)]
pub struct Draft<'a> {
    pub regions: &'a [Region],
    pub cores: (u32, u32),
    pub ports: &'a [Sort],
    pub spans: &'a [Span],
    pub held: bool,
    pub tree_at: u64,
    pub tree_size: u64,
    pub entry: u32,
    pub pieces: &'a [(u64, u32)],
}

/// A region whose extent begins where a MiB of that number does.
pub fn region(logical: u64, size: u32, extent: u32, private: bool) -> Region {
    Region {
        logical,
        size,
        extent,
        real: u64::from(extent) * 0x10_0000,
        private,
    }
}

/// So many pages of their own, one after another.
pub fn pages(alloc: Global, count: u32) -> Result<Vec<Region>, NoMemory> {
    let mut made = Vec::new(alloc);
    for i in 0..count {
        made.push(region(u64::from(i) * 0x1000, 0x1000, i, true))?;
    }
    Ok(made)
}

/// What the handle stands for.
fn port_of(alloc: Global, sort: Sort, spans: &[Span]) -> Result<Port, NoMemory> {
    match sort {
        Sort::Channel(rx, tx) => Ok(Port::Channel { rx, tx }),
        Sort::Send => Ok(Port::Send),
        Sort::Receive(irq) => Ok(Port::Receive { irq }),
        Sort::Manage(part, held) => Ok(Port::Manage {
            part,
            held,
            private: Listed::from_vec(Vec::from_slice(alloc, spans)?),
        }),
    }
}

/// A description of these regions that lacks nothing.
pub fn draft_of(regions: &[Region]) -> Draft<'_> {
    Draft {
        regions,
        cores: (0, 1),
        ports: &[],
        spans: &[],
        held: false,
        tree_at: 0x8000,
        tree_size: 0x1000,
        entry: 0,
        pieces: &[],
    }
}

/// The description.
pub fn desc_of(alloc: Global, draft: &Draft) -> Result<Desc, NoMemory> {
    let mut cores = Vec::new(alloc);
    for core in draft.cores.0..draft.cores.1 {
        cores.push(core)?;
    }
    let mut ports = Vec::new(alloc);
    for sort in draft.ports {
        ports.push(port_of(alloc, *sort, draft.spans)?)?;
    }
    let mut pieces = Vec::new(alloc);
    for (at, len) in draft.pieces {
        let bytes = Bytes::of(alloc, b"")?;
        pieces.push(Piece {
            at: *at,
            bytes,
            len: *len,
        })?;
    }
    Ok(Desc {
        name: Bytes::of(alloc, b"p")?,
        regions: Listed::from_vec(Vec::from_slice(alloc, draft.regions)?),
        cores: Listed::from_vec(cores),
        ports: Listed::from_vec(ports),
        tree_at: draft.tree_at,
        tree_size: draft.tree_size,
        entry: draft.entry,
        held: draft.held,
        pieces: Listed::from_vec(pieces),
    })
}
