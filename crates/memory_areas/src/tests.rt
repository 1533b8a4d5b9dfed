//! What the definitions are meant to say: addresses and ranges at the edges of regions, and those beside them.

use crate::*;
use machine_desc::{Desc, Region, sound};
use outside::{Bytes, Listed, NoMemory};
use std::alloc::Global;
use std::process::Abort;
use std::test::Fail;

/// A description of these regions and one core.
fn desc_of(alloc: Global, regions: &[Region]) -> Result<Desc, NoMemory> {
    let mut cores = Vec::new(alloc);
    cores.push(0u32)?;
    Ok(Desc {
        name: Bytes::of(alloc, b"p")?,
        regions: Listed::from_vec(Vec::from_slice(alloc, regions)?),
        cores: Listed::from_vec(cores),
        ports: Listed::new(alloc),
        tree_at: 0,
        tree_size: 0,
        entry: 0,
        held: false,
        pieces: Listed::new(alloc),
    })
}

/// The map of these regions, which must be sound.
fn map_of(rt: &impl Abort, alloc: Global, regions: &[Region]) -> Result<AreaMap, NoMemory> {
    let desc = desc_of(alloc, regions)?;
    assert!(rt; sound(&desc));
    AreaMap::new(alloc, &desc)
}

/// Two private regions side by side, the later one first; a shared one behind them; and the last page of all
/// addresses.
fn regions() -> [Region; 4] {
    [
        Region {
            logical: 0x2000,
            size: 0x2000,
            extent: 9,
            real: 0x50_0000,
            private: true,
        },
        Region {
            logical: 0xf_ffff_f000,
            size: 0x1000,
            extent: 0,
            real: 0xf_ffff_f000,
            private: true,
        },
        Region {
            logical: 0x1000,
            size: 0x1000,
            extent: 3,
            real: 0x30_0000,
            private: true,
        },
        Region {
            logical: 0x4000,
            size: 0x1000,
            extent: 1,
            real: 0,
            private: false,
        },
    ]
}

/// The place of these numbers.
fn place(extent: u32, at: u32, run: u32, real: u64) -> Option<Place> {
    Some(Place {
        extent,
        at,
        run,
        real,
    })
}

#[test]
fn places(rt: HostRuntime) -> Result<(), Fail> {
    let map = map_of(&rt, rt.alloc(), &regions())?;
    for (logical, want) in [
        (0, None),
        (0xfff, None),
        (0x1000, place(3, 0, 0x1000, 0x30_0000)),
        (0x1abc, place(3, 0xabc, 0x544, 0x30_0abc)),
        (0x1fff, place(3, 0xfff, 1, 0x30_0fff)),
        (0x2000, place(9, 0, 0x2000, 0x50_0000)),
        (0x3fff, place(9, 0x1fff, 1, 0x50_1fff)),
        (0x4000, place(1, 0, 0x1000, 0)),
        (0x4fff, place(1, 0xfff, 1, 0xfff)),
        (0x5000, None),
        // as 0x1000 in its lowest 32 bits
        (0x1_0000_1000, None),
        (0xf_ffff_efff, None),
        (0xf_ffff_f000, place(0, 0, 0x1000, 0xf_ffff_f000)),
        (0xf_ffff_ffff, place(0, 0xfff, 1, 0xf_ffff_ffff)),
        (0x10_0000_0000, None),
        (0xffff_ffff_ffff_ffff, None),
    ] {
        assert_eq!(rt; map.find(logical), want, "{logical:#x}");
    }
    Ok(())
}

#[test]
fn private_ranges(rt: HostRuntime) -> Result<(), Fail> {
    let map = map_of(&rt, rt.alloc(), &regions())?;
    for (logical, len, want) in [
        // in one region, to its end and over it, and over two side by side
        (0x2000, 0x2000, true),
        (0x2000, 0x2001, false),
        (0x3fff, 1, true),
        (0x3fff, 2, false),
        (0x1fff, 2, true),
        (0x1000, 0x3000, true),
        (0x1000, 0x3001, false),
        // from before, in the shared one, and behind
        (0xfff, 1, false),
        (0xfff, 2, false),
        (0x4000, 1, false),
        (0x5000, 1, false),
        // without bytes
        (0x4000, 0, true),
        (0x9000, 0, true),
        (0xffff_ffff_ffff_ffff, 0, true),
        // at the end of all addresses, and behind
        (0xf_ffff_f000, 0x1000, true),
        (0xf_ffff_f000, 0x1001, false),
        (0xffff_ffff_ffff_ffff, 1, false),
        // so long that the end is no number of 64 bits, or 0
        (0x1000, 0xffff_ffff_ffff_ffff, false),
        (0x3000, 0xffff_ffff_ffff_e000, false),
        (0x1000, 0xffff_ffff_ffff_f000, false),
        (0xffff_ffff_ffff_ffff, 0xffff_ffff_ffff_ffff, false),
    ] {
        assert_eq!(rt; map.is_private(logical, len), want, "{logical:#x} {len:#x}");
    }
    Ok(())
}

#[test]
fn no_regions(rt: HostRuntime) -> Result<(), Fail> {
    let map = map_of(&rt, rt.alloc(), &[])?;
    assert_eq!(rt; map.find(0), None);
    assert!(rt; map.is_private(0, 0) && !map.is_private(0, 1));
    Ok(())
}
