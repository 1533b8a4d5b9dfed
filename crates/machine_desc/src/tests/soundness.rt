//! Sound descriptions, and those beside them that aren't.

use crate::tests::drafts::{Draft, Sort, desc_of, draft_of, pages, region};
use crate::*;
use std::test::Fail;

#[test]
fn regions(rt: HostRuntime) -> Result<(), Fail> {
    let low = region(0, 0x1_0000, 0, true);
    let cases = [
        ("whole pages", true, low),
        ("logical", false, region(0x800, 0x1000, 0, true)),
        ("size", false, region(0, 0xfff, 0, true)),
        ("real", false, Region { real: 0x800, ..low }),
        ("a page", true, region(0, 0x1000, 0, true)),
        ("empty", false, region(0, 0, 0, true)),
        ("last page", true, region(0xf_ffff_f000, 0x1000, 0, true)),
        ("a page more", false, region(0xf_ffff_f000, 0x2000, 0, true)),
        (
            "last real page",
            true,
            Region {
                real: 0xf_ffff_0000,
                ..low
            },
        ),
        (
            "a real page more",
            false,
            Region {
                real: 0xf_ffff_1000,
                ..low
            },
        ),
        (
            "wrapped",
            false,
            region(0xffff_ffff_ffff_f000, 0x1000, 0, true),
        ),
        ("beside", true, region(0x2_1000, 0x1000, 0, true)),
        ("before", true, region(0x1_f000, 0x1000, 0, true)),
        ("its last page", false, region(0x2_0000, 0x1000, 0, true)),
        ("over its start", false, region(0x1_f000, 0x2000, 0, true)),
        ("around", false, region(0, 0x10_0000, 0, true)),
        ("another extent", true, region(0, 0x1000, 6, true)),
        ("the same extent", false, region(0, 0x1000, 7, true)),
    ];
    for (what, want, one) in &cases {
        let both = [*one, region(0x2_0000, 0x1000, 7, false)];
        let desc = desc_of(rt.alloc(), &draft_of(&both))?;
        assert_eq!(rt; sound(&desc), *want, "{what}");
    }
    Ok(())
}

#[test]
fn counts(rt: HostRuntime) -> Result<(), Fail> {
    let alloc = rt.alloc();
    for (count, cores, ports, want) in [
        (16, 1, 64, true),
        (17, 1, 64, false),
        (16, 1, 65, false),
        (16, 0, 0, false),
        (16, 8, 0, true),
        (16, 9, 0, false),
        (0, 1, 0, true),
    ] {
        let regions = pages(alloc, count)?;
        let sorts = vec![in alloc; Sort::Send; ports]?;
        let one = Draft {
            cores: (0, cores),
            ports: sorts.as_slice(),
            ..draft_of(regions.as_slice())
        };
        let desc = desc_of(alloc, &one)?;
        assert_eq!(rt; sound(&desc), want, "{count} {cores} {ports}");
    }
    Ok(())
}

#[test]
fn interrupts(rt: HostRuntime) -> Result<(), Fail> {
    let regions = [region(0, 0x1_0000, 0, true)];
    let cases: [(&str, bool, &[Sort]); 6] = [
        (
            "in order",
            true,
            &[
                Sort::Channel(0, 1),
                Sort::Send,
                Sort::Receive(2),
                Sort::Channel(3, 4),
            ],
        ),
        ("from 1", false, &[Sort::Receive(1)]),
        ("by handle", false, &[Sort::Channel(0, 1), Sort::Receive(1)]),
        ("one for both", false, &[Sort::Channel(0, 0)]),
        ("room first", false, &[Sort::Channel(1, 0)]),
        ("one left out", false, &[Sort::Receive(0), Sort::Receive(2)]),
    ];
    for (what, want, ports) in &cases {
        let one = Draft {
            ports: *ports,
            ..draft_of(&regions)
        };
        let desc = desc_of(rt.alloc(), &one)?;
        assert_eq!(rt; sound(&desc), *want, "{what}");
    }
    Ok(())
}

#[test]
fn starts(rt: HostRuntime) -> Result<(), Fail> {
    let regions = [
        region(0, 0x1_0000, 0, true),
        region(0x1_0000, 0x1000, 1, false),
        region(0x3ff_f000, 0x2000, 2, true),
    ];
    let cases = [
        (0x3ff_ffff, 0x1000, 0, 1, true),
        (0x400_0000, 0x1000, 0, 1, false),
        (0x8000, 0x1000, 0x3ff_fffc, 1, true),
        (0x8000, 0x1000, 0x400_0000, 1, false),
        (0x8000, 0x1000, 2, 1, false),
        // the window in the shared region, with and without a spin entry
        (0x1_0000, 0x1000, 0, 1, true),
        (0x1_0000, 0x1000, 0, 2, false),
        (0xf000, 0x1000, 0, 2, true),
        (0x3ff_f000, 0x1000, 0, 8, true),
        // entries of cores 1 to 6 are private, that of core 7 isn't
        (0xf000, 0x1040, 0, 7, true),
        (0xf000, 0x1040, 0, 8, false),
        // no place, and the first place
        (0, 0, 0, 8, false),
        (0, 448, 0, 2, true),
        (0, 447, 0, 2, false),
    ];
    for (tree_at, tree_size, entry, cores, want) in cases {
        let one = Draft {
            cores: (0, cores),
            tree_at,
            tree_size,
            entry,
            ..draft_of(&regions)
        };
        let desc = desc_of(rt.alloc(), &one)?;
        assert_eq!(rt;
            sound(&desc),
            want,
            "{tree_at:#x} {tree_size} {entry:#x} {cores}"
        );
    }
    Ok(())
}

#[test]
fn pieces(rt: HostRuntime) -> Result<(), Fail> {
    // private, private, shared, a gap, private
    let regions = [
        region(0x1000, 0x1000, 0, true),
        region(0, 0x1000, 1, true),
        region(0x2000, 0x1000, 2, false),
        region(0x4000, 0x1000, 3, true),
    ];
    for (at, len, want) in [
        (0, 0x2000, true),
        (0xff0, 0x20, true),
        (0, 0x2001, false),
        (0x1fff, 1, true),
        (0x2000, 1, false),
        (0x2000, 0, true),
        (0x9000, 0, true),
        (0x3fff, 1, false),
        (0x3fff, 2, false),
        (0x4000, 0x1000, true),
        (0x4fff, 2, false),
        (0x5000, 1, false),
        (0xffff_ffff_ffff_ffff, 1, false),
        (0xffff_ffff_ffff_ffff, 2, false),
    ] {
        let one = Draft {
            pieces: &[(0, 1), (at, len)],
            ..draft_of(&regions)
        };
        let desc = desc_of(rt.alloc(), &one)?;
        assert_eq!(rt; sound(&desc), want, "{at:#x} {len:#x}");
    }
    Ok(())
}
