//! Values that were worked out by hand.

ghost use Rattle.std.specs.Prelude.{◌<◌};

use super::{Dead, GuestTlb, slot_of};
use mas::{Entry, Mas};
use outside::NoMemory;
use std::alloc::Global;
use std::process::Abort;
use std::test::Fail;

const NONE: Mas = Mas {
    m0: 0,
    m1: 0,
    m2: 0,
    m3: 0,
    m4: 0,
    m6: 0,
    m7: 0,
};

/// A dead translation of zeros.
const ZERO: Entry = Entry {
    valid: false,
    iprot: false,
    tid: 0,
    ts: false,
    tsize: 0,
    epn: 0,
    wimge: 0,
    rpn: 0,
    perms: 0,
};

/// TLBSEL 1.
const SECOND: u32 = 0x1000_0000;

/// V of MAS1.
const VALID: u32 = 0x8000_0000;

/// IPROT of MAS1.
const PROTECTED: u32 = 0x4000_0000;

/// The slots without the initial area.
fn empty(alloc: Global) -> Result<GuestTlb, NoMemory> {
    let mut tlb = GuestTlb::new(alloc)?;
    tlb.write(&Mas { m0: SECOND, ..NONE });
    Ok(tlb)
}

/// A live translation of `tid` in a slot of TLB1.
fn large(slot: u32, tid: u32, tsize: u32, epn: u32) -> Mas
    requires slot { slot < 64 }
    requires tid { tid < 8 }
{
    Mas {
        m0: SECOND + slot * 0x1_0000,
        m1: VALID + tid * 0x1_0000 + tsize % 16 * 0x100,
        m2: epn,
        ..NONE
    }
}

/// A live translation of `tid` in a way of TLB0.
fn small(way: u32, tid: u32, epn: u32) -> Mas
    requires way { way < 4 }
    requires tid { tid < 8 }
{
    Mas {
        m0: way * 0x1_0000,
        m1: VALID + tid * 0x1_0000,
        m2: epn,
        ..NONE
    }
}

/// Stops where a change answers other slots.
fn answers(rt: &impl Abort, dead: &Dead, want: &[u16]) {
    assert_eq!(rt; dead.as_slice(), want);
}

#[test]
fn each_size_has_its_addresses(rt: HostRuntime) -> Result<(), Fail> {
    let mut tlb = empty(rt.alloc())?;
    for (tsize, first, last) in [
        (1, 0xD555_5000, 0xD555_5FFF),
        (2, 0xD555_4000, 0xD555_7FFF),
        (3, 0xD555_0000, 0xD555_FFFF),
        (4, 0xD554_0000, 0xD557_FFFF),
        (5, 0xD550_0000, 0xD55F_FFFF),
        (6, 0xD540_0000, 0xD57F_FFFF),
        (7, 0xD500_0000, 0xD5FF_FFFF),
        (8, 0xD400_0000, 0xD7FF_FFFF),
        (9, 0xD000_0000, 0xDFFF_FFFF),
        (10, 0xC000_0000, 0xFFFF_FFFF),
        (11, 0x0000_0000, 0xFFFF_FFFF),
    ] {
        answers(
            &rt,
            &tlb.write(&large(3, 1, tsize, 0xD555_5000)),
            [515].as_slice(),
        );
        assert_eq!(rt; tlb.read(515).epn, first, "{tsize}");
        assert_eq!(rt; tlb.search(false, 1, first), Some(515), "{tsize}");
        assert_eq!(rt; tlb.search(false, 1, last), Some(515), "{tsize}");
        if first != 0 {
            assert_eq!(rt;
                tlb.search(false, 1, first.wrapping_sub(1)),
                None,
                "{tsize}"
            );
        }
        if last != 0xFFFF_FFFF {
            assert_eq!(rt; tlb.search(false, 1, last.wrapping_add(1)), None, "{tsize}");
        }
    }
    Ok(())
}

#[test]
fn everyones_page_meets_one_persons(rt: HostRuntime) -> Result<(), Fail> {
    let mut tlb = empty(rt.alloc())?;
    answers(&rt, &tlb.write(&small(0, 0, 0x0400_0000)), [0].as_slice());
    assert_eq!(rt; tlb.search(false, 7, 0x0400_0ABC), Some(0));
    answers(
        &rt,
        &tlb.write(&small(1, 5, 0x0400_0000)),
        [0, 1].as_slice(),
    );
    assert_eq!(rt; tlb.search(false, 5, 0x0400_0ABC), Some(1));
    assert_eq!(rt; tlb.search(false, 7, 0x0400_0ABC), None);
    answers(&rt, &tlb.write(&small(2, 6, 0x0400_0000)), [2].as_slice());
    answers(
        &rt,
        &tlb.write(&small(3, 0, 0x0400_0000)),
        [1, 2, 3].as_slice(),
    );
    assert_eq!(rt; tlb.search(false, 7, 0x0400_0ABC), Some(3));
    Ok(())
}

#[test]
fn spaces_are_apart(rt: HostRuntime) -> Result<(), Fail> {
    let here = small(0, 0, 0x0400_0000);
    let there = Mas {
        m1: VALID + 0x1000,
        ..small(1, 0, 0x0400_0000)
    };
    for (first, second, written) in [(here, there, 1), (there, here, 0)] {
        let mut tlb = empty(rt.alloc())?;
        tlb.write(&first);
        answers(&rt, &tlb.write(&second), [written].as_slice());
        assert_eq!(rt; tlb.search(false, 3, 0x0400_0000), Some(0));
        assert_eq!(rt; tlb.search(true, 3, 0x0400_0000), Some(1));
    }
    Ok(())
}

#[test]
fn sets_and_ways(rt: HostRuntime) {
    for (m0, m2, slot) in [
        (0x0002_0000, 0x1230_5FFF, Some(22)),
        (0x0FFF_0FFF, 0xFFFF_F01F, Some(511)),
        (0x0004_0000, 0x0008_0000, Some(0)),
        (0x1041_0000, 0xFFFF_F000, Some(513)),
        (0x1FFF_0000, 0x0000_0000, Some(575)),
        (0x2000_0000, 0x0000_0000, None),
        (0x3FFF_0000, 0xFFFF_F000, None),
    ] {
        assert_eq!(rt; slot_of(&Mas { m0, m2, ..NONE }), slot, "{m0}");
    }
}

#[test]
fn unnamed_slots_stay(rt: HostRuntime) -> Result<(), Fail> {
    let mut tlb = GuestTlb::new(rt.alloc())?;
    for tlbsel in [0x2000_0000, 0x3000_0000] {
        let mas = Mas {
            m0: tlbsel,
            ..small(0, 0, 0)
        };
        answers(&rt, &tlb.write(&mas), [].as_slice());
    }
    assert_eq!(rt; tlb.search(false, 9, 0x03FF_FFFF), Some(512));
    assert_eq!(rt; tlb.search(false, 9, 0x0400_0000), None);
    Ok(())
}

#[test]
fn a_way_is_used_again(rt: HostRuntime) -> Result<(), Fail> {
    let mut tlb = empty(rt.alloc())?;
    tlb.write(&small(2, 1, 0x0400_1000));
    assert_eq!(rt; tlb.search(false, 1, 0x0400_1000), Some(6));
    answers(&rt, &tlb.write(&small(2, 1, 0x0408_1000)), [6].as_slice());
    assert_eq!(rt; tlb.search(false, 1, 0x0400_1000), None);
    assert_eq!(rt; tlb.search(false, 1, 0x0408_1000), Some(6));
    let dead = Mas {
        m1: 0,
        ..small(2, 1, 0x0408_1000)
    };
    answers(&rt, &tlb.write(&dead), [6].as_slice());
    assert_eq!(rt; tlb.search(false, 1, 0x0408_1000), None);
    Ok(())
}

#[test]
fn a_large_page_ends_small_ones(rt: HostRuntime) -> Result<(), Fail> {
    let mut tlb = empty(rt.alloc())?;
    let protected = Mas {
        m1: VALID + PROTECTED + 0x100,
        ..large(9, 0, 1, 0x0400_2000)
    };
    tlb.write(&protected);
    tlb.write(&small(3, 0, 0x0400_1000));
    tlb.write(&small(3, 0, 0x0401_0000));
    answers(
        &rt,
        &tlb.write(&large(2, 0, 3, 0x0400_0000)),
        [7, 514, 521].as_slice(),
    );
    assert_eq!(rt; tlb.search(false, 0, 0x0400_1000), Some(514));
    assert_eq!(rt; tlb.search(false, 0, 0x0401_0000), Some(67));
    assert_eq!(rt; tlb.read(7).valid, false);
    assert_eq!(rt; tlb.read(7).epn, 0x0400_1000);
    Ok(())
}

#[test]
fn another_size_is_dead(rt: HostRuntime) -> Result<(), Fail> {
    let mut tlb = GuestTlb::new(rt.alloc())?;
    let mas = Mas {
        m0: 0x1001_0000,
        m1: 0xC005_0C00,
        m2: 0x0123_4010,
        m3: 0x0567_8035,
        m7: 0x9,
        ..NONE
    };
    answers(&rt, &tlb.write(&mas), [513].as_slice());
    let want = Entry {
        valid: false,
        iprot: true,
        tid: 5,
        ts: false,
        tsize: 12,
        epn: 0x0123_4000,
        wimge: 0x10,
        rpn: 0x9_0567_8000,
        perms: 0x35,
    };
    assert_eq!(rt; tlb.read(513), want);
    Ok(())
}

#[test]
fn a_dead_page_is_aligned(rt: HostRuntime) -> Result<(), Fail> {
    let mut tlb = empty(rt.alloc())?;
    let mas = Mas {
        m1: 0x200,
        m3: 0x0000_7000,
        ..large(5, 0, 2, 0x0123_7000)
    };
    answers(&rt, &tlb.write(&mas), [517].as_slice());
    assert_eq!(rt; tlb.read(517).epn, 0x0123_4000);
    assert_eq!(rt; tlb.read(517).rpn, 0x4000);
    assert_eq!(rt; tlb.read(517).valid, false);
    Ok(())
}

#[test]
fn invalidations_spare_the_protected(rt: HostRuntime) -> Result<(), Fail> {
    let mut tlb = GuestTlb::new(rt.alloc())?;
    tlb.write(&small(0, 1, 0x0400_1000));
    tlb.write(&large(4, 2, 1, 0x0400_1000));
    answers(&rt, &tlb.inval_all(true, false), [4].as_slice());
    answers(&rt, &tlb.inval_all(false, true), [516].as_slice());
    assert_eq!(rt; tlb.search(false, 0, 0), Some(512));
    tlb.write(&small(0, 1, 0x0400_1000));
    tlb.write(&large(4, 2, 1, 0x0400_1000));
    answers(&rt, &tlb.inval_pid(2), [516].as_slice());
    answers(&rt, &tlb.inval_pid(0), [].as_slice());
    answers(&rt, &tlb.inval_pid(1), [4].as_slice());
    tlb.write(&small(0, 1, 0x0400_1000));
    tlb.write(&large(4, 2, 1, 0x0400_1000));
    answers(
        &rt,
        &tlb.inval_ea(0x0400_2000, None, true, true),
        [].as_slice(),
    );
    answers(
        &rt,
        &tlb.inval_ea(0x0400_1FFF, Some(2), true, false),
        [].as_slice(),
    );
    answers(
        &rt,
        &tlb.inval_ea(0x0400_1FFF, Some(2), true, true),
        [516].as_slice(),
    );
    answers(
        &rt,
        &tlb.inval_ea(0x0400_1000, None, true, false),
        [4].as_slice(),
    );
    answers(
        &rt,
        &tlb.inval_ea(0x0000_1000, None, true, true),
        [].as_slice(),
    );
    Ok(())
}

#[test]
fn the_last_page_ends_with_the_space(rt: HostRuntime) -> Result<(), Fail> {
    let mut tlb = empty(rt.alloc())?;
    answers(&rt, &tlb.write(&small(1, 0, 0xFFFF_F000)), [509].as_slice());
    assert_eq!(rt; tlb.search(false, 0, 0xFFFF_FFFF), Some(509));
    assert_eq!(rt; tlb.search(false, 0, 0xFFFF_EFFF), None);
    assert_eq!(rt; tlb.search(false, 0, 0), None);
    answers(&rt, &tlb.write(&large(0, 0, 11, 0)), [509, 512].as_slice());
    let found = tlb.lookup(false, 0, 0xFFFF_FFFF).ok_or("no page")?;
    assert_eq!(rt; found.tsize, 11);
    Ok(())
}

#[test]
fn a_reset_leaves_the_initial_area(rt: HostRuntime) -> Result<(), Fail> {
    let mut tlb = empty(rt.alloc())?;
    tlb.write(&small(1, 0, 0xFFFF_F000));
    tlb.reset();
    let area = Entry {
        valid: true,
        iprot: true,
        tid: 0,
        ts: false,
        tsize: 8,
        epn: 0,
        wimge: 4,
        rpn: 0,
        perms: 0x15,
    };
    assert_eq!(rt; tlb.lookup(false, 3, 0x1234_5678), None);
    assert_eq!(rt; tlb.lookup(false, 3, 0x0234_5678), Some(area));
    assert_eq!(rt; tlb.read(509), Entry { tsize: 1, ..ZERO });
    assert_eq!(rt; tlb.read(513), ZERO);
    Ok(())
}
