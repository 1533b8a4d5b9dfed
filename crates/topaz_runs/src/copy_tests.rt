//! What no clause says of copies between partitions: what is written of runs in which a manager copies memory.

use crate::run_tests::{order, short_bundle, writes};
use lone_runs::guests::{
    AT_GRANULE, BEHIND_GRANULE, Deed, EDGE, Guest, HOLDER, INTO, LIST, NOTHING, OUT_OF, SELF,
    SHOWS, STORES, THREE_ENTRIES, TWELVE_LISTS, TWO_ENTRIES, image_of,
};
use lone_runs::reports::{
    COPIED_BEFORE, COPIED_IN, COPIED_OUT, LISTS_LOOKED_AT, NOT_COPIED, RESERVATION_KEPT,
    RESERVATION_LOST,
};
use std::alloc::Global;
use std::test::Fail;

/// `p` manages `q` by handle 2; each has a console on handle 1, and a second private area behind its first one.
const PAIR: &str = ".channels
..x console=cp
..y console=cq
.partitions
..p cpus:0 image=a tree-at:0,8000 tree-size:0,4000
...areas
....m area=a at:0,0
....n area=c at:0,10000
...handles
....c kind=channel target=x
....w kind=manage target=q
..q cpus:1 image=b tree-at:0,8000 tree-size:0,4000
...areas
....m area=b at:0,0
....n area=s at:0,10000
...handles
....c kind=channel target=y";

/// `p` manages `q`, which begins held; each has a console on handle 1, and both share an area.
const HELD: &str = ".channels
..x console=cp
..y console=cq
.partitions
..p cpus:0 image=a tree-at:0,8000 tree-size:0,4000
...areas
....m area=a at:0,0
....s area=s at:0,20000
...handles
....c kind=channel target=x
....w kind=manage target=q
..q cpus:1 image=b tree-at:0,8000 tree-size:0,4000 held
...areas
....m area=b at:0,0
....s area=s at:0,20000
...handles
....c kind=channel target=y";

/// `p` manages `q` by handle 2 and `r` by handle 3; each has a console on handle 1.
const BOTH: &str = ".channels
..x console=cp
..y console=cq
..z console=cr
.partitions
..p cpus:0 image=a tree-at:0,8000 tree-size:0,4000
...areas
....m area=a at:0,0
...handles
....c kind=channel target=x
....w kind=manage target=q
....v kind=manage target=r
..q cpus:1 image=b tree-at:0,8000 tree-size:0,4000
...areas
....m area=b at:0,0
...handles
....c kind=channel target=y
..r cpus:2 image=c tree-at:0,8000 tree-size:0,4000
...areas
....m area=c at:0,0
...handles
....c kind=channel target=z";

/// `p` manages `q`, and `q` manages `r`, each by handle 2; each has a console on handle 1.
const CHAIN: &str = ".channels
..x console=cp
..y console=cq
..z console=cr
.partitions
..p cpus:0 image=a tree-at:0,8000 tree-size:0,4000
...areas
....m area=a at:0,0
...handles
....c kind=channel target=x
....w kind=manage target=q
..q cpus:1 image=b tree-at:0,8000 tree-size:0,4000
...areas
....m area=b at:0,0
...handles
....c kind=channel target=y
....w kind=manage target=r
..r cpus:2 image=c tree-at:0,8000 tree-size:0,4000
...areas
....m area=c at:0,0
...handles
....c kind=channel target=z";

/// A run: its configuration, its guests, the turns of its cores, how many turns it has, and what is written.
type Run = (
    &'static str,
    &'static [Guest; 3],
    &'static [(u8, usize)],
    &'static str,
    &'static str,
);

/// The first of the runs that is written otherwise.
fn first_wrong(alloc: Global, runs: &[Run]) -> Result<Option<usize>, Fail> {
    for (place, (config, guests, turns, total, text)) in runs.iter().enumerate() {
        let [first, second, third] = guests;
        let first = image_of(alloc, *first)?;
        let second = image_of(alloc, *second)?;
        let third = image_of(alloc, *third)?;
        let images = [first.as_slice(), second.as_slice(), third.as_slice()];
        let list = short_bundle(alloc, config, images, order(alloc, turns)?)?;
        if !writes(alloc, "config", list, total, text)? {
            return Ok(Some(place));
        }
    }
    Ok(None)
}

/// Copies that are done.
static DONE: [Run; 8] = [
    // into the managed partition, from the edge of two regions to that of two others
    (
        PAIR,
        &[INTO, EDGE, NOTHING],
        &[(b'0', 29), (b'1', 9)],
        "38",
        COPIED_IN,
    ),
    // out of it, over the same edges
    (
        PAIR,
        &[OUT_OF, STORES, NOTHING],
        &[(b'1', 10), (b'0', 28)],
        "38",
        COPIED_OUT,
    ),
    // two managed partitions, each by its handle
    (
        BOTH,
        &[
            Guest {
                deeds: &[
                    Deed::Store(0x200, 0x3131_3131),
                    Deed::Store(0x204, 0x3232_3232),
                    Deed::Copy([SELF, 2, LIST, 0, 1]),
                    Deed::Copy([SELF, 3, LIST + 32, 0, 1]),
                ],
                list: &[(0x200, 0x300, 4), (0x204, 0x300, 4)],
            },
            SHOWS,
            SHOWS,
        ],
        &[(b'0', 36), (b'1', 9), (b'2', 9)],
        "54",
        "p 23 copy to 2 4\np 36 copy to 3 4\nq 9 sent 1 3131313100000000\nr 9 sent 1 3232323200000000\nend p running 36\nend q running 9\nend r running 9\nconsole cp 0 0 0\nconsole cq 8 0 0\nconsole cr 8 0 0\n",
    ),
    // two managers, each with a partition by its handle 2: down from the one to the other's, and up
    (
        CHAIN,
        &[
            Guest {
                deeds: &[
                    Deed::Store(0x200, 0x6162_6364),
                    Deed::Copy([SELF, 2, LIST, 0, 1]),
                ],
                list: &[(0x200, 0x300, 4)],
            },
            Guest {
                deeds: &[Deed::Copy([SELF, 2, LIST, 0, 1])],
                list: &[(0x300, 0x300, 4)],
            },
            Guest {
                deeds: &[Deed::Send(0x300, 4)],
                list: &[],
            },
        ],
        &[(b'0', 18), (b'1', 13), (b'2', 9)],
        "40",
        "p 18 copy to 2 4\nq 13 copy to 2 4\nr 9 sent 1 61626364\nend p running 18\nend q running 13\nend r running 9\nconsole cp 0 0 0\nconsole cq 0 0 0\nconsole cr 4 0 0\n",
    ),
    (
        CHAIN,
        &[
            Guest {
                deeds: &[Deed::Copy([2, SELF, LIST, 0, 1]), Deed::Send(0x300, 4)],
                list: &[(0x300, 0x300, 4)],
            },
            Guest {
                deeds: &[Deed::Copy([2, SELF, LIST, 0, 1])],
                list: &[(0x200, 0x300, 4)],
            },
            Guest {
                deeds: &[Deed::Store(0x200, 0x6162_6364)],
                list: &[],
            },
        ],
        &[(b'2', 5), (b'1', 13), (b'0', 22)],
        "40",
        "q 13 copy from 2 4\np 13 copy from 2 4\np 22 sent 1 61626364\nend p running 22\nend q running 13\nend r running 5\nconsole cp 4 0 0\nconsole cq 0 0 0\nconsole cr 0 0 0\n",
    ),
    // one that is held, and then started as it stands
    (
        HELD,
        &[
            Guest {
                deeds: &[
                    Deed::Store(0x200, 0x5152_5354),
                    Deed::Copy([SELF, 2, LIST, 0, 1]),
                    Deed::Start,
                ],
                list: &[(0x200, 0x300, 4)],
            },
            Guest {
                deeds: &[Deed::Send(0x300, 4)],
                list: &[],
            },
            NOTHING,
        ],
        &[(b'0', 29), (b'1', 9)],
        "38",
        "p 18 copy to 2 4\np 29 start 2 00000000 0\nq 9 sent 1 51525354\nend p running 29\nend q running 9\nconsole cp 0 0 0\nconsole cq 4 0 0\n",
    ),
    // a list that lies in what its first entry writes over, and is done as it stood
    (
        PAIR,
        &[
            Guest {
                deeds: &[
                    Deed::Copy([2, SELF, LIST, 0, 2]),
                    Deed::Send(0x300, 4),
                    Deed::Send(LIST + 32, 8),
                ],
                list: &[(0x200, 0x420, 32), (0x204, 0x300, 4)],
            },
            Guest {
                deeds: &[
                    Deed::Store(0x200, 0x4141_4141),
                    Deed::Store(0x204, 0x4242_4242),
                ],
                list: &[],
            },
            NOTHING,
        ],
        &[(b'1', 10), (b'0', 31)],
        "41",
        "p 13 copy from 2 36\np 22 sent 1 42424242\np 31 sent 1 4141414142424242\nend p running 31\nend q running 10\nconsole cp 12 0 0\nconsole cq 0 0 0\n",
    ),
    // the entries in their order, of which the second writes over the first one's end
    (
        PAIR,
        &[
            Guest {
                deeds: &[
                    Deed::Store(0x200, 0x3131_3131),
                    Deed::Store(0x204, 0x3232_3232),
                    Deed::Copy([SELF, 2, LIST, 0, 2]),
                ],
                list: &[(0x200, 0x300, 4), (0x204, 0x302, 4)],
            },
            SHOWS,
            NOTHING,
        ],
        &[(b'0', 23), (b'1', 9)],
        "32",
        "p 23 copy to 2 8\nq 9 sent 1 3131323232320000\nend p running 23\nend q running 9\nconsole cp 0 0 0\nconsole cq 8 0 0\n",
    ),
];

/// Copies at their limits, and which of them are refused: 8 is EINVAL, and 6 is EFAULT.
static LIMITS: [Run; 6] = [
    // three entries, of which the last one writes where nothing is private: nothing is moved
    (
        PAIR,
        &[THREE_ENTRIES, SHOWS, NOTHING],
        &[(b'0', 24), (b'1', 9)],
        "33",
        NOT_COPIED,
    ),
    // the first two of them
    (
        PAIR,
        &[TWO_ENTRIES, SHOWS, NOTHING],
        &[(b'0', 24), (b'1', 9)],
        "33",
        COPIED_BEFORE,
    ),
    // as many entries as there may be, which end where the caller's memory does; the last one has bytes
    (
        PAIR,
        &[
            Guest {
                deeds: &[
                    Deed::Store(0x200, 0x6161_6161),
                    Deed::Store(0x1_FFE4, 0x200),
                    Deed::Store(0x1_FFEC, 0x300),
                    Deed::Store(0x1_FFF4, 4),
                    Deed::Copy([SELF, 2, 0x1_8000, 0, 1024]),
                    Deed::Answer,
                ],
                list: &[],
            },
            Guest {
                deeds: &[Deed::Send(0x300, 4)],
                list: &[],
            },
            NOTHING,
        ],
        &[(b'0', 39), (b'1', 9)],
        "48",
        "p 33 copy to 2 4\np 39 sent 1 00000000\nq 9 sent 1 61616161\nend p running 39\nend q running 9\nconsole cp 4 0 0\nconsole cq 4 0 0\n",
    ),
    // First the handles and the number of entries, then where the list is.
    (
        PAIR,
        &[TWELVE_LISTS, NOTHING, NOTHING],
        &[(b'0', 228)],
        "228",
        LISTS_LOOKED_AT,
    ),
    // Then the entries' sum, and last where their bytes are: a byte too many, as many as there may be, a sum above 64 bits; the
    // last byte of the target and one more, what is not the source's, the source's last bytes, which are not the managed
    // partition's, what is the caller's own alone, and no bytes, wherever they are.
    (
        PAIR,
        &[
            Guest {
                deeds: &[
                    Deed::Copy([SELF, 2, LIST, 0, 1]),
                    Deed::Answer,
                    Deed::Copy([SELF, 2, LIST + 32, 0, 1]),
                    Deed::Answer,
                    Deed::Copy([SELF, 2, LIST + 64, 0, 2]),
                    Deed::Answer,
                    Deed::Copy([SELF, 2, LIST + 128, 0, 1]),
                    Deed::Answer,
                    Deed::Copy([SELF, 2, LIST + 160, 0, 1]),
                    Deed::Answer,
                    Deed::Copy([SELF, 2, LIST + 192, 0, 1]),
                    Deed::Answer,
                    Deed::Copy([SELF, 2, LIST + 224, 0, 1]),
                    Deed::Answer,
                    Deed::Copy([2, SELF, LIST + 224, 0, 1]),
                    Deed::Answer,
                    Deed::Copy([SELF, 2, LIST + 256, 0, 1]),
                    Deed::Answer,
                    Deed::Copy([2, SELF, LIST + 256, 0, 1]),
                    Deed::Answer,
                    Deed::Copy([SELF, 2, LIST + 288, 0, 1]),
                    Deed::Answer,
                ],
                list: &[
                    (0x200, 0x2_0000, 0x10_0001),
                    (0x200, 0x2_0000, 0x10_0000),
                    (0, 0, 0xFFFF_FFFF_FFFF_FFFF),
                    (0, 0, 2),
                    (0x200, 0x1_0FFF, 1),
                    (0x200, 0x1_0FFF, 2),
                    (0x2_0000, 0x200, 4),
                    (0x1_FFFE, 0x200, 2),
                    (0x200, 0x1_2000, 4),
                    (0xFFFF_FFFF_FFFF_FFFF, 0xFFFF_FFFF_FFFF_FFFF, 0),
                ],
            },
            NOTHING,
            NOTHING,
        ],
        &[(b'0', 209)],
        "209",
        "p 19 sent 1 00000008\np 38 sent 1 00000006\np 57 sent 1 00000008\np 70 copy to 2 1\np 76 sent 1 00000000\np 95 sent 1 00000006\np 114 sent 1 00000006\np 127 copy to 2 2\np 133 sent 1 00000000\np 152 sent 1 00000006\np 171 sent 1 00000006\np 184 copy from 2 4\np 190 sent 1 00000000\np 209 sent 1 00000000\nend p running 209\nend q running 0\nconsole cp 44 0 0\nconsole cq 0 0 0\n",
    ),
    // what is shared with the managed partition is private to neither: a source, a target either way, and the list
    (
        HELD,
        &[
            Guest {
                deeds: &[
                    Deed::Copy([SELF, 2, LIST, 0, 1]),
                    Deed::Answer,
                    Deed::Copy([SELF, 2, LIST + 32, 0, 1]),
                    Deed::Answer,
                    Deed::Copy([2, SELF, LIST + 32, 0, 1]),
                    Deed::Answer,
                    Deed::Copy([SELF, 2, 0x2_0000, 0, 1]),
                    Deed::Answer,
                    Deed::Copy([SELF, 2, LIST + 64, 0, 1]),
                    Deed::Answer,
                ],
                list: &[
                    (0x2_0000, 0x300, 4),
                    (0x200, 0x2_0000, 4),
                    (0x200, 0x300, 4),
                ],
            },
            NOTHING,
            NOTHING,
        ],
        &[(b'0', 95)],
        "95",
        "p 19 sent 1 00000006\np 38 sent 1 00000006\np 57 sent 1 00000006\np 76 sent 1 00000006\np 89 copy to 2 4\np 95 sent 1 00000000\nend p running 95\nend q stopped 0\nconsole cp 20 0 0\nconsole cq 0 0 0\n",
    ),
];

/// What becomes of reservations, whose granules have 64 bytes: 20000000 is sent where one held, and 0 where it was lost.
static RESERVED: [Run; 8] = [
    // a copy into the granule's last word
    (
        PAIR,
        &[AT_GRANULE, HOLDER, NOTHING],
        &[(b'1', 3), (b'0', 13), (b'1', 7)],
        "23",
        RESERVATION_LOST,
    ),
    // behind it
    (
        PAIR,
        &[BEHIND_GRANULE, HOLDER, NOTHING],
        &[(b'1', 3), (b'0', 13), (b'1', 7)],
        "23",
        RESERVATION_KEPT,
    ),
    // from before it into its first two bytes, by the second entry
    (
        PAIR,
        &[
            Guest {
                deeds: &[Deed::Copy([SELF, 2, LIST, 0, 2])],
                list: &[(0x200, 0x300, 4), (0x200, 0x23E, 4)],
            },
            HOLDER,
            NOTHING,
        ],
        &[(b'1', 3), (b'0', 13), (b'1', 7)],
        "23",
        "p 13 copy to 2 8\nq 10 sent 1 00000000\nend p running 13\nend q running 10\nconsole cp 0 0 0\nconsole cq 4 0 0\n",
    ),
    // of no bytes
    (
        PAIR,
        &[
            Guest {
                deeds: &[Deed::Copy([SELF, 2, LIST, 0, 2])],
                list: &[(0x200, 0x244, 0), (0x200, 0x300, 4)],
            },
            HOLDER,
            NOTHING,
        ],
        &[(b'1', 3), (b'0', 13), (b'1', 7)],
        "23",
        RESERVATION_KEPT,
    ),
    // one that is refused, and one out of the granule
    (
        PAIR,
        &[
            Guest {
                deeds: &[
                    Deed::Copy([SELF, 2, LIST, 0, 2]),
                    Deed::Copy([2, SELF, LIST + 64, 0, 1]),
                ],
                list: &[(0x200, 0x240, 4), (0x200, 0x2_0000, 4), (0x240, 0x240, 4)],
            },
            HOLDER,
            NOTHING,
        ],
        &[(b'1', 3), (b'0', 26), (b'1', 7)],
        "36",
        "p 26 copy from 2 4\nq 10 sent 1 20000000\nend p running 26\nend q running 10\nconsole cp 0 0 0\nconsole cq 4 0 0\n",
    ),
    // the manager's own, by a copy to itself
    (
        PAIR,
        &[
            Guest {
                deeds: &[
                    Deed::Reserve(0x240),
                    Deed::Copy([2, SELF, LIST, 0, 1]),
                    Deed::Conclude,
                ],
                list: &[(0x200, 0x244, 4)],
            },
            NOTHING,
            NOTHING,
        ],
        &[(b'0', 23)],
        "23",
        "p 16 copy from 2 4\np 23 sent 1 00000000\nend p running 23\nend q running 0\nconsole cp 4 0 0\nconsole cq 0 0 0\n",
    ),
    // and by one that it does into the managed partition
    (
        PAIR,
        &[
            Guest {
                deeds: &[
                    Deed::Reserve(0x240),
                    Deed::Copy([SELF, 2, LIST, 0, 1]),
                    Deed::Conclude,
                ],
                list: &[(0x240, 0x240, 4)],
            },
            NOTHING,
            NOTHING,
        ],
        &[(b'0', 23)],
        "23",
        "p 16 copy to 2 4\np 23 sent 1 20000000\nend p running 23\nend q running 0\nconsole cp 4 0 0\nconsole cq 0 0 0\n",
    ),
    // that of another partition, at the same address
    (
        BOTH,
        &[
            Guest {
                deeds: &[Deed::Copy([SELF, 2, LIST, 0, 1])],
                list: &[(0x200, 0x240, 4)],
            },
            HOLDER,
            HOLDER,
        ],
        &[(b'1', 3), (b'2', 3), (b'0', 13), (b'1', 7), (b'2', 7)],
        "33",
        "p 13 copy to 2 4\nq 10 sent 1 00000000\nr 10 sent 1 20000000\nend p running 13\nend q running 10\nend r running 10\nconsole cp 0 0 0\nconsole cq 4 0 0\nconsole cr 4 0 0\n",
    ),
];

#[test]
fn managers_copy_memory(rt: HostRuntime) -> Result<(), Fail> {
    assert_eq!(rt; first_wrong(rt.alloc(), &DONE)?, None);
    Ok(())
}

#[test]
fn copies_are_refused_in_order(rt: HostRuntime) -> Result<(), Fail> {
    assert_eq!(rt; first_wrong(rt.alloc(), &LIMITS)?, None);
    Ok(())
}

#[test]
fn copies_end_reservations(rt: HostRuntime) -> Result<(), Fail> {
    assert_eq!(rt; first_wrong(rt.alloc(), &RESERVED)?, None);
    Ok(())
}
