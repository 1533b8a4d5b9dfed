//! Copies of a manager, and what they leave in its own memory, worked out by hand.

use crate::drafts::{Draft, manager};
use crate::turns::Turn::*;
use crate::turns::{Command, Turn, first_wrong_turn, image_of};
use std::alloc::{AllocError, Global};
use std::test::Fail;

/// The handle of the caller itself.
const SELF: u32 = 0xFFFF_FFFF;

/// Where the list lies in the image.
const LIST: u32 = 0x400;

/// The status of an address that is not the partition's.
const EFAULT: u32 = 6;

/// The status of an argument that is out of its range.
const EINVAL: u32 = 8;

/// An entry of a list: the address that is read, the address that is written, and how many bytes.
type Entry = (u64, u64, u64);

/// A run of a manager: what a copy out of the partition of its handle 4 brings, the list in its image, and its turns. It has
/// two private pages at 0 and at 0x1000, and a shared one at 0x2000. Private to the managed partition are two pages, of which
/// the second one is named first, and one that lies high.
pub type Run = (&'static [u8], &'static [Entry], &'static [Turn]);

static COPIES: [Run; 9] = [
    // to the managed partition, over edges of regions on both sides
    (
        b"",
        &[(0xFFC, 0xFFE, 8), (0x1FFC, 0x1FFC, 4)],
        &[Copy([SELF, 4, LIST, 0, 2], 0, Some(Command::CopyTo(4, 12)))],
    ),
    // out of it, over the same edges
    (
        b"ABCDEFGHIJKL",
        &[(0xFFE, 0xFFC, 8), (0x1FFC, 0x200, 4)],
        &[
            Copy([4, SELF, LIST, 0, 2], 0, Some(Command::CopyFrom(4, 12))),
            Holds(0xFFC, 0x4142_4344),
            Holds(0x1000, 0x4546_4748),
            Holds(0x200, 0x494A_4B4C),
            Holds(0x204, 0),
        ],
    ),
    // fewer bytes than are asked for
    (
        b"ABCDEF",
        &[(0, 0x200, 4), (0, 0x204, 4)],
        &[
            Copy([4, SELF, LIST, 0, 2], 0, Some(Command::CopyFrom(4, 8))),
            Holds(0x200, 0x4142_4344),
            Holds(0x204, 0x4546_0000),
        ],
    ),
    // no bytes, wherever they are, and no entry
    (
        b"ABCD",
        &[
            (0, 0x200, 0),
            (0x8000_0000_0000_0000, 0xFFFF_FFFF_FFFF_FFFF, 0),
        ],
        &[
            Copy([4, SELF, LIST, 0, 2], 0, None),
            Copy([SELF, 4, LIST, 0, 2], 0, None),
            Copy([4, SELF, LIST, 0, 0], 0, None),
            Holds(0x200, 0),
        ],
    ),
    // nothing is moved where the last entry isn't private
    (
        b"ABCDEFGH",
        &[(0, 0x200, 4), (0x2000, 0x204, 4)],
        &[
            Copy([4, SELF, LIST, 0, 2], EFAULT, None),
            Holds(0x200, 0),
            Copy([4, SELF, LIST, 0, 1], 0, Some(Command::CopyFrom(4, 4))),
            Holds(0x200, 0x4142_4344),
        ],
    ),
    // what is shared, the last byte that is private and the one behind it, and a page that lies high
    (
        b"",
        &[
            (0x2000, 0, 4),
            (0, 0x2000, 4),
            (0, 0x1FFF, 1),
            (0, 0x1FFF, 2),
            (0xFFC, 0x8_0000_0FFC, 4),
            (0xFFC, 0x8_0000_0FFD, 4),
        ],
        &[
            Copy([SELF, 4, LIST, 0, 1], EFAULT, None),
            Copy([SELF, 4, LIST + 32, 0, 1], EFAULT, None),
            Copy([SELF, 4, LIST + 64, 0, 1], 0, Some(Command::CopyTo(4, 1))),
            Copy([SELF, 4, LIST + 96, 0, 1], EFAULT, None),
            Copy([SELF, 4, LIST + 128, 0, 1], 0, Some(Command::CopyTo(4, 4))),
            Copy([SELF, 4, LIST + 160, 0, 1], EFAULT, None),
        ],
    ),
    // a list that lies in what its first entry writes over, and is done as it stood
    (
        b"0123456789abcdefghijklmnopqrstuvWXYZ",
        &[(0, 0x420, 32), (0, 0x200, 4)],
        &[
            Copy([4, SELF, LIST, 0, 2], 0, Some(Command::CopyFrom(4, 36))),
            Holds(0x420, 0x3031_3233),
            Holds(0x43C, 0x7374_7576),
            Holds(0x200, 0x5758_595A),
        ],
    ),
    // a copy into the caller's reserved granule, one behind it, and one out of it
    (
        b"ABCD",
        &[(0, 0x27C, 4), (0, 0x280, 4), (0x240, 0x240, 4)],
        &[
            Reserve(0x240),
            Copy([4, SELF, LIST, 0, 1], 0, Some(Command::CopyFrom(4, 4))),
            Conclude(0),
            Reserve(0x240),
            Copy([4, SELF, LIST + 32, 0, 1], 0, Some(Command::CopyFrom(4, 4))),
            Conclude(0x2000_0000),
            Reserve(0x240),
            Copy([SELF, 4, LIST + 64, 0, 1], 0, Some(Command::CopyTo(4, 4))),
            Conclude(0x2000_0000),
        ],
    ),
    // handles and the number of entries come first, and then where the list is
    (
        b"ABCD",
        &[(0, 0x200, 4)],
        &[
            Copy([SELF, SELF, LIST, 0, 1], EINVAL, None),
            Copy([4, 4, LIST, 0, 1], EINVAL, None),
            Copy([SELF, 1, LIST, 0, 1], EINVAL, None),
            Copy([5, SELF, LIST, 0, 1], EINVAL, None),
            Copy([0, SELF, LIST, 0, 1], EINVAL, None),
            Copy([4, SELF, LIST, 0, 1025], EINVAL, None),
            Copy([4, 4, 0x2000, 0, 1], EINVAL, None),
            Copy([4, SELF, 0x2000, 0, 1], EFAULT, None),
            Copy([4, SELF, 0x1FF0, 0, 1], EFAULT, None),
            Copy([4, SELF, LIST, 1, 1], EFAULT, None),
            Copy([4, SELF, LIST, 0, 1], 0, Some(Command::CopyFrom(4, 4))),
            Holds(0x200, 0x4142_4344),
        ],
    ),
];

/// Runs of a manager that copies.
pub fn copies() -> &'static [Run] {
    &COPIES
}

/// The two words of a number.
fn put_long(words: &mut Vec<u32>, number: u64) -> Result<(), AllocError> {
    words.push((number >> 32) as u32)?;
    words.push((number & 0xFFFF_FFFF) as u32)?;
    Ok(())
}

/// The instructions, and behind them the list, each entry of four numbers, of which the last isn't looked at.
fn with_list(mut words: Vec<u32>, list: &[Entry]) -> Result<Vec<u32>, AllocError> {
    for _word in words.len()..0x100 {
        words.push(0u32)?;
    }
    for &(source, target, size) in list {
        put_long(&mut words, source)?;
        put_long(&mut words, target)?;
        put_long(&mut words, size)?;
        put_long(&mut words, 0xA5A5_A5A5_5A5A_5A5A)?;
    }
    Ok(words)
}

/// The first turn of the run that goes otherwise.
pub fn copying(alloc: Global, run: &Run) -> Result<Option<usize>, Fail> {
    let &(feed, list, turns) = run;
    let image = with_list(image_of(alloc, turns)?, list)?;
    let draft = Draft {
        regions: &[
            (0, 0x1000, 0, true),
            (0x1000, 0x1000, 1, true),
            (0x2000, 0x1000, 2, false),
        ],
        sizes: &[0x1000, 0x1000, 0x1000],
        private: &[(0x1000, 0x1000), (0, 0x1000), (0x8_0000_0000, 0x1000)],
        feed,
        ..manager(false, 0, image.as_slice())
    };
    first_wrong_turn(alloc, &draft, turns)
}
