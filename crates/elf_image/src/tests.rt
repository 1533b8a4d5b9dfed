//! What the definitions are meant to say: each rule at its edge and beside it, and what a linker made.

mod files;

use crate::header::Header;
use crate::images::HELLO;
use crate::segment::Segment;
use crate::*;
use files::{bytes_of, file_of, header, load};
use std::alloc::Global;
use std::test::Fail;

const OK: u8 = 0;

/// The rule that refuses the file, or `OK`.
fn answer(alloc: Global, file: &[u8]) -> Result<u8, Fail> {
    match plan(alloc, file, 0) {
        Ok(_) => Ok(OK),
        Err(ImageFault::Rule(rule)) => Ok(rule),
        Err(ImageFault::NoMemory) => Err("there is memory")?,
    }
}

/// The image of the file, which must be one.
fn image(alloc: Global, file: &[u8], raw_at: u64) -> Result<Image, Fail> {
    match plan(alloc, file, raw_at) {
        Ok(image) => Ok(image),
        Err(_) => Err("it is an image")?,
    }
}

#[test]
fn other_machines(rt: HostRuntime) -> Result<(), Fail> {
    for (class, order, kind, machine, row_size, count, want) in [
        (1, 2, 2, 20, 32, 1, OK),
        (0, 2, 2, 20, 32, 1, 1),
        (2, 2, 2, 20, 32, 1, 1),
        (1, 1, 2, 20, 32, 1, 1),
        (1, 3, 2, 20, 32, 1, 1),
        (1, 2, 1, 20, 32, 1, 1),
        (1, 2, 3, 20, 32, 1, OK),
        (1, 2, 4, 20, 32, 1, 1),
        (1, 2, 0x0200, 20, 32, 1, 1),
        (1, 2, 2, 19, 32, 1, 1),
        (1, 2, 2, 21, 32, 1, 1),
        (1, 2, 2, 20, 31, 1, 1),
        (1, 2, 2, 20, 33, 1, 1),
        (1, 2, 2, 20, 32, 0, 1),
        (1, 2, 2, 20, 32, 64, OK),
        (1, 2, 2, 20, 32, 65, 1),
    ] {
        let header = Header {
            class,
            order,
            kind,
            machine,
            row_size,
            ..header(count)
        };
        let file = file_of(
            rt.alloc(),
            &header,
            &[load(52, 0xC000_0000, 0, 28, 64)],
            64 * 32,
        )?;
        assert_eq!(rt;
            answer(rt.alloc(), &file)?,
            want,
            "{class} {order} {kind} {machine} {row_size} {count}"
        );
    }
    Ok(())
}

#[test]
fn beginnings_of_a_file(rt: HostRuntime) -> Result<(), Fail> {
    for (len, want) in [
        // the mark is cut, so it is a raw file
        (0, OK),
        (3, OK),
        // the header is, and then the table
        (4, 1),
        (51, 1),
        (52, 2),
        (83, 2),
        (84, OK),
    ] {
        let mut file = file_of(
            rt.alloc(),
            &header(1),
            &[load(0, 0xC000_0000, 0, 28, 64)],
            0,
        )?;
        file.truncate(len);
        assert_eq!(rt; answer(rt.alloc(), &file)?, want, "{len}");
    }
    Ok(())
}

#[test]
fn segments_outside_the_file(rt: HostRuntime) -> Result<(), Fail> {
    for (kind, from, len, total, want) in [
        (1, 116, 28, 64, OK),
        (1, 117, 28, 64, 2),
        (1, 116, 29, 64, 2),
        (1, 116, 28, 28, OK),
        (1, 116, 28, 27, 2),
        (1, 0, 65, 64, 2),
        // without bytes of the file it lies anywhere
        (1, 145, 0, 64, OK),
        (1, 0xFFFF_FFFF, 0, 64, OK),
        (1, 145, 1, 64, 2),
        // sums over 2^32
        (1, 0xFFFF_FFFF, 1, 64, 2),
        (1, 0xFFFF_FFF0, 0x20, 64, 2),
        (1, 0xFFFF_FFFF, 0xFFFF_FFFF, 0xFFFF_FFFF, 2),
        // it isn't loaded
        (0, 117, 28, 27, OK),
        (6, 117, 28, 27, OK),
    ] {
        let sound = load(116, 0xC000_0000, 0, 28, 64);
        let segment = Segment {
            kind,
            ..load(from, 0x1000, 0x1000, len, total)
        };
        let file = file_of(rt.alloc(), &header(2), &[sound, segment], 28)?;
        assert_eq!(rt;
            answer(rt.alloc(), &file)?,
            want,
            "{kind} {from:#x} {len:#x} {total:#x}"
        );
    }
    Ok(())
}

#[test]
fn tables_outside_the_file(rt: HostRuntime) -> Result<(), Fail> {
    for (table_at, count, want) in [
        (52, 1, OK),
        // up to the last byte, where all is 0 and nothing is loaded
        (112, 1, 3),
        (113, 1, 2),
        (52, 2, OK),
        (52, 3, 2),
        // sums over 2^32
        (0xFFFF_FFE0, 1, 2),
        (0xFFFF_FFFF, 64, 2),
    ] {
        let header = Header {
            table_at,
            ..header(count)
        };
        let file = file_of(rt.alloc(), &header, &[load(0, 0xC000_0000, 0, 28, 64)], 60)?;
        assert_eq!(rt; answer(rt.alloc(), &file)?, want, "{table_at:#x} {count}");
    }
    Ok(())
}

#[test]
fn entries(rt: HostRuntime) -> Result<(), Fail> {
    for (virtual_at, at, total, entry, want) in [
        (0xC000_0000, 0, 64, 0xBFFF_FFFF, None),
        (0xC000_0000, 0, 64, 0xC000_0000, Some(0u64)),
        (0xC000_0000, 0, 64, 0xC000_003F, Some(0x3F)),
        (0xC000_0000, 0, 64, 0xC000_0040, None),
        (0xC000_0000, 0x1_0000, 64, 0xC000_0020, Some(0x1_0020)),
        // no byte of it is there
        (0xC000_0000, 0, 0, 0xC000_0000, None),
        // up to the last address, and over it
        (0xFFFF_FFC0, 0, 64, 0xFFFF_FFFF, Some(0x3F)),
        (0xFFFF_FFF0, 0, 64, 0x2F, None),
        (0x1000, 0xFFFF_FFFF, 64, 0x1001, Some(0x1_0000_0000)),
        (
            0,
            0xFFFF_FFFF,
            0xFFFF_FFFF,
            0xFFFF_FFFE,
            Some(0x1_FFFF_FFFD),
        ),
    ] {
        let header = Header { entry, ..header(1) };
        let file = file_of(rt.alloc(), &header, &[load(0, virtual_at, at, 0, total)], 0)?;
        match want {
            Some(entry) => assert_eq!(rt;
                image(rt.alloc(), &file, 0)?.entry,
                entry,
                "{virtual_at:#x}"
            ),
            None => assert_eq!(rt; answer(rt.alloc(), &file)?, 3, "{virtual_at:#x} {entry:#x}"),
        }
    }
    Ok(())
}

/// Segments out of order, two that overlap, one without bytes, two that aren't loaded; the second and the last but one have
/// the entry.
fn segments() -> [Segment; 7] {
    [
        Segment {
            kind: 4,
            ..load(0xFFFF_FFFF, 0xC000_0000, 0x9000, 99, 1)
        },
        load(84, 0xC000_0000, 0x2000, 28, 64),
        load(84, 0xD000_0000, 0x1000, 0, 0),
        load(52, 0xE000_0000, 0x1000, 32, 32),
        load(0xFFFF_FFFF, 0xF000_0000, 0x1010, 0, 0xFFFF_FFFF),
        load(60, 0xBFFF_FFF0, 0x3000, 8, 64),
        Segment {
            kind: 0x100_0000,
            ..load(0, 0xC000_0000, 0, 4, 4)
        },
    ]
}

/// The piece of these numbers.
fn piece(at: u64, from: usize, len: usize, total: u64) -> PlanPiece {
    PlanPiece {
        at,
        from,
        len,
        total,
    }
}

#[test]
fn pieces(rt: HostRuntime) -> Result<(), Fail> {
    let file = file_of(rt.alloc(), &header(7), &segments(), 0)?;
    let image = image(rt.alloc(), &file, 0x7000)?;
    assert_eq!(rt; image.entry, 0x2000);
    let want = [
        piece(0x2000, 84, 28, 64),
        piece(0x1000, 52, 32, 32),
        piece(0x1010, 0xFFFF_FFFF, 0, 0xFFFF_FFFF),
        piece(0x3000, 60, 8, 64),
    ];
    assert_eq!(rt; image.pieces.as_slice(), want.as_slice());
    Ok(())
}

#[test]
fn packed_files(rt: HostRuntime) -> Result<(), Fail> {
    for (word, len, want) in [
        (0x2705_1956, 4, 1),
        (0x2705_1957, 4, OK),
        (0x2705_1956, 3, OK),
        (0x1F8B_0800, 4, 1),
        (0x1F8B_0800, 2, 1),
        (0x1F8B_0800, 1, OK),
        (0x1F8C_0800, 4, OK),
        (0x001F_8B08, 4, OK),
    ] {
        let mut file = bytes_of(rt.alloc(), &[word])?;
        file.truncate(len);
        assert_eq!(rt; answer(rt.alloc(), &file)?, want, "{word:#x} {len}");
    }
    Ok(())
}

#[test]
fn raw_files(rt: HostRuntime) -> Result<(), Fail> {
    for (word, len, raw_at) in [
        (0x7F45_4C46, 0, 0),
        (0x7F45_4C46, 1, 0x1000),
        (0x7F45_4C46, 2, 0xF_FFFF_F000),
        (0x7F45_4C46, 3, 0xFFFF_FFFF_FFFF_FFFF),
        (0x7F45_4C47, 4, 0x1_0000_0000),
        (0x4800_0000, 4, 0),
    ] {
        let mut file = bytes_of(rt.alloc(), &[word])?;
        file.truncate(len);
        let image = image(rt.alloc(), &file, raw_at)?;
        assert_eq!(rt; image.entry, raw_at);
        assert_eq!(rt;
            image.pieces.as_slice(),
            [piece(raw_at, 0, len, len as u64)].as_slice()
        );
    }
    Ok(())
}

#[test]
fn room_behind_the_file(rt: HostRuntime) -> Result<(), Fail> {
    for (entry, len, want) in [
        (0xC000_0000, 28, OK),
        (0xC000_0040, 28, 3),
        (0xC000_0000, 65, 2),
    ] {
        let header = Header { entry, ..header(1) };
        let file = file_of(
            rt.alloc(),
            &header,
            &[load(84, 0xC000_0000, 0, len, 64)],
            28,
        )?;
        assert_eq!(rt; answer(rt.alloc(), &file)?, want, "{entry:#x} {len}");
    }
    Ok(())
}

/// What `readelf -l` lists of `examples/elf/hello.elf`: the entry 0xc0000000, and one segment, LOAD 0x000054 0xc0000000
/// 0x00000000 0x0001c 0x00040.
#[test]
fn a_linked_file(rt: HostRuntime) -> Result<(), Fail> {
    let file = bytes_of(rt.alloc(), &HELLO)?;
    let image = image(rt.alloc(), &file, 0)?;
    assert_eq!(rt; image.entry, 0);
    assert_eq!(rt;
        image.pieces.as_slice(),
        [piece(0, 0x54, 0x1C, 0x40)].as_slice()
    );
    Ok(())
}
