//! Images and trees at the edges of the rules I4 to I7.

use crate::describe;
use crate::tests::drafts::{base_of, expect_fit, image_of, region};
use elf_image::ImageFault;
use machine_desc::Region;
use std::alloc::Global;
use std::process::Abort;
use std::test::Fail;

/// An image of one piece, with a tree.
#[derive(Clone, Copy)]
struct Case {
    cores: u32,
    tree_size: u64,
    tree_len: usize,
    entry: u64,
    at: u64,
    total: u64,
    /// The number of the rule that is broken.
    want: Option<u8>,
}

/// A case with the window from 0x8000 to 0x8fff, a tree of one byte, the entry 0, and a piece that isn't in the window.
const PLAIN: Case = Case {
    cores: 1,
    tree_size: 0x1000,
    tree_len: 1,
    entry: 0,
    at: 0,
    total: 64,
    want: None,
};

/// Private memory up to 0x10000 and on both sides of 64 MiB, and a shared page from 0x10000 on.
fn regions() -> [Region; 3] {
    [
        region(0, 0x1_0000, 0, true),
        region(0x1_0000, 0x1000, 1, false),
        region(0x3ff_f000, 0x2000, 2, true),
    ]
}

/// I4 and I5: the last bytes that are private, and the entries beside the last ones.
fn places() -> [Case; 12] {
    [
        PLAIN,
        Case {
            at: 0xffc0,
            ..PLAIN
        },
        Case {
            at: 0xffc1,
            want: Some(4),
            ..PLAIN
        },
        Case {
            at: 0x1_0000,
            total: 1,
            want: Some(4),
            ..PLAIN
        },
        Case {
            at: 0x1_0000,
            total: 0,
            ..PLAIN
        },
        Case {
            at: 0x400_0fc0,
            ..PLAIN
        },
        Case {
            entry: 2,
            want: Some(5),
            ..PLAIN
        },
        Case {
            entry: 0xfffc,
            ..PLAIN
        },
        Case {
            entry: 0x1_0000,
            want: Some(5),
            ..PLAIN
        },
        Case {
            entry: 0x3ff_fffc,
            ..PLAIN
        },
        Case {
            entry: 0x400_0000,
            want: Some(5),
            ..PLAIN
        },
        Case {
            entry: 0x1_0000_0000,
            want: Some(5),
            ..PLAIN
        },
    ]
}

/// I6 and I7: the longest trees, and pieces that touch the window.
fn windows() -> [Case; 12] {
    [
        Case {
            tree_len: 0x1000,
            ..PLAIN
        },
        Case {
            tree_len: 0x1001,
            want: Some(6),
            ..PLAIN
        },
        Case {
            cores: 2,
            tree_len: 0xe00,
            ..PLAIN
        },
        Case {
            cores: 2,
            tree_len: 0xe01,
            want: Some(6),
            ..PLAIN
        },
        Case {
            cores: 2,
            tree_size: 512,
            tree_len: 0,
            ..PLAIN
        },
        Case {
            cores: 2,
            tree_size: 511,
            tree_len: 0,
            want: Some(6),
            ..PLAIN
        },
        Case {
            at: 0x7fc0,
            ..PLAIN
        },
        Case {
            at: 0x7fc1,
            want: Some(7),
            ..PLAIN
        },
        Case {
            at: 0x8fff,
            want: Some(7),
            ..PLAIN
        },
        Case {
            at: 0x9000,
            ..PLAIN
        },
        Case {
            at: 0x8800,
            total: 0,
            ..PLAIN
        },
        Case {
            at: 0x7000,
            total: 0x4000,
            want: Some(7),
            ..PLAIN
        },
    ]
}

/// Where several rules are broken.
fn several() -> [Case; 4] {
    [
        Case {
            at: 0x1_0000,
            entry: 2,
            tree_len: 0x1001,
            want: Some(4),
            ..PLAIN
        },
        Case {
            at: 0x8000,
            entry: 2,
            tree_len: 0x1001,
            want: Some(5),
            ..PLAIN
        },
        Case {
            at: 0x8000,
            tree_len: 0x1001,
            want: Some(6),
            ..PLAIN
        },
        Case {
            at: 0x8000,
            want: Some(7),
            ..PLAIN
        },
    ]
}

/// The rule by which the case is refused.
fn refused(rt: &impl Abort, alloc: Global, case: &Case) -> Result<Option<u8>, Fail> {
    let base = base_of(alloc, &regions(), case.cores, 0x8000, case.tree_size)?;
    let image = image_of(alloc, case.entry, &[(case.at, 0, 0, case.total)])?;
    let tree = vec![in alloc; 0u8; case.tree_len]?;
    expect_fit(rt, &base, &[], &image, tree.as_slice());
    match describe(alloc, base, &[], image, tree.as_slice()) {
        Ok(_) => Ok(None),
        Err(ImageFault::Rule(number)) => Ok(Some(number)),
        Err(fault) => Err(fault)?,
    }
}

#[test]
fn places_of_pieces_and_entry(rt: HostRuntime) -> Result<(), Fail> {
    for case in &places() {
        let rule = refused(&rt, rt.alloc(), case)?;
        assert_eq!(rt; rule, case.want, "{:#x} {:#x}", case.at, case.entry);
    }
    Ok(())
}

#[test]
fn window_of_the_tree(rt: HostRuntime) -> Result<(), Fail> {
    for case in &windows() {
        let rule = refused(&rt, rt.alloc(), case)?;
        assert_eq!(rt; rule, case.want, "{:#x} {:#x}", case.at, case.tree_len);
    }
    Ok(())
}

#[test]
fn least_number_first(rt: HostRuntime) -> Result<(), Fail> {
    for case in &several() {
        let rule = refused(&rt, rt.alloc(), case)?;
        assert_eq!(rt; rule, case.want);
    }
    Ok(())
}
