//! What no clause says: that calls succeed where memory is ample, and what is drawn, which a program of its own worked
//! out.

use super::generate;
use dt_model::Node;
use outside::NamedFile;
use std::alloc::Global;
use std::process::Abort;
use std::test::Fail;

/// A number, where its partitions begin to count, and the first of its turns.
struct Case {
    number: u64,
    starts: &'static [u32],
    turns: &'static [u8],
}

const CASES: [Case; 8] = [
    Case {
        number: 5,
        starts: &[29853, 17338],
        turns: b" 1 1 1 1 1 0 0 1",
    },
    Case {
        number: 1,
        starts: &[17241, 28876, 10982],
        turns: b" 0 2 2 1 0 1 0 1",
    },
    Case {
        number: 0,
        starts: &[30472, 15377, 3444, 9837],
        turns: b" 3 0 3 0 3 3 2 2",
    },
    Case {
        number: 3,
        starts: &[23547, 23107, 26058, 25908, 17315],
        turns: b" 0 0 4 4 3 2 1 4",
    },
    Case {
        number: 6,
        starts: &[16622, 30837, 15903, 9212, 18347, 12038],
        turns: b" 0 4 3 5 4 4 4 1",
    },
    Case {
        number: 9,
        starts: &[9697, 5800, 5748, 25283, 19379, 25004, 4723],
        turns: b" 0 6 4 3 5 2 3 0",
    },
    Case {
        number: 2,
        starts: &[4010, 9608, 18520, 20551, 16971, 27516, 5670, 7281],
        turns: b" 2 7 2 2 2 0 2 2",
    },
    Case {
        number: u64::MAX,
        starts: &[10935, 1877, 28674, 4480, 15939, 14549, 20119],
        turns: b" 6 0 2 2 1 1 3 5",
    },
];

/// The images are those of partitions that count from there.
fn assert_images(rt: &impl Abort, images: &[NamedFile], starts: &[u32]) -> Result<(), Fail> {
    assert_eq!(rt; images.len(), starts.len());
    for (image, start) in images.iter().zip(starts) {
        let bytes = image.bytes.as_slice();
        assert_eq!(rt; bytes.len(), 84);
        let word = 0x39C0_0000u32.checked_add(*start).ok_or("a large start")?;
        assert_eq!(rt; &bytes[..4], word.to_be_bytes().as_slice());
        assert_eq!(rt; &bytes[80..], [0x4B, 0xFF, 0xFF, 0xB4].as_slice());
    }
    Ok(())
}

/// The script is an `order` of 64 turns, and begins with these.
fn assert_script(rt: &impl Abort, script: &[u8], turns: &[u8]) {
    assert_eq!(rt; script.len(), 134);
    assert_eq!(rt; &script[..5], b"order".as_slice());
    assert_eq!(rt; &script[5..21], turns);
}

/// The root has so many children, and one of them so many below it.
fn assert_root(rt: &impl Abort, root: &Node, lists: usize, longest: usize, count: usize) {
    assert_eq!(rt; root.children.len(), lists);
    assert!(rt; longest < lists);
    assert_eq!(rt; root.children[longest].children.len(), count);
}

/// The number makes what the case says.
fn assert_case(rt: &impl Abort, alloc: Global, case: &Case) -> Result<(), Fail> {
    let bundle = generate(alloc, case.number)?;
    let count = case.starts.len();
    assert_images(rt, bundle.images.as_slice(), case.starts)?;
    assert_script(rt, bundle.script.as_slice(), case.turns);
    assert_root(rt, &bundle.config.root, 3, 2, count);
    assert_root(rt, &bundle.hardware.root, 2, 0, count);
    Ok(())
}

#[test]
fn numbers_make_bundles(rt: HostRuntime) -> Result<(), Fail> {
    for case in &CASES {
        assert_case(&rt, rt.alloc(), case)?;
    }
    Ok(())
}
