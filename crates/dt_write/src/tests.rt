//! What no clause says: the bytes of blobs that were worked out by hand.
use super::{WriteFault, write};
use dt_model::{Node, Property, Reserve, Tree, fits};
use outside::{Bytes, NoMemory};
use std::alloc::Global;
use std::test::Fail;

/// The blob of a root without properties.
const SMALLEST: [u32; 18] = [
    0xD00D_FEED,
    72,
    56,
    72,
    40,
    17,
    16,
    0,
    0,
    16,
    0,
    0,
    0,
    0,
    1,
    0,
    2,
    9,
];

/// The words of the blob of a root with the properties `areg` and `reg`, before the strings.
const TWO_PROPERTIES: [u32; 24] = [
    0xD00D_FEED,
    105,
    56,
    96,
    40,
    17,
    16,
    0,
    9,
    40,
    0,
    0,
    0,
    0,
    1,
    0,
    3,
    0,
    0,
    3,
    0,
    5,
    2,
    9,
];

/// The words of the blob of a root `x` with a value of five bytes and a child `ab`, behind one reserved
/// range and with boot cpu 3; `x` stands in the child too.
const A_CHILD: [u32; 36] = [
    0xD00D_FEED,
    146,
    72,
    144,
    40,
    17,
    16,
    3,
    2,
    72,
    0,
    0x1000,
    0,
    0x2000,
    0,
    0,
    0,
    0,
    1,
    0,
    3,
    5,
    0,
    0x0102_0304,
    0x0500_0000,
    1,
    0x6162_0000,
    3,
    0,
    0,
    1,
    0x6300_0000,
    2,
    2,
    2,
    9,
];

fn bytes_of(alloc: Global, words: &[u32], strings: &[u8]) -> Result<Vec<u8>, NoMemory> {
    let mut bytes = Vec::new(alloc);
    for word in words {
        bytes.extend_from_slice(&word.to_be_bytes())?;
    }
    bytes.extend_from_slice(strings)?;
    Ok(bytes)
}

fn node(alloc: Global, name: &[u8]) -> Result<Node, NoMemory> {
    Ok(Node {
        name: Bytes::of(alloc, name)?,
        props: Vec::new(alloc),
        children: Vec::new(alloc),
    })
}

fn property(alloc: Global, name: &[u8], value: &[u8]) -> Result<Property, NoMemory> {
    Ok(Property {
        name: Bytes::of(alloc, name)?,
        value: Bytes::of(alloc, value)?,
    })
}

fn tree(alloc: Global, root: Node) -> Tree {
    Tree {
        reserve: Vec::new(alloc),
        boot_cpu: 0,
        root,
    }
}

#[test]
fn blobs_are_what_was_worked_out(rt: HostRuntime) -> Result<(), Fail> {
    let alloc = rt.alloc();
    let smallest = tree(alloc, node(alloc, b"")?);
    assert!(rt; fits(&smallest));
    let blob = write(alloc, &smallest)?;
    assert_eq!(rt;
        blob.as_slice(),
        bytes_of(alloc, &SMALLEST, b"")?.as_slice()
    );

    let mut root = node(alloc, b"")?;
    root.props.push(property(alloc, b"areg", b"")?)?;
    root.props.push(property(alloc, b"reg", b"")?)?;
    let two = tree(alloc, root);
    assert!(rt; fits(&two));
    let blob = write(alloc, &two)?;
    assert_eq!(rt;
        blob.as_slice(),
        bytes_of(alloc, &TWO_PROPERTIES, b"areg\0reg\0")?.as_slice()
    );
    Ok(())
}

#[test]
fn a_name_stands_once_for_all_nodes(rt: HostRuntime) -> Result<(), Fail> {
    let alloc = rt.alloc();
    let mut child = node(alloc, b"ab")?;
    child.props.push(property(alloc, b"x", b"")?)?;
    child.children.push(node(alloc, b"c")?)?;
    let mut root = node(alloc, b"")?;
    root.props
        .push(property(alloc, b"x", b"\x01\x02\x03\x04\x05")?)?;
    root.children.push(child)?;
    let mut tree = tree(alloc, root);
    tree.boot_cpu = 3;
    tree.reserve.push(Reserve {
        address: 0x1000,
        size: 0x2000,
    })?;
    assert!(rt; fits(&tree));
    let blob = write(alloc, &tree)?;
    assert_eq!(rt;
        blob.as_slice(),
        bytes_of(alloc, &A_CHILD, b"x\0")?.as_slice()
    );
    Ok(())
}

#[test]
fn the_largest_blob_is_written_and_a_larger_one_is_not(rt: HostRuntime) -> Result<(), Fail> {
    let alloc = rt.alloc();
    // Header, reserve map, the tokens' words and the string take 86 bytes beside a value without padding.
    for (length, is_written) in [(16_777_216 - 88, true), (16_777_216 - 84, false)] {
        let mut root = node(alloc, b"")?;
        root.props.push(Property {
            name: Bytes::of(alloc, b"x")?,
            value: Bytes::from_vec(vec![in alloc; 7u8; length]?),
        })?;
        let tree = tree(alloc, root);
        assert!(rt; fits(&tree));
        match write(alloc, &tree) {
            Ok(blob) => assert!(rt; is_written && blob.len() == length + 86),
            Err(fault) => assert!(rt; !is_written && fault == WriteFault::TooLarge),
        }
    }
    Ok(())
}
