//! What no clause says: blobs worked out by hand, each cut and each rule.

use super::*;
use dt_model::{fits, prop};
use std::alloc::Global;
use std::test::Fail;

/// The smallest blob: an empty reserve map, no strings, and a root without properties and children.
const SMALLEST: [u32; 18] = [
    0xd00d_feed,
    0x48,
    0x38,
    0x48,
    0x28,
    0x11,
    0x10,
    0,
    0,
    0x10,
    0,
    0,
    0,
    0,
    1,
    0,
    2,
    9,
];

const OK: u8 = 0;

/// The number of the rule that refuses the bytes, or `OK`.
fn answer(alloc: Global, blob: &[u8]) -> Result<u8, Fail> {
    match read(alloc, blob) {
        Ok(tree) => {
            if fits(&tree) {
                Ok(OK)
            } else {
                Err("a tree that was read fits")?
            }
        }
        Err(BlobFault::Rule(rule)) => Ok(rule),
        Err(BlobFault::NoMemory) => Err("there is memory")?,
    }
}

fn push_word(out: &mut Vec<u8>, word: u32) -> Result<(), Fail> {
    out.extend_from_slice(&word.to_be_bytes())?;
    Ok(())
}

fn bytes_of(alloc: Global, words: &[u32]) -> Result<Vec<u8>, Fail> {
    let mut out = Vec::new(alloc);
    for word in words {
        push_word(&mut out, *word)?;
    }
    Ok(out)
}

fn size(bytes: &[u8]) -> Result<u32, Fail> {
    Ok(u32::try_from(bytes.len())?)
}

fn sum(a: u32, b: u32) -> Result<u32, Fail> {
    Ok(a.checked_add(b).ok_or("the sizes are small")?)
}

/// A blob with this reserve map at 40, this structure behind it and these strings behind that.
fn blob_with(
    alloc: Global,
    reserve: &[u8],
    structure: &[u8],
    strings: &[u8],
) -> Result<Vec<u8>, Fail> {
    let structure_at = sum(40, size(reserve)?)?;
    let strings_at = sum(structure_at, size(structure)?)?;
    let total = sum(strings_at, size(strings)?)?;
    let mut out = bytes_of(
        alloc,
        &[
            0xd00d_feed,
            total,
            structure_at,
            strings_at,
            40,
            17,
            16,
            0,
            size(strings)?,
            size(structure)?,
        ],
    )?;
    out.extend_from_slice(reserve)?;
    out.extend_from_slice(structure)?;
    out.extend_from_slice(strings)?;
    Ok(out)
}

/// The answer to a structure of words, with these strings.
fn answer_to(alloc: Global, words: &[u32], strings: &[u8]) -> Result<u8, Fail> {
    let structure = bytes_of(alloc, words)?;
    answer(alloc, &blob_with(alloc, &[0; 16], &structure, strings)?)
}

#[test]
fn every_cut_of_the_smallest_blob(rt: HostRuntime) -> Result<(), Fail> {
    let alloc = rt.alloc();
    let whole = bytes_of(alloc, &SMALLEST)?;
    assert_eq!(rt; whole.len(), 72);
    for cut in 0..72usize {
        let rule = if cut < 40 { 1 } else { 4 };
        assert_eq!(rt; answer(alloc, &whole[..cut])?, rule, "cut to {cut}");
    }
    assert_eq!(rt; answer(alloc, &whole)?, OK);
    // What lies behind the total size is ignored.
    let mut longer = whole;
    longer.push(0xff)?;
    assert_eq!(rt; answer(alloc, &longer)?, OK);
    Ok(())
}

/// Words of the smallest blob, counted from 1, changed to a value, and the answer.
const CHANGES: [(usize, u32, u8); 84] = [
    (1, 0, 2),
    (1, 1, 2),
    (1, 0xffff_ffff, 2),
    (1, 0xd00d_feec, 2),
    (1, 0xd00d_feee, 2),
    (2, 0, 4),
    (2, 1, 4),
    (2, 0xffff_ffff, 4),
    (2, 0x27, 4),
    (2, 0x47, 5),
    (2, 0x49, 4),
    (3, 0, 5),
    (3, 1, 5),
    (3, 0xffff_ffff, 5),
    (3, 0x37, 5),
    (3, 0x39, 5),
    (3, 0x3a, 5),
    (3, 0x34, 7),
    (3, 0x3c, 5),
    (3, 0xffff_fffc, 5),
    (4, 0, 5),
    (4, 1, 5),
    (4, 0xffff_ffff, 5),
    (4, 0x27, 5),
    (4, 0x28, OK),
    (4, 0x47, OK),
    (4, 0x49, 5),
    (5, 0, 5),
    (5, 1, 5),
    (5, 0xffff_ffff, 5),
    (5, 0x20, 5),
    (5, 0x27, 5),
    (5, 0x29, 5),
    (5, 0x2c, 5),
    (5, 0x30, 6),
    (5, 0x38, 6),
    (5, 0x40, 6),
    (5, 0x48, 6),
    (5, 0x50, 6),
    (5, 0xffff_fff8, 6),
    (6, 0, 3),
    (6, 1, 3),
    (6, 0x10, 3),
    (6, 0x12, OK),
    (6, 0xffff_ffff, OK),
    (7, 0, OK),
    (7, 1, OK),
    (7, 0xf, OK),
    (7, 0x11, OK),
    (7, 0x12, 3),
    (7, 0xffff_ffff, 3),
    (8, 1, OK),
    (8, 0xffff_ffff, OK),
    (9, 1, 5),
    (9, 0xffff_ffff, 5),
    (10, 0, 7),
    (10, 1, 7),
    (10, 0xc, 7),
    (10, 0xf, 7),
    (10, 0x11, 5),
    (10, 0xffff_ffff, 5),
    (11, 1, 6),
    (12, 1, 6),
    (13, 1, 6),
    (14, 1, 6),
    (15, 0, 7),
    (15, 2, 11),
    (15, 3, 8),
    (15, 4, 7),
    (15, 5, 7),
    (15, 9, 11),
    (15, 0xffff_ffff, 7),
    (16, 0x6100_0000, 11),
    (16, 1, 9),
    (16, 0x6161_6161, 9),
    (17, 1, 9),
    (17, 4, 12),
    (17, 9, 12),
    (18, 0, 7),
    (18, 1, 9),
    (18, 2, 11),
    (18, 3, 7),
    (18, 4, 7),
    (18, 0xffff_ffff, 7),
];

#[test]
fn every_changed_word_of_the_smallest_blob(rt: HostRuntime) -> Result<(), Fail> {
    let alloc = rt.alloc();
    for (word, value, rule) in CHANGES {
        let mut words = SMALLEST;
        assert!(rt; 1 <= word && word <= 18);
        words[word - 1] = value;
        let blob = bytes_of(alloc, &words)?;
        assert_eq!(rt; answer(alloc, &blob)?, rule, "word {word} = {value:08x}");
    }
    Ok(())
}

const A: u32 = 0x6100_0000;

const B: u32 = 0x6200_0000;

#[test]
fn properties_share_a_string(rt: HostRuntime) -> Result<(), Fail> {
    let alloc = rt.alloc();
    let structure = bytes_of(alloc, &[1, 0, 4, 3, 0, 0, 3, 0, 1, 2, 9])?;
    let blob = blob_with(alloc, &[0; 16], &structure, b"areg\x00")?;
    let tree = read(alloc, &blob)?;
    assert_eq!(rt; tree.root.props.len(), 2);
    assert!(rt; prop(&tree.root, b"areg").is_some());
    assert!(rt; prop(&tree.root, b"reg").is_some());
    Ok(())
}

#[test]
fn a_tree_is_read_whole(rt: HostRuntime) -> Result<(), Fail> {
    let alloc = rt.alloc();
    // NOPs before each kind of token, a value with padding, and bytes behind END.
    let structure = bytes_of(
        alloc,
        &[
            4,
            1,
            0,
            4,
            3,
            5,
            0,
            0x0102_0304,
            0x0500_0000,
            4,
            1,
            A,
            4,
            2,
            1,
            B,
            2,
            4,
            2,
            4,
            4,
            9,
            7,
        ],
    )?;
    let mut reserve = bytes_of(alloc, &[1, 2, 3, 4])?;
    reserve.extend_from_slice(&[0; 16])?;
    let tree = read(alloc, &blob_with(alloc, &reserve, &structure, b"reg\x00")?)?;
    assert_eq!(rt; tree.reserve.len(), 1);
    for entry in &tree.reserve {
        assert_eq!(rt; entry.address, 0x1_0000_0002);
        assert_eq!(rt; entry.size, 0x3_0000_0004);
    }
    assert_eq!(rt;
        prop(&tree.root, b"reg").ok_or("it stands there")?,
        [1, 2, 3, 4, 5].as_slice()
    );
    assert_eq!(rt; tree.root.children.len(), 2);
    let names: [&[u8]; 2] = [b"a", b"b"];
    for (child, name) in tree.root.children.iter().zip(&names) {
        assert_eq!(rt; child.name.as_slice(), *name);
    }
    Ok(())
}

#[test]
fn one_fault_for_each_rule_of_a_token(rt: HostRuntime) -> Result<(), Fail> {
    let alloc = rt.alloc();
    let strings = b"a\x00b\x00a@\x00,a\x00\x00x";
    let cases: [(&[u32], u8); 33] = [
        (&[1, 0, 3, 0, 0, 2, 9], OK),
        // B7: a token is unknown or cut, or a value's padding isn't zero.
        (&[1, 0, 7, 2, 9], 7),
        (&[1, 0, 3, 0], 7),
        (&[1, 0, 3, 4, 0, 5], 7),
        (&[1, 0, 3, 5, 0, 5, 0x6100_0001, 2, 9], 7),
        (&[1, 0, 3, 1, 0, 0x0500_0001, 2, 9], 7),
        (&[1, 0, 3, 9, 0, 2, 9], 7),
        (&[1, 0, 3, 0xffff_ffff, 0, 2, 9], 7),
        (&[1, 0, 2], 7),
        // B8: the strings have no string there.
        (&[1, 0, 3, 0, 11, 2, 9], 8),
        (&[1, 0, 3, 0, 12, 2, 9], 8),
        (&[1, 0, 3, 0, 0xffff_ffff, 2, 9], 8),
        // B7 comes before B8.
        (&[1, 0, 3, 1, 12, 1, 2, 9], 7),
        // B9: a name is wrong.
        (&[1, 0, 3, 0, 4, 2, 9], 9),
        (&[1, 0, 3, 0, 7, 2, 9], 9),
        (&[1, 0, 3, 0, 10, 2, 9], 9),
        (&[1, 0, 1, 0, 2, 2, 9], 9),
        (&[1, 0, 1, 0x6120_0000, 2, 2, 9], 9),
        (&[1, 0, 1, 0x2c61_0000, 2, 2, 9], 9),
        (&[1, 0, 1, 0x6100_0001, 2, 2, 9], 9),
        (&[1, 0, 1, 0x6161_6161], 9),
        (&[1, 0, 2, 1, 0, 2, 9], 9),
        // B11: what stands before the root or behind it.
        (&[4, 3, 0, 0, 1, 0, 2, 9], 11),
        (&[1, 0, 2, 1, A, 2, 9], 11),
        (&[1, 0, 2, 3, 0, 0, 9], 11),
        (&[1, 0, 2, 4, 2, 9], 11),
        // B12: a property behind a child, or END inside a node.
        (&[1, 0, 1, A, 2, 3, 0, 0, 2, 9], 12),
        (&[1, 0, 1, A, 2, 9], 12),
        // B14: a name comes again, also far apart, and a NOP changes nothing.
        (&[1, 0, 3, 0, 0, 3, 0, 2, 3, 0, 0, 2, 9], 14),
        (&[1, 0, 1, A, 2, 1, B, 2, 4, 1, A, 2, 2, 9], 14),
        (&[1, 0, 1, A, 2, 1, A, 2, 2, 9], 14),
        // The same names in other nodes.
        (
            &[
                1, 0, 3, 0, 0, 1, A, 3, 0, 0, 1, A, 2, 2, 1, B, 1, A, 2, 2, 2, 9,
            ],
            OK,
        ),
        (&[1, 0, 1, A, 1, A, 2, 1, B, 2, 2, 1, B, 2, 2, 4, 9, 5], OK),
    ];
    for (words, rule) in cases {
        assert_eq!(rt; answer_to(alloc, words, strings)?, rule, "{words:?}");
    }
    Ok(())
}

#[test]
fn a_node_s_padding_may_be_cut(rt: HostRuntime) -> Result<(), Fail> {
    let alloc = rt.alloc();
    // The block ends behind a name's NUL: inside the padding, also where the root has a name.
    for (name, rule) in [(0x6100_0000u32, 7u8), (0x0000_0000, 7)] {
        let mut structure = bytes_of(alloc, &[1, name])?;
        structure.truncate(7);
        let blob = blob_with(alloc, &[0; 16], &structure, b"")?;
        assert_eq!(rt; answer(alloc, &blob)?, rule, "{name:08x}");
    }
    Ok(())
}

/// A root with nodes below one another, so many levels in all.
fn levels(alloc: Global, count: u32) -> Result<u8, Fail> {
    let mut words = vec![in alloc; 1, 0]?;
    for _ in 1..count {
        words.extend_from_slice(&[1, A])?;
    }
    for _ in 0..count {
        words.push(2)?;
    }
    words.push(9)?;
    answer_to(alloc, &words, b"")
}

#[test]
fn thirty_two_levels(rt: HostRuntime) -> Result<(), Fail> {
    let alloc = rt.alloc();
    assert_eq!(rt; levels(alloc, 32)?, OK);
    assert_eq!(rt; levels(alloc, 33)?, 10);
    Ok(())
}

fn with_entries(alloc: Global, count: u32) -> Result<u8, Fail> {
    let mut reserve = Vec::new(alloc);
    for _ in 0..count {
        reserve.extend_from_slice(&[0, 0, 0, 0, 0, 0, 0, 0, 0, 0, 0, 0, 0, 0, 0, 1])?;
    }
    reserve.extend_from_slice(&[0; 16])?;
    let structure = bytes_of(alloc, &[1, 0, 2, 9])?;
    answer(alloc, &blob_with(alloc, &reserve, &structure, b"")?)
}

#[test]
fn a_thousand_and_twenty_four_entries(rt: HostRuntime) -> Result<(), Fail> {
    let alloc = rt.alloc();
    assert_eq!(rt; with_entries(alloc, 1024)?, OK);
    assert_eq!(rt; with_entries(alloc, 1025)?, 6);
    Ok(())
}

fn with_name_of(alloc: Global, length: usize) -> Result<(u8, u8), Fail> {
    let mut name = vec![in alloc; b'a'; length]?;
    name.push(0)?;
    let as_property = answer_to(alloc, &[1, 0, 3, 0, 0, 2, 9], &name)?;
    let mut structure = bytes_of(alloc, &[1, 0, 1])?;
    structure.extend_from_slice(&name)?;
    for _ in 0..3u8 {
        if structure.len() % 4 != 0 {
            structure.push(0)?;
        }
    }
    let rest = bytes_of(alloc, &[2, 2, 9])?;
    structure.extend_from_slice(&rest)?;
    let as_node = answer(alloc, &blob_with(alloc, &[0; 16], &structure, b"")?)?;
    Ok((as_property, as_node))
}

#[test]
fn names_of_255_bytes(rt: HostRuntime) -> Result<(), Fail> {
    let alloc = rt.alloc();
    assert_eq!(rt; with_name_of(alloc, 1)?, (OK, OK));
    assert_eq!(rt; with_name_of(alloc, 255)?, (OK, OK));
    assert_eq!(rt; with_name_of(alloc, 256)?, (9, 9));
    Ok(())
}

/// A name of four letters from `a` to `p` for each number below 65,536, and another for the rest.
fn name_of(i: u32) -> [u8; 4] {
    let [_, _, high, low] = i.to_be_bytes();
    if i < 65536 {
        [
            b'a' + high / 16,
            b'a' + high % 16,
            b'a' + low / 16,
            b'a' + low % 16,
        ]
    } else {
        [b'q', b'q', b'q', b'q']
    }
}

/// One node with so many properties, each of its own name.
fn with_properties(alloc: Global, count: u32) -> Result<u8, Fail> {
    let mut structure = bytes_of(alloc, &[1, 0])?;
    let mut strings = Vec::new(alloc);
    for i in 0..count {
        let at = size(&strings)?;
        structure.extend_from_slice(&[0, 0, 0, 3, 0, 0, 0, 0])?;
        push_word(&mut structure, at)?;
        strings.extend_from_slice(&name_of(i))?;
        strings.push(0)?;
    }
    push_word(&mut structure, 2)?;
    push_word(&mut structure, 9)?;
    let blob = blob_with(alloc, &[0; 16], &structure, &strings)?;
    match read(alloc, &blob) {
        Ok(_) => Ok(OK),
        Err(BlobFault::Rule(rule)) => Ok(rule),
        Err(BlobFault::NoMemory) => Err("there is memory")?,
    }
}

#[test]
fn many_properties_in_one_node(rt: HostRuntime) -> Result<(), Fail> {
    let alloc = rt.alloc();
    assert_eq!(rt; with_properties(alloc, 65536)?, OK);
    assert_eq!(rt; with_properties(alloc, 65537)?, 13);
    Ok(())
}

/// A root with so many children, each of its own name.
fn with_children(alloc: Global, count: u32) -> Result<u8, Fail> {
    let mut structure = bytes_of(alloc, &[1, 0])?;
    for i in 0..count {
        push_word(&mut structure, 1)?;
        structure.extend_from_slice(&name_of(i))?;
        structure.extend_from_slice(&[0, 0, 0, 0, 0, 0, 0, 2])?;
    }
    push_word(&mut structure, 2)?;
    push_word(&mut structure, 9)?;
    let blob = blob_with(alloc, &[0; 16], &structure, b"")?;
    match read(alloc, &blob) {
        Ok(_) => Ok(OK),
        Err(BlobFault::Rule(rule)) => Ok(rule),
        Err(BlobFault::NoMemory) => Err("there is memory")?,
    }
}

#[test]
fn many_children_of_one_node(rt: HostRuntime) -> Result<(), Fail> {
    let alloc = rt.alloc();
    assert_eq!(rt; with_children(alloc, 65535)?, OK);
    assert_eq!(rt; with_children(alloc, 65536)?, 13);
    Ok(())
}
