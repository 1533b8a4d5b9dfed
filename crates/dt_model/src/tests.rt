//! What no clause says: the limits at their edges, and values worked out by hand.

use super::*;
use outside::{Bytes, NoMemory};
use std::alloc::Global;
use std::test::Fail;

fn property(alloc: Global, name: &[u8], value: &[u8]) -> Result<Property, NoMemory> {
    Ok(Property {
        name: Bytes::of(alloc, name)?,
        value: Bytes::of(alloc, value)?,
    })
}

fn node(
    alloc: Global,
    name: &[u8],
    props: Vec<Property>,
    children: Vec<Node>,
) -> Result<Node, NoMemory> {
    Ok(Node {
        name: Bytes::of(alloc, name)?,
        props,
        children,
    })
}

fn leaf(alloc: Global, name: &[u8]) -> Result<Node, NoMemory> {
    node(alloc, name, Vec::new(alloc), Vec::new(alloc))
}

fn tree_of(alloc: Global, root: Node) -> Tree {
    Tree {
        reserve: Vec::new(alloc),
        boot_cpu: 0,
        root,
    }
}

fn with_children(alloc: Global, names: &[&[u8]]) -> Result<Tree, NoMemory> {
    let mut children = Vec::new(alloc);
    for name in names {
        children.push(leaf(alloc, name)?)?;
    }
    Ok(tree_of(alloc, node(alloc, b"", Vec::new(alloc), children)?))
}

fn with_properties(alloc: Global, names: &[&[u8]]) -> Result<Tree, NoMemory> {
    let mut props = Vec::new(alloc);
    for name in names {
        props.push(property(alloc, name, b"")?)?;
    }
    Ok(tree_of(alloc, node(alloc, b"", props, Vec::new(alloc))?))
}

/// A root with nodes below one another, so many levels in all.
fn with_levels(alloc: Global, levels: u32) -> Result<Tree, NoMemory> {
    let mut lowest = leaf(alloc, b"n")?;
    for _ in 2..levels {
        let children = vec![in alloc; lowest]?;
        lowest = node(alloc, b"n", Vec::new(alloc), children)?;
    }
    let children = vec![in alloc; lowest]?;
    Ok(tree_of(alloc, node(alloc, b"", Vec::new(alloc), children)?))
}

fn with_reserve(alloc: Global, entries: &[Reserve]) -> Result<Tree, NoMemory> {
    let mut tree = tree_of(alloc, leaf(alloc, b"")?);
    tree.reserve.extend_from_slice(entries)?;
    Ok(tree)
}

/// The names `aa`, `ab` and so on up to `pp`.
fn name_of(i: u8) -> [u8; 2] {
    [b'a' + i / 16, b'a' + i % 16]
}

/// A node with 256 leaves.
fn with_leaves(alloc: Global, name: &[u8]) -> Result<Node, NoMemory> {
    let mut children = Vec::new(alloc);
    for i in 0..=255u8 {
        children.push(leaf(alloc, &name_of(i))?)?;
    }
    node(alloc, name, Vec::new(alloc), children)
}

/// A node with 256 properties.
fn with_many_properties(alloc: Global, name: &[u8]) -> Result<Node, NoMemory> {
    let mut props = Vec::new(alloc);
    for i in 0..=255u8 {
        props.push(property(alloc, &name_of(i), b"")?)?;
    }
    node(alloc, name, props, Vec::new(alloc))
}

#[test]
fn names_that_fit(rt: HostRuntime) -> Result<(), Fail> {
    let alloc = rt.alloc();
    let longest = vec![in alloc; b'a'; 255]?;
    let too_long = vec![in alloc; b'a'; 256]?;
    assert!(rt; fits(&with_children(alloc, &[b"a,._+-@Z09", &longest])?));
    assert!(rt; fits(&with_properties(alloc, &[b"a,._+?#-Z09", &longest])?));
    let bad: [&[u8]; 6] = [b"", b",a", b"a/b", b"a b", b"a\x00", &too_long];
    for name in &bad {
        assert!(rt; !fits(&with_children(alloc, &[name])?), "child {name:?}");
        assert!(rt;
            !fits(&with_properties(alloc, &[name])?),
            "property {name:?}"
        );
    }
    assert!(rt; !fits(&with_children(alloc, &[b"a?"])?));
    assert!(rt; !fits(&with_children(alloc, &[b"a#"])?));
    assert!(rt; !fits(&with_properties(alloc, &[b"a@"])?));
    Ok(())
}

#[test]
fn a_root_has_no_name(rt: HostRuntime) -> Result<(), Fail> {
    let alloc = rt.alloc();
    assert!(rt; fits(&tree_of(alloc, leaf(alloc, b"")?)));
    assert!(rt; !fits(&tree_of(alloc, leaf(alloc, b"a")?)));
    Ok(())
}

#[test]
fn names_are_told_apart(rt: HostRuntime) -> Result<(), Fail> {
    let alloc = rt.alloc();
    assert!(rt; fits(&with_children(alloc, &[b"a", b"b", b"ab"])?));
    assert!(rt; !fits(&with_children(alloc, &[b"a", b"b", b"a"])?));
    assert!(rt; fits(&with_properties(alloc, &[b"a", b"b", b"ab"])?));
    assert!(rt; !fits(&with_properties(alloc, &[b"a", b"b", b"a"])?));
    Ok(())
}

#[test]
fn thirty_two_levels_fit(rt: HostRuntime) -> Result<(), Fail> {
    let alloc = rt.alloc();
    assert!(rt; fits(&with_levels(alloc, 32)?));
    assert!(rt; !fits(&with_levels(alloc, 33)?));
    Ok(())
}

#[test]
fn entries_that_fit(rt: HostRuntime) -> Result<(), Fail> {
    let alloc = rt.alloc();
    let entry = Reserve {
        address: 0,
        size: 1,
    };
    let other = Reserve {
        address: 1,
        size: 0,
    };
    let zeros = Reserve {
        address: 0,
        size: 0,
    };
    assert!(rt; fits(&with_reserve(alloc, &[entry, other, entry])?));
    assert!(rt; !fits(&with_reserve(alloc, &[entry, zeros])?));
    let mut most = vec![in alloc; entry; 1024]?;
    assert!(rt; fits(&with_reserve(alloc, &most)?));
    most.push(entry)?;
    assert!(rt; !fits(&with_reserve(alloc, &most)?));
    Ok(())
}

#[test]
fn many_nodes_fit(rt: HostRuntime) -> Result<(), Fail> {
    let alloc = rt.alloc();
    let mut children = Vec::new(alloc);
    for i in 0..255u8 {
        children.push(with_leaves(alloc, &name_of(i))?)?;
    }
    // The root, 255 nodes and 256 in each of them: 65,536.
    let mut tree = tree_of(alloc, node(alloc, b"", Vec::new(alloc), children)?);
    assert!(rt; fits(&tree));
    tree.root.children.push(leaf(alloc, b"one-more")?)?;
    assert!(rt; !fits(&tree));
    Ok(())
}

#[test]
fn many_properties_fit(rt: HostRuntime) -> Result<(), Fail> {
    let alloc = rt.alloc();
    let mut children = Vec::new(alloc);
    for i in 0..=255u8 {
        children.push(with_many_properties(alloc, &name_of(i))?)?;
    }
    // 256 nodes with 256 properties each: 65,536.
    let mut tree = tree_of(alloc, node(alloc, b"", Vec::new(alloc), children)?);
    assert!(rt; fits(&tree));
    tree.root.props.push(property(alloc, b"one-more", b"")?)?;
    assert!(rt; !fits(&tree));
    Ok(())
}

/// `/` with the children `a` and `b`; `/a` with `c`; `/a/c` and `/b` have the phandle 7, `/a` has the phandle 0.
fn sample(alloc: Global) -> Result<Tree, NoMemory> {
    let seven = [0, 0, 0, 7];
    let inner = node(
        alloc,
        b"c",
        vec![in alloc; property(alloc, b"phandle", &seven)?]?,
        Vec::new(alloc),
    )?;
    let first = node(
        alloc,
        b"a",
        vec![in alloc;
            property(alloc, b"phandle", &[0; 4])?,
            property(alloc, b"reg", b"x")?,
            property(alloc, b"reg", b"y")?,
        ]?,
        vec![in alloc; inner]?,
    )?;
    let second = node(
        alloc,
        b"b",
        vec![in alloc; property(alloc, b"phandle", &seven)?]?,
        Vec::new(alloc),
    )?;
    Ok(tree_of(
        alloc,
        node(alloc, b"", Vec::new(alloc), vec![in alloc; first, second]?)?,
    ))
}

#[test]
fn nodes_are_found(rt: HostRuntime) -> Result<(), Fail> {
    let alloc = rt.alloc();
    let tree = sample(alloc)?;
    let found: [(&[u8], &[u8]); 4] = [(b"/", b""), (b"/a", b"a"), (b"/a/c", b"c"), (b"/b", b"b")];
    for (path, name) in found {
        let node = node_at(&tree, path).ok_or("the node stands there")?;
        assert_eq!(rt; node.name.as_slice(), name);
    }
    let absent: [&[u8]; 8] = [b"", b"a", b"/c", b"/a/", b"//", b"/a/c/", b"/ab", b"/a/b"];
    for path in absent {
        assert!(rt; node_at(&tree, path).is_none(), "{path:?}");
    }
    Ok(())
}

#[test]
fn phandles_are_found(rt: HostRuntime) -> Result<(), Fail> {
    let alloc = rt.alloc();
    let tree = sample(alloc)?;
    let seven = find_phandle(&tree, 7).ok_or("a node has it")?;
    assert_eq!(rt; seven.name.as_slice(), b"c".as_slice());
    let zero = find_phandle(&tree, 0).ok_or("a node has it")?;
    assert_eq!(rt; zero.name.as_slice(), b"a".as_slice());
    assert_eq!(rt;
        prop(zero, b"reg").ok_or("it stands there")?,
        b"x".as_slice()
    );
    assert!(rt; prop(zero, b"re").is_none());
    assert!(rt; find_phandle(&tree, 8).is_none());
    Ok(())
}

#[test]
fn values_are_read(rt: HostRuntime) -> Result<(), Fail> {
    let alloc = rt.alloc();
    assert_eq!(rt; u32_of(&[1, 2, 3, 4]), Some(0x0102_0304));
    assert_eq!(rt; u32_of(&[1, 2, 3]), None);
    assert_eq!(rt; u32_of(&[0; 8]), None);
    assert_eq!(rt;
        u64_of(&[1, 2, 3, 4, 5, 6, 7, 8]),
        Some(0x0102_0304_0506_0708)
    );
    assert_eq!(rt; u64_of(&[0; 4]), None);
    assert_eq!(rt; text_of(b" a~\x00").ok_or("a text")?, b" a~".as_slice());
    let mut longest = vec![in alloc; b'a'; 255]?;
    longest.push(0)?;
    assert!(rt; text_of(&longest).is_some());
    let mut too_long = vec![in alloc; b'a'; 256]?;
    too_long.push(0)?;
    let bad: [&[u8]; 7] = [
        b"",
        b"\x00",
        b"a",
        b"a\x00b\x00",
        b"a\x1f\x00",
        b"a\x7f\x00",
        &too_long,
    ];
    for value in bad {
        assert!(rt; text_of(value).is_none(), "{value:?}");
    }
    Ok(())
}
