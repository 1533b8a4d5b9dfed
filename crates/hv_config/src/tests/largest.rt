//! The largest counts that the product takes.

use super::builder::{leaf, set, tree_of};
use crate::parse;
use dt_model::{Node, Property, Tree, fits};
use outside::{Bytes, NoMemory};
use std::alloc::Global;
use std::test::Fail;

/// The names `aa`, `ab` and so on.
fn name_of(i: u8) -> [u8; 2] {
    [b'a' + i / 16, b'a' + i % 16]
}

/// A list of so many nodes, each with these properties.
fn list(
    alloc: Global,
    name: &[u8],
    count: u8,
    values: &[(&[u8], &[u8])],
) -> Result<Node, NoMemory> {
    let mut children = Vec::new(alloc);
    for i in 0..count {
        let mut props = Vec::new(alloc);
        for (name, value) in values {
            let name = Bytes::of(alloc, name)?;
            let value = Bytes::of(alloc, value)?;
            props.push(Property { name, value })?;
        }
        children.push(Node {
            name: Bytes::of(alloc, &name_of(i))?,
            props,
            children: Vec::new(alloc),
        })?;
    }
    Ok(Node {
        name: Bytes::of(alloc, name)?,
        props: Vec::new(alloc),
        children,
    })
}

/// A number of eight bytes.
const NUMBER: &[u8] = b"\0\0\0\0\0\0\x10\0";

/// Each list with as many nodes as the product takes.
fn largest(alloc: Global) -> Result<Tree, NoMemory> {
    let mut root = leaf(alloc, "")?;
    set(alloc, &mut root, "compatible", b"topaz,config\0")?;
    let area: [(&[u8], &[u8]); 2] = [(b"base", NUMBER), (b"size", NUMBER)];
    root.children.push(list(alloc, b"areas", 64, &area)?)?;
    root.children
        .push(list(alloc, b"channels", 64, &[(b"console", b"c\0")])?)?;
    root.children.push(list(alloc, b"doorbells", 64, &[])?)?;
    let part: [(&[u8], &[u8]); 4] = [
        (b"cpus", b"\0\0\0\0"),
        (b"image", b"hi\0"),
        (b"tree-at", NUMBER),
        (b"tree-size", NUMBER),
    ];
    let mut parts = list(alloc, b"partitions", 16, &part)?;
    for node in &mut parts.children {
        node.children.push(list(alloc, b"areas", 16, &[(b"area", b"aa\0"), (b"at", NUMBER)])?)?;
        node.children.push(list(
            alloc,
            b"handles",
            64,
            &[(b"kind", b"send\0"), (b"target", b"aa\0")],
        )?)?;
    }
    root.children.push(parts)?;
    Ok(tree_of(alloc, root))
}

#[test]
fn the_largest_counts_are_read(rt: HostRuntime) -> Result<(), Fail> {
    let tree = largest(rt.alloc())?;
    assert!(rt; fits(&tree));
    let config = parse(rt.alloc(), &tree).ok().ok_or("a configuration")?;
    assert!(rt; config.areas.as_slice().len() == 64 && config.channels.as_slice().len() == 64);
    assert!(rt; config.bells.as_slice().len() == 64 && config.parts.as_slice().len() == 16);
    for part in config.parts.as_slice() {
        assert!(rt; part.areas.as_slice().len() == 16 && part.handles.as_slice().len() == 64);
    }
    Ok(())
}
