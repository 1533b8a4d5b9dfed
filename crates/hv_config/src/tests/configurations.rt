//! Configurations: each rule, and each order of two.

use super::builder::{
    Child, Edit, NoChild, NoValue, Row, Value, change_all, is_fault, leaf, node_mut, set, tree_of,
};
use crate::{Kind, parse};
use dt_model::{Tree, fits};
use std::alloc::Global;
use std::test::Fail;

/// A configuration with each list, and each property that may be there.
const BOTH: [Edit; 50] = [
    Value("/", "compatible", b"topaz,config\0"),
    Child("/", "areas"),
    Child("/areas", "a"),
    Value("/areas/a", "base", b"\0\0\0\0\0\0\0\0"),
    Value("/areas/a", "size", b"\0\0\0\0\0\x01\0\0"),
    Child("/areas", "b"),
    Value("/areas/b", "base", b"\0\0\0\0\0\x01\0\0"),
    Value("/areas/b", "size", b"\0\0\0\0\0\x01\0\0"),
    Child("/", "channels"),
    Child("/channels", "x"),
    Value("/channels/x", "console", b"cp\0"),
    Child("/channels", "y"),
    Value("/channels/y", "console", b"cq\0"),
    Child("/", "doorbells"),
    Child("/doorbells", "d"),
    Child("/", "partitions"),
    Child("/partitions", "p"),
    Value("/partitions/p", "cpus", b"\0\0\0\0"),
    Value("/partitions/p", "image", b"hi\0"),
    Value("/partitions/p", "tree-at", b"\0\0\0\0\0\0\x80\0"),
    Value("/partitions/p", "tree-size", b"\0\0\0\0\0\0\x40\0"),
    Value("/partitions/p", "image-at", b"\0\0\0\0\0\0\x10\0"),
    Value("/partitions/p", "held", b""),
    Value("/partitions/p", "bootargs", b"quiet\0"),
    Child("/partitions/p", "areas"),
    Child("/partitions/p/areas", "m"),
    Value("/partitions/p/areas/m", "area", b"a\0"),
    Value("/partitions/p/areas/m", "at", b"\0\0\0\0\0\0\0\0"),
    Child("/partitions/p", "handles"),
    Child("/partitions/p/handles", "c"),
    Value("/partitions/p/handles/c", "kind", b"channel\0"),
    Value("/partitions/p/handles/c", "target", b"x\0"),
    Child("/partitions/p/handles", "s"),
    Value("/partitions/p/handles/s", "kind", b"send\0"),
    Value("/partitions/p/handles/s", "target", b"d\0"),
    Child("/partitions", "q"),
    Value("/partitions/q", "cpus", b"\0\0\0\x01"),
    Value("/partitions/q", "image", b"hi\0"),
    Value("/partitions/q", "tree-at", b"\0\0\0\0\0\0\x80\0"),
    Value("/partitions/q", "tree-size", b"\0\0\0\0\0\0\x40\0"),
    Child("/partitions/q", "handles"),
    Child("/partitions/q/handles", "c"),
    Value("/partitions/q/handles/c", "kind", b"channel\0"),
    Value("/partitions/q/handles/c", "target", b"y\0"),
    Child("/partitions/q", "areas"),
    Child("/partitions/q/areas", "m"),
    Value("/partitions/q/areas/m", "area", b"b\0"),
    Value("/partitions/q/areas/m", "at", b"\0\0\0\0\0\0\0\0"),
    Child("/partitions/q/areas", "n"),
    Value("/partitions/q/areas/n", "area", b"a\0"),
];

/// What is left out of the list above for its length.
const REST: [Edit; 1] = [Value("/partitions/q/areas/n", "at", b"\0\0\0\0\0\x10\0\0")];

/// The configuration with the changes.
fn configuration(alloc: Global, edits: &[Edit]) -> Result<Tree, Fail> {
    let mut root = leaf(alloc, "")?;
    change_all(alloc, &mut root, &BOTH)?;
    change_all(alloc, &mut root, &REST)?;
    change_all(alloc, &mut root, edits)?;
    Ok(tree_of(alloc, root))
}

/// Whether the answer is the row's.
fn is_answer(alloc: Global, row: &Row) -> Result<bool, Fail> {
    match parse(alloc, &configuration(alloc, row.0)?) {
        Ok(_config) => Ok(row.1 == 0),
        Err(fault) => Ok(is_fault(&fault, b'C', row.1, row.2)),
    }
}

/// A text of 255 bytes, and its NUL.
const LONGEST: &[u8] =
    b"QQQQQQQQQQQQQQQQQQQQQQQQQQQQQQQQQQQQQQQQQQQQQQQQQQQQQQQQQQQQQQQQQQQQQQQQQQQQQQQQQQQQQQQQQQQQQQQQQQQQQQQQQQQQQQQQQQQQQQQQQQQQQQQQQQQQQQQQQQQQQQQQQQQQQQQQQQQQQQQQQQQQQQQQQQQQQQQQQQQQQQQQQQQQQQQQQQQQQQQQQQQQQQQQQQQQQQQQQQQQQQQQQQQQQQQQQQQQQQQQQQQQQQQQQQQQQQQ\0";

/// Nodes that the table has or hasn't.
const NODES: [Row; 12] = [
    (&[], 0, ""),
    (&[Child("/", "z")], 1, "/z"),
    (&[Child("/", "areas@1")], 1, "/areas@1"),
    (&[Child("/areas/a", "z")], 1, "/areas/a/z"),
    (&[Child("/channels/x", "z")], 1, "/channels/x/z"),
    (&[Child("/doorbells/d", "z")], 1, "/doorbells/d/z"),
    (
        &[Child("/partitions/p", "channels")],
        1,
        "/partitions/p/channels",
    ),
    (
        &[Child("/partitions/p/areas/m", "z")],
        1,
        "/partitions/p/areas/m/z",
    ),
    (
        &[Child("/partitions/p/handles/c", "z")],
        1,
        "/partitions/p/handles/c/z",
    ),
    (
        &[
            Child("/", "z"),
            Child("/z", "deep"),
            Child("/z/deep", "deeper"),
        ],
        1,
        "/z",
    ),
    (
        &[
            Child("/partitions/q/handles/c", "deep"),
            Child("/partitions/q/handles/c/deep", "deeper"),
        ],
        1,
        "/partitions/q/handles/c/deep",
    ),
    (
        &[
            NoChild("/", "channels"),
            NoChild("/", "doorbells"),
            NoChild("/partitions/p", "handles"),
        ],
        0,
        "",
    ),
];

/// Properties that the table has or hasn't.
const PROPERTIES: [Row; 13] = [
    (&[Value("/", "z", b"")], 2, "/"),
    (&[Value("/areas", "base", b"\0\0\0\0\0\0\0\0")], 2, "/areas"),
    (
        &[Value("/areas/a", "at", b"\0\0\0\0\0\0\0\0")],
        2,
        "/areas/a",
    ),
    (&[Value("/channels", "console", b"c\0")], 2, "/channels"),
    (&[Value("/channels/y", "kind", b"send\0")], 2, "/channels/y"),
    (&[Value("/doorbells", "z", b"1")], 2, "/doorbells"),
    (
        &[Value("/doorbells/d", "console", b"c\0")],
        2,
        "/doorbells/d",
    ),
    (&[Value("/partitions", "held", b"")], 2, "/partitions"),
    (&[Value("/partitions/p", "Held", b"")], 2, "/partitions/p"),
    (
        &[Value("/partitions/p/areas", "z", b"")],
        2,
        "/partitions/p/areas",
    ),
    (
        &[Value("/partitions/p/areas/m", "size", b"\0\0\0\0\0\0\0\0")],
        2,
        "/partitions/p/areas/m",
    ),
    (
        &[Value("/partitions/p/handles", "kind", b"send\0")],
        2,
        "/partitions/p/handles",
    ),
    (
        &[Value("/partitions/p/handles/s", "console", b"c\0")],
        2,
        "/partitions/p/handles/s",
    ),
];

/// What has to be there, and what may be absent.
const ABSENT: [Row; 19] = [
    (&[NoValue("/", "compatible")], 3, "/"),
    (&[NoChild("/", "areas")], 3, "/"),
    (&[NoChild("/", "partitions")], 3, "/"),
    (&[NoValue("/areas/a", "base")], 3, "/areas/a"),
    (&[NoValue("/areas/b", "size")], 3, "/areas/b"),
    (&[NoValue("/channels/x", "console")], 0, ""),
    (&[NoValue("/partitions/p", "cpus")], 3, "/partitions/p"),
    (&[NoValue("/partitions/p", "image")], 3, "/partitions/p"),
    (&[NoValue("/partitions/q", "tree-at")], 3, "/partitions/q"),
    (&[NoValue("/partitions/q", "tree-size")], 3, "/partitions/q"),
    (&[NoValue("/partitions/p", "image-at")], 0, ""),
    (
        &[
            NoValue("/partitions/p", "held"),
            NoValue("/partitions/p", "bootargs"),
        ],
        0,
        "",
    ),
    (&[NoChild("/partitions/p", "areas")], 3, "/partitions/p"),
    (
        &[NoValue("/partitions/p/areas/m", "area")],
        3,
        "/partitions/p/areas/m",
    ),
    (
        &[NoValue("/partitions/p/areas/m", "at")],
        3,
        "/partitions/p/areas/m",
    ),
    (
        &[NoValue("/partitions/p/handles/s", "kind")],
        3,
        "/partitions/p/handles/s",
    ),
    (
        &[NoValue("/partitions/p/handles/s", "target")],
        3,
        "/partitions/p/handles/s",
    ),
    (&[NoChild("/areas", "a"), NoChild("/areas", "b")], 0, ""),
    (
        &[NoChild("/partitions", "p"), NoChild("/partitions", "q")],
        0,
        "",
    ),
];

/// Values of each form and of others.
const VALUES: [Row; 26] = [
    (&[Value("/", "compatible", b"topaz\0")], 4, "/"),
    (&[Value("/", "compatible", b"topaz,config\0\0")], 4, "/"),
    (&[Value("/", "compatible", b"")], 4, "/"),
    (&[Value("/areas/a", "base", b"\0\0\0\0")], 4, "/areas/a"),
    (
        &[Value("/areas/a", "size", b"\0\0\0\0\0\0\0\0\0\0\0\0\0\x01\0\0")],
        4,
        "/areas/a",
    ),
    (&[Value("/channels/x", "console", b"\0")], 4, "/channels/x"),
    (&[Value("/channels/x", "console", b"cp")], 4, "/channels/x"),
    (
        &[Value("/channels/x", "console", b"cp\0\0")],
        4,
        "/channels/x",
    ),
    (
        &[Value("/channels/x", "console", b"c\0p\0")],
        4,
        "/channels/x",
    ),
    (
        &[Value("/channels/x", "console", b"c\x1f\0")],
        4,
        "/channels/x",
    ),
    (
        &[Value("/channels/x", "console", b"c\x7f\0")],
        4,
        "/channels/x",
    ),
    (&[Value("/channels/x", "console", b" ~\0")], 0, ""),
    (&[Value("/partitions/p", "cpus", b"")], 4, "/partitions/p"),
    (
        &[Value("/partitions/p", "cpus", b"\0\0\0\0\0\x01")],
        4,
        "/partitions/p",
    ),
    (
        &[Value(
            "/partitions/p",
            "cpus",
            b"\0\0\0\0\0\0\0\x01\xff\xff\xff\xff",
        )],
        0,
        "",
    ),
    (&[Value("/partitions/p", "image", LONGEST)], 0, ""),
    (
        &[Value("/partitions/p", "tree-at", b"\0\0\0\0\0\0\x80\0\0")],
        4,
        "/partitions/p",
    ),
    (
        &[Value("/partitions/p", "tree-size", b"")],
        4,
        "/partitions/p",
    ),
    (
        &[Value("/partitions/p", "image-at", b"\0\0\0\0")],
        4,
        "/partitions/p",
    ),
    (&[Value("/partitions/p", "held", b"\0")], 4, "/partitions/p"),
    (
        &[Value("/partitions/p", "bootargs", b"")],
        4,
        "/partitions/p",
    ),
    (
        &[Value("/partitions/p/areas/m", "area", b"a")],
        4,
        "/partitions/p/areas/m",
    ),
    (
        &[Value("/partitions/p/areas/m", "at", b"\0")],
        4,
        "/partitions/p/areas/m",
    ),
    (
        &[Value("/partitions/p/handles/c", "kind", b"chan\0")],
        4,
        "/partitions/p/handles/c",
    ),
    (
        &[Value("/partitions/p/handles/c", "kind", b"receive\0")],
        0,
        "",
    ),
    (
        &[Value("/partitions/p/handles/c", "target", b"\xff\0")],
        4,
        "/partitions/p/handles/c",
    ),
];

/// Two breaks: the lower number counts, wherever it is, and of one number the earlier node.
const ORDERS: [Row; 11] = [
    (
        &[Value("/", "z", b""), Child("/partitions/q/areas/m", "z")],
        1,
        "/partitions/q/areas/m/z",
    ),
    (&[NoChild("/", "areas"), Value("/", "z", b"")], 2, "/"),
    (
        &[
            NoValue("/", "compatible"),
            Value("/partitions/q/handles/c", "z", b""),
        ],
        2,
        "/partitions/q/handles/c",
    ),
    (
        &[
            Value("/", "compatible", b""),
            NoValue("/partitions/q/areas/m", "at"),
        ],
        3,
        "/partitions/q/areas/m",
    ),
    (
        &[Child("/partitions/p", "z"), Child("/areas/b", "z")],
        1,
        "/areas/b/z",
    ),
    (
        &[
            Value("/partitions/p", "z", b""),
            Value("/doorbells/d", "z", b""),
        ],
        2,
        "/doorbells/d",
    ),
    (
        &[
            NoValue("/partitions/p/handles/c", "kind"),
            NoValue("/partitions/p/areas/m", "at"),
        ],
        3,
        "/partitions/p/areas/m",
    ),
    (
        &[
            NoValue("/partitions/q/handles/c", "kind"),
            NoValue("/partitions/q/areas/m", "at"),
        ],
        3,
        "/partitions/q/handles/c",
    ),
    (
        &[NoValue("/areas/b", "base"), NoValue("/areas/a", "size")],
        3,
        "/areas/a",
    ),
    (
        &[
            Value("/partitions/q", "cpus", b""),
            Value("/partitions/p/handles/s", "kind", b"s\0"),
        ],
        4,
        "/partitions/p/handles/s",
    ),
    (
        &[
            Value("/partitions/q", "held", b"1"),
            Value("/channels/y", "console", b""),
        ],
        4,
        "/channels/y",
    ),
];

#[test]
fn each_rule_of_configurations_is_broken_at_its_node(rt: HostRuntime) -> Result<(), Fail> {
    let tables: [&[Row]; 5] = [&NODES, &PROPERTIES, &ABSENT, &VALUES, &ORDERS];
    for table in tables {
        for row in table {
            assert!(rt; is_answer(rt.alloc(), row)?, "{} {}", row.1, row.2);
        }
    }
    Ok(())
}

#[test]
fn a_text_has_at_most_255_bytes(rt: HostRuntime) -> Result<(), Fail> {
    let alloc = rt.alloc();
    let mut tree = configuration(alloc, &[])?;
    let mut long = vec![in alloc; b'a'; 256]?;
    long.push(0)?;
    let part = node_mut(&mut tree.root, "/partitions/p").ok_or("a partition")?;
    set(alloc, part, "image", &long)?;
    match parse(alloc, &tree) {
        Ok(_config) => Err("256 bytes")?,
        Err(fault) => assert!(rt; is_fault(&fault, b'C', 4, "/partitions/p")),
    }
    Ok(())
}

#[test]
fn values_and_places_are_read(rt: HostRuntime) -> Result<(), Fail> {
    let tree = configuration(rt.alloc(), &[])?;
    assert!(rt; fits(&tree));
    let config = parse(rt.alloc(), &tree).ok().ok_or("a configuration")?;
    assert!(rt;
        config.areas_at == 0
            && config.channels_at == 1
            && config.bells_at == 2
            && config.parts_at == 3
    );
    assert!(rt; config.areas.as_slice().len() == 2 && config.channels.as_slice().len() == 2);
    assert!(rt; config.bells.as_slice().len() == 1 && config.parts.as_slice().len() == 2);
    let area = config.areas.as_slice().last().ok_or("an area")?;
    assert!(rt;
        area.name.as_slice() == b"b".as_slice() && area.base == 0x10000 && area.size == 0x10000
    );
    let part = config.parts.as_slice().first().ok_or("a partition")?;
    assert!(rt;
        part.cpus.as_slice() == [0].as_slice()
            && part.image.as_slice() == b"hi".as_slice()
            && part.held
    );
    assert!(rt; part.tree_at == 0x8000 && part.tree_size == 0x4000 && part.image_at == 0x1000);
    assert!(rt; part.areas_at == 0 && part.handles_at == 1);
    let handle = part.handles.as_slice().last().ok_or("a handle")?;
    assert!(rt; handle.kind == Kind::Send && handle.target.as_slice() == b"d".as_slice());
    let part = config.parts.as_slice().last().ok_or("a partition")?;
    assert!(rt; part.cpus.as_slice() == [1].as_slice() && part.image_at == 0 && !part.held);
    assert!(rt; part.bootargs.is_none() && part.areas_at == 1 && part.handles_at == 0);
    let guest = part.areas.as_slice().last().ok_or("a guest area")?;
    assert!(rt; guest.area.as_slice() == b"a".as_slice() && guest.at == 0x100000);
    Ok(())
}
