//! Hardware: each rule, each order of two, and which cpus can be used.

use super::builder::{
    Child, Edit, NoChild, NoValue, Row, Value, change_all, is_fault, leaf, node_mut, set, tree_of,
};
use crate::hardware;
use dt_model::Tree;
use std::alloc::Global;
use std::test::Fail;

/// Two cpus, and memory from 0 of a MiB.
const HARDWARE: [Edit; 11] = [
    Child("/", "cpus"),
    Value("/cpus", "#address-cells", b"\0\0\0\x01"),
    Child("/cpus", "cpu@0"),
    Value("/cpus/cpu@0", "device_type", b"cpu\0"),
    Value("/cpus/cpu@0", "reg", b"\0\0\0\0"),
    Child("/cpus", "cpu@1"),
    Value("/cpus/cpu@1", "device_type", b"cpu\0"),
    Value("/cpus/cpu@1", "reg", b"\0\0\0\x01"),
    Child("/", "memory"),
    Value("/memory", "device_type", b"memory\0"),
    Value("/memory", "reg", b"\0\0\0\0\0\0\0\0\0\x10\0\0"),
];

/// The hardware with the changes.
fn hardware_tree(alloc: Global, edits: &[Edit]) -> Result<Tree, Fail> {
    let mut root = leaf(alloc, "")?;
    change_all(alloc, &mut root, &HARDWARE)?;
    change_all(alloc, &mut root, edits)?;
    Ok(tree_of(alloc, root))
}

/// Whether the answer is the row's.
fn is_hardware_answer(alloc: Global, row: &Row) -> Result<bool, Fail> {
    match hardware(alloc, &hardware_tree(alloc, row.0)?) {
        Ok(_board) => Ok(row.1 == 0),
        Err(fault) => Ok(is_fault(&fault, b'H', row.1, row.2)),
    }
}

/// What the rules H1 to H4 refuse, and what they pass over.
const BOARDS: [Row; 36] = [
    (&[], 0, ""),
    (&[NoChild("/", "memory")], 1, "/"),
    (&[Value("/memory", "device_type", b"memory")], 1, "/"),
    (&[Value("/memory", "reg", b"")], 1, "/"),
    (
        &[Value("/memory", "reg", b"\0\0\0\0\0\0\0\0\0\0\0\0")],
        1,
        "/",
    ),
    (&[Value("/memory", "reg", b"\0\0\0\0\0\0\0\0")], 1, "/"),
    (&[NoChild("/", "cpus")], 0, ""),
    (
        &[
            Child("/", "cpus@1"),
            Child("/cpus@1", "cpu"),
            Value("/cpus@1/cpu", "device_type", b"cpu\0"),
        ],
        0,
        "",
    ),
    (
        &[Value("/cpus/cpu@1", "reg", b"\0\0\0\0")],
        2,
        "/cpus/cpu@1",
    ),
    (&[Value("/cpus/cpu@0", "reg", b"\0\0\0\x1f")], 0, ""),
    (
        &[Value("/cpus/cpu@0", "reg", b"\0\0\0\x20")],
        2,
        "/cpus/cpu@0",
    ),
    (
        &[Value("/cpus/cpu@1", "reg", b"\xff\xff\xff\xff")],
        2,
        "/cpus/cpu@1",
    ),
    (
        &[Value("/cpus/cpu@1", "reg", b"\0\0\0\x02\0\0\0\0\0\0\0\0")],
        0,
        "",
    ),
    (&[Value("/cpus/cpu@1", "reg", b"")], 4, "/cpus/cpu@1"),
    (
        &[Value("/cpus/cpu@1", "reg", b"\0\0\0\x01\0\0")],
        4,
        "/cpus/cpu@1",
    ),
    (&[NoValue("/cpus/cpu@0", "reg")], 4, "/cpus/cpu@0"),
    (
        &[
            NoValue("/cpus/cpu@0", "reg"),
            NoValue("/cpus/cpu@0", "device_type"),
        ],
        0,
        "",
    ),
    (&[NoValue("/cpus", "#address-cells")], 4, "/cpus/cpu@0"),
    (
        &[Value("/cpus", "#address-cells", b"\0\0\0\0")],
        4,
        "/cpus/cpu@0",
    ),
    (
        &[Value("/cpus", "#address-cells", b"\0\0\0\x03")],
        4,
        "/cpus/cpu@0",
    ),
    (
        &[Value("/cpus", "#address-cells", b"\xff\xff\xff\xff")],
        4,
        "/cpus/cpu@0",
    ),
    (
        &[Value("/cpus", "#address-cells", b"\0\x01")],
        4,
        "/cpus/cpu@0",
    ),
    (&[Value("/cpus", "#size-cells", b"\0\0\0\x09")], 0, ""),
    (
        &[Value("/cpus/cpu@0", "#address-cells", b"\0\0\0\x09")],
        0,
        "",
    ),
    (
        &[
            Value("/", "#address-cells", b"\0\0\0\0"),
            Value("/", "#size-cells", b""),
        ],
        1,
        "/",
    ),
    (
        &[
            Child("/", "m"),
            Value("/m", "device_type", b"memory\0"),
            Value("/m", "reg", b"\0\0\0\0"),
        ],
        4,
        "/m",
    ),
    (
        &[Child("/", "m"), Value("/m", "device_type", b"memory\0")],
        4,
        "/m",
    ),
    (
        &[
            Child("/", "m"),
            Value("/m", "device_type", b"memory\0"),
            Value("/m", "reg", b""),
        ],
        0,
        "",
    ),
    (
        &[
            Child("/memory", "m"),
            Value("/memory/m", "device_type", b"memory\0"),
        ],
        0,
        "",
    ),
    (&[Value("/", "#size-cells", b"\0\0\0\x02")], 1, "/"),
    (
        &[
            Value("/", "#address-cells", b"\0\0\0\x01"),
            Value("/", "#size-cells", b"\0\0\0\x02"),
        ],
        0,
        "",
    ),
    (
        &[
            NoChild("/", "memory"),
            Value("/cpus/cpu@1", "reg", b"\0\0\0\0"),
        ],
        1,
        "/",
    ),
    (
        &[
            Value("/cpus/cpu@1", "reg", b"\0\0\0\0"),
            NoChild("/", "memory"),
        ],
        1,
        "/",
    ),
    (
        &[
            Child("/cpus", "c"),
            Value("/cpus/c", "device_type", b"cpu\0"),
            Value("/cpus/cpu@1", "reg", b"\0\0\0\0"),
        ],
        2,
        "/cpus/cpu@1",
    ),
    (
        &[
            NoValue("/cpus/cpu@1", "reg"),
            Child("/", "m"),
            Value("/m", "device_type", b"memory\0"),
        ],
        4,
        "/cpus/cpu@1",
    ),
    (
        &[
            Value("/cpus/cpu@0", "reg", b"\0\0\0\x05"),
            Value("/cpus/cpu@1", "reg", b"\0\0\0\x21"),
        ],
        2,
        "/cpus/cpu@1",
    ),
];

#[test]
fn each_rule_of_hardware_is_broken_at_its_node(rt: HostRuntime) -> Result<(), Fail> {
    for row in &BOARDS {
        assert!(rt; is_hardware_answer(rt.alloc(), row)?, "{} {}", row.1, row.2);
    }
    Ok(())
}

#[test]
fn seventeen_ranges_are_too_many(rt: HostRuntime) -> Result<(), Fail> {
    let alloc = rt.alloc();
    let mut tree = hardware_tree(alloc, &[NoValue("/cpus/cpu@1", "reg")])?;
    let mut reg = Vec::new(alloc);
    for _ in 0..17u8 {
        reg.extend_from_slice(b"\0\0\0\0\0\0\0\0\0\0\x10\0")?;
    }
    let memory = node_mut(&mut tree.root, "/memory").ok_or("memory")?;
    set(alloc, memory, "reg", &reg)?;
    match hardware(alloc, &tree) {
        Ok(_board) => Err("17 ranges")?,
        Err(fault) => assert!(rt; is_fault(&fault, b'H', 3, "/")),
    }
    Ok(())
}

/// Statuses, and whether a cpu with it can be used.
const STATUSES: [(&[u8], bool); 9] = [
    (b"okay\0", true),
    (b"ok\0", true),
    (b"disabled\0", true),
    (b"fail\0", false),
    (b"fail-sss\0", false),
    (b"reserved\0", false),
    (b"okay", false),
    (b"\0", false),
    (b"", false),
];

#[test]
fn a_status_says_whether_a_cpu_can_be_used(rt: HostRuntime) -> Result<(), Fail> {
    let alloc = rt.alloc();
    for (status, usable) in &STATUSES {
        let mut tree = hardware_tree(alloc, &[])?;
        let cpu = node_mut(&mut tree.root, "/cpus/cpu@1").ok_or("a cpu")?;
        set(alloc, cpu, "status", status)?;
        let board = hardware(alloc, &tree).ok().ok_or("a board")?;
        let first = board.cpus.as_slice().first().ok_or("a cpu")?;
        let last = board.cpus.as_slice().last().ok_or("a cpu")?;
        assert!(rt; first.number == 0 && first.usable);
        assert!(rt; last.number == 1 && last.usable == *usable, "{status:?}");
        let range = board.memory.as_slice().first().ok_or("a range")?;
        assert!(rt; range.at == 0 && range.size == 0x10_0000);
    }
    Ok(())
}
