//! Trees of partitions with two and with eight cores.

use super::drafts::{Area, Part, config_of, part_of};
use crate::tree::tree_of;
use dt_model::{Node, Tree, fits, node_at};
use hv_config::{Kind, PartDef};
use outside::NoMemory;
use std::alloc::Global;
use std::test::Fail;

/// A property's name and its value.
type Value = (&'static str, &'static [u8]);

/// A node: its path, its properties, and how many children it has.
type Row = (&'static str, &'static [Value], usize);

const AREAS: [Area; 2] = [("a", 0x1_0000), ("b", 0x2000)];

/// A partition with every kind of handle.
fn every_handle() -> Part {
    Part {
        name: "every",
        cores: 2,
        tree_at: 0x8000,
        bootargs: "quiet 1",
        guests: &[("b", 0xf_0000_0000), ("a", 0)],
        handles: &[
            ("ring", Kind::Send, "d"),
            ("log", Kind::Channel, "x"),
            ("bell", Kind::Receive, "d"),
            ("out", Kind::Channel, "y"),
            ("other", Kind::Manage, "q"),
        ],
    }
}

/// A partition without a handle.
fn no_handle() -> Part {
    Part {
        name: "p",
        cores: 8,
        tree_at: 0x3ff_f000,
        bootargs: "",
        guests: &[],
        handles: &[],
    }
}

/// Each node of the first one's tree.
const EVERY: [Row; 14] = [
    (
        "/",
        &[
            ("#address-cells", b"\0\0\0\x02"),
            ("#size-cells", b"\0\0\0\x02"),
            ("compatible", b"topaz,guest\0"),
            ("model", b"every\0"),
        ],
        5,
    ),
    (
        "/cpus",
        &[
            ("#address-cells", b"\0\0\0\x01"),
            ("#size-cells", b"\0\0\0\0"),
        ],
        2,
    ),
    (
        "/cpus/cpu@0",
        &[
            ("device_type", b"cpu\0"),
            ("reg", b"\0\0\0\0"),
            ("status", b"okay\0"),
            ("clock-frequency", b"\0\x0f\x42\x40"),
            ("timebase-frequency", b"\0\x0f\x42\x40"),
        ],
        0,
    ),
    (
        "/cpus/cpu@1",
        &[
            ("device_type", b"cpu\0"),
            ("reg", b"\0\0\0\x01"),
            ("status", b"disabled\0"),
            ("clock-frequency", b"\0\x0f\x42\x40"),
            ("timebase-frequency", b"\0\x0f\x42\x40"),
            ("enable-method", b"spin-table\0"),
            ("cpu-release-addr", b"\0\0\0\0\0\0\x8e\x40"),
        ],
        0,
    ),
    (
        "/memory",
        &[
            ("device_type", b"memory\0"),
            (
                "reg",
                b"\0\0\0\x0f\0\0\0\0\0\0\0\0\0\0\x20\0\0\0\0\0\0\0\0\0\0\0\0\0\0\x01\0\0",
            ),
        ],
        0,
    ),
    (
        "/pic",
        &[
            ("compatible", b"epapr,hv-pic\0"),
            ("interrupt-controller", b""),
            ("#interrupt-cells", b"\0\0\0\x02"),
            ("phandle", b"\0\0\0\x01"),
        ],
        0,
    ),
    (
        "/hypervisor",
        &[
            ("compatible", b"topaz,hypervisor\0"),
            (
                "hcall-instructions",
                b"\x44\0\0\x22\x60\0\0\0\x60\0\0\0\x60\0\0\0",
            ),
            ("has-idle", b""),
        ],
        1,
    ),
    ("/hypervisor/handles", &[], 5),
    (
        "/hypervisor/handles/ring",
        &[
            ("compatible", b"topaz,send-doorbell\0"),
            ("hv-handle", b"\0\0\0\x01"),
        ],
        0,
    ),
    (
        "/hypervisor/handles/log",
        &[
            ("compatible", b"epapr,hv-byte-channel\0"),
            ("hv-handle", b"\0\0\0\x02"),
            ("interrupts", b"\0\0\0\0\0\0\0\0\0\0\0\x01\0\0\0\0"),
            ("interrupt-parent", b"\0\0\0\x01"),
        ],
        0,
    ),
    (
        "/hypervisor/handles/bell",
        &[
            ("compatible", b"epapr,hv-receive-doorbell\0"),
            ("hv-handle", b"\0\0\0\x03"),
            ("interrupts", b"\0\0\0\x02\0\0\0\0"),
            ("interrupt-parent", b"\0\0\0\x01"),
        ],
        0,
    ),
    (
        "/hypervisor/handles/out",
        &[
            ("compatible", b"epapr,hv-byte-channel\0"),
            ("hv-handle", b"\0\0\0\x04"),
            ("interrupts", b"\0\0\0\x03\0\0\0\0\0\0\0\x04\0\0\0\0"),
            ("interrupt-parent", b"\0\0\0\x01"),
        ],
        0,
    ),
    (
        "/hypervisor/handles/other",
        &[
            ("compatible", b"topaz,managed-partition\0"),
            ("hv-handle", b"\0\0\0\x05"),
            ("label", b"q\0"),
        ],
        0,
    ),
    (
        "/chosen",
        &[
            ("bootargs", b"quiet 1\0"),
            ("stdout-path", b"/hypervisor/handles/log\0"),
        ],
        0,
    ),
];

/// Nodes of the other's tree.
const NONE: [Row; 6] = [
    (
        "/cpus",
        &[
            ("#address-cells", b"\0\0\0\x01"),
            ("#size-cells", b"\0\0\0\0"),
        ],
        8,
    ),
    (
        "/cpus/cpu@6",
        &[
            ("device_type", b"cpu\0"),
            ("reg", b"\0\0\0\x06"),
            ("status", b"disabled\0"),
            ("clock-frequency", b"\0\x0f\x42\x40"),
            ("timebase-frequency", b"\0\x0f\x42\x40"),
            ("enable-method", b"spin-table\0"),
            ("cpu-release-addr", b"\0\0\0\0\x03\xff\xff\x80"),
        ],
        0,
    ),
    (
        "/cpus/cpu@7",
        &[
            ("device_type", b"cpu\0"),
            ("reg", b"\0\0\0\x07"),
            ("status", b"disabled\0"),
            ("clock-frequency", b"\0\x0f\x42\x40"),
            ("timebase-frequency", b"\0\x0f\x42\x40"),
            ("enable-method", b"spin-table\0"),
            ("cpu-release-addr", b"\0\0\0\0\x03\xff\xff\xc0"),
        ],
        0,
    ),
    ("/memory", &[("device_type", b"memory\0"), ("reg", b"")], 0),
    ("/hypervisor/handles", &[], 0),
    ("/chosen", &[], 0),
];

/// The partition's tree, where the window and the counts keep their limits.
fn tree(alloc: Global, part: &PartDef) -> Result<Tree, Fail> {
    let config = config_of(alloc, &AREAS)?;
    if part.tree_at > 0x3ff_f000
        || part.tree_size != 0x1000
        || part.cpus.as_slice().len() > 8
        || part.handles.as_slice().len() > 64
    {
        return Err("a partition within its limits".into());
    }
    Ok(tree_of(alloc, &config, part)?)
}

/// Whether the node has these properties, in this order, and no other.
fn has_properties(node: &Node, values: &[Value]) -> bool {
    if node.props.len() != values.len() {
        return false;
    }
    for (property, (name, value)) in node.props.iter().zip(values) {
        if property.name.as_slice() != name.as_bytes() || property.value.as_slice() != *value {
            return false;
        }
    }
    true
}

/// Whether the tree has the node as the row says.
fn has_row(tree: &Tree, row: &Row) -> bool {
    match node_at(tree, row.0.as_bytes()) {
        Some(node) => has_properties(node, row.1) && node.children.len() == row.2,
        None => false,
    }
}

#[test]
fn trees_have_their_rows(rt: HostRuntime) -> Result<(), Fail> {
    let every = tree(rt.alloc(), &part_of(rt.alloc(), &every_handle())?)?;
    let none = tree(rt.alloc(), &part_of(rt.alloc(), &no_handle())?)?;
    assert!(rt; fits(&every) && fits(&none));
    assert_eq!(rt; (every.reserve.len(), every.boot_cpu), (0, 0));
    for row in EVERY {
        assert!(rt; has_row(&every, &row), "{}", row.0);
    }
    for row in NONE {
        assert!(rt; has_row(&none, &row), "{}", row.0);
    }
    Ok(())
}
