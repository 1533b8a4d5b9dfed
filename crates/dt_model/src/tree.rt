//! The parts of a tree.

use outside::Bytes;

/// A property of a node (ePAPR 1.1, 2.2.4).
#[derive(Debug, Drop)]
pub struct Property {
    pub name: Bytes,
    pub value: Bytes,
}

/// A node with its properties and its children, each in document order (ePAPR 1.1, 2.2). The root has no name.
#[derive(Debug, Drop)]
pub struct Node {
    pub name: Bytes,
    pub props: Vec<Property>,
    pub children: Vec<Node>,
}

/// An area of memory that a client may not use, in bytes (ePAPR 1.1, 8.3).
#[derive(Clone, Copy, Debug, PartialEq, Eq)]
pub struct Reserve {
    pub address: u64,
    pub size: u64,
}

/// A device tree, with what else a blob of it says: the reserved memory, and the physical number of the cpu that boots.
#[derive(Debug, Drop)]
pub struct Tree {
    pub reserve: Vec<Reserve>,
    pub boot_cpu: u32,
    pub root: Node,
}
