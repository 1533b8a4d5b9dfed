//! Configurations in short, read from the trees that they stand for.

ghost use Rattle.std.specs.Prelude.{IfOk};
ghost use Rattle.hv_config.specs.Plain.{IsPlain};

use dt_model::{Node, Property, Tree, fits};
use hv_config::{Board, Config, Cpu, Range, parse};
use outside::{Bytes, Listed, NoMemory};
use std::alloc::Global;
use std::test::Fail;

/// A property's name and its value.
pub type Value = (&'static str, &'static [u8]);

/// A node: the path of its parent, its name and its properties. Parents stand before their children.
pub type Row = (&'static str, &'static str, &'static [Value]);

/// A property's value in place of another: the path of its node, its name, and the value.
pub type Change = (&'static str, &'static str, &'static [u8]);

/// The node, without children.
fn leaf(alloc: Global, name: &str, values: &[Value]) -> Result<Node, NoMemory> {
    let mut props = Vec::new(alloc);
    for (name, value) in values {
        let name = Bytes::of(alloc, name.as_bytes())?;
        let value = Bytes::of(alloc, value)?;
        props.push(Property { name, value })?;
    }
    Ok(Node {
        name: Bytes::of(alloc, name.as_bytes())?,
        props,
        children: Vec::new(alloc),
    })
}

/// The node with the path.
fn node_mut<'a>(root: &'a mut Node, path: &str) -> Option<&'a mut Node> {
    let mut node = root;
    for name in path.split('/') {
        if !name.is_empty() {
            let at = node
                .children
                .iter()
                .position(|child| child.name.as_slice() == name.as_bytes())?;
            node = node.children.get_mut(at)?;
        }
    }
    Some(node)
}

/// Puts the node in its place.
fn place(alloc: Global, root: &mut Node, row: &Row) -> Result<(), Fail> {
    let child = leaf(alloc, row.1, row.2)?;
    let parent = node_mut(root, row.0).ok_or("a parent")?;
    parent.children.push(child)?;
    Ok(())
}

/// Makes the change.
fn change(alloc: Global, root: &mut Node, change: &Change) -> Result<(), Fail> {
    let value = Bytes::of(alloc, change.2)?;
    let node = node_mut(root, change.0).ok_or("a node")?;
    for property in &mut node.props {
        if property.name.as_slice() == change.1.as_bytes() {
            property.value = value;
            return Ok(());
        }
    }
    Err("a property".into())
}

/// The configuration of these nodes, once these changes are made.
pub fn configuration(alloc: Global, rows: &[Row], changes: &[Change]) -> Result<Config, Fail>
    ensures { IfOk result (λ config. IsPlain config) }
{
    let mut root = leaf(alloc, "", &[("compatible", b"topaz,config\0")])?;
    for row in rows {
        place(alloc, &mut root, row)?;
    }
    for one in changes {
        change(alloc, &mut root, one)?;
    }
    let tree = Tree {
        reserve: Vec::new(alloc),
        boot_cpu: 0,
        root,
    };
    if !fits(&tree) {
        return Err("a tree that fits".into());
    }
    Ok(parse(alloc, &tree)?)
}

/// Four cpus that can be used, and 1 GiB of memory.
pub fn board(alloc: Global) -> Result<Board, NoMemory> {
    let mut cpus = Vec::new(alloc);
    for number in 0..4 {
        cpus.push(Cpu {
            number,
            usable: true,
        })?;
    }
    let mut memory = Vec::new(alloc);
    memory.push(Range {
        at: 0,
        size: 0x4000_0000,
    })?;
    Ok(Board {
        cpus: Listed::from_vec(cpus),
        memory: Listed::from_vec(memory),
    })
}
