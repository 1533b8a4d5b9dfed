//! A builder of trees for the tests: changes, one behind the other.

use crate::{Fault, Rule};
use dt_model::{Node, Property, Tree};
use outside::{Bytes, NoMemory};
use std::alloc::Global;
use std::test::Fail;

/// A change of a tree. Each names a node by its path, and a child or a property of it.
#[derive(Clone, Copy)]
pub enum Edit {
    /// A child more, behind the others.
    Child(&'static str, &'static str),
    /// The property has this value; where it is new it stands behind the others.
    Value(&'static str, &'static str, &'static [u8]),
    /// The child is gone.
    NoChild(&'static str, &'static str),
    /// The property is gone.
    NoValue(&'static str, &'static str),
}

pub use Edit::{Child, NoChild, NoValue, Value};

/// Changes of a tree, the number of the rule that it then breaks (0 for none), and where.
pub type Row = (&'static [Edit], u8, &'static str);

/// A node with the name alone.
pub fn leaf(alloc: Global, name: &str) -> Result<Node, NoMemory> {
    Ok(Node {
        name: Bytes::of(alloc, name.as_bytes())?,
        props: Vec::new(alloc),
        children: Vec::new(alloc),
    })
}

/// The node with the path.
pub fn node_mut<'a>(root: &'a mut Node, path: &str) -> Option<&'a mut Node> {
    let mut node = root;
    for name in path.split('/') {
        if !name.is_empty() {
            let at = node
                .children
                .iter()
                .position(|child| child.name.as_slice() == name.as_bytes())?;
            node = node.children.get_mut(at)?;
        }
    }
    Some(node)
}

/// Gives the node the property.
pub fn set(alloc: Global, node: &mut Node, name: &str, value: &[u8]) -> Result<(), NoMemory> {
    let value = Bytes::of(alloc, value)?;
    for property in &mut node.props {
        if property.name.as_slice() == name.as_bytes() {
            property.value = value;
            return Ok(());
        }
    }
    let name = Bytes::of(alloc, name.as_bytes())?;
    node.props.push(Property { name, value })?;
    Ok(())
}

/// Makes one change.
pub fn change(alloc: Global, root: &mut Node, edit: Edit) -> Result<(), Fail> {
    match edit {
        Child(path, name) => {
            let child = leaf(alloc, name)?;
            let parent = node_mut(root, path).ok_or("a parent")?;
            parent.children.push(child)?;
        }
        Value(path, name, value) => {
            set(alloc, node_mut(root, path).ok_or("a node")?, name, value)?;
        }
        NoChild(path, name) => {
            let parent = node_mut(root, path).ok_or("a parent")?;
            parent
                .children
                .retain(|child| child.name.as_slice() != name.as_bytes());
        }
        NoValue(path, name) => {
            let node = node_mut(root, path).ok_or("a node")?;
            node.props
                .retain(|property| property.name.as_slice() != name.as_bytes());
        }
    }
    Ok(())
}

/// Makes them all.
pub fn change_all(alloc: Global, root: &mut Node, edits: &[Edit]) -> Result<(), Fail> {
    for edit in edits {
        change(alloc, root, *edit)?;
    }
    Ok(())
}

/// The tree of the root.
pub fn tree_of(alloc: Global, root: Node) -> Tree {
    Tree {
        reserve: Vec::new(alloc),
        boot_cpu: 0,
        root,
    }
}

/// Whether the fault is the rule at the place.
pub fn is_fault(fault: &Fault, letter: u8, number: u8, place: &str) -> bool {
    match fault {
        Fault::Broken { rule, at } => {
            *rule == Rule { letter, number } && at.as_slice() == place.as_bytes()
        }
        Fault::NoMemory => false,
    }
}
