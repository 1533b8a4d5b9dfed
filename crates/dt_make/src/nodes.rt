//! Nodes.

ghost use Rattle.std.specs.Prelude.{◌≡◌, [], IfOk};
ghost use Rattle.std.specs.List.{flat_map};
ghost use Rattle.dt_model.specs.Node.{node_tokens};
ghost use Rattle.dt_make.specs.Nodes as spec;

use dt_model::{Node, Property};
use outside::{Bytes, NoMemory};
use std::alloc::Global;

/// A node with these properties and children.
#[tactic(auto, using(crate::proofs::Made::node_made, crate::proofs::Made::node_has))]
pub fn node(
    alloc: Global,
    name: &[u8],
    props: Vec<Property>,
    children: Vec<Node>,
) -> Result<Node, NoMemory>
    ensures tokens { IfOk result (λ node. node_tokens node ≡ spec.node name.now props.items (flat_map node_tokens children.items)) }
    ensures parts { IfOk result (λ node. spec.Has node name.now props.items children.items) }
{
    let name = Bytes::of(alloc, name)?;
    Ok(Node {
        name,
        props,
        children,
    })
}

/// A node without children.
pub fn leaf(alloc: Global, name: &[u8], props: Vec<Property>) -> Result<Node, NoMemory>
    ensures tokens { IfOk result (λ node. node_tokens node ≡ spec.node name.now props.items []) }
    ensures parts { IfOk result (λ node. spec.Has node name.now props.items []) }
{
    node(alloc, name, props, Vec::new(alloc))
}
