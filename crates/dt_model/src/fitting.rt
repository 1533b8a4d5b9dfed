//! Whether a blob can hold a tree. No memory is taken: a name is compared with those of the earlier siblings.

ghost use Rattle.std.specs.Prelude.{◌≡◌, ◌<◌, ◌↔◌, ◌&&◌, nat_le, length, IsTrue, [], map};
ghost use Rattle.std.specs.Bool.{OnTrue};
ghost use Rattle.std.specs.List.{list_all, list_any};
ghost use Rattle.std.specs.Str.{bytes_eq};
ghost use Rattle.dt_model.specs.Node.{name_of};
ghost use Rattle.dt_model.specs.Fit.{Fits};
ghost use Rattle.dt_model.specs.Fit as fit;
ghost use Rattle.dt_model.specs.Walk as walk;

use crate::name::{is_node_name, is_property_name};
use crate::tree::{Node, Property, Reserve, Tree};

const MOST_NODES: u32 = 65536;

const MOST_PROPERTIES: u32 = 65536;

const MOST_ENTRIES: usize = 1024;

const MOST_OPEN: u32 = 32;

/// How many nodes and properties came so far.
#[derive(Clone, Copy)]
struct Counts {
    nodes: u32,
    properties: u32,
}

/// Whether one of the properties has the name.
fn is_property_among(properties: &[Property], name: &[u8]) -> bool
    ensures { result ≡ list_any (λ property. bytes_eq property.name name.now) properties.now }
{
    properties
        .iter()
        .any(|property| property.name.as_slice() == name)
}

/// Whether one of the nodes has the name.
fn is_node_among(nodes: &[Node], name: &[u8]) -> bool
    ensures { result ≡ list_any (λ node. bytes_eq (name_of node) name.now) nodes.now }
{
    nodes.iter().any(|node| node.name.as_slice() == name)
}

/// Whether a property of that name may come behind the earlier ones of its node and so many in the tree.
#[tactic(auto, using(crate::proofs::Walks::has_mapped), unfolding(crate::specs::Walk::may_follow))]
fn may_follow(earlier: &[Property], count: u32, name: &[u8]) -> bool
    ensures value { result ≡ walk.may_follow (map (λ property. property.name) earlier.now) count name.now }
    ensures room { OnTrue result (count < 65536) }
{
    is_property_name(name) && count < MOST_PROPERTIES && !is_property_among(earlier, name)
}

/// How many properties the tree has behind these ones of a node, unless one may not follow.
fn properties_after(properties: &[Property], before: u32) -> Option<u32>
    ensures { result ≡ walk.property_walk [] properties.now before }
{
    let mut count = before;
    for (i, property) in properties.iter().enumerate() {
        if !may_follow(&properties[..i], count, property.name.as_slice()) {
            return None;
        }
        count += 1;
    }
    Some(count)
}

/// Whether a node of that name may begin behind its earlier siblings, so deep, and with so many nodes in the tree.
#[tactic(auto, using(crate::proofs::Walks::has_mapped), unfolding(crate::specs::Walk::may_begin))]
fn may_begin(earlier: &[Node], depth: u32, nodes: u32, name: &[u8]) -> bool
    ensures value { result ≡ walk.may_begin (map name_of earlier.now) depth nodes name.now }
    ensures room { OnTrue result (nodes < 65536) }
    ensures shallow { OnTrue result (depth < 32) }
{
    is_node_name(name) && depth < MOST_OPEN && nodes < MOST_NODES && !is_node_among(earlier, name)
}

/// The counts behind a node and all below it, unless something there may not follow.
fn counts_after(node: &Node, depth: u32, before: Counts) -> Option<Counts>
    requires room { before.nodes < 65536 }
    requires shallow { depth < 32 }
    ensures { result ≡ walk.node_walk node.now depth before }
{
    let properties = properties_after(&node.props, before.properties)?;
    let mut counts = Counts {
        nodes: before.nodes + 1,
        properties,
    };
    for (i, child) in node.children.iter().enumerate() {
        if !may_begin(
            &node.children[..i],
            depth + 1,
            counts.nodes,
            child.name.as_slice(),
        ) {
            return None;
        }
        counts = counts_after(child, depth + 1, counts)?;
    }
    Some(counts)
}

/// Whether a whole tree may be walked.
fn is_walked(root: &Node) -> bool
    ensures { result ≡ walk.is_walked root.now }
{
    let none = Counts {
        nodes: 0,
        properties: 0,
    };
    root.name.as_slice().is_empty() && counts_after(root, 0, none).is_some()
}

/// Whether an entry of the reserve map isn't the one that ends it.
fn is_entry(entry: &Reserve) -> bool
    ensures { result ≡ fit.is_entry entry.now }
{
    !(entry.address == 0 && entry.size == 0)
}

/// Whether all are.
fn are_entries(entries: &[Reserve]) -> bool
    ensures { result ≡ list_all fit.is_entry entries.now }
{
    entries.iter().all(is_entry)
}

/// Whether a blob can hold the reserve map.
fn is_reserve_map(entries: &[Reserve]) -> bool
    ensures { result ≡ (nat_le (length entries.now) 1024 && list_all fit.is_entry entries.now) }
{
    entries.len() <= MOST_ENTRIES && are_entries(entries)
}

/// Whether a blob can hold the tree: the root has no name, every other name is legal, no two properties and no two
/// children of one node have the same name, the depth is at most 32, there are at most 65,536 nodes, 65,536 properties and
/// 1,024 entries of the reserve map, and no entry is two zeros.
pub fn fits(tree: &Tree) -> bool
    ensures { IsTrue result ↔ Fits tree.now }
{
    is_reserve_map(&tree.reserve) && is_walked(&tree.root)
}
