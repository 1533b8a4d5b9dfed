//! Finding nodes and properties. The searches below a node call themselves: they take no memory, and a tree that was read has at
//! most 32 levels.

ghost use Rattle.std.specs.Prelude.{◌≡◌, ℕ, List, ◌∷◌, ◌++◌, ◌≢◌, MatchOption};
ghost use Rattle.std.specs.Option.{option_copied};
ghost use Rattle.std.specs.Str.{bytes_eq};
ghost use Rattle.dt_model.specs.Node.{first_node, node_of, value_of, nodes_below, node_of_phandle, is_phandle};

use crate::tree::{Node, Tree};
use crate::value::u32_of;

/// The value of the first of the node's properties with this name.
pub fn prop<'a>(node: &'a Node, name: &[u8]) -> Option<&'a [u8]>
    ensures { option_copied result ≡ value_of node.now name.now }
{
    for property in &node.props {
        if property.name.as_slice() == name {
            return Some(property.value.as_slice());
        }
    }
    None
}

/// What follows the front.
fn after<'a>(bytes: &'a [u8], front: &[u8]) -> Option<&'a [u8]>
    ensures { MatchOption result
        ((rest : List ℕ) → bytes.now ≢ front.now ++ rest)
        (λ rest. bytes.now ≡ front.now ++ rest.now) }
{
    bytes.strip_prefix(front)
}

/// What follows a slash and the name.
fn after_name<'a>(path: &'a [u8], name: &[u8]) -> Option<&'a [u8]>
    ensures { MatchOption result
        ((rest : List ℕ) → path.now ≢ 0x2f ∷ name.now ++ rest)
        (λ rest. path.now ≡ 0x2f ∷ name.now ++ rest.now) }
{
    after(after(path, b"/")?, name)
}

/// The first node below this one that has the path, from where this node's own path ends.
fn node_below<'a>(node: &'a Node, path: &[u8]) -> Option<&'a Node>
    ensures { (before : List ℕ) → option_copied result
        ≡ first_node (λ place. bytes_eq place.0 (before ++ path.now)) (nodes_below node.now before) }
{
    for child in &node.children {
        if let Some(rest) = after_name(path, child.name.as_slice()) {
            if rest.is_empty() {
                return Some(child);
            }
            if let Some(found) = node_below(child, rest) {
                return Some(found);
            }
        }
    }
    None
}

/// The first node, in document order, with this path. The root's path is `/`, a child of the root has `/` and its name,
/// and every other node has its parent's path, `/` and its name (ePAPR 1.1, 2.2.3).
pub fn node_at<'a>(tree: &'a Tree, path: &[u8]) -> Option<&'a Node>
    ensures { option_copied result ≡ node_of tree.now path.now }
{
    if path == b"/".as_slice() {
        return Some(&tree.root);
    }
    node_below(&tree.root, path)
}

/// Whether the node's phandle is the number.
fn has_phandle(node: &Node, number: u32) -> bool
    ensures { result ≡ is_phandle number node.now }
{
    match prop(node, b"phandle") {
        Some(value) => u32_of(value) == Some(number),
        None => false,
    }
}

/// The first node below this one whose phandle is the number.
fn phandle_below(node: &Node, number: u32) -> Option<&Node>
    ensures { (before : List ℕ) → option_copied result
        ≡ first_node (λ place. is_phandle number place.1) (nodes_below node.now before) }
{
    for child in &node.children {
        if has_phandle(child, number) {
            return Some(child);
        }
        if let Some(found) = phandle_below(child, number) {
            return Some(found);
        }
    }
    None
}

/// The first node, in document order, whose property `phandle` is a `u32` of this number (ePAPR 1.1, 2.3.3).
pub fn find_phandle(tree: &Tree, number: u32) -> Option<&Node>
    ensures { option_copied result ≡ node_of_phandle tree.now number }
{
    if has_phandle(&tree.root, number) {
        return Some(&tree.root);
    }
    phandle_below(&tree.root, number)
}
