//! The structure block: a node with all below it.

ghost use Rattle.std.specs.Prelude.{◌≡◌, ◌<◌, map, OnOk, IsErrOf};
ghost use Rattle.dt_model.specs.Node.{node_tokens, property_token};
ghost use Rattle.dt_model.specs.Canonical.{most_bytes};
ghost use Rattle.dt_write.specs.Layout.{with_tokens, size_of};

use crate::fault::WriteFault;
use crate::layout::Layout;
use dt_model::{Node, Property};

/// Lays out a node and all that it has.
pub fn write_node<'a>(layout: &mut Layout<'a>, node: &'a Node) -> Result<(), WriteFault>
    ensures laid { OnOk result (layout.new ≡ with_tokens layout.old (node_tokens node.now)) }
    ensures too_large { IsErrOf result WriteFault.TooLarge → most_bytes < size_of (with_tokens layout.old (node_tokens node.now)) }
{
    layout.begin(node)?;
    write_properties(layout, &node.props)?;
    for child in &node.children {
        write_node(layout, child)?;
    }
    layout.end()
}

/// Lays out the properties of a node.
fn write_properties<'a>(
    layout: &mut Layout<'a>,
    properties: &'a [Property],
) -> Result<(), WriteFault>
    ensures laid { OnOk result (layout.new ≡ with_tokens layout.old (map property_token properties.now)) }
    ensures too_large { IsErrOf result WriteFault.TooLarge → most_bytes < size_of (with_tokens layout.old (map property_token properties.now)) }
{
    for property in properties {
        layout.property(property)?;
    }
    Ok(())
}
