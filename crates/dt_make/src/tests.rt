//! What no clause says: that calls succeed where memory is ample.

use super::{leaf, node, push_numbers, push_text};
use std::test::Fail;

#[test]
fn a_node_is_made(rt: HostRuntime) -> Result<(), Fail> {
    let alloc = rt.alloc();
    let mut properties = Vec::new(alloc);
    push_text(alloc, &mut properties, b"kind", b"ab")?;
    push_numbers(alloc, &mut properties, b"reg", &[1, 0x0203_0405])?;
    let mut children = Vec::new(alloc);
    children.push(leaf(alloc, b"below", properties)?)?;
    let above = node(alloc, b"above", Vec::new(alloc), children)?;
    assert_eq!(rt; above.name.as_slice(), b"above".as_slice());
    assert_eq!(rt; above.children.len(), 1);
    let below = &above.children[0];
    assert_eq!(rt; below.props.len(), 2);
    assert_eq!(rt; below.props[0].value.as_slice(), b"ab\0".as_slice());
    assert_eq!(rt;
        below.props[1].value.as_slice(),
        [0u8, 0, 0, 1, 2, 3, 4, 5].as_slice()
    );
    Ok(())
}
