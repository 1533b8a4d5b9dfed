//! The nodes of a configuration in document order, each with what it is and where it stands.

ghost use Rattle.std.specs.Prelude.{◌≡◌, ◌++◌, ◌∷◌, IfOk, OnOk};
ghost use Rattle.hv_config.specs.Seat.{seats_below, seats_of};

use crate::role::{Role, child_role, is_stranger};
use dt_model::{Node, Tree};
use outside::{Bytes, NoMemory};
use std::alloc::Global;
use std::marker::Model;

/// A node, what it is, and what stands before the slash of its children: its path, and nothing for the root.
#[derive(Drop)]
pub struct Seat<'a> {
    pub role: Role,
    pub before: Bytes,
    pub node: &'a Node,
}

impl<'a> Model for Seat<'a> {
    ghost use Rattle.hv_config.specs.Seat.{Seat as SeatValue};
    ghost use Rattle.dt_model.specs.contracts.tree.Node.{the_row};
    ghost use Rattle.std.specs.Coded.{codes};

    ghost Value = { SeatValue };

    ghost coded = { Prim.hlevel (codes, the_row.coded) };

    ghost view = { λ seat. record { role = seat.role; before = seat.before; node = seat.node.now } };
}

/// The path of a child: what stands before its slash, and its name.
fn child_path(alloc: Global, before: &[u8], name: &[u8]) -> Result<Bytes, NoMemory>
    ensures { IfOk result (λ path. path ≡ before.now ++ 0x2f ∷ name.now) }
{
    let mut path = Vec::from_slice(alloc, before)?;
    path.push(b'/')?;
    path.extend_from_slice(name)?;
    Ok(Bytes::from_vec(path))
}

/// Adds the seats below the node, each child before what is below it. None is looked for below a stranger.
fn push_below<'a>(
    alloc: Global,
    seats: &mut Vec<Seat<'a>>,
    node: &'a Node,
    role: Role,
    before: &[u8],
) -> Result<(), NoMemory>
    ensures { OnOk result (seats.new.items ≡ seats.old.items ++ seats_below node.now role before.now) }
{
    if is_stranger(role) {
        return Ok(());
    }
    for child in &node.children {
        let role = child_role(role, child.name.as_slice());
        let path = child_path(alloc, before, child.name.as_slice())?;
        let before = path.copy(alloc)?;
        seats.push(Seat {
            role,
            before,
            node: child,
        })?;
        push_below(alloc, seats, child, role, path.as_slice())?;
    }
    Ok(())
}

/// All seats of a tree.
pub fn seats_of<'a>(alloc: Global, tree: &'a Tree) -> Result<Vec<Seat<'a>>, NoMemory>
    ensures { IfOk result (λ seats. seats.items ≡ seats_of tree.now) }
{
    let mut seats = Vec::new(alloc);
    let before = Bytes::of(alloc, b"")?;
    seats.push(Seat {
        role: Role::Root,
        before,
        node: &tree.root,
    })?;
    push_below(alloc, &mut seats, &tree.root, Role::Root, b"")?;
    Ok(seats)
}
