//! The rules C1 to C4, each a test of one node.

ghost use Rattle.std.specs.Prelude.{◌≡◌, is_none, IfOk, None, find, Some, MatchResult};
ghost use Rattle.std.specs.List.{list_any};
ghost use Rattle.std.specs.Option.{option_copied, option_map};
ghost use Rattle.std.specs.Str.{bytes_eq};
ghost use Rattle.dt_model.specs.Node.{name_of, path_of as node_path};
ghost use Rattle.hv_config.specs.Form.{form_of as spec_form_of};
ghost use Rattle.hv_config.specs.Rule as spec;
ghost use Rattle.hv_config.specs.Rule.{Says};

use crate::fault::{Fault, Rule};
use crate::form::{form_of, has_form};
use crate::role::{Role, is_stranger};
use crate::seat::Seat;
use dt_model::{Node, Property, prop};
use outside::{Bytes, NoMemory};
use std::alloc::Global;

/// The node has no property with the name.
fn lacks_value(node: &Node, name: &[u8]) -> bool
    ensures { result ≡ spec.lacks_value node.now name.now }
{
    prop(node, name).is_none()
}

/// One of the nodes has the name.
fn is_among(nodes: &[Node], name: &[u8]) -> bool
    ensures { result ≡ list_any (λ node. bytes_eq (name_of node) name.now) nodes.now }
{
    nodes.iter().any(|node| node.name.as_slice() == name)
}

/// The node has no child with the name.
fn lacks_child(node: &Node, name: &[u8]) -> bool
    ensures { result ≡ spec.lacks_child node.now name.now }
{
    !is_among(&node.children, name)
}

/// The table has no such property.
fn is_odd(role: Role, property: &Property) -> bool
    ensures { result ≡ is_none (spec_form_of role property.now.name) }
{
    form_of(role, property.name.as_slice()).is_none()
}

/// One of the properties is such.
fn has_odd(role: Role, properties: &[Property]) -> bool
    ensures { result ≡ list_any (λ property. is_none (spec_form_of role property.name)) properties.now }
{
    properties.iter().any(|property| is_odd(role, property))
}

/// C2: the node has such a property.
fn has_odd_property(seat: &Seat) -> bool
    ensures { result ≡ spec.has_odd_property seat.now }
{
    has_odd(seat.role, &seat.node.props)
}

/// What the node has to have is absent.
fn lacks(role: Role, node: &Node) -> bool
    ensures { result ≡ spec.lacks role node.now }
{
    match role {
        Role::Root => {
            lacks_value(node, b"compatible")
                || lacks_child(node, b"areas")
                || lacks_child(node, b"partitions")
        }
        Role::Area => lacks_value(node, b"base") || lacks_value(node, b"size"),
        Role::Partition => {
            lacks_value(node, b"cpus")
                || lacks_value(node, b"image")
                || lacks_value(node, b"tree-at")
                || lacks_value(node, b"tree-size")
                || lacks_child(node, b"areas")
        }
        Role::GuestArea => lacks_value(node, b"area") || lacks_value(node, b"at"),
        Role::Handle => lacks_value(node, b"kind") || lacks_value(node, b"target"),
        _ => false,
    }
}

/// The value has another form than the table says.
fn is_bad_value(role: Role, name: &[u8], value: &[u8]) -> bool
    ensures { result ≡ spec.is_bad_value role name.now value.now }
{
    match form_of(role, name) {
        Some(form) => !has_form(form, value),
        None => false,
    }
}

/// The property's value has another form.
fn is_bad(role: Role, property: &Property) -> bool
    ensures { result ≡ spec.is_bad_value role property.now.name property.now.value }
{
    is_bad_value(role, property.name.as_slice(), property.value.as_slice())
}

/// One of the properties' values has another form.
fn has_bad(role: Role, properties: &[Property]) -> bool
    ensures { result ≡ list_any (λ property. spec.is_bad_value role property.name property.value) properties.now }
{
    properties.iter().any(|property| is_bad(role, property))
}

/// C4: a value of the node has another form.
fn has_bad_value(seat: &Seat) -> bool
    ensures { result ≡ spec.has_bad_value seat.now }
{
    has_bad(seat.role, &seat.node.props)
}

/// C1: the node has no place in the table.
fn is_unknown(seat: &Seat) -> bool
    ensures { result ≡ spec.is_unknown seat.now }
{
    is_stranger(seat.role)
}

/// C3: the node lacks a property or a child.
fn is_incomplete(seat: &Seat) -> bool
    ensures { result ≡ spec.is_incomplete seat.now }
{
    lacks(seat.role, seat.node)
}

/// The first seat that breaks C1.
fn first_unknown<'s, 'a>(seats: &'s [Seat<'a>]) -> Option<&'s Seat<'a>>
    ensures { option_copied result ≡ find spec.is_unknown seats.now }
{
    seats.iter().find(|seat| is_unknown(seat))
}

/// The first seat that breaks C2.
fn first_odd<'s, 'a>(seats: &'s [Seat<'a>]) -> Option<&'s Seat<'a>>
    ensures { option_copied result ≡ find spec.has_odd_property seats.now }
{
    seats.iter().find(|seat| has_odd_property(seat))
}

/// The first seat that breaks C3.
fn first_incomplete<'s, 'a>(seats: &'s [Seat<'a>]) -> Option<&'s Seat<'a>>
    ensures { option_copied result ≡ find spec.is_incomplete seats.now }
{
    seats.iter().find(|seat| is_incomplete(seat))
}

/// The first seat that breaks C4.
fn first_bad<'s, 'a>(seats: &'s [Seat<'a>]) -> Option<&'s Seat<'a>>
    ensures { option_copied result ≡ find spec.has_bad_value seats.now }
{
    seats.iter().find(|seat| has_bad_value(seat))
}

/// The path of a node, from what stands before the slash of its children.
fn path_of(alloc: Global, before: &[u8]) -> Result<Bytes, NoMemory>
    ensures { IfOk result (λ path. path ≡ node_path before.now) }
{
    if before.is_empty() {
        Bytes::of(alloc, b"/")
    } else {
        Bytes::of(alloc, before)
    }
}

/// The fault at the seat.
fn fault_at(alloc: Global, number: u8, seat: &Seat) -> Fault
    ensures { Says result (Some (spec.breach number seat.now)) }
{
    match path_of(alloc, seat.before.as_slice()) {
        Ok(at) => Fault::Broken {
            rule: Rule {
                letter: b'C',
                number,
            },
            at,
        },
        Err(_) => Fault::NoMemory,
    }
}

/// Refuses where a seat was found.
fn refuse(alloc: Global, number: u8, seat: Option<&Seat>) -> Result<(), Fault>
    ensures { MatchResult result
        (λ _. option_copied seat.entry ≡ None)
        (λ fault. Says fault (option_map (spec.breach number) (option_copied seat.entry))) }
{
    match seat {
        Some(seat) => Err(fault_at(alloc, number, seat)),
        None => Ok(()),
    }
}

/// Refuses where one of the four is broken: the least number first.
#[tactic(auto, unfolding(crate::specs::Rule::first_broken_among))]
pub fn check(alloc: Global, seats: &[Seat]) -> Result<(), Fault>
    ensures { MatchResult result
        (λ _. spec.first_broken_among seats.now ≡ None)
        (λ fault. Says fault (spec.first_broken_among seats.now)) }
{
    refuse(alloc, 1, first_unknown(seats))?;
    refuse(alloc, 2, first_odd(seats))?;
    refuse(alloc, 3, first_incomplete(seats))?;
    refuse(alloc, 4, first_bad(seats))
}
