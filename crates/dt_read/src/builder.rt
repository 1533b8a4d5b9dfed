//! Building a tree from its tokens, one by one.

ghost use Rattle.std.specs.Prelude.{◌≡◌, [], ◌∷◌, None, List, MatchResult, false};
ghost use Rattle.dt_model.specs.Token.{Token as Spelled, BeginNode, Prop, EndNode, is_end, onto};
ghost use Rattle.dt_model.specs.Node.{node_tokens};
ghost use Rattle.dt_model.specs.Rule.{broken, broken_by_property, broken_by_finish, depth};
ghost use Rattle.dt_read.specs.Given.{FailsBy, TakesToken, token_view};
ghost use Rattle.dt_read.specs.Built.{IsFresh, IsWithin, IsClosed, inside};

use crate::fault::BlobFault;
use crate::names::Names;
use crate::token::Token;
use dt_model::{Node, Property, is_node_name, is_property_name};
use outside::Bytes;
use std::alloc::Global;
use std::marker::Model;

const MOST_NODES: u32 = 65536;

const MOST_PROPERTIES: u32 = 65536;

const MOST_OUTER: usize = 31;

/// A node whose end is yet to come.
#[derive(Drop)]
struct Open<'a> {
    name: Bytes,
    props: Vec<Property>,
    children: Vec<Node>,
    property_names: Names<'a>,
    child_names: Names<'a>,
}

#[derive(Drop)]
enum Place<'a> {
    Before,
    /// The nodes around the innermost open one, from the root on, and that one.
    Inside(Vec<Open<'a>>, Open<'a>),
    After(Node),
}

/// What the tokens so far make. Contracts see the list of these tokens, the nearest first.
#[derive(Drop)]
pub struct Builder<'a> {
    place: Place<'a>,
    nodes: u32,
    properties: u32,
}

impl<'a> Model for Builder<'a> {
    ghost use Rattle.std.specs.Prelude.{List};
    ghost use Rattle.dt_model.specs.Token.{Token as SpelledToken};

    ghost Value = { List SpelledToken };

    ghost use Rattle.dt_read.specs.Built.{so_far, IsBuilt};

    ghost view = { λ builder. so_far builder.place };

    ghost invariant = { λ builder. IsBuilt builder.place builder.nodes builder.properties };
}

/// A node that is open, with nothing in it yet.
fn make_open<'a>(alloc: Global, name: &[u8]) -> Result<Open<'a>, BlobFault>
    ensures { MatchResult result (λ node. IsFresh node name.now) (λ fault. fault ≡ BlobFault.NoMemory) }
{
    Ok(Open {
        name: Bytes::of(alloc, name)?,
        props: Vec::new(alloc),
        children: Vec::new(alloc),
        property_names: Names::new(alloc),
        child_names: Names::new(alloc),
    })
}

/// Begins the root.
fn begin_root<'a>(alloc: Global, name: &[u8]) -> Result<Builder<'a>, BlobFault>
    ensures { TakesToken [] (BeginNode name.now) result }
{
    if !name.is_empty() {
        return Err(BlobFault::Rule(11));
    }
    let root = make_open(alloc, name)?;
    Ok(Builder {
        place: Place::Inside(Vec::new(alloc), root),
        nodes: 1,
        properties: 0,
    })
}

/// Begins a child of the innermost open node.
fn begin_child<'a>(
    alloc: Global,
    outer: Vec<Open<'a>>,
    here: Open<'a>,
    nodes: u32,
    properties: u32,
    name: &'a [u8],
) -> Result<Builder<'a>, BlobFault>
    requires { IsWithin outer.items here nodes properties }
    ensures { TakesToken (inside outer.entry here.entry) (BeginNode name.now) result }
{
    let mut outer = outer;
    let mut here = here;
    if !is_node_name(name) {
        return Err(BlobFault::Rule(9));
    }
    if outer.len() >= MOST_OUTER {
        return Err(BlobFault::Rule(10));
    }
    if nodes >= MOST_NODES {
        return Err(BlobFault::Rule(13));
    }
    if !here.child_names.add(name)? {
        return Err(BlobFault::Rule(14));
    }
    let child = make_open(alloc, name)?;
    outer.push(here)?;
    Ok(Builder {
        place: Place::Inside(outer, child),
        nodes: nodes + 1,
        properties,
    })
}

/// A node behind the root, which is a fault.
fn begin_behind<'a>(root: Node, name: &[u8]) -> Result<Builder<'a>, BlobFault>
    requires { IsClosed (onto (node_tokens root) []) }
    ensures { TakesToken (onto (node_tokens root) []) (BeginNode name.now) result }
{
    if is_node_name(name) {
        Err(BlobFault::Rule(11))
    } else {
        Err(BlobFault::Rule(9))
    }
}

/// Adds a property to the innermost open node.
fn add_property<'a>(
    alloc: Global,
    outer: Vec<Open<'a>>,
    here: Open<'a>,
    nodes: u32,
    properties: u32,
    name: &'a [u8],
    value: &[u8],
) -> Result<Builder<'a>, BlobFault>
    requires { IsWithin outer.items here nodes properties }
    ensures { TakesToken (inside outer.entry here.entry) (Prop name.now value.now) result }
{
    let mut here = here;
    if !is_property_name(name) {
        return Err(BlobFault::Rule(9));
    }
    if !here.children.is_empty() {
        return Err(BlobFault::Rule(12));
    }
    if properties >= MOST_PROPERTIES {
        return Err(BlobFault::Rule(13));
    }
    if !here.property_names.add(name)? {
        return Err(BlobFault::Rule(14));
    }
    let property = Property {
        name: Bytes::of(alloc, name)?,
        value: Bytes::of(alloc, value)?,
    };
    here.props.push(property)?;
    Ok(Builder {
        place: Place::Inside(outer, here),
        nodes,
        properties: properties + 1,
    })
}

/// Why a property can't stand before the root or behind it.
fn property_fault(name: &[u8]) -> BlobFault
    ensures { (t : List Spelled) → depth t ≡ 0 → FailsBy result (broken_by_property t name.now) }
{
    if is_property_name(name) {
        BlobFault::Rule(11)
    } else {
        BlobFault::Rule(9)
    }
}

/// Ends the innermost open node.
fn end_node<'a>(
    outer: Vec<Open<'a>>,
    here: Open<'a>,
    nodes: u32,
    properties: u32,
) -> Result<Builder<'a>, BlobFault>
    requires { IsWithin outer.items here nodes properties }
    ensures { TakesToken (inside outer.entry here.entry) EndNode result }
{
    let mut outer = outer;
    let node = Node {
        name: here.name,
        props: here.props,
        children: here.children,
    };
    match outer.pop() {
        None => Ok(Builder {
            place: Place::After(node),
            nodes,
            properties,
        }),
        Some(parent) => {
            let mut parent = parent;
            parent.children.push(node)?;
            Ok(Builder {
                place: Place::Inside(outer, parent),
                nodes,
                properties,
            })
        }
    }
}

/// Takes the beginning of a node.
fn begin<'a>(alloc: Global, builder: Builder<'a>, name: &'a [u8]) -> Result<Builder<'a>, BlobFault>
    ensures { TakesToken builder.entry (BeginNode name.now) result }
{
    let Builder {
        place,
        nodes,
        properties,
    } = builder;
    match place {
        Place::Before => begin_root(alloc, name),
        Place::Inside(outer, here) => begin_child(alloc, outer, here, nodes, properties, name),
        Place::After(root) => begin_behind(root, name),
    }
}

/// Takes a property.
fn property<'a>(
    alloc: Global,
    builder: Builder<'a>,
    name: &'a [u8],
    value: &[u8],
) -> Result<Builder<'a>, BlobFault>
    ensures { TakesToken builder.entry (Prop name.now value.now) result }
{
    let Builder {
        place,
        nodes,
        properties,
    } = builder;
    match place {
        Place::Inside(outer, here) => add_property(
            alloc, outer, here, nodes, properties, name, value,
        ),
        Place::Before => Err(property_fault(name)),
        Place::After(_) => Err(property_fault(name)),
    }
}

/// Takes the end of a node.
fn end(builder: Builder<'_>) -> Result<Builder<'_>, BlobFault>
    ensures { TakesToken builder.entry EndNode result }
{
    let Builder {
        place,
        nodes,
        properties,
    } = builder;
    match place {
        Place::Inside(outer, here) => end_node(outer, here, nodes, properties),
        Place::Before => Err(BlobFault::Rule(11)),
        Place::After(_) => Err(BlobFault::Rule(11)),
    }
}

impl<'a> Builder<'a> {
    /// No token yet.
    pub fn new() -> Builder<'a>
        ensures { result ≡ [] }
    {
        Builder {
            place: Place::Before,
            nodes: 0,
            properties: 0,
        }
    }

    /// Takes one more token, which isn't END.
    pub fn take(self, alloc: Global, token: Token<'a>) -> Result<Builder<'a>, BlobFault>
        requires { is_end (token_view token) ≡ false }
        ensures { MatchResult result
            (λ after. (broken self.entry (token_view token.entry) ≡ None) × (after ≡ onto (token_view token.entry ∷ []) self.entry))
            (λ fault. FailsBy fault (broken self.entry (token_view token.entry))) }
    {
        match token {
            Token::BeginNode(name) => begin(alloc, self, name),
            Token::Prop(name, value) => property(alloc, self, name, value),
            Token::EndNode => end(self),
            Token::Nop => Ok(self),
            Token::Finish => unreachable!(),
        }
    }

    /// The root, where END comes.
    pub fn finish(self) -> Result<Node, BlobFault>
        ensures { MatchResult result
            (λ root. (broken_by_finish self.entry ≡ None) × (self.entry ≡ onto (node_tokens root) []))
            (λ fault. FailsBy fault (broken_by_finish self.entry)) }
    {
        let Builder {
            place,
            nodes: _,
            properties: _,
        } = self;
        match place {
            Place::Before => Err(BlobFault::Rule(11)),
            Place::Inside(_, _) => Err(BlobFault::Rule(12)),
            Place::After(root) => Ok(root),
        }
    }
}
