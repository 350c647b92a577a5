//! Copies of trees.

ghost use Rattle.std.specs.Prelude.{◌≡◌, IfOk, map};
ghost use Rattle.bits.specs.Refusals.{RefusedMemoryOnly};
ghost use Rattle.thrift_compact.specs.View.{view, pair_view, field_view, tree_view};

use crate::tree::{Field, Node, Tree};
use bits::R;
use std::alloc::Global;

/// A copy of the fields. It fails only when out of memory.
#[cycle(copied)]
pub fn copied_fields(alloc: Global, fields: &[Field]) -> R<Vec<Field>>
    ensures same { IfOk result (λ copies. map field_view copies.items ≡ map field_view fields.now) }
    ensures which { RefusedMemoryOnly result }
{
    let mut copies = Vec::with_capacity(alloc, fields.len())?;
    for field in fields {
        let value = copied_node(alloc, &field.value)?;
        copies.push(Field {
            id: field.id,
            value,
        })?;
    }
    Ok(copies)
}

#[cycle(copied)]
fn copied_node(alloc: Global, node: &Node) -> R<Node>
    ensures same { IfOk result (λ copy. view copy ≡ view node.now) }
    ensures which { RefusedMemoryOnly result }
{
    match node {
        Node::Bool(value) => Ok(Node::Bool(*value)),
        Node::Flag(byte) => Ok(Node::Flag(*byte)),
        Node::I8(number) => Ok(Node::I8(*number)),
        Node::I16(number) => Ok(Node::I16(*number)),
        Node::I32(number) => Ok(Node::I32(*number)),
        Node::I64(number) => Ok(Node::I64(*number)),
        Node::Double(bytes) => Ok(Node::Double(*bytes)),
        Node::Binary(text) => {
            let copy = Vec::from_slice(alloc, text.as_slice())?;
            Ok(Node::Binary(copy))
        }
        Node::List(kind, items) => {
            let copies = copied_nodes(alloc, items.as_slice())?;
            Ok(Node::List(*kind, copies))
        }
        Node::Set(kind, items) => {
            let copies = copied_nodes(alloc, items.as_slice())?;
            Ok(Node::Set(*kind, copies))
        }
        Node::EmptyMap => Ok(Node::EmptyMap),
        Node::Map(key, value, pairs) => {
            let copies = copied_pairs(alloc, pairs.as_slice())?;
            Ok(Node::Map(*key, *value, copies))
        }
        Node::Struct(fields) => {
            let copies = copied_fields(alloc, fields.as_slice())?;
            Ok(Node::Struct(copies))
        }
    }
}

#[cycle(copied)]
fn copied_nodes(alloc: Global, nodes: &[Node]) -> R<Vec<Node>>
    ensures same { IfOk result (λ copies. map view copies.items ≡ map view nodes.now) }
    ensures which { RefusedMemoryOnly result }
{
    let mut copies = Vec::with_capacity(alloc, nodes.len())?;
    for node in nodes {
        copies.push(copied_node(alloc, node)?)?;
    }
    Ok(copies)
}

#[cycle(copied)]
fn copied_pairs(alloc: Global, pairs: &[(Node, Node)]) -> R<Vec<(Node, Node)>>
    ensures same { IfOk result (λ copies. map pair_view copies.items ≡ map pair_view pairs.now) }
    ensures which { RefusedMemoryOnly result }
{
    let mut copies = Vec::with_capacity(alloc, pairs.len())?;
    for (key, value) in pairs {
        let key = copied_node(alloc, key)?;
        let value = copied_node(alloc, value)?;
        copies.push((key, value))?;
    }
    Ok(copies)
}

impl Tree {
    /// A copy of the struct. It fails only when out of memory.
    pub fn copied(&self, alloc: Global) -> R<Tree>
        ensures same { IfOk result (λ copy. tree_view copy ≡ tree_view self.now) }
        ensures which { RefusedMemoryOnly result }
    {
        let fields = copied_fields(alloc, self.fields.as_slice())?;
        Ok(Tree { fields })
    }
}
