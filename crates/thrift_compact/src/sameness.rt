//! Whether two trees are the same.

ghost use Rattle.std.specs.Prelude.{◌≡◌, ◌↔◌, IsTrue, map};
ghost use Rattle.thrift_compact.specs.View.{code_of, view, views, pair_views, field_views, tree_view};

use crate::tree::{ElementType, Field, Node, Tree};

impl Tree {
    /// Whether two structs are the same, with all that is in them: the same fields in the same order. Takes no memory,
    /// and time linear in the lesser one.
    pub fn same(&self, other: &Tree) -> bool
        ensures { IsTrue result ↔ (tree_view self.now ≡ tree_view other.now) }
    {
        same_fields(self.fields.as_slice(), other.fields.as_slice())
    }
}

#[cycle(same)]
fn same_fields(a: &[Field], b: &[Field]) -> bool
    ensures { IsTrue result ↔ (field_views a.now ≡ field_views b.now) }
{
    if a.len() != b.len() {
        return false;
    }
    for (i, field) in a.iter().enumerate() {
        let other = &b[i];
        if field.id != other.id || !same_node(&field.value, &other.value) {
            return false;
        }
    }
    true
}

#[cycle(same)]
fn same_node(a: &Node, b: &Node) -> bool
    ensures { IsTrue result ↔ (view a.now ≡ view b.now) }
{
    match (a, b) {
        (Node::Bool(a), Node::Bool(b)) => a == b,
        (Node::Flag(a), Node::Flag(b)) => a == b,
        (Node::I8(a), Node::I8(b)) => a == b,
        (Node::I16(a), Node::I16(b)) => a == b,
        (Node::I32(a), Node::I32(b)) => a == b,
        (Node::I64(a), Node::I64(b)) => a == b,
        (Node::Double(a), Node::Double(b)) => a == b,
        (Node::Binary(a), Node::Binary(b)) => a == b,
        (Node::List(j, a), Node::List(k, b)) => {
            j.code() == k.code() && same_nodes(a.as_slice(), b.as_slice())
        }
        (Node::Set(j, a), Node::Set(k, b)) => {
            j.code() == k.code() && same_nodes(a.as_slice(), b.as_slice())
        }
        (Node::EmptyMap, Node::EmptyMap) => true,
        (Node::Map(j, x, a), Node::Map(k, y, b)) => {
            have_same_codes(*j, *k, *x, *y) && same_pairs(a.as_slice(), b.as_slice())
        }
        (Node::Struct(a), Node::Struct(b)) => same_fields(a.as_slice(), b.as_slice()),
        _ => false,
    }
}

#[cycle(same)]
fn same_nodes(a: &[Node], b: &[Node]) -> bool
    ensures { IsTrue result ↔ (views a.now ≡ views b.now) }
{
    if a.len() != b.len() {
        return false;
    }
    for (i, node) in a.iter().enumerate() {
        if !same_node(node, &b[i]) {
            return false;
        }
    }
    true
}

#[cycle(same)]
fn same_pairs(a: &[(Node, Node)], b: &[(Node, Node)]) -> bool
    ensures { IsTrue result ↔ (pair_views a.now ≡ pair_views b.now) }
{
    if a.len() != b.len() {
        return false;
    }
    for (i, (key, value)) in a.iter().enumerate() {
        let (other_key, other_value) = &b[i];
        if !same_node(key, other_key) || !same_node(value, other_value) {
            return false;
        }
    }
    true
}

/// Whether the first two types have one code, and the other two.
fn have_same_codes(j: ElementType, k: ElementType, x: ElementType, y: ElementType) -> bool
    ensures { IsTrue result ↔ (code_of j ≡ code_of k) × (code_of x ≡ code_of y) }
{
    j.code() == k.code() && x.code() == y.code()
}
