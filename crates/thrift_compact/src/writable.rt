//! Which structs have bytes.

ghost use Rattle.std.specs.Prelude.{◌≡◌, ◌≤◌, ◌&&◌, ◌↔◌, IsTrue};
ghost use Rattle.thrift_compact.specs.Tree.{count, count_pairs, fields_nest};
ghost use Rattle.thrift_compact.specs.View.{view, views, pair_views, field_views, tree_view};
ghost use Rattle.thrift_compact.specs.Writable.{HasBytes};
ghost use Rattle.thrift_compact.specs.Shapes.{is_of_type};
ghost use Rattle.thrift_compact.specs.inner.Writable.{is_field, is_list, is_map, can_write, can_write_each, can_write_pairs, can_write_fields};

use crate::tree::{DEEPEST, Field, Node, Tree, type_code};
use crate::writing::is_element;

/// The types that a list, a set or a map can announce are below this one.
const TYPES: u8 = 16;

/// Whether some bytes have the struct, and lists, sets, maps and structs nest in it at most `deep`
/// levels. With 32 for `deep` it is true exactly when [`write_struct`](crate::write_struct) is not
/// refused Thrift. Takes no memory, and time linear in the tree. (Thrift's compact protocol, "Struct Encoding".)
pub fn has_bytes(tree: &Tree, deep: u32) -> bool
    ensures { let seen = tree_view tree.now in IsTrue result ↔ (fields_nest seen ≤ deep) × HasBytes seen }
{
    can_write_fields(deep.min(DEEPEST), tree.fields.as_slice())
}

/// Whether a struct can be written that has these fields, and its values nest at most `deep` levels.
#[cycle(can_write)]
fn can_write_fields(deep: u32, fields: &[Field]) -> bool
    ensures { result ≡ can_write_fields deep (field_views fields.now) }
{
    for field in fields {
        if !is_field(field) || !can_write(deep, &field.value) {
            return false;
        }
    }
    true
}

/// Whether a struct may have the field: its value has a type.
fn is_field(field: &Field) -> bool
    ensures { result ≡ is_field field.now.id (view field.now.value) }
{
    // For the proof: an id is within its type.
    let _id = field.id;
    type_code(&field.value) < TYPES
}

/// Whether a value can be written, and nests at most `deep` levels. It looks no deeper.
#[cycle(can_write)]
fn can_write(deep: u32, node: &Node) -> bool
    ensures { result ≡ can_write deep (view node.now) }
{
    match node {
        Node::Bool(_) | Node::Flag(_) => true,
        // For the proof: numbers and lengths are within their types, and bytes have each of them.
        Node::I8(number) => {
            let _number = *number;
            true
        }
        Node::I16(number) => {
            let _number = *number;
            true
        }
        Node::I32(number) => {
            let _number = *number;
            true
        }
        Node::I64(number) => {
            let _number = *number;
            true
        }
        Node::Double(bytes) => {
            let _bytes: &[u8] = bytes;
            true
        }
        Node::Binary(text) => {
            let _text = text.as_slice();
            true
        }
        Node::List(kind, items) | Node::Set(kind, items) => {
            let code = kind.code();
            let items = items.as_slice();
            deep > 0 && is_list(code, items) && can_write_each(deep - 1, code, items)
        }
        Node::EmptyMap => deep > 0,
        Node::Map(key, value, pairs) => {
            let pairs = pairs.as_slice();
            let key = key.code();
            let value = value.code();
            if deep == 0 {
                return false;
            }
            if !is_map(key, value, pairs) {
                return false;
            }
            can_write_pairs(deep - 1, key, value, pairs)
        }
        Node::Struct(fields) => deep > 0 && can_write_fields(deep - 1, fields.as_slice()),
    }
}

/// Whether there can be a list or a set of this type with these elements.
fn is_list(code: u8, nodes: &[Node]) -> bool
    ensures { result ≡ is_list code (count (views nodes.now)) }
{
    code < TYPES
}

/// Whether a list or a set of this type can have these elements.
#[cycle(can_write)]
fn can_write_each(deep: u32, code: u8, nodes: &[Node]) -> bool
    ensures { result ≡ can_write_each deep code (views nodes.now) }
{
    for node in nodes {
        if !may_hold(code, node) || !can_write(deep, node) {
            return false;
        }
    }
    true
}

/// Whether a list or a set of this type may hold the value.
fn may_hold(code: u8, node: &Node) -> bool
    ensures { result ≡ is_of_type code (view node.now) }
{
    is_element(code, node)
}

/// Whether there can be a map of these types with these pairs.
#[tactic(auto, using(crate::proofs::Writes::count_pair_views, crate::proofs::Passed::pairs_told), unfolding(crate::specs::inner::Writable::is_map))]
fn is_map(key: u8, value: u8, pairs: &[(Node, Node)]) -> bool
    ensures { result ≡ is_map key value (count_pairs (pair_views pairs.now)) }
{
    key < TYPES && value < TYPES && !pairs.is_empty()
}

/// Whether a map of these types can have these pairs.
#[cycle(can_write)]
fn can_write_pairs(deep: u32, keys: u8, values: u8, pairs: &[(Node, Node)]) -> bool
    ensures { result ≡ can_write_pairs deep keys values (pair_views pairs.now) }
{
    for (key, value) in pairs {
        let writes_key = can_write(deep, key);
        let writes_value = can_write(deep, value);
        if !may_hold(keys, key) || !may_hold(values, value) || !writes_key || !writes_value {
            return false;
        }
    }
    true
}
