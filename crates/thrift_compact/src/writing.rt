//! Bytes from trees.

ghost use Rattle.std.specs.Prelude.{◌≡◌, ℕ, ◌+◌, ◌<◌, ◌↔◌, ◌&&◌, List, length, OnOk, OnErr, IsTrue};
ghost use Rattle.bits.specs.Refusals.{OnFault, RefusedOnly};
ghost use Rattle.bits.specs.Codec.{Appends};
ghost use Rattle.thrift_compact.specs.Tree.{list, empty_map, map, struct};
ghost use Rattle.thrift_compact.specs.Compact.{kind, IsElement, IsThrift};
ghost use Rattle.thrift_compact.specs.View.{view, views, pair_views, field_view, field_views, tree_view};
ghost use Rattle.thrift_compact.specs.Length.{size_value, size_elements, size_pairs, size_struct, AppendsStruct};
ghost use Rattle.thrift_compact.specs.Shapes.{is_of_type, is_member, has_shape, each_has_shape, pairs_have_shape, pair_has_shape, fields_have_shape, IsShapeless};
ghost use Rattle.thrift_compact.specs.inner.Writing.{IsWithoutBytes, Keeps, AppendsValue, AppendsPair, AppendsField, SpellsValue, SpellsElement, SpellsElements, SpellsPair, SpellsPairs, SpellsField, SpellsFields};

use crate::heads::{put_field_head, put_list_head, put_map_head};
use crate::numbers::{put_binary, put_signed};
use crate::tree::{DEEPEST, Field, Node, Tree, type_code};
use bits::{R, Refusal};

/// Whether a list whose elements have the type `code` may hold the value.
pub(crate) fn is_element(code: u8, value: &Node) -> bool
    ensures { IsTrue result ↔ IsElement code (view value.now) }
{
    match type_code(value) {
        16 => code == 1 || code == 2,
        own => own > 2 && own == code,
    }
}

/// Writes the struct at the end of `out`: its fields in their order, with short headers where the
/// id is 1 to 15 above the previous field's, and each number and size in its shortest form. No bytes
/// that stand for the struct are fewer. Time is linear in the bytes that are written.
///
/// Refused Thrift where no bytes have this tree: a [`Node::Flag`] that is no element, a
/// [`Node::Bool`] that is one, an element that does not have the announced type, a code above 15, a
/// [`Node::Map`] without pairs, or more than 32 nested levels. Then, and when out of memory, `out` is
/// unchanged. (Thrift's compact protocol, "Struct Encoding".)
pub fn write_struct(tree: &Tree, out: &mut Vec<u8>) -> R<()>
    ensures stands { OnOk result (AppendsStruct (tree_view tree.now) out.old.items out.new.items) }
    ensures exact { OnOk result (length out.new.items ≡ length out.old.items + size_struct (tree_view tree.now)) }
    ensures only { OnFault result ((bytes : List ℕ) (used : ℕ) → IsThrift bytes (tree_view tree.now) used → ⊥) }
    ensures which { RefusedOnly (IsShapeless (fields_have_shape 32 (tree_view tree.now))) result }
    ensures unchanged { OnErr result (out.new.items ≡ out.old.items) }
{
    let kept = out.len();
    let done = put_fields(&tree.fields, DEEPEST, out);
    if done.is_err() {
        out.truncate(kept);
    }
    done
}

/// Fields and the byte that ends them.
#[cycle(write)]
fn put_fields(fields: &[Field], left: u32, out: &mut Vec<u8>) -> R<()>
    ensures stands { OnOk result (Appends (SpellsFields left (field_views fields.now)) (size_struct (field_views fields.now)) out.old.items out.new.items) }
    ensures which { RefusedOnly (IsWithoutBytes (SpellsFields left (field_views fields.now))) result }
    ensures kept { Keeps out.old.items out.new.items }
    ensures shape { RefusedOnly (IsShapeless (fields_have_shape left (field_views fields.now))) result }
{
    let mut previous: i16 = 0;
    for field in fields {
        put_field(previous, field, left, out)?;
        previous = field.id;
    }
    Ok(out.push(0)?)
}

#[cycle(write)]
pub(crate) fn put_field(previous: i16, field: &Field, left: u32, out: &mut Vec<u8>) -> R<()>
    ensures stands { let seen = field_view field.now in OnOk result (AppendsField previous left seen.0 seen.1 out.old.items out.new.items) }
    ensures which { let seen = field_view field.now in RefusedOnly (IsWithoutBytes (SpellsField previous left seen.0 seen.1)) result }
    ensures kept { Keeps out.old.items out.new.items }
    ensures shape { RefusedOnly (IsShapeless (is_member (view field.now.value) && has_shape left (view field.now.value))) result }
{
    let code = type_code(&field.value);
    if code == 16 {
        return Err(Refusal::Thrift);
    }
    put_field_head(previous, field.id, code, out)?;
    put_value(&field.value, left, out)
}

/// A value without its type, in which `left` more levels may nest.
#[cycle(write)]
fn put_value(value: &Node, left: u32, out: &mut Vec<u8>) -> R<()>
    ensures stands { OnOk result (AppendsValue left (view value.now) out.old.items out.new.items) }
    ensures which { RefusedOnly (IsWithoutBytes (SpellsValue left (view value.now))) result }
    ensures kept { Keeps out.old.items out.new.items }
    ensures shape { RefusedOnly (IsShapeless (has_shape left (view value.now))) result }
{
    match value {
        Node::Bool(_) => Ok(()),
        Node::Flag(byte) => Ok(out.push(*byte)?),
        Node::I8(z) => Ok(out.push(z.cast_unsigned())?),
        Node::I16(z) => put_signed(i64::from(*z), out),
        Node::I32(z) => put_signed(i64::from(*z), out),
        Node::I64(z) => put_signed(*z, out),
        Node::Double(bytes) => Ok(out.extend_from_slice(bytes)?),
        Node::Binary(text) => put_binary(text, out),
        Node::List(kind, values) => put_list(kind.code(), values, left, out),
        Node::Set(kind, values) => put_list(kind.code(), values, left, out),
        Node::EmptyMap => put_empty_map(left, out),
        Node::Map(keys, values, pairs) => put_map(keys.code(), values.code(), pairs, left, out),
        Node::Struct(fields) => put_struct(fields, left, out),
    }
}

/// A list or a set.
#[cycle(write)]
fn put_list(code: u8, values: &[Node], left: u32, out: &mut Vec<u8>) -> R<()>
    ensures stands { OnOk result (AppendsValue left (list code (views values.now)) out.old.items out.new.items) }
    ensures which { RefusedOnly (IsWithoutBytes (SpellsValue left (list code (views values.now)))) result }
    ensures kept { Keeps out.old.items out.new.items }
    ensures shape { RefusedOnly (IsShapeless (has_shape left (list code (views values.now)))) result }
{
    if left == 0 || code > 15 {
        return Err(Refusal::Thrift);
    }
    put_list_head(code, values.len(), out)?;
    put_elements(code, values, left - 1, out)
}

#[cycle(write)]
fn put_elements(code: u8, values: &[Node], left: u32, out: &mut Vec<u8>) -> R<()>
    ensures stands { OnOk result (Appends (SpellsElements code left (views values.now)) (size_elements (views values.now)) out.old.items out.new.items) }
    ensures which { RefusedOnly (IsWithoutBytes (SpellsElements code left (views values.now))) result }
    ensures kept { Keeps out.old.items out.new.items }
    ensures shape { RefusedOnly (IsShapeless (each_has_shape left code (views values.now))) result }
{
    for value in values {
        put_element(code, value, left, out)?;
    }
    Ok(())
}

#[cycle(write)]
fn put_element(code: u8, value: &Node, left: u32, out: &mut Vec<u8>) -> R<()>
    ensures stands { OnOk result (Appends (SpellsElement code left (view value.now)) (size_value (view value.now)) out.old.items out.new.items) }
    ensures which { RefusedOnly (IsWithoutBytes (SpellsElement code left (view value.now))) result }
    ensures kept { Keeps out.old.items out.new.items }
    ensures shape { RefusedOnly (IsShapeless (is_of_type code (view value.now) && has_shape left (view value.now))) result }
{
    if !is_element(code, value) {
        return Err(Refusal::Thrift);
    }
    put_value(value, left, out)
}

/// A map without pairs.
fn put_empty_map(left: u32, out: &mut Vec<u8>) -> R<()>
    ensures stands { OnOk result (AppendsValue left empty_map out.old.items out.new.items) }
    ensures which { RefusedOnly (IsWithoutBytes (SpellsValue left empty_map)) result }
    ensures kept { Keeps out.old.items out.new.items }
    ensures shape { RefusedOnly (IsShapeless (has_shape left empty_map)) result }
{
    if left == 0 {
        return Err(Refusal::Thrift);
    }
    Ok(out.push(0)?)
}

/// A map with pairs.
#[cycle(write)]
fn put_map(keys: u8, values: u8, pairs: &[(Node, Node)], left: u32, out: &mut Vec<u8>) -> R<()>
    ensures stands { let seen = map keys values (pair_views pairs.now) in OnOk result (AppendsValue left seen out.old.items out.new.items) }
    ensures which { RefusedOnly (IsWithoutBytes (SpellsValue left (map keys values (pair_views pairs.now)))) result }
    ensures kept { Keeps out.old.items out.new.items }
    ensures shape { RefusedOnly (IsShapeless (has_shape left (map keys values (pair_views pairs.now)))) result }
{
    if left == 0 || keys > 15 || values > 15 || pairs.is_empty() {
        return Err(Refusal::Thrift);
    }
    put_map_head(keys, values, pairs.len(), out)?;
    put_pairs(keys, values, pairs, left - 1, out)
}

#[cycle(write)]
fn put_pairs(keys: u8, values: u8, pairs: &[(Node, Node)], left: u32, out: &mut Vec<u8>) -> R<()>
    ensures stands { let seen = pair_views pairs.now in
        OnOk result (Appends (SpellsPairs keys values left seen) (size_pairs seen) out.old.items out.new.items) }
    ensures which { RefusedOnly (IsWithoutBytes (SpellsPairs keys values left (pair_views pairs.now))) result }
    ensures kept { Keeps out.old.items out.new.items }
    ensures shape { RefusedOnly (IsShapeless (pairs_have_shape left keys values (pair_views pairs.now))) result }
{
    for pair in pairs {
        put_pair(keys, values, pair, left, out)?;
    }
    Ok(())
}

#[cycle(write)]
fn put_pair(keys: u8, values: u8, pair: &(Node, Node), left: u32, out: &mut Vec<u8>) -> R<()>
    ensures stands { OnOk result (AppendsPair keys values left (view pair.now.0) (view pair.now.1) out.old.items out.new.items) }
    ensures which { RefusedOnly (IsWithoutBytes (SpellsPair keys values left (view pair.now.0) (view pair.now.1))) result }
    ensures kept { Keeps out.old.items out.new.items }
    ensures shape { RefusedOnly (IsShapeless (pair_has_shape left keys values (view pair.now.0) (view pair.now.1))) result }
{
    put_element(keys, &pair.0, left, out)?;
    put_element(values, &pair.1, left, out)
}

/// A struct in another value.
#[cycle(write)]
fn put_struct(fields: &[Field], left: u32, out: &mut Vec<u8>) -> R<()>
    ensures stands { OnOk result (AppendsValue left (struct (field_views fields.now)) out.old.items out.new.items) }
    ensures which { RefusedOnly (IsWithoutBytes (SpellsValue left (struct (field_views fields.now)))) result }
    ensures kept { Keeps out.old.items out.new.items }
    ensures shape { RefusedOnly (IsShapeless (has_shape left (struct (field_views fields.now)))) result }
{
    if left == 0 {
        return Err(Refusal::Thrift);
    }
    put_fields(fields, left - 1, out)
}
