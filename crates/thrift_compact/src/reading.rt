//! Trees from bytes.

ghost use Rattle.std.specs.Prelude.{◌≡◌, ◌+◌, ◌<◌, ◌≤◌, length, IfOk};
ghost use Rattle.bits.specs.Refusals.{OnFault, RefusedOnly};
ghost use Rattle.bits.specs.Codec.{NothingStands, NothingStandsEver};
ghost use Rattle.thrift_compact.specs.Compact.{IsThrift};
ghost use Rattle.thrift_compact.specs.View.{code_of, view, views, pair_views, field_views, tree_view};
ghost use Rattle.thrift_compact.specs.Reading.{IsOfBytes, IsNamed};
ghost use Rattle.thrift_compact.specs.inner.Reading.{IsRefusedFor, IsNesting, ValueOf, ElementOf, ElementsOf, ListOf, PairsOf, FieldsOf};

use crate::heads::{field_head_at, list_head_at, map_types_at};
use crate::numbers::{binary_at, byte_at, double_at, i8_at, i16_at, i32_at, i64_at};
use crate::tree::{DEEPEST, ElementType, Field, Node, Tree};
use bits::{R, Refusal, read_uleb};
use std::alloc::Global;

/// The struct at the start of `bytes`, and how many bytes it takes.
///
/// The fields come in the order in which they stand. Lists, sets, maps and structs may nest up to
/// 32 levels in it. What follows it is not looked at. Time and memory are linear in the bytes
/// that it takes.
///
/// Refused Truncated where the bytes end within it or a size is above the number of remaining bytes,
/// and Thrift where a type is none, a number does not fit its type, a field's id does not fit 16
/// bits, or it nests deeper: no struct is there then, whatever follows the bytes. So a struct that
/// is cut is refused Truncated. (Thrift's compact protocol, "Struct Encoding".)
pub fn read_struct(alloc: Global, bytes: &[u8]) -> R<(Tree, usize)>
    ensures stands { IfOk result (λ x. IsThrift bytes.now (tree_view x.0) x.1) }
    ensures within { IfOk result (λ x. x.1 ≤ length bytes.now) }
    ensures only { OnFault result (NothingStands (IsThrift bytes.now)) }
    ensures which { RefusedOnly IsOfBytes result }
    ensures whatever_follows { (result ≡ Err Refusal.Thrift) → NothingStandsEver IsThrift bytes.now }
{
    let (fields, used) = fields_at(alloc, DEEPEST, bytes)?;
    Ok((Tree { fields }, used))
}

/// Fields up to the byte that ends them.
#[cycle(read)]
pub(crate) fn fields_at(alloc: Global, left: u32, bytes: &[u8]) -> R<(Vec<Field>, usize)>
    ensures stands { IfOk result (λ x. FieldsOf left bytes.now (field_views x.0.items) x.1) }
    ensures within { IfOk result (λ x. x.1 ≤ length bytes.now) }
    ensures which { RefusedOnly (IsRefusedFor (FieldsOf left) bytes.now) result }
{
    let mut fields = Vec::new(alloc);
    let mut previous: i16 = 0;
    let mut at = 0;
    while at < bytes.len() {
        if bytes[at] == 0 {
            return Ok((fields, at + 1));
        }
        let (_, rest) = bytes.split_at(at);
        let ((id, kind), head) = field_head_at(previous, rest)?;
        let (_, rest) = bytes.split_at(at + head);
        let (value, used) = value_at(alloc, kind, left, rest)?;
        fields.push(Field { id, value })?;
        previous = id;
        at += head + used;
    }
    Err(Refusal::Truncated)
}

/// A value of this type, in which `left` more levels may nest.
#[cycle(read)]
fn value_at(alloc: Global, kind: ElementType, left: u32, bytes: &[u8]) -> R<(Node, usize)>
    requires { IsNamed kind }
    ensures stands { IfOk result (λ x. ValueOf (code_of kind) left bytes.now (view x.0) x.1) }
    ensures within { IfOk result (λ x. x.1 ≤ length bytes.now) }
    ensures which { RefusedOnly (IsRefusedFor (ValueOf (code_of kind) left) bytes.now) result }
{
    match kind {
        ElementType::True => Ok((Node::Bool(true), 0)),
        ElementType::False => Ok((Node::Bool(false), 0)),
        ElementType::I8 => Ok((Node::I8(i8_at(bytes)?), 1)),
        ElementType::I16 => {
            let (short, used) = i16_at(bytes)?;
            Ok((Node::I16(short), used))
        }
        ElementType::I32 => {
            let (int, used) = i32_at(bytes)?;
            Ok((Node::I32(int), used))
        }
        ElementType::I64 => {
            let (long, used) = i64_at(bytes)?;
            Ok((Node::I64(long), used))
        }
        ElementType::Double => Ok((Node::Double(double_at(bytes)?), 8)),
        ElementType::Binary => {
            let (text, used) = binary_at(alloc, bytes)?;
            Ok((Node::Binary(text), used))
        }
        ElementType::Other(_) => Err(Refusal::Thrift),
        _ => nested_at(alloc, kind, left, bytes),
    }
}

/// A list, a set, a map or a struct.
#[cycle(read)]
fn nested_at(alloc: Global, kind: ElementType, left: u32, bytes: &[u8]) -> R<(Node, usize)>
    requires { IsNesting kind }
    ensures stands { IfOk result (λ x. ValueOf (code_of kind) left bytes.now (view x.0) x.1) }
    ensures within { IfOk result (λ x. x.1 ≤ length bytes.now) }
    ensures which { RefusedOnly (IsRefusedFor (ValueOf (code_of kind) left) bytes.now) result }
{
    if left == 0 {
        return Err(Refusal::Thrift);
    }
    match kind {
        ElementType::List => {
            let ((of, values), used) = list_at(alloc, left - 1, bytes)?;
            Ok((Node::List(of, values), used))
        }
        ElementType::Set => {
            let ((of, values), used) = list_at(alloc, left - 1, bytes)?;
            Ok((Node::Set(of, values), used))
        }
        ElementType::Map => map_at(alloc, left - 1, bytes),
        _ => {
            let (fields, used) = fields_at(alloc, left - 1, bytes)?;
            Ok((Node::Struct(fields), used))
        }
    }
}

/// What a list or a set holds.
#[cycle(read)]
fn list_at(alloc: Global, left: u32, bytes: &[u8]) -> R<((ElementType, Vec<Node>), usize)>
    ensures stands { IfOk result (λ x. ListOf left bytes.now (code_of x.0.0, views x.0.1.items) x.1) }
    ensures within { IfOk result (λ x. x.1 ≤ length bytes.now) }
    ensures which { RefusedOnly (IsRefusedFor (ListOf left) bytes.now) result }
{
    let ((kind, size), head) = list_head_at(bytes)?;
    let (_, rest) = bytes.split_at(head);
    if size > rest.len() as u64 {
        return Err(Refusal::Truncated);
    }
    let (values, used) = elements_at(alloc, kind, size, left, rest)?;
    Ok(((kind, values), head + used))
}

/// `size` elements of one type.
// Room is taken as they come: lists that each announce as many elements as there are bytes may
// nest, and would together ask for far more than the bytes can hold.
#[cycle(read)]
fn elements_at(
    alloc: Global,
    kind: ElementType,
    size: u64,
    left: u32,
    bytes: &[u8],
) -> R<(Vec<Node>, usize)>
    requires { IsNamed kind }
    ensures stands { IfOk result (λ x. ElementsOf (code_of kind) left size bytes.now (views x.0.items) x.1) }
    ensures within { IfOk result (λ x. x.1 ≤ length bytes.now) }
    ensures which { RefusedOnly (IsRefusedFor (ElementsOf (code_of kind) left size) bytes.now) result }
{
    let mut values = Vec::new(alloc);
    let mut at = 0;
    for _ in 0..size {
        let (_, rest) = bytes.split_at(at);
        let (value, used) = element_at(alloc, kind, left, rest)?;
        values.push(value)?;
        at += used;
    }
    Ok((values, at))
}

/// An element of a list, a set or a map: a boolean one is a byte.
#[cycle(read)]
fn element_at(alloc: Global, kind: ElementType, left: u32, bytes: &[u8]) -> R<(Node, usize)>
    requires { IsNamed kind }
    ensures stands { IfOk result (λ x. ElementOf (code_of kind) left bytes.now (view x.0) x.1) }
    ensures within { IfOk result (λ x. x.1 ≤ length bytes.now) }
    ensures which { RefusedOnly (IsRefusedFor (ElementOf (code_of kind) left) bytes.now) result }
{
    match kind {
        ElementType::True | ElementType::False => Ok((Node::Flag(byte_at(bytes)?), 1)),
        _ => value_at(alloc, kind, left, bytes),
    }
}

/// A map.
#[cycle(read)]
fn map_at(alloc: Global, left: u32, bytes: &[u8]) -> R<(Node, usize)>
    ensures stands { IfOk result (λ x. ValueOf 11 (left + 1) bytes.now (view x.0) x.1) }
    ensures within { IfOk result (λ x. x.1 ≤ length bytes.now) }
    ensures which { RefusedOnly (IsRefusedFor (ValueOf 11 (left + 1)) bytes.now) result }
{
    let (size, head) = read_uleb(bytes)?;
    if size == 0 {
        return Ok((Node::EmptyMap, head));
    }
    let (keys, values) = map_types_at(bytes, size, head)?;
    let (_, rest) = bytes.split_at(head + 1);
    if size > rest.len() as u64 {
        return Err(Refusal::Truncated);
    }
    let (pairs, used) = pairs_at(alloc, keys, values, size, left, rest)?;
    Ok((Node::Map(keys, values, pairs), head + 1 + used))
}

/// `size` pairs of a key and a value.
#[cycle(read)]
fn pairs_at(
    alloc: Global,
    keys: ElementType,
    values: ElementType,
    size: u64,
    left: u32,
    bytes: &[u8],
) -> R<(Vec<(Node, Node)>, usize)>
    requires keys { IsNamed keys }
    requires values { IsNamed values }
    ensures stands { IfOk result (λ x. PairsOf (code_of keys) (code_of values) left size bytes.now (pair_views x.0.items) x.1) }
    ensures within { IfOk result (λ x. x.1 ≤ length bytes.now) }
    ensures which { RefusedOnly (IsRefusedFor (PairsOf (code_of keys) (code_of values) left size) bytes.now) result }
{
    let mut pairs = Vec::new(alloc);
    let mut at = 0;
    for _ in 0..size {
        let (_, rest) = bytes.split_at(at);
        let (key, head) = element_at(alloc, keys, left, rest)?;
        let (_, rest) = bytes.split_at(at + head);
        let (value, used) = element_at(alloc, values, left, rest)?;
        pairs.push((key, value))?;
        at += head + used;
    }
    Ok((pairs, at))
}
