//! Values that are passed over: the bytes that they take are counted, and no memory is taken.

ghost use Rattle.std.specs.Prelude.{◌+◌, ◌≤◌, length, IfOk};
ghost use Rattle.bits.specs.Refusals.{RefusedOnly};
ghost use Rattle.thrift_compact.specs.View.{code_of};
ghost use Rattle.thrift_compact.specs.Reading.{IsNamed};
ghost use Rattle.thrift_compact.specs.inner.Reading.{IsRefusedFor, IsNesting, ValueOf, ElementOf, ElementsOf, ListOf, PairsOf, FieldsOf, SomethingStands};

use crate::heads::{field_head_at, list_head_at, map_types_at};
use crate::numbers::{byte_at, double_at, i8_at, i16_at, i32_at, i64_at, pass_binary};
use crate::tree::ElementType;
use bits::{R, Refusal, read_uleb};

/// Fields up to the byte that ends them.
#[cycle(pass)]
fn pass_fields(left: u32, bytes: &[u8]) -> R<usize>
    ensures stands { IfOk result (SomethingStands (FieldsOf left) bytes.now) }
    ensures within { IfOk result (λ used. used ≤ length bytes.now) }
    ensures which { RefusedOnly (IsRefusedFor (FieldsOf left) bytes.now) result }
{
    let mut previous: i16 = 0;
    let mut at = 0;
    while at < bytes.len() {
        if bytes[at] == 0 {
            return Ok(at + 1);
        }
        let (_, rest) = bytes.split_at(at);
        let ((id, kind), head) = field_head_at(previous, rest)?;
        let (_, rest) = bytes.split_at(at + head);
        let used = pass_value(kind, left, rest)?;
        previous = id;
        at += head + used;
    }
    Err(Refusal::Truncated)
}

/// A value of this type, in which `left` more levels may nest.
#[cycle(pass)]
pub(crate) fn pass_value(kind: ElementType, left: u32, bytes: &[u8]) -> R<usize>
    requires { IsNamed kind }
    ensures stands { IfOk result (SomethingStands (ValueOf (code_of kind) left) bytes.now) }
    ensures within { IfOk result (λ used. used ≤ length bytes.now) }
    ensures which { RefusedOnly (IsRefusedFor (ValueOf (code_of kind) left) bytes.now) result }
{
    match kind {
        ElementType::True | ElementType::False => Ok(0),
        ElementType::I8 => {
            let _byte = i8_at(bytes)?;
            Ok(1)
        }
        ElementType::I16 => {
            let (_short, used) = i16_at(bytes)?;
            Ok(used)
        }
        ElementType::I32 => {
            let (_int, used) = i32_at(bytes)?;
            Ok(used)
        }
        ElementType::I64 => {
            let (_long, used) = i64_at(bytes)?;
            Ok(used)
        }
        ElementType::Double => {
            let _double = double_at(bytes)?;
            Ok(8)
        }
        ElementType::Binary => {
            let used = pass_binary(bytes)?;
            Ok(used)
        }
        ElementType::Other(_) => Err(Refusal::Thrift),
        _ => pass_nested(kind, left, bytes),
    }
}

/// A list, a set, a map or a struct.
#[cycle(pass)]
fn pass_nested(kind: ElementType, left: u32, bytes: &[u8]) -> R<usize>
    requires { IsNesting kind }
    ensures stands { IfOk result (SomethingStands (ValueOf (code_of kind) left) bytes.now) }
    ensures within { IfOk result (λ used. used ≤ length bytes.now) }
    ensures which { RefusedOnly (IsRefusedFor (ValueOf (code_of kind) left) bytes.now) result }
{
    if left == 0 {
        return Err(Refusal::Thrift);
    }
    match kind {
        ElementType::List => {
            let used = pass_list(left - 1, bytes)?;
            Ok(used)
        }
        ElementType::Set => {
            let used = pass_list(left - 1, bytes)?;
            Ok(used)
        }
        ElementType::Map => pass_map(left - 1, bytes),
        _ => {
            let used = pass_fields(left - 1, bytes)?;
            Ok(used)
        }
    }
}

/// What a list or a set holds, with its header.
#[cycle(pass)]
fn pass_list(left: u32, bytes: &[u8]) -> R<usize>
    ensures stands { IfOk result (SomethingStands (ListOf left) bytes.now) }
    ensures within { IfOk result (λ used. used ≤ length bytes.now) }
    ensures which { RefusedOnly (IsRefusedFor (ListOf left) bytes.now) result }
{
    let ((kind, size), head) = list_head_at(bytes)?;
    let (_, rest) = bytes.split_at(head);
    if size > rest.len() as u64 {
        return Err(Refusal::Truncated);
    }
    let used = pass_elements(kind, size, left, rest)?;
    Ok(head + used)
}

/// `size` elements of one type.
#[cycle(pass)]
fn pass_elements(kind: ElementType, size: u64, left: u32, bytes: &[u8]) -> R<usize>
    requires { IsNamed kind }
    ensures stands { IfOk result (SomethingStands (ElementsOf (code_of kind) left size) bytes.now) }
    ensures within { IfOk result (λ used. used ≤ length bytes.now) }
    ensures which { RefusedOnly (IsRefusedFor (ElementsOf (code_of kind) left size) bytes.now) result }
{
    let mut at = 0;
    for _ in 0..size {
        let (_, rest) = bytes.split_at(at);
        let used = pass_element(kind, left, rest)?;
        at += used;
    }
    Ok(at)
}

/// An element of a list, a set or a map: a boolean one is a byte.
#[cycle(pass)]
fn pass_element(kind: ElementType, left: u32, bytes: &[u8]) -> R<usize>
    requires { IsNamed kind }
    ensures stands { IfOk result (SomethingStands (ElementOf (code_of kind) left) bytes.now) }
    ensures within { IfOk result (λ used. used ≤ length bytes.now) }
    ensures which { RefusedOnly (IsRefusedFor (ElementOf (code_of kind) left) bytes.now) result }
{
    match kind {
        ElementType::True | ElementType::False => {
            let _byte = byte_at(bytes)?;
            Ok(1)
        }
        _ => pass_value(kind, left, bytes),
    }
}

/// A map.
#[cycle(pass)]
fn pass_map(left: u32, bytes: &[u8]) -> R<usize>
    ensures stands { IfOk result (SomethingStands (ValueOf 11 (left + 1)) bytes.now) }
    ensures within { IfOk result (λ used. used ≤ length bytes.now) }
    ensures which { RefusedOnly (IsRefusedFor (ValueOf 11 (left + 1)) bytes.now) result }
{
    let (size, head) = read_uleb(bytes)?;
    if size == 0 {
        return Ok(head);
    }
    let (keys, values) = map_types_at(bytes, size, head)?;
    let (_, rest) = bytes.split_at(head + 1);
    if size > rest.len() as u64 {
        return Err(Refusal::Truncated);
    }
    let used = pass_pairs(keys, values, size, left, rest)?;
    Ok(head + 1 + used)
}

/// `size` pairs of a key and a value.
#[cycle(pass)]
fn pass_pairs(
    keys: ElementType,
    values: ElementType,
    size: u64,
    left: u32,
    bytes: &[u8],
) -> R<usize>
    requires keys { IsNamed keys }
    requires values { IsNamed values }
    ensures stands { IfOk result (SomethingStands (PairsOf (code_of keys) (code_of values) left size) bytes.now) }
    ensures within { IfOk result (λ used. used ≤ length bytes.now) }
    ensures which { RefusedOnly (IsRefusedFor (PairsOf (code_of keys) (code_of values) left size) bytes.now) result }
{
    let mut at = 0;
    for _ in 0..size {
        let (_, rest) = bytes.split_at(at);
        let head = pass_element(keys, left, rest)?;
        let (_, rest) = bytes.split_at(at + head);
        let used = pass_element(values, left, rest)?;
        at += head + used;
    }
    Ok(at)
}
