//! Values, and the types of leaves.

ghost use Rattle.std.specs.Prelude.{◌≡◌, ◌↔◌, pos, IsTrue, IfOk, map};
ghost use Rattle.bits.specs.Refusals.{RefusedMemoryOnly};
ghost use Rattle.schema.specs.Listed.{type_number};
ghost use Rattle.schema.specs.Values.{view, views};

use crate::numbers::types;
use bits::R;
use std::alloc::{AllocError, Global};

/// How often a field stands in its group (`parquet.thrift`, FieldRepetitionType).
#[derive(Debug, Clone, Copy, PartialEq, Eq, Default)]
pub enum Repetition {
    #[default]
    Required,
    Optional,
    Repeated,
}

/// The physical type of a leaf (`parquet.thrift`, Type), with the length of fixed ones, at least 1.
#[derive(Debug, Clone, Copy, PartialEq, Eq)]
pub enum Kind {
    Boolean,
    Int32,
    Int64,
    ByteArray,
    FixedLenByteArray(u32),
}

impl Kind {
    /// Its number in `parquet.thrift`, Type.
    pub fn number(self) -> i32
        ensures { result ≡ pos (type_number self) }
    {
        match self {
            Kind::Boolean => types::BOOLEAN,
            Kind::Int32 => types::INT32,
            Kind::Int64 => types::INT64,
            Kind::ByteArray => types::BYTE_ARRAY,
            Kind::FixedLenByteArray(_) => types::FIXED_LEN_BYTE_ARRAY,
        }
    }
}

/// A value of a row.
#[derive(Debug, Drop)]
pub enum Value {
    /// An OPTIONAL field that is not there.
    Null,
    Bool(bool),
    /// A number of INT32 or INT64; an unsigned one is the signed number of the same bits.
    Int(i64),
    /// Bytes of either byte type.
    Bytes(Vec<u8>),
    /// One value for each field of a group.
    Group(Vec<Value>),
    /// The items of a REPEATED field.
    List(Vec<Value>),
}

/// Copies of the values, in their order. Refused only for memory; time and room are linear in what the
/// values hold.
pub fn copied_values(alloc: Global, values: &[Value]) -> R<Vec<Value>>
    ensures copies { IfOk result (λ copies. map view copies.items ≡ map view values.now) }
    ensures which { RefusedMemoryOnly result }
{
    let copies = copies(alloc, values)?;
    Ok(copies)
}

#[cycle(copy)]
fn copies(alloc: Global, values: &[Value]) -> Result<Vec<Value>, AllocError>
    ensures { IfOk result (λ copies. map view copies.items ≡ map view values.now) }
{
    let mut copies = Vec::with_capacity(alloc, values.len())?;
    for value in values {
        copies.push(copy(alloc, value)?)?;
    }
    Ok(copies)
}

#[cycle(copy)]
fn copy(alloc: Global, value: &Value) -> Result<Value, AllocError>
    ensures { IfOk result (λ copy. view copy ≡ view value.now) }
{
    match value {
        Value::Null => Ok(Value::Null),
        Value::Bool(b) => Ok(Value::Bool(*b)),
        Value::Int(n) => Ok(Value::Int(*n)),
        Value::Bytes(bytes) => {
            let bytes = Vec::from_slice(alloc, bytes.as_slice())?;
            Ok(Value::Bytes(bytes))
        }
        Value::Group(values) => {
            let copies = copies(alloc, values.as_slice())?;
            Ok(Value::Group(copies))
        }
        Value::List(values) => {
            let copies = copies(alloc, values.as_slice())?;
            Ok(Value::List(copies))
        }
    }
}

impl Value {
    /// A copy, with all that is in it. Refused only for memory; time and room are linear in what the
    /// value holds.
    pub fn copied(&self, alloc: Global) -> R<Value>
        ensures copies { IfOk result (λ copy. view copy ≡ view self.now) }
        ensures which { RefusedMemoryOnly result }
    {
        let copy = copy(alloc, self)?;
        Ok(copy)
    }
}

/// Whether two values are the same, with all that is in them. Takes no memory, and time linear in the
/// lesser one.
#[cycle(same)]
pub fn same(a: &Value, b: &Value) -> bool
    ensures { IsTrue result ↔ (view a.now ≡ view b.now) }
{
    match (a, b) {
        (Value::Null, Value::Null) => true,
        (Value::Bool(a), Value::Bool(b)) => a == b,
        (Value::Int(a), Value::Int(b)) => a == b,
        (Value::Bytes(a), Value::Bytes(b)) => a == b,
        (Value::Group(a), Value::Group(b)) => same_all(a.as_slice(), b.as_slice()),
        (Value::List(a), Value::List(b)) => same_all(a.as_slice(), b.as_slice()),
        _ => false,
    }
}

/// Whether the values are pairwise the same.
#[cycle(same)]
fn same_all(a: &[Value], b: &[Value]) -> bool
    ensures { IsTrue result ↔ (views a.now ≡ views b.now) }
{
    if a.len() != b.len() {
        return false;
    }
    for (i, value) in a.iter().enumerate() {
        if !same(value, &b[i]) {
            return false;
        }
    }
    true
}
