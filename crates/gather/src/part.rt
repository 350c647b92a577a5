//! The values of a key, as a map has them.

ghost use Rattle.std.specs.Prelude.{◌≡◌, IfOk, OnOk, map, length};
ghost use Rattle.bits.specs.Refusals.{RefusedMemoryOnly};
ghost use Rattle.schema.specs.Borrowed.{value_ref_view};
ghost use Rattle.schema.specs.Keys.{key_columns_view, places_of};
ghost use Rattle.schema.specs.Cutting.{is_among};
ghost use Rattle.schema.specs.Values.{view, bytes as text};
ghost use Rattle.schema.specs.Views.{key_view};
ghost use Rattle.gather.specs.Parts.{part_view, parts_view, kept_value, put_at};

use bits::R;
use schema::{Key, KeyColumn, KeyKind, Value, ValueRef};
use std::alloc::{AllocError, Global};

/// A value of a key column.
#[derive(PartialEq, Eq, Hash, Drop)]
pub(crate) enum Part {
    Boolean(bool),
    Number(i64),
    Text(Vec<u8>),
}

impl Part {
    /// A part of a column of this type.
    fn of_kind(alloc: Global, kind: KeyKind) -> Part {
        match kind {
            KeyKind::Boolean => Part::Boolean(false),
            KeyKind::Utf8 => Part::Text(Vec::new(alloc)),
            _ => Part::Number(0),
        }
    }

    /// Becomes this value; 0 for a value that no key column has. It keeps its room for a text.
    fn set(&mut self, alloc: Global, value: ValueRef<'_>) -> Result<(), AllocError>
        ensures set { OnOk result (part_view self.new ≡ kept_value (value_ref_view value.entry)) }
    {
        match value {
            ValueRef::Bool(b) => {
                *self = Part::Boolean(b);
                Ok(())
            }
            ValueRef::Int(number) => {
                *self = Part::Number(number);
                Ok(())
            }
            ValueRef::Bytes(bytes) => self.set_text(alloc, bytes),
            _ => {
                *self = Part::Number(0);
                Ok(())
            }
        }
    }

    /// Becomes this text.
    fn set_text(&mut self, alloc: Global, bytes: &[u8]) -> Result<(), AllocError>
        ensures set { OnOk result (part_view self.new ≡ text bytes.now) }
    {
        if let Part::Text(kept) = self {
            kept.clear();
            return kept.extend_from_slice(bytes);
        }
        *self = Part::Text(Vec::from_slice(alloc, bytes)?);
        Ok(())
    }

    /// A copy.
    fn copied(&self, alloc: Global) -> R<Part>
        ensures same { IfOk result (λ copy. part_view copy ≡ part_view self.now) }
        ensures which { RefusedMemoryOnly result }
    {
        match self {
            Part::Boolean(b) => Ok(Part::Boolean(*b)),
            Part::Number(number) => Ok(Part::Number(*number)),
            Part::Text(text) => {
                let text = Vec::from_slice(alloc, text.as_slice())?;
                Ok(Part::Text(text))
            }
        }
    }

    /// The value that it is.
    fn value(&self, alloc: Global) -> R<Value>
        ensures same { IfOk result (λ value. view value ≡ part_view self.now) }
        ensures which { RefusedMemoryOnly result }
    {
        match self {
            Part::Boolean(b) => Ok(Value::Bool(*b)),
            Part::Number(number) => Ok(Value::Int(*number)),
            Part::Text(text) => {
                let text = Vec::from_slice(alloc, text.as_slice())?;
                Ok(Value::Bytes(text))
            }
        }
    }
}

/// Parts of a key of these columns.
pub(crate) fn new_parts(alloc: Global, columns: &[KeyColumn]) -> R<Vec<Part>>
    ensures many { IfOk result (λ parts. length parts.items ≡ length columns.now) }
    ensures which { RefusedMemoryOnly result }
{
    let mut parts = Vec::with_capacity(alloc, columns.len())?;
    for column in columns {
        parts.push(Part::of_kind(alloc, column.kind))?;
    }
    Ok(parts)
}

/// Puts the value at a place of a row where its key has it, if it does, and returns whether it does.
pub(crate) fn put_part(
    alloc: Global,
    columns: &[KeyColumn],
    place: usize,
    value: ValueRef<'_>,
    parts: &mut Vec<Part>,
) -> Result<bool, AllocError>
    ensures is { IfOk result (λ here. here ≡ is_among (places_of (key_columns_view columns.now)) place) }
    ensures many { length parts.new.items ≡ length parts.old.items }
    ensures put { OnOk result (parts_view parts.new.items
        ≡ put_at (places_of (key_columns_view columns.now)) place (kept_value (value_ref_view value.entry)) (parts_view parts.old.items)) }
{
    for (i, column) in columns.iter().enumerate() {
        if column.at == place {
            if i < parts.len() {
                parts[i].set(alloc, value)?;
            }
            return Ok(true);
        }
    }
    Ok(false)
}

/// A copy of the parts of a key.
pub(crate) fn copied_parts(alloc: Global, parts: &[Part]) -> R<Vec<Part>>
    ensures same { IfOk result (λ copies. parts_view copies.items ≡ parts_view parts.now) }
    ensures which { RefusedMemoryOnly result }
{
    let mut copies = Vec::with_capacity(alloc, parts.len())?;
    for part in parts {
        let copy = part.copied(alloc)?;
        copies.push(copy)?;
    }
    Ok(copies)
}

/// The key that these parts are.
pub(crate) fn key_of_parts(alloc: Global, parts: &[Part]) -> R<Key>
    ensures stands { IfOk result (λ key. key_view key ≡ parts_view parts.now) }
    ensures which { RefusedMemoryOnly result }
{
    let mut values = Vec::with_capacity(alloc, parts.len())?;
    for part in parts {
        let value = part.value(alloc)?;
        values.push(value)?;
    }
    Ok(Key { values })
}
