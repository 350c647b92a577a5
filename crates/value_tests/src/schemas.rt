//! Schemas and columns, of tables of their fields and entries.

use bits::R;
use schema::{Element, Entry, Schema, Value};
use std::alloc::Global;

/// FieldRepetitionType and Type, as `parquet.thrift` has them.
pub(crate) const REQUIRED: i32 = 0;

pub(crate) const OPTIONAL: i32 = 1;

pub(crate) const REPEATED: i32 = 2;

pub(crate) const BOOLEAN: i32 = 0;

pub(crate) const INT32: i32 = 1;

pub(crate) const INT64: i32 = 2;

pub(crate) const BYTE_ARRAY: i32 = 6;

/// A field: its name, its repetition, and the type of a leaf or the number of a group's fields.
pub(crate) type FieldRow = (&'static str, i32, Option<i32>, Option<i32>);

/// The element of a field.
pub(crate) fn element(alloc: Global, row: FieldRow) -> R<Element> {
    let (name, repetition, kind, children) = row;
    Ok(Element {
        kind,
        type_length: None,
        repetition_type: Some(repetition),
        name: Vec::from_slice(alloc, name.as_bytes())?,
        num_children: children,
        converted_type: None,
        scale: None,
        precision: None,
        field_id: None,
        logical_type: None,
    })
}

/// The schema of these fields, depth first, of which the first is the root.
pub(crate) fn schema_of(alloc: Global, rows: &[FieldRow]) -> R<Schema> {
    let mut elements = Vec::new(alloc);
    for row in rows {
        elements.push(element(alloc, *row)?)?;
    }
    Schema::new(alloc, elements.as_slice())
}

/// An entry: its levels, repetition first, and its number.
pub(crate) type EntryRow = (u32, u32, Option<i64>);

/// The entries of a column of numbers.
pub(crate) fn entries_of(alloc: Global, rows: &[EntryRow]) -> R<Vec<Entry>> {
    let mut entries = Vec::new(alloc);
    for (repetition, definition, number) in rows {
        entries.push(Entry {
            repetition: *repetition,
            definition: *definition,
            value: number.map(Value::Int),
        })?;
    }
    Ok(entries)
}
