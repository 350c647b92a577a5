//! Why keys, or values of key columns, are refused.
//!
//! Only `partition` decides; this finds words for what it refused.

use bits::R;
use gather::Gathered;
use partition::{can_partition, key_columns, row_can_partition};
use places::{KeyFault, Reason, ValueFault};
use schema::{Key, KeyColumn, Row, Schema, Value};
use std::alloc::Global;

/// The most key columns that a table has.
const MOST_KEYS: usize = 8;

/// What is wrong with the names of the key columns of a schema, if something is.
pub fn keys_reason(alloc: Global, schema: &Schema, names: &[String]) -> R<Option<Reason>> {
    for (place, name) in names.iter().enumerate() {
        if let Some(fault) = key_fault(alloc, schema, names, place, name)? {
            let name = String::from_str(alloc, name.as_str())?;
            return Ok(Some(Reason::Key(name, fault)));
        }
    }
    if names.len() > MOST_KEYS {
        return Ok(Some(Reason::ManyKeys));
    }
    if names.len() >= schema.fields().len() {
        return Ok(Some(Reason::AllKeys));
    }
    Ok(None)
}

/// What is wrong with the name of a key column at this place of the names, if something is.
fn key_fault(
    alloc: Global,
    schema: &Schema,
    names: &[String],
    place: usize,
    name: &String,
) -> R<Option<KeyFault>> {
    let fields = schema.fields();
    if names
        .iter()
        .take(place)
        .any(|other| other.as_str() == name.as_str())
    {
        return Ok(Some(KeyFault::Twice));
    }
    if !fields.iter().any(|field| field.name() == name.as_str()) {
        return Ok(Some(KeyFault::NoColumn));
    }
    if fields.len() > 1 && !is_key(alloc, schema, name.as_str())? {
        return Ok(Some(KeyFault::Type));
    }
    Ok(None)
}

/// Whether a column of a schema with other columns can be its key.
fn is_key(alloc: Global, schema: &Schema, name: &str) -> R<bool> {
    let name = String::from_str(alloc, name)?;
    Ok(key_columns(alloc, schema, &[name]).is_ok())
}

/// Which of some rows, counted from 1, has a key that names no folder, and why; none where each names one.
pub fn rows_reason(alloc: Global, keys: &[KeyColumn], rows: &[Row]) -> R<Option<Reason>> {
    let mut number: u64 = 1;
    for row in rows {
        for key in keys.chunks(1) {
            if !row_can_partition(key, row) {
                let value = key.first().and_then(|key| row.values.get(key.at));
                return value_reason(alloc, number, key, value);
            }
        }
        number = number.saturating_add(1);
    }
    Ok(None)
}

/// Which of some rows that are gathered, counted from 1, has a key that names no folder, and why; none where each names one.
pub fn gathered_reason(alloc: Global, rows: &Gathered<'_>) -> R<Option<Reason>> {
    let Some(fault) = rows.fault() else {
        return Ok(None);
    };
    let number = (fault.row as u64).saturating_add(1);
    let mut values = fault.key.copied(alloc)?.values.into_iter();
    for column in rows.columns().chunks(1) {
        let Some(value) = values.next() else {
            return Ok(None);
        };
        let mut own = Vec::new(alloc);
        own.push(value)?;
        let key = Key { values: own };
        if !can_partition(column, &key) {
            return value_reason(alloc, number, column, key.values.first());
        }
    }
    Ok(None)
}

/// Why the row of this number, with this value of a key, names no folder by it.
fn value_reason(
    alloc: Global,
    number: u64,
    key: &[KeyColumn],
    value: Option<&Value>,
) -> R<Option<Reason>> {
    let Some(key) = key.first() else {
        return Ok(None);
    };
    let fault = match value {
        Some(Value::Bytes(text)) if text.is_empty() => ValueFault::Empty,
        _ => ValueFault::TooLong,
    };
    let name = String::from_str(alloc, key.name.as_str())?;
    Ok(Some(Reason::KeyValue(number, name, fault)))
}
