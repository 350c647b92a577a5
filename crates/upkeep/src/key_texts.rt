//! Keys as a person reads them.

use schema::{Key, KeyColumn, Value};
use std::alloc::{AllocError, Global};

/// A key as a person reads it: `name=value` for each key column, in the order of the folders, with a `/` between two. Names and
/// texts stand as they are, also with a `/` or control characters. Fails only when out of memory.
pub(crate) fn key_text(
    alloc: Global,
    columns: &[KeyColumn],
    key: &Key,
) -> Result<String, AllocError> {
    let mut text = String::new(alloc);
    for (place, (column, value)) in columns.iter().zip(key.values.iter()).enumerate() {
        if place > 0 {
            text.push('/')?;
        }
        text.push_str(column.name.as_str())?;
        text.push_str("=")?;
        push_value(alloc, &mut text, value)?;
    }
    Ok(text)
}

/// Adds a value of a key.
fn push_value(alloc: Global, text: &mut String, value: &Value) -> Result<(), AllocError> {
    match value {
        Value::Bool(true) => text.push_str("true"),
        Value::Bool(false) => text.push_str("false"),
        Value::Int(number) => text.push_str(number.to_string(alloc)?.as_str()),
        Value::Bytes(bytes) => {
            text.push_str(String::from_utf8_lossy(alloc, bytes.as_slice())?.as_str())
        }
        // No key column has such a value.
        _ => Ok(()),
    }
}
