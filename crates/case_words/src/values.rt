//! Values and entries as cases write them: an entry is `repetition,definition,value`, with `none` for no value.

use crate::texts::{listed, shown_bytes};
use crate::words::{bytes_of, natural, number};
use bits::{R, Refusal};
use schema::{EntryRef, Value, ValueRef};
use std::alloc::Global;

/// A value that is no group and no list: `null`, `true`, `false`, a number, `'` and a text, or `x` and bytes.
pub fn value_of(alloc: Global, text: &str) -> R<Value> {
    if let Some(text) = text.strip_prefix('\'') {
        return Ok(Value::Bytes(Vec::from_slice(alloc, text.as_bytes())?));
    }
    match text {
        "null" => Ok(Value::Null),
        "true" => Ok(Value::Bool(true)),
        "false" => Ok(Value::Bool(false)),
        "x" => Ok(Value::Bytes(Vec::new(alloc))),
        _ => match text.strip_prefix('x') {
            Some(digits) => Ok(Value::Bytes(bytes_of(alloc, digits)?)),
            None => Ok(Value::Int(number(text)?)),
        },
    }
}

/// A level.
fn level(text: &str) -> R<u32> {
    match u32::try_from(natural(text)?) {
        Ok(level) => Ok(level),
        Err(_) => Err(Refusal::Script),
    }
}

/// The parts of an entry: its repetition level, its definition level, and the text of its value, if it has one.
pub fn entry_parts(text: &str) -> R<(u32, u32, Option<&str>)> {
    let Some((repetition, rest)) = text.split_once(',') else {
        return Err(Refusal::Script);
    };
    let Some((definition, shown)) = rest.split_once(',') else {
        return Err(Refusal::Script);
    };
    let value = match shown {
        "none" => None,
        shown => Some(shown),
    };
    Ok((level(repetition)?, level(definition)?, value))
}

/// A value that is no group and no list, as it is printed.
pub fn shown_value(alloc: Global, value: ValueRef<'_>) -> R<String> {
    match value {
        ValueRef::Bool(bit) => Ok(String::from_str(alloc, if bit { "true" } else { "false" })?),
        ValueRef::Int(number) => Ok(format!(in alloc; "{number}")?),
        ValueRef::Bytes(bytes) => shown_bytes(alloc, bytes),
        _ => Ok(String::from_str(alloc, "null")?),
    }
}

/// Values, as they are printed.
pub fn shown_values(alloc: Global, values: &[ValueRef<'_>]) -> R<String> {
    let mut items = Vec::new(alloc);
    for value in values {
        items.push(shown_value(alloc, *value)?)?;
    }
    listed(alloc, items.as_slice())
}

/// An entry, as it is printed.
pub fn shown_entry(alloc: Global, entry: EntryRef<'_>) -> R<String> {
    let (repetition, definition) = (entry.repetition, entry.definition);
    let value = match entry.value {
        Some(value) => shown_value(alloc, value)?,
        None => String::from_str(alloc, "none")?,
    };
    Ok(format!(in alloc; "{repetition},{definition},{value}")?)
}
