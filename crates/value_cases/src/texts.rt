//! Values as they are printed.

use bits::R;
use case_words::{listed, shown_value};
use schema::{Value, ValueRef};
use std::alloc::Global;

/// Owned values as they are printed.
pub fn shown(alloc: Global, values: &[Value]) -> R<String> {
    let mut items = Vec::new(alloc);
    for value in values {
        items.push(shown_value(alloc, ValueRef::of(value))?)?;
    }
    listed(alloc, items.as_slice())
}

/// A value that may be missing.
pub fn shown_option(alloc: Global, value: &Option<Value>) -> R<String> {
    match value {
        Some(value) => shown_value(alloc, ValueRef::of(value)),
        None => Ok(String::from_str(alloc, "none")?),
    }
}
