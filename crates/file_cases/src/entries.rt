//! Values and entries, and how they are written: an entry is `repetition,definition,value`.

use bits::R;
use case_words::{entry_parts, listed, repeated, shown_entry, value_of};
use schema::{Entry, EntryRef, Value};
use std::alloc::Global;

/// The values of the words.
pub fn values_of(alloc: Global, words: &[&str]) -> R<Vec<Value>> {
    let mut values = Vec::new(alloc);
    for word in words {
        let (times, text) = repeated(word);
        for _ in 0..times {
            values.push(value_of(alloc, text)?)?;
        }
    }
    Ok(values)
}

/// An entry, as cases write it.
fn entry_of(alloc: Global, text: &str) -> R<Entry> {
    let (repetition, definition, shown) = entry_parts(text)?;
    let value = match shown {
        Some(shown) => Some(value_of(alloc, shown)?),
        None => None,
    };
    Ok(Entry {
        repetition,
        definition,
        value,
    })
}

/// The entries of the words.
pub fn entries_of(alloc: Global, words: &[&str]) -> R<Vec<Entry>> {
    let mut entries = Vec::new(alloc);
    for word in words {
        let (times, text) = repeated(word);
        for _ in 0..times {
            entries.push(entry_of(alloc, text)?)?;
        }
    }
    Ok(entries)
}

/// These entries, with their values borrowed.
pub fn borrowed<'a>(alloc: Global, entries: &'a [Entry]) -> R<Vec<EntryRef<'a>>> {
    let mut refs = Vec::new(alloc);
    for entry in entries {
        refs.push(EntryRef::of(entry))?;
    }
    Ok(refs)
}

/// Entries, as they are printed.
pub fn shown_entries(alloc: Global, entries: &[Entry]) -> R<String> {
    let mut items = Vec::new(alloc);
    for entry in entries {
        items.push(shown_entry(alloc, EntryRef::of(entry))?)?;
    }
    listed(alloc, items.as_slice())
}
