//! Rows and their columns.

use crate::elements::schema;
use crate::values::{rows, shown_row, value};
use assemble::{Cursor, assemble, next_row};
use bits::{R, Refusal};
use case_words::{both, entry_parts, listed, part, repeated, shown_entry, word};
use schema::{Column, Entry, EntryRef, Row, Schema};
use shred::{shred, to_columns};
use std::alloc::Global;

/// What a case of this subject gives; None where the operation is of another one.
pub fn outcome(alloc: Global, operation: &str, words: &[&str]) -> Option<R<String>> {
    let outcome = match operation {
        "columns" => columns(alloc, words),
        "rows" => rows_of(alloc, words),
        _ => return None,
    };
    Some(outcome)
}

/// Appends an entry to the text of its column.
fn put_entry(alloc: Global, text: &mut String, entry: EntryRef<'_>) -> R<()> {
    if !text.is_empty() {
        text.push(';')?;
    }
    text.push_str(shown_entry(alloc, entry)?.as_str())?;
    Ok(())
}

/// Columns as they are printed, of entries whose values are borrowed.
fn borrowed(alloc: Global, columns: &[shred::ColumnRef<'_>]) -> R<String> {
    let mut items = Vec::new(alloc);
    for column in columns {
        let mut text = String::new(alloc);
        for entry in &column.entries {
            put_entry(alloc, &mut text, *entry)?;
        }
        items.push(text)?;
    }
    listed(alloc, items.as_slice())
}

/// Columns as they are printed, of entries that own their values.
fn owned(alloc: Global, columns: &[Column]) -> R<String> {
    let mut items = Vec::new(alloc);
    for column in columns {
        let mut text = String::new(alloc);
        for entry in &column.entries {
            put_entry(alloc, &mut text, EntryRef::of(entry))?;
        }
        items.push(text)?;
    }
    listed(alloc, items.as_slice())
}

/// `columns ELEMENT.. + ROW..`: the columns of the rows, an entry as `repetition,definition,value`; also as owned columns.
fn columns(alloc: Global, words: &[&str]) -> R<String> {
    let schema = schema(alloc, part(words, 0))?;
    let rows = rows(alloc, part(words, 1))?;
    let columns = shred(alloc, &schema, rows.as_slice())?;
    let copies = to_columns(alloc, columns.as_slice())?;
    both(
        alloc,
        borrowed(alloc, columns.as_slice()),
        owned(alloc, copies.as_slice()),
    )
}

/// An entry, as cases write it.
fn entry(alloc: Global, text: &str) -> R<Entry> {
    let (repetition, definition, shown) = entry_parts(text)?;
    let value = match shown {
        Some(shown) => Some(value(alloc, shown)?),
        None => None,
    };
    Ok(Entry {
        repetition,
        definition,
        value,
    })
}

/// A column, as cases write it; `-` has no entries.
fn column(alloc: Global, text: &str) -> R<Column> {
    let mut entries = Vec::new(alloc);
    if text == "-" {
        return Ok(Column { entries });
    }
    for text in text.split(';') {
        entries.push(entry(alloc, text)?)?;
    }
    Ok(Column { entries })
}

/// The columns of the words.
fn columns_of(alloc: Global, words: &[&str]) -> R<Vec<Column>> {
    let mut columns = Vec::new(alloc);
    for word in words {
        let (times, text) = repeated(word);
        for _ in 0..times {
            columns.push(column(alloc, text)?)?;
        }
    }
    Ok(columns)
}

/// The rows, as they are printed.
fn shown_rows(alloc: Global, rows: R<Vec<Row>>) -> R<String> {
    let mut items = Vec::new(alloc);
    for row in &rows? {
        items.push(shown_row(alloc, row)?)?;
    }
    listed(alloc, items.as_slice())
}

/// The rows of the columns, one at a time; after the last none comes, also when asked again.
fn one_by_one(alloc: Global, schema: &Schema, columns: &[Column]) -> R<Vec<Row>> {
    let mut sources = Vec::new(alloc);
    for column in columns {
        sources.push(Cursor::new(column.entries.as_slice()))?;
    }
    let mut rows = Vec::new(alloc);
    for _ in 0..u32::MAX {
        match next_row(alloc, schema, sources.as_mut_slice())? {
            Some(row) => rows.push(row)?,
            None => break,
        }
    }
    if next_row(alloc, schema, sources.as_mut_slice())?.is_some() {
        return Err(Refusal::Limit);
    }
    Ok(rows)
}

/// `rows ELEMENT.. + COLUMN..`: the rows of the columns; also one at a time.
fn rows_of(alloc: Global, words: &[&str]) -> R<String> {
    let schema = schema(alloc, part(words, 0))?;
    let columns = columns_of(alloc, part(words, 1))?;
    let one = shown_rows(alloc, assemble(alloc, &schema, columns.as_slice()));
    let again = shown_rows(alloc, one_by_one(alloc, &schema, columns.as_slice()));
    both(alloc, one, again)
}
