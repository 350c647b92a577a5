//! The words of a line that are a schema, a leaf or rows.

use bits::{R, Refusal};
use case_words::joined;
use jsonrows::{row_from, row_to, schema_from};
use schema::{Leaf, Row, Schema, same};
use std::alloc::Global;

/// The first leaf of a schema.
pub fn leaf_of(schema: &Schema) -> R<&Leaf> {
    match schema.leaves().first() {
        Some(leaf) => Ok(leaf),
        None => Err(Refusal::Script),
    }
}

/// A row of the schema as JSON; or one of another schema, which stands right in front of it.
pub fn row_of(alloc: Global, schema: &Schema, word: &str) -> R<Row> {
    let Some((before, row)) = word.split_once("]{") else {
        return row_from(alloc, schema, word);
    };
    let other = format!(in alloc; "{before}]")?;
    let other = schema_from(alloc, other.as_str())?;
    let row = format!(in alloc; "{{{row}")?;
    row_from(alloc, &other, row.as_str())
}

/// The rows of the words.
pub fn rows_of(alloc: Global, schema: &Schema, words: &[&str]) -> R<Vec<Row>> {
    let mut rows = Vec::new(alloc);
    for word in words {
        rows.push(row_of(alloc, schema, word)?)?;
    }
    Ok(rows)
}

/// Rows as JSON, with a space between them; `none` if there are none.
pub fn shown_rows(alloc: Global, schema: &Schema, rows: &[Row]) -> R<String> {
    let mut texts = Vec::new(alloc);
    for row in rows {
        texts.push(row_to(alloc, schema, row)?)?;
    }
    joined(alloc, texts.as_slice())
}

/// Whether two rows are the same.
fn is_same_row(one: &Row, other: &Row) -> bool {
    one.values.len() == other.values.len()
        && one
            .values
            .iter()
            .zip(other.values.iter())
            .all(|(one, other)| same(one, other))
}

/// Whether rows are the same, one by one.
pub fn are_same(rows: &[Row], others: &[Row]) -> bool {
    rows.len() == others.len()
        && rows
            .iter()
            .zip(others.iter())
            .all(|(one, other)| is_same_row(one, other))
}
