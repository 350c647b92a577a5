//! Whole files, written.

use crate::options::options_of;
use crate::reading_cases::shown_footer;
use crate::schemas::{are_same, row_of, rows_of, shown_rows};
use assemble::{RowBuilder, show_row};
use bits::R;
use case_words::{both, hexed, listed, word, words_from};
use footer::{FileWriter, WriteOptions, read_file, read_footer, write_file};
use jsonrows::{schema_from, schema_to};
use schema::{Row, Schema};
use std::alloc::Global;

/// What a case of this subject gives; None where the operation is of another one.
pub fn outcome(alloc: Global, operation: &str, words: &[&str]) -> Option<R<String>> {
    let outcome = match operation {
        "encode" => encoded(alloc, words),
        "again" => again(alloc, words),
        "written-footer" => written_footer(alloc, words),
        "written-schema" => written_schema(alloc, words),
        "push" => pushes(alloc, words),
        _ => return None,
    };
    Some(outcome)
}

/// Rows that are written: their schema, and how.
#[derive(Drop)]
struct Given {
    schema: Schema,
    options: WriteOptions,
    rows: Vec<Row>,
}

/// `SCHEMA OPTIONS ROW..`, after the operation.
fn given_rows(alloc: Global, words: &[&str]) -> R<Given> {
    let schema = schema_from(alloc, word(words, 1)?)?;
    let options = options_of(word(words, 2)?)?;
    let rows = rows_of(alloc, &schema, words_from(words, 3))?;
    Ok(Given {
        schema,
        options,
        rows,
    })
}

/// The file of all rows.
fn whole(alloc: Global, given: &Given) -> R<Vec<u8>> {
    write_file(alloc, &given.schema, &given.options, given.rows.as_slice())
}

/// A copy of a row, made of its values.
fn copy_of(alloc: Global, row: &Row) -> R<Row> {
    let mut builder = RowBuilder::new(alloc, row.values.len())?;
    show_row(row, &mut builder)?;
    Ok(builder.into_row())
}

/// The file of the rows, given to a writer one by one.
fn pushed(alloc: Global, given: &Given) -> R<Vec<u8>> {
    let mut writer = FileWriter::new(alloc, &given.schema, &given.options)?;
    for row in &given.rows {
        writer.push(copy_of(alloc, row)?)?;
    }
    writer.finish()
}

/// The file of the rows, shown to a writer value by value.
fn shown(alloc: Global, given: &Given) -> R<Vec<u8>> {
    let mut writer = FileWriter::new(alloc, &given.schema, &given.options)?;
    for row in &given.rows {
        writer.begin_row()?;
        show_row(row, &mut writer)?;
        writer.end_row()?;
    }
    writer.finish()
}

/// The bytes of a file.
fn digits(alloc: Global, file: R<Vec<u8>>) -> R<String> {
    hexed(alloc, file?.as_slice())
}

/// The bytes of the file; the three ways to write it give the same. Values of rows that do not fit are not shown.
fn file_of(alloc: Global, given: &Given) -> R<String> {
    let text = both(
        alloc,
        digits(alloc, whole(alloc, given)),
        digits(alloc, pushed(alloc, given)),
    );
    if !given.rows.iter().all(|row| given.schema.fits(row)) {
        return text;
    }
    both(alloc, text, digits(alloc, shown(alloc, given)))
}

/// `encode SCHEMA OPTIONS ROW..`: the file.
fn encoded(alloc: Global, words: &[&str]) -> R<String> {
    let given = given_rows(alloc, words)?;
    file_of(alloc, &given)
}

/// Whether three files are the same.
fn are_one(one: &[u8], other: &[u8], third: &[u8]) -> bool {
    one == other && one == third
}

/// `again SCHEMA OPTIONS ROW..`: how many rows are read again of the file, where they are those that were written, and where
/// the three ways to write it give the same.
fn again(alloc: Global, words: &[&str]) -> R<String> {
    let given = given_rows(alloc, words)?;
    let file = whole(alloc, &given)?;
    let other = pushed(alloc, &given)?;
    let third = shown(alloc, &given)?;
    if !are_one(file.as_slice(), other.as_slice(), third.as_slice()) {
        return Ok(String::from_str(alloc, "other bytes")?);
    }
    let (_, rows) = read_file(alloc, file.as_slice())?;
    let count = rows.len();
    if are_same(rows.as_slice(), given.rows.as_slice()) {
        return Ok(format!(in alloc; "{count} rows")?);
    }
    Ok(format!(in alloc; "{count} other rows")?)
}

/// `written-footer SCHEMA OPTIONS ROW..`: what the file's footer says.
fn written_footer(alloc: Global, words: &[&str]) -> R<String> {
    let given = given_rows(alloc, words)?;
    let file = whole(alloc, &given)?;
    shown_footer(alloc, &read_footer(alloc, file.as_slice())?)
}

/// `written-schema SCHEMA OPTIONS ROW..`: the file's schema.
fn written_schema(alloc: Global, words: &[&str]) -> R<String> {
    let given = given_rows(alloc, words)?;
    let file = whole(alloc, &given)?;
    let (schema, _) = read_file(alloc, file.as_slice())?;
    schema_to(alloc, &schema)
}

/// `push SCHEMA OPTIONS ROW..`: what a writer says of each row, and the rows of the file.
fn pushes(alloc: Global, words: &[&str]) -> R<String> {
    let schema = schema_from(alloc, word(words, 1)?)?;
    let options = options_of(word(words, 2)?)?;
    let mut writer = FileWriter::new(alloc, &schema, &options)?;
    let mut items = Vec::new(alloc);
    for word in words_from(words, 3) {
        let row = row_of(alloc, &schema, word)?;
        let said = match writer.push(row) {
            Ok(()) => String::from_str(alloc, "ok")?,
            Err(refusal) => format!(in alloc; "{refusal}")?,
        };
        items.push(said)?;
    }
    let file = writer.finish()?;
    let (_, rows) = read_file(alloc, file.as_slice())?;
    let said = listed(alloc, items.as_slice())?;
    let rows = shown_rows(alloc, &schema, rows.as_slice())?;
    Ok(format!(in alloc; "{said}: {rows}")?)
}
