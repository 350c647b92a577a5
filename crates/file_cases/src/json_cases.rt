//! Rows, schemas and filters as JSON.

use crate::records::shown_struct;
use crate::schemas::rows_of;
use assemble::{RowBuilder, show_repeated_row, show_row};
use bits::{R, Refusal};
use case_words::{both, shown_numbers, text_after, word, words_from};
use filter::Filter;
use jsonrows::{Reader, RowPlan, RowText, filter_from, row_from, row_to, schema_from, schema_to};
use schema::{Element, Row, Schema};
use std::alloc::Global;

/// What a case of this subject gives; None where the operation is of another one.
pub fn outcome(alloc: Global, operation: &str, words: &[&str], line: &str) -> Option<R<String>> {
    let outcome = match operation {
        "row" => row(alloc, words, line),
        "row-as" => row_as(alloc, words, line),
        "same-row" => same_row(alloc, words, line),
        "repeated" => repeated(alloc, words),
        "schema" => schema(alloc, line),
        "elements" => elements(alloc, line),
        "filter" => filter(alloc, line),
        _ => return None,
    };
    Some(outcome)
}

/// The row of a text, as a reader reads it that read the text before, and refused another one.
fn read_again(alloc: Global, schema: &Schema, text: &str) -> R<Row> {
    let mut reader = Reader::new(alloc, schema)?;
    drop(reader.read(text));
    drop(reader.read("{"));
    reader.read(text)
}

/// The row that a reader shows a sink.
fn shown_to_a_sink(alloc: Global, schema: &Schema, text: &str) -> R<Row> {
    let mut reader = Reader::new(alloc, schema)?;
    let mut builder = RowBuilder::new(alloc, schema.fields().len())?;
    drop(reader.read_to("{", &mut builder));
    reader.read_to(text, &mut builder)?;
    Ok(builder.into_row())
}

/// The row of a text, read in three ways, as JSON of another schema.
fn read_and_printed(alloc: Global, schema: &Schema, other: &Schema, text: &str) -> R<String> {
    let one = print(alloc, other, row_from(alloc, schema, text));
    let again = print(alloc, other, read_again(alloc, schema, text));
    let shown = print(alloc, other, shown_to_a_sink(alloc, schema, text));
    both(alloc, both(alloc, one, again), shown)
}

/// A row as JSON.
fn print(alloc: Global, schema: &Schema, row: R<Row>) -> R<String> {
    row_to(alloc, schema, &row?)
}

/// What a printer of rows writes of a row that it is shown twice.
fn printed_twice(alloc: Global, schema: &Schema, row: &Row) -> R<Vec<u8>> {
    let plan = RowPlan::new(alloc, schema)?;
    let mut sink = RowText::new(alloc, &plan);
    let mut out = Vec::new(alloc);
    for _ in 0..2 {
        show_row(row, &mut sink)?;
        sink.put_row(&mut out)?;
    }
    Ok(out)
}

/// The lines that a printer of rows holds of a row that is shown, and then given, after an earlier line was forgotten.
fn lines_of(alloc: Global, schema: &Schema, row: &Row) -> R<Vec<u8>> {
    let plan = RowPlan::new(alloc, schema)?;
    let mut sink = RowText::new(alloc, &plan);
    sink.put_line(row)?;
    sink.clear_lines();
    show_row(row, &mut sink)?;
    sink.end_row()?;
    sink.put_line(row)?;
    Ok(Vec::from_slice(alloc, sink.lines())?)
}

/// Whether bytes are a text twice, with this after each.
fn is_twice(bytes: &[u8], text: &str, end: &str) -> bool {
    let Some(rest) = bytes.strip_prefix(text.as_bytes()) else {
        return false;
    };
    let Some(rest) = rest.strip_prefix(end.as_bytes()) else {
        return false;
    };
    match rest.strip_prefix(text.as_bytes()) {
        Some(rest) => rest == end.as_bytes(),
        None => false,
    }
}

/// The text of a row that was read, where the other ways to print it give the same.
fn printed_otherwise(alloc: Global, schema: &Schema, row: &Row, text: String) -> R<String> {
    let twice = printed_twice(alloc, schema, row)?;
    let lines = lines_of(alloc, schema, row)?;
    if is_twice(twice.as_slice(), text.as_str(), "")
        && is_twice(lines.as_slice(), text.as_str(), "\n")
    {
        return Ok(text);
    }
    Ok(format!(in alloc; "{text}, and otherwise printed")?)
}

/// What a text is as a row, read and printed in each way.
fn printed(alloc: Global, schema: &Schema, text: &str) -> R<String> {
    let shown = read_and_printed(alloc, schema, schema, text)?;
    let row = row_from(alloc, schema, text)?;
    printed_otherwise(alloc, schema, &row, shown)
}

/// `row SCHEMA TEXT`: the row, as it is printed.
fn row(alloc: Global, words: &[&str], line: &str) -> R<String> {
    let schema = schema_from(alloc, word(words, 1)?)?;
    printed(alloc, &schema, text_after(line, 2))
}

/// `same-row SCHEMA TEXT`: how many bytes the text has, where it is printed of its row.
fn same_row(alloc: Global, words: &[&str], line: &str) -> R<String> {
    let schema = schema_from(alloc, word(words, 1)?)?;
    let text = text_after(line, 2);
    let size = text.len();
    if printed(alloc, &schema, text)?.as_str() == text {
        return Ok(format!(in alloc; "{size} bytes")?);
    }
    Ok(String::from_str(alloc, "another text")?)
}

/// The rows with texts, each shown twice as one that comes again.
fn shown_again(alloc: Global, plan: &RowPlan<'_>, rows: &[Row]) -> R<String> {
    let mut sink = RowText::new(alloc, plan);
    let mut out = Vec::new(alloc);
    for row in rows {
        for _ in 0..2 {
            show_repeated_row(row, &mut sink)?;
            sink.put_row(&mut out)?;
        }
    }
    Ok(String::from_utf8_lossy(alloc, out.as_slice())?)
}

/// The rows with texts, each printed twice by a printer that keeps nothing.
fn printed_anew(alloc: Global, plan: &RowPlan<'_>, rows: &[Row]) -> R<String> {
    let mut out = Vec::new(alloc);
    for row in rows {
        for _ in 0..2 {
            let mut sink = RowText::new(alloc, plan);
            show_row(row, &mut sink)?;
            sink.put_row(&mut out)?;
        }
    }
    Ok(String::from_utf8_lossy(alloc, out.as_slice())?)
}

/// `repeated SCHEMA ROW..`: the rows with texts, each shown twice as one that comes again.
fn repeated(alloc: Global, words: &[&str]) -> R<String> {
    let schema = schema_from(alloc, word(words, 1)?)?;
    let rows = rows_of(alloc, &schema, words_from(words, 2))?;
    let plan = RowPlan::with_texts(alloc, &schema, true)?;
    let again = shown_again(alloc, &plan, rows.as_slice());
    both(alloc, again, printed_anew(alloc, &plan, rows.as_slice()))
}

/// `row-as SCHEMA SCHEMA TEXT`: the row of the first schema, as the second one prints it.
fn row_as(alloc: Global, words: &[&str], line: &str) -> R<String> {
    let schema = schema_from(alloc, word(words, 1)?)?;
    let other = schema_from(alloc, word(words, 2)?)?;
    read_and_printed(alloc, &schema, &other, text_after(line, 3))
}

/// `schema TEXT`: the schema, as it is printed.
fn schema(alloc: Global, line: &str) -> R<String> {
    let schema = schema_from(alloc, text_after(line, 1))?;
    schema_to(alloc, &schema)
}

/// Appends a number of an element, if it has that.
fn put_number(alloc: Global, text: &mut String, name: &str, number: Option<i32>) -> R<()> {
    if let Some(number) = number {
        let shown = format!(in alloc; " {name} {number}")?;
        text.push_str(shown.as_str())?;
    }
    Ok(())
}

/// Appends an element: its name, and the numbers that it has in `parquet.thrift`.
fn put_element(alloc: Global, text: &mut String, element: &Element) -> R<()> {
    if !text.is_empty() {
        text.push_str(", ")?;
    }
    text.push_str(std::str::from_utf8(element.name.as_slice()).unwrap_or("no text"))?;
    put_number(alloc, text, "repetition", element.repetition_type)?;
    put_number(alloc, text, "type", element.kind)?;
    put_number(alloc, text, "length", element.type_length)?;
    put_number(alloc, text, "children", element.num_children)?;
    put_number(alloc, text, "converted", element.converted_type)?;
    put_number(alloc, text, "scale", element.scale)?;
    put_number(alloc, text, "precision", element.precision)?;
    if let Some(tree) = &element.logical_type {
        text.push_str(" logical ")?;
        text.push_str(shown_struct(alloc, tree)?.as_str())?;
    }
    Ok(())
}

/// Elements, but for the root.
pub fn shown_elements(alloc: Global, elements: &[Element]) -> R<String> {
    let mut text = String::new(alloc);
    for element in elements {
        put_element(alloc, &mut text, element)?;
    }
    Ok(text)
}

/// `elements TEXT`: the elements of the schema below its root.
fn elements(alloc: Global, line: &str) -> R<String> {
    let schema = schema_from(alloc, text_after(line, 1))?;
    shown_elements(alloc, schema.elements().get(1..).unwrap_or(&[]))
}

/// The places of the rows that satisfy a filter.
fn satisfied(alloc: Global, filter: &Filter, rows: &[Row]) -> R<String> {
    let mut places = Vec::new(alloc);
    for (place, row) in rows.iter().enumerate() {
        if filter.satisfies(row) {
            places.push(place)?;
        }
    }
    let shown = shown_numbers(alloc, places.as_slice())?;
    Ok(format!(in alloc; "rows{shown}")?)
}

/// `filter SCHEMA ROW.. + TEXT`: the places of the rows that satisfy the filter; `no filter` where its terms are none.
fn filter(alloc: Global, line: &str) -> R<String> {
    let Some((given, text)) = line.split_once(" + ") else {
        return Err(Refusal::Script);
    };
    let words: Vec<&str> = given.split_whitespace().collect(alloc)?;
    let schema = schema_from(alloc, word(words.as_slice(), 1)?)?;
    let rows = rows_of(alloc, &schema, words_from(words.as_slice(), 2))?;
    let terms = filter_from(alloc, &schema, text)?;
    match Filter::new(alloc, &schema, terms.as_slice()) {
        Ok(filter) => satisfied(alloc, &filter, rows.as_slice()),
        Err(refusal) => Ok(format!(in alloc; "no filter, {refusal}")?),
    }
}
