//! What is said of a file, as text for a person.

use crate::inspect_report::{
    ChunkReport, FieldReport, FileReport, GroupReport, PageReport, Problem, StatisticsReport,
};
use crate::notes::{converted_words, logical_words};
use crate::one_line::OneLine;
use serde_json::Value as Json;
use std::alloc::{AllocError, Global};
use std::fmt::{self, Display, Write as _};

/// How deep fields are indented: no file that is read nests deeper.
const DEEPEST: usize = 32;

/// A number that may be missing.
#[derive(Clone, Copy)]
struct Known<T>(Option<T>);

impl<T: Display> Display for Known<T> {
    fn fmt<W: fmt::Write>(&self, f: &mut fmt::Formatter<W>) -> fmt::Result {
        match &self.0 {
            Some(number) => write!(f, "{number}"),
            None => f.write_str("unknown"),
        }
    }
}

/// The report as text: the file, its schema as a tree, its row groups with their chunks and pages, and what
/// `decode` refuses. Each line is one, whatever the names have in them. Refused only when out of memory.
pub fn text_of_report(alloc: Global, report: &FileReport) -> Result<Vec<u8>, AllocError> {
    let mut text = Vec::new(alloc);
    write_head(&mut text, report)?;
    line(&mut text, "")?;
    line(&mut text, "schema")?;
    for field in &report.schema {
        write_field(alloc, &mut text, field)?;
    }
    for (number, group) in report.groups.iter().enumerate() {
        write_group(alloc, &mut text, number, group)?;
    }
    write_problems(&mut text, report.not_read.as_slice())?;
    Ok(text)
}

/// Writes a line, in which control characters are escaped.
fn line<D: Display + Drop>(text: &mut Vec<u8>, said: D) -> Result<(), AllocError> {
    let mut one_line = OneLine(&mut *text);
    if write!(one_line, "{said}").is_err() {
        return Err(AllocError);
    }
    text.push(b'\n')?;
    Ok(())
}

/// Writes a line after two spaces for each level of depth, up to [`DEEPEST`].
fn line_at<D: Display + Drop>(text: &mut Vec<u8>, depth: usize, said: D) -> Result<(), AllocError> {
    for _ in 0..depth.min(DEEPEST) {
        text.extend_from_slice(b"  ")?;
    }
    line(text, said)
}

/// The first lines: the file as a whole.
fn write_head(text: &mut Vec<u8>, report: &FileReport) -> Result<(), AllocError> {
    let (bytes, footer) = (report.bytes, report.footer_bytes);
    line(
        text,
        format_args!("{bytes} bytes, of which the footer has {footer}"),
    )?;
    let (rows, groups) = (Known(report.rows), report.groups.len());
    line(text, format_args!("rows: {rows}, in row groups: {groups}"))?;
    if let Some(writer) = &report.created_by {
        line(text, format_args!("written by: {writer}"))?;
    }
    for key in &report.key_values {
        let name = &key.key;
        match &key.value {
            Some(value) => line(text, format_args!("key {name}: {value}"))?,
            None => line(text, format_args!("key {name}, without a value"))?,
        }
    }
    Ok(())
}

/// What is said of a field's meaning: its annotations, in brackets.
fn meaning_of(alloc: Global, field: &FieldReport) -> Result<String, AllocError> {
    let mut meaning = String::new(alloc);
    if let Some(annotation) = &field.annotation {
        let words = converted_words(alloc, annotation.as_str(), field.precision, field.scale)?;
        push_note(alloc, &mut meaning, words.as_str())?;
    }
    if let Some(logical) = &field.logical_type {
        let words = logical_words(alloc, logical.as_str())?;
        push_note(alloc, &mut meaning, words.as_str())?;
    }
    Ok(meaning)
}

/// Adds a note, in brackets after a space.
fn push_note(alloc: Global, meaning: &mut String, note: &str) -> Result<(), AllocError> {
    meaning.push_str(format!(in alloc; " ({note})")?.as_str())
}

/// A line for a field.
fn write_field(alloc: Global, text: &mut Vec<u8>, field: &FieldReport) -> Result<(), AllocError> {
    let meaning = meaning_of(alloc, field)?;
    let name = &field.name;
    let repetition = field
        .repetition
        .as_ref()
        .map_or("(no repetition)", String::as_str);
    let kind = field.kind.as_ref().map_or("group", String::as_str);
    let depth = field.depth.saturating_add(1);
    match (&field.kind, field.length) {
        (Some(_), Some(length)) if length > 0 => {
            line_at(
                text,
                depth,
                format_args!("{repetition} {kind}({length}) {name}{meaning}"),
            )
        }
        _ => line_at(
            text,
            depth,
            format_args!("{repetition} {kind} {name}{meaning}"),
        ),
    }
}

/// The words of a list, with a comma between two.
fn listed(alloc: Global, names: &[String]) -> Result<String, AllocError> {
    let mut list = String::new(alloc);
    for (place, name) in names.iter().enumerate() {
        if place > 0 {
            list.push_str(", ")?;
        }
        list.push_str(name.as_str())?;
    }
    Ok(list)
}

/// A bound as JSON, or a word where there is none.
fn bound_text(alloc: Global, bound: &Option<Json>) -> Result<String, AllocError> {
    match bound {
        Some(bound) => Ok(bound.to_string(alloc)?),
        None => Ok(String::from_str(alloc, "unknown")?),
    }
}

/// A line for the statistics of a chunk.
fn write_statistics(
    alloc: Global,
    text: &mut Vec<u8>,
    statistics: &StatisticsReport,
) -> Result<(), AllocError> {
    let nulls = Known(statistics.nulls);
    let distinct = Known(statistics.distinct);
    let min = bound_text(alloc, &statistics.min)?;
    let max = bound_text(alloc, &statistics.max)?;
    line_at(
        text,
        2,
        format_args!("statistics: min {min}, max {max}, nulls {nulls}, distinct values {distinct}"),
    )
}

/// A line for a page.
fn write_page(text: &mut Vec<u8>, page: &PageReport) -> Result<(), AllocError> {
    let (offset, kind, header, bytes) = (page.offset, &page.kind, page.header_bytes, page.bytes);
    match &page.encoding {
        Some(encoding) => {
            let entries = Known(page.entries);
            line_at(
                text,
                2,
                format_args!(
                    "page at {offset}: {kind}, {encoding}, entries {entries}, {header} + {bytes} bytes"
                ),
            )
        }
        None => line_at(
            text,
            2,
            format_args!("page at {offset}: {kind}, {header} + {bytes} bytes"),
        ),
    }
}

/// The first lines of a chunk: what it is, and where.
fn write_chunk_head(
    alloc: Global,
    text: &mut Vec<u8>,
    chunk: &ChunkReport,
) -> Result<(), AllocError> {
    let (column, kind, codec, entries) = (&chunk.column, &chunk.kind, &chunk.codec, chunk.entries);
    line_at(
        text,
        1,
        format_args!("column {column}: {kind}, {codec}, entries {entries}"),
    )?;
    let compressed = Known(chunk.compressed_bytes);
    let uncompressed = Known(chunk.uncompressed_bytes);
    let encodings = listed(alloc, chunk.encodings.as_slice())?;
    line_at(
        text,
        2,
        format_args!("{compressed} bytes, {uncompressed} uncompressed; encodings {encodings}"),
    )?;
    let data = chunk.data_page_offset;
    match chunk.dictionary_page_offset {
        Some(dictionary) => line_at(
            text,
            2,
            format_args!("dictionary at {dictionary}, data pages from {data}"),
        ),
        None => line_at(
            text,
            2,
            format_args!("no dictionary, data pages from {data}"),
        ),
    }
}

/// The lines of a chunk.
fn write_chunk(alloc: Global, text: &mut Vec<u8>, chunk: &ChunkReport) -> Result<(), AllocError> {
    write_chunk_head(alloc, text, chunk)?;
    if let Some(file) = &chunk.file {
        line_at(text, 2, format_args!("in the file {file}"))?;
    }
    if let Some(statistics) = &chunk.statistics {
        write_statistics(alloc, text, statistics)?;
    }
    for page in &chunk.pages {
        write_page(text, page)?;
    }
    match chunk.unlisted {
        Some(why) => line_at(text, 2, format_args!("not all pages are listed: {why}")),
        None => Ok(()),
    }
}

/// The lines of a row group.
fn write_group(
    alloc: Global,
    text: &mut Vec<u8>,
    number: usize,
    group: &GroupReport,
) -> Result<(), AllocError> {
    let (rows, bytes) = (group.rows, Known(group.bytes));
    line(text, "")?;
    line(
        text,
        format_args!("row group {number}: rows {rows}, {bytes} bytes"),
    )?;
    for chunk in &group.chunks {
        write_chunk(alloc, text, chunk)?;
    }
    Ok(())
}

/// What `decode` refuses, and where: a column, a group, or both.
#[derive(Clone, Copy)]
struct Place<'a>(&'a Problem);

impl<'a> Display for Place<'a> {
    fn fmt<W: fmt::Write>(&self, f: &mut fmt::Formatter<W>) -> fmt::Result {
        let what = &self.0.what;
        match (&self.0.column, self.0.group) {
            (Some(column), Some(group)) => write!(f, "column {column}, group {group}: {what}"),
            (Some(column), None) => write!(f, "column {column}: {what}"),
            (None, Some(group)) => write!(f, "group {group}: {what}"),
            (None, None) => f.write_str(what.as_str()),
        }
    }
}

/// A problem as a sentence, with its place.
pub fn problem_text(alloc: Global, problem: &Problem) -> Result<String, AllocError> {
    let place = Place(problem);
    format!(in alloc; "{place}")
}

/// The lines on what `decode` refuses.
fn write_problems(text: &mut Vec<u8>, problems: &[Problem]) -> Result<(), AllocError> {
    line(text, "")?;
    if problems.is_empty() {
        return line(
            text,
            "decode refuses nothing of the footer and of the page headers",
        );
    }
    line(text, "decode refuses this file:")?;
    for problem in problems {
        line_at(text, 1, Place(problem))?;
    }
    Ok(())
}
