//! Which reason a refusal has, found after it: nothing here decides what is refused.

use crate::import_reason::{difference, import_reason};
use crate::key_reason::keys_reason;
use crate::line_notes::RowNotes;
use crate::part_reason::is_of_bytes;
use bits::{R, Refusal};
use dataset_words::{Change, Question};
use footer::WriteOptions;
use manifest::Manifest;
use places::Reason;
use reasons::{
    Cause, call_fault, column_fault, filter_fault, options_fault, schema_fault, utf8_fault,
};
use schema::Schema;
use simdutf8::basic::from_utf8;
use std::alloc::Global;

/// A text of rows with fewer bytes has no column of 16,777,216 entries: each takes two bytes at least. Nor has it the values of
/// a part file of 2 GiB.
const SMALL_TEXT: usize = 16_777_216;

/// How many columns a schema has at most.
const MOST_COLUMNS: usize = 1_024;

/// With so many rows in a page, the headers of the pages are not what a part file is too long by.
const FEW_PAGES: u32 = 1_000;

/// Why no table is made of a schema and the names of its keys, where there is more to say than the refusal.
pub fn table_reason(
    alloc: Global,
    schema: &Schema,
    names: &[String],
    refusal: &Refusal,
) -> R<Option<Reason>> {
    match refusal {
        Refusal::Key => keys_reason(alloc, schema, names),
        Refusal::Exists => Ok(Some(Reason::HasRoot)),
        Refusal::InDoubt => Ok(Some(Reason::InDoubt("count"))),
        _ => Ok(None),
    }
}

/// Which line of the file that the call names is no text, if one is none. The file's name is put before it later.
pub fn no_text_reason(alloc: Global, bytes: &[u8]) -> R<Option<Reason>> {
    let fault = utf8_fault(alloc, "", bytes)?;
    Ok(fault.map(|fault| Reason::Text(fault)))
}

/// Which line of the file of a filter is no text, if one is none.
pub fn filter_text_reason(alloc: Global, path: &str, bytes: &[u8]) -> R<Option<Reason>> {
    let fault = utf8_fault(alloc, path, bytes)?;
    Ok(fault.map(|fault| Reason::Told(Cause::Text(fault))))
}

/// What is wrong with the schema of a file, if something is. The file's name is put before it later.
pub fn schema_reason(alloc: Global, bytes: &[u8]) -> R<Option<Reason>> {
    let Ok(text) = from_utf8(bytes) else {
        return no_text_reason(alloc, bytes);
    };
    let fault = schema_fault(alloc, "", text)?;
    Ok(fault.map(|fault| Reason::Text(fault)))
}

/// What is wrong with the column of a file that is to be added to a table of this schema, if something is.
fn column_reason(alloc: Global, schema: &Schema, bytes: &[u8]) -> R<Option<Reason>> {
    let Ok(text) = from_utf8(bytes) else {
        return no_text_reason(alloc, bytes);
    };
    let fault = column_fault(alloc, schema, "", text)?;
    Ok(fault.map(|fault| Reason::Text(fault)))
}

/// Why a question of a table of this schema is refused, where there is more to say than the refusal.
pub fn question_reason(
    alloc: Global,
    schema: &Schema,
    question: &Question<'_>,
    texts: bool,
    refusal: &Refusal,
) -> R<Option<Reason>> {
    if is_of_parts(refusal) {
        return Ok(None);
    }
    match question {
        Question::Query {
            filter,
            columns,
            ..
        } => {
            match filter_reason(alloc, schema, *filter, texts)? {
                Some(reason) => Ok(Some(reason)),
                None => columns_reason(alloc, schema, columns.as_slice()),
            }
        }
        Question::Count { filter } => filter_reason(alloc, schema, *filter, texts),
        _ => Ok(None),
    }
}

/// Why a change of a table is refused, whose files are written by these options, where there is more to say than the refusal; the
/// bytes are those of the file that the change names.
pub fn change_reason(
    alloc: Global,
    table: &Manifest,
    options: &WriteOptions,
    change: &Change<'_>,
    bytes: &[u8],
    texts: bool,
    refusal: &Refusal,
) -> R<Option<Reason>> {
    if *refusal == Refusal::InDoubt {
        return Ok(Some(Reason::InDoubt(shown_by(change))));
    }
    if let Some(reason) = unless_reason(alloc, table.schema(), change, texts)? {
        return Ok(Some(reason));
    }
    match change {
        Change::AddColumn { .. } => match column_reason(alloc, table.schema(), bytes)? {
            None if *refusal == Refusal::Limit && table.schema().leaves().len() < MOST_COLUMNS =>
                full_root(alloc, table, options),
            reason => Ok(reason),
        },
        Change::Import { .. } => {
            import_reason(alloc, table.schema(), table.keys(), bytes, refusal)
        }
        Change::Remove { filter } if !is_of_parts(refusal) => {
            filter_reason(alloc, table.schema(), Some(filter), texts)
        }
        Change::RemoveGroups { numbers } | Change::Rewrite { numbers }
            if *refusal == Refusal::NoGroup => Ok(group_reason(table, numbers.as_slice())),
        _ => Ok(None),
    }
}

/// Why a script over a table of this schema is refused: its first line that is no call, and what is wrong in it.
pub fn script_reason(
    alloc: Global,
    schema: &Schema,
    bytes: &[u8],
    texts: bool,
    refusal: &Refusal,
) -> Option<Reason> {
    let Ok(text) = from_utf8(bytes) else {
        return no_text_reason(alloc, bytes).unwrap_or(None);
    };
    match refusal {
        Refusal::Script | Refusal::RowShape => {
            let fault = call_fault(alloc, schema, "", text, texts).unwrap_or(None);
            fault.map(|fault| Reason::Text(fault))
        }
        _ => None,
    }
}

/// The first of these numbers that no group of a table has, if there is one.
fn group_reason(table: &Manifest, numbers: &[u64]) -> Option<Reason> {
    for number in numbers {
        if !has_group(table, *number) {
            return Some(Reason::NoGroup(*number));
        }
    }
    None
}

/// Whether a group of a table has this number.
fn has_group(table: &Manifest, number: u64) -> bool {
    for block in table.groups().blocks() {
        if block.groups.iter().any(|group| group.number == number) {
            return true;
        }
    }
    false
}

/// The command that shows whether a change was done.
fn shown_by(change: &Change<'_>) -> &'static str {
    match change {
        Change::Rewrite { .. } | Change::RewriteSmall { .. } | Change::RewriteAll => "groups",
        Change::AddColumn { .. } => "schema",
        _ => "count",
    }
}

/// Why rows that were gathered are not appended to a table, whose files are written by these options, unless some row satisfies a
/// filter, where there is more to say than the refusal.
pub fn append_reason(
    alloc: Global,
    table: &Manifest,
    options: &WriteOptions,
    rows: RowNotes<'_>,
    unless: Option<&str>,
    texts: bool,
    refusal: &Refusal,
) -> R<Option<Reason>> {
    if *refusal == Refusal::InDoubt {
        return Ok(Some(Reason::InDoubt("count")));
    }
    if let Some(reason) = filter_reason(alloc, table.schema(), unless, texts)? {
        return Ok(Some(reason));
    }
    let RowNotes { schema, lines, key } = rows;
    let is_small = lines.bytes() < SMALL_TEXT;
    match refusal {
        Refusal::Schema => {
            let is_other = unless.is_none() || difference(alloc, table.schema(), schema)?.is_some();
            Ok(is_other.then_some(Reason::OtherTable))
        }
        Refusal::Key => Ok(key),
        Refusal::Limit => match lines.large() {
            None if is_small => full_root(alloc, table, options),
            reason => Ok(reason),
        },
        _ => Ok(None),
    }
}

/// That the root would be too long, where the options of how files are written are not at fault.
fn full_root(alloc: Global, table: &Manifest, options: &WriteOptions) -> R<Option<Reason>> {
    let fault = options_fault(options.group_rows, options.page_rows, options.page_version);
    if fault.is_some() || options.page_rows < FEW_PAGES {
        return Ok(None);
    }
    let root = table.to_bytes(alloc)?;
    Ok(Some(Reason::FullRoot(root.len())))
}

/// Why the filter is refused that no row may satisfy, if the change has one.
fn unless_reason(
    alloc: Global,
    schema: &Schema,
    change: &Change<'_>,
    texts: bool,
) -> R<Option<Reason>> {
    match change {
        Change::Import { unless, .. } => filter_reason(alloc, schema, *unless, texts),
        _ => Ok(None),
    }
}

/// Why a filter is refused.
fn filter_reason(
    alloc: Global,
    schema: &Schema,
    filter: Option<&str>,
    texts: bool,
) -> R<Option<Reason>> {
    let Some(text) = filter else {
        return Ok(None);
    };
    let fault = filter_fault(alloc, schema, text, texts)?;
    Ok(fault.map(|fault| Reason::Filter(fault)))
}

/// The first of some names that no column has.
fn columns_reason(alloc: Global, schema: &Schema, names: &[&str]) -> R<Option<Reason>> {
    for name in names {
        if !schema.fields().iter().any(|field| field.name() == *name) {
            let name = String::from_str(alloc, name)?;
            return Ok(Some(Reason::NoColumn(name)));
        }
    }
    Ok(None)
}

/// Whether a refusal can be one of a part file: of its bytes, or of the disk.
fn is_of_parts(refusal: &Refusal) -> bool {
    is_of_bytes(refusal) || *refusal == Refusal::Device
}
