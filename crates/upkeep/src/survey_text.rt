//! A table at a glance, as text for a person.

use crate::counting::Totals;
use crate::surveying::{ColumnReport, KeyReport, Survey};
use crate::text_lines::{Placed, line, push_right};
use reports::with_commas;
use std::alloc::{AllocError, Global};

/// How many columns, keys and files are shown; the others are counted.
const MOST_SHOWN: usize = 20;

/// How long the bar of the greatest key is.
const LONGEST_BAR: usize = 20;

/// A survey as text, in at most some 90 lines: the columns, how much there is in all, the greatest keys by their bytes with
/// a bar each, what a rewrite joins, and the files that are too many or missing, whose paths begin with that of the folder, unless it is
/// empty. Refused only when out of memory.
pub fn text_of_survey(alloc: Global, folder: &str, survey: &Survey) -> Result<Vec<u8>, AllocError> {
    let mut text = Vec::new(alloc);
    write_columns(alloc, &mut text, survey.columns.as_slice())?;
    write_totals(alloc, &mut text, survey)?;
    write_keys(alloc, &mut text, survey.keys.as_slice())?;
    write_small(alloc, &mut text, survey)?;
    let leftovers = survey.leftovers.as_slice();
    write_files(
        &mut text,
        folder,
        "files that the table does not name",
        leftovers,
    )?;
    let missing = survey.missing.as_slice();
    write_files(&mut text, folder, "files that are missing", missing)?;
    Ok(text)
}

/// The lines of the columns.
fn write_columns(
    alloc: Global,
    text: &mut Vec<u8>,
    columns: &[ColumnReport],
) -> Result<(), AllocError> {
    line(text, "columns")?;
    for column in columns.iter().take(MOST_SHOWN) {
        write_column(text, column)?;
    }
    write_others(alloc, text, columns.len(), "columns")
}

/// The line of a column.
fn write_column(text: &mut Vec<u8>, column: &ColumnReport) -> Result<(), AllocError> {
    let (path, kind, repetition) = (&column.path, column.kind, column.repetition);
    let key = if column.is_key { ", key" } else { "" };
    match &column.note {
        Some(note) => line(
            text,
            format_args!("  {path}: {repetition} {kind} ({note}){key}"),
        ),
        None => line(text, format_args!("  {path}: {repetition} {kind}{key}")),
    }
}

/// A line with how many others there are that are not shown, if there are any.
fn write_others(
    alloc: Global,
    text: &mut Vec<u8>,
    count: usize,
    what: &str,
) -> Result<(), AllocError> {
    if count <= MOST_SHOWN {
        return Ok(());
    }
    let others = with_commas(alloc, (count - MOST_SHOWN) as u64)?;
    line(text, format_args!("  and {others} other {what}"))
}

/// The line of the whole table.
fn write_totals(alloc: Global, text: &mut Vec<u8>, survey: &Survey) -> Result<(), AllocError> {
    let totals = survey.totals;
    let rows = with_commas(alloc, totals.rows)?;
    let groups = with_commas(alloc, totals.groups)?;
    let bytes = with_commas(alloc, totals.bytes)?;
    line(text, "")?;
    line(
        text,
        format_args!("rows: {rows}, in groups: {groups}, in bytes: {bytes}"),
    )
}

/// The lines of the greatest keys, under a head.
fn write_keys(alloc: Global, text: &mut Vec<u8>, keys: &[KeyReport]) -> Result<(), AllocError> {
    if keys.is_empty() {
        return Ok(());
    }
    line(text, "")?;
    line(text, "keys, the greatest first")?;
    let sorted = by_bytes(alloc, keys)?;
    let greatest = sorted.first().map_or(0, |key| key.totals.bytes);
    write_row(text, "", "bytes", "rows", "groups", "")?;
    for key in sorted.iter().take(MOST_SHOWN) {
        write_key(alloc, text, key, greatest)?;
    }
    write_others(alloc, text, keys.len(), "keys")
}

/// The keys, those with most bytes first; of as many, in table order.
fn by_bytes<'a>(alloc: Global, keys: &'a [KeyReport]) -> Result<Vec<&'a KeyReport>, AllocError> {
    let mut sorted = Vec::with_capacity(alloc, keys.len())?;
    for key in keys {
        sorted.push(key)?;
    }
    sorted.sort_by(|a, b| b.totals.bytes.cmp(&a.totals.bytes))?;
    Ok(sorted)
}

/// The line of a key.
fn write_key(
    alloc: Global,
    text: &mut Vec<u8>,
    key: &KeyReport,
    greatest: u64,
) -> Result<(), AllocError> {
    let Totals {
        rows,
        groups,
        bytes,
    } = key.totals;
    let bar = bar_of(alloc, bytes, greatest)?;
    let rows = with_commas(alloc, rows)?;
    let groups = with_commas(alloc, groups)?;
    let bytes = with_commas(alloc, bytes)?;
    let name = if key.key.is_empty() {
        "(no keys)"
    } else {
        key.key.as_str()
    };
    write_row(
        text,
        bar.as_str(),
        bytes.as_str(),
        rows.as_str(),
        groups.as_str(),
        name,
    )
}

/// A bar of `#` for these bytes, beside the greatest.
fn bar_of(alloc: Global, bytes: u64, greatest: u64) -> Result<String, AllocError> {
    let parts = u128::from(bytes) * LONGEST_BAR as u128;
    let length = parts.checked_div(u128::from(greatest)).unwrap_or(0);
    let length = length.min(LONGEST_BAR as u128) as usize;
    let mut bar = String::new(alloc);
    for _ in 0..length {
        bar.push('#')?;
    }
    Ok(bar)
}

/// A line of the table of keys: numbers and bars at the right of their columns.
fn write_row(
    text: &mut Vec<u8>,
    bar: &str,
    bytes: &str,
    rows: &str,
    groups: &str,
    name: &str,
) -> Result<(), AllocError> {
    push_right(text, bytes, 19)?;
    push_right(text, rows, 16)?;
    push_right(text, groups, 10)?;
    if name.is_empty() {
        return line(text, "");
    }
    push_right(text, bar, LONGEST_BAR + 2)?;
    text.extend_from_slice(b"  ")?;
    line(text, name)
}

/// The line of what a rewrite joins.
fn write_small(alloc: Global, text: &mut Vec<u8>, survey: &Survey) -> Result<(), AllocError> {
    let least = survey.least;
    let small = with_commas(alloc, survey.small as u64)?;
    line(text, "")?;
    line(
        text,
        format_args!("groups that `rewrite --min-rows {least}` joins: {small}"),
    )
}

/// The lines of some files.
fn write_files(
    text: &mut Vec<u8>,
    folder: &str,
    what: &str,
    files: &[String],
) -> Result<(), AllocError> {
    let count = files.len();
    line(text, format_args!("{what}: {count}"))?;
    for file in files.iter().take(MOST_SHOWN) {
        let path = Placed {
            folder,
            path: file.as_str(),
        };
        line(text, format_args!("  {path}"))?;
    }
    Ok(())
}
