//! A survey of a table as JSON.

use bits::{R, Refusal};
use serde::Serialize;
use std::alloc::Global;
use upkeep::{ColumnReport, KeyReport, Survey};

/// What a table has. The members are in the byte order of their names.
#[derive(Drop, Serialize)]
struct SurveyObject<'a> {
    bytes: u64,
    columns: Vec<ColumnObject<'a>>,
    groups: u64,
    keys: Vec<KeyObject<'a>>,
    leftovers: &'a [String],
    min_rows: u64,
    missing: &'a [String],
    rows: u64,
    small_groups: usize,
}

/// A column, as a leaf of the schema.
#[derive(Drop, Serialize)]
struct ColumnObject<'a> {
    key: bool,
    /// What it says of the meaning of its values; null where it says nothing.
    note: Option<&'a str>,
    path: &'a str,
    repetition: &'a str,
    #[serde(rename = "type")]
    kind: &'a str,
}

/// The groups of a key.
#[derive(Drop, Serialize)]
struct KeyObject<'a> {
    bytes: u64,
    folder: &'a str,
    groups: u64,
    rows: u64,
}

/// A survey as a line of JSON: an object whose members are `bytes`, `columns`, `groups`, `keys`, `leftovers`, `min_rows`,
/// `missing`, `rows` and `small_groups`. It fails only when out of memory.
pub fn json_of_survey(alloc: Global, survey: &Survey) -> R<Vec<u8>> {
    let object = SurveyObject {
        bytes: survey.totals.bytes,
        columns: columns_of(alloc, survey.columns.as_slice())?,
        groups: survey.totals.groups,
        keys: keys_of(alloc, survey.keys.as_slice())?,
        leftovers: survey.leftovers.as_slice(),
        min_rows: survey.least,
        missing: survey.missing.as_slice(),
        rows: survey.totals.rows,
        small_groups: survey.small,
    };
    match serde_json::to_vec(alloc, &object) {
        Ok(text) => {
            let mut text = text;
            text.push(b'\n')?;
            Ok(text)
        }
        // No part of a survey can be refused otherwise.
        Err(_) => Err(Refusal::Memory),
    }
}

/// The columns, each as an object.
fn columns_of<'a>(alloc: Global, reports: &'a [ColumnReport]) -> R<Vec<ColumnObject<'a>>> {
    let mut columns = Vec::with_capacity(alloc, reports.len())?;
    for report in reports {
        columns.push(ColumnObject {
            key: report.is_key,
            note: report.note.as_ref().map(String::as_str),
            path: report.path.as_str(),
            repetition: report.repetition,
            kind: report.kind,
        })?;
    }
    Ok(columns)
}

/// The keys, each as an object.
fn keys_of<'a>(alloc: Global, reports: &'a [KeyReport]) -> R<Vec<KeyObject<'a>>> {
    let mut keys = Vec::with_capacity(alloc, reports.len())?;
    for report in reports {
        keys.push(KeyObject {
            bytes: report.totals.bytes,
            folder: report.folder.as_str(),
            groups: report.totals.groups,
            rows: report.totals.rows,
        })?;
    }
    Ok(keys)
}
