//! What a check found, as text for a person.

use crate::checking::Checked;
use crate::findings::Finding;
use crate::text_lines::{Placed, line};
use reports::with_commas;
use std::alloc::{AllocError, Global};

/// How many of the files that the table does not name are shown; the others are counted.
const MOST_SHOWN: usize = 20;

/// The result of a check as text: `ok` with the counts, or a line for each finding and one with how many there are. Then a
/// note of the part files that the table does not name, if there are any. Each path begins with that of the folder, unless it is
/// empty. Refused only when out of memory.
pub fn text_of_check(
    alloc: Global,
    folder: &str,
    checked: &Checked,
) -> Result<Vec<u8>, AllocError> {
    let mut text = Vec::new(alloc);
    let findings = checked.findings.as_slice();
    if findings.is_empty() {
        write_ok(alloc, &mut text, checked)?;
    } else {
        write_findings(&mut text, folder, findings)?;
    }
    if !checked.unnamed.is_empty() {
        write_unnamed(alloc, &mut text, folder, checked)?;
    }
    Ok(text)
}

/// The line of a table in which nothing was found.
fn write_ok(alloc: Global, text: &mut Vec<u8>, checked: &Checked) -> Result<(), AllocError> {
    let totals = checked.totals;
    let rows = with_commas(alloc, totals.rows)?;
    let groups = with_commas(alloc, totals.groups)?;
    let bytes = with_commas(alloc, totals.bytes)?;
    line(
        text,
        format_args!("ok: rows {rows}, groups {groups}, bytes {bytes}"),
    )
}

/// The lines of the findings, and of how many there are.
fn write_findings(
    text: &mut Vec<u8>,
    folder: &str,
    findings: &[Finding],
) -> Result<(), AllocError> {
    for finding in findings {
        write_finding(text, folder, finding)?;
    }
    let count = findings.len();
    line(text, format_args!("findings: {count}"))
}

/// The lines of the part files that the table does not name.
fn write_unnamed(
    alloc: Global,
    text: &mut Vec<u8>,
    folder: &str,
    checked: &Checked,
) -> Result<(), AllocError> {
    let count = checked.unnamed.len();
    let bytes = with_commas(alloc, checked.unnamed_bytes)?;
    line(
        text,
        format_args!("note: files that the table does not name: {count}, bytes {bytes}"),
    )?;
    for path in checked.unnamed.iter().take(MOST_SHOWN) {
        let path = Placed {
            folder,
            path: path.as_str(),
        };
        line(text, format_args!("  {path}"))?;
    }
    Ok(())
}

/// The line of a finding: the path, the column, where it is one, and the damage.
fn write_finding(text: &mut Vec<u8>, folder: &str, finding: &Finding) -> Result<(), AllocError> {
    let path = Placed {
        folder,
        path: finding.path.as_str(),
    };
    let damage = &finding.damage;
    match &finding.column {
        Some(column) => line(text, format_args!("{path}: column {column}: {damage}")),
        None => line(text, format_args!("{path}: {damage}")),
    }
}
