//! Why a Parquet file is not imported.

use crate::column_text::column_text;
use crate::key_reason::rows_reason;
use crate::part_reason::is_of_bytes;
use bits::{R, Refusal};
use footer::{read_file, read_footer};
use places::{Difference, Reason};
use reports::first_problem;
use schema::{KeyColumn, Schema};
use std::alloc::Global;

/// Why a file is not imported into a table of this schema and these keys, where there is more to say than the refusal.
pub fn import_reason(
    alloc: Global,
    schema: &Schema,
    keys: &[KeyColumn],
    bytes: &[u8],
    refusal: &Refusal,
) -> R<Option<Reason>> {
    match refusal {
        Refusal::Codec => Ok(Some(Reason::Compressed)),
        Refusal::Float(_) => Ok(Some(Reason::Cast("integers, decimals or texts"))),
        Refusal::Int96(_) => Ok(Some(Reason::Cast("timestamps of microseconds"))),
        Refusal::Schema => match file_reason(alloc, bytes)? {
            Some(reason) => Ok(Some(reason)),
            None => schema_reason(alloc, schema, bytes),
        },
        Refusal::Key => {
            let (_, rows) = read_file(alloc, bytes)?;
            rows_reason(alloc, keys, rows.as_slice())
        }
        _ if is_of_bytes(refusal) => file_reason(alloc, bytes),
        _ => Ok(None),
    }
}

/// What is wrong with the bytes of a Parquet file, if something is. The file's name is put before it later.
pub fn file_reason(alloc: Global, bytes: &[u8]) -> R<Option<Reason>> {
    let problem = first_problem(alloc, bytes)?;
    Ok(problem.map(|problem| Reason::File(problem)))
}

/// In which column a file is not as a table of this schema, if it is not.
fn schema_reason(alloc: Global, schema: &Schema, bytes: &[u8]) -> R<Option<Reason>> {
    let record = read_footer(alloc, bytes)?;
    let of_file = Schema::new(alloc, record.schema.as_slice())?;
    let difference = difference(alloc, schema, &of_file)?;
    Ok(difference.map(|it| Reason::Columns(it)))
}

/// The first column in which a file, or what was gathered, is not as the table, if there is one.
pub(crate) fn difference(alloc: Global, table: &Schema, file: &Schema) -> R<Option<Difference>> {
    let count = table.fields().len().max(file.fields().len());
    for place in 0..count {
        let of_table = column_text(alloc, table, place)?;
        let of_file = column_text(alloc, file, place)?;
        if let Some(found) = differing(of_table, of_file) {
            return Ok(Some(found));
        }
    }
    Ok(None)
}

/// How two columns differ, if they do.
fn differing(of_table: Option<String>, of_file: Option<String>) -> Option<Difference> {
    match (of_table, of_file) {
        (Some(table), Some(file)) => {
            if table.as_str() == file.as_str() {
                None
            } else {
                Some(Difference::Other { table, file })
            }
        }
        (Some(table), None) => Some(Difference::Lacks { table }),
        (None, Some(file)) => Some(Difference::More { file }),
        (None, None) => None,
    }
}
