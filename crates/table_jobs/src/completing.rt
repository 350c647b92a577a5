//! Rows that wait, as they are written: those from before a field was added are Null in it.

ghost use Rattle.std.specs.Prelude.{◌≡◌, IfOk, map};
ghost use Rattle.bits.specs.Refusals.{RefusedMemoryOnly};
ghost use Rattle.schema.specs.Fronts.{padded};
ghost use Rattle.schema.specs.Views.{row_view, rows_view};
ghost use Rattle.partition.specs.Splitting.{key_rows_view};
ghost use Rattle.table_jobs.specs.Completing.{completed_rows, completed_buffer, completed_buffers};

use bits::R;
use partition::KeyRows;
use schema::{Row, Schema, Value, copied_values};
use std::alloc::Global;

/// A copy of a row of the first stored fields of a table, with Null for each of the others.
fn completed_row(alloc: Global, stored: &Schema, row: &Row) -> R<Row>
    ensures completes { IfOk result (λ copy. row_view copy ≡ padded stored.now (row_view row.now)) }
    ensures which { RefusedMemoryOnly result }
{
    let mut values = copied_values(alloc, row.values.as_slice())?;
    for _ in values.len()..stored.fields().len() {
        values.push(Value::Null)?;
    }
    Ok(Row { values })
}

/// Copies of rows of the first stored fields of a table, with Null for each of the others.
pub(crate) fn completed_rows(alloc: Global, stored: &Schema, rows: &[Row]) -> R<Vec<Row>>
    ensures completes { IfOk result (λ copies. rows_view copies.items ≡ completed_rows stored.now (rows_view rows.now)) }
    ensures which { RefusedMemoryOnly result }
{
    let mut copies = Vec::with_capacity(alloc, rows.len())?;
    for row in rows {
        let copy = completed_row(alloc, stored, row)?;
        copies.push(copy)?;
    }
    Ok(copies)
}

/// A copy of the rows of a key that wait, as they are written: with Null for each field that was added after them.
fn completed_buffer(alloc: Global, stored: &Schema, buffer: &KeyRows) -> R<KeyRows>
    ensures completes { IfOk result (λ copy. key_rows_view copy ≡ completed_buffer stored.now (key_rows_view buffer.now)) }
    ensures which { RefusedMemoryOnly result }
{
    let key = buffer.key.copied(alloc)?;
    let rows = completed_rows(alloc, stored, buffer.rows.as_slice())?;
    Ok(KeyRows { key, rows })
}

/// Copies of the rows of each key that wait, as they are written: with Null for each field that was added after them.
pub(crate) fn completed_buffers(
    alloc: Global,
    stored: &Schema,
    waiting: &[KeyRows],
) -> R<Vec<KeyRows>>
    ensures completes { IfOk result (λ copies. map key_rows_view copies.items ≡ completed_buffers stored.now (map key_rows_view waiting.now)) }
    ensures which { RefusedMemoryOnly result }
{
    let mut copies = Vec::with_capacity(alloc, waiting.len())?;
    for buffer in waiting {
        let copy = completed_buffer(alloc, stored, buffer)?;
        copies.push(copy)?;
    }
    Ok(copies)
}
