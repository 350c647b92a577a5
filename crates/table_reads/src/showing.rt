//! Rows of a group, shown to a buffer.

ghost use Rattle.std.specs.Prelude.{◌≡◌, ◌++◌, List, false, Ok, IfOk, OnOk};
ghost use Rattle.bits.specs.Refusals.{RefusedMemoryOnly};
ghost use Rattle.schema.specs.Fits.{RowsFit};
ghost use Rattle.schema.specs.Keys.{key_columns_view, places_of};
ghost use Rattle.schema.specs.Values.{ValueTrees};
ghost use Rattle.schema.specs.Views.{field_views};
ghost use Rattle.scan.specs.Left.{rows_held, rows_stand};
ghost use Rattle.shred.specs.Buffer.{schema_of, holds};
ghost use Rattle.table_commits.specs.Showing.{places_besides, AddsNext};

use bits::{R, Refusal};
use scan::{GroupRows, Rows};
use schema::{Field, KeyColumn, has_place};
use shred::RowBuffer;
use std::alloc::Global;

/// The places of the columns that a table's files have, rising: of its fields those that are no key columns. It fails
/// only when out of memory. Time is linear in the fields times the key columns.
pub fn stored_places(alloc: Global, fields: &[Field], keys: &[KeyColumn]) -> R<Vec<usize>>
    ensures made { IfOk result (λ places. places.items ≡ places_besides (places_of (key_columns_view keys.now)) 0 (field_views fields.now)) }
    ensures which { RefusedMemoryOnly result }
{
    let mut places = Vec::new(alloc);
    for place in 0..fields.len() {
        if has_place(keys, place) {
            continue;
        }
        places.push(place)?;
    }
    Ok(places)
}

/// Shows a buffer the rows of a group that were read, which become its last rows. No row is made. It fails only when out
/// of memory; the buffer may then have some of the rows.
pub fn show_rows(alloc: Global, group: &GroupRows, buffer: &mut RowBuffer<'_>) -> R<()>
    ensures shown { OnOk result ((rows held : List ValueTrees) → rows_held group.now rows → RowsFit (schema_of buffer.old) rows → holds buffer.old held → holds buffer.new (held ++ rows)) }
    ensures only { (rows : List ValueTrees) → rows_held group.now rows → RefusedMemoryOnly result }
    ensures same_schema { schema_of buffer.new ≡ schema_of buffer.old }
{
    let mut rows = group.rows(alloc)?;
    'rows: for _ in 0..u64::MAX {
        if !show_next(&mut rows, buffer)? {
            return Ok(());
        }
    }
    // Never reached: no group has as many rows.
    Err(Refusal::Memory)
}

/// Shows a buffer the next row of a group. False after the last one, and then the buffer is the same.
#[inline]
pub fn show_next(rows: &mut Rows<'_>, buffer: &mut RowBuffer<'_>) -> R<bool>
    ensures adds { AddsNext (rows_stand rows.old) (rows_stand rows.new) buffer.old buffer.new result }
    ensures same { result ≡ Ok false → buffer.new ≡ buffer.old }
    ensures same_schema { schema_of buffer.new ≡ schema_of buffer.old }
{
    if !rows.next_to(buffer)? {
        return Ok(false);
    }
    buffer.end_row()?;
    Ok(true)
}
