//! Rows that fill no group, which wait as rows.

ghost use Rattle.std.specs.Prelude.{◌≡◌, ◌≤◌, ◌++◌, List, [], map, get_or, length, IfOk};
ghost use Rattle.bits.specs.Refusals.{RefusedMemoryOnly};
ghost use Rattle.std.specs.List.{AllByRecursion};
ghost use Rattle.schema.specs.Keys.{KeyColumn};
ghost use Rattle.schema.specs.Shape.{Fields};
ghost use Rattle.schema.specs.Stripe.{columns};
ghost use Rattle.schema.specs.Values.{ValueTrees};
ghost use Rattle.schema.specs.Views.{columns_view, column_view, rows_view};
ghost use Rattle.shred.specs.Buffer.{schema_of, holds};
ghost use Rattle.gather.specs.KeyBuffers.{Hold, HoldGroups};
ghost use Rattle.partition.specs.Splitting.{KeyRows as KeyTrees, key_rows_view};
ghost use Rattle.table_jobs.specs.Rests.{IsAsLong, IsShorter, HoldParts};

use assemble::{Cursor, assemble_from};
use bits::R;
use gather::KeyBuffer;
use partition::KeyRows;
use schema::{Column, Row, columns_determine_rows};
use shred::{ColumnRef, RowBuffer};
use std::alloc::Global;

/// Of the groups of rows, takes away those that have fewer rows than this: the rest of each key, behind the full groups.
pub(crate) fn take_rests<'a>(groups: &mut Vec<KeyBuffer<'a>>, size: usize) -> R<Vec<KeyBuffer<'a>>>
    ensures parts { IfOk result (λ rests. (columns : List KeyColumn) (fs : Fields) (rows : List ValueTrees) → 1 ≤ size
        → HoldGroups columns size fs rows groups.old.items
        → HoldParts columns size fs rows groups.new.items rests.items) }
    ensures which { RefusedMemoryOnly result }
{
    let full = first_rest(groups.as_slice(), size);
    let rests = groups.split_off(full)?;
    Ok(rests)
}

/// The place of the first group that has fewer rows than this.
fn first_rest(groups: &[KeyBuffer<'_>], size: usize) -> usize
    ensures within { result ≤ length groups.now }
    ensures is { (fs : Fields) (full rests : List KeyTrees) → Hold fs groups.now (full ++ rests)
        → AllByRecursion (IsAsLong size) full → AllByRecursion (IsShorter size) rests → result ≡ length full }
{
    for (i, group) in groups.iter().enumerate() {
        if group.rows.len() < size {
            return i;
        }
    }
    groups.len()
}

/// Rows that wait as columns, each key's as rows. Time and room are linear in what the rows hold.
pub(crate) fn rests_as_rows(alloc: Global, rests: Vec<KeyBuffer<'_>>) -> R<Vec<KeyRows>>
    ensures are { IfOk result (λ waiting. (fs : Fields) (left : List KeyTrees) → Hold fs rests.entry.items left → map key_rows_view waiting.items ≡ left) }
    ensures only { (fs : Fields) (left : List KeyTrees) → Hold fs rests.entry.items left → RefusedMemoryOnly result }
{
    let mut waiting = Vec::with_capacity(alloc, rests.len())?;
    for rest in rests {
        let KeyBuffer { key, rows } = rest;
        let rows = rows_of(alloc, &rows)?;
        waiting.push(KeyRows { key, rows })?;
    }
    Ok(waiting)
}

/// The rows of a buffer.
fn rows_of(alloc: Global, buffer: &RowBuffer<'_>) -> R<Vec<Row>>
    ensures are { IfOk result (λ rows. (held : List ValueTrees) → holds buffer.now held → rows_view rows.items ≡ held) }
    ensures only { (held : List ValueTrees) → holds buffer.now held → RefusedMemoryOnly result }
{
    // For the proof: what is known of the schema, and that no other rows have these columns.
    let _ = buffer.schema().leaves();
    columns_determine_rows();
    let columns = columns_of(alloc, buffer)?;
    let mut cursors = Vec::with_capacity(alloc, columns.len())?;
    for column in &columns {
        cursors.push(Cursor::new(column.entries.as_slice()))?;
    }
    let rows = assemble_from(alloc, buffer.schema(), cursors.as_mut_slice())?;
    Ok(rows)
}

/// The columns of the rows of a buffer, one for each leaf.
fn columns_of(alloc: Global, buffer: &RowBuffer<'_>) -> R<Vec<Column>>
    ensures are { IfOk result (λ cs. (held : List ValueTrees) → holds buffer.now held → columns_view cs.items ≡ columns (schema_of buffer.now) held) }
    ensures which { RefusedMemoryOnly result }
{
    let leaves = buffer.schema().leaves().len();
    let mut columns = Vec::with_capacity(alloc, leaves)?;
    for leaf in 0..leaves {
        let column = column_of(alloc, buffer, leaf)?;
        columns.push(column)?;
    }
    Ok(columns)
}

/// A column of the rows of a buffer, given by its place among the leaves.
fn column_of(alloc: Global, buffer: &RowBuffer<'_>, leaf: usize) -> R<Column>
    ensures is { IfOk result (λ column. (held : List ValueTrees) → holds buffer.now held
        → column_view column ≡ get_or (columns (schema_of buffer.now) held) leaf []) }
    ensures which { RefusedMemoryOnly result }
{
    let mut entries = Vec::new(alloc);
    buffer.entries(leaf, &mut entries)?;
    ColumnRef { entries }.to_column(alloc)
}
