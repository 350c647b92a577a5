//! The columns of rows.

ghost use Rattle.std.specs.Prelude.{◌≡◌, IfOk, OnOk};
ghost use Rattle.bits.specs.Refusals.{OnFault, RefusedOnly, RefusedMemoryOnly};
ghost use Rattle.schema.specs.Fits.{RowsFit};
ghost use Rattle.schema.specs.Views.{rows_view};
ghost use Rattle.schema.specs.Stripe.{columns};
ghost use Rattle.shred.specs.Columns.{column_refs_view};
ghost use Rattle.shred.specs.inner.Growing.{nils};

use crate::column::ColumnRef;
use crate::field::{Levels, push_fields};
use bits::{R, Refusal};
use schema::{Row, Schema};
use std::alloc::Global;

/// The columns of rows: one for each leaf, depth first, its values borrowed from the rows.
///
/// Refused RowShape only where a row does not fit the schema.
///
/// One pass over each row fills all columns, and finds whether the row fits. A row takes time linear in its
/// entries and in the fields on the paths to them; an absent group gives one entry to each leaf below it. No
/// value is copied. Rows of several row groups can be shredded one group at a time.
pub fn shred<'a>(alloc: Global, schema: &Schema, rows: &'a [Row]) -> R<Vec<ColumnRef<'a>>>
    ensures stands { IfOk result (λ found. column_refs_view found.items ≡ columns schema.now (rows_view rows.now)) }
    ensures fit { OnOk result (RowsFit schema.now (rows_view rows.now)) }
    ensures only { OnFault result (RowsFit schema.now (rows_view rows.now) → ⊥) }
    ensures which { RefusedOnly (λ e. e ≡ Refusal.RowShape) result }
{
    let leaves = schema.leaves();
    let mut columns = empty_columns(alloc, leaves.len(), rows.len())?;
    for row in rows {
        push_fields(
            schema.fields(),
            row.values.as_slice(),
            Levels::of_row(),
            columns.as_mut_slice(),
        )?;
    }
    Ok(columns)
}

/// As many columns without entries, each with room for an entry of each row.
fn empty_columns<'a>(alloc: Global, count: usize, rows: usize) -> R<Vec<ColumnRef<'a>>>
    ensures empty { IfOk result (λ made. column_refs_view made.items ≡ nils count) }
    ensures which { RefusedMemoryOnly result }
{
    let mut columns = Vec::with_capacity(alloc, count)?;
    for _ in 0..count {
        let entries = Vec::with_capacity(alloc, rows)?;
        columns.push(ColumnRef { entries })?;
    }
    Ok(columns)
}
