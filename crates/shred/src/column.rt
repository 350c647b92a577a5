//! Columns whose values are borrowed from rows.

ghost use Rattle.std.specs.Prelude.{◌≡◌, IfOk};
ghost use Rattle.bits.specs.Refusals.{RefusedMemoryOnly};
ghost use Rattle.schema.specs.Views.{column_view, columns_view};
ghost use Rattle.shred.specs.Columns.{column_ref_view, column_refs_view};

use bits::R;
use schema::{Column, EntryRef};
use std::alloc::Global;

/// The entries of one leaf, their values borrowed.
#[derive(Debug, Drop)]
pub struct ColumnRef<'a> {
    pub entries: Vec<EntryRef<'a>>,
}

impl<'a> ColumnRef<'a> {
    /// An owned copy of the column. It fails only when out of memory; time and room are linear in what
    /// the entries hold.
    pub fn to_column(&self, alloc: Global) -> R<Column>
        ensures same { IfOk result (λ column. column_view column ≡ column_ref_view self.now) }
        ensures which { RefusedMemoryOnly result }
    {
        let mut entries = Vec::with_capacity(alloc, self.entries.len())?;
        for entry in &self.entries {
            entries.push(entry.to_entry(alloc)?)?;
        }
        Ok(Column { entries })
    }
}

/// Owned copies of the columns. It fails only when out of memory; time and room are linear in what the
/// entries hold.
pub fn to_columns(alloc: Global, columns: &[ColumnRef<'_>]) -> R<Vec<Column>>
    ensures same { IfOk result (λ owned. columns_view owned.items ≡ column_refs_view columns.now) }
    ensures which { RefusedMemoryOnly result }
{
    let mut owned = Vec::with_capacity(alloc, columns.len())?;
    for column in columns {
        owned.push(column.to_column(alloc)?)?;
    }
    Ok(owned)
}
