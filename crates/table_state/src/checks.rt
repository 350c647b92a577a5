//! The checks of rows that are given to a table.

ghost use Rattle.std.specs.Prelude.{◌≡◌, ◌⊎◌, IfErr};
ghost use Rattle.schema.specs.Keys.{key_columns_view};
ghost use Rattle.schema.specs.Views.{rows_view};
ghost use Rattle.partition.specs.Folders.{AreKeyColumns};
ghost use Rattle.manifest.specs.Groups.{root_of};
ghost use Rattle.table.specs.Table.{Table};
ghost use Rattle.table.specs.Checks.{rows_fault};
ghost use Rattle.table_state.specs.Checking.{fault_in};

use crate::standing::Core;
use bits::{R, Refusal};
use disk::Disk;
use partition::row_can_partition;
use schema::{KeyColumn, Row, Schema};

impl<D: Disk> Core<D> {
    /// Checks rows, one by one: whether a row fits the table, and then whether its key can partition.
    ///
    /// Refused RowShape or Key, by the first fault. Takes no memory.
    pub fn check_rows(&self, rows: &[Row]) -> R<()>
        ensures fault { (t : Table) → t.schema ≡ (root_of self.now.manifest).schema → t.keys ≡ (root_of self.now.manifest).keys → AreKeyColumns t.keys
            → rows_fault t (rows_view rows.now) ≡ fault_in result }
        ensures which { IfErr result (λ e. (e ≡ Refusal.RowShape) ⊎ (e ≡ Refusal.Key)) }
    {
        check_each(self.manifest.schema(), self.manifest.keys(), rows)
    }
}

/// Checks rows for a table of this schema with these key columns.
fn check_each(schema: &Schema, keys: &[KeyColumn], rows: &[Row]) -> R<()>
    ensures fault { (t : Table) → t.schema ≡ schema.now → t.keys ≡ key_columns_view keys.now → AreKeyColumns t.keys
        → rows_fault t (rows_view rows.now) ≡ fault_in result }
    ensures which { IfErr result (λ e. (e ≡ Refusal.RowShape) ⊎ (e ≡ Refusal.Key)) }
{
    for row in rows {
        if !schema.fits(row) {
            return Err(Refusal::RowShape);
        }
        if !row_can_partition(keys, row) {
            return Err(Refusal::Key);
        }
    }
    Ok(())
}
