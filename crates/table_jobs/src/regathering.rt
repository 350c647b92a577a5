//! The rows of an append that wait, gathered again, and then those that come.

ghost use Rattle.std.specs.Prelude.{◌≡◌, ◌++◌, ◌⊎◌, List, map, length, IfOk, OnOk};
ghost use Rattle.bits.specs.Refusals.{RefusedOnly, RefusedMemoryOnly};
ghost use Rattle.schema.specs.Fits.{RowsFit};
ghost use Rattle.schema.specs.Keys.{IsRowOf, AreRowsOf, key_columns_view, places_of};
ghost use Rattle.schema.specs.Values.{ValueTrees, view, member_at};
ghost use Rattle.schema.specs.Views.{key_view, row_view, rows_view};
ghost use Rattle.filter.specs.RuledOut.{key_at};
ghost use Rattle.gather.specs.GatheredRows.{holds, schema_of, columns_of};
ghost use Rattle.gather.specs.KeyBuffers.{HoldGroups};
ghost use Rattle.manifest.specs.Groups.{root_of};
ghost use Rattle.manifest.specs.Root.{stored_of};
ghost use Rattle.partition.specs.Splitting.{KeyRows as KeyTrees, HaveKeys, key_rows_view};
ghost use Rattle.table_commits.specs.Filling.{AreBuffers, rows_waiting};
ghost use Rattle.table_commits.specs.Gathering.{KeepsTable};
ghost use Rattle.table_jobs.specs.Regathering.{AreWhole, whole_value};

use bits::{R, Refusal};
use columns::value_at;
use filter::key_at;
use footer::WriteOptions;
use gather::{Gathered, KeyBuffer};
use manifest::Manifest;
use partition::KeyRows;
use schema::{Key, KeyColumn, Row, Value, has_place};
use std::alloc::Global;
use table_commits::{begin_gathering, push_rows};

/// The groups of rows that wait under their keys, as the files of a table have them, and then of rows that come.
///
/// Refused RowShape for a row that does not fit the table, and Key for one whose key can name no folder.
pub(crate) fn groups_with<'a>(
    alloc: Global,
    table: &'a Manifest,
    options: &WriteOptions,
    waiting: &[KeyRows],
    rows: &[Row],
) -> R<Vec<KeyBuffer<'a>>>
    ensures groups { IfOk result (λ groups. (whole : List KeyTrees)
        → AreBuffers (root_of table.now).schema (root_of table.now).keys (map key_rows_view waiting.now) whole
        → HoldGroups (root_of table.now).keys options.now.group_rows (stored_of (root_of table.now))
        (rows_waiting whole ++ rows_view rows.now) groups.items) }
    ensures only { (whole : List KeyTrees) → AreBuffers (root_of table.now).schema (root_of table.now).keys (map key_rows_view waiting.now) whole
        → RowsFit (root_of table.now).schema (rows_view rows.now)
        → HaveKeys (root_of table.now).keys (rows_view rows.now) → RefusedMemoryOnly result }
    ensures which { RefusedOnly (λ e. (e ≡ Refusal.RowShape) ⊎ (e ≡ Refusal.Key)) result }
{
    let mut gathered = begin_gathering(alloc, table, options)?;
    gather_waiting(alloc, &mut gathered, waiting)?;
    push_rows(&mut gathered, rows)?;
    let groups = gathered.into_groups()?;
    Ok(groups)
}

/// Gathers rows that wait under their keys, key by key, behind those that are gathered.
fn gather_waiting(alloc: Global, gathered: &mut Gathered<'_>, waiting: &[KeyRows]) -> R<()>
    ensures held { OnOk result ((before : List ValueTrees) (whole : List KeyTrees) → holds gathered.old before
        → AreWhole (columns_of gathered.old) (map key_rows_view waiting.now) whole
        → holds gathered.new (before ++ rows_waiting whole)) }
    ensures table { KeepsTable gathered.old gathered.new }
    ensures only { (whole : List KeyTrees) → AreWhole (columns_of gathered.old) (map key_rows_view waiting.now) whole
        → RowsFit (schema_of gathered.old) (rows_waiting whole) → RefusedMemoryOnly result }
    ensures which { RefusedOnly (λ e. e ≡ Refusal.RowShape) result }
{
    for rows in waiting {
        gather_key(alloc, gathered, rows)?;
    }
    Ok(())
}

/// Gathers rows that wait under one key, behind those that are gathered.
fn gather_key(alloc: Global, gathered: &mut Gathered<'_>, waiting: &KeyRows) -> R<()>
    ensures held { OnOk result ((before whole : List ValueTrees) → holds gathered.old before
        → AreRowsOf (columns_of gathered.old) (key_view waiting.now.key) (rows_view waiting.now.rows.items) whole
        → holds gathered.new (before ++ whole)) }
    ensures table { KeepsTable gathered.old gathered.new }
    ensures only { (whole : List ValueTrees) → AreRowsOf (columns_of gathered.old) (key_view waiting.now.key) (rows_view waiting.now.rows.items) whole
        → RowsFit (schema_of gathered.old) whole → RefusedMemoryOnly result }
    ensures which { RefusedOnly (λ e. e ≡ Refusal.RowShape) result }
{
    for stored in &waiting.rows {
        let row = whole_row(alloc, gathered.columns(), &waiting.key, stored)?;
        gathered.push(&row)?;
    }
    Ok(())
}

/// A row of a table: the values of a key in the key columns, and those of a row of its files in the others.
fn whole_row(alloc: Global, columns: &[KeyColumn], key: &Key, stored: &Row) -> R<Row>
    ensures is { IfOk result (λ row. (whole : ValueTrees)
        → IsRowOf (key_columns_view columns.now) (key_view key.now) (row_view stored.now) whole → row_view row ≡ whole) }
    ensures which { RefusedMemoryOnly result }
{
    let width = stored.values.len() + columns.len();
    let mut values = Vec::with_capacity(alloc, width)?;
    let mut next = 0;
    for place in 0..width {
        let value = whole_value(alloc, columns, key, place, stored, next)?;
        values.push(value)?;
        if !has_place(columns, place) {
            next += 1;
        }
    }
    Ok(Row { values })
}

/// The value at a place of a row of a table: that of the key, or else the next one of the row of its files.
fn whole_value(
    alloc: Global,
    columns: &[KeyColumn],
    key: &Key,
    place: usize,
    stored: &Row,
    next: usize,
) -> R<Value>
    ensures is { IfOk result (λ value. view value
        ≡ whole_value (key_at (places_of (key_columns_view columns.now)) (key_view key.now) place) (member_at next (row_view stored.now))) }
    ensures which { RefusedMemoryOnly result }
{
    match key_at(columns, key.values.as_slice(), place) {
        Some(value) => value.copied(alloc),
        None => value_at(alloc, stored, next),
    }
}
