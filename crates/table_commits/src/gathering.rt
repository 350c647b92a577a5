//! Rows that are gathered for a table.

ghost use Rattle.std.specs.Prelude.{◌≡◌, ◌++◌, [], List, IfOk, OnOk};
ghost use Rattle.bits.specs.Refusals.{RefusedOnly, RefusedMemoryOnly};
ghost use Rattle.schema.specs.Fits.{RowsFit};
ghost use Rattle.schema.specs.Values.{ValueTrees};
ghost use Rattle.schema.specs.Views.{rows_view};
ghost use Rattle.gather.specs.GatheredRows.{holds, schema_of};
ghost use Rattle.manifest.specs.Groups.{root_of};
ghost use Rattle.table_commits.specs.Gathering.{AreGatheredFor, KeepsTable};

use bits::{R, Refusal};
use footer::WriteOptions;
use gather::Gathered;
use manifest::Manifest;
use schema::Row;
use std::alloc::Global;

/// No rows yet that are gathered for a table, in groups of the size that the options say. It fails only when out of memory.
pub fn begin_gathering<'a>(
    alloc: Global,
    table: &'a Manifest,
    options: &WriteOptions,
) -> R<Gathered<'a>>
    ensures begins { IfOk result (λ g. holds g []) }
    ensures table { IfOk result (AreGatheredFor (root_of table.now) options.now) }
    ensures which { RefusedMemoryOnly result }
{
    // For the proof: what is known of the schema.
    let _ = table.schema().leaves();
    let size = options.group_rows as usize;
    let gathered = Gathered::new(alloc, table.schema(), table.keys(), table.stored(), size)?;
    Ok(gathered)
}

/// Gathers the rows of a list, behind those that are gathered. Refused RowShape for one that does not fit.
pub fn push_rows(gathered: &mut Gathered<'_>, rows: &[Row]) -> R<()>
    ensures held { OnOk result ((before : List ValueTrees) → holds gathered.old before → holds gathered.new (before ++ rows_view rows.now)) }
    ensures table { KeepsTable gathered.old gathered.new }
    ensures only { RowsFit (schema_of gathered.old) (rows_view rows.now) → RefusedMemoryOnly result }
    ensures which { RefusedOnly (λ e. e ≡ Refusal.RowShape) result }
{
    for row in rows {
        gathered.push(row)?;
    }
    Ok(())
}
