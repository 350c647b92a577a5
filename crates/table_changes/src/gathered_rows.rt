//! Rows that are gathered for a table.

ghost use Rattle.std.specs.Prelude.{◌≡◌, ◌++◌, [], List, false, Ok, IfOk, IfErr, OnOk};
ghost use Rattle.bits.specs.Refusals.{OnFault, RefusedOnly, RefusedMemoryOnly};
ghost use Rattle.schema.specs.Fits.{RowsFit};
ghost use Rattle.schema.specs.Values.{ValueTrees};
ghost use Rattle.schema.specs.Views.{rows_view};
ghost use Rattle.footer.specs.Left.{rows_of_file, rows_stand};
ghost use Rattle.gather.specs.GatheredRows.{holds, schema_of};
ghost use Rattle.manifest.specs.Groups.{root_of};
ghost use Rattle.table_commits.specs.Gathering.{AreGatheredFor, GathersNext, GathersFile, KeepsTable, IsReadFor, IsNotRead};

use crate::comparing::same_schema;
use assemble::RowSink;
use bits::{R, Refusal};
use footer::{FileReader, Rows, WriteOptions};
use gather::Gathered;
use manifest::Manifest;
use schema::Row;
use std::alloc::Global;
use table_commits::{begin_gathering, push_rows};

/// The rows of a list, gathered for a table that they fit. Refused RowShape for one that does not.
pub(crate) fn gather_rows<'a>(
    alloc: Global,
    table: &'a Manifest,
    options: &WriteOptions,
    rows: &[Row],
) -> R<Gathered<'a>>
    ensures held { IfOk result (λ g. holds g (rows_view rows.now)) }
    ensures table { IfOk result (AreGatheredFor (root_of table.now) options.now) }
    ensures only { RowsFit (root_of table.now).schema (rows_view rows.now) → RefusedMemoryOnly result }
    ensures which { RefusedOnly (λ e. e ≡ Refusal.RowShape) result }
{
    let mut gathered = begin_gathering(alloc, table, options)?;
    push_rows(&mut gathered, rows)?;
    Ok(gathered)
}

/// The rows of the bytes of a file, gathered for a table of its schema. No row is made.
///
/// Refused as [`gather_file`].
pub(crate) fn gather_bytes<'a>(
    alloc: Global,
    table: &'a Manifest,
    options: &WriteOptions,
    bytes: &[u8],
) -> R<Gathered<'a>>
    ensures read { IfOk result (IsReadFor (root_of table.now) options.now bytes.now) }
    ensures which { IfErr result (IsNotRead (root_of table.now).schema bytes.now) }
{
    let mut gathered = begin_gathering(alloc, table, options)?;
    gather_file(alloc, &mut gathered, bytes)?;
    Ok(gathered)
}

/// Gathers the rows of the bytes of a file, behind those that are gathered. No row is made.
///
/// Refused as [`FileReader::new`] refuses the bytes; and Schema where the file's is not that of the rows, field for field. After
/// such a refusal the same rows are gathered. Out of memory, some of the file's may be too.
pub fn gather_file(alloc: Global, gathered: &mut Gathered<'_>, bytes: &[u8]) -> R<()>
    ensures read { OnOk result ((before : List ValueTrees) → holds gathered.old before → GathersFile (schema_of gathered.old) bytes.now before gathered.new) }
    ensures table { KeepsTable gathered.old gathered.new }
    ensures same { OnFault result (gathered.new ≡ gathered.old) }
    ensures which { IfErr result (IsNotRead (schema_of gathered.old) bytes.now) }
{
    let file = FileReader::new(alloc, bytes)?;
    if !same_schema(file.schema(), gathered.schema()) {
        return Err(Refusal::Schema);
    }
    gather_accepted(alloc, gathered, &file)?;
    Ok(())
}

/// Gathers the rows of a file that was accepted. They fit. No row is made. It fails only when out of memory.
fn gather_accepted(alloc: Global, gathered: &mut Gathered<'_>, file: &FileReader<'_>) -> R<()>
    ensures held { OnOk result ((before rows : List ValueTrees) → holds gathered.old before → rows_of_file file.now rows → RowsFit (schema_of gathered.old) rows
        → holds gathered.new (before ++ rows)) }
    ensures table { KeepsTable gathered.old gathered.new }
    ensures only { (rows : List ValueTrees) → rows_of_file file.now rows → RefusedMemoryOnly result }
{
    let mut rows = file.rows(alloc);
    'rows: for _ in 0..u64::MAX {
        if !gather_next(&mut rows, gathered)? {
            return Ok(());
        }
    }
    // Never reached: no file has as many rows.
    Err(Refusal::Memory)
}

/// Gathers the next row of a file too. False after the last one, and then the same rows are gathered.
#[inline]
fn gather_next(rows: &mut Rows<'_>, gathered: &mut Gathered<'_>) -> R<bool>
    ensures takes { GathersNext (rows_stand rows.old) (rows_stand rows.new) gathered.old gathered.new result }
    ensures same { result ≡ Ok false → gathered.new ≡ gathered.old }
    ensures table { KeepsTable gathered.old gathered.new }
{
    gathered.begin_row();
    if !rows.next_to(gathered)? {
        return Ok(false);
    }
    gathered.end_row()?;
    Ok(true)
}
