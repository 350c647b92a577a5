//! Files.

ghost use Rattle.std.specs.Prelude.{◌≡◌, ◌⊎◌, Err, IfOk, OnOk};
ghost use Rattle.bits.specs.Refusals.{OnFault, RefusedOnly};
ghost use Rattle.schema.specs.Fits.{RowsFit};
ghost use Rattle.schema.specs.Views.{rows_view};
ghost use Rattle.row_group.specs.Writing.{IsOfRows};
ghost use Rattle.footer.specs.Faults.{IsOverLimit};
ghost use Rattle.footer.specs.File.{FileMeans};
ghost use Rattle.footer.specs.Own.{IsLaidOut};
ghost use Rattle.footer.specs.Writing.{IsOutOfRange, IsTooMuch, IsTaken};

use bits::{R, Refusal};
use footer::{WriteOptions, write_file};
use schema::{Row, Schema};
use std::alloc::Global;

/// [`write_file`].
pub fn file_of_rows(
    alloc: Global,
    schema: &Schema,
    options: &WriteOptions,
    rows: &[Row],
) -> R<Vec<u8>>
    ensures means { IfOk result (λ file. FileMeans file.items schema.now (rows_view rows.now)) }
    ensures laid_out { IfOk result (λ file. IsLaidOut options.now schema.now (rows_view rows.now) file.items) }
    ensures readable { IfOk result (λ file. IsTaken options.now.group_rows schema.now (rows_view rows.now) file.items) }
    ensures within_limits { IfOk result (λ file. IsOverLimit file.items → ⊥) }
    ensures options { OnOk result (IsOutOfRange options.now → ⊥) }
    ensures only { OnFault result (RowsFit schema.now (rows_view rows.now) → ⊥) }
    ensures limit { result ≡ Err Refusal.Limit → IsOutOfRange options.now ⊎ IsTooMuch schema.now options.now (rows_view rows.now) }
    ensures which { RefusedOnly IsOfRows result }
{
    let file = write_file(alloc, schema, options, rows)?;
    Ok(file)
}
