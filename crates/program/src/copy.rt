//! Files to files.

ghost use Rattle.std.specs.Prelude.{◌≡◌, ℕ, List, Some, false, IfOk, IfErr, option_map};
ghost use Rattle.bits.specs.Refusals.{OnFault};
ghost use Rattle.schema.specs.Values.{ValueTrees};
ghost use Rattle.schema.specs.Shape.{Fields};
ghost use Rattle.schema.specs.Views.{row_view};
ghost use Rattle.columns.specs.Columns.{names_view};
ghost use Rattle.footer.specs.Left.{rows_of_file};
ghost use Rattle.program.specs.Program.{IsCopyOf, IsCopyRefusal, MeansUpTo, HasFaultUpTo};
ghost use Rattle.program.specs.inner.Copied.{IsFirstOfRows, IsAskedFile, cut_at};

use bits::{R, Refusal};
use columns::{cut_row, has_columns, wanted_places, wanted_schema};
use footer::{FileReader, FileWriter, WriteOptions};
use reports::Progress;
use schema::{Row, Schema};
use std::alloc::Global;
use std::io::Write;

/// The bytes of a file that means the rows of another one, or its first `limit` rows, in the columns of these names, or in
/// all, laid out as the options say. Where there is a limit, no groups are read but those that have these rows.
///
/// Refused as [`FileReader::new`] or [`FileReader::of_first_rows`] refuses the other file, NoColumn where a name is of no column of it, or Limit for options out of
/// range or rows that are too much for a file. Time is linear in what is decoded. Memory is that of both files and of the rows of
/// one group. Where `shows` says so, `err` shows how many rows were copied so far.
pub fn copy_of<E: Write>(
    alloc: Global,
    bytes: &[u8],
    columns: Option<&[String]>,
    limit: Option<u64>,
    options: &WriteOptions,
    err: &mut E,
    shows: bool,
) -> R<Vec<u8>>
    ensures stands { IfOk result (λ copy. IsCopyOf options.now (names_view columns.entry) limit bytes.now copy.items) }
    ensures which { IfErr result (IsCopyRefusal limit bytes.now) }
    ensures quiet { shows ≡ false → E.contents err.new ≡ E.contents err.old }
{
    let file = accepted(alloc, bytes, limit)?;
    let mut progress = Progress::new(alloc, "copied", None, shows);
    let copy = asked(alloc, &file, columns, limit, options, err, &mut progress);
    progress.clear(err);
    copy
}

/// Accepts a file, or where there is a limit, its first groups that have `limit` rows.
fn accepted(alloc: Global, bytes: &[u8], limit: Option<u64>) -> R<FileReader<'_>>
    ensures stands { IfOk result (λ file. (rows : List ValueTrees) × MeansUpTo limit bytes.now file.schema rows × rows_of_file file rows) }
    ensures only { OnFault result ((fs : Fields) (rows : List ValueTrees) → MeansUpTo limit bytes.now fs rows → ⊥) }
    ensures which { IfErr result (HasFaultUpTo limit bytes.now) }
{
    match limit {
        None => FileReader::new(alloc, bytes),
        Some(count) => FileReader::of_first_rows(alloc, bytes, count),
    }
}

/// The bytes of a file of the rows of another one, which was accepted, in the columns of these names, or in all. Refused NoColumn
/// where a name is of no column.
fn asked<E: Write>(
    alloc: Global,
    file: &FileReader<'_>,
    columns: Option<&[String]>,
    limit: Option<u64>,
    options: &WriteOptions,
    err: &mut E,
    progress: &mut Progress,
) -> R<Vec<u8>>
    ensures stands { (all : List ValueTrees) → rows_of_file file.now all
        → IfOk result (λ copy. IsAskedFile options.now (names_view columns.entry) limit file.now.schema all copy.items) }
    ensures quiet { progress.old.is_shown ≡ false → E.contents err.new ≡ E.contents err.old }
    ensures same { progress.new.is_shown ≡ progress.old.is_shown }
{
    match columns {
        None => written(
            alloc,
            file,
            file.schema(),
            None,
            limit,
            options,
            err,
            progress,
        ),
        Some(names) => {
            if !has_columns(file.schema(), names) {
                return Err(Refusal::NoColumn);
            }
            let places = wanted_places(alloc, file.schema(), columns)?;
            let schema = wanted_schema(alloc, file.schema(), columns)?;
            let places = Some(places.as_slice());
            written(alloc, file, &schema, places, limit, options, err, progress)
        }
    }
}

/// The bytes of a file of this schema of the rows of another one, which was accepted, or of the first `limit` of them, each cut to
/// these places, where they are given. Each row is counted.
fn written<E: Write>(
    alloc: Global,
    file: &FileReader<'_>,
    schema: &Schema,
    places: Option<&[usize]>,
    limit: Option<u64>,
    options: &WriteOptions,
    err: &mut E,
    progress: &mut Progress,
) -> R<Vec<u8>>
    ensures stands { (all : List ValueTrees) → rows_of_file file.now all
        → IfOk result (λ copy. IsFirstOfRows options.now schema.now (option_map (λ ps. ps.now) places.entry) limit all copy.items) }
    ensures quiet { progress.old.is_shown ≡ false → E.contents err.new ≡ E.contents err.old }
    ensures same { progress.new.is_shown ≡ progress.old.is_shown }
{
    let mut rows = file.rows(alloc);
    let mut writer = FileWriter::new(alloc, schema, options)?;
    for count in 0..most_of(limit) {
        // For the proof: how many were taken has a name.
        let _ = count;
        match rows.next()? {
            Some(row) => {
                writer.push(cut_to(alloc, places, row)?)?;
                progress.count_row(err);
            }
            None => return writer.finish(),
        }
    }
    match limit {
        Some(_) => writer.finish(),
        // Never reached: no file has as many rows.
        None => Err(Refusal::Memory),
    }
}

/// How many rows are taken at most.
fn most_of(limit: Option<u64>) -> u64
    ensures { (k : ℕ) → limit ≡ Some k → result ≡ k }
{
    match limit {
        Some(limit) => limit,
        None => u64::MAX,
    }
}

/// A row, cut to these places, where they are given. It fails only when out of memory.
fn cut_to(alloc: Global, places: Option<&[usize]>, row: Row) -> R<Row>
    ensures cut { IfOk result (λ cut_off. row_view cut_off ≡ cut_at (option_map (λ ps. ps.now) places.entry) (row_view row)) }
{
    match places {
        Some(places) => cut_row(alloc, places, &row),
        None => Ok(row),
    }
}
