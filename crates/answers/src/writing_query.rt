//! The rows of a query as Parquet files.

ghost use Rattle.std.specs.Prelude.{◌≡◌, List, take, false, OnOk, option_map};
ghost use Rattle.schema.specs.Fits.{RowsFit};
ghost use Rattle.schema.specs.Values.{ValueTrees};
ghost use Rattle.scan.specs.Left.{rows_stand};
ghost use Rattle.filter.specs.Terms.{terms_view};
ghost use Rattle.table.specs.State.{State};
ghost use Rattle.table.specs.Views.{names_view};
ghost use Rattle.table_state.specs.Stands.{Stands};
ghost use Rattle.answers.specs.Querying.{Reads};
ghost use Rattle.answers.specs.QueryFile.{GotQueryFiles};
ghost use Rattle.answers.specs.inner.Parts.{TakesRows, WritesAlike};
ghost use Rattle.answers.specs.inner.Fetched.{TakesLeft, WritesSelected, GivesFiles};

use crate::part_writer::PartWriter;
use crate::querying::filter_of;
use crate::row_limit::{fewer, is_used_up, taken_of};
use bits::{R, Refusal};
use columns::wanted_schema;
use dataset_words::FileSink;
use disk::Disk;
use filter::Term;
use footer::{MOST_BYTES_OF_FOOTER, WriteOptions};
use reports::Progress;
use scan::Rows;
use schema::Schema;
use std::alloc::Global;
use std::io::Write;
use store::Store;
use table::{CursorId, queries_give_all};

/// How many bytes the groups of one of several files take at most: with the footer the file has no more than 1 GiB. A file has
/// more only where a group is greater than each before it.
pub const PART_BYTES: usize = 1_073_741_824 - MOST_BYTES_OF_FOOTER;

/// Gives a sink Parquet files, one after another, of the rows that satisfy a filter, in table order, or of the first `limit` of
/// them, in the columns of these names, or in all; they are in the order of the schema. There is one file at least; where `most`
/// is none, exactly one. Else a further file begins where one more group would make the groups of a file take more than `most`
/// bytes. No group after the first `limit` rows is read. With `texts`, dates, times, timestamps and decimals are also read from
/// their texts in the filter.
///
/// Refused as `filter_from_as` refuses the text; as `Store::query` and `Store::fetch_rows`; as the sink refuses a file; Limit for
/// options out of range, and for rows that are too much for a file. Then the sink may have got the files before. Room is that of
/// one file and of two groups of rows, one that is read and one that is written. Where `shows` says so, `err` shows how many
/// rows were read so far.
pub fn query_files<D: Disk, S: FileSink, E: Write>(
    alloc: Global,
    store: &mut Store<D>,
    filter: Option<&str>,
    columns: Option<&[String]>,
    limit: Option<u64>,
    texts: bool,
    options: &WriteOptions,
    most: Option<usize>,
    sink: &mut S,
    err: &mut E,
    shows: bool,
) -> R<()>
    ensures gives { Reads D.state texts store.old store.new (option_map (λ t. t.now) filter.entry)
        (λ terms table. GotQueryFiles options.now terms (names_view columns.entry) limit most table (S.taken sink.old) (S.taken sink.new))
        (S.taken sink.new ≡ S.taken sink.old) result }
    ensures quiet { shows ≡ false → E.contents err.new ≡ E.contents err.old }
{
    let terms = filter_of(alloc, store, filter, texts)?;
    let schema = wanted_schema(alloc, store.schema(), columns)?;
    let mut progress = Progress::new(alloc, "read", None, shows);
    let given = give_files(
        alloc,
        store,
        terms.as_slice(),
        columns,
        limit,
        &schema,
        options,
        most,
        sink,
        err,
        &mut progress,
    );
    progress.clear(err);
    given
}

/// Gives a sink files of this schema of the rows that satisfy terms, or of the first of them.
fn give_files<D: Disk, S: FileSink, E: Write>(
    alloc: Global,
    store: &mut Store<D>,
    terms: &[Vec<Term>],
    columns: Option<&[String]>,
    limit: Option<u64>,
    schema: &Schema,
    options: &WriteOptions,
    most: Option<usize>,
    sink: &mut S,
    err: &mut E,
    progress: &mut Progress,
) -> R<()>
    ensures gives { (D.state store.old.vault.disk).honest → (s : State) → Stands D.state store.old s
        → GivesFiles D.state store.old store.new options.now schema.now (terms_view terms.now) (names_view columns.entry) limit most
        (S.taken sink.old) (S.taken sink.new) result s }
    ensures quiet { progress.old.is_shown ≡ false → E.contents err.new ≡ E.contents err.old }
    ensures same { progress.new.is_shown ≡ progress.old.is_shown }
{
    let mut writer = PartWriter::new(alloc, schema, options, most)?;
    write_selected(
        alloc,
        store,
        terms,
        columns,
        limit,
        &mut writer,
        sink,
        err,
        progress,
    )?;
    let last = writer.finish()?;
    sink.take(last)
}

/// Gives a writer the rows that satisfy terms, or the first of them, as a cursor gives them, which is closed then.
fn write_selected<D: Disk, S: FileSink, E: Write>(
    alloc: Global,
    store: &mut Store<D>,
    terms: &[Vec<Term>],
    columns: Option<&[String]>,
    limit: Option<u64>,
    writer: &mut PartWriter<'_>,
    sink: &mut S,
    err: &mut E,
    progress: &mut Progress,
) -> R<()>
    ensures writes { (D.state store.old.vault.disk).honest → (s : State) → Stands D.state store.old s
        → WritesSelected D.state store.old store.new (terms_view terms.now) (names_view columns.entry) limit writer.old writer.new
        (S.taken sink.old) (S.taken sink.new) result s }
    ensures alike { WritesAlike writer.old writer.new }
    ensures quiet { progress.old.is_shown ≡ false → E.contents err.new ≡ E.contents err.old }
    ensures same { progress.new.is_shown ≡ progress.old.is_shown }
{
    queries_give_all();
    let cursor = store.query(alloc, terms, columns)?;
    let given = write_batches(alloc, store, cursor, limit, writer, sink, err, progress);
    let closed = store.close(alloc, cursor);
    given?;
    closed
}

/// Gives a writer the rows that a cursor still gives, or the first of them, and counts them.
fn write_batches<D: Disk, S: FileSink, E: Write>(
    alloc: Global,
    store: &mut Store<D>,
    cursor: CursorId,
    limit: Option<u64>,
    writer: &mut PartWriter<'_>,
    sink: &mut S,
    err: &mut E,
    progress: &mut Progress,
) -> R<()>
    ensures writes { (D.state store.old.vault.disk).honest → (s : State) → Stands D.state store.old s
        → TakesLeft D.state store.old store.new cursor limit writer.old writer.new (S.taken sink.old) (S.taken sink.new) result s }
    ensures honest { (D.state store.old.vault.disk).honest → (D.state store.new.vault.disk).honest }
    ensures alike { WritesAlike writer.old writer.new }
    ensures quiet { progress.old.is_shown ≡ false → E.contents err.new ≡ E.contents err.old }
    ensures same { progress.new.is_shown ≡ progress.old.is_shown }
{
    let mut left = limit;
    'batches: for _ in 0..u64::MAX {
        if is_used_up(left) {
            return Ok(());
        }
        match store.fetch_rows(alloc, cursor)? {
            Some(batch) => {
                let count = taken_of(left, batch.rows.selected_count());
                let mut rows = batch.rows.rows(alloc)?;
                write_rows(&mut rows, count, writer, sink)?;
                left = fewer(left, count);
                progress.count_rows(count, err);
            }
            None => return Ok(()),
        }
    }
    Err(Refusal::Limit)
}

/// Gives a writer this many rows of a reader, which has as many. Refused as `PartWriter::push_next`.
// How many there are is known before a row is asked for: asked for one more, the writer could end a file that no row comes after.
fn write_rows<S: FileSink>(
    rows: &mut Rows<'_>,
    most: u64,
    writer: &mut PartWriter<'_>,
    sink: &mut S,
) -> R<()>
    ensures takes { (all : List ValueTrees) → rows_stand rows.old all → RowsFit writer.old.schema.now all
        → OnOk result (TakesRows writer.old writer.new (S.taken sink.old) (S.taken sink.new) (take most all)) }
    ensures alike { WritesAlike writer.old writer.new }
{
    for count in 0..most {
        // For the proof: how many were taken has a name.
        let _ = count;
        if !writer.push_next(rows, sink)? {
            // Never reached: as many rows are there.
            return Err(Refusal::Memory);
        }
    }
    Ok(())
}
