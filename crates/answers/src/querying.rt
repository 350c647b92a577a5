//! Commands that read a dataset.

ghost use Rattle.std.specs.Prelude.{◌≡◌, ◌∷◌, [], ◌++◌, ℕ, Bool, List, false, codes, decimal, IfOk, IfErr, OnOk, option_map};
ghost use Rattle.std.specs.Io.KnownBytes.{Appends};
ghost use Rattle.serde_json.specs.Data.{Items, array};
ghost use Rattle.serde_json.specs.Written.{compact_text};
ghost use Rattle.schema.specs.Shape.{Fields};
ghost use Rattle.schema.specs.Stripe.{leaves_of};
ghost use Rattle.filter.specs.Terms.{terms_view};
ghost use Rattle.table.specs.Plans.{row_count};
ghost use Rattle.table.specs.State.{State};
ghost use Rattle.table.specs.Views.{names_view};
ghost use Rattle.jsonrows.specs.SchemaPrinted.{PrintsFields};
ghost use Rattle.table_state.specs.Stands.{Stands};
ghost use Rattle.answers.specs.Lines.{AreGroupLines};
ghost use Rattle.answers.specs.Making.{IsAskedFilter, IsRefusedFilterOf};
ghost use Rattle.answers.specs.Querying.{Reads, query_lines, ListsGroups, IsSchemaOfFile};
ghost use Rattle.answers.specs.QueryFile.{wanted_fields};
ghost use Rattle.answers.specs.inner.Batches.{PrintsSelected};
ghost use Rattle.answers.specs.inner.Fetched.{PrintsLeft};
ghost use Rattle.answers.specs.inner.Gathering.{BeginsLines};

use crate::printing::{print_columns, print_group, print_number, print_shown};
use crate::row_limit::{fewer, is_used_up};
use bits::{R, Refusal};
use columns::{columns_at, wanted_places};
use disk::Disk;
use filter::Term;
use footer::read_footer;
use jsonrows::{RowPlan, RowText, filter_from_as};
use reports::Progress;
use schema::Schema;
use std::alloc::Global;
use std::io::Write;
use store::Store;
use table::{CursorId, GroupInfo, queries_give_all};

/// The filter of a text; without one the filter that every row satisfies. With `texts`, dates, times, timestamps and decimals are
/// also read from their texts. Refused as `filter_from_as` refuses the text.
pub fn filter_of<D: Disk>(
    alloc: Global,
    store: &Store<D>,
    text: Option<&str>,
    texts: bool,
) -> R<Vec<Vec<Term>>>
    ensures stands { (s : State) → Stands D.state store.now s
        → IfOk result (λ terms. IsAskedFilter texts (leaves_of s.table.schema) (option_map (λ t. t.now) text.entry) (terms_view terms.items)) }
    ensures which { (s : State) → Stands D.state store.now s
        → IfErr result (IsRefusedFilterOf texts (leaves_of s.table.schema) (option_map (λ t. t.now) text.entry)) }
{
    match text {
        Some(text) => filter_from_as(alloc, store.schema(), text, texts),
        None => Ok(Vec::new(alloc)),
    }
}

/// Prints the rows that satisfy a filter, a line each, in table order: objects of the columns of these names, or of all. With
/// `texts`, dates, times, timestamps and decimals are texts, and are also read as such in the filter.
///
/// Refused as `filter_from_as` refuses the text; as `Store::query` and `Store::fetch`; and Device where the output cannot be
/// written. Where a later group is refused, the rows of those before it are printed. Room is that of one group. Where
/// `shows` says so, `err` shows how many rows were printed so far.
pub fn print_rows<D: Disk, W: Write, E: Write>(
    alloc: Global,
    store: &mut Store<D>,
    filter: Option<&str>,
    columns: Option<&[String]>,
    texts: bool,
    out: &mut W,
    err: &mut E,
    shows: bool,
) -> R<()>
    ensures prints { Reads D.state texts store.old store.new (option_map (λ t. t.now) filter.entry)
        (λ terms table. Appends (W.contents out.old) (W.contents out.new) (query_lines texts terms (names_view columns.entry) table))
        (W.contents out.new ≡ W.contents out.old) result }
    ensures quiet { shows ≡ false → E.contents err.new ≡ E.contents err.old }
{
    let terms = filter_of(alloc, store, filter, texts)?;
    let mut progress = printing_of(alloc, store, terms.as_slice(), shows);
    let printed = print_selected(
        alloc,
        store,
        terms.as_slice(),
        columns,
        None,
        texts,
        out,
        err,
        &mut progress,
    );
    progress.clear(err);
    printed
}

/// The progress of printing the rows that satisfy terms, of which none is printed yet. How many there are is known of
/// all rows alone.
fn printing_of<D: Disk>(
    alloc: Global,
    store: &mut Store<D>,
    terms: &[Vec<Term>],
    shows: bool,
) -> Progress
    ensures shown { result.is_shown ≡ shows }
    ensures same { store.new ≡ store.old }
{
    let all = if shows && terms.is_empty() {
        rows_in(alloc, store)
    } else {
        None
    };
    Progress::new(alloc, "printed", all, shows)
}

/// How many rows a table has. None where there is no memory to ask.
fn rows_in<D: Disk>(alloc: Global, store: &mut Store<D>) -> Option<u64>
    ensures same { store.new ≡ store.old }
{
    let Ok(groups) = store.groups(alloc) else {
        return None;
    };
    let mut rows: u64 = 0;
    for group in groups.iter() {
        rows = rows.saturating_add(group.rows);
    }
    Some(rows)
}

/// Prints the rows that satisfy terms, or the first `limit` of them, as a cursor gives them, which is closed then.
pub fn print_selected<D: Disk, W: Write, E: Write>(
    alloc: Global,
    store: &mut Store<D>,
    terms: &[Vec<Term>],
    columns: Option<&[String]>,
    limit: Option<u64>,
    texts: bool,
    out: &mut W,
    err: &mut E,
    progress: &mut Progress,
) -> R<()>
    ensures prints { (D.state store.old.vault.disk).honest → (s : State) → Stands D.state store.old s
        → PrintsSelected D.state texts store.old store.new (terms_view terms.now) (names_view columns.entry) limit
        (W.contents out.old) (W.contents out.new) result s }
    ensures quiet { progress.old.is_shown ≡ false → E.contents err.new ≡ E.contents err.old }
    ensures same { progress.new.is_shown ≡ progress.old.is_shown }
{
    queries_give_all();
    let cursor = store.query(alloc, terms, columns)?;
    let printed = print_columns_of(
        alloc, store, cursor, columns, limit, texts, out, err, progress,
    );
    let closed = store.close(alloc, cursor);
    printed?;
    closed
}

/// Prints the rows that a cursor still gives, or the first `limit` of them, in the columns of these names, or in all. How their
/// lines are made is planned once.
fn print_columns_of<D: Disk, W: Write, E: Write>(
    alloc: Global,
    store: &mut Store<D>,
    cursor: CursorId,
    columns: Option<&[String]>,
    limit: Option<u64>,
    texts: bool,
    out: &mut W,
    err: &mut E,
    progress: &mut Progress,
) -> R<()>
    ensures prints { (D.state store.old.vault.disk).honest → (s : State) → Stands D.state store.old s
        → PrintsLeft D.state texts (wanted_fields (names_view columns.entry) s.table.schema) store.old store.new cursor limit
        (W.contents out.old) (W.contents out.new) result s }
    ensures honest { (D.state store.old.vault.disk).honest → (D.state store.new.vault.disk).honest }
    ensures quiet { progress.old.is_shown ≡ false → E.contents err.new ≡ E.contents err.old }
    ensures same { progress.new.is_shown ≡ progress.old.is_shown }
{
    let places = wanted_places(alloc, store.schema(), columns)?;
    match columns_at(alloc, store.schema(), places.as_slice())? {
        Some(schema) => {
            let plan = RowPlan::with_texts(alloc, &schema, texts)?;
            let mut text = Some(RowText::new(alloc, &plan));
            print_batches(alloc, store, cursor, limit, &mut text, out, err, progress)
        }
        None => print_batches(alloc, store, cursor, limit, &mut None, out, err, progress),
    }
}

/// Prints the rows that a cursor still gives, or the first `limit` of them, and counts them. `text` makes their lines, and has
/// gathered none.
fn print_batches<D: Disk, W: Write, E: Write>(
    alloc: Global,
    store: &mut Store<D>,
    cursor: CursorId,
    limit: Option<u64>,
    text: &mut Option<RowText<'_>>,
    out: &mut W,
    err: &mut E,
    progress: &mut Progress,
) -> R<()>
    ensures prints { (texts : Bool) (fs : Fields) → BeginsLines texts fs text.old → (D.state store.old.vault.disk).honest → (s : State) → Stands D.state store.old s
        → PrintsLeft D.state texts fs store.old store.new cursor limit (W.contents out.old) (W.contents out.new) result s }
    ensures honest { (D.state store.old.vault.disk).honest → (D.state store.new.vault.disk).honest }
    ensures quiet { progress.old.is_shown ≡ false → E.contents err.new ≡ E.contents err.old }
    ensures same { progress.new.is_shown ≡ progress.old.is_shown }
{
    let mut left = limit;
    'batches: for _ in 0..u64::MAX {
        if is_used_up(left) {
            return Ok(());
        }
        match store.fetch_rows(alloc, cursor)? {
            Some(batch) => {
                let mut rows = batch.rows.rows(alloc)?;
                let count = print_shown(&mut rows, left, text, out)?;
                left = fewer(left, count);
                progress.count_rows(count, err);
            }
            None => return Ok(()),
        }
    }
    Err(Refusal::Limit)
}

/// Prints how many rows satisfy a filter; without one, how many there are. Of a filter only its columns are read. With `texts`,
/// dates, times, timestamps and decimals are also read from their texts in the filter.
///
/// Refused as `filter_from_as` refuses the text, as `Store::count`, and Device where the output cannot be written.
pub fn print_count<D: Disk, W: Write>(
    alloc: Global,
    store: &mut Store<D>,
    filter: Option<&str>,
    texts: bool,
    out: &mut W,
) -> R<()>
    ensures prints { Reads D.state texts store.old store.new (option_map (λ t. t.now) filter.entry)
        (λ terms table. Appends (W.contents out.old) (W.contents out.new) (decimal (row_count terms table) ++ codes "\n"))
        (W.contents out.new ≡ W.contents out.old) result }
{
    let terms = filter_of(alloc, store, filter, texts)?;
    let count = store.count(alloc, terms.as_slice())?;
    print_number(alloc, count, out)
}

/// Prints what each group is, a line of JSON each, in table order: the bytes of its chunks, its key, its number, its
/// rows. Refused Device where the output cannot be written.
pub fn print_groups<D: Disk, W: Write>(alloc: Global, store: &mut Store<D>, out: &mut W) -> R<()>
    ensures prints { ListsGroups D.state store.old (W.contents out.old) (W.contents out.new) result }
    ensures same { store.new ≡ store.old }
{
    let groups = store.groups(alloc)?;
    print_each_group(alloc, groups.as_slice(), out)
}

/// Prints what groups are, a line of JSON each.
fn print_each_group<W: Write>(alloc: Global, groups: &[GroupInfo], out: &mut W) -> R<()>
    ensures printed { OnOk result ((printed : List ℕ) × AreGroupLines groups.now printed × Appends (W.contents out.old) (W.contents out.new) printed) }
{
    for group in groups {
        print_group(alloc, group, out)?;
    }
    Ok(())
}

/// Prints the columns of a table, its key columns among them: a line of JSON, of which `create` makes such a table. Refused
/// Device where the output cannot be written.
pub fn print_schema<D: Disk, W: Write>(alloc: Global, store: &Store<D>, out: &mut W) -> R<()>
    ensures printed { (s : State) → Stands D.state store.now s
        → OnOk result ((ds : Items) × PrintsFields s.table.schema ds × Appends (W.contents out.old) (W.contents out.new) (compact_text (array ds) ++ 10 ∷ [])) }
{
    print_columns(alloc, store.schema(), out)
}

/// Prints the columns of a Parquet file: a line of JSON, as that of a table's columns. Refused as `read_footer` and
/// `Schema::new` refuse the file, and Device where the output cannot be written.
pub fn print_schema_of<W: Write>(alloc: Global, bytes: &[u8], out: &mut W) -> R<()>
    ensures printed { OnOk result ((fs : Fields) × IsSchemaOfFile bytes.now fs
        × ((ds : Items) × PrintsFields fs ds × Appends (W.contents out.old) (W.contents out.new) (compact_text (array ds) ++ 10 ∷ []))) }
{
    let record = read_footer(alloc, bytes)?;
    let schema = Schema::new(alloc, record.schema.as_slice())?;
    print_columns(alloc, &schema, out)
}
