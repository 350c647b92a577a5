//! What is to be done with a store, done.

ghost use Rattle.std.specs.Prelude.{◌≡◌, false, slice_index_or, []};
ghost use Rattle.answers.specs.Importing.{files_view};
ghost use Rattle.answers.specs.Unless.{AsksImport};
ghost use Rattle.answers.specs.Making.{lent_text};
ghost use Rattle.commands.specs.Tasks.{lent_texts, columns_named, PrintsQuery, PrintsAnswer, RunsBytes};
ghost use Rattle.commands.specs.Tasks.{AddsColumn, ImportsSeveral, ImportsAsked, MakesAsked, MakesChange, MakesInStyle};

use crate::texts::{columns_named, owned};
use crate::writers::writer_refusal;
use answers::{
    add_column, import_files, import_files_unless, import_unless, keep_style, print_count,
    print_first_rows, print_groups, print_groups_and_columns, print_rows, print_schema,
    remove_rows, rewrite_all, rewrite_groups, rewrite_small, run_script, text_of,
};
use bits::R;
use call_reasons::{change_reason, question_reason, script_reason};
use dataset_words::{Change, Question};
use disk::Disk;
use places::Reason;
use std::alloc::Global;
use std::io::Write;
use store::Store;

/// A reason that was found; none where there was no memory to find it.
pub fn found(reason: R<Option<Reason>>) -> Option<Reason> {
    reason.unwrap_or(None)
}

/// Prints what is asked of a store. With `texts`, dates, times, timestamps and decimals are texts, and are also read as such in a
/// filter. Where `shows` says so, `err` shows how many rows of a query were printed so far. Where it is refused, `why` may get
/// the reason.
pub fn ask<D: Disk, W: Write, E: Write>(
    alloc: Global,
    store: &mut Store<D>,
    question: &Question<'_>,
    texts: bool,
    out: &mut W,
    err: &mut E,
    shows: bool,
    why: &mut Option<Reason>,
) -> R<()>
    ensures prints { PrintsAnswer D.state texts store.old store.new question.now (W.contents out.old) (W.contents out.new) result }
    ensures quiet { shows ≡ false → E.contents err.new ≡ E.contents err.old }
{
    let answered = answer(alloc, store, question, texts, out, err, shows);
    if let Err(refusal) = &answered {
        *why = found(question_reason(alloc, store.schema(), question, texts, refusal));
    }
    answered
}

/// Prints what is asked of a store, with texts or without.
fn answer<D: Disk, W: Write, E: Write>(
    alloc: Global,
    store: &mut Store<D>,
    question: &Question<'_>,
    texts: bool,
    out: &mut W,
    err: &mut E,
    shows: bool,
) -> R<()>
    ensures prints { PrintsAnswer D.state texts store.old store.new question.now (W.contents out.old) (W.contents out.new) result }
    ensures quiet { shows ≡ false → E.contents err.new ≡ E.contents err.old }
{
    match question {
        Question::Query {
            filter,
            columns,
            limit,
        } => {
            let names = columns.as_slice();
            print_query(alloc, store, *filter, names, *limit, texts, out, err, shows)
        }
        Question::Count { filter } => print_count(alloc, store, *filter, texts, out),
        Question::Groups { stats: true } => print_groups_and_columns(alloc, store, texts, out),
        Question::Groups { .. } => print_groups(alloc, store, out),
        Question::Schema => print_schema(alloc, store, out),
    }
}

/// Prints the rows of a query, all or the first of them, in the columns of these names, or in all where none is named.
fn print_query<D: Disk, W: Write, E: Write>(
    alloc: Global,
    store: &mut Store<D>,
    filter: Option<&str>,
    columns: &[&str],
    limit: Option<u64>,
    texts: bool,
    out: &mut W,
    err: &mut E,
    shows: bool,
) -> R<()>
    ensures prints { PrintsQuery D.state texts store.old store.new (lent_text filter.entry) (columns_named (lent_texts columns.now)) limit
        (W.contents out.old) (W.contents out.new) result }
    ensures quiet { shows ≡ false → E.contents err.new ≡ E.contents err.old }
{
    let names = owned(alloc, columns)?;
    let wanted = columns_named(names.as_slice());
    match limit {
        Some(limit) => print_first_rows(alloc, store, filter, wanted, limit, texts, out),
        None => print_rows(alloc, store, filter, wanted, texts, out, err, shows),
    }
}

/// Changes a store, with the bytes of the files that the change names. Of an append it does nothing: its rows come in by
/// [`append_rows`](answers::append_rows). With `texts`, dates, times, timestamps and decimals are also read from their texts in filters. Where it is
/// refused, `why` may get the reason, and `refused` the place of the file that is refused among several.
pub fn make_change<D: Disk>(
    alloc: Global,
    store: &mut Store<D>,
    change: &Change<'_>,
    files: &[Vec<u8>],
    texts: bool,
    why: &mut Option<Reason>,
    refused: &mut Option<usize>,
) -> R<u64>
    ensures makes { MakesChange D.state texts store.old store.new change.now (files_view files.now) result }
{
    let changed = change_store(alloc, store, change, files, texts, refused);
    if let Err(refusal) = &changed {
        let bytes = bytes_at(files, refused.unwrap_or(0));
        *why = found(change_reason(
            alloc,
            store.manifest(),
            store.options(),
            change,
            bytes,
            texts,
            refusal,
        ));
    }
    changed
}

/// Makes a change as [`make_change`] does; where `keeps` says so, in the style of the first group that the change writes anew.
pub fn change_in_style<D: Disk>(
    alloc: Global,
    store: &mut Store<D>,
    change: &Change<'_>,
    keeps: bool,
    files: &[Vec<u8>],
    texts: bool,
    why: &mut Option<Reason>,
    refused: &mut Option<usize>,
) -> R<u64>
    ensures makes { MakesInStyle D.state keeps texts store.old store.new change.now (files_view files.now) result }
{
    keep_style(alloc, store, change, keeps, texts)?;
    make_change(alloc, store, change, files, texts, why, refused)
}

/// The bytes of the file at a place; none where there is no such file.
pub fn bytes_at(files: &[Vec<u8>], place: usize) -> &[u8]
    ensures { result.now ≡ slice_index_or (files_view files.now) place [] }
{
    match files.get(place) {
        Some(bytes) => bytes.as_slice(),
        None => &[],
    }
}

/// Changes a store, with the bytes of the files that the change names. `refused` gets the place of the one that is refused among
/// several.
fn change_store<D: Disk>(
    alloc: Global,
    store: &mut Store<D>,
    change: &Change<'_>,
    files: &[Vec<u8>],
    texts: bool,
    refused: &mut Option<usize>,
) -> R<u64>
    ensures makes { MakesChange D.state texts store.old store.new change.now (files_view files.now) result }
{
    match change {
        // Its rows come in by themselves, once they are gathered.
        Change::Append { .. } => Ok(0),
        Change::Import { unless, .. } => import(alloc, store, *unless, files, texts, refused),
        Change::AddColumn { .. } => add_column_of(alloc, store, bytes_at(files, 0)),
        Change::Remove { filter } => remove_rows(alloc, store, filter, texts),
        Change::RemoveGroups { numbers } => store.remove_groups(alloc, numbers.as_slice()),
        Change::Rewrite { numbers } => rewrite_groups(alloc, store, numbers.as_slice()),
        Change::RewriteSmall { min_rows } => rewrite_small(alloc, store, *min_rows),
        Change::RewriteAll => rewrite_all(alloc, store),
    }
}

/// Puts the column of bytes at the end of the schema. Refused Script for bytes that are no text.
fn add_column_of<D: Disk>(alloc: Global, store: &mut Store<D>, bytes: &[u8]) -> R<u64>
    ensures adds { AddsColumn D.state store.old store.new bytes.now result }
{
    let text = text_of(bytes)?;
    add_column(alloc, store, text)
}

/// ImportsAsked files; where there is a filter, unless some row satisfies it. `refused` gets the place of the one that is refused among
/// several.
fn import<D: Disk>(
    alloc: Global,
    store: &mut Store<D>,
    unless: Option<&str>,
    files: &[Vec<u8>],
    texts: bool,
    refused: &mut Option<usize>,
) -> R<u64>
    ensures imports { ImportsAsked D.state texts store.old store.new (lent_text unless.entry) (files_view files.now) result }
{
    if files.len() > 1 {
        import_several(alloc, store, unless, files, texts, refused)
    } else {
        import_one(alloc, store, unless, bytes_at(files, 0), texts)
    }
}

/// ImportsAsked several files in one commit; where there is a filter, unless some row satisfies it. `refused` gets the place of the one
/// that is refused.
fn import_several<D: Disk>(
    alloc: Global,
    store: &mut Store<D>,
    unless: Option<&str>,
    files: &[Vec<u8>],
    texts: bool,
    refused: &mut Option<usize>,
) -> R<u64>
    ensures imports { ImportsSeveral D.state texts store.old store.new (lent_text unless.entry) (files_view files.now) result }
{
    match unless {
        Some(filter) => import_files_unless(alloc, store, filter, files, texts, refused),
        None => import_files(alloc, store, files, refused),
    }
}

/// ImportsAsked one file; where there is a filter, unless some row satisfies it.
fn import_one<D: Disk>(
    alloc: Global,
    store: &mut Store<D>,
    unless: Option<&str>,
    bytes: &[u8],
    texts: bool,
) -> R<u64>
    ensures imports { MakesAsked D.state texts store.old store.new (lent_text unless.entry) (AsksImport bytes.now) (λ fs e. ⊥) result }
{
    match unless {
        Some(filter) => import_unless(alloc, store, filter, bytes, texts),
        None => store.import(alloc, bytes),
    }
}

/// Makes the calls of a script on a store, with texts or without. Where it is refused, `why` may get the reason.
pub fn run<D: Disk, W: Write>(
    alloc: Global,
    store: &mut Store<D>,
    bytes: &[u8],
    texts: bool,
    out: &mut W,
    why: &mut Option<Reason>,
) -> R<()>
    ensures runs { RunsBytes D.state texts store.old store.new bytes.now (W.contents out.old) (W.contents out.new) result }
{
    let mut has_run = false;
    let ran = run_all(alloc, store, bytes, texts, out, &mut has_run);
    if let Err(refusal) = &ran {
        *why = if has_run {
            Some(Reason::Unprinted)
        } else {
            script_reason(alloc, store.schema(), bytes, texts, refusal)
        };
    }
    ran
}

/// Makes the calls of a script, and passes all that was printed on. `has_run` becomes true where the calls are made.
fn run_all<D: Disk, W: Write>(
    alloc: Global,
    store: &mut Store<D>,
    bytes: &[u8],
    texts: bool,
    out: &mut W,
    has_run: &mut bool,
) -> R<()>
    ensures runs { RunsBytes D.state texts store.old store.new bytes.now (W.contents out.old) (W.contents out.new) result }
{
    let text = text_of(bytes)?;
    run_script(alloc, store, text, texts, out, has_run)?;
    out.flush().map_err(writer_refusal)
}
