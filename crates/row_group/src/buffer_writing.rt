//! From rows that are kept as columns to a group.

ghost use Rattle.std.specs.Prelude.{◌≡◌, ◌≢◌, ◌<ℤ◌, pos, true, List, [], ◌++◌, length, map, get_or, IfOk, OnOk, OnErr, Err};
ghost use Rattle.std.specs.List.{AllByRecursion};
ghost use Rattle.bits.specs.Refusals.{IsFault, OnFault, HasCause, RefusedOnly};
ghost use Rattle.schema.specs.Values.{ValueTrees};
ghost use Rattle.schema.specs.Law.{IsEntryOf};
ghost use Rattle.schema.specs.Stripe.{columns, leaves_of};
ghost use Rattle.schema.specs.Views.{leaf_view};
ghost use Rattle.metadata.specs.Views.{column_meta_view, chunk_meta_view, group_meta_view};
ghost use Rattle.shred.specs.Buffer.{schema_of, holds};
ghost use Rattle.pages.specs.Writing.{AreShort};
ghost use Rattle.row_group.specs.Greatest.{most_entries};
ghost use Rattle.row_group.specs.Writing.{AppendsChunk, AppendsGroup, AreTaken, IsChunkTooMuch, IsGroupTooMuch, IsOfRows};
ghost use Rattle.row_group.specs.inner.Copied.{IsCopied};
ghost use Rattle.row_group.specs.inner.Columns.{AppendsChunks, AppendsColumn, AreTooMuch, Extends};

use crate::chunk_styles::is_plain;
use crate::chunk_writing::{write_chunk, write_plain_chunk};
use crate::limits::MOST_ROWS_OF_GROUP;
use crate::options::{ChunkOptions, Style};
use bits::{R, Refusal};
use metadata::{ChunkMeta, ColumnMeta, GroupMeta};
use schema::{EntryRef, Kind, Leaf, entries_are_of_leaves, rows_begin_once};
use shred::RowBuffer;
use std::alloc::Global;

/// Writes the rows of a buffer at the end of a file's bytes, as one group, laid out as by
/// [`write_group`](crate::write_group); and returns its record.
///
/// It is refused as `write_group` is; after a refusal `out` is as it was.
///
/// A column without levels that waits in PLAIN, and is written in PLAIN without a dictionary, is written from the bytes
/// that it waits in. Of the other columns the entries of one stand in memory at a time, beside the buffer and `out`.
/// The time is linear in the entries and in the bytes of the values.
pub fn write_buffered_group(
    alloc: Global,
    options: ChunkOptions,
    rows: &RowBuffer<'_>,
    out: &mut Vec<u8>,
) -> R<GroupMeta>
    ensures stands { IfOk result (λ g. (all : List ValueTrees) → holds rows.now all
        → AppendsGroup (schema_of rows.now) options out.old.items out.new.items (group_meta_view g) all) }
    ensures readable { OnOk result ((all : List ValueTrees) → holds rows.now all → AreTaken (schema_of rows.now) all) }
    ensures only { OnFault result ((all : List ValueTrees) → holds rows.now all → ⊥) }
    ensures limit { result ≡ Err Refusal.Limit → (all : List ValueTrees) → holds rows.now all
        → IsGroupTooMuch (schema_of rows.now) options (length out.old.items) all }
    ensures which { RefusedOnly IsOfRows result }
    ensures unchanged { OnErr result (out.new.items ≡ out.old.items) }
{
    rows_begin_once();
    let count = rows.len();
    if count > MOST_ROWS_OF_GROUP as usize {
        return Err(Refusal::Limit);
    }
    let kept = out.len();
    match write_columns(alloc, options, rows, out) {
        Ok(columns) => Ok(GroupMeta {
            columns,
            total_byte_size: Some((out.len() - kept) as i64),
            num_rows: count as i64,
        }),
        Err(refusal) => {
            out.truncate(kept);
            Err(refusal)
        }
    }
}

/// Writes the columns of the rows, each as a chunk. After a refusal some of the chunks may stand after what
/// was there.
fn write_columns(
    alloc: Global,
    options: ChunkOptions,
    rows: &RowBuffer<'_>,
    out: &mut Vec<u8>,
) -> R<Vec<ChunkMeta>>
    ensures stands { IfOk result (λ cs. (all : List ValueTrees) → holds rows.now all → AppendsChunks options
        (leaves_of (schema_of rows.now)) (columns (schema_of rows.now) all) out.old.items out.new.items (map chunk_meta_view cs.items)) }
    ensures only { OnFault result ((all : List ValueTrees) → holds rows.now all → ⊥) }
    ensures limit { result ≡ Err Refusal.Limit → (all : List ValueTrees) → holds rows.now all
        → AreTooMuch options (leaves_of (schema_of rows.now)) (length out.old.items) (columns (schema_of rows.now) all) }
    ensures which { RefusedOnly IsOfRows result }
    ensures extends { Extends out.old.items out.new.items }
{
    entries_are_of_leaves();
    let leaves = rows.schema().leaves();
    let mut chunks = Vec::with_capacity(alloc, leaves.len())?;
    let mut entries = Vec::new(alloc);
    for (i, leaf) in leaves.iter().enumerate() {
        let chunk = write_column(alloc, leaf, options, rows, i, &mut entries, out)?;
        chunks.push(chunk)?;
    }
    Ok(chunks)
}

/// Writes the column of the leaf at an index as a chunk. Its entries are put into `entries`, in place of what was
/// there, where it is written from these. After a refusal `out` is as it was.
fn write_column<'b>(
    alloc: Global,
    leaf: &Leaf,
    options: ChunkOptions,
    rows: &'b RowBuffer<'_>,
    index: usize,
    entries: &mut Vec<EntryRef<'b>>,
    out: &mut Vec<u8>,
) -> R<ChunkMeta>
    ensures stands { IfOk result (λ c. (all : List ValueTrees) → holds rows.now all → let es = get_or (columns (schema_of rows.now) all) index [] in
        AllByRecursion (IsEntryOf (leaf_view leaf.now)) es → AppendsColumn (leaf_view leaf.now) options es out.old.items out.new.items (chunk_meta_view c)) }
    ensures only { OnFault result ((all : List ValueTrees) → holds rows.now all
        → AllByRecursion (IsEntryOf (leaf_view leaf.now)) (get_or (columns (schema_of rows.now) all) index []) → ⊥) }
    ensures limit { result ≡ Err Refusal.Limit → (all : List ValueTrees) → holds rows.now all → let es = get_or (columns (schema_of rows.now) all) index [] in
        AllByRecursion (IsEntryOf (leaf_view leaf.now)) es → IsChunkTooMuch (leaf_view leaf.now) options (length out.old.items) es }
    ensures which { RefusedOnly IsOfRows result }
    ensures extends { Extends out.old.items out.new.items }
{
    match put_column(alloc, leaf, options, rows, index, entries, out) {
        Ok(meta_data) => Ok(ChunkMeta {
            file_path: None,
            file_offset: Some(0),
            meta_data,
        }),
        Err(refusal) => Err(of_rows(refusal)),
    }
}

/// Writes the column as a chunk, and returns the chunk's record: from the PLAIN bytes that it waits in, where these
/// are the bytes of its pages, else from its entries.
fn put_column<'b>(
    alloc: Global,
    leaf: &Leaf,
    options: ChunkOptions,
    rows: &'b RowBuffer<'_>,
    index: usize,
    entries: &mut Vec<EntryRef<'b>>,
    out: &mut Vec<u8>,
) -> R<ColumnMeta>
    ensures stands { (all : List ValueTrees) → holds rows.now all → let es = get_or (columns (schema_of rows.now) all) index [] in
        AllByRecursion (IsEntryOf (leaf_view leaf.now)) es
        → IfOk result (λ m. AppendsChunk (leaf_view leaf.now) options out.old.items out.new.items (column_meta_view m) es) }
    ensures within_limits { (all : List ValueTrees) → holds rows.now all
        → OnOk result (AreShort (get_or (columns (schema_of rows.now) all) index [])) }
    ensures entries_within_limits { (all : List ValueTrees) → holds rows.now all
        → OnOk result (most_entries <ℤ pos (length (get_or (columns (schema_of rows.now) all) index [])) → ⊥) }
    ensures only { OnFault result ((all : List ValueTrees) → holds rows.now all
        → AllByRecursion (IsEntryOf (leaf_view leaf.now)) (get_or (columns (schema_of rows.now) all) index []) → ⊥) }
    ensures limit { result ≡ Err Refusal.Limit → (all : List ValueTrees) → holds rows.now all → let es = get_or (columns (schema_of rows.now) all) index [] in
        AllByRecursion (IsEntryOf (leaf_view leaf.now)) es → IsChunkTooMuch (leaf_view leaf.now) options (length out.old.items) es }
    ensures extends { Extends out.old.items out.new.items }
{
    match rows.plain_values(index) {
        Some(values) if is_copied(leaf, options.style, values.kind()) => {
            write_plain_chunk(alloc, leaf, options, values, out)
        }
        _ => {
            rows.entries(index, entries)?;
            write_chunk(alloc, leaf, options, entries.as_slice(), out)
        }
    }
}

/// Whether values of this type that wait in PLAIN are the bytes of their pages.
fn is_copied(leaf: &Leaf, style: Style, kind: Kind) -> bool
    ensures { result ≡ true → kind ≢ Kind.Boolean → IsCopied (leaf_view leaf.now) style kind }
{
    leaf.greatest_repetition == 0
        && leaf.greatest_definition == 0
        && kind == leaf.leaf_type.kind
        && is_plain(style, kind)
}

/// Why rows are refused whose entries are. An entry that is none of its leaf's never comes of rows that fit.
fn of_rows(refusal: Refusal) -> Refusal
    ensures fault { IsFault result → IsFault refusal }
    ensures limit { result ≡ Refusal.Limit → refusal ≡ Refusal.Limit }
    ensures which { HasCause IsOfRows result }
{
    match refusal {
        Refusal::Limit => Refusal::Limit,
        Refusal::Memory => Refusal::Memory,
        _ => Refusal::RowShape,
    }
}
