//! From rows to groups.

ghost use Rattle.std.specs.Prelude.{◌≡◌, ◌<ℤ◌, pos, length, map, take, IfOk, OnOk, OnErr, Err};
ghost use Rattle.std.specs.List.{AllByRecursion};
ghost use Rattle.bits.specs.Refusals.{OnFault, RefusedOnly};
ghost use Rattle.schema.specs.Fits.{RowsFit};
ghost use Rattle.schema.specs.Law.{IsEntryOf};
ghost use Rattle.schema.specs.Views.{leaf_view, rows_view};
ghost use Rattle.metadata.specs.Views.{chunk_meta_view, group_meta_view};
ghost use Rattle.shred.specs.Columns.{column_ref_view, column_refs_view};
ghost use Rattle.pages.specs.Writing.{AreShort};
ghost use Rattle.row_group.specs.Greatest.{most_entries};
ghost use Rattle.row_group.specs.Writing.{AppendsChunk, AppendsGroup, AreTaken, IsChunkTooMuch, IsGroupTooMuch, IsOfRows, IsOwnChunk};
ghost use Rattle.row_group.specs.inner.Columns.{AppendsChunks, AreColumnsOf, AreTooMuch};

use crate::chunk_writing::write_chunk;
use crate::limits::MOST_ROWS_OF_GROUP;
use crate::options::ChunkOptions;
use bits::{R, Refusal};
use metadata::{ChunkMeta, GroupMeta};
use schema::{Leaf, Row, Schema, entries_are_of_leaves, rows_begin_once};
use shred::{ColumnRef, shred};
use std::alloc::Global;

/// Writes the rows at the end of a file's bytes, as one group: a chunk for each leaf of the schema, in
/// the order of the leaves, each right after the other, as of [`write_chunk`](crate::write_chunk); and returns
/// its record. (`parquet.thrift`, RowGroup.)
///
/// Refused RowShape only where a row does not fit the schema. Refused Limit only where `page_rows` is 0, where
/// there are more than 16,777,216 rows, or entries in a column, where a value has more than 16 MiB, or where what
/// was there and the group weigh more than 2^31 - 1 bytes. Where both are so, either may come. After a refusal
/// `out` is as it was.
///
/// The rows are shredded once, into entries that borrow their values; beside the rows and `out` these stand in
/// memory. The time is linear in the entries and in the bytes of the values.
pub fn write_group(
    alloc: Global,
    schema: &Schema,
    options: ChunkOptions,
    rows: &[Row],
    out: &mut Vec<u8>,
) -> R<GroupMeta>
    ensures stands { IfOk result (λ g. AppendsGroup schema.now options out.old.items out.new.items (group_meta_view g) (rows_view rows.now)) }
    ensures readable { OnOk result (AreTaken schema.now (rows_view rows.now)) }
    ensures only { OnFault result (RowsFit schema.now (rows_view rows.now) → ⊥) }
    ensures limit { result ≡ Err Refusal.Limit → IsGroupTooMuch schema.now options (length out.old.items) (rows_view rows.now) }
    ensures which { RefusedOnly IsOfRows result }
    ensures unchanged { OnErr result (out.new.items ≡ out.old.items) }
{
    entries_are_of_leaves();
    rows_begin_once();
    if rows.len() > MOST_ROWS_OF_GROUP as usize {
        return Err(Refusal::Limit);
    }
    let found = shred(alloc, schema, rows)?;
    let kept = out.len();
    match write_columns(alloc, schema.leaves(), options, found.as_slice(), out) {
        Ok(columns) => Ok(GroupMeta {
            columns,
            total_byte_size: Some((out.len() - kept) as i64),
            num_rows: rows.len() as i64,
        }),
        Err(refusal) => {
            out.truncate(kept);
            Err(refusal)
        }
    }
}

/// Writes the columns of these leaves, each as a chunk. Refused Limit where they are too much; then some of
/// the chunks may stand after what was there.
fn write_columns(
    alloc: Global,
    leaves: &[Leaf],
    options: ChunkOptions,
    columns: &[ColumnRef<'_>],
    out: &mut Vec<u8>,
) -> R<Vec<ChunkMeta>>
    requires entries { AreColumnsOf (map leaf_view leaves.now) (column_refs_view columns.now) }
    ensures stands { IfOk result (λ cs.
        AppendsChunks options (map leaf_view leaves.now) (column_refs_view columns.now) out.old.items out.new.items (map chunk_meta_view cs.items)) }
    ensures limit { result ≡ Err Refusal.Limit → AreTooMuch options (map leaf_view leaves.now) (length out.old.items) (column_refs_view columns.now) }
    ensures which { RefusedOnly (λ e. e ≡ Refusal.Limit) result }
    ensures front { OnErr result (take (length out.old.items) out.new.items ≡ out.old.items) }
{
    let mut chunks = Vec::with_capacity(alloc, leaves.len())?;
    for (i, leaf) in leaves.iter().enumerate() {
        let chunk = write_column(alloc, leaf, options, &columns[i], out)?;
        chunks.push(chunk)?;
    }
    Ok(chunks)
}

/// Writes a column of this leaf as a chunk. Refused Limit where it is too much; then `out` is as it was.
fn write_column(
    alloc: Global,
    leaf: &Leaf,
    options: ChunkOptions,
    column: &ColumnRef<'_>,
    out: &mut Vec<u8>,
) -> R<ChunkMeta>
    requires entries { AllByRecursion (IsEntryOf (leaf_view leaf.now)) (column_ref_view column.now) }
    ensures stands { IfOk result (λ c.
        AppendsChunk (leaf_view leaf.now) options out.old.items out.new.items (chunk_meta_view c).meta_data (column_ref_view column.now)) }
    ensures own { IfOk result (λ c. IsOwnChunk (chunk_meta_view c)) }
    ensures within_limits { OnOk result (AreShort (column_ref_view column.now)) }
    ensures entries_within_limits { OnOk result (most_entries <ℤ pos (length (column_ref_view column.now)) → ⊥) }
    ensures limit { result ≡ Err Refusal.Limit → IsChunkTooMuch (leaf_view leaf.now) options (length out.old.items) (column_ref_view column.now) }
    ensures which { RefusedOnly (λ e. e ≡ Refusal.Limit) result }
    ensures unchanged { OnErr result (out.new.items ≡ out.old.items) }
{
    let meta_data = write_chunk(alloc, leaf, options, column.entries.as_slice(), out)?;
    Ok(ChunkMeta {
        file_path: None,
        file_offset: Some(0),
        meta_data,
    })
}
