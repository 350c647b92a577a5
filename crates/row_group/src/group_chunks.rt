//! The chunks of a group.

ghost use Rattle.std.specs.Prelude.{◌≡◌, ◌≢◌, ℕ, pos, true, List, drop, IfOk, OnOk, IfErr, Err};
ghost use Rattle.bits.specs.Refusals.{OnFault, RefusedOnly};
ghost use Rattle.schema.specs.Law.{IsSchema};
ghost use Rattle.schema.specs.Stripe.{Entry, leaves_of};
ghost use Rattle.schema.specs.Views.{leaf_view};
ghost use Rattle.metadata.specs.Views.{column_meta_view, group_meta_view};
ghost use Rattle.pages.specs.Limits.{IsOfPages};
ghost use Rattle.row_group.specs.Chunks.{StartsAt, ColumnMeans, AreChunks};
ghost use Rattle.row_group.specs.Limits.{IsChunkOver, HasColumn, BeginsWith, HasCodec, IsOfChunks};
ghost use Rattle.row_group.specs.inner.Readers.{IsReaderOf, AreReaders, AreSound};

use crate::chunk_reader::ChunkReader;
use crate::chunk_reading::check_chunk;
use crate::counts::natural;
use bits::{R, Refusal};
use metadata::{ColumnMeta, GroupMeta};
use schema::{Leaf, Schema};
use std::alloc::Global;

/// A reader for each chunk of the group, in the order of the leaves. No page is read yet; those of chunks
/// that were accepted are read without a second check.
///
/// Refused Schema where there are not as many chunks as leaves; Page for a negative offset; otherwise
/// as [`ChunkReader::new`].
pub fn readers_of<'a>(
    alloc: Global,
    front: &'a [u8],
    meta: &GroupMeta,
    schema: &'a Schema,
    is_accepted: bool,
) -> R<Vec<ChunkReader<'a>>>
    requires accepted { is_accepted ≡ true → (columns : List (List Entry))
        × AreSound front.now (group_meta_view meta.now).columns (leaves_of schema.now) columns }
    ensures valid { OnOk result (IsSchema schema.now) }
    ensures stands { IfOk result (λ rs. AreReaders front.now (group_meta_view meta.now).columns (leaves_of schema.now) rs.items) }
    ensures only { OnFault result ((columns : List (List Entry)) → AreChunks front.now (group_meta_view meta.now).columns (leaves_of schema.now) columns → ⊥) }
    ensures limit { result ≡ Err Refusal.Limit → HasColumn schema.now (group_meta_view meta.now) (BeginsWith front.now IsChunkOver) }
    ensures codec { result ≡ Err Refusal.Codec → HasCodec (group_meta_view meta.now) }
    ensures which { RefusedOnly IsOfChunks result }
{
    let leaves = schema.leaves();
    if meta.columns.len() != leaves.len() {
        return Err(Refusal::Schema);
    }
    let mut readers = Vec::with_capacity(alloc, leaves.len())?;
    for (place, leaf) in leaves.iter().enumerate() {
        let chunk = &meta.columns[place].meta_data;
        let reader = reader_of(alloc, front, chunk, leaf)?;
        readers.push(reader.accepted_where(is_accepted))?;
    }
    Ok(readers)
}

/// Reads each chunk of the group, and keeps nothing of it. Refused as [`readers_of`], and as
/// [`check_chunk`] is.
pub fn check_chunks(alloc: Global, front: &[u8], meta: &GroupMeta, schema: &Schema) -> R<()>
    ensures stands { OnOk result ((columns : List (List Entry)) × AreSound front.now (group_meta_view meta.now).columns (leaves_of schema.now) columns) }
    ensures only { OnFault result ((columns : List (List Entry)) → AreChunks front.now (group_meta_view meta.now).columns (leaves_of schema.now) columns → ⊥) }
    ensures limit { result ≡ Err Refusal.Limit → HasColumn schema.now (group_meta_view meta.now) (BeginsWith front.now IsChunkOver) }
    ensures codec { result ≡ Err Refusal.Codec → HasCodec (group_meta_view meta.now) }
    ensures which { RefusedOnly IsOfChunks result }
{
    let leaves = schema.leaves();
    if meta.columns.len() != leaves.len() {
        return Err(Refusal::Schema);
    }
    for (place, leaf) in leaves.iter().enumerate() {
        let chunk = &meta.columns[place].meta_data;
        check_column(alloc, front, chunk, leaf)?;
    }
    Ok(())
}

/// A reader of the chunk of this record, from the bytes of its file before the footer.
pub fn reader_of<'a>(
    alloc: Global,
    front: &'a [u8],
    meta: &ColumnMeta,
    leaf: &'a Leaf,
) -> R<ChunkReader<'a>>
    ensures stands { IfOk result (λ r. IsReaderOf front.now (column_meta_view meta.now) (leaf_view leaf.now) r) }
    ensures only { OnFault result ((es : List Entry) → ColumnMeans front.now (column_meta_view meta.now) (leaf_view leaf.now) es → ⊥) }
    ensures limit { result ≡ Err Refusal.Limit → BeginsWith front.now IsChunkOver (column_meta_view meta.now) (leaf_view leaf.now) }
    ensures codec { result ≡ Err Refusal.Codec → (column_meta_view meta.now).codec ≢ pos 0 }
    ensures which { RefusedOnly IsOfChunks result }
{
    let start = start_of(meta)?;
    ChunkReader::new(alloc, from(front, start), meta, leaf)
}

/// Reads the chunk of this record, from the bytes of its file before the footer, and keeps nothing.
pub fn check_column(alloc: Global, front: &[u8], meta: &ColumnMeta, leaf: &Leaf) -> R<()>
    ensures stands { OnOk result ((es : List Entry) × ColumnMeans front.now (column_meta_view meta.now) (leaf_view leaf.now) es) }
    ensures within_limits { OnOk result (BeginsWith front.now IsChunkOver (column_meta_view meta.now) (leaf_view leaf.now) → ⊥) }
    ensures only { OnFault result ((es : List Entry) → ColumnMeans front.now (column_meta_view meta.now) (leaf_view leaf.now) es → ⊥) }
    ensures limit { result ≡ Err Refusal.Limit → BeginsWith front.now IsChunkOver (column_meta_view meta.now) (leaf_view leaf.now) }
    ensures codec { result ≡ Err Refusal.Codec → (column_meta_view meta.now).codec ≢ pos 0 }
    ensures which { RefusedOnly IsOfChunks result }
{
    let start = start_of(meta)?;
    check_chunk(alloc, from(front, start), meta, leaf)?;
    Ok(())
}

/// Where a chunk starts in its file: at its dictionary's page, where the offset of one is given above 0
/// and before the data page; else at the data page. Refused Page for a negative offset, and for nothing else.
pub fn start_of(meta: &ColumnMeta) -> R<usize>
    ensures stands { IfOk result (λ start. StartsAt (column_meta_view meta.now) start) }
    ensures alone { IfOk result (λ start. (other : ℕ) → StartsAt (column_meta_view meta.now) other → other ≡ start) }
    ensures only { OnFault result ((start : ℕ) → StartsAt (column_meta_view meta.now) start → ⊥) }
    ensures limit { result ≡ Err Refusal.Limit → ⊥ }
    ensures cause { IfErr result (λ e. e ≡ Refusal.Page) }
    ensures which { RefusedOnly IsOfPages result }
{
    let Some(page) = natural(meta.data_page_offset) else {
        return Err(Refusal::Page);
    };
    let Some(offset) = meta.dictionary_page_offset else {
        return Ok(page);
    };
    let Some(dictionary) = natural(offset) else {
        return Err(Refusal::Page);
    };
    if dictionary > 0 && dictionary < page {
        return Ok(dictionary);
    }
    Ok(page)
}

/// The bytes from an offset on; none past their end.
fn from(bytes: &[u8], start: usize) -> &[u8]
    ensures { result.now ≡ drop start bytes.now }
{
    if start > bytes.len() {
        return &[];
    }
    bytes.split_at(start).1
}
