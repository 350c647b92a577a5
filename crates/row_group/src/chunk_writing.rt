//! From entries to chunks.

ghost use Rattle.std.specs.Prelude.{◌≡◌, ◌<◌, ◌≤◌, ◌<ℤ◌, ◌^◌, pos, map, length, take, Some, IfOk, OnOk, OnErr, Err};
ghost use Rattle.std.specs.Rc.{rc_str_bytes};
ghost use Rattle.std.specs.List.{AllByRecursion};
ghost use Rattle.bits.specs.Refusals.{OnFault, RefusedOnly, RefusedMemoryOnly};
ghost use Rattle.schema.specs.Borrowed.{entry_ref_view};
ghost use Rattle.schema.specs.Law.{IsEntryOf};
ghost use Rattle.schema.specs.Views.{leaf_view};
ghost use Rattle.metadata.specs.Views.{column_meta_view, statistics_view};
ghost use Rattle.plain.specs.Flat.{flat_entries};
ghost use Rattle.plain.specs.ValuesLeft.{values_left, kind_of};
ghost use Rattle.pages.specs.Writing.{AreShort, IsOfEntries};
ghost use Rattle.row_group.specs.Chunks.{IsChunkOf};
ghost use Rattle.row_group.specs.Greatest.{most_entries};
ghost use Rattle.row_group.specs.Writing.{AppendsChunk, IsChunkTooMuch};
ghost use Rattle.row_group.specs.inner.Copied.{IsCopied};
ghost use Rattle.row_group.specs.inner.Parts.{SaysOfPages};

use crate::chunk_pages::{ChunkPages, put_chunk_pages, put_copied_pages};
use crate::chunk_record::UNCOMPRESSED;
use crate::chunk_statistics::{statistics_of, statistics_of_values};
use crate::limits::MOST_ENTRIES_OF_CHUNK;
use crate::options::ChunkOptions;
use bits::{R, Refusal};
use metadata::{ColumnMeta, Statistics};
use pages::{one_page, short_pages_are_within_limits};
use plain::Values;
use schema::{EntryRef, Leaf};
use std::alloc::Global;
use std::rc::RcStr;

/// Writes the entries at the end of a file's bytes, as a chunk of the leaf, and returns its record
/// (`parquet.thrift`, ColumnMetaData). The chunk starts where the bytes ended, and its pages follow each
/// other: the page of a dictionary where its style has one, then data pages of `page_rows` rows each, the
/// last with the rest. The encodings are those of the style ([`Style`](crate::Style)). Into an empty `out`, where no
/// file has a chunk, the style `Dictionary` writes PLAIN: a record cannot say that the page of a dictionary has
/// the offset 0. Both sizes in the
/// record are those of the bytes that were written; its statistics are those of the entries. Where there are
/// no entries there is no page.
///
/// Refused Levels or Value only where an entry is none of the leaf's. Refused Limit only where `page_rows` is
/// 0, where there are more than 16,777,216 entries, where a value has more than 16 MiB, or where what was there
/// and the chunk weigh more than 2^31 - 1 bytes. After a refusal `out` is as it was.
pub fn write_chunk(
    alloc: Global,
    leaf: &Leaf,
    options: ChunkOptions,
    entries: &[EntryRef<'_>],
    out: &mut Vec<u8>,
) -> R<ColumnMeta>
    ensures stands { IfOk result (λ m.
        AppendsChunk (leaf_view leaf.now) options out.old.items out.new.items (column_meta_view m) (map entry_ref_view entries.now)) }
    ensures within_limits { OnOk result (AreShort (map entry_ref_view entries.now)) }
    ensures entries_within_limits { OnOk result (most_entries <ℤ pos (length (map entry_ref_view entries.now)) → ⊥) }
    ensures only { OnFault result (AllByRecursion (IsEntryOf (leaf_view leaf.now)) (map entry_ref_view entries.now) → ⊥) }
    ensures limit { result ≡ Err Refusal.Limit → IsChunkTooMuch (leaf_view leaf.now) options (length out.old.items) (map entry_ref_view entries.now) }
    ensures which { RefusedOnly IsOfEntries result }
    ensures unchanged { OnErr result (out.new.items ≡ out.old.items) }
{
    if options.page_rows == 0 || entries.len() > MOST_ENTRIES_OF_CHUNK as usize {
        return Err(Refusal::Limit);
    }
    let kept = out.len();
    let done = put_chunk(alloc, leaf, options, entries, out);
    if done.is_err() {
        out.truncate(kept);
    }
    done
}

/// Writes the values at the end of a file's bytes, as a chunk of a leaf without levels, as [`write_chunk`] writes their
/// entries; and returns its record. Their PLAIN bytes are copied as they are, and nothing is checked of them.
///
/// Refused Value only where an entry is none of the leaf's, and Limit as `write_chunk` is. After a refusal `out` is as
/// it was.
pub(crate) fn write_plain_chunk(
    alloc: Global,
    leaf: &Leaf,
    options: ChunkOptions,
    values: Values<'_>,
    out: &mut Vec<u8>,
) -> R<ColumnMeta>
    requires copied { IsCopied (leaf_view leaf.now) options.style (kind_of values) }
    ensures stands { let es = flat_entries (values_left values.entry) in AllByRecursion (IsEntryOf (leaf_view leaf.now)) es
        → IfOk result (λ m. AppendsChunk (leaf_view leaf.now) options out.old.items out.new.items (column_meta_view m) es) }
    ensures within_limits { OnOk result (AreShort (flat_entries (values_left values.entry))) }
    ensures entries_within_limits { OnOk result (most_entries <ℤ pos (length (flat_entries (values_left values.entry))) → ⊥) }
    ensures only { OnFault result (AllByRecursion (IsEntryOf (leaf_view leaf.now)) (flat_entries (values_left values.entry)) → ⊥) }
    ensures limit { let es = flat_entries (values_left values.entry) in result ≡ Err Refusal.Limit → AllByRecursion (IsEntryOf (leaf_view leaf.now)) es
        → IsChunkTooMuch (leaf_view leaf.now) options (length out.old.items) es }
    ensures which { RefusedOnly IsOfEntries result }
    ensures front { take (length out.old.items) out.new.items ≡ out.old.items }
    ensures unchanged { OnErr result (out.new.items ≡ out.old.items) }
{
    if options.page_rows == 0 || values.len() > MOST_ENTRIES_OF_CHUNK as usize {
        return Err(Refusal::Limit);
    }
    let kept = out.len();
    let done = put_plain_chunk(alloc, leaf, options, values, out);
    if done.is_err() {
        out.truncate(kept);
    }
    done
}

/// Writes the chunk; after a refusal some of it may stand after what was there.
fn put_chunk(
    alloc: Global,
    leaf: &Leaf,
    options: ChunkOptions,
    entries: &[EntryRef<'_>],
    out: &mut Vec<u8>,
) -> R<ColumnMeta>
    requires rows { 0 < options.page_rows }
    requires few { length entries.now ≤ 16777216 }
    ensures stands { IfOk result (λ m.
        AppendsChunk (leaf_view leaf.now) options out.old.items out.new.items (column_meta_view m) (map entry_ref_view entries.now)) }
    ensures within_limits { OnOk result (AreShort (map entry_ref_view entries.now)) }
    ensures only { OnFault result (AllByRecursion (IsEntryOf (leaf_view leaf.now)) (map entry_ref_view entries.now) → ⊥) }
    ensures limit { result ≡ Err Refusal.Limit → IsChunkTooMuch (leaf_view leaf.now) options (length out.old.items) (map entry_ref_view entries.now) }
    ensures which { RefusedOnly IsOfEntries result }
    ensures front { OnErr result (take (length out.old.items) out.new.items ≡ out.old.items) }
{
    one_page();
    short_pages_are_within_limits();
    let statistics = statistics_of(alloc, leaf, entries)?;
    let path_in_schema = bytes_of_names(alloc, leaf.path.as_slice())?;
    let start = out.len();
    let pages = put_chunk_pages(alloc, leaf, options, entries, out)?;
    let size = out.len() - start;
    Ok(record_of(leaf, path_in_schema, entries.len(), size, pages, statistics))
}

/// Writes the chunk of the values; after a refusal some of it may stand after what was there.
fn put_plain_chunk(
    alloc: Global,
    leaf: &Leaf,
    options: ChunkOptions,
    values: Values<'_>,
    out: &mut Vec<u8>,
) -> R<ColumnMeta>
    requires rows { 0 < options.page_rows }
    requires few { length (values_left values) ≤ 16777216 }
    requires copied { IsCopied (leaf_view leaf.now) options.style (kind_of values) }
    ensures stands { let es = flat_entries (values_left values.entry) in AllByRecursion (IsEntryOf (leaf_view leaf.now)) es
        → IfOk result (λ m. AppendsChunk (leaf_view leaf.now) options out.old.items out.new.items (column_meta_view m) es) }
    ensures within_limits { OnOk result (AreShort (flat_entries (values_left values.entry))) }
    ensures only { OnFault result (AllByRecursion (IsEntryOf (leaf_view leaf.now)) (flat_entries (values_left values.entry)) → ⊥) }
    ensures limit { let es = flat_entries (values_left values.entry) in result ≡ Err Refusal.Limit → AllByRecursion (IsEntryOf (leaf_view leaf.now)) es
        → IsChunkTooMuch (leaf_view leaf.now) options (length out.old.items) es }
    ensures which { RefusedOnly IsOfEntries result }
    ensures front { take (length out.old.items) out.new.items ≡ out.old.items }
{
    one_page();
    short_pages_are_within_limits();
    let statistics = statistics_of_values(alloc, leaf, values)?;
    let path_in_schema = bytes_of_names(alloc, leaf.path.as_slice())?;
    let start = out.len();
    let pages = put_copied_pages(alloc, leaf, options, values, out)?;
    let size = out.len() - start;
    Ok(record_of(leaf, path_in_schema, values.len(), size, pages, statistics))
}

/// The record of a chunk of the leaf with this many entries and bytes.
fn record_of(
    leaf: &Leaf,
    path_in_schema: Vec<Vec<u8>>,
    count: usize,
    size: usize,
    pages: ChunkPages,
    statistics: Statistics,
) -> ColumnMeta
    requires path { map (λ s. s.items) path_in_schema.items ≡ map rc_str_bytes leaf.now.path.items }
    requires few { count ≤ 16777216 }
    requires size { size < 2 ^ 63 }
    ensures of_leaf { IsChunkOf (column_meta_view result) (leaf_view leaf.now) }
    ensures count { (column_meta_view result).num_values ≡ pos count }
    ensures pages { SaysOfPages (column_meta_view result) pages }
    ensures size { (column_meta_view result).total_compressed_size ≡ Some (pos size) }
    ensures plain_size { (column_meta_view result).total_uncompressed_size ≡ Some (pos size) }
    ensures statistics { (column_meta_view result).statistics ≡ Some (statistics_view statistics) }
{
    let size = Some(size as i64);
    ColumnMeta {
        kind: leaf.leaf_type.kind.number(),
        encodings: Some(pages.encodings),
        path_in_schema,
        codec: UNCOMPRESSED,
        num_values: count as i64,
        total_uncompressed_size: size,
        total_compressed_size: size,
        data_page_offset: pages.data_page_offset,
        dictionary_page_offset: pages.dictionary_page_offset,
        statistics: Some(statistics),
    }
}

/// The bytes of each of the names.
fn bytes_of_names(alloc: Global, names: &[RcStr]) -> R<Vec<Vec<u8>>>
    ensures names_are { IfOk result (λ path. map (λ s. s.items) path.items ≡ map rc_str_bytes names.now) }
    ensures which { RefusedMemoryOnly result }
{
    let mut path = Vec::with_capacity(alloc, names.len())?;
    for name in names {
        let bytes = Vec::from_slice(alloc, name.as_str().as_bytes())?;
        path.push(bytes)?;
    }
    Ok(path)
}
