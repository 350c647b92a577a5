//! The bytes of chunks, off a part file.

ghost use Rattle.std.specs.Prelude.{◌≡◌, ℕ, pos, true, List, Some, length, map, IfOk, IfErr, MatchOption, if◌then◌else◌, string_bytes};
ghost use Rattle.bits.specs.Refusals.{RefusedOnly, RefusedMemoryOnly};
ghost use Rattle.schema.specs.Keys.{key_columns_view};
ghost use Rattle.metadata.specs.Views.{column_meta_view, chunk_meta_view};
ghost use Rattle.row_group.specs.Chunks.{StartsAt};
ghost use Rattle.vault.specs.Views.{IsKept, IsNoFile};
ghost use Rattle.partition.specs.Folders.{part_path_of, CanPartition};
ghost use Rattle.manifest.specs.Groups.{group_view};
ghost use Rattle.scan.specs.Faults.{IsOfParts, IsDevice};
ghost use Rattle.scan.specs.inner.Passages.{ReadsPart};
ghost use Rattle.scan.specs.inner.Uses.{is_due, count_due};
ghost use Rattle.scan.specs.inner.Texts.{IsRange, IsText, AreTexts, HasRange, HaveRanges, texts_view};

use crate::leaf_uses::LeafUse;
use bits::{R, Refusal};
use disk::Disk;
use manifest::Group;
use metadata::{ChunkMeta, ColumnMeta};
use partition::part_path;
use schema::KeyColumn;
use std::alloc::Global;
use vault::Vault;

/// The bytes of the chunks that are due, each by one read of just its bytes; no bytes for each other leaf.
pub fn read_chunks<D: Disk>(
    alloc: Global,
    vault: &mut Vault<D>,
    path: &str,
    chunks: &[ChunkMeta],
    uses: &[LeafUse],
    for_filter: bool,
) -> R<Vec<Vec<u8>>>
    ensures stands { (D.state vault.old.disk).honest → (bytes : List ℕ) → IsKept (D.state vault.old.disk) path.now bytes
        → IfOk result (λ texts. AreTexts for_filter (map chunk_meta_view chunks.now) bytes uses.now (texts_view texts.items)) }
    ensures only { (D.state vault.old.disk).honest → (bytes : List ℕ) → IsKept (D.state vault.old.disk) path.now bytes
        → HaveRanges for_filter (map chunk_meta_view chunks.now) uses.now → RefusedOnly IsDevice result }
    ensures absent { (D.state vault.old.disk).honest → IsNoFile (D.state vault.old.disk) path.now → IfOk result (λ _. count_due for_filter uses.now ≡ 0) }
    ensures as_many { IfOk result (λ texts. length texts.items ≡ length uses.now) }
    ensures effect { ReadsPart (count_due for_filter uses.now) (D.state vault.old.disk) (D.state vault.new.disk) result }
{
    let mut texts = Vec::with_capacity(alloc, uses.len())?;
    for usage in uses {
        texts.push(read_due(alloc, vault, path, chunks, *usage, for_filter)?)?;
    }
    Ok(texts)
}

/// The bytes of the chunk of a leaf, where it is due.
fn read_due<D: Disk>(
    alloc: Global,
    vault: &mut Vault<D>,
    path: &str,
    chunks: &[ChunkMeta],
    usage: LeafUse,
    for_filter: bool,
) -> R<Vec<u8>>
    ensures stands { (D.state vault.old.disk).honest → (bytes : List ℕ) → IsKept (D.state vault.old.disk) path.now bytes
        → IfOk result (λ text. is_due for_filter usage ≡ true → IsText (map chunk_meta_view chunks.now) bytes usage.chunk text.items) }
    ensures only { (D.state vault.old.disk).honest → (bytes : List ℕ) → IsKept (D.state vault.old.disk) path.now bytes
        → (is_due for_filter usage ≡ true → HasRange (map chunk_meta_view chunks.now) usage.chunk) → RefusedOnly IsDevice result }
    ensures absent { (D.state vault.old.disk).honest → IsNoFile (D.state vault.old.disk) path.now → is_due for_filter usage ≡ true → IfOk result (λ _. ⊥) }
    ensures effect { ReadsPart (if is_due for_filter usage then 1 else 0) (D.state vault.old.disk) (D.state vault.new.disk) result }
{
    if !usage.is_due(for_filter) {
        return Ok(Vec::new(alloc));
    }
    read_chunk(alloc, vault, path, chunks, usage.chunk)
}

/// The bytes of one chunk, by one read of just its bytes.
fn read_chunk<D: Disk>(
    alloc: Global,
    vault: &mut Vault<D>,
    path: &str,
    chunks: &[ChunkMeta],
    number: usize,
) -> R<Vec<u8>>
    ensures stands { (D.state vault.old.disk).honest → (bytes : List ℕ) → IsKept (D.state vault.old.disk) path.now bytes
        → IfOk result (λ text. IsText (map chunk_meta_view chunks.now) bytes number text.items) }
    ensures only { (D.state vault.old.disk).honest → (bytes : List ℕ) → IsKept (D.state vault.old.disk) path.now bytes
        → HasRange (map chunk_meta_view chunks.now) number → RefusedOnly IsDevice result }
    ensures absent { (D.state vault.old.disk).honest → IsNoFile (D.state vault.old.disk) path.now → IfOk result (λ _. ⊥) }
    ensures effect { ReadsPart 1 (D.state vault.old.disk) (D.state vault.new.disk) result }
{
    let range = range_of(chunks, number)?;
    vault.get_range(alloc, path, range.0 as u64, range.1)
}

/// Where a chunk starts in its file, and how many bytes its pages fill. Refused Schema where there is no such chunk,
/// Page for a negative number or a size that is absent.
fn range_of(chunks: &[ChunkMeta], number: usize) -> R<(usize, usize)>
    ensures stands { IfOk result (λ x. IsRange (map chunk_meta_view chunks.now) number x.0 x.1) }
    ensures only { HasRange (map chunk_meta_view chunks.now) number → IfErr result (λ _. ⊥) }
    ensures which { RefusedOnly IsOfParts result }
{
    if number >= chunks.len() {
        return Err(Refusal::Schema);
    }
    let meta = &chunks[number].meta_data;
    let Some(start) = start_of(meta) else {
        return Err(Refusal::Page);
    };
    let Some(size) = size_of(meta) else {
        return Err(Refusal::Page);
    };
    Ok((start, size))
}

/// How many bytes the pages of a chunk fill, by its record.
fn size_of(meta: &ColumnMeta) -> Option<usize>
    ensures { MatchOption result ((n : ℕ) → (column_meta_view meta.now).total_compressed_size ≡ Some (pos n)
        → ⊥) (λ n. (column_meta_view meta.now).total_compressed_size ≡ Some (pos n)) }
{
    match meta.total_compressed_size {
        Some(size) if size >= 0 => Some(size as usize),
        _ => None,
    }
}

/// Where a chunk starts in its file: at its dictionary's page, where the offset of one is given above 0 and before the
/// data page; else at the data page. None for a negative offset.
fn start_of(meta: &ColumnMeta) -> Option<usize>
    ensures { MatchOption result ((start : ℕ) → StartsAt (column_meta_view meta.now) start → ⊥) (StartsAt (column_meta_view meta.now)) }
{
    if meta.data_page_offset < 0 {
        return None;
    }
    let page = meta.data_page_offset as usize;
    let Some(offset) = meta.dictionary_page_offset else {
        return Some(page);
    };
    if offset < 0 {
        return None;
    }
    let dictionary = offset as usize;
    if dictionary > 0 && dictionary < page {
        return Some(dictionary);
    }
    Some(page)
}

/// The path of the group's part file. A key that cannot partition has none: refused Truncated.
pub(crate) fn path_of(alloc: Global, keys: &[KeyColumn], group: &Group) -> R<String>
    ensures stands { IfOk result (λ path. string_bytes path
        ≡ part_path_of (key_columns_view keys.now) (group_view group.now).key (group_view group.now).number) }
    ensures only { CanPartition (key_columns_view keys.now) (group_view group.now).key → RefusedMemoryOnly result }
    ensures which { RefusedOnly IsOfParts result }
{
    match part_path(alloc, keys, &group.key, group.number) {
        Ok(path) => Ok(path),
        Err(Refusal::Memory) => Err(Refusal::Memory),
        Err(_) => Err(Refusal::Truncated),
    }
}
