//! From bytes to columns.

ghost use Rattle.std.specs.Prelude.{◌≡◌, ◌≢◌, ℕ, pos, ◌≤◌, ◌++◌, List, map, length, IfOk, IfErr, OnOk, Err};
ghost use Rattle.bits.specs.Refusals.{OnFault, RefusedOnly, RefusedMemoryOnly};
ghost use Rattle.bits.specs.Codec.{NothingStands};
ghost use Rattle.schema.specs.Stripe.{Entry};
ghost use Rattle.schema.specs.Views.{leaf_view, entry_view, column_view};
ghost use Rattle.metadata.specs.Views.{column_meta_view};
ghost use Rattle.row_group.specs.Chunks.{ChunkMeans};
ghost use Rattle.pages.specs.Left.{entries_left};
ghost use Rattle.row_group.specs.Limits.{IsChunkOver, IsOfChunks};
ghost use Rattle.row_group.specs.Left.{pages_view};
ghost use Rattle.row_group.specs.inner.Pages.{PassesAll, IsRefusedWithin};

use crate::chunk_record::check_record;
use crate::pages_left::PagesLeft;
use bits::{R, Refusal};
use metadata::ColumnMeta;
use pages::DataPage;
use schema::{Column, Leaf};
use std::alloc::Global;

/// Reads the pages of a chunk, which begin where `bytes` does, and keeps nothing of them. Returns how
/// many bytes they take.
///
/// Refused as [`read_chunk`]. Each byte of the pages is read once; one page's entries are held at a
/// time, and the dictionary's values.
pub fn check_chunk(alloc: Global, bytes: &[u8], meta: &ColumnMeta, leaf: &Leaf) -> R<usize>
    ensures stands { IfOk result (λ used. (es : List Entry) × ChunkMeans (column_meta_view meta.now) (leaf_view leaf.now) bytes.now es used) }
    ensures within { IfOk result (λ used. used ≤ length bytes.now) }
    ensures within_limits { OnOk result (IsChunkOver (column_meta_view meta.now) (leaf_view leaf.now) bytes.now → ⊥) }
    ensures only { OnFault result (NothingStands (ChunkMeans (column_meta_view meta.now) (leaf_view leaf.now) bytes.now)) }
    ensures limit { result ≡ Err Refusal.Limit → IsChunkOver (column_meta_view meta.now) (leaf_view leaf.now) bytes.now }
    ensures codec { result ≡ Err Refusal.Codec → (column_meta_view meta.now).codec ≢ pos 0 }
    ensures which { RefusedOnly IsOfChunks result }
{
    let count = check_record(meta, leaf)?;
    let mut pages = PagesLeft::new(alloc, bytes, leaf, count);
    skip_entries(&mut pages)?;
    Ok(bytes.len() - pages.bytes.len())
}

/// The column of a chunk, from the bytes that begin where the chunk starts, and how many of them its
/// pages take.
///
/// Refused Schema where the record has not the path and the type of the leaf; Codec where it says that
/// the chunk is compressed; Page for a negative count, where the pages end before the chunk's entries
/// do or hold more, and for a dictionary after another page that is not skipped; Limit for more than
/// [`MOST_ENTRIES_OF_CHUNK`](crate::MOST_ENTRIES_OF_CHUNK) entries; otherwise as its pages are
/// ([`pages::read_page`]). No column is returned of a chunk that goes beyond a limit.
///
/// Each byte of the pages is read once, and the bytes of each value are copied once.
/// (`parquet.thrift`, ColumnMetaData.)
pub fn read_chunk(alloc: Global, bytes: &[u8], meta: &ColumnMeta, leaf: &Leaf) -> R<(Column, usize)>
    ensures stands { IfOk result (λ x. ChunkMeans (column_meta_view meta.now) (leaf_view leaf.now) bytes.now (column_view x.0) x.1) }
    ensures alone { IfOk result (λ x. (es : List Entry) (used : ℕ) → ChunkMeans (column_meta_view meta.now) (leaf_view leaf.now) bytes.now es used
        → (es ≡ column_view x.0) × (used ≡ x.1)) }
    ensures within { IfOk result (λ x. x.1 ≤ length bytes.now) }
    ensures within_limits { OnOk result (IsChunkOver (column_meta_view meta.now) (leaf_view leaf.now) bytes.now → ⊥) }
    ensures only { OnFault result (NothingStands (ChunkMeans (column_meta_view meta.now) (leaf_view leaf.now) bytes.now)) }
    ensures limit { result ≡ Err Refusal.Limit → IsChunkOver (column_meta_view meta.now) (leaf_view leaf.now) bytes.now }
    ensures codec { result ≡ Err Refusal.Codec → (column_meta_view meta.now).codec ≢ pos 0 }
    ensures which { RefusedOnly IsOfChunks result }
{
    let count = check_record(meta, leaf)?;
    let mut pages = PagesLeft::new(alloc, bytes, leaf, count);
    let entries = read_entries(alloc, &mut pages)?;
    Ok((Column { entries }, bytes.len() - pages.bytes.len()))
}

/// Reads all pages that are left, and drops their entries.
fn skip_entries(pages: &mut PagesLeft<'_>) -> R<()>
    ensures stands { OnOk result ((es : List Entry) × PassesAll (pages_view pages.old) (pages_view pages.new) es) }
    ensures refused { IfErr result (IsRefusedWithin (pages_view pages.old)) }
{
    while let Some(_) = pages.next_page(false)? {}
    Ok(())
}

/// Reads all pages that are left: their entries.
fn read_entries(alloc: Global, pages: &mut PagesLeft<'_>) -> R<Vec<schema::Entry>>
    ensures stands { IfOk result (λ es. PassesAll (pages_view pages.old) (pages_view pages.new) (map entry_view es.items)) }
    ensures refused { IfErr result (IsRefusedWithin (pages_view pages.old)) }
{
    let mut entries = Vec::new(alloc);
    while let Some(page) = pages.next_page(false)? {
        push_entries(alloc, page, &mut entries)?;
    }
    Ok(entries)
}

/// Puts copies of a page's entries after those that are there.
fn push_entries(alloc: Global, mut page: DataPage<'_>, entries: &mut Vec<schema::Entry>) -> R<()>
    ensures stands { OnOk result (map entry_view entries.new.items ≡ map entry_view entries.old.items ++ entries_left page.entry) }
    ensures which { RefusedMemoryOnly result }
{
    entries.reserve(page.len())?;
    while page.advance()? {
        entries.push(page.entry().to_entry(alloc)?)?;
    }
    Ok(())
}
