//! The pages of a chunk, in the encodings of its style.

ghost use Rattle.std.specs.Prelude.{◌≡◌, ◌<◌, map, length, take, IfOk, OnOk, OnErr, Err};
ghost use Rattle.std.specs.List.{AllByRecursion};
ghost use Rattle.bits.specs.Refusals.{OnFault, RefusedOnly};
ghost use Rattle.schema.specs.Borrowed.{entry_ref_view};
ghost use Rattle.schema.specs.Law.{IsEntryOf};
ghost use Rattle.schema.specs.Views.{leaf_view};
ghost use Rattle.plain.specs.Flat.{flat_entries};
ghost use Rattle.plain.specs.ValuesLeft.{values_left, kind_of};
ghost use Rattle.dictionary.specs.Entries.{IsIndexed, entries_of, indexes_of};
ghost use Rattle.pages.specs.Page.{values as values_in};
ghost use Rattle.pages.specs.Writing.{AreShort, IsOfEntries};
ghost use Rattle.row_group.specs.Styles.{SuitsDictionary};
ghost use Rattle.row_group.specs.Writing.{IsChunkTooMuch};
ghost use Rattle.row_group.specs.inner.Copied.{IsCopied};
ghost use Rattle.row_group.specs.inner.Parts.{AppendsPages};

use crate::chunk_styles::{dictionary_of, encoding_of, numbers_of, numbers_with_levels};
use crate::options::ChunkOptions;
use crate::pages_in_turn::{PageValues, put_pages, put_plain_pages};
use bits::{R, Refusal};
use dictionary::Dictionary;
use pages::{Encoding, write_dictionary_page};
use plain::{Values, what_is_of_a_kind_fits_it};
use schema::{EntryRef, Leaf};
use std::alloc::Global;

/// What the record of a chunk says of its pages: the numbers of their encodings, and where they begin.
#[derive(Debug, Drop)]
pub(crate) struct ChunkPages {
    pub encodings: Vec<i32>,
    pub dictionary_page_offset: Option<i64>,
    pub data_page_offset: i64,
}

/// Writes the pages of a chunk, after the page of a dictionary where it has one. At offset 0 it has none, since the
/// offset of a dictionary's page counts in a record only above 0. After a refusal some of the pages may stand after
/// what was there.
pub(crate) fn put_chunk_pages(
    alloc: Global,
    leaf: &Leaf,
    options: ChunkOptions,
    entries: &[EntryRef<'_>],
    out: &mut Vec<u8>,
) -> R<ChunkPages>
    requires rows { 0 < options.page_rows }
    ensures stands { IfOk result (λ pages. AppendsPages (leaf_view leaf.now) options out.old.items out.new.items pages (map entry_ref_view entries.now)) }
    ensures within_limits { OnOk result (AreShort (map entry_ref_view entries.now)) }
    ensures only { OnFault result (AllByRecursion (IsEntryOf (leaf_view leaf.now)) (map entry_ref_view entries.now) → ⊥) }
    ensures limit { result ≡ Err Refusal.Limit → IsChunkTooMuch (leaf_view leaf.now) options (length out.old.items) (map entry_ref_view entries.now) }
    ensures which { RefusedOnly IsOfEntries result }
    ensures front { OnErr result (take (length out.old.items) out.new.items ≡ out.old.items) }
{
    if out.is_empty() {
        return put_value_pages(alloc, leaf, options, entries, out);
    }
    match dictionary_of(alloc, leaf, options.style, entries)? {
        Some(dictionary) => put_index_pages(alloc, leaf, options, &dictionary, entries, out),
        None => put_value_pages(alloc, leaf, options, entries, out),
    }
}

/// Writes the pages of a chunk without a dictionary.
fn put_value_pages(
    alloc: Global,
    leaf: &Leaf,
    options: ChunkOptions,
    entries: &[EntryRef<'_>],
    out: &mut Vec<u8>,
) -> R<ChunkPages>
    requires rows { 0 < options.page_rows }
    requires none { 0 < length out.old.items → SuitsDictionary options.style leaf.now.leaf_type.kind (map entry_ref_view entries.now) → ⊥ }
    ensures stands { IfOk result (λ pages. AppendsPages (leaf_view leaf.now) options out.old.items out.new.items pages (map entry_ref_view entries.now)) }
    ensures within_limits { OnOk result (AreShort (map entry_ref_view entries.now)) }
    ensures only { OnFault result (AllByRecursion (IsEntryOf (leaf_view leaf.now)) (map entry_ref_view entries.now) → ⊥) }
    ensures limit { result ≡ Err Refusal.Limit → IsChunkTooMuch (leaf_view leaf.now) options (length out.old.items) (map entry_ref_view entries.now) }
    ensures which { RefusedOnly IsOfEntries result }
    ensures front { OnErr result (take (length out.old.items) out.new.items ≡ out.old.items) }
{
    let encoding = encoding_of(options.style, leaf.leaf_type.kind);
    let encodings = numbers_with_levels(alloc, encoding)?;
    let start = out.len();
    put_pages(
        alloc,
        leaf,
        options,
        PageValues::Encoded(encoding),
        entries,
        out,
    )?;
    Ok(ChunkPages {
        encodings,
        dictionary_page_offset: None,
        data_page_offset: start as i64,
    })
}

/// Writes the pages of a chunk from values that wait in PLAIN, as [`put_chunk_pages`] does from their entries. After
/// a refusal some of them may stand after what was there.
pub(crate) fn put_copied_pages(
    alloc: Global,
    leaf: &Leaf,
    options: ChunkOptions,
    values: Values<'_>,
    out: &mut Vec<u8>,
) -> R<ChunkPages>
    requires rows { 0 < options.page_rows }
    requires copied { IsCopied (leaf_view leaf.now) options.style (kind_of values) }
    ensures stands { let es = flat_entries (values_left values.entry) in AllByRecursion (IsEntryOf (leaf_view leaf.now)) es
        → IfOk result (λ pages. AppendsPages (leaf_view leaf.now) options out.old.items out.new.items pages es) }
    ensures within_limits { OnOk result (AreShort (flat_entries (values_left values.entry))) }
    ensures limit { let es = flat_entries (values_left values.entry) in result ≡ Err Refusal.Limit → AllByRecursion (IsEntryOf (leaf_view leaf.now)) es
        → IsChunkTooMuch (leaf_view leaf.now) options (length out.old.items) es }
    ensures which { RefusedOnly (λ e. e ≡ Refusal.Limit) result }
    ensures front { take (length out.old.items) out.new.items ≡ out.old.items }
{
    let encodings = numbers_with_levels(alloc, Encoding::Plain)?;
    let start = out.len();
    put_plain_pages(alloc, leaf, options, values, out)?;
    Ok(ChunkPages {
        encodings,
        dictionary_page_offset: None,
        data_page_offset: start as i64,
    })
}

/// Writes the pages of a chunk with this dictionary, its page first.
fn put_index_pages(
    alloc: Global,
    leaf: &Leaf,
    options: ChunkOptions,
    dictionary: &Dictionary,
    entries: &[EntryRef<'_>],
    out: &mut Vec<u8>,
) -> R<ChunkPages>
    requires rows { 0 < options.page_rows }
    requires begun { 0 < length out.old.items }
    requires suits { SuitsDictionary options.style leaf.now.leaf_type.kind (map entry_ref_view entries.now) }
    requires indexed { IsIndexed (values_in (map entry_ref_view entries.now)) (entries_of dictionary.now) (indexes_of dictionary.now) }
    ensures stands { IfOk result (λ pages. AppendsPages (leaf_view leaf.now) options out.old.items out.new.items pages (map entry_ref_view entries.now)) }
    ensures within_limits { OnOk result (AreShort (map entry_ref_view entries.now)) }
    ensures only { OnFault result (AllByRecursion (IsEntryOf (leaf_view leaf.now)) (map entry_ref_view entries.now) → ⊥) }
    ensures limit { result ≡ Err Refusal.Limit → IsChunkTooMuch (leaf_view leaf.now) options (length out.old.items) (map entry_ref_view entries.now) }
    ensures which { RefusedOnly IsOfEntries result }
    ensures front { OnErr result (take (length out.old.items) out.new.items ≡ out.old.items) }
{
    what_is_of_a_kind_fits_it();
    let indexes = [Encoding::Plain, Encoding::Rle, Encoding::RleDictionary];
    let encodings = numbers_of(alloc, &indexes)?;
    let start = out.len();
    write_dictionary_page(alloc, leaf.leaf_type.kind, dictionary, out)?;
    let data = out.len();
    put_pages(
        alloc,
        leaf,
        options,
        PageValues::Indexed(dictionary),
        entries,
        out,
    )?;
    Ok(ChunkPages {
        encodings,
        dictionary_page_offset: Some(start as i64),
        data_page_offset: data as i64,
    })
}
