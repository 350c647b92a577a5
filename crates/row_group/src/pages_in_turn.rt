//! How entries are cut into pages, and the pages of a chunk are written one after another.

ghost use Rattle.std.specs.Prelude.{◌≡◌, ◌<◌, ◌≤◌, ◌++◌, List, map, length, take, IfOk, OnOk, OnErr, Err};
ghost use Rattle.std.specs.List.{AllByRecursion};
ghost use Rattle.bits.specs.Refusals.{OnFault, RefusedOnly};
ghost use Rattle.bits.specs.Codec.{Appends};
ghost use Rattle.schema.specs.Values.{ValueTree};
ghost use Rattle.schema.specs.Borrowed.{entry_ref_view};
ghost use Rattle.schema.specs.Law.{IsEntryOf};
ghost use Rattle.schema.specs.Views.{leaf_view};
ghost use Rattle.plain.specs.Flat.{flat_entries};
ghost use Rattle.plain.specs.ValuesLeft.{values_left, kind_of};
ghost use Rattle.pages.specs.Page.{values as values_in};
ghost use Rattle.pages.specs.Writing.{AreShort, IsPageTooMuch, IsOfEntries};
ghost use Rattle.row_group.specs.inner.Copied.{IsCopied};
ghost use Rattle.row_group.specs.inner.Parts.{IsFirstPage, IsPart, part_weight, AreShortIn, AreForKind, HaveIndexes, AppendsParts, ArePartsTooMuch};

use crate::limits::MOST_BYTES_BEFORE_CHUNK;
use crate::options::ChunkOptions;
use bits::{R, Refusal};
use dictionary::Dictionary;
use pages::{Encoding, PageVersion, count_values, write_index_page, write_page, write_plain_page};
use plain::Values;
use schema::{EntryRef, Leaf};
use std::alloc::Global;

/// What the values of a chunk's pages are written as.
#[derive(Debug, Clone, Copy)]
pub(crate) enum PageValues<'a> {
    /// Values in an encoding.
    Encoded(Encoding),
    /// The indexes of values into a dictionary.
    Indexed(&'a Dictionary),
}

/// Writes the entries as pages of `page_rows` rows each, the last with the rest. Refused Limit before a
/// page that would begin after more than [`MOST_BYTES_BEFORE_CHUNK`] bytes. After a refusal whole pages may
/// stand after what was there.
pub(crate) fn put_pages(
    alloc: Global,
    leaf: &Leaf,
    options: ChunkOptions,
    values: PageValues<'_>,
    entries: &[EntryRef<'_>],
    out: &mut Vec<u8>,
) -> R<()>
    requires rows { 0 < options.page_rows }
    requires kind { AreForKind leaf.now.leaf_type.kind values }
    requires indexes { HaveIndexes values 0 (values_in (map entry_ref_view entries.now)) }
    ensures stands { let es = map entry_ref_view entries.now in
        OnOk result (AppendsParts (leaf_view leaf.now) options values.entry es out.old.items out.new.items) }
    ensures within_limits { OnOk result (AreShortIn values.entry (map entry_ref_view entries.now)) }
    ensures only { OnFault result (AllByRecursion (IsEntryOf (leaf_view leaf.now)) (map entry_ref_view entries.now) → ⊥) }
    ensures limit { result ≡ Err Refusal.Limit → ArePartsTooMuch (length out.old.items) options.page_rows values.entry (map entry_ref_view entries.now) }
    ensures which { RefusedOnly IsOfEntries result }
    ensures front { OnErr result (take (length out.old.items) out.new.items ≡ out.old.items) }
{
    let mut scratch = Vec::new(alloc);
    let (mut at, mut value) = (0, 0);
    while at < entries.len() {
        if out.len() > MOST_BYTES_BEFORE_CHUNK {
            return Err(Refusal::Limit);
        }
        let rest = entries.split_at(at).1;
        let size = first_page_len(rest, options.page_rows);
        let page = rest.split_at(size).0;
        value = put_page(
            alloc,
            leaf,
            options.page_version,
            values,
            value,
            page,
            &mut scratch,
            out,
        )?;
        at += size;
    }
    Ok(())
}

/// Writes the values of a leaf without levels as pages of `page_rows` values each, the last with the rest, as
/// [`put_pages`] writes their entries in PLAIN. The bytes of the values are copied as they are, and nothing is checked
/// of them. Refused Limit as `put_pages` is; after a refusal whole pages may stand after what was there.
pub(crate) fn put_plain_pages(
    alloc: Global,
    leaf: &Leaf,
    options: ChunkOptions,
    values: Values<'_>,
    out: &mut Vec<u8>,
) -> R<()>
    requires rows { 0 < options.page_rows }
    requires copied { IsCopied (leaf_view leaf.now) options.style (kind_of values) }
    ensures stands { let es = flat_entries (values_left values.entry) in AllByRecursion (IsEntryOf (leaf_view leaf.now)) es
        → OnOk result (AppendsParts (leaf_view leaf.now) options (PageValues.Encoded Encoding.Plain) es out.old.items out.new.items) }
    ensures within_limits { OnOk result (AreShort (flat_entries (values_left values.entry))) }
    ensures limit { let es = flat_entries (values_left values.entry) in result ≡ Err Refusal.Limit → AllByRecursion (IsEntryOf (leaf_view leaf.now)) es
        → ArePartsTooMuch (length out.old.items) options.page_rows (PageValues.Encoded Encoding.Plain) es }
    ensures which { RefusedOnly (λ e. e ≡ Refusal.Limit) result }
    ensures front { take (length out.old.items) out.new.items ≡ out.old.items }
{
    let mut left = values;
    while left.len() > 0 {
        if out.len() > MOST_BYTES_BEFORE_CHUNK {
            return Err(Refusal::Limit);
        }
        let count = left.len().min(options.page_rows as usize);
        let text = left.take_bytes(count)?;
        write_plain_page(alloc, leaf, options.page_version, count, text, out)?;
    }
    Ok(())
}

/// How many of these entries the first page has: those of the first `page_rows` rows, or all.
fn first_page_len(entries: &[EntryRef<'_>], page_rows: u32) -> usize
    requires rows { 0 < page_rows }
    requires some { 0 < length entries.now }
    ensures { IsFirstPage page_rows (map entry_ref_view entries.now) result }
{
    if entries.len() <= page_rows as usize {
        return entries.len();
    }
    let mut rows = 0;
    for (i, entry) in entries.iter().enumerate() {
        if entry.repetition == 0 {
            if rows == page_rows {
                return i;
            }
            rows += 1;
        }
    }
    entries.len()
}

/// Writes the entries as one page, and returns the index of the value after theirs, where they begin at
/// the value of index `at` among those that the dictionary was built from.
fn put_page(
    alloc: Global,
    leaf: &Leaf,
    version: PageVersion,
    values: PageValues<'_>,
    at: usize,
    entries: &[EntryRef<'_>],
    scratch: &mut Vec<u8>,
    out: &mut Vec<u8>,
) -> R<usize>
    requires kind { AreForKind leaf.now.leaf_type.kind values }
    requires indexes { (more : List ValueTree) × HaveIndexes values at (values_in (map entry_ref_view entries.now) ++ more) }
    ensures stands { let es = map entry_ref_view entries.now in
        OnOk result (Appends (λ bytes. IsPart (leaf_view leaf.now) version values.entry bytes es) (part_weight values.entry es) out.old.items out.new.items) }
    ensures next { let vs = values_in (map entry_ref_view entries.now) in
        IfOk result (λ next. (more : List ValueTree) → HaveIndexes values.entry at (vs ++ more) → HaveIndexes values.entry next more) }
    ensures within_limits { OnOk result (AreShortIn values.entry (map entry_ref_view entries.now)) }
    ensures only { OnFault result (AllByRecursion (IsEntryOf (leaf_view leaf.now)) (map entry_ref_view entries.now) → ⊥) }
    ensures limit { result ≡ Err Refusal.Limit → IsPageTooMuch (map entry_ref_view entries.now) }
    ensures which { RefusedOnly IsOfEntries result }
    ensures unchanged { OnErr result (out.new.items ≡ out.old.items) }
{
    match values {
        PageValues::Encoded(encoding) => {
            write_page(alloc, leaf, version, encoding, entries, scratch, out)?;
            Ok(at)
        }
        PageValues::Indexed(dictionary) => {
            let count = count_values(entries);
            let indexes = dictionary.indexes().split_at(at).1.split_at(count).0;
            let size = dictionary.entries().len();
            write_index_page(alloc, leaf, version, entries, indexes, size, scratch, out)?;
            Ok(at + count)
        }
    }
}
