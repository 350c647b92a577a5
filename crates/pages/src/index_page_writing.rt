//! From entries and their indexes into a dictionary to pages.

ghost use Rattle.std.specs.Prelude.{◌≡◌, ◌<◌, ◌≤◌, ◌+◌, All, [], map, length, OnOk, OnErr, Err};
ghost use Rattle.std.specs.List.{AllByRecursion};
ghost use Rattle.bits.specs.Refusals.{OnFault, RefusedOnly};
ghost use Rattle.bits.specs.Codec.{Appends};
ghost use Rattle.schema.specs.Borrowed.{entry_ref_view};
ghost use Rattle.schema.specs.Law.{IsEntryOf};
ghost use Rattle.schema.specs.Views.{leaf_view};
ghost use Rattle.pages.specs.declared.encoding.Encoding.TheVariants.{RleDictionary};
ghost use Rattle.pages.specs.Page.{values};
ghost use Rattle.pages.specs.Headers.{IsWrittenPage};
ghost use Rattle.pages.specs.WrittenValues.{AreIndexesIn};
ghost use Rattle.pages.specs.Writing.{index_weight, IsPageTooMuch, AreIndexesFor, StandsByIndexes, IsOfEntries};

use crate::encoding::Encoding;
use crate::header_writing::DataPageHead;
use crate::level_writing::put_sections;
use crate::page_version::PageVersion;
use crate::parts_writing::put_data_page;
use crate::written_entries::{check_entries, count_rows, count_values};
use bits::{R, Refusal};
use dictionary::encode_indexes;
use schema::{EntryRef, Leaf};
use std::alloc::Global;

/// Writes the entries at the end of `out` as one data page of a chunk of this leaf that has a dictionary of
/// `size` entries: as [`write_page`](crate::write_page) does, in the encoding RLE_DICTIONARY, each value as
/// its index into the dictionary. The page stands for the entries in each chunk whose dictionary has
/// their values at these indexes. It takes at most 1,024 bytes and 32 an entry.
///
/// Refused Levels or Value only where an entry is none of the leaf's, where there are more or fewer indexes
/// than values, or where an index is past the dictionary's end. Refused Limit only where the page weighs
/// more than [`MOST_BYTES_OF_PAGE`](crate::MOST_BYTES_OF_PAGE). After a refusal `out` is unchanged.
/// `scratch` is empty after each result, as after `write_page`.
pub fn write_index_page(
    alloc: Global,
    leaf: &Leaf,
    version: PageVersion,
    entries: &[EntryRef<'_>],
    indexes: &[u32],
    size: usize,
    scratch: &mut Vec<u8>,
    out: &mut Vec<u8>,
) -> R<()>
    ensures stands { let es = map entry_ref_view entries.now in
        OnOk result (Appends (StandsByIndexes (leaf_view leaf.now) size indexes.now es) (index_weight (length es)) out.old.items out.new.items) }
    ensures written { let es = map entry_ref_view entries.now in
        OnOk result (Appends (IsWrittenPage (leaf_view leaf.now) version RleDictionary (AreIndexesIn size indexes.now) es)
        (index_weight (length es)) out.old.items out.new.items) }
    ensures entries { OnOk result (AllByRecursion (IsEntryOf (leaf_view leaf.now)) (map entry_ref_view entries.now)) }
    ensures indexes { OnOk result (AreIndexesFor size indexes.now (map entry_ref_view entries.now)) }
    ensures size { OnOk result (length out.new.items ≤ length out.old.items + 2147484671) }
    ensures only { OnFault result (AreIndexesFor size indexes.now (map entry_ref_view entries.now)
        → AllByRecursion (IsEntryOf (leaf_view leaf.now)) (map entry_ref_view entries.now) → ⊥) }
    ensures limit { result ≡ Err Refusal.Limit → IsPageTooMuch (map entry_ref_view entries.now) }
    ensures which { RefusedOnly IsOfEntries result }
    ensures unchanged { OnErr result (out.new.items ≡ out.old.items) }
    ensures emptied { scratch.new.items ≡ [] }
{
    scratch.clear();
    check_entries(leaf, entries)?;
    if count_values(entries) != indexes.len() {
        return Err(Refusal::Value);
    }
    let done = put_entries(alloc, leaf, version, entries, indexes, size, scratch, out);
    scratch.clear();
    done
}

/// Writes the entries, which are the leaf's, by an index for each of their values.
fn put_entries(
    alloc: Global,
    leaf: &Leaf,
    version: PageVersion,
    entries: &[EntryRef<'_>],
    indexes: &[u32],
    size: usize,
    scratch: &mut Vec<u8>,
    out: &mut Vec<u8>,
) -> R<()>
    requires entries { AllByRecursion (IsEntryOf (leaf_view leaf.now)) (map entry_ref_view entries.now) }
    requires count { length indexes.now ≡ length (values (map entry_ref_view entries.now)) }
    requires few { length indexes.now ≤ length entries.now }
    ensures written { let es = map entry_ref_view entries.now in
        OnOk result (Appends (IsWrittenPage (leaf_view leaf.now) version RleDictionary (AreIndexesIn size indexes.now) es)
        (index_weight (length es)) out.old.items out.new.items) }
    ensures indexes { OnOk result (AreIndexesFor size indexes.now (map entry_ref_view entries.now)) }
    ensures size { OnOk result (length out.new.items ≤ length out.old.items + 2147484671) }
    ensures only { OnFault result (AreIndexesFor size indexes.now (map entry_ref_view entries.now)
        → AllByRecursion (IsEntryOf (leaf_view leaf.now)) (map entry_ref_view entries.now) → ⊥) }
    ensures limit { result ≡ Err Refusal.Limit → IsPageTooMuch (map entry_ref_view entries.now) }
    ensures which { RefusedOnly IsOfEntries result }
    ensures unchanged { OnErr result (out.new.items ≡ out.old.items) }
{
    let sections = put_sections(alloc, leaf, entries, scratch)?;
    encode_indexes(size, indexes, scratch)?;
    let head = DataPageHead {
        version,
        encoding: Encoding::RleDictionary,
        entries: entries.len(),
        nulls: entries.len() - indexes.len(),
        rows: count_rows(entries),
    };
    put_data_page(alloc, leaf, head, sections, scratch.as_slice(), out)
}
