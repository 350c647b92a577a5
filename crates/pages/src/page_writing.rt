//! From entries to pages.

ghost use Rattle.std.specs.Prelude.{◌≡◌, ◌⊎◌, ◌<◌, ◌≤◌, ◌+◌, All, [], map, length, OnOk, OnErr, Err};
ghost use Rattle.std.specs.List.{Any, AllByRecursion};
ghost use Rattle.bits.specs.Refusals.{OnFault, RefusedOnly};
ghost use Rattle.bits.specs.Codec.{Appends};
ghost use Rattle.schema.specs.Borrowed.{value_ref_view, entry_ref_view};
ghost use Rattle.schema.specs.Law.{IsEntryOf};
ghost use Rattle.schema.specs.Views.{leaf_view};
ghost use Rattle.plain.specs.Plain.{IsOfKind, IsTooLong};
ghost use Rattle.pages.specs.Page.{values as values_in};
ghost use Rattle.pages.specs.Headers.{IsWrittenPage};
ghost use Rattle.pages.specs.WrittenValues.{AreValuesIn};
ghost use Rattle.pages.specs.Writing.{page_weight, AreShort, IsPageTooMuch, IsEncodingFor, StandsAsPage, IsOfWriting};
ghost use Rattle.pages.specs.inner.Put.{IsOfValueWriting, IsOfPageWriting};

use crate::encoding::Encoding;
use crate::header_writing::DataPageHead;
use crate::level_writing::put_sections;
use crate::page_version::PageVersion;
use crate::parts_writing::put_data_page;
use crate::plain_page_writing::{has_known_size, put_plain_page};
use crate::value_writing::put_values;
use crate::written_entries::{check_entries, count_rows, values_of};
use bits::{R, Refusal};
use plain::what_is_of_a_kind_fits_it;
use schema::{EntryRef, Leaf, ValueRef};
use std::alloc::Global;

/// Writes the entries at the end of `out` as one data page of a chunk of this leaf: a page header and the
/// body, which is a section of repetition levels, one of definition levels, and the values of the
/// entries that have one. (parquet-format, README.md, "Data Pages".)
///
/// Levels are in the encoding RLE, as few bits each as the leaf's greatest level has; a section whose greatest
/// level is 0 is absent. No statistics, no checksum and no compression are written, and no field that is
/// not the header's. `scratch` is a buffer for the work. After each result, a refusal too, it is empty and
/// keeps its room for the next page. The time is linear in the entries and the bytes of their values.
///
/// Refused Levels or Value only where an entry is none of the leaf's: a level is above its greatest, or a
/// value is missing, is there and should not be, or does not fit. Refused Encoding only where values of
/// the leaf's type are not written in this encoding: PLAIN is for all types, RLE for BOOLEAN,
/// DELTA_BINARY_PACKED for INT32 and INT64, DELTA_LENGTH_BYTE_ARRAY for BYTE_ARRAY, DELTA_BYTE_ARRAY for
/// both types of bytes, and BYTE_STREAM_SPLIT for INT32, INT64 and FIXED_LEN_BYTE_ARRAY; in another one no
/// page is written. Refused Limit only where a value has more than 16 MiB, or where the page
/// weighs more than [`MOST_BYTES_OF_PAGE`](crate::MOST_BYTES_OF_PAGE). After a refusal `out` is unchanged.
pub fn write_page(
    alloc: Global,
    leaf: &Leaf,
    version: PageVersion,
    encoding: Encoding,
    entries: &[EntryRef<'_>],
    scratch: &mut Vec<u8>,
    out: &mut Vec<u8>,
) -> R<()>
    ensures stands { let es = map entry_ref_view entries.now in
        OnOk result (Appends (StandsAsPage (leaf_view leaf.now) es) (page_weight es) out.old.items out.new.items) }
    ensures written { let es = map entry_ref_view entries.now in
        OnOk result (Appends (IsWrittenPage (leaf_view leaf.now) version encoding (AreValuesIn leaf.now.leaf_type.kind encoding (values_in es)) es)
        (page_weight es) out.old.items out.new.items) }
    ensures within_limits { OnOk result (AreShort (map entry_ref_view entries.now)) }
    ensures entries { OnOk result (AllByRecursion (IsEntryOf (leaf_view leaf.now)) (map entry_ref_view entries.now)) }
    ensures encoding { OnOk result (IsEncodingFor leaf.now.leaf_type.kind encoding) }
    ensures size { OnOk result (length out.new.items ≤ length out.old.items + 2147484671) }
    ensures only { OnFault result (IsEncodingFor leaf.now.leaf_type.kind encoding
        → AllByRecursion (IsEntryOf (leaf_view leaf.now)) (map entry_ref_view entries.now) → ⊥) }
    ensures limit { result ≡ Err Refusal.Limit → IsPageTooMuch (map entry_ref_view entries.now) }
    ensures which { RefusedOnly (IsOfWriting leaf.now.leaf_type.kind encoding) result }
    ensures unchanged { OnErr result (out.new.items ≡ out.old.items) }
    ensures emptied { scratch.new.items ≡ [] }
{
    what_is_of_a_kind_fits_it();
    scratch.clear();
    check_entries(leaf, entries)?;
    if has_known_size(leaf, encoding) {
        return put_full_entries(alloc, leaf, version, encoding, entries, out);
    }
    let values = values_of(alloc, entries)?;
    let done = put_entries(
        alloc,
        leaf,
        version,
        encoding,
        entries,
        values.as_slice(),
        scratch,
        out,
    );
    scratch.clear();
    done
}

/// Writes entries without levels in PLAIN: each begins a row and has a value, which is written from where it
/// lies.
fn put_full_entries(
    alloc: Global,
    leaf: &Leaf,
    version: PageVersion,
    encoding: Encoding,
    entries: &[EntryRef<'_>],
    out: &mut Vec<u8>,
) -> R<()>
    requires entries { AllByRecursion (IsEntryOf (leaf_view leaf.now)) (map entry_ref_view entries.now) }
    requires of_kind { All (IsOfKind leaf.now.leaf_type.kind) (values_in (map entry_ref_view entries.now)) }
    requires encoding { encoding ≡ Encoding.Plain }
    requires repetition { leaf.now.greatest_repetition ≡ 0 }
    requires definition { leaf.now.greatest_definition ≡ 0 }
    ensures written { let es = map entry_ref_view entries.now in
        OnOk result (Appends (IsWrittenPage (leaf_view leaf.now) version encoding (AreValuesIn leaf.now.leaf_type.kind encoding (values_in es)) es)
        (page_weight es) out.old.items out.new.items) }
    ensures within_limits { OnOk result (Any IsTooLong (values_in (map entry_ref_view entries.now)) → ⊥) }
    ensures encoding { OnOk result (IsEncodingFor leaf.now.leaf_type.kind encoding) }
    ensures size { OnOk result (length out.new.items ≤ length out.old.items + 2147484671) }
    ensures which { RefusedOnly (IsOfPageWriting leaf.now.leaf_type.kind encoding (map entry_ref_view entries.now)) result }
    ensures unchanged { OnErr result (out.new.items ≡ out.old.items) }
{
    let head = DataPageHead {
        version,
        encoding,
        entries: entries.len(),
        nulls: 0,
        rows: entries.len(),
    };
    put_plain_page(alloc, leaf, head, entries, out)
}

/// Writes the entries, which are the leaf's and have these values.
fn put_entries(
    alloc: Global,
    leaf: &Leaf,
    version: PageVersion,
    encoding: Encoding,
    entries: &[EntryRef<'_>],
    values: &[ValueRef<'_>],
    scratch: &mut Vec<u8>,
    out: &mut Vec<u8>,
) -> R<()>
    requires entries { AllByRecursion (IsEntryOf (leaf_view leaf.now)) (map entry_ref_view entries.now) }
    requires values { map value_ref_view values.now ≡ values_in (map entry_ref_view entries.now) }
    requires few { length values.now ≤ length entries.now }
    requires of_kind { All (IsOfKind leaf.now.leaf_type.kind) (map value_ref_view values.now) }
    ensures written { let es = map entry_ref_view entries.now in
        OnOk result (Appends (IsWrittenPage (leaf_view leaf.now) version encoding (AreValuesIn leaf.now.leaf_type.kind encoding (values_in es)) es)
        (page_weight es) out.old.items out.new.items) }
    ensures within_limits { OnOk result (Any IsTooLong (map value_ref_view values.now) → ⊥) }
    ensures encoding { OnOk result (IsEncodingFor leaf.now.leaf_type.kind encoding) }
    ensures size { OnOk result (length out.new.items ≤ length out.old.items + 2147484671) }
    ensures which { RefusedOnly (IsOfPageWriting leaf.now.leaf_type.kind encoding (map entry_ref_view entries.now)) result }
    ensures unchanged { OnErr result (out.new.items ≡ out.old.items) }
{
    let head = DataPageHead {
        version,
        encoding,
        entries: entries.len(),
        nulls: entries.len() - values.len(),
        rows: count_rows(entries),
    };
    let sections = put_sections(alloc, leaf, entries, scratch)?;
    put_values(alloc, leaf.leaf_type.kind, encoding, values, scratch)?;
    put_data_page(alloc, leaf, head, sections, scratch.as_slice(), out)
}
