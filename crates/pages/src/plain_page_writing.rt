//! PLAIN pages without levels, whose size is known before their values are written.

ghost use Rattle.std.specs.Prelude.{◌≡◌, ◌⊎◌, ◌<◌, ◌≤◌, ◌+◌, All, List, [], map, length, take, true, OnOk, OnErr, Err};
ghost use Rattle.std.specs.List.{Any};
ghost use Rattle.bits.specs.Refusals.{RefusedOnly};
ghost use Rattle.bits.specs.Codec.{Appends};
ghost use Rattle.schema.specs.Values.{ValueTree};
ghost use Rattle.schema.specs.Views.{leaf_view};
ghost use Rattle.plain.specs.Flat.{flat_entries};
ghost use Rattle.pages.specs.PlainBytes.{FillPlain};
ghost use Rattle.pages.specs.Greatest.{most_of_page};
ghost use Rattle.pages.specs.Headers.{IsWrittenPage};
ghost use Rattle.pages.specs.WrittenValues.{AreValuesIn};
ghost use Rattle.pages.specs.Writing.{page_weight, IsPageTooMuch, StandsAsPage};
ghost use Rattle.plain.specs.Plain.{IsOfKind, IsTooLong};
ghost use Rattle.pages.specs.inner.Put.{IsDataPage, IsPlainDataPage, IsOfPlainWriting};

use crate::encoding::Encoding;
use crate::header_writing::{DataPageHead, SectionSizes, put_data_header};
use crate::page_version::PageVersion;
use bits::{R, Refusal};
use metadata::page_header_again;
use plain::{Lends, encode_fitting, fitting_size};
use schema::Leaf;
use std::alloc::Global;

/// Writes values at the end of `out` as one data page of a chunk of this leaf, which has no levels: `text` is `count`
/// values in PLAIN, and each is that of an entry with both levels 0. The page is as [`write_page`](crate::write_page)
/// writes it of these entries; the bytes are copied as they are, and nothing is checked of them.
///
/// Refused Limit only where the page weighs more than [`MOST_BYTES_OF_PAGE`](crate::MOST_BYTES_OF_PAGE). After a
/// refusal `out` is unchanged.
pub fn write_plain_page(
    alloc: Global,
    leaf: &Leaf,
    version: PageVersion,
    count: usize,
    text: &[u8],
    out: &mut Vec<u8>,
) -> R<()>
    requires repetition { leaf.now.greatest_repetition ≡ 0 }
    requires definition { leaf.now.greatest_definition ≡ 0 }
    ensures stands { (vs : List ValueTree) → FillPlain (leaf_view leaf.now) count vs text.now → let es = flat_entries vs in
        OnOk result (Appends (StandsAsPage (leaf_view leaf.now) es) (page_weight es) out.old.items out.new.items) }
    ensures written { (vs : List ValueTree) → FillPlain (leaf_view leaf.now) count vs text.now → let es = flat_entries vs in
        OnOk result (Appends (IsWrittenPage (leaf_view leaf.now) version Encoding.Plain (AreValuesIn leaf.now.leaf_type.kind Encoding.Plain vs) es)
        (page_weight es) out.old.items out.new.items) }
    ensures size { OnOk result (length out.new.items ≤ length out.old.items + 2147484671) }
    ensures front { OnOk result (take (length out.old.items) out.new.items ≡ out.old.items) }
    ensures limit { result ≡ Err Refusal.Limit → (vs : List ValueTree) → FillPlain (leaf_view leaf.now) count vs text.now → IsPageTooMuch (flat_entries vs) }
    ensures which { RefusedOnly (λ e. e ≡ Refusal.Limit) result }
    ensures unchanged { OnErr result (out.new.items ≡ out.old.items) }
{
    let head = DataPageHead {
        version,
        encoding: Encoding::Plain,
        entries: count,
        nulls: 0,
        rows: count,
    };
    put_copied_page(alloc, leaf, head, text, out)
}

/// Writes a page whose values are these bytes at the end: its header, and a copy of the bytes. Refused Limit
/// exactly when there are more bytes, or more entries, than an i32 holds. After a refusal `out` is unchanged.
fn put_copied_page(
    alloc: Global,
    leaf: &Leaf,
    head: DataPageHead,
    text: &[u8],
    out: &mut Vec<u8>,
) -> R<()>
    requires nulls { head.nulls ≤ head.entries }
    requires rows { head.rows ≤ head.entries }
    requires repetition { leaf.now.greatest_repetition ≡ 0 }
    requires definition { leaf.now.greatest_definition ≡ 0 }
    ensures stands { OnOk result (IsDataPage (leaf_view leaf.now) head [] [] text.now out.old.items out.new.items) }
    ensures limit { result ≡ Err Refusal.Limit → (most_of_page < length text.now) ⊎ (most_of_page < head.entries) }
    ensures which { RefusedOnly (λ e. e ≡ Refusal.Limit) result }
    ensures unchanged { OnErr result (out.new.items ≡ out.old.items) }
{
    page_header_again();
    let none = SectionSizes {
        repetitions: 0,
        definitions: 0,
    };
    let kept = out.len();
    put_data_header(alloc, head, text.len(), none, out)?;
    match out.extend_from_slice(text) {
        Ok(()) => Ok(()),
        Err(_) => {
            out.truncate(kept);
            Err(Refusal::Memory)
        }
    }
}

/// Whether a page's size is known before its values are written: they are PLAIN, without levels.
pub(crate) fn has_known_size(leaf: &Leaf, encoding: Encoding) -> bool
    ensures encoding { result ≡ true → encoding ≡ Encoding.Plain }
    ensures repetition { result ≡ true → leaf.now.greatest_repetition ≡ 0 }
    ensures definition { result ≡ true → leaf.now.greatest_definition ≡ 0 }
{
    match encoding {
        Encoding::Plain => leaf.greatest_repetition == 0 && leaf.greatest_definition == 0,
        _ => false,
    }
}

/// Writes a page of these values at the end: its header, and then the values where they belong. After
/// a refusal `out` is unchanged.
pub(crate) fn put_plain_page<V: Lends>(
    alloc: Global,
    leaf: &Leaf,
    head: DataPageHead,
    values: &[V],
    out: &mut Vec<u8>,
) -> R<()>
    requires nulls { head.nulls ≤ head.entries }
    requires rows { head.rows ≤ head.entries }
    requires repetition { leaf.now.greatest_repetition ≡ 0 }
    requires definition { leaf.now.greatest_definition ≡ 0 }
    requires of_kind { All (IsOfKind leaf.now.leaf_type.kind) (map V.lent values.now) }
    ensures stands { OnOk result (IsPlainDataPage (leaf_view leaf.now) head (map V.lent values.now) out.old.items out.new.items) }
    ensures within_limits { OnOk result (Any IsTooLong (map V.lent values.now) → ⊥) }
    ensures which { RefusedOnly (IsOfPlainWriting head.entries (map V.lent values.now)) result }
    ensures unchanged { OnErr result (out.new.items ≡ out.old.items) }
{
    let kept = out.len();
    let done = put_header_and_values(alloc, leaf, head, values, out);
    if done.is_err() {
        out.truncate(kept);
    }
    done
}

/// Writes the header and the values; where it is refused, the header may stand there.
fn put_header_and_values<V: Lends>(
    alloc: Global,
    leaf: &Leaf,
    head: DataPageHead,
    values: &[V],
    out: &mut Vec<u8>,
) -> R<()>
    requires nulls { head.nulls ≤ head.entries }
    requires rows { head.rows ≤ head.entries }
    requires repetition { leaf.now.greatest_repetition ≡ 0 }
    requires definition { leaf.now.greatest_definition ≡ 0 }
    requires of_kind { All (IsOfKind leaf.now.leaf_type.kind) (map V.lent values.now) }
    ensures stands { OnOk result (IsPlainDataPage (leaf_view leaf.now) head (map V.lent values.now) out.old.items out.new.items) }
    ensures within_limits { OnOk result (Any IsTooLong (map V.lent values.now) → ⊥) }
    ensures which { RefusedOnly (IsOfPlainWriting head.entries (map V.lent values.now)) result }
    ensures front { OnErr result (take (length out.old.items) out.new.items ≡ out.old.items) }
{
    page_header_again();
    let none = SectionSizes {
        repetitions: 0,
        definitions: 0,
    };
    let size = fitting_size(leaf.leaf_type.kind, values)?;
    put_data_header(alloc, head, size, none, out)?;
    encode_fitting(leaf.leaf_type.kind, values, size, out)
}
