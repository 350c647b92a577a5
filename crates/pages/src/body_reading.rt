//! The bodies of pages.

ghost use Rattle.std.specs.Prelude.{◌≡◌, ◌≤◌, ℕ, pos, List, map, length, IfOk, OnOk, Err};
ghost use Rattle.bits.specs.Refusals.{OnFault, RefusedOnly};
ghost use Rattle.schema.specs.Borrowed.{value_ref_view};
ghost use Rattle.schema.specs.Stripe.{Entry};
ghost use Rattle.schema.specs.Values.{ValueTree};
ghost use Rattle.schema.specs.Views.{leaf_view};
ghost use Rattle.metadata.specs.Views.{data_page_header_view, data_page_header_v2_view, dictionary_page_header_view};
ghost use Rattle.pages.specs.Left.{levels_of, entries_left};
ghost use Rattle.pages.specs.Limits.{IsValueOver, full, IsOfPages};
ghost use Rattle.pages.specs.Page.{IsBodyV1, IsBodyV2, IsDictionaryBody};
ghost use Rattle.pages.specs.Views.{dictionary_view};
ghost use Rattle.pages.specs.inner.Reading.{AreWithin, AreEntries, IsDataOver, IsDataOverV2, IsDictionaryOver, RuledOut};

use crate::data_page::DataPage;
use crate::encoding::Encoding;
use crate::level_list::LevelList;
use crate::level_reading::{read_levels_v1, read_levels_v2};
use crate::standing::Standing;
use crate::value_reading::read_values;
use bits::{R, Refusal};
use metadata::{DataPageHeader, DataPageHeaderV2, DictionaryPageHeader};
use plain::decode_to;
use schema::{Kind, Leaf, ValueRef};
use std::alloc::Global;

/// The entries of a page of version 1, at most `left`. Where they are known to stand, values in PLAIN are
/// not checked.
pub fn read_data_page_v1<'a>(
    alloc: Global,
    header: &DataPageHeader,
    body: &'a [u8],
    leaf: &Leaf,
    dictionary: Option<&[ValueRef<'a>]>,
    left: usize,
    standing: Standing,
) -> R<DataPage<'a>>
    requires stood { let d = dictionary_view dictionary in
        RuledOut standing ((es : List Entry) → IsBodyV1 (leaf_view leaf.now) d (data_page_header_view header.now) body.now es → length es ≤ left → ⊥) }
    requires known_within_limits { RuledOut standing (IsDataOver (leaf_view leaf.now) (data_page_header_view header.now) body.now) }
    ensures stands { let d = dictionary_view dictionary.entry in
        IfOk result (λ p. IsBodyV1 (leaf_view leaf.now) d (data_page_header_view header.now) body.now (entries_left p)) }
    ensures at_most_left { IfOk result (λ p. length (entries_left p) ≤ left) }
    ensures within_limits { OnOk result (IsDataOver (leaf_view leaf.now) (data_page_header_view header.now) body.now → ⊥) }
    ensures only { let d = dictionary_view dictionary.entry in
        OnFault result ((es : List Entry) → IsBodyV1 (leaf_view leaf.now) d (data_page_header_view header.now) body.now es → length es ≤ left → ⊥) }
    ensures limit { result ≡ Err Refusal.Limit → IsDataOver (leaf_view leaf.now) (data_page_header_view header.now) body.now }
    ensures which { RefusedOnly IsOfPages result }
{
    hybrid_rle::one_list();
    let count = checked_count(header.num_values, left)?;
    let (repetitions, definitions, text) = read_levels_v1(alloc, header, body, leaf, count)?;
    let encoding = Encoding::of_number(header.encoding);
    read_entries(
        alloc,
        encoding,
        leaf,
        dictionary,
        repetitions,
        definitions,
        text,
        standing,
    )
}

/// The entries of a page of version 2, at most `left`. Where they are known to stand, values in PLAIN are
/// not checked.
pub fn read_data_page_v2<'a>(
    alloc: Global,
    header: &DataPageHeaderV2,
    body: &'a [u8],
    leaf: &Leaf,
    dictionary: Option<&[ValueRef<'a>]>,
    left: usize,
    standing: Standing,
) -> R<DataPage<'a>>
    requires stood { let d = dictionary_view dictionary in
        RuledOut standing ((es : List Entry) → IsBodyV2 (leaf_view leaf.now) d (data_page_header_v2_view header.now) body.now es → length es ≤ left → ⊥) }
    requires known_within_limits { RuledOut standing (IsDataOverV2 (leaf_view leaf.now) (data_page_header_v2_view header.now) body.now) }
    ensures stands { let d = dictionary_view dictionary.entry in
        IfOk result (λ p. IsBodyV2 (leaf_view leaf.now) d (data_page_header_v2_view header.now) body.now (entries_left p)) }
    ensures at_most_left { IfOk result (λ p. length (entries_left p) ≤ left) }
    ensures within_limits { OnOk result (IsDataOverV2 (leaf_view leaf.now) (data_page_header_v2_view header.now) body.now → ⊥) }
    ensures only { let d = dictionary_view dictionary.entry in
        OnFault result ((es : List Entry) → IsBodyV2 (leaf_view leaf.now) d (data_page_header_v2_view header.now) body.now es → length es ≤ left → ⊥) }
    ensures limit { result ≡ Err Refusal.Limit → IsDataOverV2 (leaf_view leaf.now) (data_page_header_v2_view header.now) body.now }
    ensures which { RefusedOnly IsOfPages result }
{
    hybrid_rle::one_list();
    let count = checked_count(header.num_values, left)?;
    let (repetitions, definitions, text) = read_levels_v2(alloc, header, body, leaf, count)?;
    let encoding = Encoding::of_number(header.encoding);
    read_entries(
        alloc,
        encoding,
        leaf,
        dictionary,
        repetitions,
        definitions,
        text,
        standing,
    )
}

/// The values of a dictionary page.
pub fn read_dictionary<'a>(
    alloc: Global,
    header: &DictionaryPageHeader,
    kind: Kind,
    body: &'a [u8],
) -> R<Vec<ValueRef<'a>>>
    ensures stands { IfOk result (λ vs. IsDictionaryBody kind (dictionary_page_header_view header.now) body.now (map value_ref_view vs.items)) }
    ensures within_limits { OnOk result (IsDictionaryOver kind (dictionary_page_header_view header.now) body.now → ⊥) }
    ensures only { OnFault result ((vs : List ValueTree) → IsDictionaryBody kind (dictionary_page_header_view header.now) body.now vs → ⊥) }
    ensures limit { result ≡ Err Refusal.Limit → IsDictionaryOver kind (dictionary_page_header_view header.now) body.now }
    ensures which { RefusedOnly IsOfPages result }
{
    let Ok(count) = usize::try_from(header.num_values) else {
        return Err(Refusal::Page);
    };
    if header.encoding != PLAIN && header.encoding != PLAIN_DICTIONARY {
        return Err(Refusal::Encoding);
    }
    let (values, _) = decode_to::<ValueRef<'a>>(alloc, kind, body, count)?;
    Ok(values)
}

/// How many entries a page has. Refused Page where that is below 0 or above `left`.
fn checked_count(number: i32, left: usize) -> R<usize>
    ensures stands { IfOk result (λ count. number ≡ pos count) }
    ensures at_most_left { IfOk result (λ count. count ≤ left) }
    ensures only { OnFault result ((count : ℕ) → number ≡ pos count → count ≤ left → ⊥) }
    ensures which { RefusedOnly (λ e. e ≡ Refusal.Page) result }
{
    match usize::try_from(number) {
        Ok(count) if count <= left => Ok(count),
        _ => Err(Refusal::Page),
    }
}

/// The number of the encoding PLAIN (`parquet.thrift`, Encoding).
const PLAIN: i32 = 0;

/// The number of the encoding PLAIN_DICTIONARY, which is PLAIN in a dictionary page.
const PLAIN_DICTIONARY: i32 = 2;

/// The entries of these levels. Those at the greatest definition level have the values of the bytes, which
/// are not checked where they are known to stand in PLAIN.
fn read_entries<'a>(
    alloc: Global,
    encoding: Option<Encoding>,
    leaf: &Leaf,
    dictionary: Option<&[ValueRef<'a>]>,
    repetitions: LevelList,
    definitions: LevelList,
    bytes: &'a [u8],
    standing: Standing,
) -> R<DataPage<'a>>
    requires within { AreWithin (leaf_view leaf.now) (levels_of repetitions) (levels_of definitions) }
    requires paired { length (levels_of repetitions) ≡ length (levels_of definitions) }
    requires stood { let d = dictionary_view dictionary in
        RuledOut standing ((es : List Entry) → AreEntries (leaf_view leaf.now) d encoding bytes.now (levels_of repetitions) (levels_of definitions) es → ⊥) }
    requires known_within_limits { let n = full (leaf_view leaf.now) (levels_of definitions) in
        RuledOut standing (IsValueOver leaf.now.leaf_type.kind encoding bytes.now n) }
    ensures stands { let d = dictionary_view dictionary.entry in
        IfOk result (λ p. AreEntries (leaf_view leaf.now) d encoding bytes.now (levels_of repetitions) (levels_of definitions) (entries_left p)) }
    ensures within_limits { OnOk result (IsValueOver leaf.now.leaf_type.kind encoding bytes.now (full (leaf_view leaf.now) (levels_of definitions)) → ⊥) }
    ensures only { let d = dictionary_view dictionary.entry in
        OnFault result ((es : List Entry) → AreEntries (leaf_view leaf.now) d encoding bytes.now (levels_of repetitions) (levels_of definitions) es → ⊥) }
    ensures limit { result ≡ Err Refusal.Limit → IsValueOver leaf.now.leaf_type.kind encoding bytes.now (full (leaf_view leaf.now) (levels_of definitions)) }
    ensures which { RefusedOnly IsOfPages result }
{
    let greatest = leaf.greatest_definition;
    let count = definitions.count_of(greatest);
    let leaf_type = &leaf.leaf_type;
    let values = read_values(
        alloc, encoding, leaf_type, dictionary, bytes, count, standing,
    )?;
    Ok(DataPage::of(greatest, repetitions, definitions, values))
}
