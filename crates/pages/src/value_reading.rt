//! The values of a data page, by their encoding.

ghost use Rattle.std.specs.Prelude.{◌≡◌, ◌==◌, ℕ, All, List, length, map, IfOk, OnOk, Some, Err};
ghost use Rattle.bits.specs.Refusals.{OnFault, RefusedOnly, RefusedMemoryOnly};
ghost use Rattle.schema.specs.Borrowed.{value_ref_view};
ghost use Rattle.schema.specs.Values.{ValueTree, boolean, integer};
ghost use Rattle.schema.specs.Views.{leaf_type_view};
ghost use Rattle.plain.specs.Plain.{IsOfKind};
ghost use Rattle.pages.specs.Left.{values_left};
ghost use Rattle.pages.specs.Limits.{IsValueOver, IsOfPages};
ghost use Rattle.pages.specs.Views.{dictionary_view};
ghost use Rattle.pages.specs.inner.Reading.{AreLeafValues, AreSpelled, StandInAnyChunk, StandInNoChunk, RuledOut, IsOfValuePages};

use crate::encoding::Encoding;
use crate::indexed_values::read_indexed;
use crate::level_reading::split_prefixed;
use crate::page_values::PageValues;
use crate::plain_values::read_plain;
use crate::shared_values::read_shared;
use crate::split_values::read_split;
use crate::standing::Standing;
use crate::value_checks::check_values;
use bits::{R, Refusal};
use delta::{decode_i32, decode_i64, decode_lengths, one_byte_list};
use plain::what_is_of_a_kind_fits_it;
use schema::{Kind, LeafType, ValueRef};
use std::alloc::Global;

/// The first `count` values of the bytes, in a chunk that has this dictionary. Where `count` is 0 neither
/// the encoding nor the bytes are looked at. Where they are known to stand, those in PLAIN are not checked.
pub fn read_values<'a>(
    alloc: Global,
    encoding: Option<Encoding>,
    leaf_type: &LeafType,
    dictionary: Option<&[ValueRef<'a>]>,
    bytes: &'a [u8],
    count: usize,
    standing: Standing,
) -> R<PageValues<'a>>
    requires stood { let d = dictionary_view dictionary in
        RuledOut standing ((ws : List ValueTree) → AreSpelled d (leaf_type_view leaf_type.now) encoding bytes.now count ws → ⊥) }
    requires known_within_limits { RuledOut standing (IsValueOver leaf_type.now.kind encoding bytes.now count) }
    ensures stands { let d = dictionary_view dictionary.entry in
        IfOk result (λ vs. AreSpelled d (leaf_type_view leaf_type.now) encoding bytes.now count (values_left vs)) }
    ensures within_limits { OnOk result (IsValueOver leaf_type.now.kind encoding bytes.now count → ⊥) }
    ensures only { let d = dictionary_view dictionary.entry in
        OnFault result ((ws : List ValueTree) → AreSpelled d (leaf_type_view leaf_type.now) encoding bytes.now count ws → ⊥) }
    ensures limit { result ≡ Err Refusal.Limit → IsValueOver leaf_type.now.kind encoding bytes.now count }
    ensures which { RefusedOnly IsOfPages result }
{
    if count == 0 {
        return Ok(PageValues::of(Vec::new(alloc)));
    }
    match encoding {
        None => Err(Refusal::Encoding),
        Some(Encoding::Plain) => read_plain(leaf_type, bytes, count, standing),
        Some(Encoding::DeltaByteArray) => read_shared(alloc, leaf_type, bytes, count),
        Some(Encoding::ByteStreamSplit) => read_split(alloc, leaf_type, bytes, count),
        Some(encoding) => {
            let values = read_listed(alloc, encoding, leaf_type, dictionary, bytes, count)?;
            Ok(PageValues::of(values))
        }
    }
}

/// The values by an encoding whose values are held in a list.
fn read_listed<'a>(
    alloc: Global,
    encoding: Encoding,
    leaf_type: &LeafType,
    dictionary: Option<&[ValueRef<'a>]>,
    bytes: &'a [u8],
    count: usize,
) -> R<Vec<ValueRef<'a>>>
    requires not_plain { encoding ≡ Encoding.Plain → ⊥ }
    requires not_shared { encoding ≡ Encoding.DeltaByteArray → ⊥ }
    requires not_split { encoding ≡ Encoding.ByteStreamSplit → ⊥ }
    ensures stands { let d = dictionary_view dictionary.entry in
        IfOk result (λ vs. AreLeafValues d (leaf_type_view leaf_type.now) (Some encoding) bytes.now count (map value_ref_view vs.items)) }
    ensures within_limits { OnOk result (IsValueOver leaf_type.now.kind (Some encoding) bytes.now count → ⊥) }
    ensures only { let d = dictionary_view dictionary.entry in
        OnFault result ((ws : List ValueTree) → AreLeafValues d (leaf_type_view leaf_type.now) (Some encoding) bytes.now count ws → ⊥) }
    ensures limit { result ≡ Err Refusal.Limit → IsValueOver leaf_type.now.kind (Some encoding) bytes.now count }
    ensures which { RefusedOnly IsOfPages result }
{
    match encoding {
        Encoding::Rle => read_booleans(alloc, leaf_type, bytes, count),
        Encoding::PlainDictionary | Encoding::RleDictionary => {
            read_indexed(alloc, leaf_type, dictionary, bytes, count)
        }
        Encoding::DeltaBinaryPacked => read_numbers(alloc, leaf_type, bytes, count),
        Encoding::DeltaLengthByteArray => read_by_lengths(alloc, leaf_type, bytes, count),
        Encoding::Plain
        | Encoding::BitPacked
        | Encoding::ByteStreamSplit
        | Encoding::DeltaByteArray => Err(Refusal::Encoding),
    }
}

/// Booleans in RLE: the hybrid of width 1, after its length in four bytes.
fn read_booleans<'a>(
    alloc: Global,
    leaf_type: &LeafType,
    bytes: &'a [u8],
    count: usize,
) -> R<Vec<ValueRef<'a>>>
    ensures stands { IfOk result (λ vs. StandInAnyChunk (leaf_type_view leaf_type.now) Encoding.Rle bytes.now count (map value_ref_view vs.items)) }
    ensures only { OnFault result (StandInNoChunk (leaf_type_view leaf_type.now) Encoding.Rle bytes.now count) }
    ensures which { RefusedOnly IsOfValuePages result }
{
    match leaf_type.kind {
        Kind::Boolean => {
            let (section, _) = split_prefixed(bytes)?;
            let (numbers, _) = hybrid_rle::decode::<u32>(alloc, 1, section, count)?;
            booleans_of(alloc, &numbers)
        }
        _ => Err(Refusal::Encoding),
    }
}

/// The booleans that these numbers stand for: 1 is true.
fn booleans_of<'a>(alloc: Global, numbers: &[u32]) -> R<Vec<ValueRef<'a>>>
    ensures are { IfOk result (λ vs. map value_ref_view vs.items ≡ map (λ n. boolean (n == 1)) numbers.now) }
    ensures which { RefusedMemoryOnly result }
{
    let mut values = Vec::with_capacity(alloc, numbers.len())?;
    for number in numbers {
        values.push(ValueRef::Bool(*number == 1))?;
    }
    Ok(values)
}

/// Numbers in DELTA_BINARY_PACKED.
fn read_numbers<'a>(
    alloc: Global,
    leaf_type: &LeafType,
    bytes: &'a [u8],
    count: usize,
) -> R<Vec<ValueRef<'a>>>
    ensures stands { IfOk result (λ vs. StandInAnyChunk (leaf_type_view leaf_type.now) Encoding.DeltaBinaryPacked bytes.now count
        (map value_ref_view vs.items)) }
    ensures only { OnFault result (StandInNoChunk (leaf_type_view leaf_type.now) Encoding.DeltaBinaryPacked bytes.now count) }
    ensures which { RefusedOnly IsOfValuePages result }
{
    what_is_of_a_kind_fits_it();
    match leaf_type.kind {
        Kind::Int32 => {
            let (numbers, _) = decode_i32(alloc, bytes, count)?;
            integers_of(alloc, &numbers)
        }
        Kind::Int64 => {
            let (numbers, _) = decode_i64(alloc, bytes, count)?;
            long_integers_of(alloc, &numbers)
        }
        _ => Err(Refusal::Encoding),
    }
}

/// The numbers as values.
fn integers_of<'a>(alloc: Global, numbers: &[i32]) -> R<Vec<ValueRef<'a>>>
    ensures are { IfOk result (λ vs. map value_ref_view vs.items ≡ map integer numbers.now) }
    ensures of_kind { IfOk result (λ vs. All (IsOfKind Kind.Int32) (map value_ref_view vs.items)) }
    ensures which { RefusedMemoryOnly result }
{
    let mut values = Vec::with_capacity(alloc, numbers.len())?;
    for number in numbers {
        values.push(ValueRef::Int(i64::from(*number)))?;
    }
    Ok(values)
}

/// The numbers as values.
fn long_integers_of<'a>(alloc: Global, numbers: &[i64]) -> R<Vec<ValueRef<'a>>>
    ensures are { IfOk result (λ vs. map value_ref_view vs.items ≡ map integer numbers.now) }
    ensures of_kind { IfOk result (λ vs. All (IsOfKind Kind.Int64) (map value_ref_view vs.items)) }
    ensures which { RefusedMemoryOnly result }
{
    let mut values = Vec::with_capacity(alloc, numbers.len())?;
    for number in numbers {
        values.push(ValueRef::Int(*number))?;
    }
    Ok(values)
}

/// Byte values in DELTA_LENGTH_BYTE_ARRAY.
fn read_by_lengths<'a>(
    alloc: Global,
    leaf_type: &LeafType,
    bytes: &'a [u8],
    count: usize,
) -> R<Vec<ValueRef<'a>>>
    ensures stands { IfOk result (λ vs. StandInAnyChunk (leaf_type_view leaf_type.now) Encoding.DeltaLengthByteArray bytes.now count
        (map value_ref_view vs.items)) }
    ensures within_limits { OnOk result (IsValueOver leaf_type.now.kind (Some Encoding.DeltaLengthByteArray) bytes.now count → ⊥) }
    ensures only { OnFault result (StandInNoChunk (leaf_type_view leaf_type.now) Encoding.DeltaLengthByteArray bytes.now count) }
    ensures limit { result ≡ Err Refusal.Limit → IsValueOver leaf_type.now.kind (Some Encoding.DeltaLengthByteArray) bytes.now count }
    ensures which { RefusedOnly IsOfPages result }
{
    one_byte_list();
    match leaf_type.kind {
        Kind::ByteArray => {
            let (values, _) = decode_lengths::<ValueRef<'a>>(alloc, bytes, count)?;
            check_values(leaf_type, &values)?;
            Ok(values)
        }
        _ => Err(Refusal::Encoding),
    }
}
