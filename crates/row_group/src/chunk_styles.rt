//! Which encodings a chunk is written in.

ghost use Rattle.std.specs.Prelude.{◌≡◌, ◌≢◌, ◌↔◌, ◌<◌, List, map, length, pos, true, IsTrue, IfOk, IfSome, IfNone};
ghost use Rattle.std.specs.List.{AllByRecursion};
ghost use Rattle.bits.specs.Refusals.{OnFault, RefusedOnly, RefusedMemoryOnly};
ghost use Rattle.schema.specs.Borrowed.{entry_ref_view};
ghost use Rattle.schema.specs.Law.{IsEntryOf};
ghost use Rattle.schema.specs.Stripe.{Entry};
ghost use Rattle.schema.specs.Views.{leaf_view};
ghost use Rattle.dictionary.specs.Entries.{IsIndexed, entries_of, indexes_of};
ghost use Rattle.pages.specs.Headers.{number_of};
ghost use Rattle.pages.specs.Page.{values as values_in};
ghost use Rattle.row_group.specs.Styles.{encoding_of, SuitsDictionary, numbers_with_levels};

use crate::options::Style;
use bits::{R, Refusal};
use dictionary::Dictionary;
use pages::{Encoding, values_of};
use plain::what_is_of_a_kind_fits_it;
use schema::{EntryRef, Kind, Leaf};
use std::alloc::Global;

/// The encoding of values of a type under a style, where their chunk has no dictionary.
pub(crate) fn encoding_of(style: Style, kind: Kind) -> Encoding
    ensures { result ≡ encoding_of style kind }
{
    match (style, kind) {
        (Style::Plain | Style::Dictionary, _) => Encoding::Plain,
        (_, Kind::Boolean) => Encoding::Rle,
        (Style::Split, Kind::ByteArray) => Encoding::Plain,
        (Style::Split, _) => Encoding::ByteStreamSplit,
        (_, Kind::Int32 | Kind::Int64) => Encoding::DeltaBinaryPacked,
        (Style::Delta, Kind::ByteArray | Kind::FixedLenByteArray(_)) => Encoding::DeltaByteArray,
        (Style::Lengths, Kind::ByteArray) => Encoding::DeltaLengthByteArray,
        (Style::Lengths, Kind::FixedLenByteArray(_)) => Encoding::Plain,
    }
}

/// The numbers of the encodings of a chunk's values and of its levels, which are RLE: rising, each once.
pub(crate) fn numbers_with_levels(alloc: Global, encoding: Encoding) -> R<Vec<i32>>
    ensures numbers { IfOk result (λ numbers. numbers.items ≡ numbers_with_levels encoding) }
    ensures which { RefusedMemoryOnly result }
{
    match encoding {
        Encoding::Plain => numbers_of(alloc, &[Encoding::Plain, Encoding::Rle]),
        Encoding::Rle => numbers_of(alloc, &[Encoding::Rle]),
        _ => numbers_of(alloc, &[Encoding::Rle, encoding]),
    }
}

/// The numbers of the encodings, in their order.
pub(crate) fn numbers_of(alloc: Global, encodings: &[Encoding]) -> R<Vec<i32>>
    ensures numbers { IfOk result (λ numbers. numbers.items ≡ map (λ e. pos (number_of e)) encodings.now) }
    ensures which { RefusedMemoryOnly result }
{
    let mut numbers = Vec::with_capacity(alloc, encodings.len())?;
    for encoding in encodings {
        numbers.push(encoding.number())?;
    }
    Ok(numbers)
}

/// The dictionary of a chunk's values, with their indexes; None where the chunk has none.
///
/// Refused Value only where an entry is none of the leaf's.
pub(crate) fn dictionary_of(
    alloc: Global,
    leaf: &Leaf,
    style: Style,
    entries: &[EntryRef<'_>],
) -> R<Option<Dictionary>>
    ensures some { IfOk result (λ found. IfSome found (λ _. SuitsDictionary style leaf.now.leaf_type.kind (map entry_ref_view entries.now))) }
    ensures indexed { let vs = values_in (map entry_ref_view entries.now) in
        IfOk result (λ found. IfSome found (λ d. IsIndexed vs (entries_of d) (indexes_of d))) }
    ensures none { IfOk result (λ found. IfNone found (SuitsDictionary style leaf.now.leaf_type.kind (map entry_ref_view entries.now) → ⊥)) }
    ensures only { OnFault result (AllByRecursion (IsEntryOf (leaf_view leaf.now)) (map entry_ref_view entries.now) → ⊥) }
    ensures which { RefusedOnly (λ e. e ≡ Refusal.Value) result }
{
    what_is_of_a_kind_fits_it();
    if !allows_dictionary(style, leaf.leaf_type.kind) {
        return Ok(None);
    }
    let values = values_of(alloc, entries)?;
    if values.is_empty() {
        return Ok(None);
    }
    Dictionary::build(alloc, values.as_slice())
}

/// Whether chunks of a type have dictionaries under a style.
fn allows_dictionary(style: Style, kind: Kind) -> bool
    ensures { IsTrue result ↔ ((style ≡ Style.Dictionary) × (kind ≢ Kind.Boolean)) }
{
    match (style, kind) {
        (_, Kind::Boolean) => false,
        (Style::Dictionary, _) => true,
        _ => false,
    }
}

/// Whether chunks of a type are PLAIN and have no dictionary under a style, whatever their values are.
pub(crate) fn is_plain(style: Style, kind: Kind) -> bool
    ensures encoding { result ≡ true → encoding_of style kind ≡ Encoding.Plain }
    ensures dictionary { result ≡ true → (es : List Entry) → SuitsDictionary style kind es → ⊥ }
{
    match encoding_of(style, kind) {
        Encoding::Plain => !allows_dictionary(style, kind),
        _ => false,
    }
}
