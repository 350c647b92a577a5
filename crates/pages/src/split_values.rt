//! The values of a data page whose bytes stand apart, in BYTE_STREAM_SPLIT.

ghost use Rattle.std.specs.Prelude.{◌≡◌, ◌↔◌, All, map, IfOk, OnOk, IsTrue, Some, Err};
ghost use Rattle.std.specs.List.{Any};
ghost use Rattle.bits.specs.Refusals.{OnFault, RefusedOnly};
ghost use Rattle.bits.specs.Codec.{Appends};
ghost use Rattle.schema.specs.Borrowed.{value_ref_view};
ghost use Rattle.schema.specs.Views.{leaf_type_view};
ghost use Rattle.plain.specs.Plain.{IsOfKind, IsTooLong};
ghost use Rattle.plain.specs.Split.{CanBeSplit};
ghost use Rattle.pages.specs.Left.{values_left};
ghost use Rattle.pages.specs.Limits.{IsValueOver, IsOfPages};
ghost use Rattle.pages.specs.Writing.{IsEncodingFor};
ghost use Rattle.pages.specs.WrittenValues.{AreWritten};
ghost use Rattle.pages.specs.inner.Put.{most_of_values, IsOfValueWriting};
ghost use Rattle.pages.specs.inner.Reading.{StandInAnyChunk, StandInNoChunk};

use crate::encoding::Encoding;
use crate::page_values::PageValues;
use bits::{R, Refusal};
use plain::{SplitValues, split_encode, what_is_of_a_kind_fits_it};
use schema::{Kind, LeafType, ValueRef};
use std::alloc::Global;

/// The first `count` values of the bytes, in BYTE_STREAM_SPLIT. Their bytes are joined, in one buffer that the page owns.
pub fn read_split<'a>(
    alloc: Global,
    leaf_type: &LeafType,
    bytes: &'a [u8],
    count: usize,
) -> R<PageValues<'a>>
    ensures stands { IfOk result (λ vs. StandInAnyChunk (leaf_type_view leaf_type.now) Encoding.ByteStreamSplit bytes.now count (values_left vs)) }
    ensures within_limits { OnOk result (IsValueOver leaf_type.now.kind (Some Encoding.ByteStreamSplit) bytes.now count → ⊥) }
    ensures only { OnFault result (StandInNoChunk (leaf_type_view leaf_type.now) Encoding.ByteStreamSplit bytes.now count) }
    ensures limit { result ≡ Err Refusal.Limit → IsValueOver leaf_type.now.kind (Some Encoding.ByteStreamSplit) bytes.now count }
    ensures which { RefusedOnly IsOfPages result }
{
    what_is_of_a_kind_fits_it();
    if !can_be_split(leaf_type.kind) {
        return Err(Refusal::Encoding);
    }
    let (values, _) = SplitValues::new(alloc, leaf_type.kind, bytes, count)?;
    Ok(PageValues::Split(values))
}

/// Writes the values of the type at the end, split. Refused Encoding exactly when values of the type are not split.
pub(crate) fn put_split(kind: Kind, values: &[ValueRef<'_>], out: &mut Vec<u8>) -> R<()>
    requires { All (IsOfKind kind) (map value_ref_view values.now) }
    ensures stands { let vs = map value_ref_view values.now in
        OnOk result (Appends (AreWritten kind Encoding.ByteStreamSplit vs) (most_of_values vs) out.old.items out.new.items) }
    ensures within_limits { OnOk result (Any IsTooLong (map value_ref_view values.now) → ⊥) }
    ensures fits { OnOk result (IsEncodingFor kind Encoding.ByteStreamSplit) }
    ensures which { RefusedOnly (IsOfValueWriting kind Encoding.ByteStreamSplit (map value_ref_view values.now)) result }
{
    if !can_be_split(kind) {
        return Err(Refusal::Encoding);
    }
    split_encode(kind, values, out)
}

/// Whether values of a physical type can be split.
fn can_be_split(kind: Kind) -> bool
    ensures { IsTrue result ↔ CanBeSplit kind }
{
    matches!(kind, Kind::Int32 | Kind::Int64 | Kind::FixedLenByteArray(_))
}
