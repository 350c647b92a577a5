//! The values of a data page that share prefixes.

ghost use Rattle.std.specs.Prelude.{◌≡◌, ◌⊎◌, ◌↔◌, List, map, IfOk, OnOk, IsTrue, Some, Err};
ghost use Rattle.bits.specs.Refusals.{OnFault, RefusedOnly};
ghost use Rattle.schema.specs.Values.{bytes};
ghost use Rattle.schema.specs.Views.{leaf_type_view};
ghost use Rattle.delta.specs.ValuesLeft.{values_left as byte_values_left};
ghost use Rattle.pages.specs.Left.{values_left};
ghost use Rattle.pages.specs.Limits.{IsValueOver, IsOfPages};
ghost use Rattle.pages.specs.inner.Reading.{AllFit, HasBytes, StandInAnyChunk, StandInNoChunk};

use crate::encoding::Encoding;
use crate::page_values::PageValues;
use crate::value_checks::check_value;
use bits::{R, Refusal};
use delta::{Prefixed, decode_prefixes, one_prefixed_list};
use schema::{Kind, LeafType, ValueRef};
use std::alloc::Global;

/// The first `count` byte values of the bytes, in DELTA_BYTE_ARRAY. They are made one by one: once here,
/// to check them, and once when they are taken, since a few bytes can announce many long values.
pub fn read_shared<'a>(
    alloc: Global,
    leaf_type: &LeafType,
    bytes: &'a [u8],
    count: usize,
) -> R<PageValues<'a>>
    ensures stands { IfOk result (λ vs. StandInAnyChunk (leaf_type_view leaf_type.now) Encoding.DeltaByteArray bytes.now count (values_left vs)) }
    ensures within_limits { OnOk result (IsValueOver leaf_type.now.kind (Some Encoding.DeltaByteArray) bytes.now count → ⊥) }
    ensures only { OnFault result (StandInNoChunk (leaf_type_view leaf_type.now) Encoding.DeltaByteArray bytes.now count) }
    ensures limit { result ≡ Err Refusal.Limit → IsValueOver leaf_type.now.kind (Some Encoding.DeltaByteArray) bytes.now count }
    ensures which { RefusedOnly IsOfPages result }
{
    one_prefixed_list();
    if !has_bytes(leaf_type.kind) {
        return Err(Refusal::Encoding);
    }
    let (checked, _) = decode_prefixes(alloc, bytes, count)?;
    check_shared(leaf_type, checked)?;
    let (values, _) = decode_prefixes(alloc, bytes, count)?;
    Ok(PageValues::Shared(values))
}

/// Whether the values of a physical type are bytes.
fn has_bytes(kind: Kind) -> bool
    ensures { IsTrue result ↔ HasBytes kind }
{
    matches!(kind, Kind::ByteArray | Kind::FixedLenByteArray(_))
}

/// Refused where a value that is left is not the leaf's, as [`check_value`] refuses it.
fn check_shared(leaf_type: &LeafType, mut values: Prefixed<'_>) -> R<()>
    ensures fit { OnOk result (AllFit (leaf_type_view leaf_type.now) (map bytes (byte_values_left values.entry))) }
    ensures only { OnFault result (AllFit (leaf_type_view leaf_type.now) (map bytes (byte_values_left values.entry)) → ⊥) }
    ensures which { RefusedOnly (λ e. (e ≡ Refusal.Value) ⊎ (e ≡ Refusal.Utf8)) result }
{
    for _i in 0..values.len() {
        if values.advance()? {
            check_value(leaf_type, ValueRef::Bytes(values.value()))?;
        }
    }
    Ok(())
}
