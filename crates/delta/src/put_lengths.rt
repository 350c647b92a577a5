//! Byte values after their lengths.

ghost use Rattle.std.specs.Prelude.{◌≡◌, ℕ, ◌+◌, ◌*◌, ◌≤◌, ◌⊎◌, List, All, length, map, IfOk, OnOk, OnErr};
ghost use Rattle.bits.specs.Refusals.{OnFault, RefusedOnly, RefusedMemoryOnly, LimitJustWhere};
ghost use Rattle.bits.specs.Codec.{Appends};
ghost use Rattle.plain.specs.Plain.{AreBytes, IsOfKind, IsTooLong, IsWriteOver, text_size};
ghost use Rattle.delta.specs.WrittenBytes.{AppendsWrittenLengths};
ghost use Rattle.delta.specs.ByteDeltas.{sizes, AppendsByLengths, NoLengthsOf};
ghost use Rattle.delta.specs.inner.Put.{Extends, text_of};

use crate::writing::encode_i32;
use bits::{R, Refusal};
use plain::{Lends, encoded_size};
use schema::{Kind, ValueRef};
use std::alloc::Global;

/// Writes the byte values at the end of `out`: their lengths, as [`encode_i32`] writes them, and then
/// the bytes of all, in at most 170 + 5n bytes and the values' own. The values may be borrowed, as
/// [`Lends`] says. (parquet-format, Encodings.md, "Delta-length byte array".)
///
/// Refused Value exactly when one of them is no byte value, and Limit exactly when all are and one has
/// more than 16 MiB. On a refusal `out` is unchanged. Looks at each value three times.
pub fn encode_lengths<V: Lends>(values: &[V], out: &mut Vec<u8>) -> R<()>
    ensures stands { OnOk result (AppendsByLengths (map V.lent values.now) out.old.items out.new.items) }
    ensures written { OnOk result (AppendsWrittenLengths (map V.lent values.now) out.old.items out.new.items) }
    ensures of_kind { OnOk result (All (IsOfKind Kind.ByteArray) (map V.lent values.now)) }
    ensures only { OnFault result (NoLengthsOf (map V.lent values.now)) }
    ensures unfit { OnFault result (All (IsOfKind Kind.ByteArray) (map V.lent values.now) → ⊥) }
    ensures which { RefusedOnly (λ e. (e ≡ Refusal.Value) ⊎ (e ≡ Refusal.Limit)) result }
    ensures limit { LimitJustWhere (IsWriteOver Kind.ByteArray (map V.lent values.now)) result }
    ensures unchanged { OnErr result (out.new.items ≡ out.old.items) }
{
    encoded_size(Kind::ByteArray, values)?;
    let lengths = lengths_of(*out.allocator(), values)?;
    let kept = out.len();
    let done = put_lengths(&lengths, values, out);
    if done.is_err() {
        out.truncate(kept);
        return Err(Refusal::Memory);
    }
    Ok(())
}

/// The bytes of a byte value.
pub fn bytes_of<V: Lends>(value: &V) -> &[u8]
    ensures { result.now ≡ text_of (V.lent value.now) }
{
    match value.lend() {
        ValueRef::Bytes(text) => text,
        _ => &[],
    }
}

/// The length of each value.
fn lengths_of<V: Lends>(alloc: Global, values: &[V]) -> R<Vec<i32>>
    requires { All (λ v. IsTooLong v → ⊥) (map V.lent values.now) }
    ensures stands { IfOk result (λ lengths. lengths.items ≡ sizes (map text_of (map V.lent values.now))) }
    ensures which { RefusedMemoryOnly result }
{
    let mut lengths = Vec::with_capacity(alloc, values.len())?;
    for value in values {
        lengths.push(bytes_of(value).len() as i32)?;
    }
    Ok(lengths)
}

/// Writes the lengths and the values; where it is refused, some of them may stand there.
fn put_lengths<V: Lends>(lengths: &[i32], values: &[V], out: &mut Vec<u8>) -> R<()>
    requires kind { All (IsOfKind Kind.ByteArray) (map V.lent values.now) }
    requires lengths { lengths.now ≡ sizes (map text_of (map V.lent values.now)) }
    ensures stands { OnOk result (AppendsByLengths (map V.lent values.now) out.old.items out.new.items) }
    ensures written { OnOk result (AppendsWrittenLengths (map V.lent values.now) out.old.items out.new.items) }
    ensures front { Extends out.old.items out.new.items }
{
    encode_i32(lengths, out)?;
    for value in values {
        out.extend_from_slice(bytes_of(value))?;
    }
    Ok(())
}
