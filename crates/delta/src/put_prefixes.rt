//! Byte values written by what they share with the value before.

ghost use Rattle.std.specs.Prelude.{◌≡◌, ℕ, ◌+◌, ◌*◌, ◌<◌, ◌≤◌, ◌⊎◌, List, [], All, pos, length, map, IfOk, OnOk, OnErr};
ghost use Rattle.std.specs.List.{concat};
ghost use Rattle.bits.specs.Refusals.{OnFault, RefusedOnly, RefusedMemoryOnly, LimitJustWhere};
ghost use Rattle.bits.specs.Codec.{Appends};
ghost use Rattle.schema.specs.Values.{bytes};
ghost use Rattle.schema.specs.Borrowed.{value_ref_view};
ghost use Rattle.plain.specs.Plain.{AreBytes, IsOfKind, IsTooLong, IsWriteOver, text_size};
ghost use Rattle.delta.specs.WrittenBytes.{AppendsWrittenPrefixes};
ghost use Rattle.delta.specs.ByteDeltas.{AppendsByPrefixes, IsShortByPrefixes, NoPrefixesOf, shared_size, longest_prefixes, shortest_suffixes};
ghost use Rattle.delta.specs.inner.Put.{Extends, ArePut, text_of, before_at};

use crate::put_lengths::{bytes_of, encode_lengths};
use crate::writing::encode_i32;
use bits::{R, Refusal};
use plain::{Lends, encoded_size};
use schema::{Kind, ValueRef};
use std::alloc::Global;

/// Writes the byte values at the end of `out`, each as the longest prefix that it shares with the value
/// before it and the rest of it: the lengths of the prefixes, as [`encode_i32`] writes
/// them, the lengths of the suffixes in the same way, and then the bytes of all suffixes, in at most
/// 340 + 10n bytes and what the values do not share with the one before. The values may be borrowed, as [`Lends`] says. (parquet-format,
/// Encodings.md, "Delta Strings".)
///
/// Refused Value exactly when one of them is no byte value, and Limit exactly when all are and one has
/// more than 16 MiB. On a refusal `out` is unchanged.
pub fn encode_prefixes<V: Lends>(values: &[V], out: &mut Vec<u8>) -> R<()>
    ensures stands { OnOk result (AppendsByPrefixes (map V.lent values.now) out.old.items out.new.items) }
    ensures written { OnOk result (AppendsWrittenPrefixes (map V.lent values.now) out.old.items out.new.items) }
    ensures short { OnOk result (IsShortByPrefixes (map V.lent values.now) out.old.items out.new.items) }
    ensures of_kind { OnOk result (All (IsOfKind Kind.ByteArray) (map V.lent values.now)) }
    ensures only { OnFault result (NoPrefixesOf (map V.lent values.now)) }
    ensures unfit { OnFault result (All (IsOfKind Kind.ByteArray) (map V.lent values.now) → ⊥) }
    ensures which { RefusedOnly (λ e. (e ≡ Refusal.Value) ⊎ (e ≡ Refusal.Limit)) result }
    ensures limit { LimitJustWhere (IsWriteOver Kind.ByteArray (map V.lent values.now)) result }
    ensures unchanged { OnErr result (out.new.items ≡ out.old.items) }
{
    encoded_size(Kind::ByteArray, values)?;
    let (prefixes, suffixes) = split_values(*out.allocator(), values)?;
    let kept = out.len();
    let done = put_parts(&prefixes, &suffixes, out);
    if done.is_err() {
        out.truncate(kept);
        return Err(Refusal::Memory);
    }
    Ok(())
}

/// Writes the lengths of the prefixes and the suffixes; where it is refused, some of them may stand there.
fn put_parts(prefixes: &[i32], suffixes: &[ValueRef<'_>], out: &mut Vec<u8>) -> R<()>
    ensures put { OnOk result (ArePut prefixes.now (map value_ref_view suffixes.now) out.old.items out.new.items) }
    ensures front { Extends out.old.items out.new.items }
{
    encode_i32(prefixes, out)?;
    encode_lengths(suffixes, out)
}

/// How long the longest prefix is that each value shares with the value before it, and the rest of each
/// value.
fn split_values<V: Lends>(alloc: Global, values: &[V]) -> R<(Vec<i32>, Vec<ValueRef<'_>>)>
    requires { All (λ v. IsTooLong v → ⊥) (map V.lent values.now) }
    ensures prefixes { IfOk result (λ x. x.0.items ≡ map pos (longest_prefixes [] (map text_of (map V.lent values.now)))) }
    ensures suffixes { IfOk result (λ x. map value_ref_view x.1.items ≡ map bytes (shortest_suffixes [] (map text_of (map V.lent values.now)))) }
    ensures which { RefusedMemoryOnly result }
{
    let mut prefixes = Vec::with_capacity(alloc, values.len())?;
    let mut suffixes = Vec::with_capacity(alloc, values.len())?;
    for i in 0..values.len() {
        let value = bytes_of(&values[i]);
        let shared = shared_length(value_before(values, i), value);
        prefixes.push(shared as i32)?;
        suffixes.push(ValueRef::Bytes(value.split_at(shared).1))?;
    }
    Ok((prefixes, suffixes))
}

/// The value before the one at index `i`; empty for the first.
fn value_before<V: Lends>(values: &[V], i: usize) -> &[u8]
    requires { i < length values.now }
    ensures { result.now ≡ before_at (map text_of (map V.lent values.now)) i }
{
    if i == 0 {
        return &[];
    }
    bytes_of(&values[i - 1])
}

/// How many bytes both share at their front.
fn shared_length(before: &[u8], value: &[u8]) -> usize
    ensures { result ≡ shared_size before.now value.now }
{
    let most = before.len().min(value.len());
    for i in 0..most {
        if before[i] != value[i] {
            return i;
        }
    }
    most
}
