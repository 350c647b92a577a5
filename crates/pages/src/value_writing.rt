//! Values in their encodings, from values to bytes.

ghost use Rattle.std.specs.Prelude.{◌≡◌, ◌⊎◌, ◌<◌, ◌≤◌, ◌+◌, ◌*◌, All, map, length, IfOk, OnOk, Err};
ghost use Rattle.std.specs.List.{Any};
ghost use Rattle.bits.specs.Refusals.{RefusedOnly, RefusedMemoryOnly};
ghost use Rattle.bits.specs.Codec.{Appends};
ghost use Rattle.schema.specs.Borrowed.{value_ref_view};
ghost use Rattle.schema.specs.Values.{integer};
ghost use Rattle.plain.specs.Plain.{IsOfKind, IsTooLong, bit_of};
ghost use Rattle.pages.specs.Greatest.{most_of_page};
ghost use Rattle.pages.specs.Writing.{IsEncodingFor};
ghost use Rattle.pages.specs.WrittenValues.{AreWritten};
ghost use Rattle.pages.specs.inner.Put.{most_of_values, IsOfValueWriting};

use crate::encoding::Encoding;
use crate::limits::MOST_BYTES_OF_PAGE;
use crate::section_writing::put_length;
use crate::split_values::put_split;
use bits::{R, Refusal};
use delta::{encode_i32, encode_i64, encode_lengths, encode_prefixes};
use schema::{Kind, ValueRef};
use std::alloc::Global;

/// Writes the values of the type at the end in the encoding. Refused Encoding exactly when values of the
/// type are not written in it, and Limit only where a value has more than 16 MiB or there are too many
/// for a page. After a refusal some bytes may stand there.
pub(crate) fn put_values(
    alloc: Global,
    kind: Kind,
    encoding: Encoding,
    values: &[ValueRef<'_>],
    out: &mut Vec<u8>,
) -> R<()>
    requires { All (IsOfKind kind) (map value_ref_view values.now) }
    ensures stands { let vs = map value_ref_view values.now in
        OnOk result (Appends (AreWritten kind encoding vs) (most_of_values vs) out.old.items out.new.items) }
    ensures within_limits { OnOk result (Any IsTooLong (map value_ref_view values.now) → ⊥) }
    ensures fits { OnOk result (IsEncodingFor kind encoding) }
    ensures which { RefusedOnly (IsOfValueWriting kind encoding (map value_ref_view values.now)) result }
{
    match (encoding, kind) {
        (Encoding::Plain, _) => plain::encode(kind, values, out),
        (Encoding::Rle, Kind::Boolean) => put_booleans(alloc, values, out),
        (Encoding::DeltaBinaryPacked, Kind::Int32) => {
            let numbers = int32_values(alloc, values)?;
            encode_i32(numbers.as_slice(), out)
        }
        (Encoding::DeltaBinaryPacked, Kind::Int64) => {
            let numbers = int64_values(alloc, values)?;
            encode_i64(numbers.as_slice(), out)
        }
        (Encoding::DeltaLengthByteArray, Kind::ByteArray) => encode_lengths(values, out),
        (Encoding::DeltaByteArray, Kind::ByteArray) => encode_prefixes(values, out),
        (Encoding::DeltaByteArray, Kind::FixedLenByteArray(_)) => encode_prefixes(values, out),
        (Encoding::ByteStreamSplit, _) => put_split(kind, values, out),
        _ => Err(Refusal::Encoding),
    }
}

/// Writes booleans by RLE at the end: the length of the hybrid, and the hybrid of width 1.
fn put_booleans(alloc: Global, values: &[ValueRef<'_>], out: &mut Vec<u8>) -> R<()>
    requires { All (IsOfKind Kind.Boolean) (map value_ref_view values.now) }
    ensures stands { let vs = map value_ref_view values.now in
        OnOk result (Appends (AreWritten Kind.Boolean Encoding.Rle vs) (most_of_values vs) out.old.items out.new.items) }
    ensures limit { result ≡ Err Refusal.Limit → most_of_page < 80 + 9 * length values.now }
    ensures which { RefusedOnly (λ e. e ≡ Refusal.Limit) result }
{
    let bits = bits_of(alloc, values)?;
    let mut inside = Vec::new(alloc);
    hybrid_rle::encode(1, bits.as_slice(), &mut inside)?;
    if inside.len() > MOST_BYTES_OF_PAGE {
        return Err(Refusal::Limit);
    }
    put_length(inside.len(), out)?;
    out.extend_from_slice(inside.as_slice())?;
    Ok(())
}

/// The booleans as bits.
fn bits_of(alloc: Global, values: &[ValueRef<'_>]) -> R<Vec<u32>>
    ensures are { IfOk result (λ bits. bits.items ≡ map bit_of (map value_ref_view values.now)) }
    ensures which { RefusedMemoryOnly result }
{
    let mut bits = Vec::with_capacity(alloc, values.len())?;
    for value in values {
        bits.push(match value {
            ValueRef::Bool(true) => 1,
            _ => 0,
        })?;
    }
    Ok(bits)
}

/// The numbers of values of INT32.
fn int32_values(alloc: Global, values: &[ValueRef<'_>]) -> R<Vec<i32>>
    requires { All (IsOfKind Kind.Int32) (map value_ref_view values.now) }
    ensures are { IfOk result (λ numbers. map integer numbers.items ≡ map value_ref_view values.now) }
    ensures which { RefusedMemoryOnly result }
{
    let mut numbers = Vec::with_capacity(alloc, values.len())?;
    for value in values {
        numbers.push(int32_of(*value))?;
    }
    Ok(numbers)
}

/// The numbers of values of INT64.
fn int64_values(alloc: Global, values: &[ValueRef<'_>]) -> R<Vec<i64>>
    requires { All (IsOfKind Kind.Int64) (map value_ref_view values.now) }
    ensures are { IfOk result (λ numbers. map integer numbers.items ≡ map value_ref_view values.now) }
    ensures which { RefusedMemoryOnly result }
{
    let mut numbers = Vec::with_capacity(alloc, values.len())?;
    for value in values {
        numbers.push(int64_of(*value))?;
    }
    Ok(numbers)
}

/// The number of a value of INT32.
fn int32_of(value: ValueRef<'_>) -> i32
    requires { IsOfKind Kind.Int32 (value_ref_view value) }
    ensures { integer result ≡ value_ref_view value.entry }
{
    match value {
        ValueRef::Int(number) => number as i32,
        _ => 0,
    }
}

/// The number of a value of INT64.
fn int64_of(value: ValueRef<'_>) -> i64
    requires { IsOfKind Kind.Int64 (value_ref_view value) }
    ensures { integer result ≡ value_ref_view value.entry }
{
    match value {
        ValueRef::Int(number) => number,
        _ => 0,
    }
}
