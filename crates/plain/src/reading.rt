//! From bytes to values.

ghost use Rattle.std.specs.Prelude.{◌≡◌, ◌≤◌, ◌⊎◌, All, map, length, vec_len, IfOk};
ghost use Rattle.bits.specs.Refusals.{OnFault, RefusedOnly, RefusedMemoryOnly, LimitJustWhere};
ghost use Rattle.bits.specs.Codec.{NothingStands, AreInTurn};
ghost use Rattle.schema.specs.Values.{view};
ghost use Rattle.plain.specs.Plain.{IsOfKind, IsSpelled, AreBooleans, IsPlain, AnnouncesTooMuch, IsReadOver};
ghost use Rattle.plain.specs.inner.Sized.{HasSize};

use crate::held::Holds;
use bits::{R, Refusal};
use byteorder::{ByteOrder, LittleEndian};
use schema::{Kind, Value};
use std::alloc::Global;

/// The most bytes that a value may have: 16 MiB.
pub const MOST_BYTES_OF_VALUE: usize = 16_777_216;

/// The first `n` values of the type, and how many bytes they take. Bytes after them are left.
///
/// Booleans are bits, the lowest of a byte first, in `(n + 7) / 8` bytes whose last bits are not
/// looked at; numbers are little-endian; a BYTE_ARRAY stands after its length in four bytes, a
/// FIXED_LEN_BYTE_ARRAY only. Each value is of the type: a number within its bits, bytes below 256,
/// a fixed length kept. (parquet-format, Encodings.md, "Plain".)
///
/// Refused Limit exactly when one of the `n` values is announced with more than 16 MiB, by the four
/// bytes before it or by the length of its type, and those before it stand; else Truncated exactly
/// when the bytes end before the `n` values do.
///
/// Takes one pass and copies the bytes of each text once. Room is asked for only for values that
/// the bytes can hold, whatever `n` is, and of a BYTE_ARRAY for none before one stands. (A fixed
/// length of 0, which no schema has, is the one whose values no bytes count.)
pub fn decode(alloc: Global, kind: Kind, bytes: &[u8], n: usize) -> R<(Vec<Value>, usize)>
    ensures stands { IfOk result (λ x. IsPlain kind n bytes.now (map view x.0.items) x.1) }
    ensures count { IfOk result (λ x. vec_len x.0 ≡ n) }
    ensures of_kind { IfOk result (λ x. All (IsOfKind kind) (map view x.0.items)) }
    ensures within { IfOk result (λ x. x.1 ≤ length bytes.now) }
    ensures only { OnFault result (NothingStands (IsPlain kind n bytes.now)) }
    ensures which { RefusedOnly (λ e. (e ≡ Refusal.Truncated) ⊎ (e ≡ Refusal.Limit)) result }
    ensures limit { LimitJustWhere (IsReadOver kind bytes.now n) result }
{
    decode_to(alloc, kind, bytes, n)
}

/// As [`decode`], in its refusals and its cost too, with each value held by a `T`: a value itself,
/// or an entry of a leaf without levels, as [`Holds`] says. So values are read to where they are to
/// lie, with no other list of them.
pub fn decode_to<'a, T: Holds<'a>>(
    alloc: Global,
    kind: Kind,
    bytes: &'a [u8],
    n: usize,
) -> R<(Vec<T>, usize)>
    ensures stands { IfOk result (λ x. IsPlain kind n bytes.now (map T.held x.0.items) x.1) }
    ensures count { IfOk result (λ x. vec_len x.0 ≡ n) }
    ensures of_kind { IfOk result (λ x. All (IsOfKind kind) (map T.held x.0.items)) }
    ensures made { IfOk result (λ x. All T.IsMade x.0.items) }
    ensures within { IfOk result (λ x. x.1 ≤ length bytes.now) }
    ensures only { OnFault result (NothingStands (IsPlain kind n bytes.now)) }
    ensures which { RefusedOnly (λ e. (e ≡ Refusal.Truncated) ⊎ (e ≡ Refusal.Limit)) result }
    ensures limit { LimitJustWhere (IsReadOver kind bytes.now n) result }
{
    match kind {
        Kind::Boolean => booleans(alloc, bytes, n),
        Kind::Int32 => sized_values(alloc, kind, 4, bytes, n),
        Kind::Int64 => sized_values(alloc, kind, 8, bytes, n),
        Kind::ByteArray => byte_arrays(alloc, bytes, n),
        Kind::FixedLenByteArray(size) => sized_values(alloc, kind, size as usize, bytes, n),
    }
}

/// The first `n` bits as booleans.
fn booleans<'a, T: Holds<'a>>(alloc: Global, bytes: &'a [u8], n: usize) -> R<(Vec<T>, usize)>
    ensures stands { IfOk result (λ x. AreBooleans n bytes.now (map T.held x.0.items) x.1) }
    ensures count { IfOk result (λ x. vec_len x.0 ≡ n) }
    ensures made { IfOk result (λ x. All T.IsMade x.0.items) }
    ensures only { OnFault result (NothingStands (AreBooleans n bytes.now)) }
    ensures which { RefusedOnly (λ e. e ≡ Refusal.Truncated) result }
{
    if n.div_ceil(8) > bytes.len() {
        return Err(Refusal::Truncated);
    }
    let mut values = Vec::with_capacity(alloc, n)?;
    for i in 0..n {
        let bit = (bytes[i / 8] >> (i % 8)) & 1;
        values.push(T::of_bool(bit == 1))?;
    }
    Ok((values, n.div_ceil(8)))
}

/// The first `n` values of a type whose values take `size` bytes each.
fn sized_values<'a, T: Holds<'a>>(
    alloc: Global,
    kind: Kind,
    size: usize,
    bytes: &'a [u8],
    n: usize,
) -> R<(Vec<T>, usize)>
    requires { HasSize kind size }
    ensures stands { IfOk result (λ x. AreInTurn (IsSpelled kind) n bytes.now (map T.held x.0.items) x.1) }
    ensures count { IfOk result (λ x. vec_len x.0 ≡ n) }
    ensures made { IfOk result (λ x. All T.IsMade x.0.items) }
    ensures only { OnFault result (NothingStands (AreInTurn (IsSpelled kind) n bytes.now)) }
    ensures which { RefusedOnly (λ e. (e ≡ Refusal.Truncated) ⊎ (e ≡ Refusal.Limit)) result }
    ensures limit { LimitJustWhere (IsReadOver kind bytes.now n) result }
{
    if n > 0 && size > MOST_BYTES_OF_VALUE {
        return Err(Refusal::Limit);
    }
    if (n as u128) * (size as u128) > bytes.len() as u128 {
        return Err(Refusal::Truncated);
    }
    // All values are there, so `n` is the least, but for those of no bytes, which no schema has.
    let mut values = Vec::with_capacity(alloc, n.min(bytes.len()))?;
    let mut at = 0;
    for _ in 0..n {
        let value = sized_value(alloc, kind, &bytes[at..at + size])?;
        values.push(value)?;
        at += size;
    }
    Ok((values, at))
}

/// The value whose spelling is the whole text.
fn sized_value<'a, T: Holds<'a>>(alloc: Global, kind: Kind, text: &'a [u8]) -> R<T>
    requires { HasSize kind (length text.now) }
    ensures stands { IfOk result (λ v. IsSpelled kind text.now (T.held v) (length text.now)) }
    ensures made { IfOk result T.IsMade }
    ensures which { RefusedMemoryOnly result }
{
    match kind {
        Kind::Int32 => Ok(T::of_int(i64::from(LittleEndian::read_i32(text)))),
        Kind::Int64 => Ok(T::of_int(LittleEndian::read_i64(text))),
        _ => T::of_bytes(alloc, text),
    }
}

/// The first `n` byte arrays.
fn byte_arrays<'a, T: Holds<'a>>(alloc: Global, bytes: &'a [u8], n: usize) -> R<(Vec<T>, usize)>
    ensures stands { IfOk result (λ x. AreInTurn (IsSpelled Kind.ByteArray) n bytes.now (map T.held x.0.items) x.1) }
    ensures count { IfOk result (λ x. vec_len x.0 ≡ n) }
    ensures made { IfOk result (λ x. All T.IsMade x.0.items) }
    ensures only { OnFault result (NothingStands (AreInTurn (IsSpelled Kind.ByteArray) n bytes.now)) }
    ensures which { RefusedOnly (λ e. (e ≡ Refusal.Truncated) ⊎ (e ≡ Refusal.Limit)) result }
    ensures limit { LimitJustWhere (IsReadOver Kind.ByteArray bytes.now n) result }
{
    let mut values = Vec::new(alloc);
    let mut at = 0;
    for _ in 0..n {
        let (value, used) = byte_array(alloc, bytes.split_at(at).1)?;
        if values.is_empty() {
            // Each length has four bytes. Bytes that begin with no value ask for no room.
            values.reserve(n.min(bytes.len() / 4))?;
        }
        values.push(value)?;
        at += used;
    }
    Ok((values, at))
}

/// The byte array at the start, and how many bytes it takes with its length.
fn byte_array<'a, T: Holds<'a>>(alloc: Global, bytes: &'a [u8]) -> R<(T, usize)>
    ensures stands { IfOk result (λ x. IsSpelled Kind.ByteArray bytes.now (T.held x.0) x.1) }
    ensures made { IfOk result (λ x. T.IsMade x.0) }
    ensures within { IfOk result (λ x. x.1 ≤ length bytes.now) }
    ensures only { OnFault result (NothingStands (IsSpelled Kind.ByteArray bytes.now)) }
    ensures which { RefusedOnly (λ e. (e ≡ Refusal.Truncated) ⊎ (e ≡ Refusal.Limit)) result }
    ensures limit { LimitJustWhere (AnnouncesTooMuch Kind.ByteArray bytes.now) result }
{
    if bytes.len() < 4 {
        return Err(Refusal::Truncated);
    }
    let (announced, rest) = bytes.split_at(4);
    let size = LittleEndian::read_u32(announced) as usize;
    if size > MOST_BYTES_OF_VALUE {
        return Err(Refusal::Limit);
    }
    if size > rest.len() {
        return Err(Refusal::Truncated);
    }
    let value = T::of_bytes(alloc, rest.split_at(size).0)?;
    Ok((value, 4 + size))
}
