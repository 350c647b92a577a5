//! From streams of bytes to values (parquet-format, Encodings.md, "Byte Stream Split").

ghost use Rattle.std.specs.Prelude.{◌≡◌, ◌⊎◌, ◌<◌, ◌≤◌, ◌*◌, All, Some, map, length, vec_len, IfOk};
ghost use Rattle.bits.specs.Refusals.{OnFault, RefusedOnly, LimitJustWhere};
ghost use Rattle.bits.specs.Codec.{NothingStands};
ghost use Rattle.schema.specs.Values.{view};
ghost use Rattle.plain.specs.Plain.{IsOfKind};
ghost use Rattle.plain.specs.Split.{AreJoined, IsSplit, IsSizeOver, IsSplitReadOver};
ghost use Rattle.plain.specs.inner.Sized.{IsSizeOf};

use crate::columns::put_columns;
use crate::reading::{MOST_BYTES_OF_VALUE, decode};
use bits::{R, Refusal};
use schema::{Kind, Value};
use std::alloc::Global;

/// The bytes of the first `n` values of `k` bytes each, one value after the other, and how many bytes they take in
/// `bytes`, where byte `i` of each stands in the `i`-th of `k` streams of `n` bytes. Bytes after them are left.
///
/// Refused Limit exactly when there are values and `k` is above 16 MiB, else Truncated exactly when there are fewer than
/// `n * k` bytes. Takes one pass, and asks for room once, for bytes that are there.
pub fn split_decode(alloc: Global, k: usize, bytes: &[u8], n: usize) -> R<(Vec<u8>, usize)>
    ensures stands { IfOk result (λ x. AreJoined k n bytes.now x.0.items x.1) }
    ensures within { IfOk result (λ x. x.1 ≤ length bytes.now) }
    ensures only { OnFault result (NothingStands (AreJoined k n bytes.now)) }
    ensures short { OnFault result (length bytes.now < n * k) }
    ensures which { RefusedOnly (λ e. (e ≡ Refusal.Truncated) ⊎ (e ≡ Refusal.Limit)) result }
    ensures limit { LimitJustWhere (IsSizeOver k n) result }
{
    if n > 0 && k > MOST_BYTES_OF_VALUE {
        return Err(Refusal::Limit);
    }
    if (n as u128) * (k as u128) > bytes.len() as u128 {
        return Err(Refusal::Truncated);
    }
    let mut text = Vec::new(alloc);
    put_columns(k, n, bytes, &mut text)?;
    Ok((text, n * k))
}

/// The first `n` values of the type, and how many bytes they take, as [`split_decode`] reads their bytes.
///
/// Refused Value exactly when values of the type are not split: they are booleans, or have no one number of bytes. Refused
/// Limit exactly when there are values and the type has more than 16 MiB, else Truncated exactly when the bytes end before
/// the values do.
pub fn split_values(alloc: Global, kind: Kind, bytes: &[u8], n: usize) -> R<(Vec<Value>, usize)>
    ensures stands { IfOk result (λ x. IsSplit kind n bytes.now (map view x.0.items) x.1) }
    ensures count { IfOk result (λ x. vec_len x.0 ≡ n) }
    ensures of_kind { IfOk result (λ x. All (IsOfKind kind) (map view x.0.items)) }
    ensures within { IfOk result (λ x. x.1 ≤ length bytes.now) }
    ensures only { OnFault result (NothingStands (IsSplit kind n bytes.now)) }
    ensures which { RefusedOnly (λ e. (e ≡ Refusal.Truncated) ⊎ (e ≡ Refusal.Value) ⊎ (e ≡ Refusal.Limit)) result }
    ensures limit { LimitJustWhere (IsSplitReadOver kind bytes.now n) result }
{
    match size_of_kind(kind) {
        None => Err(Refusal::Value),
        Some(k) => {
            let (text, used) = split_decode(alloc, k, bytes, n)?;
            let (values, _) = decode(alloc, kind, &text, n)?;
            Ok((values, used))
        }
    }
}

/// How many bytes each value of the type has, where all have the same number.
pub(crate) fn size_of_kind(kind: Kind) -> Option<usize>
    ensures { IsSizeOf kind result }
{
    match kind {
        Kind::Int32 => Some(4),
        Kind::Int64 => Some(8),
        Kind::FixedLenByteArray(size) => Some(size as usize),
        Kind::Boolean | Kind::ByteArray => None,
    }
}
