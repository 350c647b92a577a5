//! Byte values by their lengths.

ghost use Rattle.std.specs.Prelude.{◌≡◌, ℕ, ◌<◌, ◌≤◌, ◌⊎◌, All, pos, length, map, vec_len, IfOk};
ghost use Rattle.bits.specs.Refusals.{OnFault, RefusedOnly, LimitJustWhere, IsOfValues};
ghost use Rattle.bits.specs.Codec.{NothingStands};
ghost use Rattle.delta.specs.ByteDeltas.{IsByteLengths, IsCutLong, IsLengthsOver, StandForBytes};
ghost use Rattle.delta.specs.inner.Cut.{AreCut, NoneAreCut, IsLong};

use crate::reading::decode_i32;
use bits::{R, Refusal};
use plain::{Holds, MOST_BYTES_OF_VALUE};
use std::alloc::Global;

/// The first `n` byte values, each held by a `T` as [`Holds`] says (copied, or borrowed from the
/// bytes), and how many bytes they take. Bytes after them are left.
///
/// The lengths stand first, as [`decode_i32`] reads them, and then the bytes of all values.
/// (parquet-format, Encodings.md, "Delta-length byte array".)
///
/// Refused Limit exactly when one of the lengths is above 16 MiB and the values before it are there.
/// Refused Truncated, Thrift and Value (as by [`decode_i32`], and a negative length) only where no `n`
/// values stand there.
///
/// Takes one pass over the lengths and one over the values. Room is asked for lengths that are there.
pub fn decode_lengths<'a, T: Holds<'a>>(
    alloc: Global,
    bytes: &'a [u8],
    n: usize,
) -> R<(Vec<T>, usize)>
    ensures stands { IfOk result (λ x. StandForBytes (IsByteLengths bytes.now n) (map T.held x.0.items) x.1) }
    ensures count { IfOk result (λ x. vec_len x.0 ≡ n) }
    ensures made { IfOk result (λ x. All T.IsMade x.0.items) }
    ensures within { IfOk result (λ x. x.1 ≤ length bytes.now) }
    ensures only { OnFault result (NothingStands (IsByteLengths bytes.now n)) }
    ensures which { RefusedOnly IsOfValues result }
    ensures limit { LimitJustWhere (IsLengthsOver bytes.now n) result }
{
    let (lengths, at) = decode_i32(alloc, bytes, n)?;
    let (values, used) = cut_values(alloc, &lengths, bytes.split_at(at).1)?;
    Ok((values, at + used))
}

/// The values of these lengths at the front, and how many bytes they take.
fn cut_values<'a, T: Holds<'a>>(
    alloc: Global,
    lengths: &[i32],
    bytes: &'a [u8],
) -> R<(Vec<T>, usize)>
    ensures stands { IfOk result (λ x. AreCut lengths.now bytes.now (map T.held x.0.items) x.1) }
    ensures count { IfOk result (λ x. vec_len x.0 ≡ length lengths.now) }
    ensures made { IfOk result (λ x. All T.IsMade x.0.items) }
    ensures within { IfOk result (λ x. x.1 ≤ length bytes.now) }
    ensures only { OnFault result (NoneAreCut lengths.now bytes.now) }
    ensures which { RefusedOnly (λ e. (e ≡ Refusal.Truncated) ⊎ (e ≡ Refusal.Value) ⊎ (e ≡ Refusal.Limit)) result }
    ensures limit { LimitJustWhere (IsCutLong lengths.now bytes.now) result }
{
    let mut values = Vec::with_capacity(alloc, lengths.len())?;
    let mut at = 0;
    for announced in lengths {
        let rest = bytes.split_at(at).1;
        let size = size_within(*announced, rest.len())?;
        values.push(T::of_bytes(alloc, rest.split_at(size).0)?)?;
        at += size;
    }
    Ok((values, at))
}

/// The announced length, of which at most `left` are there.
fn size_within(announced: i32, left: usize) -> R<usize>
    ensures stands { IfOk result (λ size. announced ≡ pos size) }
    ensures within { IfOk result (λ size. size ≤ left) }
    ensures only { OnFault result ((size : ℕ) → announced ≡ pos size → size ≤ left → ⊥) }
    ensures which { RefusedOnly (λ e. (e ≡ Refusal.Truncated) ⊎ (e ≡ Refusal.Value) ⊎ (e ≡ Refusal.Limit)) result }
    ensures limit { LimitJustWhere (IsLong announced) result }
{
    if announced < 0 {
        return Err(Refusal::Value);
    }
    let size = announced as usize;
    if size > MOST_BYTES_OF_VALUE {
        return Err(Refusal::Limit);
    }
    if size > left {
        return Err(Refusal::Truncated);
    }
    Ok(size)
}
