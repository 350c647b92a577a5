//! From bytes to numbers.

ghost use Rattle.std.specs.Prelude.{◌≡◌, ◌<◌, ◌≤◌, ◌⊎◌, length, map, vec_len, IfOk};
ghost use Rattle.std.specs.Int.{w32, w64};
ghost use Rattle.bits.specs.Refusals.{OnFault, RefusedOnly};
ghost use Rattle.bits.specs.Codec.{NothingStands};
ghost use Rattle.delta.specs.Delta.{IsDelta};
ghost use Rattle.delta.specs.inner.Taken.{AreNeeded};

use crate::blocks::take_block;
use crate::header::read_header;
use crate::integer::Integer;
use bits::{R, Refusal};
use std::alloc::Global;

/// The first `n` numbers of 32 bits, and how many bytes they take. As [`decode_i64`], in its refusals
/// and its cost too; a first value or a least delta beyond 32 bits is taken modulo 2^32.
pub fn decode_i32(alloc: Global, bytes: &[u8], n: usize) -> R<(Vec<i32>, usize)>
    ensures stands { IfOk result (λ x. IsDelta w32 bytes.now n x.0.items x.1) }
    ensures count { IfOk result (λ x. vec_len x.0 ≡ n) }
    ensures within { IfOk result (λ x. x.1 ≤ length bytes.now) }
    ensures only { OnFault result (NothingStands (IsDelta w32 bytes.now n)) }
    ensures which { RefusedOnly (λ e. (e ≡ Refusal.Truncated) ⊎ (e ≡ Refusal.Thrift) ⊎ (e ≡ Refusal.Value)) result }
{
    decode(alloc, bytes, n)
}

/// The first `n` numbers of 64 bits, and how many bytes they take. Bytes after them are left; `n` = 0
/// takes the four varints of a header.
///
/// The header says how many deltas a block and a miniblock have, how many values there are, and the
/// first of them. The last needed miniblock is there whole; of those that are not needed only the
/// width byte is, whatever it is. Sums wrap. (parquet-format, Encodings.md, "Delta Encoding".)
///
/// Refused Truncated, Thrift (a varint of more than ten bytes, or of more than 64 bits) and Value (a
/// block of no deltas or of no multiple of 128, miniblocks that do not divide it or of no multiple of
/// 32, a width above 64, a count other than `n`) only where no `n` numbers stand there. Never refused
/// Limit.
///
/// Takes one pass over the bytes; a miniblock is unpacked when it is met, and one of width 0 is
/// filled. Room is asked for values whose miniblock is there, and for no more than `n`, whatever the
/// header says.
pub fn decode_i64(alloc: Global, bytes: &[u8], n: usize) -> R<(Vec<i64>, usize)>
    ensures stands { IfOk result (λ x. IsDelta w64 bytes.now n x.0.items x.1) }
    ensures count { IfOk result (λ x. vec_len x.0 ≡ n) }
    ensures within { IfOk result (λ x. x.1 ≤ length bytes.now) }
    ensures only { OnFault result (NothingStands (IsDelta w64 bytes.now n)) }
    ensures which { RefusedOnly (λ e. (e ≡ Refusal.Truncated) ⊎ (e ≡ Refusal.Thrift) ⊎ (e ≡ Refusal.Value)) result }
{
    decode(alloc, bytes, n)
}

/// The first `n` numbers, and how many bytes they take.
pub fn decode<T: Integer>(alloc: Global, bytes: &[u8], n: usize) -> R<(Vec<T>, usize)>
    ensures stands { IfOk result (λ x. IsDelta T.width bytes.now n (map T.seen x.0.items) x.1) }
    ensures count { IfOk result (λ x. vec_len x.0 ≡ n) }
    ensures within { IfOk result (λ x. x.1 ≤ length bytes.now) }
    ensures only { OnFault result (NothingStands (IsDelta T.width bytes.now n)) }
    ensures which { RefusedOnly (λ e. (e ≡ Refusal.Truncated) ⊎ (e ≡ Refusal.Thrift) ⊎ (e ≡ Refusal.Value)) result }
{
    let header = read_header(bytes, n)?;
    let mut values = Vec::new(alloc);
    if n == 0 {
        return Ok((values, header.used));
    }
    values.push(T::wrapped(header.first))?;
    let body = bytes.split_at(header.used).1;
    let mut needed = needed_miniblocks(n, header.size);
    let mut at = 0;
    'blocks: while needed > 0 {
        let here = header.miniblocks.min(needed);
        let left = n - values.len();
        let rest = body.split_at(at).1;
        at += take_block(
            alloc,
            header.miniblocks,
            header.size,
            here,
            rest,
            left,
            &mut values,
        )?;
        needed -= here;
    }
    Ok((values, header.used + at))
}

/// How many miniblocks have the deltas of `n` values.
fn needed_miniblocks(n: usize, size: usize) -> usize
    requires { 0 < size }
    ensures { AreNeeded n size result }
{
    n.saturating_sub(1).div_ceil(size)
}
