//! Numbers of some bits each, side by side.

ghost use Rattle.std.specs.Prelude.{◌≡◌, ℕ, ◌+◌, ◌*◌, ◌^◌, ◌<◌, ◌≤◌, List, length, map, take, slice_range, All, IfOk, OnOk, OnErr, vec_len};
ghost use Rattle.bits.specs.Refusals.{OnFault, RefusedOnly, RefusedMemoryOnly};
ghost use Rattle.bits.specs.Codec.{Appends};
ghost use Rattle.bits.specs.Bits.{bits, number, IsPacked, IsPadded, packed_size};

use crate::lanes::{Kept, MOST_BITS_OF_A_LANE, unpack_blocks};
use crate::refusal::{R, Refusal};
use std::alloc::Global;

/// The first `n` numbers of `width` bits each (at most 64), the lowest bit first.
///
/// Refused Truncated exactly when the bytes have fewer than `n * width` bits. (parquet-format,
/// Encodings.md, bit-packed runs.)
pub fn unpack(alloc: Global, bytes: &[u8], width: u32, n: usize) -> R<Vec<u64>>
    requires { width ≤ 64 }
    ensures stands { IfOk result (λ v. (vec_len v ≡ n) × IsPacked bytes.now width v.items) }
    ensures only { OnFault result ((numbers : List ℕ) → length numbers ≡ n → IsPacked bytes.now width numbers → ⊥) }
    ensures which { RefusedOnly (λ e. (e ≡ Refusal.Truncated) × (8 * length bytes.now < n * width)) result }
{
    unpacked(alloc, bytes, width, n)
}

/// The first `n` numbers of `width` bits each, kept in the type that the caller wants. It is refused as [`unpack`] is.
fn unpacked<T: Kept>(alloc: Global, bytes: &[u8], width: u32, n: usize) -> R<Vec<T>>
    requires wide { width ≤ 64 }
    requires fits { width ≤ T.widest }
    ensures stands { IfOk result (λ v. (vec_len v ≡ n) × IsPacked bytes.now width (map T.seen v.items)) }
    ensures only { OnFault result ((numbers : List ℕ) → length numbers ≡ n → IsPacked bytes.now width numbers → ⊥) }
    ensures which { RefusedOnly (λ e. (e ≡ Refusal.Truncated) × (8 * length bytes.now < n * width)) result }
{
    if (bytes.len() as u128) * 8 < (n as u128) * u128::from(width) {
        return Err(Refusal::Truncated);
    }
    let mut numbers = Vec::with_capacity(alloc, n)?;
    let at = if width <= MOST_BITS_OF_A_LANE {
        unpack_blocks(bytes, width, n, &mut numbers)?
    } else {
        0
    };
    unpack_rest(bytes, at, width, n, &mut numbers)?;
    Ok(numbers)
}

/// Appends the numbers that are missing from `n`, bit by bit; the first of them begins with byte `at`.
fn unpack_rest<T: Kept>(
    bytes: &[u8],
    at: usize,
    width: u32,
    n: usize,
    numbers: &mut Vec<T>,
) -> R<()>
    requires wide { width ≤ 64 }
    requires fits { width ≤ T.widest }
    requires few { length numbers.now.items ≤ n }
    requires room { n * width ≤ 8 * length bytes.now }
    requires used { 8 * at ≡ length numbers.now.items * width }
    requires begun { IsPacked bytes.now width (map T.seen numbers.now.items) }
    ensures count { OnOk result (length numbers.new.items ≡ n) }
    ensures stands { OnOk result (IsPacked bytes.now width (map T.seen numbers.new.items)) }
    ensures which { RefusedMemoryOnly result }
{
    let mut at = at;
    let mut offset: u32 = 0;
    for _ in numbers.len()..n {
        T::put(number_at(bytes, at, offset, width), numbers)?;
        offset += width;
        at += (offset / 8) as usize;
        offset %= 8;
    }
    Ok(())
}

/// The number of the `width` bits that begin with bit `offset` of byte `at`.
fn number_at(bytes: &[u8], at: usize, offset: u32, width: u32) -> u64
    requires wide { width ≤ 64 }
    requires in_byte { offset < 8 }
    requires within { 8 * at + offset + width ≤ 8 * length bytes.now }
    ensures { let start = 8 * at + offset in result ≡ number (slice_range (bits bytes.now) start (start + width)) }
{
    let mut value: u64 = 0;
    for k in 0..width {
        let place = offset + k;
        let bit = (bytes[at + (place / 8) as usize] >> (place % 8)) & 1;
        value += u64::from(bit) << k;
    }
    value
}

/// The first `n` numbers of `width` bits each (at most 32), the lowest bit first, as `u32`: levels and indexes have no
/// more bits. Refused Truncated exactly when the bytes have fewer than `n * width` bits.
pub fn unpack_u32(alloc: Global, bytes: &[u8], width: u32, n: usize) -> R<Vec<u32>>
    requires { width ≤ 32 }
    ensures stands { IfOk result (λ v. (vec_len v ≡ n) × IsPacked bytes.now width v.items) }
    ensures only { OnFault result ((numbers : List ℕ) → length numbers ≡ n → IsPacked bytes.now width numbers → ⊥) }
    ensures which { RefusedOnly (λ e. (e ≡ Refusal.Truncated) × (8 * length bytes.now < n * width)) result }
{
    unpacked(alloc, bytes, width, n)
}

/// Writes the numbers at the end of `out`, `width` bits each (at most 64), the lowest bit first,
/// in as few bytes as hold them; the bits after the last number are 0. Each number is below
/// `2^width`.
///
/// It fails only when out of memory; then `out` is unchanged.
pub fn pack(numbers: &[u64], width: u32, out: &mut Vec<u8>) -> R<()>
    requires wide { width ≤ 64 }
    requires fit { All (λ x. x < 2 ^ width) numbers.now }
    ensures stands { OnOk result (Appends (λ bytes. IsPadded bytes width numbers.now) (packed_size (length numbers.now) width) out.old.items out.new.items) }
    ensures which { RefusedMemoryOnly result }
    ensures unchanged { OnErr result (out.new.items ≡ out.old.items) }
{
    let kept = out.len();
    let done = put_all(numbers, width, out);
    if done.is_err() {
        out.truncate(kept);
    }
    done
}

/// Writes the numbers at the end; where it is refused, some of them may stand there.
fn put_all(numbers: &[u64], width: u32, out: &mut Vec<u8>) -> R<()>
    requires wide { width ≤ 64 }
    requires fit { All (λ x. x < 2 ^ width) numbers.now }
    ensures stands { OnOk result (Appends (λ bytes. IsPadded bytes width numbers.now) (packed_size (length numbers.now) width) out.old.items out.new.items) }
    ensures which { RefusedMemoryOnly result }
    ensures front { OnErr result (take (length out.old.items) out.new.items ≡ out.old.items) }
{
    let mut byte: u8 = 0;
    let mut filled: u32 = 0;
    for x in numbers {
        for k in 0..width {
            byte += (((*x >> k) & 1) as u8) << filled;
            filled += 1;
            if filled == 8 {
                out.push(byte)?;
                byte = 0;
                filled = 0;
            }
        }
    }
    if filled > 0 {
        out.push(byte)?;
    }
    Ok(())
}
