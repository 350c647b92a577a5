//! From numbers to bytes.

ghost use Rattle.std.specs.Prelude.{◌≡◌, ℕ, ◌+◌, ◌-◌, ◌*◌, ◌/◌, ◌^◌, ◌<◌, ◌≤◌, ◌++◌, List, All, min, length, map, take, drop, replicate, pos, ◌+ℤ◌, slice_index, slice_index_or, OnOk, OnErr, IfOk};
ghost use Rattle.std.specs.Int.{w32, w64, byte_len, int_wrap};
ghost use Rattle.bits.specs.Refusals.{RefusedMemoryOnly};
ghost use Rattle.bits.specs.Codec.{Appends};
ghost use Rattle.delta.specs.Delta.{IsMiniblock, AreMiniblocks, IsBlock, AreBlocks, IsDelta, AppendsDelta};
ghost use Rattle.delta.specs.Written.{deltas_from, IsLeast, AppendsWrittenDelta};
ghost use Rattle.delta.specs.inner.Taken.{Adds, deltas_of};
ghost use Rattle.delta.specs.inner.Put.{Extends, PutDeltas, PutBlock, AddsBlock, ExceedsLeast, AreWithin, AppendsMiniblocks};

use crate::integer::Integer;
use bits::{R, pack, write_uleb, zigzag};

/// Writes the numbers at the end of `out`, as [`encode_i64`] does, in at most 170 + 5n bytes.
pub fn encode_i32(values: &[i32], out: &mut Vec<u8>) -> R<()>
    ensures stands { let n = length values.now in OnOk result (Appends (λ bytes. IsDelta w32 bytes n values.now) (170 + 5 * n) out.old.items out.new.items) }
    ensures written { OnOk result (AppendsWrittenDelta w32 values.now out.old.items out.new.items) }
    ensures which { RefusedMemoryOnly result }
    ensures unchanged { OnErr result (out.new.items ≡ out.old.items) }
{
    encode(values, out)
}

/// Writes the numbers at the end of `out` in at most 298 + 9n bytes for n numbers: blocks of 128
/// deltas in four miniblocks, each block with the least of its deltas, each miniblock with as many bits
/// as its largest number needs, and no bits for miniblocks that are not needed. The last miniblock is
/// filled up with zeros, so that the bytes stand for the numbers whatever follows them. `written` says
/// the bytes. (parquet-format, Encodings.md, "Delta Encoding".)
///
/// Fails only when out of memory, and leaves `out` unchanged. Looks at each number three times.
pub fn encode_i64(values: &[i64], out: &mut Vec<u8>) -> R<()>
    ensures stands { let n = length values.now in OnOk result (Appends (λ bytes. IsDelta w64 bytes n values.now) (298 + 9 * n) out.old.items out.new.items) }
    ensures written { OnOk result (AppendsWrittenDelta w64 values.now out.old.items out.new.items) }
    ensures which { RefusedMemoryOnly result }
    ensures unchanged { OnErr result (out.new.items ≡ out.old.items) }
{
    encode(values, out)
}

/// Writes the numbers at the end of `out`.
pub fn encode<T: Integer>(values: &[T], out: &mut Vec<u8>) -> R<()>
    ensures stands { OnOk result (AppendsDelta T.width (map T.seen values.now) out.old.items out.new.items) }
    ensures written { OnOk result (AppendsWrittenDelta T.width (map T.seen values.now) out.old.items out.new.items) }
    ensures which { RefusedMemoryOnly result }
    ensures unchanged { OnErr result (out.new.items ≡ out.old.items) }
{
    let kept = out.len();
    let done = put_values(values, out);
    if done.is_err() {
        out.truncate(kept);
    }
    done
}

/// Writes the header and the blocks; where it is refused, some of them may stand there.
fn put_values<T: Integer>(values: &[T], out: &mut Vec<u8>) -> R<()>
    ensures stands { OnOk result (AppendsDelta T.width (map T.seen values.now) out.old.items out.new.items) }
    ensures written { OnOk result (AppendsWrittenDelta T.width (map T.seen values.now) out.old.items out.new.items) }
    ensures which { RefusedMemoryOnly result }
    ensures front { Extends out.old.items out.new.items }
{
    let first = first_number(values);
    out.extend_from_slice(&[0x80, 0x01, 0x04])?;
    write_uleb(values.len() as u64, out)?;
    write_uleb(zigzag(first), out)?;
    let mut at = 1;
    'blocks: while at < values.len() {
        put_block(values, at, out)?;
        at = (values.len() - at).min(128) + at;
    }
    Ok(())
}

/// The first value; 0 where there is none.
fn first_number<T: Integer>(values: &[T]) -> i64
    ensures is { let seen = map T.seen values.now in 0 < length seen → (slice_index_or seen 0 (pos 0) ≡ result) × (int_wrap T.width result ≡ result) }
    ensures first { slice_index_or (map T.seen values.now) 0 (pos 0) ≡ result }
{
    if values.is_empty() {
        return 0;
    }
    values[0].number()
}

/// Writes the block of the values from index `at` on.
fn put_block<T: Integer>(values: &[T], at: usize, out: &mut Vec<u8>) -> R<()>
    requires begun { 0 < at }
    requires some { at < length values.now }
    ensures put { OnOk result (PutDeltas T.width (map T.seen values.now) at out.old.items out.new.items) }
    ensures written { OnOk result (PutBlock T.width (map T.seen values.now) at out.old.items out.new.items) }
    ensures which { RefusedMemoryOnly result }
    ensures front { Extends out.old.items out.new.items }
{
    let least = least_delta(values, at);
    let numbers = block_numbers(values, at, least);
    let widths = widths_of(&numbers);
    let needed = (values.len() - at).min(128).div_ceil(32);
    write_uleb(zigzag(least), out)?;
    out.extend_from_slice(&widths)?;
    put_miniblocks(&numbers, &widths, needed, out)?;
    Ok(())
}

/// The least delta of the block of the values from index `at` on.
fn least_delta<T: Integer>(values: &[T], at: usize) -> i64
    requires begun { 0 < at }
    requires some { at < length values.now }
    ensures least { IsLeast (deltas_from T.width (map T.seen values.now) (at - 1)) result }
    ensures fits { int_wrap T.width result ≡ result }
{
    let mut least = values[at - 1].delta(values[at]);
    for i in at + 1..values.len().min(at.saturating_add(128)) {
        least = least.min(values[i - 1].delta(values[i]));
    }
    least
}

/// The packed numbers of the block of the values from index `at` on, and zeros after them.
fn block_numbers<T: Integer>(values: &[T], at: usize, least: i64) -> [u64; 128]
    requires begun { 0 < at }
    requires some { at < length values.now }
    ensures count { length result ≡ 128 }
    ensures narrow { All (λ x. x < 2 ^ (8 * byte_len T.width)) result }
    ensures added { AddsBlock T.width (map T.seen values.now) at least result }
    ensures exact { ExceedsLeast T.width (map T.seen values.now) at least result }
{
    let mut numbers = [0; 128];
    for i in 0..(values.len() - at).min(128) {
        numbers[i] = values[at + i - 1].gap(values[at + i], least);
    }
    numbers
}

/// How many bits the numbers of each miniblock need.
fn widths_of(numbers: &[u64]) -> [u8; 4]
    requires { length numbers.now ≡ 128 }
    ensures count { length result ≡ 4 }
    ensures narrow { (m : ℕ) → m < 4 → All (λ x. x < 2 ^ slice_index result m) (take 32 (drop (32 * m) numbers.now)) }
    ensures wide { (b m : ℕ) → m < 4 → All (λ x. x < 2 ^ b) (take 32 (drop (32 * m) numbers.now)) → slice_index result m ≤ b }
    ensures held { (m : ℕ) → m < 4 → slice_index result m ≤ 64 }
{
    [
        width_of(numbers.split_at(32).0),
        width_of(numbers.split_at(32).1.split_at(32).0),
        width_of(numbers.split_at(64).1.split_at(32).0),
        width_of(numbers.split_at(96).1),
    ]
}

/// How many bits the largest of the numbers needs.
fn width_of(numbers: &[u64]) -> u8
    ensures narrow { All (λ x. x < 2 ^ result) numbers.now }
    ensures wide { (b : ℕ) → All (λ x. x < 2 ^ b) numbers.now → result ≤ b }
    ensures held { result ≤ 64 }
{
    let mut largest: u64 = 0;
    for number in numbers {
        largest = largest.max(*number);
    }
    if largest == 0 {
        return 0;
    }
    (largest.ilog2() + 1) as u8
}

/// Writes the first `needed` miniblocks, each in its width.
fn put_miniblocks(numbers: &[u64], widths: &[u8], needed: usize, out: &mut Vec<u8>) -> R<()>
    requires count { length numbers.now ≡ 128 }
    requires widths { length widths.now ≡ 4 }
    requires narrow { (m : ℕ) → m < 4 → All (λ x. x < 2 ^ slice_index widths.now m) (take 32 (drop (32 * m) numbers.now)) }
    requires held { (m : ℕ) → m < 4 → slice_index widths.now m ≤ 64 }
    requires few { needed ≤ 4 }
    ensures stands { (most : ℕ) → AreWithin most widths.now → OnOk result (AppendsMiniblocks needed widths.now numbers.now most out.old.items out.new.items) }
    ensures which { RefusedMemoryOnly result }
    ensures front { Extends out.old.items out.new.items }
{
    for m in 0..needed {
        let part = numbers.split_at(32 * m).1.split_at(32).0;
        pack(part, u32::from(widths[m]), out)?;
    }
    Ok(())
}
