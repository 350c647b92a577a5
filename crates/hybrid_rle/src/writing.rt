//! From numbers to bytes.

ghost use Rattle.std.specs.Prelude.{◌≡◌, ℕ, ◌+◌, ◌*◌, ◌%◌, ◌^◌, ◌<◌, ◌≤◌, ◌↔◌, List, length, map, take, replicate, slice_index, All, IfOk, OnOk, OnErr, IsTrue};
ghost use Rattle.bits.specs.Refusals.{OnFault, RefusedOnly};
ghost use Rattle.bits.specs.Codec.{Appends};
ghost use Rattle.hybrid_rle.specs.Hybrid.{IsHybrid};
ghost use Rattle.hybrid_rle.specs.inner.Put.{AppendsHybrid, Extends, with_zeros, IsPacking, IsPut};

use crate::number::{Number, is_narrow};
use bits::{R, Refusal, pack, write_uleb};

/// Writes the numbers at the end of `out`, `width` bits each (at most 64: that is the caller's
/// duty), in at most 80 + 9n bytes for n numbers.
///
/// Eight or more equal numbers are a repeated run; all else is packed in groups of eight, and the
/// last group is filled up with zeros, so that the bytes stand for the numbers whatever follows
/// them. So n equal numbers take at most 18 bytes, or one group's, and numbers that alternate their
/// bits and a header. (parquet-format, Encodings.md, "Run Length Encoding / Bit-Packing Hybrid".)
///
/// Refused Value exactly when a number has more than `width` bits, and never Limit. On a refusal
/// `out` is unchanged. Takes time in the numbers; each is looked at at most three times.
pub fn encode<T: Number>(width: u32, numbers: &[T], out: &mut Vec<u8>) -> R<()>
    requires { width ≤ 64 }
    ensures stands { let seen = map T.seen numbers.now in
        OnOk result (Appends (λ bytes. IsHybrid width bytes (length seen) seen) (80 + 9 * length seen) out.old.items out.new.items) }
    ensures only { let seen = map T.seen numbers.now in OnFault result ((bytes : List ℕ) (used : ℕ) → IsHybrid width bytes (length seen) seen used → ⊥) }
    ensures unfit { OnFault result (All (λ x. x < 2 ^ width) (map T.seen numbers.now) → ⊥) }
    ensures which { RefusedOnly (λ e. e ≡ Refusal.Value) result }
    ensures unchanged { OnErr result (out.new.items ≡ out.old.items) }
{
    let kept = out.len();
    let done = put_runs(width, numbers, out);
    if done.is_err() {
        out.truncate(kept);
    }
    done
}

/// Writes the numbers at the end; where it is refused, some of them may stand there.
fn put_runs<T: Number>(width: u32, numbers: &[T], out: &mut Vec<u8>) -> R<()>
    requires { width ≤ 64 }
    ensures stands { OnOk result (AppendsHybrid width (map T.seen numbers.now) out.old.items out.new.items) }
    ensures unfit { OnFault result (All (λ x. x < 2 ^ width) (map T.seen numbers.now) → ⊥) }
    ensures which { RefusedOnly (λ e. e ≡ Refusal.Value) result }
    ensures front { Extends out.old.items out.new.items }
{
    let mut at = 0;
    'runs: while at < numbers.len() {
        at += put_run(width, numbers.split_at(at).1, out)?;
    }
    Ok(())
}

/// Writes a run of the first numbers at the end, and returns how many these are.
fn put_run<T: Number>(width: u32, numbers: &[T], out: &mut Vec<u8>) -> R<usize>
    requires wide { width ≤ 64 }
    requires not_empty { 0 < length numbers.now }
    ensures put { IfOk result (IsPut width (map T.seen numbers.now) out.old.items out.new.items) }
    ensures unfit { OnFault result (All (λ x. x < 2 ^ width) (map T.seen numbers.now) → ⊥) }
    ensures which { RefusedOnly (λ e. e ≡ Refusal.Value) result }
    ensures front { Extends out.old.items out.new.items }
{
    let equal = count_equal(numbers);
    if equal < 8 {
        let count = count_to_pack(numbers);
        put_packed(width, numbers.split_at(count).0, out)?;
        return Ok(count);
    }
    put_repeated(width, numbers[0].number(), equal, out)?;
    Ok(equal)
}

/// How many of the first numbers are equal: at most as many as a header holds.
fn count_equal<T: Number>(numbers: &[T]) -> usize
    ensures within { result ≤ length numbers.now }
    ensures held { result < 2 ^ 63 }
    ensures equal { let seen = map T.seen numbers.now in take result seen ≡ replicate result (slice_index seen 0) }
{
    let most = numbers.len().min(usize::MAX / 2);
    for i in 0..most {
        if numbers[i].number() != numbers[0].number() {
            return i;
        }
    }
    most
}

/// How many of the first numbers to pack: groups of eight up to one that begins eight equal
/// numbers, or all.
fn count_to_pack<T: Number>(numbers: &[T]) -> usize
    ensures within { result ≤ length numbers.now }
    ensures progress { 0 < length numbers.now → 0 < result }
    ensures groups { result < length numbers.now → result % 8 ≡ 0 }
{
    for group in 1..numbers.len().div_ceil(8) {
        if count_equal(numbers.split_at(8 * group).1) >= 8 {
            return 8 * group;
        }
    }
    numbers.len()
}

/// Writes the number `count` times as a repeated run.
fn put_repeated(width: u32, number: u64, count: usize, out: &mut Vec<u8>) -> R<()>
    requires wide { width ≤ 64 }
    requires held { count < 2 ^ 63 }
    ensures put { (xs : List ℕ) → 8 ≤ count → count ≤ length xs → take count xs ≡ replicate count number
        → OnOk result (IsPut width xs out.old.items out.new.items count) }
    ensures unfit { OnFault result (number < 2 ^ width → ⊥) }
    ensures which { RefusedOnly (λ e. e ≡ Refusal.Value) result }
    ensures front { Extends out.old.items out.new.items }
{
    if !is_narrow(number, width) {
        return Err(Refusal::Value);
    }
    write_uleb(2 * count as u64, out)?;
    out.extend_from_slice(number.to_le_bytes().split_at(width.div_ceil(8) as usize).0)?;
    Ok(())
}

/// Writes the numbers as a packed run, whose last group is filled up with zeros.
fn put_packed<T: Number>(width: u32, numbers: &[T], out: &mut Vec<u8>) -> R<()>
    requires { width ≤ 64 }
    ensures put { OnOk result (IsPacking width (map T.seen numbers.now) out.old.items out.new.items) }
    ensures unfit { OnFault result (All (λ x. x < 2 ^ width) (map T.seen numbers.now) → ⊥) }
    ensures which { RefusedOnly (λ e. e ≡ Refusal.Value) result }
    ensures front { Extends out.old.items out.new.items }
{
    let groups = numbers.len().div_ceil(8);
    write_uleb(2 * groups as u64 + 1, out)?;
    for group in 0..groups {
        let eight = eight_numbers(numbers.split_at(8 * group).1);
        if !are_narrow(&eight, width) {
            return Err(Refusal::Value);
        }
        pack(&eight, width, out)?;
    }
    Ok(())
}

/// The first eight numbers; zeros where there are fewer.
fn eight_numbers<T: Number>(numbers: &[T]) -> [u64; 8]
    ensures { result ≡ take 8 (with_zeros (map T.seen numbers.now)) }
{
    let mut eight = [0; 8];
    for i in 0..numbers.len().min(8) {
        eight[i] = numbers[i].number();
    }
    eight
}

/// Whether each number has at most `width` bits.
fn are_narrow(numbers: &[u64], width: u32) -> bool
    requires { width ≤ 64 }
    ensures { IsTrue result ↔ All (λ x. x < 2 ^ width) numbers.now }
{
    numbers.iter().all(|number| is_narrow(*number, width))
}
