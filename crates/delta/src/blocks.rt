//! Blocks of packed deltas, added up.

ghost use Rattle.std.specs.Prelude.{◌≡◌, ℕ, ◌+◌, ◌*◌, ◌%◌, ◌<◌, ◌≤◌, ◌⊎◌, length, map, vec_len, replicate, OnOk, IfOk};
ghost use Rattle.bits.specs.Refusals.{OnFault, RefusedOnly, RefusedMemoryOnly};
ghost use Rattle.bits.specs.Codec.{NothingStands};
ghost use Rattle.delta.specs.Delta.{IsMiniblock, AreMiniblocks, IsBlock};
ghost use Rattle.delta.specs.inner.Taken.{Adds, deltas_of, AreTaken, IsTaken};

use crate::integer::Integer;
use bits::{R, Refusal, read_uleb, unpack, unzigzag};
use std::alloc::Global;

/// Adds the deltas of the block at the front, at most `left` of them, and returns how many bytes the
/// block takes: it has `needed` of its `miniblocks` miniblocks.
pub fn take_block<T: Integer>(
    alloc: Global,
    miniblocks: usize,
    size: usize,
    needed: usize,
    bytes: &[u8],
    left: usize,
    values: &mut Vec<T>,
) -> R<usize>
    requires whole { size % 32 ≡ 0 }
    requires few { needed ≤ miniblocks }
    requires some { 0 < vec_len values.old }
    ensures taken { IfOk result (IsTaken (IsBlock miniblocks size needed bytes.now) T.width left (map T.seen values.old.items) (map T.seen values.new.items)) }
    ensures some { OnOk result (0 < vec_len values.new) }
    ensures within { IfOk result (λ used. used ≤ length bytes.now) }
    ensures only { OnFault result (NothingStands (IsBlock miniblocks size needed bytes.now)) }
    ensures which { RefusedOnly (λ e. (e ≡ Refusal.Truncated) ⊎ (e ≡ Refusal.Thrift) ⊎ (e ≡ Refusal.Value)) result }
{
    let (least, at) = read_uleb(bytes)?;
    let rest = bytes.split_at(at).1;
    if rest.len() < miniblocks {
        return Err(Refusal::Truncated);
    }
    let (widths, body) = rest.split_at(miniblocks);
    let used = take_miniblocks(
        alloc,
        size,
        widths.split_at(needed).0,
        unzigzag(least),
        body,
        left,
        values,
    )?;
    Ok(at + miniblocks + used)
}

/// Adds the deltas of miniblocks of these widths, at most `left` of them, and returns how many bytes
/// the miniblocks take.
fn take_miniblocks<T: Integer>(
    alloc: Global,
    size: usize,
    widths: &[u8],
    least: i64,
    bytes: &[u8],
    left: usize,
    values: &mut Vec<T>,
) -> R<usize>
    requires whole { size % 32 ≡ 0 }
    requires some { 0 < vec_len values.old }
    ensures taken { IfOk result (AreTaken (AreMiniblocks size widths.now bytes.now) T.width least left (map T.seen values.old.items)
        (map T.seen values.new.items)) }
    ensures some { OnOk result (0 < vec_len values.new) }
    ensures within { IfOk result (λ used. used ≤ length bytes.now) }
    ensures only { OnFault result (NothingStands (AreMiniblocks size widths.now bytes.now)) }
    ensures which { RefusedOnly (λ e. (e ≡ Refusal.Truncated) ⊎ (e ≡ Refusal.Value)) result }
{
    let mut at: usize = 0;
    let mut rest = left;
    for width in widths {
        at += take_miniblock(
            alloc,
            size,
            *width,
            least,
            bytes.split_at(at).1,
            rest,
            values,
        )?;
        rest = rest.saturating_sub(size);
    }
    Ok(at)
}

/// Adds the deltas of the miniblock of this width at the front, at most `left` of them, and returns
/// how many bytes the miniblock takes.
fn take_miniblock<T: Integer>(
    alloc: Global,
    size: usize,
    width: u8,
    least: i64,
    bytes: &[u8],
    left: usize,
    values: &mut Vec<T>,
) -> R<usize>
    requires whole { size % 32 ≡ 0 }
    requires some { 0 < vec_len values.old }
    ensures taken { IfOk result (AreTaken (IsMiniblock size width bytes.now) T.width least left (map T.seen values.old.items) (map T.seen values.new.items)) }
    ensures some { OnOk result (0 < vec_len values.new) }
    ensures within { IfOk result (λ used. used ≤ length bytes.now) }
    ensures only { OnFault result (NothingStands (IsMiniblock size width bytes.now)) }
    ensures which { RefusedOnly (λ e. (e ≡ Refusal.Truncated) ⊎ (e ≡ Refusal.Value)) result }
{
    if width > 64 {
        return Err(Refusal::Value);
    }
    let room = (size as u128 / 8) * u128::from(width);
    if (bytes.len() as u128) < room {
        return Err(Refusal::Truncated);
    }
    let count = left.min(size);
    if width == 0 {
        add_least(least, count, values)?;
    } else {
        let numbers = unpack(alloc, bytes, u32::from(width), count)?;
        add_numbers(least, &numbers, values)?;
    }
    Ok(room as usize)
}

/// Adds the least delta and each number, one after the other, to the last value.
fn add_numbers<T: Integer>(least: i64, numbers: &[u64], values: &mut Vec<T>) -> R<()>
    requires { 0 < vec_len values.old }
    ensures added { OnOk result (Adds T.width (deltas_of least numbers.now) (map T.seen values.old.items) (map T.seen values.new.items)) }
    ensures some { OnOk result (0 < vec_len values.new) }
    ensures which { RefusedMemoryOnly result }
{
    let mut sum = values[values.len() - 1];
    for number in numbers {
        sum = sum.step(least, *number);
        values.push(sum)?;
    }
    Ok(())
}

/// Adds the least delta to the last value, `count` times.
fn add_least<T: Integer>(least: i64, count: usize, values: &mut Vec<T>) -> R<()>
    requires { 0 < vec_len values.old }
    ensures added { OnOk result (Adds T.width (deltas_of least (replicate count 0)) (map T.seen values.old.items) (map T.seen values.new.items)) }
    ensures some { OnOk result (0 < vec_len values.new) }
    ensures which { RefusedMemoryOnly result }
{
    let mut sum = values[values.len() - 1];
    for _ in 0..count {
        sum = sum.step(least, 0);
        values.push(sum)?;
    }
    Ok(())
}
