//! From bytes to numbers.

ghost use Rattle.std.specs.Prelude.{◌≡◌, ◌+◌, ◌*◌, ◌%◌, ◌^◌, ◌<◌, ◌≤◌, ◌⊎◌, length, map, vec_len, IfOk};
ghost use Rattle.bits.specs.Refusals.{OnFault, RefusedOnly};
ghost use Rattle.bits.specs.Codec.{NothingStands};
ghost use Rattle.hybrid_rle.specs.Hybrid.{little_endian, IsBody, IsRun, IsHybrid};
ghost use Rattle.hybrid_rle.specs.inner.Taken.{IsTaken, Lacks};

use crate::number::{Number, is_narrow};
use bits::{R, Refusal, read_uleb};
use std::alloc::Global;

/// The first `n` numbers of `width` bits (at most 64, and at most 32 for a `u32`: that is the
/// caller's duty), and how many bytes their runs take. Bytes after them are left; `n` = 0 takes none.
///
/// The runs are read until they have `n` numbers: runs of no numbers too, but none after the last
/// that is needed. A last packed run may be cut where the bits that are needed are there. (parquet-format,
/// Encodings.md, "Run Length Encoding / Bit-Packing Hybrid".)
///
/// Refused Truncated, Thrift (a varint of more than ten bytes, or of more than 64 bits) and Value (a
/// repeated value of more than `width` bits, also in a run of no numbers) only where no `n` numbers
/// stand there. Never refused Limit.
///
/// Takes one pass over the bytes; repeated runs are filled, packed runs unpacked. A run asks for room
/// for its numbers, and for no more than `n` asks for, whatever its header says.
pub fn decode<T: Number>(alloc: Global, width: u32, bytes: &[u8], n: usize) -> R<(Vec<T>, usize)>
    requires { width ≤ T.widest }
    ensures stands { IfOk result (λ x. IsHybrid width bytes.now n (map T.seen x.0.items) x.1) }
    ensures count { IfOk result (λ x. vec_len x.0 ≡ n) }
    ensures within { IfOk result (λ x. x.1 ≤ length bytes.now) }
    ensures only { OnFault result (NothingStands (IsHybrid width bytes.now n)) }
    ensures which { RefusedOnly (λ e. (e ≡ Refusal.Truncated) ⊎ (e ≡ Refusal.Thrift) ⊎ (e ≡ Refusal.Value)) result }
{
    let mut numbers = Vec::new(alloc);
    let mut at = 0;
    'runs: while numbers.len() < n {
        let left = n - numbers.len();
        at += take_run(alloc, width, bytes.split_at(at).1, left, &mut numbers)?;
    }
    Ok((numbers, at))
}

/// Appends the numbers of the first run, at most `left` of them, and returns how many
/// bytes the run takes.
fn take_run<T: Number>(
    alloc: Global,
    width: u32,
    bytes: &[u8],
    left: usize,
    numbers: &mut Vec<T>,
) -> R<usize>
    requires wide { width ≤ T.widest }
    requires room { vec_len numbers.old + left < 2 ^ 64 }
    ensures numbers { IfOk result (IsTaken (IsRun width) bytes.now left (map T.seen numbers.old.items) (map T.seen numbers.new.items)) }
    ensures progress { IfOk result (λ used. 0 < used) }
    ensures only { OnFault result (Lacks (IsRun width) bytes.now left) }
    ensures which { RefusedOnly (λ e. (e ≡ Refusal.Truncated) ⊎ (e ≡ Refusal.Thrift) ⊎ (e ≡ Refusal.Value)) result }
{
    let (header, at) = read_uleb(bytes)?;
    let body = bytes.split_at(at).1;
    let size = if header % 2 == 0 {
        take_repeated(width, header, body, left, numbers)?
    } else {
        take_packed(alloc, width, header, body, left, numbers)?
    };
    Ok(at + size)
}

/// Puts the number after an even header at the end, as often as the header says, and at most `left`
/// times; returns how many bytes the number takes.
fn take_repeated<T: Number>(
    width: u32,
    header: u64,
    bytes: &[u8],
    left: usize,
    numbers: &mut Vec<T>,
) -> R<usize>
    requires wide { width ≤ T.widest }
    requires even { header % 2 ≡ 0 }
    requires room { vec_len numbers.old + left < 2 ^ 64 }
    ensures numbers { IfOk result (IsTaken (IsBody width header) bytes.now left (map T.seen numbers.old.items) (map T.seen numbers.new.items)) }
    ensures only { OnFault result (Lacks (IsBody width header) bytes.now left) }
    ensures which { RefusedOnly (λ e. (e ≡ Refusal.Truncated) ⊎ (e ≡ Refusal.Value)) result }
{
    let size = width.div_ceil(8) as usize;
    if bytes.len() < size {
        return Err(Refusal::Truncated);
    }
    let value = number_of(bytes.split_at(size).0);
    if !is_narrow(value, width) {
        return Err(Refusal::Value);
    }
    let count = (header / 2).min(left as u64) as usize;
    numbers.resize(numbers.len() + count, T::from_number(value))?;
    Ok(size)
}

/// Puts the packed numbers after an odd header at the end, at most `left` of them; returns how many
/// bytes the run takes.
fn take_packed<T: Number>(
    alloc: Global,
    width: u32,
    header: u64,
    bytes: &[u8],
    left: usize,
    numbers: &mut Vec<T>,
) -> R<usize>
    requires wide { width ≤ T.widest }
    requires odd { header % 2 ≡ 1 }
    ensures numbers { IfOk result (IsTaken (IsBody width header) bytes.now left (map T.seen numbers.old.items) (map T.seen numbers.new.items)) }
    ensures only { OnFault result (Lacks (IsBody width header) bytes.now left) }
    ensures which { RefusedOnly (λ e. e ≡ Refusal.Truncated) result }
{
    let groups = u128::from(header / 2);
    let whole = groups * u128::from(width);
    let size = if whole < bytes.len() as u128 {
        whole as usize
    } else {
        bytes.len()
    };
    let count = if groups * 8 < left as u128 {
        (groups * 8) as usize
    } else {
        left
    };
    let packed = T::unpacked(alloc, bytes.split_at(size).0, width, count)?;
    numbers.extend_from_slice(&packed)?;
    Ok(size)
}

/// The number of the bytes, the lowest first.
fn number_of(bytes: &[u8]) -> u64
    requires { length bytes.now ≤ 8 }
    ensures { result ≡ little_endian bytes.now }
{
    let mut number: u64 = 0;
    for k in 0..bytes.len() {
        number = number * 256 + u64::from(bytes[bytes.len() - 1 - k]);
    }
    number
}
