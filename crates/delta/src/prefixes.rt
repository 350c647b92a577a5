//! Byte values by what they share with the value before.

ghost use Rattle.std.specs.Prelude.{◌≡◌, ℕ, ◌+◌, ◌≤◌, ◌⊎◌, [], ◌++◌, length, take, pos, IfOk, IfErr, OnOk, OnErr};
ghost use Rattle.std.specs.Borrow.{sem};
ghost use Rattle.bits.specs.Refusals.{OnFault, RefusedOnly, LimitJustWhere, IsOfValues};
ghost use Rattle.bits.specs.Codec.{NothingStands};
ghost use Rattle.bits.specs.Faults.{refusal_of};
ghost use Rattle.delta.specs.ByteDeltas.{IsPrefixed, IsPrefixesOver, natural};
ghost use Rattle.delta.specs.inner.Shared.{AreShared, IsSharedLong, IsLongPair};
ghost use Rattle.delta.specs.ValuesLeft.{values_left, last_taken, Advances, Gives, EndsAs};

use crate::reading::decode_i32;
use bits::{Fault, R, Refusal};
use plain::MOST_BYTES_OF_VALUE;
use std::alloc::Global;

/// Byte values in DELTA_BYTE_ARRAY, one by one. Only the value that was taken last is held, since a
/// few bytes can announce many long values.
#[derive(Debug, Drop)]
pub struct Prefixed<'a> {
    prefixes: Vec<i32>,
    lengths: Vec<i32>,
    index: usize,
    value: Vec<u8>,
    rest: &'a [u8],
}

/// The first `n` byte values, to be taken one by one, and how many bytes they take. Bytes after them
/// are ignored.
///
/// The lengths of the shared prefixes stand first, as [`decode_i32`] reads them, then the lengths of
/// the suffixes, and then the bytes of all suffixes. Each value is a prefix of the value before it
/// followed by its suffix. (parquet-format, Encodings.md, "Delta Strings".)
///
/// Refused Limit exactly when a prefix and a suffix are announced with more than 16 MiB together, the
/// prefix is no longer than the value before, and the values before are there. Refused Truncated,
/// Thrift and Value (as by [`decode_i32`], a negative length, and a prefix longer than the value
/// before) only where no `n` values stand there.
///
/// Looks only at the lengths, in one pass over each list, and keeps both: 8 bytes for each value.
pub fn decode_prefixes<'a>(alloc: Global, bytes: &'a [u8], n: usize) -> R<(Prefixed<'a>, usize)>
    ensures stands { IfOk result (λ x. IsPrefixed bytes.now n (values_left x.0) x.1) }
    ensures none_taken { IfOk result (λ x. last_taken x.0 ≡ []) }
    ensures within { IfOk result (λ x. x.1 ≤ length bytes.now) }
    ensures only { OnFault result (NothingStands (IsPrefixed bytes.now n)) }
    ensures which { RefusedOnly IsOfValues result }
    ensures limit { LimitJustWhere (IsPrefixesOver bytes.now n) result }
{
    let (prefixes, at) = decode_i32(alloc, bytes, n)?;
    let others = bytes.split_at(at).1;
    let (lengths, then) = decode_i32(alloc, others, n)?;
    let rest = others.split_at(then).1;
    let used = suffixes_size(&prefixes, &lengths, rest)?;
    let values = Prefixed {
        prefixes,
        lengths,
        index: 0,
        value: Vec::new(alloc),
        rest,
    };
    Ok((values, at + then + used))
}

/// How many bytes the suffixes at the front take, of values with these lengths.
fn suffixes_size(prefixes: &[i32], lengths: &[i32], bytes: &[u8]) -> R<usize>
    requires { length prefixes.now ≡ length lengths.now }
    ensures stands { IfOk result (AreShared [] prefixes.now lengths.now bytes.now) }
    ensures within { IfOk result (λ used. used ≤ length bytes.now) }
    ensures only { OnFault result ((used : ℕ) → AreShared [] prefixes.now lengths.now bytes.now used → ⊥) }
    ensures which { RefusedOnly (λ e. (e ≡ Refusal.Truncated) ⊎ (e ≡ Refusal.Value) ⊎ (e ≡ Refusal.Limit)) result }
    ensures limit { LimitJustWhere (IsSharedLong [] prefixes.now lengths.now bytes.now) result }
{
    let mut at = 0;
    let mut before = 0;
    for i in 0..prefixes.len() {
        let rest = bytes.split_at(at).1;
        let (prefix, size) = lengths_within(prefixes[i], lengths[i], before, rest.len())?;
        at += size;
        before = prefix + size;
    }
    Ok(at)
}

/// The announced lengths of a prefix, of a value of `before` bytes, and of a suffix, of which at most
/// `left` bytes are there.
fn lengths_within(prefix: i32, suffix: i32, before: usize, left: usize) -> R<(usize, usize)>
    ensures stands { IfOk result (λ x. (prefix ≡ pos x.0) × (suffix ≡ pos x.1)) }
    ensures within { IfOk result (λ x. (x.0 ≤ before) × (x.1 ≤ left)) }
    ensures short { IfOk result (λ x. x.0 + x.1 ≤ 16777216) }
    ensures only { OnFault result ((p z : ℕ) → prefix ≡ pos p → suffix ≡ pos z → p ≤ before → z ≤ left → ⊥) }
    ensures which { RefusedOnly (λ e. (e ≡ Refusal.Truncated) ⊎ (e ≡ Refusal.Value) ⊎ (e ≡ Refusal.Limit)) result }
    ensures limit { LimitJustWhere (IsLongPair prefix suffix before) result }
{
    if prefix < 0 || suffix < 0 {
        return Err(Refusal::Value);
    }
    let (shared, size) = (prefix as usize, suffix as usize);
    if shared > before {
        return Err(Refusal::Value);
    }
    if shared + size > MOST_BYTES_OF_VALUE {
        return Err(Refusal::Limit);
    }
    if size > left {
        return Err(Refusal::Truncated);
    }
    Ok((shared, size))
}

impl<'a> Prefixed<'a> {
    /// The next value, which is taken, or none at the end. It lies in memory that the next call uses
    /// again. It fails only when out of memory, and then nothing is taken. Linear in the suffix.
    pub fn next<'s>(&'s mut self) -> Result<Option<&'s [u8]>, Fault>
        ensures gives { Gives (values_left self.old) result }
        ensures* takes { sem 𝓛 (EndsAs self.entry result) }
    {
        if self.advance()? {
            Ok(Some(self.value()))
        } else {
            Ok(None)
        }
    }

    /// Takes the next value and returns whether there was one. From then on it is
    /// [`value`](Prefixed::value). It fails only when out of memory, and then nothing is taken.
    pub fn advance(&mut self) -> Result<bool, Fault>
        ensures { Advances self.old self.new result }
    {
        if self.index >= self.prefixes.len() || self.index >= self.lengths.len() {
            return Ok(false);
        }
        // `decode_prefixes` has checked the lengths: nothing is cut off below.
        let shared = natural(self.prefixes[self.index]);
        let size = natural(self.lengths[self.index]);
        let (suffix, rest) = self.rest.split_at(size.min(self.rest.len()));
        complete(&mut self.value, shared, suffix)?;
        self.rest = rest;
        self.index += 1;
        Ok(true)
    }

    /// The value that was taken last. Before the first one it is empty.
    pub fn value(&self) -> &[u8]
        ensures { result.now ≡ last_taken self.now }
    {
        &self.value
    }

    /// How many values are not taken yet.
    pub fn len(&self) -> usize
        ensures { result ≡ length (values_left self.now) }
    {
        let prefixes = self.prefixes.len().saturating_sub(self.index);
        prefixes.min(self.lengths.len().saturating_sub(self.index))
    }
}

/// Keeps the first `shared` bytes of the value, and appends the suffix. Room is asked for before anything
/// is cut off.
fn complete(value: &mut Vec<u8>, shared: usize, suffix: &[u8]) -> Result<(), Fault>
    ensures done { OnOk result (value.new.items ≡ take shared value.old.items ++ suffix.now) }
    ensures unchanged { OnErr result (value.new.items ≡ value.old.items) }
    ensures which { IfErr result (λ fault. refusal_of fault ≡ Refusal.Memory) }
{
    let cut = value.len().saturating_sub(shared);
    if value.reserve(suffix.len().saturating_sub(cut)).is_err() {
        return Err(Fault::Memory);
    }
    value.truncate(shared);
    match value.extend_from_slice(suffix) {
        Ok(()) => Ok(()),
        Err(_) => Err(Fault::Memory),
    }
}

/// The length, or 0 where it is negative.
fn natural(length: i32) -> usize
    ensures { result ≡ natural length }
{
    length.max(0) as usize
}
