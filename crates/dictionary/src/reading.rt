//! From the bytes of a page to indexes.

ghost use Rattle.std.specs.Prelude.{◌≡◌, ℕ, ◌+◌, ◌<◌, ◌≤◌, ◌⊎◌, ◌↔◌, All, length, vec_len, IfOk, IsTrue};
ghost use Rattle.bits.specs.Refusals.{OnFault, RefusedOnly};
ghost use Rattle.bits.specs.Codec.{NothingStands};
ghost use Rattle.dictionary.specs.IndexPages.{AreIndexesOf, IsIndexPage};

use bits::{R, Refusal};
use std::alloc::Global;

/// The greatest width of indexes: they are numbers of 32 bits.
const MOST_BITS: u8 = 32;

/// Whether each index has an entry, of `size` entries.
pub fn are_within(indexes: &[u32], size: usize) -> bool
    ensures { IsTrue result ↔ All (λ i. i < size) indexes.now }
{
    indexes.iter().all(|index| (*index as usize) < size)
}

/// The first `n` indexes of a page over a dictionary of `size` entries, and how many bytes they take:
/// one byte of width, then the hybrid without a length. Of width 0 all indexes are 0, and nothing more
/// is read. Bytes after them are left. `n` = 0 takes the byte of width alone.
/// (parquet-format, Encodings.md, "Dictionary Encoding".)
///
/// Refused Value where the width is above 32 or an index is past the dictionary's end, Truncated where
/// there is no byte of width, and else as [`hybrid_rle::decode`] is: only where no `n` indexes stand
/// there. Never refused Limit.
///
/// Takes one pass over the bytes and one over the indexes. Of width 0, and in repeated runs, no bytes
/// count the indexes: room is asked for `n` of them.
pub fn decode_indexes(alloc: Global, size: usize, bytes: &[u8], n: usize) -> R<(Vec<u32>, usize)>
    ensures stands { IfOk result (λ x. IsIndexPage size bytes.now n x.0.items x.1) }
    ensures count { IfOk result (λ x. vec_len x.0 ≡ n) }
    ensures within { IfOk result (λ x. x.1 ≤ length bytes.now) }
    ensures only { OnFault result (NothingStands (IsIndexPage size bytes.now n)) }
    ensures which { RefusedOnly (λ e. (e ≡ Refusal.Truncated) ⊎ (e ≡ Refusal.Thrift) ⊎ (e ≡ Refusal.Value)) result }
{
    let Some((width, rest)) = bytes.split_first() else {
        return Err(Refusal::Truncated);
    };
    if *width > MOST_BITS {
        return Err(Refusal::Value);
    }
    let (indexes, used) = of_width(alloc, u32::from(*width), rest, n)?;
    if !are_within(&indexes, size) {
        return Err(Refusal::Value);
    }
    Ok((indexes, 1 + used))
}

/// The first `n` indexes of `width` bits each, and how many bytes they take.
fn of_width(alloc: Global, width: u32, bytes: &[u8], n: usize) -> R<(Vec<u32>, usize)>
    requires { width ≤ 32 }
    ensures stands { IfOk result (λ x. AreIndexesOf width bytes.now n x.0.items x.1) }
    ensures count { IfOk result (λ x. vec_len x.0 ≡ n) }
    ensures within { IfOk result (λ x. x.1 ≤ length bytes.now) }
    ensures only { OnFault result (NothingStands (AreIndexesOf width bytes.now n)) }
    ensures which { RefusedOnly (λ e. (e ≡ Refusal.Truncated) ⊎ (e ≡ Refusal.Thrift) ⊎ (e ≡ Refusal.Value)) result }
{
    if width > 0 {
        return hybrid_rle::decode(alloc, width, bytes, n);
    }
    let mut indexes = Vec::new(alloc);
    indexes.resize(n, 0)?;
    Ok((indexes, 0))
}
