//! What stands before the blocks.

ghost use Rattle.std.specs.Prelude.{◌≡◌, ℕ, ◌+◌, ◌*◌, ◌%◌, ◌<◌, ◌≤◌, ◌⊎◌, ℤ, length, IfOk};
ghost use Rattle.bits.specs.Refusals.{OnFault, RefusedOnly};
ghost use Rattle.bits.specs.Codec.{NothingStands, InTurn, AreInTurn};
ghost use Rattle.bits.specs.Varint.{IsUleb};
ghost use Rattle.delta.specs.Delta.{IsHeader};

use bits::{R, Refusal, read_uleb, unzigzag};

/// What the header says of the blocks: how many miniblocks each has, how many deltas a miniblock has,
/// and the first value; and how many bytes the header takes.
#[derive(Debug, Clone, Copy)]
pub struct Header {
    pub miniblocks: usize,
    pub size: usize,
    pub first: i64,
    pub used: usize,
}

/// The header at the front, of `n` values.
pub fn read_header(bytes: &[u8], n: usize) -> R<Header>
    ensures stands { IfOk result (λ h. IsHeader bytes.now h.miniblocks h.size n h.first h.used) }
    ensures within { IfOk result (λ h. h.used ≤ length bytes.now) }
    ensures only { OnFault result ((miniblocks size used : ℕ) (first : ℤ) → IsHeader bytes.now miniblocks size n first used → ⊥) }
    ensures which { RefusedOnly (λ e. (e ≡ Refusal.Truncated) ⊎ (e ≡ Refusal.Thrift) ⊎ (e ≡ Refusal.Value)) result }
{
    let ([block, miniblocks, count, first], used) = read_four(bytes)?;
    if count != n as u64 {
        return Err(Refusal::Value);
    }
    let size = miniblock_size(block, miniblocks)?;
    Ok(Header {
        miniblocks: miniblocks as usize,
        size: size as usize,
        first: unzigzag(first),
        used,
    })
}

/// The four varints at the front, and how many bytes they take.
fn read_four(bytes: &[u8]) -> R<([u64; 4], usize)>
    ensures count { IfOk result (λ x. length x.0 ≡ 4) }
    ensures stands { IfOk result (λ x. InTurn IsUleb bytes.now x.0 x.1) }
    ensures within { IfOk result (λ x. x.1 ≤ length bytes.now) }
    ensures only { OnFault result (NothingStands (AreInTurn IsUleb 4 bytes.now)) }
    ensures which { RefusedOnly (λ e. (e ≡ Refusal.Truncated) ⊎ (e ≡ Refusal.Thrift)) result }
{
    let mut numbers = [0; 4];
    let mut at = 0;
    for i in 0..4 {
        let (number, used) = read_uleb(bytes.split_at(at).1)?;
        numbers[i] = number;
        at += used;
    }
    Ok((numbers, at))
}

/// How many deltas a miniblock has, where a block has `block` of them in so many miniblocks.
fn miniblock_size(block: u64, miniblocks: u64) -> R<u64>
    ensures stands { IfOk result (λ size. miniblocks * size ≡ block) }
    ensures whole { IfOk result (λ size. (0 < block) × (block % 128 ≡ 0) × (size % 32 ≡ 0)) }
    ensures only { OnFault result ((size : ℕ) → miniblocks * size ≡ block → 0 < block → block % 128 ≡ 0 → size % 32 ≡ 0 → ⊥) }
    ensures which { RefusedOnly (λ e. e ≡ Refusal.Value) result }
{
    if block == 0 || block % 128 != 0 || miniblocks == 0 || block % miniblocks != 0 {
        return Err(Refusal::Value);
    }
    let size = block / miniblocks;
    if size % 32 != 0 {
        return Err(Refusal::Value);
    }
    Ok(size)
}
