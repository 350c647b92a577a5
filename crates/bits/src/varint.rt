//! Numbers in groups of seven bits, and signed numbers as unsigned ones.

ghost use Rattle.std.specs.Prelude.{◌≡◌, ℕ, ◌≤◌, ◌↔◌, ◌⊎◌, ℤ, length, IfOk, IfErr, OnOk, OnErr};
ghost use Rattle.bits.specs.Refusals.{OnFault, RefusedMemoryOnly};
ghost use Rattle.bits.specs.Codec.{NothingStands, Appends};
ghost use Rattle.bits.specs.Varint.{IsUleb, IsShortestUleb, IsCutUleb, zigzag_of};

use crate::refusal::{R, Refusal};

/// The unsigned varint at the start of `bytes`, and how many bytes it takes (1 to 10; a longer
/// spelling than is needed is read). Takes no memory.
///
/// Refused Truncated exactly when the bytes end within it: fewer than ten, all with the high bit.
/// Refused Thrift where the tenth byte is not 0 or 1. (Thrift's compact protocol, "Integer
/// encoding".)
pub fn read_uleb(bytes: &[u8]) -> R<(u64, usize)>
    ensures stands { IfOk result (λ x. IsUleb bytes.now x.0 x.1) }
    ensures alone { IfOk result (λ x. (n used : ℕ) → IsUleb bytes.now n used → (n ≡ x.0) × (used ≡ x.1)) }
    ensures within { IfOk result (λ x. x.1 ≤ length bytes.now) }
    ensures only { OnFault result (NothingStands (IsUleb bytes.now)) }
    ensures which { IfErr result (λ e. (e ≡ Refusal.Truncated) ⊎ (e ≡ Refusal.Thrift)) }
    ensures truncated { (result ≡ Err Refusal.Truncated) ↔ IsCutUleb bytes.now }
{
    let mut value: u64 = 0;
    for (at, byte) in bytes.iter().enumerate() {
        if at == 9 && *byte > 1 {
            return Err(Refusal::Thrift);
        }
        value += ((*byte & 0x7f) as u64) << (7 * at);
        if *byte < 128 {
            return Ok((value, at + 1));
        }
    }
    Err(Refusal::Truncated)
}

/// The index of a signed number in 0, -1, 1, -2, 2 and so on.
pub fn zigzag(n: i64) -> u64
    ensures { result ≡ zigzag_of n }
{
    if n < 0 {
        (-(n + 1)) as u64 * 2 + 1
    } else {
        n as u64 * 2
    }
}

/// The signed number at an index in 0, -1, 1, -2, 2 and so on: the one whose [`zigzag`] is `n`.
pub fn unzigzag(n: u64) -> i64
    ensures undone { zigzag_of result ≡ n }
    ensures alone { (z : ℤ) → zigzag_of z ≡ n → result ≡ z }
{
    let half = (n / 2) as i64;
    if n % 2 == 0 { half } else { -half - 1 }
}

/// Writes the shortest varint of `n` (1 to 10 bytes) at the end of `out`. It fails only when
/// out of memory; then `out` is unchanged.
pub fn write_uleb(n: u64, out: &mut Vec<u8>) -> R<()>
    ensures stands { OnOk result (Appends (λ bytes used. IsShortestUleb bytes n used) 10 out.old.items out.new.items) }
    ensures which { RefusedMemoryOnly result }
    ensures unchanged { OnErr result (out.new.items ≡ out.old.items) }
{
    let mut buffer = [0u8; 10];
    let mut used = 0;
    let mut rest = n;
    while rest >= 128 {
        buffer[used] = (rest % 128) as u8 + 128;
        used += 1;
        rest /= 128;
    }
    buffer[used] = rest as u8;
    out.extend_from_slice(&buffer[..used + 1])?;
    Ok(())
}
