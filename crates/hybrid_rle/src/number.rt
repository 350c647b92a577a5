//! What numbers lie in.

ghost use Rattle.std.specs.Prelude.{◌≡◌, ℕ, ◌*◌, ◌^◌, ◌<◌, ◌≤◌, ◌↔◌, List, length, map, vec_len, IfOk, IsTrue};
ghost use Rattle.std.proofs.Common.{rules};
ghost use Rattle.bits.specs.Refusals.{OnFault, RefusedOnly};
ghost use Rattle.bits.specs.Bits.{IsPacked};

use bits::{R, Refusal, unpack, unpack_u32};
use std::alloc::Global;

/// Whether the number has at most `width` bits.
pub fn is_narrow(number: u64, width: u32) -> bool
    requires { width ≤ 64 }
    ensures { IsTrue result ↔ (number < 2 ^ width) }
{
    width == 64 || number >> width == 0
}

/// What a number lies in: a `u64`, or a `u32`, as levels and dictionary indexes have at most 32
/// bits. So numbers are read to where they are to lie.
pub trait Number: Copy + Drop {
    /// The most bits that it holds.
    ghost widest: { ℕ };

    /// What contracts see of it.
    ghost seen: { Self → ℕ };

    /// The number as a `Self`, which holds it.
    fn from_number(number: u64) -> Self
        requires { number < 2 ^ widest }
        ensures { seen result ≡ number };

    /// The number.
    fn number(self) -> u64
        ensures { result ≡ seen self };

    /// The first `n` numbers of `width` bits each, the lowest bit first, as [`bits::unpack`] reads
    /// them, in its refusals too.
    fn unpacked(alloc: Global, bytes: &[u8], width: u32, n: usize) -> R<Vec<Self>>
        requires { width ≤ widest }
        ensures stands { IfOk result (λ v. (vec_len v ≡ n) × IsPacked bytes.now width (map seen v.items)) }
        ensures only { OnFault result ((numbers : List ℕ) → length numbers ≡ n → IsPacked bytes.now width numbers → ⊥) }
        ensures which { RefusedOnly (λ e. (e ≡ Refusal.Truncated) × (8 * length bytes.now < n * width)) result };

    /// It holds at most 64 bits.
    ghost within: { widest ≤ 64 };
}

impl Number for u64 {
    ghost widest = { 64 };

    ghost seen = { λ n. n };

    ghost within = { Prim.search rules };

    fn from_number(number: u64) -> u64 {
        number
    }

    fn number(self) -> u64 {
        self
    }

    fn unpacked(alloc: Global, bytes: &[u8], width: u32, n: usize) -> R<Vec<u64>> {
        unpack(alloc, bytes, width, n)
    }
}

impl Number for u32 {
    ghost widest = { 32 };

    ghost seen = { λ n. n };

    ghost within = { Prim.search rules };

    fn from_number(number: u64) -> u32 {
        number as u32
    }

    fn number(self) -> u64 {
        u64::from(self)
    }

    fn unpacked(alloc: Global, bytes: &[u8], width: u32, n: usize) -> R<Vec<u32>> {
        unpack_u32(alloc, bytes, width, n)
    }
}
