//! Numbers of at most 32 bits, eight at a time.

ghost use Rattle.std.specs.Prelude.{◌≡◌, ℕ, ◌+◌, ◌*◌, ◌/◌, ◌^◌, ◌<◌, ◌≤◌, ◌++◌, ◌∷◌, [], length, map, slice_range, All, OnOk, IfOk};
ghost use Rattle.bits.specs.Refusals.{RefusedMemoryOnly};
ghost use Rattle.bits.specs.Bits.{bits, number, IsPacked};

use crate::refusal::R;
use byteorder::{ByteOrder, LittleEndian};

/// The most bits of a number that is read by one load of eight bytes.
pub const MOST_BITS_OF_A_LANE: u32 = 32;

/// How many bytes a block needs: its last number begins within the first 29 of them, and is one load of eight.
const BYTES_OF_A_BLOCK: usize = 36;

/// What unpacked numbers are kept as.
pub trait Kept: Drop {
    /// The most bits that it holds.
    ghost widest: { ℕ };

    /// What contracts see of it.
    ghost seen: { Self → ℕ };

    /// Appends a number.
    fn put(number: u64, numbers: &mut Vec<Self>) -> R<()>
        requires { number < 2 ^ widest }
        ensures stands { OnOk result (map seen numbers.new.items ≡ map seen numbers.old.items ++ number ∷ []) }
        ensures which { RefusedMemoryOnly result };

    /// Appends eight numbers.
    fn put_block(block: &[u64; 8], numbers: &mut Vec<Self>) -> R<()>
        requires { All (λ x. x < 2 ^ widest) block.now }
        ensures stands { OnOk result (map seen numbers.new.items ≡ map seen numbers.old.items ++ block.now) }
        ensures which { RefusedMemoryOnly result };
}

impl Kept for u64 {
    ghost widest = { 64 };

    ghost seen = { λ n. n };

    fn put(number: u64, numbers: &mut Vec<u64>) -> R<()> {
        numbers.push(number)?;
        Ok(())
    }

    fn put_block(block: &[u64; 8], numbers: &mut Vec<u64>) -> R<()> {
        numbers.extend_from_slice(block)?;
        Ok(())
    }
}

impl Kept for u32 {
    ghost widest = { 32 };

    ghost seen = { λ n. n };

    fn put(number: u64, numbers: &mut Vec<u32>) -> R<()> {
        numbers.push(number as u32)?;
        Ok(())
    }

    fn put_block(block: &[u64; 8], numbers: &mut Vec<u32>) -> R<()> {
        let [a, b, c, d, e, f, g, h] = *block;
        let narrow = [
            a as u32, b as u32, c as u32, d as u32, e as u32, f as u32, g as u32, h as u32,
        ];
        numbers.extend_from_slice(&narrow)?;
        Ok(())
    }
}

/// Appends the first numbers of `width` bits each, a block of eight after the other, as long as there are `n` of them and
/// the bytes are enough for a block. Returns how many bytes they take.
pub fn unpack_blocks<T: Kept>(bytes: &[u8], width: u32, n: usize, numbers: &mut Vec<T>) -> R<usize>
    requires narrow { width ≤ 32 }
    requires fits { width ≤ T.widest }
    requires empty { numbers.now.items ≡ [] }
    ensures stands { OnOk result (IsPacked bytes.now width (map T.seen numbers.new.items)) }
    ensures at_most { OnOk result (length numbers.new.items ≤ n) }
    ensures used { IfOk result (λ at. 8 * at ≡ length numbers.new.items * width) }
    ensures which { RefusedMemoryOnly result }
{
    let mut at: usize = 0;
    for _ in 0..n / 8 {
        let (_, rest) = bytes.split_at(at);
        if rest.len() < BYTES_OF_A_BLOCK {
            return Ok(at);
        }
        let block = block(rest, width);
        T::put_block(&block, numbers)?;
        at += width as usize;
    }
    Ok(at)
}

/// The first eight numbers of `width` bits each.
fn block(bytes: &[u8], width: u32) -> [u64; 8]
    requires narrow { width ≤ 32 }
    requires within { 36 ≤ length bytes.now }
    ensures stands { IsPacked bytes.now width result }
    ensures count { length result ≡ 8 }
{
    [
        lane(bytes, 0, width),
        lane(bytes, width, width),
        lane(bytes, 2 * width, width),
        lane(bytes, 3 * width, width),
        lane(bytes, 4 * width, width),
        lane(bytes, 5 * width, width),
        lane(bytes, 6 * width, width),
        lane(bytes, 7 * width, width),
    ]
}

/// The number of the `width` bits from bit `start` on, by one load of eight bytes.
#[inline]
fn lane(bytes: &[u8], start: u32, width: u32) -> u64
    requires narrow { width ≤ 32 }
    requires within { start / 8 + 8 ≤ length bytes.now }
    ensures { result ≡ number (slice_range (bits bytes.now) start (start + width)) }
{
    let (_, from) = bytes.split_at((start / 8) as usize);
    let word = LittleEndian::read_u64(from);
    (word >> (start % 8)) & ((1 << width) - 1)
}
