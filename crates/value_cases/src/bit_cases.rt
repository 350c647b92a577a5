//! Varints and packed bits.

ghost use Rattle.std.specs.Prelude.{◌<◌, ◌≤◌, ◌^◌, All, IsTrue};

use bits::{R, Refusal, pack, read_uleb, unpack, unpack_u32, unzigzag, write_uleb, zigzag};
use case_words::{
    begun, bytes, count, natural, naturals, number, shown_numbers, width, word, words_from, written,
};
use std::alloc::Global;

/// What a case of this subject gives; None where the operation is of another one.
pub fn outcome(alloc: Global, operation: &str, words: &[&str]) -> Option<R<String>> {
    let outcome = match operation {
        "read-varint" => read_varint(alloc, words),
        "write-varint" => write_varint(alloc, words),
        "zigzag" => zigzagged(alloc, words),
        "unpack" => unpacked(alloc, words),
        "unpack-lengths" => unpacked_lengths(alloc, words),
        "pack" => packed(alloc, words),
        _ => return None,
    };
    Some(outcome)
}

/// `read-varint BYTES`: how many bytes the number takes, and the number.
fn read_varint(alloc: Global, words: &[&str]) -> R<String> {
    let bytes = bytes(alloc, words, 1)?;
    let (value, used) = read_uleb(&bytes)?;
    Ok(format!(in alloc; "{used} bytes: {value}")?)
}

/// `write-varint NUMBER`: its bytes.
fn write_varint(alloc: Global, words: &[&str]) -> R<String> {
    let number = natural(word(words, 1)?)?;
    let mut out = begun(alloc)?;
    let done = write_uleb(number, &mut out);
    written(alloc, &out, done)
}

/// `zigzag NUMBER`: its index, and the number there.
fn zigzagged(alloc: Global, words: &[&str]) -> R<String> {
    let number = number(word(words, 1)?)?;
    let index = zigzag(number);
    let again = unzigzag(index);
    Ok(format!(in alloc; "{index}, which is {again}")?)
}

/// `unpack WIDTH COUNT BYTES`: the numbers.
fn unpacked(alloc: Global, words: &[&str]) -> R<String> {
    let width = width(words, 1)?;
    let n = count(words, 2)?;
    let bytes = bytes(alloc, words, 3)?;
    let numbers = unpack(alloc, &bytes, width, n)?;
    shown_numbers(alloc, numbers.as_slice())
}

/// Whether each number is below `2^width`.
fn are_below(numbers: &[u64], width: u32) -> bool
    requires { width ≤ 64 }
    ensures { IsTrue result → All (λ x. x < 2 ^ width) numbers.now }
{
    numbers.iter().all(|n| width == 64 || *n >> width == 0)
}

/// `pack WIDTH NUMBER..`: the bytes. Numbers of more bits are no case.
fn packed(alloc: Global, words: &[&str]) -> R<String> {
    let width = width(words, 1)?;
    let numbers = naturals(alloc, words_from(words, 2))?;
    if !are_below(&numbers, width) {
        return Err(Refusal::Script);
    }
    let mut out = begun(alloc)?;
    let done = pack(&numbers, width, &mut out);
    written(alloc, &out, done)
}

/// The number of the `width` bits from bit `start` on, read one by one.
fn number_of_bits(bytes: &[u8], start: usize, width: u32) -> u64 {
    let mut value = 0;
    for k in 0..width {
        let place = start.wrapping_add(k as usize);
        let byte = bytes.get(place / 8).copied().unwrap_or(0);
        let bit = u64::from((byte >> (place % 8)) & 1);
        value |= bit.checked_shl(k).unwrap_or(0);
    }
    value
}

/// Whether the numbers are the bits of the bytes.
fn are_bits(numbers: &[u64], bytes: &[u8], width: u32) -> bool {
    let mut start: usize = 0;
    for number in numbers {
        if *number != number_of_bits(bytes, start, width) {
            return false;
        }
        start = start.wrapping_add(width as usize);
    }
    true
}

/// Whether the numbers are the same.
fn are_same(wide: &[u64], narrow: &[u32]) -> bool {
    wide.len() == narrow.len()
        && wide
            .iter()
            .zip(narrow.iter())
            .all(|(a, b)| *a == u64::from(*b))
}

/// Whether these bytes hold `n` numbers, their bits, and where they have any, no number more. Numbers of at most 32 bits come
/// as `u32` too.
fn are_unpacked(alloc: Global, bytes: &[u8], width: u32, n: usize) -> R<bool>
    requires { width ≤ 64 }
{
    let numbers = unpack(alloc, bytes, width, n)?;
    let mut holds = numbers.len() == n && are_bits(numbers.as_slice(), bytes, width);
    if width > 0 {
        let more = unpack(alloc, bytes, width, n.saturating_add(1));
        holds = holds && matches!(more, Err(Refusal::Truncated));
    }
    if width <= 32 {
        let narrow = unpack_u32(alloc, bytes, width, n)?;
        holds = holds && are_same(numbers.as_slice(), narrow.as_slice());
    }
    Ok(holds)
}

/// `unpack-lengths WIDTH COUNT`: unpacks so many lists of bytes, of 0, 1, 2 .. bytes, byte i being 37 i modulo 256, each as
/// far as it reaches. How many numbers there are in all; of width 0 five are taken of each.
fn unpacked_lengths(alloc: Global, words: &[&str]) -> R<String> {
    let width = width(words, 1)?;
    let lengths = count(words, 2)?;
    let mut bytes = Vec::new(alloc);
    let mut sum: u64 = 0;
    let mut next: u8 = 0;
    for length in 0..lengths {
        let room = (bytes.len() as u64).saturating_mul(8);
        let n = room.checked_div(u64::from(width)).unwrap_or(5);
        if !are_unpacked(alloc, bytes.as_slice(), width, n as usize)? {
            return Ok(format!(in alloc; "others of {length} bytes")?);
        }
        sum = sum.saturating_add(n);
        bytes.push(next)?;
        next = next.wrapping_add(37);
    }
    Ok(format!(in alloc; "{sum} numbers")?)
}
