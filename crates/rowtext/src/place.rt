//! Bytes written at a place of a buffer that has room. A short text is two copies of a fixed size that overlap.

ghost use Rattle.std.specs.Prelude.{◌≡◌, ◌+◌, ◌^◌, ◌<◌, ◌≤◌, [], ◌∷◌, ◌++◌, length, take, drop, decimal};
ghost use Rattle.json.specs.Filled.{Placed};

use std::simd::Simd;

/// The most digits of a number of 64 bits.
const MOST_DIGITS: usize = 20;

/// How many bytes are moved at once.
pub const MOVED: usize = 32;

/// How many bytes are moved at once where others are removed.
const CUT: usize = 64;

/// How many bytes of a padded text are placed at once.
pub const PADDED: usize = 16;

/// Writes a byte, and returns where it ends.
#[inline(always)]
pub fn place_byte(buffer: &mut [u8], at: usize, byte: u8) -> usize
    requires { at < length buffer.old }
    ensures { Placed buffer.old buffer.new at (byte ∷ []) result }
{
    buffer[at] = byte;
    at + 1
}

/// Writes a text, and returns where it ends.
#[inline(always)]
pub fn place_text(buffer: &mut [u8], at: usize, text: &[u8]) -> usize
    requires { at + length text.now ≤ length buffer.old }
    ensures { Placed buffer.old buffer.new at text.now result }
{
    let len = text.len();
    if len > 32 {
        place_long(buffer, at, text)
    } else if len >= 16 {
        place_ends::<16>(buffer, at, text)
    } else if len >= 8 {
        place_ends::<8>(buffer, at, text)
    } else if len >= 4 {
        place_ends::<4>(buffer, at, text)
    } else if len >= 2 {
        place_ends::<2>(buffer, at, text)
    } else if len == 1 {
        place_front::<1>(buffer, at, text)
    } else {
        at
    }
}

/// Writes the decimal digits of a number, and returns where they end. Those of a number that has more than eight are
/// written at the end of the room of the longest one, and then moved at once, so that they need not be counted first.
#[inline(always)]
pub fn place_natural(buffer: &mut [u8], at: usize, number: u64) -> usize
    requires { at + 52 ≤ length buffer.old }
    ensures { Placed buffer.old buffer.new at (decimal number) result }
{
    if number < 10 {
        return place_byte(buffer, at, b'0' + number as u8);
    }
    let end = at + room_of(number);
    let from = itoa::write_digits(number, buffer, end);
    if from == at {
        return end;
    }
    copy_at::<MOVED>(buffer, from, at);
    at + (end - from)
}

/// How many bytes the digits of a number need at most: just as many as there are, of two to eight.
#[inline(always)]
fn room_of(number: u64) -> usize
    ensures { (0 < result) × ((result ≤ 20) × (number < 10 ^ result)) }
{
    if number >= 100_000_000 {
        MOST_DIGITS
    } else if number >= 1_000_000 {
        if number >= 10_000_000 { 8 } else { 7 }
    } else if number >= 10_000 {
        if number >= 100_000 { 6 } else { 5 }
    } else if number >= 100 {
        if number >= 1_000 { 4 } else { 3 }
    } else {
        2
    }
}

/// Writes bytes of a buffer once more, and returns where they end: at most N of them by one load and one store of N,
/// where there is room for those.
#[inline(always)]
fn place_again<const N: usize>(buffer: &mut [u8], at: usize, from: usize, count: usize) -> usize
    requires { (from + count ≤ length buffer.old) × (at + count ≤ length buffer.old) }
    ensures { Placed buffer.old buffer.new at (take count (drop from buffer.old)) result }
{
    if count > N || buffer.len() - from < N || buffer.len() - at < N {
        return place_slowly(buffer, at, from, count);
    }
    place_few::<N>(buffer, at, from, count)
}

/// Writes at most N bytes of a buffer once more, by one load and one store of N, and returns where they end.
#[inline(always)]
pub fn place_few<const N: usize>(buffer: &mut [u8], at: usize, from: usize, count: usize) -> usize
    requires few { count ≤ N }
    requires fits { (from + N ≤ length buffer.old) × (at + N ≤ length buffer.old) }
    ensures { Placed buffer.old buffer.new at (take count (drop from buffer.old)) result }
{
    copy_at::<N>(buffer, from, at);
    at + count
}

/// Writes bytes of a buffer once more, however many, and returns where they end.
#[inline(never)]
pub fn place_slowly(buffer: &mut [u8], at: usize, from: usize, count: usize) -> usize
    requires { (from + count ≤ length buffer.old) × (at + count ≤ length buffer.old) }
    ensures { Placed buffer.old buffer.new at (take count (drop from buffer.old)) result }
{
    buffer.copy_within(from..from + count, at);
    at + count
}

/// Removes the bytes from one index up to another of the first `len`, and returns where those after them end.
#[inline(always)]
pub fn cut_out(buffer: &mut [u8], from: usize, to: usize, len: usize) -> usize
    requires { (from ≤ to) × ((to ≤ len) × (len ≤ length buffer.old)) }
    ensures rest { take result buffer.new ≡ take from (take len buffer.old) ++ drop to (take len buffer.old) }
    ensures within { result ≤ length buffer.old }
{
    place_again::<CUT>(buffer, from, to, len - to)
}

/// Writes N bytes of a buffer once more, at another place, by one load and one store.
#[inline(always)]
fn copy_at<const N: usize>(buffer: &mut [u8], from: usize, at: usize)
    requires { (from + N ≤ length buffer.old) × (at + N ≤ length buffer.old) }
    ensures { take (at + N) buffer.new ≡ take at buffer.old ++ take N (drop from buffer.old) }
{
    let bytes = Simd::<u8, N>::from_slice(&buffer[from..]);
    bytes.copy_to_slice(&mut buffer[at..]);
}

/// Writes the first N bytes of a text by one load and one store.
#[inline(always)]
fn place_front<const N: usize>(buffer: &mut [u8], at: usize, text: &[u8]) -> usize
    requires { (N ≤ length text.now) × (at + N ≤ length buffer.old) }
    ensures { Placed buffer.old buffer.new at (take N text.now) result }
{
    Simd::<u8, N>::from_slice(text).copy_to_slice(&mut buffer[at..]);
    at + N
}

/// Writes the first `len` bytes of a text of at least 16, by one load and one store of 16, and returns where they end.
#[inline(always)]
pub fn place_padded(buffer: &mut [u8], at: usize, text: &[u8], len: usize) -> usize
    requires padded { (len ≤ 16) × (16 ≤ length text.now) }
    requires fits { at + 16 ≤ length buffer.old }
    ensures { Placed buffer.old buffer.new at (take len text.now) result }
{
    place_front::<PADDED>(buffer, at, text);
    at + len
}

/// Writes a text of N to 2N bytes.
#[inline(always)]
pub fn place_ends<const N: usize>(buffer: &mut [u8], at: usize, text: &[u8]) -> usize
    requires fits { at + length text.now ≤ length buffer.old }
    requires covers { (N ≤ length text.now) × (length text.now ≤ N + N) }
    ensures { Placed buffer.old buffer.new at text.now result }
{
    let last = text.len() - N;
    place_front::<N>(buffer, at, text);
    place_front::<N>(buffer, at + last, &text[last..])
}

/// Writes a text of more than 32 bytes.
#[inline(never)]
pub fn place_long(buffer: &mut [u8], at: usize, text: &[u8]) -> usize
    requires long { 32 < length text.now }
    requires fits { at + length text.now ≤ length buffer.old }
    ensures { Placed buffer.old buffer.new at text.now result }
{
    let end = at + text.len();
    if text.len() <= 64 {
        return place_ends::<32>(buffer, at, text);
    }
    buffer[at..end].copy_from_slice(text);
    end
}
