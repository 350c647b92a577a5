//! Bytes that are compared by their first eight, and by all of them only where those are the same.

ghost use Rattle.std.specs.Prelude.{◌≡◌, ◌<◌, ◌≤◌, length};
ghost use Rattle.std.specs.Ordering.{is_lt, is_gt, nat_cmp};
ghost use Rattle.std.specs.Cmp.Lexicographic.{slice_cmp};
ghost use Rattle.byteorder.specs.Endian.{big_number};
ghost use Rattle.statistics.specs.inner.Fronts.{IsFrontOf};

use byteorder::{BigEndian, ByteOrder};
use std::cmp::Ordering;

/// Bytes, and the number that their first eight make.
#[derive(Clone, Copy)]
pub(crate) struct Text<'a> {
    pub(crate) bytes: &'a [u8],
    front: u64,
    ghost of_bytes: { IsFrontOf bytes.now front },
}

impl<'a> Text<'a> {
    /// A text of these bytes.
    #[inline(always)]
    pub(crate) fn of(bytes: &'a [u8]) -> Text<'a>
        ensures { result.bytes.now ≡ bytes.now }
    {
        Text {
            bytes,
            front: front_of(bytes),
        }
    }
}

/// Whether the first bytes come before the others.
#[inline(always)]
pub(crate) fn is_before(text: Text<'_>, other: Text<'_>) -> bool
    ensures { result ≡ is_lt (slice_cmp nat_cmp text.entry.bytes.now other.entry.bytes.now) }
{
    if text.front != other.front {
        return text.front < other.front;
    }
    match compared(text.bytes, other.bytes) {
        Ordering::Less => true,
        _ => false,
    }
}

/// Whether the first bytes come behind the others.
#[inline(always)]
pub(crate) fn is_behind(text: Text<'_>, other: Text<'_>) -> bool
    ensures { result ≡ is_gt (slice_cmp nat_cmp text.entry.bytes.now other.entry.bytes.now) }
{
    if text.front != other.front {
        return text.front > other.front;
    }
    match compared(text.bytes, other.bytes) {
        Ordering::Greater => true,
        _ => false,
    }
}

/// The order of bytes, eight at a time.
// Out of line, so that the loops that call it keep their values in registers.
#[cold]
#[inline(never)]
fn compared(bytes: &[u8], other: &[u8]) -> Ordering
    ensures { result ≡ slice_cmp nat_cmp bytes.now other.now }
{
    let mut at: usize = 0;
    'words: while bytes.len() - at > 8 && other.len() - at > 8 {
        let (_, rest) = bytes.split_at(at);
        let (_, other_rest) = other.split_at(at);
        let number = BigEndian::read_u64(rest);
        let other_number = BigEndian::read_u64(other_rest);
        if number != other_number {
            return number.cmp(&other_number);
        }
        at += 8;
    }
    let (_, rest) = bytes.split_at(at);
    let (_, other_rest) = other.split_at(at);
    compared_ends(rest, other_rest)
}

/// The order of bytes, where one of the two has at most eight.
#[inline(always)]
fn compared_ends(bytes: &[u8], other: &[u8]) -> Ordering
    requires { 8 < length bytes.now → length other.now ≤ 8 }
    ensures { result ≡ slice_cmp nat_cmp bytes.now other.now }
{
    let number = front_of(bytes);
    let other_number = front_of(other);
    if number != other_number {
        return number.cmp(&other_number);
    }
    // For the same number, they differ at most by zeros at the end.
    bytes.len().cmp(&other.len())
}

/// The number that the first eight bytes make, the highest first; those that are not there are zeros.
#[inline(always)]
fn front_of(bytes: &[u8]) -> u64
    ensures { result ≡ big_number 8 bytes.now }
{
    if bytes.len() >= 8 {
        return BigEndian::read_u64(bytes);
    }
    if bytes.len() >= 4 {
        return front_of_fours(bytes);
    }
    front_of_three(bytes)
}

/// The number that four to seven bytes make, the highest first; zeros stand for those up to eight that are not there.
#[inline(always)]
fn front_of_fours(bytes: &[u8]) -> u64
    requires least { 4 ≤ length bytes.now }
    requires most { length bytes.now < 8 }
    ensures { result ≡ big_number 8 bytes.now }
{
    let (_, last) = bytes.split_at(bytes.len() - 4);
    let first = u64::from(BigEndian::read_u32(bytes));
    let last = u64::from(BigEndian::read_u32(last));
    // The second load without the bytes that are in the first too.
    let rest = (last << (64 - 8 * bytes.len())) & 0xffff_ffff;
    (first << 32) + rest
}

/// The number that at most three bytes make, the highest first; zeros stand for those up to eight that are not there.
#[inline(always)]
fn front_of_three(bytes: &[u8]) -> u64
    requires { length bytes.now < 4 }
    ensures { result ≡ big_number 8 bytes.now }
{
    if bytes.len() >= 2 {
        return front_of_twos(bytes) << 32;
    }
    match bytes.first() {
        Some(byte) => u64::from(*byte) << 56,
        None => 0,
    }
}

/// The number of two or three bytes and of zeros up to four.
#[inline(always)]
fn front_of_twos(bytes: &[u8]) -> u64
    requires least { 2 ≤ length bytes.now }
    requires most { length bytes.now < 4 }
    ensures { result ≡ big_number 4 bytes.now }
{
    let (_, last) = bytes.split_at(bytes.len() - 2);
    let first = u64::from(BigEndian::read_u16(bytes));
    let last = u64::from(BigEndian::read_u16(last));
    let rest = (last << (32 - 8 * bytes.len())) & 0xffff;
    (first << 16) + rest
}
