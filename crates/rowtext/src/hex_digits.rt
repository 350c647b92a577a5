//! Bytes by their hexadecimal digits in lower case.

ghost use Rattle.std.specs.Prelude.{◌≡◌, ◌≤◌, ◌+◌, ◌/◌, ℕ, List, true, length, OnOk, IsTrue};
ghost use Rattle.std.specs.List.{AllPass};
ghost use Rattle.schema.specs.Fits.{are_bytes, fits_kind};
ghost use Rattle.schema.specs.Values.{bytes};
ghost use Rattle.rowtext.specs.inner.LowerDigits.{is_lower_digit, DigitsBetween, digit_value, pair_value, bytes_of_pairs, AreDigitsOf};

use crate::lanes::first_set;
use schema::Kind;
use std::alloc::AllocError;
use std::simd::prelude::*;

/// Whether a byte is a digit in lower case.
#[inline(always)]
fn is_lower_digit(byte: u8) -> bool
    ensures { result ≡ is_lower_digit byte }
{
    (b'0' <= byte && byte <= b'9') || (b'a' <= byte && byte <= b'f')
}

/// Whether each byte is a digit in lower case.
fn are_lower_digits(digits: &[u8]) -> bool
    ensures { IsTrue result → AllPass is_lower_digit digits.now }
{
    digits_front(digits) == digits.len()
}

/// How many bytes at the front are digits.
#[inline(always)]
fn digits_front(bytes: &[u8]) -> usize
    ensures within { result ≤ length bytes.now }
    ensures digits { DigitsBetween bytes.now 0 result }
{
    let mut at = 0;
    while bytes.len() - at >= 16 {
        let count = digits_of_16(bytes, at);
        if count < 16 {
            return at + count;
        }
        at += 16;
    }
    digits_by_8(bytes, at)
}

/// How many of 16 bytes are digits, up to the first that is none.
#[inline(always)]
fn digits_of_16(bytes: &[u8], at: usize) -> usize
    requires { at + 16 ≤ length bytes.now }
    ensures within { result ≤ 16 }
    ensures digits { DigitsBetween bytes.now at (at + result) }
{
    let v = u8x16::from_slice(&bytes[at..]);
    let others = ((v - u8x16::splat(b'0')).simd_ge(u8x16::splat(10))
        & (v - u8x16::splat(b'a')).simd_ge(u8x16::splat(6))).to_bitmask();
    first_set(others, 16)
}

/// How many of 8 bytes are digits, up to the first that is none.
#[inline(always)]
fn digits_of_8(bytes: &[u8], at: usize) -> usize
    requires { at + 8 ≤ length bytes.now }
    ensures within { result ≤ 8 }
    ensures digits { DigitsBetween bytes.now at (at + result) }
{
    let v = u8x8::from_slice(&bytes[at..]);
    let others = ((v - u8x8::splat(b'0')).simd_ge(u8x8::splat(10))
        & (v - u8x8::splat(b'a')).simd_ge(u8x8::splat(6))).to_bitmask();
    first_set(others, 8)
}

/// How many bytes are digits where those before an index are, and fewer than 16 are left.
#[inline(always)]
fn digits_by_8(bytes: &[u8], from: usize) -> usize
    requires within { from ≤ length bytes.now }
    requires digits { DigitsBetween bytes.now 0 from }
    ensures within { result ≤ length bytes.now }
    ensures digits { DigitsBetween bytes.now 0 result }
{
    if bytes.len() - from < 8 {
        return digits_by_one(bytes, from);
    }
    let count = digits_of_8(bytes, from);
    if count < 8 {
        return from + count;
    }
    digits_by_one(bytes, from + 8)
}

/// How many bytes are digits where those before an index are; the others are looked at one by one.
#[inline(always)]
fn digits_by_one(bytes: &[u8], from: usize) -> usize
    requires within { from ≤ length bytes.now }
    requires digits { DigitsBetween bytes.now 0 from }
    ensures within { result ≤ length bytes.now }
    ensures digits { DigitsBetween bytes.now 0 result }
{
    let mut at = from;
    while at < bytes.len() && is_lower_digit(bytes[at]) {
        at += 1;
    }
    at
}

/// Whether this many bytes are of the type.
fn is_length_of(kind: Kind, count: usize) -> bool
    ensures { IsTrue result → (b : List ℕ) → length b ≡ count → are_bytes b ≡ true → fits_kind kind (bytes b) ≡ true }
{
    match kind {
        Kind::ByteArray => true,
        Kind::FixedLenByteArray(wanted) => count as u64 == u64::from(wanted),
        _ => false,
    }
}

/// Whether these are the digits of bytes of the type.
pub fn are_digits(kind: Kind, digits: &str) -> bool
    ensures { IsTrue result → AreDigitsOf kind digits.now }
{
    let bytes = digits.as_bytes();
    if bytes.len() % 2 != 0 {
        return false;
    }
    if !is_length_of(kind, bytes.len() / 2) {
        return false;
    }
    are_lower_digits(bytes)
}

/// The value of a digit. The low four bits of a letter, which is above 64, are 9 less than its value.
#[inline(always)]
fn digit_value(digit: u8) -> u8
    ensures { result ≡ digit_value digit }
{
    digit % 16 + digit / 64 * 9
}

/// The byte of two digits.
#[inline(always)]
fn pair_value(high: u8, low: u8) -> u8
    ensures { result ≡ pair_value high low }
{
    digit_value(high)
        .wrapping_mul(16)
        .wrapping_add(digit_value(low))
}

/// Puts the bytes of digits where they have room.
pub fn decode_digits(digits: &[u8], bytes: &mut [u8])
    requires { length bytes.old ≡ length digits.now / 2 }
    ensures { bytes.new ≡ bytes_of_pairs digits.now }
{
    for i in 0..bytes.len() {
        bytes[i] = pair_value(digits[2 * i], digits[2 * i + 1]);
    }
}

/// Makes a buffer at least this long. What it holds is kept, and only what is new is filled.
pub fn make_room(buffer: &mut Vec<u8>, count: usize) -> Result<(), AllocError>
    ensures { OnOk result (count ≤ length buffer.new.items) }
{
    if buffer.len() < count {
        buffer.resize(count, 0)?;
    }
    Ok(())
}
