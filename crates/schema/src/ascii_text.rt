//! Whether short bytes are ASCII. Two loads that overlap cover them.

ghost use Rattle.std.specs.Prelude.{◌+◌, ◌≤◌, length, IsTrue};
ghost use Rattle.std.specs.Bool.{OnTrue};
ghost use Rattle.std.specs.Str.{IsAscii};
ghost use Rattle.schema.specs.inner.Ascii.{AreAsciiBetween};

use std::simd::prelude::*;

/// Whether bytes are ASCII. It also returns false for more than 64 bytes, which are not looked at.
#[inline(always)]
pub fn is_short_ascii(bytes: &[u8]) -> bool
    ensures { IsTrue result → IsAscii bytes.now }
{
    let len = bytes.len();
    if len < 4 {
        are_few_ascii(bytes)
    } else if len < 8 {
        are_4_ascii(bytes, 0) && are_4_ascii(bytes, len - 4)
    } else if len < 16 {
        are_8_ascii(bytes, 0) && are_8_ascii(bytes, len - 8)
    } else if len < 32 {
        are_16_ascii(bytes, 0) && are_16_ascii(bytes, len - 16)
    } else if len <= 64 {
        are_32_ascii(bytes, 0) && are_32_ascii(bytes, len - 32)
    } else {
        false
    }
}

/// Whether bytes are ASCII, byte by byte.
#[inline(always)]
fn are_few_ascii(bytes: &[u8]) -> bool
    ensures { OnTrue result (AreAsciiBetween bytes.now 0 (length bytes.now)) }
{
    for &byte in bytes {
        if byte >= 0x80 {
            return false;
        }
    }
    true
}

/// Whether the 4 bytes from an index on are ASCII.
#[inline(always)]
fn are_4_ascii(bytes: &[u8], at: usize) -> bool
    requires { at + 4 ≤ length bytes.now }
    ensures { OnTrue result (AreAsciiBetween bytes.now at (at + 4)) }
{
    u8x4::from_slice(&bytes[at..])
        .simd_ge(u8x4::splat(0x80))
        .to_bitmask()
        == 0
}

/// Whether the 8 bytes from an index on are ASCII.
#[inline(always)]
fn are_8_ascii(bytes: &[u8], at: usize) -> bool
    requires { at + 8 ≤ length bytes.now }
    ensures { OnTrue result (AreAsciiBetween bytes.now at (at + 8)) }
{
    u8x8::from_slice(&bytes[at..])
        .simd_ge(u8x8::splat(0x80))
        .to_bitmask()
        == 0
}

/// Whether the 16 bytes from an index on are ASCII.
#[inline(always)]
fn are_16_ascii(bytes: &[u8], at: usize) -> bool
    requires { at + 16 ≤ length bytes.now }
    ensures { OnTrue result (AreAsciiBetween bytes.now at (at + 16)) }
{
    u8x16::from_slice(&bytes[at..])
        .simd_ge(u8x16::splat(0x80))
        .to_bitmask()
        == 0
}

/// Whether the 32 bytes from an index on are ASCII.
#[inline(always)]
fn are_32_ascii(bytes: &[u8], at: usize) -> bool
    requires { at + 32 ≤ length bytes.now }
    ensures { OnTrue result (AreAsciiBetween bytes.now at (at + 32)) }
{
    u8x32::from_slice(&bytes[at..])
        .simd_ge(u8x32::splat(0x80))
        .to_bitmask()
        == 0
}
