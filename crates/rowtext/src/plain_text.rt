//! Texts that are placed and need no escape. Two loads that overlap cover a short text.

ghost use Rattle.std.specs.Prelude.{◌+◌, ◌≤◌, length};
ghost use Rattle.std.specs.Bool.{OnTrue};
ghost use Rattle.json.specs.Filled.{Placed};
ghost use Rattle.json.specs.Written.{PlainBetween};

use crate::place::{place_ends, place_long, place_text};
use std::simd::prelude::*;

/// Writes a text, and returns whether it needs no escape: where it is short, the same loads serve both.
#[inline(always)]
pub fn place_plain(buffer: &mut [u8], at: usize, text: &[u8]) -> bool
    requires { at + length text.now ≤ length buffer.old }
    ensures placed { Placed buffer.old buffer.new at text.now (at + length text.now) }
    ensures plain { OnTrue result (PlainBetween text.now 0 (length text.now)) }
{
    let len = text.len();
    if len > 32 {
        place_long(buffer, at, text);
        plain_long(text)
    } else if len >= 16 {
        let is_plain = plain_16(text, 0) && plain_16(text, len - 16);
        place_ends::<16>(buffer, at, text);
        is_plain
    } else if len >= 8 {
        let is_plain = plain_8(text, 0) && plain_8(text, len - 8);
        place_ends::<8>(buffer, at, text);
        is_plain
    } else if len >= 4 {
        let is_plain = plain_4(text, 0) && plain_4(text, len - 4);
        place_ends::<4>(buffer, at, text);
        is_plain
    } else {
        place_text(buffer, at, text);
        plain_few(text)
    }
}

/// Whether the bytes from an index on need no escape, 4 of them.
#[inline(always)]
fn plain_4(text: &[u8], at: usize) -> bool
    requires { at + 4 ≤ length text.now }
    ensures { OnTrue result (PlainBetween text.now at (at + 4)) }
{
    let v = u8x4::from_slice(&text[at..]);
    (v.simd_eq(u8x4::splat(b'"'))
        | v.simd_eq(u8x4::splat(b'\\'))
        | v.simd_lt(u8x4::splat(0x20))).to_bitmask()
        == 0
}

/// Whether the bytes from an index on need no escape, 8 of them.
#[inline(always)]
fn plain_8(text: &[u8], at: usize) -> bool
    requires { at + 8 ≤ length text.now }
    ensures { OnTrue result (PlainBetween text.now at (at + 8)) }
{
    let v = u8x8::from_slice(&text[at..]);
    (v.simd_eq(u8x8::splat(b'"'))
        | v.simd_eq(u8x8::splat(b'\\'))
        | v.simd_lt(u8x8::splat(0x20))).to_bitmask()
        == 0
}

/// Whether the bytes from an index on need no escape, 16 of them.
#[inline(always)]
fn plain_16(text: &[u8], at: usize) -> bool
    requires { at + 16 ≤ length text.now }
    ensures { OnTrue result (PlainBetween text.now at (at + 16)) }
{
    let v = u8x16::from_slice(&text[at..]);
    (v.simd_eq(u8x16::splat(b'"'))
        | v.simd_eq(u8x16::splat(b'\\'))
        | v.simd_lt(u8x16::splat(0x20))).to_bitmask()
        == 0
}

/// Whether the bytes from an index on need no escape, 32 of them.
#[inline(always)]
fn plain_32(text: &[u8], at: usize) -> bool
    requires { at + 32 ≤ length text.now }
    ensures { OnTrue result (PlainBetween text.now at (at + 32)) }
{
    let v = u8x32::from_slice(&text[at..]);
    (v.simd_eq(u8x32::splat(b'"'))
        | v.simd_eq(u8x32::splat(b'\\'))
        | v.simd_lt(u8x32::splat(0x20))).to_bitmask()
        == 0
}

/// Whether a text needs no escape, byte by byte.
#[inline(always)]
fn plain_few(text: &[u8]) -> bool
    ensures { OnTrue result (PlainBetween text.now 0 (length text.now)) }
{
    for &byte in text {
        if byte == b'"' || byte == b'\\' || byte < 0x20 {
            return false;
        }
    }
    true
}

/// Whether a text of 32 bytes or more needs no escape.
#[inline(never)]
fn plain_long(text: &[u8]) -> bool
    requires { 32 ≤ length text.now }
    ensures { OnTrue result (PlainBetween text.now 0 (length text.now)) }
{
    let mut at = 0;
    while text.len() - at > 32 {
        if !plain_32(text, at) {
            return false;
        }
        at += 32;
    }
    plain_32(text, text.len() - 32)
}
