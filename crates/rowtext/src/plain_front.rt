//! How many bytes of a string stand in it as they are.

ghost use Rattle.std.specs.Prelude.{◌+◌, ◌≤◌, length};
ghost use Rattle.json.specs.Written.{PlainBetween};

use crate::lanes::first_set;
use std::simd::prelude::*;

/// How many bytes at the front stand in a string as they are.
#[inline(always)]
pub fn plain_front(bytes: &[u8]) -> usize
    ensures within { result ≤ length bytes.now }
    ensures plain { PlainBetween bytes.now 0 result }
{
    let mut at = 0;
    while bytes.len() - at >= 16 {
        let count = plain_of_16(bytes, at);
        if count < 16 {
            return at + count;
        }
        at += 16;
    }
    plain_by_8(bytes, at)
}

/// How many of 16 bytes stand in a string as they are, up to the first that does not.
#[inline(always)]
fn plain_of_16(bytes: &[u8], at: usize) -> usize
    requires { at + 16 ≤ length bytes.now }
    ensures within { result ≤ 16 }
    ensures plain { PlainBetween bytes.now at (at + result) }
{
    let v = u8x16::from_slice(&bytes[at..]);
    let stops = (v.simd_eq(u8x16::splat(b'"'))
        | v.simd_eq(u8x16::splat(b'\\'))
        | v.simd_lt(u8x16::splat(0x20))).to_bitmask();
    first_set(stops, 16)
}

/// How many of 8 bytes stand in a string as they are, up to the first that does not.
#[inline(always)]
fn plain_of_8(bytes: &[u8], at: usize) -> usize
    requires { at + 8 ≤ length bytes.now }
    ensures within { result ≤ 8 }
    ensures plain { PlainBetween bytes.now at (at + result) }
{
    let v = u8x8::from_slice(&bytes[at..]);
    let stops = (v.simd_eq(u8x8::splat(b'"'))
        | v.simd_eq(u8x8::splat(b'\\'))
        | v.simd_lt(u8x8::splat(0x20))).to_bitmask();
    first_set(stops, 8)
}

/// How many of 4 bytes stand in a string as they are, up to the first that does not.
#[inline(always)]
fn plain_of_4(bytes: &[u8], at: usize) -> usize
    requires { at + 4 ≤ length bytes.now }
    ensures within { result ≤ 4 }
    ensures plain { PlainBetween bytes.now at (at + result) }
{
    let v = u8x4::from_slice(&bytes[at..]);
    let stops = (v.simd_eq(u8x4::splat(b'"'))
        | v.simd_eq(u8x4::splat(b'\\'))
        | v.simd_lt(u8x4::splat(0x20))).to_bitmask();
    first_set(stops, 4)
}

/// How many bytes stand in a string as they are where those before an index do, and fewer than 16 are left.
#[inline(always)]
fn plain_by_8(bytes: &[u8], from: usize) -> usize
    requires within { from ≤ length bytes.now }
    requires plain { PlainBetween bytes.now 0 from }
    ensures within { result ≤ length bytes.now }
    ensures plain { PlainBetween bytes.now 0 result }
{
    if bytes.len() - from < 8 {
        return plain_by_4(bytes, from);
    }
    let count = plain_of_8(bytes, from);
    if count < 8 {
        return from + count;
    }
    plain_by_4(bytes, from + 8)
}

/// How many bytes stand in a string as they are where those before an index do, and fewer than 8 are left.
#[inline(always)]
fn plain_by_4(bytes: &[u8], from: usize) -> usize
    requires within { from ≤ length bytes.now }
    requires plain { PlainBetween bytes.now 0 from }
    ensures within { result ≤ length bytes.now }
    ensures plain { PlainBetween bytes.now 0 result }
{
    if bytes.len() - from < 4 {
        return plain_by_one(bytes, from);
    }
    let count = plain_of_4(bytes, from);
    if count < 4 {
        return from + count;
    }
    plain_by_one(bytes, from + 4)
}

/// How many bytes stand in a string as they are where those before an index do; the others are looked at one by one.
#[inline(always)]
fn plain_by_one(bytes: &[u8], from: usize) -> usize
    requires within { from ≤ length bytes.now }
    requires plain { PlainBetween bytes.now 0 from }
    ensures within { result ≤ length bytes.now }
    ensures plain { PlainBetween bytes.now 0 result }
{
    let mut at = from;
    while at < bytes.len() && bytes[at] != b'"' && bytes[at] != b'\\' && bytes[at] >= 0x20 {
        at += 1;
    }
    at
}
