//! Values written at a place of a buffer that has room. A short text is two copies of a fixed size that overlap.

ghost use Rattle.std.specs.Prelude.{◌≡◌, ◌+◌, ◌^◌, ◌<◌, ◌≤◌, All, map, length, take};
ghost use Rattle.std.specs.List.{flat_map};
ghost use Rattle.schema.specs.Borrowed.{value_ref_view};
ghost use Rattle.schema.specs.Values.{integer, bytes as spelled};
ghost use Rattle.byteorder.specs.Endian.{little_bytes};
ghost use Rattle.plain.specs.Plain.{HasSpelling, spelling};
ghost use Rattle.plain.specs.inner.Placed.{Placed};

use crate::lent::Lends;
use byteorder::{ByteOrder, LittleEndian};
use schema::{Kind, ValueRef};
use std::simd::Simd;

/// Writes the spellings of the values one after another, and returns where they end.
// Each usual type has a loop of its own, in which nothing is left to be asked of the type.
pub(crate) fn place_values<V: Lends>(
    kind: Kind,
    values: &[V],
    start: usize,
    room: &mut [u8],
) -> usize
    requires spelled { All (HasSpelling kind) (map V.lent values.now) }
    requires fits { start + length (flat_map (spelling kind) (map V.lent values.now)) ≤ length room.old }
    ensures { Placed room.old room.new start (flat_map (spelling kind) (map V.lent values.now)) result }
{
    match kind {
        Kind::Int64 => place_each(Kind::Int64, values, start, room),
        Kind::ByteArray => place_each(Kind::ByteArray, values, start, room),
        _ => place_each(kind, values, start, room),
    }
}

/// Writes the spellings of the values of one type.
#[inline(always)]
fn place_each<V: Lends>(kind: Kind, values: &[V], start: usize, room: &mut [u8]) -> usize
    requires spelled { All (HasSpelling kind) (map V.lent values.now) }
    requires fits { start + length (flat_map (spelling kind) (map V.lent values.now)) ≤ length room.old }
    ensures { Placed room.old room.new start (flat_map (spelling kind) (map V.lent values.now)) result }
{
    let mut at = start;
    for value in values {
        at = place_value(kind, value.lend(), at, room);
    }
    at
}

/// Writes the spelling of a value, and returns where it ends.
// The value is looked at first: a pair of both would be written to memory and read back.
#[inline(always)]
fn place_value(kind: Kind, value: ValueRef<'_>, at: usize, room: &mut [u8]) -> usize
    requires spelled { HasSpelling kind (value_ref_view value) }
    requires fits { at + length (spelling kind (value_ref_view value)) ≤ length room.old }
    ensures { Placed room.old room.new at (spelling kind (value_ref_view value.entry)) result }
{
    match value {
        ValueRef::Int(number) => place_number(kind, number, at, room),
        ValueRef::Bytes(text) => place_bytes(kind, text, at, room),
        _ => at,
    }
}

/// Writes the spelling of a number, and returns where it ends.
#[inline(always)]
fn place_number(kind: Kind, number: i64, at: usize, room: &mut [u8]) -> usize
    requires spelled { HasSpelling kind (integer number) }
    requires fits { at + length (spelling kind (integer number)) ≤ length room.old }
    ensures { Placed room.old room.new at (spelling kind (integer number)) result }
{
    match kind {
        Kind::Int32 => place_int32(number as i32, at, room),
        Kind::Int64 => place_int64(number, at, room),
        _ => at,
    }
}

/// Writes an INT32 in PLAIN into a buffer, from the index `at` on, and returns where it ends. Bytes before `at` stay.
#[inline(always)]
pub fn place_int32(number: i32, at: usize, room: &mut [u8]) -> usize
    requires { at + 4 ≤ length room.old }
    ensures { Placed room.old room.new at (spelling Kind.Int32 (integer number)) result }
{
    let mut field = [0; 4];
    LittleEndian::write_i32(&mut field, number);
    place_front::<4>(room, at, &field)
}

/// Writes an INT64 in PLAIN into a buffer, from the index `at` on, and returns where it ends. Bytes before `at` stay.
#[inline(always)]
pub fn place_int64(number: i64, at: usize, room: &mut [u8]) -> usize
    requires { at + 8 ≤ length room.old }
    ensures { Placed room.old room.new at (spelling Kind.Int64 (integer number)) result }
{
    let mut field = [0; 8];
    LittleEndian::write_i64(&mut field, number);
    place_front::<8>(room, at, &field)
}

/// Writes the spelling of bytes, and returns where it ends.
#[inline(always)]
fn place_bytes(kind: Kind, text: &[u8], at: usize, room: &mut [u8]) -> usize
    requires spelled { HasSpelling kind (spelled text.now) }
    requires fits { at + length (spelling kind (spelled text.now)) ≤ length room.old }
    ensures { Placed room.old room.new at (spelling kind (spelled text.now)) result }
{
    match kind {
        Kind::ByteArray => place_byte_array(text, at, room),
        Kind::FixedLenByteArray(_) => place_text(room, at, text),
        _ => at,
    }
}

/// Writes a BYTE_ARRAY in PLAIN into a buffer, from the index `at` on: its length in four bytes, and then its bytes.
/// Returns where it ends. Bytes before `at` stay.
#[inline(always)]
pub fn place_byte_array(text: &[u8], at: usize, room: &mut [u8]) -> usize
    requires short { length text.now < 2 ^ 32 }
    requires fits { at + 4 + length text.now ≤ length room.old }
    ensures { Placed room.old room.new at (spelling Kind.ByteArray (spelled text.now)) result }
{
    let mut length = [0; 4];
    LittleEndian::write_u32(&mut length, text.len() as u32);
    let begin = place_front::<4>(room, at, &length);
    place_text(room, begin, text)
}

/// Writes the first N bytes of a text by one load and one store.
#[inline(always)]
fn place_front<const N: usize>(room: &mut [u8], at: usize, text: &[u8]) -> usize
    requires { (N ≤ length text.now) × (at + N ≤ length room.old) }
    ensures { Placed room.old room.new at (take N text.now) result }
{
    Simd::<u8, N>::from_slice(text).copy_to_slice(&mut room[at..]);
    at + N
}

/// Writes a text of N to 2N bytes.
#[inline(always)]
fn place_ends<const N: usize>(room: &mut [u8], at: usize, text: &[u8]) -> usize
    requires fits { at + length text.now ≤ length room.old }
    requires covers { (N ≤ length text.now) × (length text.now ≤ N + N) }
    ensures { Placed room.old room.new at text.now result }
{
    let last = text.len() - N;
    place_front::<N>(room, at, text);
    place_front::<N>(room, at + last, &text[last..])
}

/// Writes a text of more than 32 bytes.
fn place_long(room: &mut [u8], at: usize, text: &[u8]) -> usize
    requires { at + length text.now ≤ length room.old }
    ensures { Placed room.old room.new at text.now result }
{
    let end = at + text.len();
    room[at..end].copy_from_slice(text);
    end
}

/// Writes a text, and returns where it ends.
#[inline(always)]
pub fn place_text(room: &mut [u8], at: usize, text: &[u8]) -> usize
    requires { at + length text.now ≤ length room.old }
    ensures { Placed room.old room.new at text.now result }
{
    let len = text.len();
    if len > 32 {
        place_long(room, at, text)
    } else if len >= 16 {
        place_ends::<16>(room, at, text)
    } else if len >= 8 {
        place_ends::<8>(room, at, text)
    } else if len >= 4 {
        place_ends::<4>(room, at, text)
    } else if len >= 2 {
        place_ends::<2>(room, at, text)
    } else if len == 1 {
        place_front::<1>(room, at, text)
    } else {
        at
    }
}
