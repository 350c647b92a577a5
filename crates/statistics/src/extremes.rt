//! The statistics of columns.

ghost use Rattle.std.specs.Prelude.{map, ◌≡◌, IfOk, IfSome, option_map};
ghost use Rattle.std.specs.List.{list_all};
ghost use Rattle.bits.specs.Refusals.{RefusedMemoryOnly};
ghost use Rattle.schema.specs.Orders.{is_compared};
ghost use Rattle.schema.specs.Values.{view, integer, bytes};
ghost use Rattle.schema.specs.Borrowed.{value_ref_view};
ghost use Rattle.schema.specs.Views.{column_view, leaf_order};
ghost use Rattle.plain.specs.Flat.{flat_entries};
ghost use Rattle.plain.specs.ValuesLeft.{values_left};
ghost use Rattle.statistics.specs.Bounds.{statistics_of, values, null_count, Bounds, AreLeastAndGreatest};
ghost use Rattle.statistics.specs.inner.Extremes.{is_within_limit, lesser, greater, picked, pick_from, kept};

use crate::cursor::EntryCursor;
use crate::entry::HasValue;
use crate::stats::Stats;
use crate::text::{Text, is_before, is_behind};
use bits::R;
use plain::Values;
use schema::{Column, Leaf, Order, Value, ValueRef, compare_refs};
use std::alloc::Global;
use std::cmp::Ordering;

/// How many bytes a value that is kept as a bound has at most.
pub const MOST_BYTES_OF_BOUND: usize = 64;

/// The statistics of a column: its minimum and its maximum in the leaf's order, and how many entries have
/// no value (`parquet.thrift`, Statistics).
///
/// Each bound is there by itself, exactly when the leaf has an order, a value is there, and the bound has
/// at most 64 bytes. It fails only when out of memory. Takes one pass over the entries, and copies the two
/// bounds.
pub fn bounds(alloc: Global, leaf: &Leaf, column: &Column) -> R<Stats>
    ensures which { RefusedMemoryOnly result }
    ensures bounds_hold { IfOk result (λ s. Bounds (leaf_order leaf.now) (statistics_of s) (column_view column.now)) }
    ensures bounds_are { IfOk result (λ s. AreLeastAndGreatest (leaf_order leaf.now) (statistics_of s) (column_view column.now)) }
{
    bounds_of(alloc, leaf, column.entries.as_slice())
}

/// The statistics of a column of entries that lend their values, as of [`bounds`].
pub fn bounds_of<E: HasValue>(alloc: Global, leaf: &Leaf, entries: &[E]) -> R<Stats>
    ensures which { RefusedMemoryOnly result }
    ensures bounds_hold { IfOk result (λ s. Bounds (leaf_order leaf.now) (statistics_of s) (map E.shown entries.now)) }
    ensures bounds_are { IfOk result (λ s. AreLeastAndGreatest (leaf_order leaf.now) (statistics_of s) (map E.shown entries.now)) }
{
    bounds_from(alloc, leaf, entries)
}

/// The statistics of a leaf without levels that has these values, as of [`bounds`].
pub fn bounds_of_values(alloc: Global, leaf: &Leaf, values: Values<'_>) -> R<Stats>
    ensures which { RefusedMemoryOnly result }
    ensures bounds_hold { IfOk result (λ s. Bounds (leaf_order leaf.now) (statistics_of s) (flat_entries (values_left values.entry))) }
    ensures bounds_are { IfOk result (λ s. AreLeastAndGreatest (leaf_order leaf.now) (statistics_of s) (flat_entries (values_left values.entry))) }
{
    bounds_from(alloc, leaf, values)
}

/// The statistics of the entries that a cursor has not taken.
fn bounds_from<'a, C: EntryCursor<'a>>(alloc: Global, leaf: &Leaf, cursor: C) -> R<Stats>
    ensures which { RefusedMemoryOnly result }
    ensures bounds_hold { IfOk result (λ s. Bounds (leaf_order leaf.now) (statistics_of s) (C.left cursor)) }
    ensures bounds_are { IfOk result (λ s. AreLeastAndGreatest (leaf_order leaf.now) (statistics_of s) (C.left cursor)) }
{
    let found = extremes_of(leaf.leaf_type.order(), cursor);
    let min = bound(alloc, found.all_compared, found.least)?;
    let max = bound(alloc, found.all_compared, found.greatest)?;
    Ok(Stats {
        min,
        max,
        nulls: found.nulls,
    })
}

/// What one pass over a column finds.
#[derive(Clone, Copy)]
struct Extremes<'a> {
    least: Option<ValueRef<'a>>,
    greatest: Option<ValueRef<'a>>,
    /// Whether the order compares each value.
    all_compared: bool,
    /// How many entries have no value.
    nulls: u64,
}

/// The least and the greatest value in the order. Numbers in the signed order and bytes are compared as
/// they are; all else goes by [`extremes_of_any`].
fn extremes_of<'a, C: EntryCursor<'a>>(order: Option<Order>, cursor: C) -> Extremes<'a>
    ensures least { option_map value_ref_view result.least ≡ pick_from (lesser order) None (values (C.left cursor)) }
    ensures greatest { option_map value_ref_view result.greatest ≡ pick_from (greater order) None (values (C.left cursor)) }
    ensures all_compared { result.all_compared ≡ list_all (is_compared order) (values (C.left cursor)) }
    ensures nulls { result.nulls ≡ null_count (C.left cursor) }
{
    match order {
        Some(Order::Signed) => match extremes_of_numbers(cursor) {
            Some(found) => found,
            None => extremes_of_any(order, cursor),
        },
        Some(Order::Bytewise) => match extremes_of_texts(cursor) {
            Some(found) => found,
            None => extremes_of_any(order, cursor),
        },
        _ => extremes_of_any(order, cursor),
    }
}

/// The least and the greatest number in the signed order; None where a value is none.
// Out of line, so that the loop has the registers for itself.
#[inline(never)]
fn extremes_of_numbers<'a, C: EntryCursor<'a>>(cursor: C) -> Option<Extremes<'a>>
    ensures least { let vs = values (C.left cursor) in
        IfSome result (λ found. option_map value_ref_view found.least ≡ pick_from (lesser (Some Order.Signed)) None vs) }
    ensures greatest { let vs = values (C.left cursor) in
        IfSome result (λ found. option_map value_ref_view found.greatest ≡ pick_from (greater (Some Order.Signed)) None vs) }
    ensures all_compared { IfSome result (λ found. found.all_compared ≡ list_all (is_compared (Some Order.Signed)) (values (C.left cursor))) }
    ensures nulls { IfSome result (λ found. found.nulls ≡ null_count (C.left cursor)) }
{
    let mut cursor = cursor;
    // A pair, so that one test tells whether a number came before.
    let mut ends: Option<(i64, i64)> = None;
    let mut nulls = 0u64;
    // For the proof: a u64 counts the entries.
    let _ = cursor.count();
    'entries: while cursor.count() > 0 {
        match cursor.next_value() {
            Some(value) => match value {
                ValueRef::Int(number) => ends = Some(ends_of_numbers(number, ends)),
                _ => return None,
            },
            None => nulls += 1,
        }
    }
    let (least, greatest) = match ends {
        Some((least, greatest)) => (Some(ValueRef::Int(least)), Some(ValueRef::Int(greatest))),
        None => (None, None),
    };
    Some(Extremes {
        least,
        greatest,
        all_compared: true,
        nulls,
    })
}

/// The least and the greatest bytes, byte by byte; None where a value is none.
// Out of line, so that the loop has the registers for itself.
#[inline(never)]
fn extremes_of_texts<'a, C: EntryCursor<'a>>(cursor: C) -> Option<Extremes<'a>>
    ensures least { let vs = values (C.left cursor) in
        IfSome result (λ found. option_map value_ref_view found.least ≡ pick_from (lesser (Some Order.Bytewise)) None vs) }
    ensures greatest { let vs = values (C.left cursor) in
        IfSome result (λ found. option_map value_ref_view found.greatest ≡ pick_from (greater (Some Order.Bytewise)) None vs) }
    ensures all_compared { IfSome result (λ found. found.all_compared ≡ list_all (is_compared (Some Order.Bytewise)) (values (C.left cursor))) }
    ensures nulls { IfSome result (λ found. found.nulls ≡ null_count (C.left cursor)) }
{
    let mut cursor = cursor;
    let mut ends: Option<(Text<'a>, Text<'a>)> = None;
    let mut nulls = 0u64;
    // For the proof: a u64 counts the entries.
    let _ = cursor.count();
    'entries: while cursor.count() > 0 {
        match cursor.next_value() {
            Some(value) => match value {
                ValueRef::Bytes(text) => ends = Some(ends_of_texts(Text::of(text), ends)),
                _ => return None,
            },
            None => nulls += 1,
        }
    }
    let (least, greatest) = match ends {
        Some((least, greatest)) => (
            Some(ValueRef::Bytes(least.bytes)),
            Some(ValueRef::Bytes(greatest.bytes)),
        ),
        None => (None, None),
    };
    Some(Extremes {
        least,
        greatest,
        all_compared: true,
        nulls,
    })
}

/// The least and the greatest value in any order.
fn extremes_of_any<'a, C: EntryCursor<'a>>(order: Option<Order>, cursor: C) -> Extremes<'a>
    ensures least { option_map value_ref_view result.least ≡ pick_from (lesser order) None (values (C.left cursor)) }
    ensures greatest { option_map value_ref_view result.greatest ≡ pick_from (greater order) None (values (C.left cursor)) }
    ensures all_compared { result.all_compared ≡ list_all (is_compared order) (values (C.left cursor)) }
    ensures nulls { result.nulls ≡ null_count (C.left cursor) }
{
    let mut cursor = cursor;
    let mut least: Option<ValueRef<'a>> = None;
    let mut greatest: Option<ValueRef<'a>> = None;
    let mut all_compared = true;
    let mut nulls = 0u64;
    // For the proof: a u64 counts the entries.
    let _ = cursor.count();
    'entries: while cursor.count() > 0 {
        match cursor.next_value() {
            Some(value) => {
                all_compared = all_compared && is_compared(order, value);
                least = Some(lesser(order, value, least));
                greatest = Some(greater(order, value, greatest));
            }
            None => nulls += 1,
        }
    }
    Extremes {
        least,
        greatest,
        all_compared,
        nulls,
    }
}

/// The least and the greatest of a number and of those before it.
#[inline(always)]
fn ends_of_numbers(number: i64, ends: Option<(i64, i64)>) -> (i64, i64)
    ensures least { integer result.0 ≡ picked (lesser (Some Order.Signed)) (integer number) (option_map (λ e. integer e.0) ends) }
    ensures greatest { integer result.1 ≡ picked (greater (Some Order.Signed)) (integer number) (option_map (λ e. integer e.1) ends) }
{
    match ends {
        None => (number, number),
        Some((least, greatest)) => (
            lesser_number(number, least),
            greater_number(number, greatest),
        ),
    }
}

/// The lesser of two numbers.
#[inline(always)]
fn lesser_number(number: i64, other: i64) -> i64
    ensures { integer result ≡ lesser (Some Order.Signed) (integer number) (integer other) }
{
    match number.cmp(&other) {
        Ordering::Less => number,
        _ => other,
    }
}

/// The greater of two numbers.
#[inline(always)]
fn greater_number(number: i64, other: i64) -> i64
    ensures { integer result ≡ greater (Some Order.Signed) (integer number) (integer other) }
{
    match number.cmp(&other) {
        Ordering::Greater => number,
        _ => other,
    }
}

/// The least and the greatest of a text and of those before it.
#[inline(always)]
fn ends_of_texts<'a>(text: Text<'a>, ends: Option<(Text<'a>, Text<'a>)>) -> (Text<'a>, Text<'a>)
    ensures least { let before = option_map (λ e. bytes e.0.bytes.now) ends.entry in
        bytes result.0.bytes.now ≡ picked (lesser (Some Order.Bytewise)) (bytes text.entry.bytes.now) before }
    ensures greatest { let before = option_map (λ e. bytes e.1.bytes.now) ends.entry in
        bytes result.1.bytes.now ≡ picked (greater (Some Order.Bytewise)) (bytes text.entry.bytes.now) before }
{
    match ends {
        None => (text, text),
        Some((least, greatest)) => (lesser_text(text, least), greater_text(text, greatest)),
    }
}

/// The lesser of two texts.
#[inline(always)]
fn lesser_text<'a>(text: Text<'a>, other: Text<'a>) -> Text<'a>
    ensures { bytes result.bytes.now ≡ lesser (Some Order.Bytewise) (bytes text.entry.bytes.now) (bytes other.entry.bytes.now) }
{
    if is_before(text, other) { text } else { other }
}

/// The greater of two texts.
#[inline(always)]
fn greater_text<'a>(text: Text<'a>, other: Text<'a>) -> Text<'a>
    ensures { bytes result.bytes.now ≡ greater (Some Order.Bytewise) (bytes text.entry.bytes.now) (bytes other.entry.bytes.now) }
{
    if is_behind(text, other) { text } else { other }
}

/// Whether the order compares a value.
fn is_compared(order: Option<Order>, value: ValueRef<'_>) -> bool
    ensures { result ≡ is_compared order (value_ref_view value.entry) }
{
    match (order, value) {
        (Some(Order::Signed), ValueRef::Int(_)) => true,
        (Some(Order::Unsigned), ValueRef::Int(_)) => true,
        (Some(Order::FalseFirst), ValueRef::Bool(_)) => true,
        (Some(Order::Bytewise), ValueRef::Bytes(_)) => true,
        _ => false,
    }
}

/// The lesser of two values.
fn lesser<'a>(
    order: Option<Order>,
    value: ValueRef<'a>,
    other: Option<ValueRef<'a>>,
) -> ValueRef<'a>
    ensures { value_ref_view result ≡ picked (lesser order) (value_ref_view value.entry) (option_map value_ref_view other.entry) }
{
    match other {
        None => value,
        Some(m) => match compare_refs(order, value, m) {
            Some(Ordering::Less) => value,
            _ => m,
        },
    }
}

/// The greater of two values.
fn greater<'a>(
    order: Option<Order>,
    value: ValueRef<'a>,
    other: Option<ValueRef<'a>>,
) -> ValueRef<'a>
    ensures { value_ref_view result ≡ picked (greater order) (value_ref_view value.entry) (option_map value_ref_view other.entry) }
{
    match other {
        None => value,
        Some(m) => match compare_refs(order, value, m) {
            Some(Ordering::Greater) => value,
            _ => m,
        },
    }
}

/// A copy of a value that is kept as a bound.
fn bound(alloc: Global, all_compared: bool, value: Option<ValueRef<'_>>) -> R<Option<Value>>
    ensures which { RefusedMemoryOnly result }
    ensures copies { IfOk result (λ b. option_map view b ≡ kept all_compared (option_map value_ref_view value.entry)) }
{
    match value {
        Some(value) if all_compared && is_within_limit(value) => Ok(Some(value.to_value(alloc)?)),
        _ => Ok(None),
    }
}

/// Whether a value has few enough bytes to be kept as a bound.
fn is_within_limit(value: ValueRef<'_>) -> bool
    ensures { result ≡ is_within_limit (value_ref_view value.entry) }
{
    match value {
        ValueRef::Bytes(bytes) => bytes.len() <= MOST_BYTES_OF_BOUND,
        _ => true,
    }
}
