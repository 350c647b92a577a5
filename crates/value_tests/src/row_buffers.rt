//! Rows that a buffer holds as the columns that they shred to.

use crate::schemas::{
    BOOLEAN, BYTE_ARRAY, FieldRow, INT64, OPTIONAL, REPEATED, REQUIRED, schema_of,
};
use assemble::{RowSink, show_row};
use bits::{R, Refusal};
use schema::{EntryRef, Row, Value, ValueRef};
use shred::RowBuffer;
use std::alloc::Global;
use std::test::*;

/// A BOOLEAN, an INT64 that may be absent, bytes, and a list of groups with one INT64.
const OF_ALL_KINDS: &[FieldRow] = &[
    ("root", REQUIRED, None, Some(4)),
    ("flag", REQUIRED, Some(BOOLEAN), None),
    ("number", OPTIONAL, Some(INT64), None),
    ("bytes", REQUIRED, Some(BYTE_ARRAY), None),
    ("items", REPEATED, None, Some(1)),
    ("item", REQUIRED, Some(INT64), None),
];

/// Row n: whether n is even; n, but null for each third row; n times the byte n, up to 3; and as many items.
fn row(alloc: Global, n: u8) -> R<Row> {
    let number = Value::Int(i64::from(n));
    let (mut bytes, mut items) = (Vec::new(alloc), Vec::new(alloc));
    for _ in 0..n % 4 {
        bytes.push(n)?;
        items.push(group_of(alloc, n)?)?;
    }
    let mut values = Vec::new(alloc);
    values.push(Value::Bool(n % 2 == 0))?;
    values.push(if n % 3 == 0 { Value::Null } else { number })?;
    values.push(Value::Bytes(bytes))?;
    values.push(Value::List(items))?;
    Ok(Row { values })
}

/// A group of one number.
fn group_of(alloc: Global, n: u8) -> R<Value> {
    let mut values = Vec::new(alloc);
    values.push(Value::Int(i64::from(n)))?;
    Ok(Value::Group(values))
}

/// Adds the rows 0 to 249 again and again.
fn fill(alloc: Global, buffer: &mut RowBuffer<'_>, count: usize) -> R<()> {
    for n in 0..count {
        buffer.push(row(alloc, (n % 250) as u8)?)?;
    }
    Ok(())
}

/// Shows a buffer a row, and ends it.
fn show(buffer: &mut RowBuffer<'_>, row: &Row) -> R<()> {
    show_row(row, buffer)?;
    buffer.end_row()
}

/// The entries of a leaf.
fn entries_of<'b>(alloc: Global, buffer: &'b RowBuffer<'_>, leaf: usize) -> R<Vec<EntryRef<'b>>> {
    let mut entries = Vec::new(alloc);
    buffer.entries(leaf, &mut entries)?;
    Ok(entries)
}

fn is_flag(entry: &EntryRef<'_>, n: u8) -> bool {
    matches!(entry.value, Some(ValueRef::Bool(flag)) if flag == (n % 2 == 0))
}

fn is_number(entry: &EntryRef<'_>, n: u8) -> bool {
    match entry.value {
        None => n % 3 == 0 && entry.definition == 0,
        Some(ValueRef::Int(number)) => number == n as i64 && entry.definition == 1,
        Some(_) => false,
    }
}

fn is_bytes(entry: &EntryRef<'_>, n: u8) -> bool {
    match entry.value {
        Some(ValueRef::Bytes(bytes)) => {
            bytes.len() == (n % 4) as usize && bytes.iter().all(|b| *b == n)
        }
        _ => false,
    }
}

/// Whether the entry at an index has these levels, repetition first, and this number or none.
fn is_item(
    entries: &[EntryRef<'_>],
    index: usize,
    levels: (u32, u32),
    number: Option<i64>,
) -> bool {
    let Some(entry) = entries.get(index) else {
        return false;
    };
    let same = match (entry.value, number) {
        (None, None) => true,
        (Some(ValueRef::Int(found)), Some(number)) => found == number,
        _ => false,
    };
    same && (entry.repetition, entry.definition) == levels
}

/// Whether the items of row n begin at an index.
fn are_items_of(entries: &[EntryRef<'_>], index: usize, n: u8) -> bool {
    if n % 4 == 0 {
        return is_item(entries, index, (0, 0), None);
    }
    for k in 0..n % 4 {
        let levels = (u32::from(k.min(1)), 1);
        let at = index.saturating_add(k as usize);
        if !is_item(entries, at, levels, Some(i64::from(n))) {
            return false;
        }
    }
    true
}

/// Whether the entries are those of the items of so many rows.
fn are_items(entries: &[EntryRef<'_>], count: usize) -> bool {
    let mut at: usize = 0;
    for i in 0..count {
        let n = (i % 250) as u8;
        if !are_items_of(entries, at, n) {
            return false;
        }
        at = at.saturating_add((n % 4).max(1) as usize);
    }
    at == entries.len()
}

/// Whether the first three leaves have the entries of so many rows.
fn are_values(alloc: Global, buffer: &RowBuffer<'_>, count: usize) -> R<bool> {
    let flags = entries_of(alloc, buffer, 0)?;
    let numbers = entries_of(alloc, buffer, 1)?;
    let texts = entries_of(alloc, buffer, 2)?;
    if flags.len() != count || numbers.len() != count || texts.len() != count {
        return Ok(false);
    }
    for i in 0..count {
        let n = (i % 250) as u8;
        if !(is_flag(&flags[i], n) && is_number(&numbers[i], n) && is_bytes(&texts[i], n)) {
            return Ok(false);
        }
    }
    Ok(true)
}

/// Whether a buffer has so many rows, and their entries in each of its four leaves.
fn are_held(alloc: Global, buffer: &RowBuffer<'_>, count: usize) -> R<bool> {
    let items = entries_of(alloc, buffer, 3)?;
    Ok(
        buffer.len() == count
            && buffer.schema().leaves().len() == 4
            && are_values(alloc, buffer, count)?
            && are_items(items.as_slice(), count)
            && entries_of(alloc, buffer, 4)?.is_empty(),
    )
}

/// Whether thousands of rows that are pushed are held.
fn are_pushed(alloc: Global) -> R<bool> {
    let schema = schema_of(alloc, OF_ALL_KINDS)?;
    let mut buffer = RowBuffer::new(alloc, &schema)?;
    fill(alloc, &mut buffer, 2500)?;
    are_held(alloc, &buffer, 2500)
}

#[test]
fn thousands_of_rows_have_their_entries(rt: HostRuntime) -> Result<(), Fail> {
    assert!(rt; are_pushed(rt.alloc())?);
    Ok(())
}

/// Whether rows that are shown are held.
fn are_shown(alloc: Global) -> R<bool> {
    let schema = schema_of(alloc, OF_ALL_KINDS)?;
    let mut buffer = RowBuffer::new(alloc, &schema)?;
    for n in 0..9 {
        show(&mut buffer, &row(alloc, n)?)?;
    }
    are_held(alloc, &buffer, 9)
}

#[test]
fn rows_that_are_shown_have_their_entries(rt: HostRuntime) -> Result<(), Fail> {
    assert!(rt; are_shown(rt.alloc())?);
    Ok(())
}

/// Shows a sink a row and a part of a further value, and drops both.
fn drop_shown<K: RowSink>(sink: &mut K, row: &Row) -> R<()> {
    sink.begin_row();
    show_row(row, sink)?;
    sink.begin_list()?;
    sink.drop_row();
    Ok(())
}

/// Whether rows that are dropped leave those before them, and take none from those after them.
fn are_dropped(alloc: Global) -> R<bool> {
    let schema = schema_of(alloc, OF_ALL_KINDS)?;
    let mut buffer = RowBuffer::new(alloc, &schema)?;
    drop_shown(&mut buffer, &row(alloc, 7)?)?;
    let is_empty = are_held(alloc, &buffer, 0)?;
    for n in 0..6 {
        buffer.begin_row();
        show(&mut buffer, &row(alloc, n)?)?;
        drop_shown(&mut buffer, &row(alloc, 7)?)?;
    }
    Ok(is_empty && are_held(alloc, &buffer, 6)?)
}

#[test]
fn rows_that_are_dropped_leave_those_before_them(rt: HostRuntime) -> Result<(), Fail> {
    assert!(rt; are_dropped(rt.alloc())?);
    Ok(())
}

/// Whether a row of one value is refused, and leaves so many rows.
fn is_misfit(alloc: Global, buffer: &mut RowBuffer<'_>, count: usize) -> R<bool> {
    let mut values = Vec::new(alloc);
    values.push(Value::Bool(true))?;
    let refused = buffer.push(Row { values });
    Ok(matches!(refused, Err(Refusal::RowShape)) && are_held(alloc, buffer, count)?)
}

/// Whether a buffer holds what it is given after rows that do not fit, and after it is cleared.
fn is_filled_again(alloc: Global) -> R<bool> {
    let schema = schema_of(alloc, OF_ALL_KINDS)?;
    let mut buffer = RowBuffer::new(alloc, &schema)?;
    fill(alloc, &mut buffer, 5)?;
    let is_kept = is_misfit(alloc, &mut buffer, 5)? && is_misfit(alloc, &mut buffer, 5)?;
    buffer.push(row(alloc, 5)?)?;
    let is_longer = are_held(alloc, &buffer, 6)?;
    buffer.clear();
    let is_empty = buffer.len() == 0;
    fill(alloc, &mut buffer, 3)?;
    Ok(is_kept && is_longer && is_empty && are_held(alloc, &buffer, 3)?)
}

#[test]
fn a_row_that_does_not_fit_is_refused_when_it_is_given(rt: HostRuntime) -> Result<(), Fail> {
    assert!(rt; is_filled_again(rt.alloc())?);
    Ok(())
}

/// What the values of four rows are in PLAIN: of the first three, and of the last.
const FIRST_VALUES: &[u8] = &[0, 0, 0, 0, 1, 0, 0, 0, 1, 2, 0, 0, 0, 2, 2];

const LAST_VALUE: &[u8] = &[3, 0, 0, 0, 3, 3, 3];

/// Whether the values of four rows wait in PLAIN.
fn are_plain(buffer: &RowBuffer<'_>) -> R<bool> {
    let Some(mut values) = buffer.plain_values(2) else {
        return Ok(false);
    };
    Ok(
        values.len() == 4
            && values.take_bytes(3)? == FIRST_VALUES
            && values.take_bytes(3)? == LAST_VALUE
            && values.take_bytes(3)?.is_empty()
            && values.next().is_none(),
    )
}

/// Whether the values of the leaf of bytes wait in PLAIN, also when there are none, and those of no other leaf.
fn is_alone_in_plain(alloc: Global) -> R<bool> {
    let schema = schema_of(alloc, OF_ALL_KINDS)?;
    let mut buffer = RowBuffer::new(alloc, &schema)?;
    fill(alloc, &mut buffer, 4)?;
    for leaf in [0, 1, 3, 4] {
        if buffer.plain_values(leaf).is_some() {
            return Ok(false);
        }
    }
    let is_full = are_plain(&buffer)?;
    buffer.clear();
    Ok(is_full && matches!(buffer.plain_values(2), Some(values) if values.len() == 0))
}

#[test]
fn values_of_a_leaf_without_levels_wait_in_plain(rt: HostRuntime) -> Result<(), Fail> {
    assert!(rt; is_alone_in_plain(rt.alloc())?);
    Ok(())
}

/// Whether a number that is shown among bytes is among their entries, which then do not wait in PLAIN.
fn is_odd(alloc: Global) -> R<bool> {
    let schema = schema_of(alloc, OF_ALL_KINDS)?;
    let mut buffer = RowBuffer::new(alloc, &schema)?;
    fill(alloc, &mut buffer, 2)?;
    let mut odd = row(alloc, 2)?;
    if odd.values.len() < 3 {
        return Ok(false);
    }
    odd.values[2] = Value::Int(7);
    show(&mut buffer, &odd)?;
    let is_plain = buffer.plain_values(2).is_some();
    show(&mut buffer, &row(alloc, 3)?)?;
    let entries = entries_of(alloc, &buffer, 2)?;
    Ok(!is_plain && is_seven_third(entries.as_slice()))
}

/// Whether the bytes of the rows 0, 1 and 3 are there, and 7 as the third entry.
fn is_seven_third(entries: &[EntryRef<'_>]) -> bool {
    match entries {
        [first, second, _, fourth] => {
            is_bytes(first, 0)
                && is_bytes(second, 1)
                && is_bytes(fourth, 3)
                && is_item(entries, 2, (0, 0), Some(7))
        }
        _ => false,
    }
}

#[test]
fn a_value_of_another_type_waits_as_it_is(rt: HostRuntime) -> Result<(), Fail> {
    assert!(rt; is_odd(rt.alloc())?);
    Ok(())
}
