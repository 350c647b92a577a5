//! Rows with the values that are not read: those of keys, and nulls where the file has no column.

ghost use Rattle.std.specs.Prelude.{◌≡◌, ◌++◌, map, IfOk, OnOk};
ghost use Rattle.bits.specs.Refusals.{RefusedMemoryOnly};
ghost use Rattle.schema.specs.Keys.{key_columns_view, places_of};
ghost use Rattle.schema.specs.Shape.{count};
ghost use Rattle.schema.specs.Values.{view, views};
ghost use Rattle.schema.specs.Views.{key_view, row_view};
ghost use Rattle.scan.specs.inner.Fills.{fill_view, given, fill_of, fills_of, filled, insert_at};

use crate::leaf_uses::is_stored;
use bits::R;
use filter::key_at;
use schema::{Key, KeyColumn, Row, Schema, Value};
use std::alloc::Global;

/// A value that rows have without being read, at its index in the row that is returned.
#[derive(Debug, Drop)]
pub struct Fill {
    pub at: usize,
    pub value: Value,
}

/// The values of the wanted columns that are not read, in the order of the columns.
pub fn fills_of(
    alloc: Global,
    schema: &Schema,
    keys: &[KeyColumn],
    key: &Key,
    width: usize,
    places: &[usize],
) -> R<Vec<Fill>>
    ensures stands { IfOk result (λ fills. map fill_view fills.items
        ≡ fills_of (places_of (key_columns_view keys.now)) (key_view key.now) width places.now 0 0 (count schema.now)) }
    ensures which { RefusedMemoryOnly result }
{
    let mut fills = Vec::new(alloc);
    let mut at = 0;
    for place in 0..schema.fields().len() {
        if places.contains(&place) {
            push_fill(alloc, &mut fills, keys, key, width, place, at)?;
            at += 1;
        }
    }
    Ok(fills)
}

/// Adds the value of a wanted column, where the file does not have it.
fn push_fill(
    alloc: Global,
    fills: &mut Vec<Fill>,
    keys: &[KeyColumn],
    key: &Key,
    width: usize,
    place: usize,
    at: usize,
) -> R<()>
    ensures stands { OnOk result (map fill_view fills.new.items
        ≡ map fill_view fills.old.items ++ fill_of (places_of (key_columns_view keys.now)) (key_view key.now) width place at) }
    ensures which { RefusedMemoryOnly result }
{
    if is_stored(keys, width, place) {
        return Ok(());
    }
    let value = given(alloc, keys, key, place)?;
    fills.push(Fill { at, value })?;
    Ok(())
}

/// The value that each row has in a column that is not read: that of the key, or null.
pub fn given(alloc: Global, keys: &[KeyColumn], key: &Key, place: usize) -> R<Value>
    ensures stands { IfOk result (λ v. view v ≡ given (places_of (key_columns_view keys.now)) (key_view key.now) place) }
    ensures which { RefusedMemoryOnly result }
{
    match key_at(keys, key.values.as_slice(), place) {
        Some(value) => value.copied(alloc),
        None => Ok(Value::Null),
    }
}

/// The row with these values put in.
pub fn completed(alloc: Global, fills: &[Fill], row: Row) -> R<Row>
    ensures stands { IfOk result (λ whole. row_view whole ≡ filled (map fill_view fills.now) (row_view row)) }
    ensures which { RefusedMemoryOnly result }
{
    let mut values = row.values;
    for fill in fills {
        put_in(&mut values, fill.at, fill.value.copied(alloc)?)?;
    }
    Ok(Row { values })
}

/// Puts a value in at an index, or at the end.
fn put_in(values: &mut Vec<Value>, at: usize, value: Value) -> R<()>
    ensures stands { OnOk result (views values.new.items ≡ insert_at at (view value) (views values.old.items)) }
    ensures which { RefusedMemoryOnly result }
{
    if at >= values.len() {
        values.push(value)?;
        return Ok(());
    }
    values.insert(at, value)?;
    Ok(())
}
