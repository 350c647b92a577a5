//! Rows by their keys.

ghost use Rattle.std.specs.Prelude.{◌≡◌, ◌<◌, List, IfOk, OnOk, MatchOption, map, length};
ghost use Rattle.bits.specs.Refusals.{OnFault, RefusedOnly, RefusedMemoryOnly};
ghost use Rattle.schema.specs.Values.{view};
ghost use Rattle.schema.specs.Views.{key_view, row_view, rows_view};
ghost use Rattle.schema.specs.Keys.{key_columns_view, places_of, row_without_keys};
ghost use Rattle.schema.specs.Cutting.{is_among};
ghost use Rattle.partition.specs.Folders.{CanPartition};
ghost use Rattle.partition.specs.Splitting.{HaveKeys, IsSplit, key_rows_view};
ghost use Rattle.partition.specs.inner.Parts.{part_view, parts_view, IsNoKeyValue, HasNoKey, AreOfRow, IsPlaced, with_row};

use crate::checks::can_partition;
use crate::order::compare_keys;
use bits::{R, Refusal};
use indexmap::IndexSet;
use schema::{Key, KeyColumn, Row, Value};
use std::alloc::Global;

/// Rows of one key, without their values in the key columns.
#[derive(Debug, Drop)]
pub struct KeyRows {
    pub key: Key,
    pub rows: Vec<Row>,
}

/// A value of a key, as the set of keys has it.
#[derive(PartialEq, Eq, Hash, Drop)]
enum Part {
    Boolean(bool),
    Number(i64),
    Text(Vec<u8>),
}

/// The rows of each key, keys ascending, each key's rows in the order given, and without their values in the key columns.
/// The rows are borrowed, and their other values copied, once.
///
/// Refused Key exactly when a row has no key that can partition, out of memory aside.
///
/// One pass over the rows, with a look-up in a hash table for each, and one sort of the keys.
pub fn split_by_key(alloc: Global, columns: &[KeyColumn], rows: &[Row]) -> R<Vec<KeyRows>>
    ensures stands { IfOk result (λ split. IsSplit (key_columns_view columns.now) (rows_view rows.now) (map key_rows_view split.items)) }
    ensures only { OnFault result (HaveKeys (key_columns_view columns.now) (rows_view rows.now) → ⊥) }
    ensures which { RefusedOnly (λ e. e ≡ Refusal.Key) result }
{
    let mut keys = IndexSet::new(alloc);
    let mut split: Vec<KeyRows> = Vec::new(alloc);
    for row in rows {
        let Some(parts) = parts_of(alloc, columns, row)? else {
            return Err(Refusal::Key);
        };
        let at = place_of(alloc, columns, &mut keys, &mut split, parts)?;
        let rest = without_keys(alloc, columns, row)?;
        push_row(&mut split, at, rest)?;
    }
    split.sort_by(|a, b| compare_keys(&a.key, &b.key))?;
    Ok(split)
}

/// The key of a row; None where a value is missing or no key has it.
fn parts_of(alloc: Global, columns: &[KeyColumn], row: &Row) -> R<Option<Vec<Part>>>
    ensures stands { let keys = key_columns_view columns.now in let seen = row_view row.now in
        IfOk result (λ found. MatchOption found (HasNoKey keys seen) (λ parts. AreOfRow keys seen parts.items)) }
    ensures which { RefusedMemoryOnly result }
{
    let mut parts = Vec::with_capacity(alloc, columns.len())?;
    for column in columns {
        if column.at >= row.values.len() {
            return Ok(None);
        }
        match part_of(alloc, &row.values[column.at])? {
            Some(part) => parts.push(part)?,
            None => return Ok(None),
        }
    }
    Ok(Some(parts))
}

/// A value of a key as the set of keys has it; None where no key has such a value.
fn part_of(alloc: Global, value: &Value) -> R<Option<Part>>
    ensures stands { IfOk result (λ found. MatchOption found (IsNoKeyValue (view value.now)) (λ part. part_view part ≡ view value.now)) }
    ensures which { RefusedMemoryOnly result }
{
    match value {
        Value::Bool(b) => Ok(Some(Part::Boolean(*b))),
        Value::Int(number) => Ok(Some(Part::Number(*number))),
        Value::Bytes(text) => {
            let text = Vec::from_slice(alloc, text.as_slice())?;
            Ok(Some(Part::Text(text)))
        }
        Value::Null => Ok(None),
        Value::Group(_) => Ok(None),
        Value::List(_) => Ok(None),
    }
}

/// The place of a key among those that have rows; a new key is added, without rows.
fn place_of(
    alloc: Global,
    columns: &[KeyColumn],
    keys: &mut IndexSet<Vec<Part>>,
    split: &mut Vec<KeyRows>,
    parts: Vec<Part>,
) -> R<usize>
    requires { map (λ k. parts_view k.items) keys.old.keys ≡ map (λ p. p.key) (map key_rows_view split.old.items) }
    ensures keys { OnOk result (map (λ k. parts_view k.items) keys.new.keys ≡ map (λ p. p.key) (map key_rows_view split.new.items)) }
    ensures placed { IfOk result (λ at. IsPlaced (key_columns_view columns.now) (map key_rows_view split.old.items) (parts_view parts.items) at
        (map key_rows_view split.new.items)) }
    ensures only { OnFault result (CanPartition (key_columns_view columns.now) (parts_view parts.items) → ⊥) }
    ensures which { RefusedOnly (λ e. e ≡ Refusal.Key) result }
{
    if let Some(at) = keys.get_index_of(&parts) {
        return Ok(at);
    }
    let key = key_of_parts(alloc, parts.as_slice())?;
    if !can_partition(columns, &key) {
        return Err(Refusal::Key);
    }
    let at = split.as_slice().len();
    keys.insert(parts)?;
    split.push(KeyRows {
        key,
        rows: Vec::new(alloc),
    })?;
    Ok(at)
}

/// The key that these parts are.
fn key_of_parts(alloc: Global, parts: &[Part]) -> R<Key>
    ensures stands { IfOk result (λ key. key_view key ≡ parts_view parts.now) }
    ensures which { RefusedMemoryOnly result }
{
    let mut values = Vec::with_capacity(alloc, parts.len())?;
    for part in parts {
        values.push(value_of(alloc, part)?)?;
    }
    Ok(Key { values })
}

/// The value that a part of a key is.
fn value_of(alloc: Global, part: &Part) -> R<Value>
    ensures stands { IfOk result (λ value. view value ≡ part_view part.now) }
    ensures which { RefusedMemoryOnly result }
{
    match part {
        Part::Boolean(b) => Ok(Value::Bool(*b)),
        Part::Number(number) => Ok(Value::Int(*number)),
        Part::Text(text) => {
            let text = Vec::from_slice(alloc, text.as_slice())?;
            Ok(Value::Bytes(text))
        }
    }
}

/// A copy of the row without its key columns. Time and room are linear in what the row holds. Refused only for memory.
pub fn without_keys(alloc: Global, columns: &[KeyColumn], row: &Row) -> R<Row>
    ensures stands { IfOk result (λ rest. row_view rest ≡ row_without_keys (key_columns_view columns.now) (row_view row.now)) }
    ensures which { RefusedMemoryOnly result }
{
    let mut values = Vec::with_capacity(alloc, row.values.len())?;
    for (at, value) in row.values.iter().enumerate() {
        if is_key_place(columns, at) {
            continue;
        }
        let copy = value.copied(alloc)?;
        values.push(copy)?;
    }
    Ok(Row { values })
}

/// Whether a key column is at this place.
fn is_key_place(columns: &[KeyColumn], at: usize) -> bool
    ensures { result ≡ is_among (places_of (key_columns_view columns.now)) at }
{
    for column in columns {
        if column.at == at {
            return true;
        }
    }
    false
}

/// Puts a row after those of the key at this place.
fn push_row(split: &mut Vec<KeyRows>, at: usize, row: Row) -> R<()>
    requires { at < length split.old.items }
    ensures ok { OnOk result (map key_rows_view split.new.items ≡ with_row at (row_view row) (map key_rows_view split.old.items)) }
    ensures which { RefusedMemoryOnly result }
{
    split[at].rows.push(row)?;
    Ok(())
}
