//! The names of part files.

ghost use Rattle.std.specs.Prelude.{◌≡◌, ◌<◌, ◌^◌, ℕ, Some, IfOk, OnOk, IfSome, MatchOption, decimal, string_bytes};
ghost use Rattle.bits.specs.Refusals.{OnFault, RefusedOnly, RefusedMemoryOnly};
ghost use Rattle.schema.specs.Views.{key_view};
ghost use Rattle.schema.specs.Keys.{key_columns_view};
ghost use Rattle.partition.specs.Folders.{part_name_of, part_path_of, CanPartition};
ghost use Rattle.partition.specs.inner.Reading.{IsMiddle};

use crate::paths::path_of;
use bits::{R, Refusal};
use schema::{Key, KeyColumn};
use std::alloc::Global;

/// How many bytes stand before and after the number of a part file's name.
const BEFORE: usize = 5;

const AFTER: usize = 8;

/// The name of the part file of a group: `part.N.parquet`, N in plain decimal. Refused only when out of memory.
pub fn part_name(alloc: Global, number: u64) -> R<String>
    ensures stands { IfOk result (λ name. string_bytes name ≡ part_name_of number) }
    ensures which { RefusedMemoryOnly result }
{
    let name = format!(in alloc; "part.{number}.parquet")?;
    Ok(name)
}

/// The path of the part file of a group with this key and number, seen from the dataset's folder: in the folders of the
/// key, and without key columns only the name.
///
/// Refused Key exactly when [`can_partition`](crate::can_partition) says no, out of memory aside.
pub fn part_path(alloc: Global, columns: &[KeyColumn], key: &Key, number: u64) -> R<String>
    ensures stands { IfOk result (λ text. string_bytes text ≡ part_path_of (key_columns_view columns.now) (key_view key.now) number) }
    ensures can { OnOk result (CanPartition (key_columns_view columns.now) (key_view key.now)) }
    ensures only { OnFault result (CanPartition (key_columns_view columns.now) (key_view key.now) → ⊥) }
    ensures which { RefusedOnly (λ e. e ≡ Refusal.Key) result }
{
    let mut path = path_of(alloc, columns, key)?;
    let name = part_name(alloc, number)?;
    if !path.is_empty() {
        path.push_str("/")?;
    }
    path.push_str(name.as_str())?;
    Ok(path)
}

/// The number in the name of a part file: a `u64` in plain decimal, without a sign or leading zeros. None for every
/// other name. Refused only when out of memory.
pub fn part_number(alloc: Global, name: &str) -> R<Option<u64>>
    ensures stands { IfOk result (λ found. MatchOption found ((n : ℕ) → n < 2 ^ 64 → part_name_of n ≡ name.now → ⊥) (λ n. part_name_of n ≡ name.now)) }
    ensures fits { IfOk result (λ found. IfSome found (λ n. n < 2 ^ 64)) }
    ensures which { RefusedMemoryOnly result }
{
    let Some(middle) = middle(name.as_bytes()) else {
        return Ok(None);
    };
    let Some(number) = read_unsigned(middle) else {
        return Ok(None);
    };
    let written = part_name(alloc, number)?;
    if written.as_bytes() == name.as_bytes() {
        Ok(Some(number))
    } else {
        Ok(None)
    }
}

/// The text between the first five and the last eight bytes.
fn middle(name: &[u8]) -> Option<&[u8]>
    ensures { IsMiddle name.now result }
{
    if name.len() < BEFORE + AFTER {
        return None;
    }
    let (_, rest) = name.split_at(BEFORE);
    let (middle, _) = rest.split_at(name.len() - BEFORE - AFTER);
    Some(middle)
}

/// The number that a text is read as. A number below 2^64 in plain decimal is read as that number; other texts
/// may be read as one too. Takes no memory; the time is linear in the text.
pub fn read_unsigned(text: &[u8]) -> Option<u64>
    ensures { (n : ℕ) → n < 2 ^ 64 → text.now ≡ decimal n → result ≡ Some n }
{
    match std::str::from_utf8(text) {
        Ok(text) => text.parse::<u64>().ok(),
        Err(_) => None,
    }
}
