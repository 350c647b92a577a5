//! The numbers and the byte strings of lists.

ghost use Rattle.std.specs.Prelude.{◌≡◌, ◌||◌, ℤ, ℕ, List, IfOk, OnOk, MatchOption, false};
ghost use Rattle.std.specs.List.{list_any};
ghost use Rattle.std.specs.Str.{bytes_eq};
ghost use Rattle.bits.specs.Refusals.{RefusedMemoryOnly};
ghost use Rattle.schema.specs.Values.{view, integer, bytes};
ghost use Rattle.filter.specs.Same.{same};
ghost use Rattle.filter.specs.inner.Sets.{HasNumbers, HasTexts, is_text};

use bits::R;
use schema::Value;
use std::alloc::Global;
use std::collections::HashSet;

/// The numbers in a list.
pub fn numbers_in(alloc: Global, list: &Value) -> R<HashSet<i64>>
    ensures numbers { IfOk result (λ s. HasNumbers s.keys (view list.now)) }
    ensures which { RefusedMemoryOnly result }
{
    let mut numbers = HashSet::new(alloc);
    if let Value::List(items) = list {
        for item in items {
            if let Some(number) = number_of(item) {
                numbers.insert(number)?;
            }
        }
    }
    Ok(numbers)
}

/// The byte strings in a list, copied.
pub fn texts_in(alloc: Global, list: &Value) -> R<HashSet<Vec<u8>>>
    ensures texts { IfOk result (λ s. HasTexts s.keys (view list.now)) }
    ensures which { RefusedMemoryOnly result }
{
    let mut texts = HashSet::new(alloc);
    if let Value::List(items) = list {
        for item in items {
            if let Some(text) = text_of(item) {
                insert_text(alloc, &mut texts, text)?;
            }
        }
    }
    Ok(texts)
}

fn number_of(value: &Value) -> Option<i64>
    ensures { MatchOption result ((z : ℤ) → same (integer z) (view value.now) ≡ false) (λ n. view value.now ≡ integer n) }
{
    match value {
        Value::Int(number) => Some(*number),
        Value::Null | Value::Bool(_) | Value::Bytes(_) | Value::Group(_) | Value::List(_) => None,
    }
}

fn text_of(value: &Value) -> Option<&[u8]>
    ensures { MatchOption result ((text : List ℕ) → same (bytes text) (view value.now) ≡ false) (λ s. view value.now ≡ bytes s.now) }
{
    match value {
        Value::Bytes(text) => Some(text.as_slice()),
        Value::Null | Value::Bool(_) | Value::Int(_) | Value::Group(_) | Value::List(_) => None,
    }
}

/// Inserts a copy of a byte string.
fn insert_text(alloc: Global, texts: &mut HashSet<Vec<u8>>, text: &[u8]) -> R<()>
    ensures inserted { OnOk result ((q : List ℕ)
        → list_any (is_text q) texts.new.keys ≡ (bytes_eq q text.now || list_any (is_text q) texts.old.keys)) }
    ensures which { RefusedMemoryOnly result }
{
    let copy = Vec::from_slice(alloc, text)?;
    texts.insert(copy)?;
    Ok(())
}
