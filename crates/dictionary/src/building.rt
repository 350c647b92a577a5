//! From values to a dictionary of them.

ghost use Rattle.std.specs.Prelude.{◌≡◌, ℕ, ◌≤◌, ◌<◌, All, length, map, IfOk, OnOk, IfSome, IfNone};
ghost use Rattle.bits.specs.Refusals.{OnFault, RefusedOnly, RefusedMemoryOnly};
ghost use Rattle.schema.specs.Values.{view};
ghost use Rattle.schema.specs.Borrowed.{value_ref_view};
ghost use Rattle.dictionary.specs.Entries.{IsLeafValue, IsIndexed, AreMoreThan, entries_of, indexes_of};
ghost use Rattle.dictionary.specs.inner.Keys.{key_view};
ghost use Rattle.dictionary.specs.inner.Placing.{IsPlaced, IsFull};

use crate::dictionary::Dictionary;
use crate::key::{ValueKey, key_of};
use bits::{R, Refusal};
use indexmap::IndexSet;
use plain::Lends;
use schema::{Value, ValueRef};
use std::alloc::Global;

/// The most entries of a dictionary that is built.
const MOST_ENTRIES: usize = 65_536;

/// The index of a value's entry; a new value is added at the end. None where it is new and there are
/// as many entries as there can be.
fn index_of<'a>(
    alloc: Global,
    keys: &mut IndexSet<ValueKey<'a>>,
    entries: &mut Vec<Value>,
    value: ValueRef<'a>,
) -> R<Option<u32>>
    requires same { map key_view keys.old.keys ≡ map view entries.old.items }
    requires few { length entries.old.items ≤ 65536 }
    ensures same { IfOk result (λ found. IfSome found (λ _. map key_view keys.new.keys ≡ map view entries.new.items)) }
    ensures few { IfOk result (λ found. IfSome found (λ _. length entries.new.items ≤ 65536)) }
    ensures full { let v = value_ref_view value.entry in IfOk result (λ found. IfNone found (IsFull 65536 (map view entries.old.items) v)) }
    ensures placed { let v = value_ref_view value.entry in
        IfOk result (λ found. IfSome found (λ at. IsPlaced (map view entries.old.items) v at (map view entries.new.items))) }
    ensures of_leaf { OnOk result (IsLeafValue (value_ref_view value.entry)) }
    ensures only { OnFault result (IsLeafValue (value_ref_view value.entry) → ⊥) }
    ensures which { RefusedOnly (λ e. e ≡ Refusal.Value) result }
{
    let Some(key) = key_of(value) else {
        return Err(Refusal::Value);
    };
    let (at, is_new) = keys.insert_full(key)?;
    if is_new {
        if entries.len() == MOST_ENTRIES {
            return Ok(None);
        }
        entries.push(value.to_value(alloc)?)?;
    }
    Ok(Some(at as u32))
}

impl Dictionary {
    /// The dictionary of the values: each different one once, in the order in which they first come,
    /// and the index of each value. None exactly when there are more than 65,536 different values;
    /// the first that is too much ends the call.
    ///
    /// Refused Value exactly when a value is of no leaf (null, a group or a list) and no 65,537th
    /// different value comes before it.
    ///
    /// One pass with one look-up in a hash table for each value; each different value is copied once,
    /// and no other.
    pub fn build<V: Lends>(alloc: Global, values: &[V]) -> R<Option<Dictionary>>
        ensures stands { IfOk result (λ built. IfSome built (λ d. IsIndexed (map V.lent values.now) (entries_of d) (indexes_of d))) }
        ensures none { IfOk result (λ built. IfNone built (AreMoreThan 65536 (map V.lent values.now))) }
        ensures few { IfOk result (λ built. IfSome built (λ d. AreMoreThan 65536 (map V.lent values.now) → ⊥)) }
        ensures of_leaf { IfOk result (λ built. IfSome built (λ _. All IsLeafValue (map V.lent values.now))) }
        ensures only { OnFault result (All IsLeafValue (map V.lent values.now) → ⊥) }
        ensures which { RefusedOnly (λ e. e ≡ Refusal.Value) result }
    {
        let mut keys = IndexSet::new(alloc);
        let mut entries = Vec::new(alloc);
        let mut indexes = Vec::with_capacity(alloc, values.len())?;
        for value in values {
            let Some(index) = index_of(alloc, &mut keys, &mut entries, value.lend())? else {
                return Ok(None);
            };
            indexes.push(index)?;
        }
        Ok(Some(Dictionary { entries, indexes }))
    }
}
