//! The schema of a table, by that of its files and its key columns.

ghost use Rattle.std.specs.Prelude.{◌≡◌, ◌⊎◌, ◌+◌, ◌<◌, ◌≤◌, List, length, drop, option_map, IfOk, IfErr, MatchOption};
ghost use Rattle.bits.specs.Refusals.{RefusedOnly, RefusedMemoryOnly};
ghost use Rattle.bits.specs.declared.refusal.Refusal.TheVariants.{Memory};
ghost use Rattle.schema.specs.Shape.{Fields, count};
ghost use Rattle.schema.specs.Stripe.{leaves_of};
ghost use Rattle.schema.specs.Keys.{AreKeys, IsTableOver, key_columns_view, key_column_view, without_keys};
ghost use Rattle.schema.specs.Listed.{listings, elements_of};
ghost use Rattle.schema.specs.Listing.{IsSchemaOf, IsTooLarge};
ghost use Rattle.schema.specs.Elements.{Element as ElementShown, elements_view};
ghost use Rattle.schema.specs.Fronts.{fields_after};
ghost use Rattle.schema.specs.inner.Keyed.{IsMade, IsMadeWhole, key_at};

use crate::element::Element;
use crate::key::KeyColumn;
use crate::key_elements::{key_element, push_field};
use crate::listing::root_element;
use crate::listing_laws::{a_list_means_one_schema, a_schema_is_its_elements};
use crate::reading::MOST_LEAVES;
use crate::schema::Schema;
use bits::{R, Refusal};
use std::alloc::Global;

impl Schema {
    /// The schema of a table whose files have this schema, with the key columns at their places.
    ///
    /// Refused Key if there is no such schema, and Limit if it has too many leaves, out of memory aside. The time is linear
    /// in both, but for a look-up of each name and of each place among the keys.
    pub fn with_keys(&self, alloc: Global, keys: &[KeyColumn]) -> R<Schema>
        ensures are_keys { IfOk result (AreKeys (key_columns_view keys.now)) }
        ensures besides { IfOk result (λ fs. without_keys (key_columns_view keys.now) fs ≡ self.now) }
        ensures only { IfErr result (λ e. (e ≡ Memory → ⊥) → (fs : Fields) → IsTableOver (key_columns_view keys.now) self.now fs → ⊥) }
        ensures which { RefusedOnly (λ e. (e ≡ Refusal.Key) ⊎ ((e ≡ Refusal.Limit) × (1024 < length (leaves_of self.now) + length keys.now))) result }
    {
        a_list_means_one_schema();
        a_schema_is_its_elements();
        if self.leaves().len() + keys.len() > MOST_LEAVES {
            return Err(Refusal::Limit);
        }
        let found = table_elements(alloc, self, keys)?;
        let Some(elements) = found else {
            return Err(Refusal::Key);
        };
        let schema = schema_of(alloc, elements.as_slice())?;
        let is_whole = schema.has_keys(keys);
        if is_whole {
            Ok(schema)
        } else {
            Err(Refusal::Key)
        }
    }
}

/// The schema of these elements. Refused Key where they have none or are too many, out of memory aside.
fn schema_of(alloc: Global, elements: &[Element]) -> R<Schema>
    ensures stands { IfOk result (λ fs. IsSchemaOf (elements_view elements.now) fs) }
    ensures only { IfErr result (λ e. (e ≡ Memory → ⊥) → (fs : Fields) → IsSchemaOf (elements_view elements.now) fs → (IsTooLarge (elements_view elements.now) → ⊥) → ⊥) }
    ensures which { RefusedOnly (λ e. e ≡ Refusal.Key) result }
{
    match Schema::new(alloc, elements) {
        Ok(schema) => Ok(schema),
        Err(refusal) => Err(as_key(refusal)),
    }
}

/// Key in place of each refusal except Memory.
fn as_key(refusal: Refusal) -> Refusal
    ensures memory { refusal ≡ Memory → result ≡ Memory }
    ensures key { (refusal ≡ Memory → ⊥) → result ≡ Refusal.Key }
{
    match refusal {
        Refusal::Memory => Refusal::Memory,
        _ => Refusal::Key,
    }
}

/// The elements of a table's schema: those of the files' fields, in order, with a leaf for each key column at its place.
/// None if no schema has the key columns at these places.
fn table_elements(alloc: Global, stored: &Schema, keys: &[KeyColumn]) -> R<Option<Vec<Element>>>
    requires few { length (leaves_of stored.now) + length keys.now ≤ 1024 }
    ensures made { let columns = key_columns_view keys.now in IfOk result (λ found. MatchOption found
        ((fs : Fields) → AreKeys columns fs → without_keys columns fs ≡ stored.now → ⊥) (λ es. IsMadeWhole columns stored.now (elements_view es.items))) }
    ensures which { RefusedMemoryOnly result }
{
    // For the proof: how many fields there are.
    let _ = stored.leaves();
    // For the proof: the elements of its fields come after that of the root.
    let _ = stored.elements();
    let fields = stored.fields();
    let total = keys.len() + fields.len();
    let root = root_element(alloc, total)?;
    let mut elements = Vec::new(alloc);
    elements.push(root)?;
    let mut next = 0;
    let mut from = 1;
    for place in 0..total {
        let found = place_one(alloc, &mut elements, keys, stored, place, next, from, total)?;
        let Some((later, behind)) = found else {
            return Ok(None);
        };
        next = later;
        from = behind;
    }
    if next >= fields.len() {
        Ok(Some(elements))
    } else {
        Ok(None)
    }
}

/// Adds what stands at a place: the key column there, or the next of the files' fields, whose elements begin at `from`.
/// Returns the number of the field after it and where its elements begin; None where the place stays empty.
fn place_one(
    alloc: Global,
    out: &mut Vec<Element>,
    keys: &[KeyColumn],
    stored: &Schema,
    place: usize,
    next: usize,
    from: usize,
    total: usize,
) -> R<Option<(usize, usize)>>
    requires made { IsMade (key_columns_view keys.now) stored.now place next (elements_view out.now.items) total }
    requires from { (es : List ElementShown) → es ≡ elements_of stored.now → drop from es ≡ listings (fields_after next stored.now) }
    requires few { place < length keys.now + count stored.now }
    ensures placed { let columns = key_columns_view keys.now in IfOk result (λ found. MatchOption found
        ((fs : Fields) → AreKeys columns fs → without_keys columns fs ≡ stored.now → ⊥)
        (λ x. IsMade columns stored.now (place + 1) x.0 (elements_view out.new.items) total
        × ((es : List ElementShown) → es ≡ elements_of stored.now → drop x.1 es ≡ listings (fields_after x.0 stored.now)))) }
    ensures which { RefusedMemoryOnly result }
{
    if let Some(key) = key_at(keys, place) {
        let element = key_element(alloc, key)?;
        out.push(element)?;
        return Ok(Some((next, from)));
    }
    let fields = stored.fields();
    if next >= fields.len() {
        return Ok(None);
    }
    let behind = push_field(alloc, out, stored.elements(), from, &fields[next])?;
    Ok(Some((next + 1, behind)))
}

/// The first key column with this place.
fn key_at(keys: &[KeyColumn], place: usize) -> Option<&KeyColumn>
    ensures { option_map (λ k. key_column_view k.now) result ≡ key_at place (key_columns_view keys.now) }
{
    for key in keys {
        if key.at == place {
            return Some(key);
        }
    }
    None
}
