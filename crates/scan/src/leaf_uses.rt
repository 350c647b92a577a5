//! What is asked of each leaf of a table.

ghost use Rattle.std.specs.Prelude.{◌≡◌, IfOk};
ghost use Rattle.bits.specs.Refusals.{RefusedMemoryOnly};
ghost use Rattle.schema.specs.Keys.{key_columns_view, places_of};
ghost use Rattle.schema.specs.Stripe.{leaves_of};
ghost use Rattle.schema.specs.Views.{leaf_view};
ghost use Rattle.filter.specs.Test.{tests_in};
ghost use Rattle.scan.specs.Cost.{place_of, keys_before, is_stored};
ghost use Rattle.scan.specs.inner.Uses.{use_of, uses_of, numbers_of};

use bits::R;
use filter::Filter;
use schema::{KeyColumn, Leaf, Schema, has_place};
use std::alloc::Global;

/// What is asked of a leaf of the table, for the rows of one group.
#[derive(Debug, Clone, Copy)]
pub struct LeafUse {
    /// The index of its chunk in the group, where the group's file has one.
    pub chunk: usize,
    /// The filter looks at the leaf, and it has a chunk.
    pub is_filtered: bool,
    /// The leaf lies in a wanted column, and it has a chunk.
    pub is_wanted: bool,
}

/// What is asked of each leaf, of a group whose file has this many top-level fields.
pub fn uses_of(
    alloc: Global,
    schema: &Schema,
    keys: &[KeyColumn],
    width: usize,
    filter: &Filter,
    places: &[usize],
) -> R<Vec<LeafUse>>
    ensures stands { IfOk result (λ uses. uses.items
        ≡ uses_of (tests_in filter.now) (places_of (key_columns_view keys.now)) width places.now 0 (leaves_of schema.now)) }
    ensures which { RefusedMemoryOnly result }
{
    let leaves = schema.leaves();
    let mut uses = Vec::with_capacity(alloc, leaves.len())?;
    for (number, leaf) in leaves.iter().enumerate() {
        uses.push(use_of(keys, width, filter, places, number, leaf))?;
    }
    Ok(uses)
}

/// What is asked of the leaf with this index.
fn use_of(
    keys: &[KeyColumn],
    width: usize,
    filter: &Filter,
    places: &[usize],
    number: usize,
    leaf: &Leaf,
) -> LeafUse
    ensures { result ≡ use_of (tests_in filter.now) (places_of (key_columns_view keys.now)) width places.now number (leaf_view leaf.now) }
{
    let place = place_of(leaf);
    let is_stored = is_stored(keys, width, place);
    LeafUse {
        chunk: number.saturating_sub(keys_before(keys, place)),
        is_filtered: is_stored && filter.looks_at(number),
        is_wanted: is_stored && places.contains(&place),
    }
}

/// The index of the top-level column that a leaf lies in.
pub fn place_of(leaf: &Leaf) -> usize
    ensures { result ≡ place_of (leaf_view leaf.now).steps }
{
    match leaf.steps.as_slice().first() {
        Some(step) => step.place,
        None => 0,
    }
}

/// Whether a file with this many top-level fields has the column at a place of the table.
pub fn is_stored(keys: &[KeyColumn], width: usize, place: usize) -> bool
    ensures { result ≡ is_stored (places_of (key_columns_view keys.now)) width place }
{
    !has_place(keys, place) && place.saturating_sub(keys_before(keys, place)) < width
}

/// How many key columns stand before a place.
#[tactic(auto, using(crate::proofs::UseLaws::before_by_columns))]
fn keys_before(keys: &[KeyColumn], place: usize) -> usize
    ensures { result ≡ keys_before (places_of (key_columns_view keys.now)) place }
{
    keys.iter().filter(|k| k.at < place).count()
}

/// The indexes of the leaves that the filter looks at, or of those in wanted columns, which have chunks.
pub fn numbers_of(alloc: Global, uses: &[LeafUse], for_filter: bool) -> R<Vec<usize>>
    ensures stands { IfOk result (λ numbers. numbers.items ≡ numbers_of for_filter 0 uses.now) }
    ensures which { RefusedMemoryOnly result }
{
    let mut numbers = Vec::new(alloc);
    for (number, usage) in uses.iter().enumerate() {
        if usage.is_picked(for_filter) {
            numbers.push(number)?;
        }
    }
    Ok(numbers)
}

impl LeafUse {
    ghost use Rattle.scan.specs.inner.Uses.{is_picked, is_due};

    /// Whether the entries of the leaf are used: by the filter, or for the rows.
    pub fn is_picked(&self, for_filter: bool) -> bool
        ensures { result ≡ is_picked for_filter self.now }
    {
        if for_filter {
            self.is_filtered
        } else {
            self.is_wanted
        }
    }

    /// Whether the chunk of the leaf is read: for the filter, or after that for the rows.
    pub fn is_due(&self, for_filter: bool) -> bool
        ensures { result ≡ is_due for_filter self.now }
    {
        if for_filter {
            self.is_filtered
        } else {
            self.is_wanted && !self.is_filtered
        }
    }
}
